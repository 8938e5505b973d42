//! What a switch answers, in the words of a script.

ghost use Rattle.std.specs.Prelude.{◌≡◌};
ghost use Rattle.ledger_model.specs.Network.{answer_of};

use learn_switch::RelayAnswer;
use step_kinds::Answer;

/// Returns the answer of a switch to a relay, in the words of a script.
pub fn relay_answer(relayed: RelayAnswer) -> Answer
    ensures { result ≡ answer_of relayed }
{
    match relayed {
        RelayAnswer::Nothing => Answer::Nothing,
        RelayAnswer::Short { len } => Answer::Short { len },
        RelayAnswer::Filtered => Answer::Filtered,
        RelayAnswer::To { port } => Answer::To { port },
        RelayAnswer::Flood { count } => Answer::Flood { count },
    }
}
