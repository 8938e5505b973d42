//! What the parts of a pair answer, in the words of a script.

ghost use Rattle.std.specs.Prelude.{◌≡◌};
ghost use Rattle.std.specs.Result.{result_err};
ghost use Rattle.fabric_rule.specs.Answers as of;
ghost use Rattle.step_kinds.specs.declared.steps.Answer.TheVariants as answer;

use hand_shake::{CheckAnswer, JoinAnswer, OfferAnswer, ReadyAnswer};
use link_state::LinkRefusal;
use posted_queue::LandAnswer;
use queue_pair::{BeginAnswer, LookAnswer};
use step_kinds::{Answer, Label, LaneCopy};

/// The answer under the same name, for each of these variants; after them, rows for those that a script knows under
/// another name.
macro_rules! same_name {
    ($given:ident: $kind:ident; $($name:ident $({ $($number:ident),+ })?),+ $(; $other:pat => $answer:expr)*) => {
        match $given {
            $($kind::$name $({ $($number),+ })? => Answer::$name $({ $($number),+ })?,)+
            $($other => $answer,)*
        }
    };
}

/// Returns a refusal of the link.
pub fn refusal_answer(refusal: LinkRefusal) -> Answer
    ensures { result ≡ of.of_refusal refusal }
{
    same_name! { refusal: LinkRefusal;
        NotDown, Dirty, NotEnabled, NotUp, NotClosing;
        LinkRefusal::SessionsSpent => Answer::Spent
    }
}

/// Returns a step of the link that was made or refused.
pub fn link_answer(made: Result<(), LinkRefusal>) -> Answer
    ensures { result ≡ of.of_link (result_err made) answer.Ok }
{
    match made {
        Ok(()) => Answer::Ok,
        Err(refusal) => refusal_answer(refusal),
    }
}

/// Returns an offer.
pub fn offer_answer(offer: OfferAnswer) -> Answer
    ensures { result ≡ of.of_offer offer }
{
    same_name!(offer: OfferAnswer; LinkDown, Already, Offered { index })
}

/// Returns a check.
pub fn check_answer(check: CheckAnswer) -> Answer
    ensures { result ≡ of.of_check check }
{
    same_name! { check: CheckAnswer;
        LinkDown, Already, NotYet,
        Version { seen, own }, Queues { seen, own }, Windows { seen, own }, Size { seen, cap },
        Up
    }
}

/// Returns a queue that is ready.
pub fn ready_answer(ready: ReadyAnswer) -> Answer
    ensures { result ≡ of.of_ready ready }
{
    same_name!(ready: ReadyAnswer; LinkDown, NotChecked, Already, Ok)
}

/// Returns a queue that is joined.
pub fn join_answer(join: JoinAnswer) -> Answer
    ensures { result ≡ of.of_join join }
{
    same_name!(join: JoinAnswer; LinkDown, NotReady, Already, NotYet, Joined)
}

/// Returns a beginning.
pub fn begin_answer(begun: BeginAnswer) -> Answer
    ensures { result ≡ of.of_begin begun }
{
    same_name! { begun: BeginAnswer;
        LinkDown, NotReady, Closed, TooLong { len, max }, Busy;
        BeginAnswer::NoRoom { head, tail } => Answer::Again { head, tail };
        BeginAnswer::Ok { number } => Answer::OkNumber { number }
    }
}

/// Returns a beginning of a device's frame: a stopped device is refused before the ring's room is tested.
pub fn xbegin_answer(stopped: bool, begun: BeginAnswer) -> Answer
    ensures { result ≡ of.of_xbegin stopped begun }
{
    if !stopped {
        return begin_answer(begun);
    }
    same_name! { begun: BeginAnswer;
        LinkDown, NotReady, Closed, TooLong { len, max }, Busy;
        BeginAnswer::Ok { .. } => Answer::Stopped;
        BeginAnswer::NoRoom { .. } => Answer::Stopped
    }
}

/// Returns a post.
pub fn post_answer(posted: Option<Label>) -> Answer
    ensures { result ≡ of.of_post posted }
{
    posted.map_or(Answer::Idle, |label| Answer::Posted { label })
}

/// Returns a landing.
pub fn land_answer(landed: LandAnswer<Label>) -> Answer
    ensures { result ≡ of.of_land landed }
{
    match landed {
        LandAnswer::Landed(label) => Answer::Landed { label },
        LandAnswer::Blocked => Answer::Blocked,
        LandAnswer::Nothing => Answer::Nothing,
    }
}

/// Returns a look.
pub fn look_answer(look: LookAnswer) -> Answer
    ensures { result ≡ of.of_look look }
{
    same_name! { look: LookAnswer;
        Empty, PeerDown, VerDiffers { seen, own }, Long { len, max }, OutOfTurn, NotReady, Closed;
        LookAnswer::Ready { number, len } => Answer::ReadyFrame { number, len }
    }
}

/// Returns a copy.
pub fn copy_answer(copy: LaneCopy) -> Answer
    ensures { result ≡ of.of_copy copy }
{
    match copy {
        LaneCopy::Part { number, part } => Answer::Copied { number, part },
        LaneCopy::Whole { number, frame } => Answer::Delivered { number, frame },
        LaneCopy::OutOfTurn => Answer::OutOfTurn,
    }
}

/// Returns a clear.
pub fn clear_answer(cleared: Option<u64>) -> Answer
    ensures { result ≡ of.of_clear cleared }
{
    cleared.map_or(Answer::OutOfTurn, |number| Answer::Cleared { number })
}

/// Returns an ack.
pub fn ack_answer(acked: Option<u64>) -> Answer
    ensures { result ≡ of.of_ack acked }
{
    acked.map_or(Answer::OutOfTurn, |number| Answer::Acked { number })
}
