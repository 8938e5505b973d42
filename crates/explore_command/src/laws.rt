//! Laws of what `explore` answers, each the contract of a function that does nothing.

ghost use Rattle.std.specs.Prelude.{◌≡◌, ◌↔◌, ℕ, List};
ghost use Rattle.command_reply.specs.Output.{Output};
ghost use Rattle.command_reply.specs.Statuses.{number_of};
ghost use Rattle.command_reply.specs.declared.status.Status.TheVariants.{TooManyStates};
ghost use Rattle.explore_command.specs.Answers.{IsExploreOf};
ghost use Rattle.explore_command.specs.Laws.{ReachTooMany};

/// All answers to the bytes of a script have one status. No premise.
pub fn one_status()
    ensures { (bytes : List ℕ) (one other : Output) → IsExploreOf bytes one → IsExploreOf bytes other
        → one.status ≡ other.status }
{}

/// The status of an answer is 8 if and only if the bytes are a script whose schedules reach more than 1,000,000 states.
/// No premise.
pub fn too_many_is_exact()
    ensures { (bytes : List ℕ) (output : Output) → IsExploreOf bytes output
        → (output.status ≡ number_of TooManyStates) ↔ ReachTooMany bytes }
{}
