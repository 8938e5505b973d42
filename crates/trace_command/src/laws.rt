//! The laws of the numbers of posted writes, each the clause of a function with an empty body. They hold of every plan,
//! every list of steps and whatever the memories show, on raw pairs too.

ghost use Rattle.trace_command.specs.Laws.{
  BlockedLandingsWait,
  EachNumberStandsOnce,
  LandingsAreOfTheirLabels,
  TracesFollowTheLog,
};
ghost use Rattle.trace_command.specs.Traces.{PairTracesAreTrue};

/// A landing names the number of a write that was posted before, and that write has the label that landed.
pub fn landings_are_of_their_labels()
    ensures { LandingsAreOfTheirLabels }
{}

/// The number of each write of a side that wasn't lost as it was posted stands exactly once among those that landed,
/// those that were dropped and those in flight. No other number stands among them.
pub fn each_number_stands_once()
    ensures { EachNumberStandsOnce }
{}

/// A landing that is blocked names an earlier write in flight which the one at its place may not pass.
pub fn blocked_landings_wait()
    ensures { BlockedLandingsWait }
{}

/// After lines with the answers of a log, a trace has the writes of each pair that the log of its bridges has. The log
/// is that of a plan with switches or without. Premise: the pair is one of the plan.
pub fn traces_follow_the_log()
    ensures { TracesFollowTheLog }
{}

/// The lines of a trace are true where they have the answers of the log. A landing names the number of the write that
/// landed, and a blocked one that of an earlier write which stops it. After any lines each number stands once. The log
/// is that of a plan with switches or without. Premise: the pair is one of the plan.
pub fn traces_are_true()
    ensures { PairTracesAreTrue }
{}
