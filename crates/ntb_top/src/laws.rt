//! What a run of each command means.

ghost use Rattle.std.specs.Prelude.{◌≡◌, ℕ, Some, Ok, List};
ghost use Rattle.ntb_top.specs.Completeness.{LoadsComplete, ReplaysComplete, RunsComplete};
ghost use Rattle.ntb_top.specs.Laws.{ExplorationsAreTrue, LoadsAreTrue, ReadsAreTrue, ReplaysAreTrue, TracesAreTrue};

/// If `replay` ends with status 0, the bytes that were read declare a plan, its report was written, and the log of that
/// plan is true. No premise.
pub fn replays_are_true()
    ensures { ReplaysAreTrue }
{}

/// If `load` ends with status 0, its summary was written, and the log of the plan that it generates is true. No
/// premise.
pub fn loads_are_true()
    ensures { LoadsAreTrue }
{}

/// If `reads` ends with status 0, the bytes that were read are the lines of steps, and the lines of their answers were
/// written. Each read in the log of these steps has then pushed the posted writes before it. No premise.
pub fn reads_are_true()
    ensures { ReadsAreTrue }
{}

/// If `trace` ends with status 0, the bytes that were read declare a plan, and its trace was written. In it, on each
/// pair, each landing names the write that landed, each number stands once, and each blocked landing names an earlier
/// write that stops it. No premise.
pub fn traces_are_true()
    ensures { TracesAreTrue }
{}

/// If `explore` ends with status 0, the bytes that were read declare a plan, and the text was written of all outcomes
/// of its schedules. Each outcome in the text is one of a schedule, whose further landings are shown. The outcome of
/// each schedule is shown, and none twice. The number of states is that of those that the schedules reach. No premise.
#[tactic(auto, using(crate::proofs::Explorations::explorations_true))]
pub fn explorations_are_true()
    ensures { ExplorationsAreTrue }
{}

/// If the source tells its bytes, few enough for a script, and neither it nor the sink fails, a command that reads ends
/// in one of two ways. It answers just these bytes and writes its text whole, or it is out of memory and writes
/// nothing. No other end is possible.
#[tactic(auto, using(crate::proofs::CompleteRuns::runs_complete))]
pub fn runs_are_complete()
    ensures { RunsComplete }
{}

/// If the source tells its bytes, few enough for a script, and nothing outside fails, `replay` of a script without a
/// fault ends with status 0 or 6. With 0 it has written the report of its plan, and with 6 nothing.
#[tactic(auto, using(crate::proofs::CompleteRuns::replays_complete))]
pub fn replays_are_complete()
    ensures { ReplaysComplete }
{}

/// If the sink doesn't fail, `load` ends with status 0 or 6. With 0 it has written its summary, and with 6 nothing.
#[tactic(auto, using(crate::proofs::CompleteRuns::loads_complete))]
pub fn loads_are_complete()
    ensures { LoadsComplete }
{}
