//! Laws of scripts, each the clause of a function with an empty body.

ghost use Rattle.std.specs.Prelude.{◌≡◌, ◌-◌, ◌≤◌, length, take, slice_index, IsOk};
ghost use Rattle.script_text.specs.Laws.{EachPlanIsWhole, FaultEndsAt};
ghost use Rattle.script_text.specs.Script.{script_of};

/// Each plan that a script declares is whole: its pairs, devices, switches, steps and traffic are as a script can
/// declare them, and no limit is passed. No premise.
pub fn each_plan_is_whole()
    ensures { EachPlanIsWhole }
{}

/// A script that is cut after a line feed is still one. If the whole bytes declare a plan, so do the first `end` of
/// them, at least one, the last of which is a line feed.
pub fn cut_plan(bytes: &[u8], end: usize)
    requires plan { IsOk (script_of bytes.now) }
    requires some { 1 ≤ end }
    requires within { end ≤ length bytes.now }
    requires line_feed { slice_index bytes.now (end - 1) ≡ 10 }
    ensures { IsOk (script_of (take end bytes.now)) }
{}

/// A script's fault hangs on nothing after its line, if that line ends with the line feed before place `end`. Any other
/// bytes that begin with the same `end` bytes have the same fault, in the same line.
pub fn same_fault(bytes: &[u8], other: &[u8], end: usize)
    requires fault { FaultEndsAt bytes.now end }
    requires same { take end other.now ≡ take end bytes.now }
    ensures { script_of other.now ≡ script_of bytes.now }
{}
