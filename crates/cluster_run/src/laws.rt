//! Laws of runs, each the clause of a function with an empty body.

ghost use Rattle.cluster_run.specs.Lanes.{EachWholePlanCanRun};

/// The traffic of every plan that a script declares can be run. No premise but that it is such a plan.
pub fn each_whole_plan_can_run()
    ensures { EachWholePlanCanRun }
{}
