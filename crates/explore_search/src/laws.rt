//! A law of the states that schedules reach, the contract of a function that does nothing.

ghost use Rattle.std.specs.Prelude.{◌≡◌, ℕ, List};
ghost use Rattle.step_kinds.specs.declared.plan.Plan.{Plan as PlanValue};
ghost use Rattle.step_kinds.specs.declared.steps.Step.{Step as StepValue};
ghost use Rattle.explore_model.specs.States.{HasMoreThan, IsCensus};

use crate::Machine;

/// The number of a census is exact: the schedules of its script don't reach more states, and each census of them has
/// that number. The premise is the first law of a [`Machine`]: machines that have made one list of steps have made the
/// same lists.
pub fn census_is_exact<M: Machine>()
    ensures no_more { (plan : PlanValue) (script : List StepValue) (count : ℕ)
        → IsCensus M.has_made plan script count → HasMoreThan M.has_made plan script count → ⊥ }
    ensures one { (plan : PlanValue) (script : List StepValue) (count other : ℕ)
        → IsCensus M.has_made plan script count → IsCensus M.has_made plan script other → count ≡ other }
{}
