//! What a script declares.

ghost use Rattle.std.specs.Prelude.{◌≡◌, IfOk};
ghost use Rattle.script_plan.specs.Scripts.{plan_in};

use std::alloc::{AllocError, Global};
use step_kinds::Plan;
use step_list::StepList;

/// What a script declares, with its steps as its lines have them.
#[derive(Drop)]
pub struct Script {
    /// The pairs, the devices, the switches and the traffic. Its own list of steps isn't read.
    pub declared: Plan,
    /// The steps.
    pub steps: StepList,
}

impl Script {
    /// Returns the plan, in which each step stands by itself. Returns an error if memory runs out.
    pub fn into_plan(self, alloc: Global) -> Result<Plan, AllocError>
        ensures { IfOk result (λ plan. plan ≡ plan_in self) }
    {
        let Script { declared, steps } = self;
        let mut plan = declared;
        plan.steps = steps.into_items(alloc)?;
        Ok(plan)
    }
}
