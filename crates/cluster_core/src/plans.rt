//! The switches of a plan, as they are declared and as they start.

ghost use Rattle.std.specs.Prelude.{◌≡◌, IfOk, length, map};
ghost use Rattle.std.specs.List.{All};
ghost use Rattle.step_kinds.specs.Limits.{IsPorts};
ghost use Rattle.pair_model.specs.Switch.{new_switch};

use learn_switch::Switch;
use std::alloc::{AllocError, Global};
use step_kinds::{Items, Name, SwitchPlan};

/// Returns the same declarations. Returns an error if memory runs out.
pub fn copies(alloc: Global, plans: &[SwitchPlan]) -> Result<Vec<SwitchPlan>, AllocError>
    ensures { IfOk result (λ copies. copies.items ≡ plans.now) }
{
    let mut copies = Vec::with_capacity(alloc, plans.len())?;
    for plan in plans {
        copies.push_reserved(copy_of(alloc, plan)?);
    }
    Ok(copies)
}

// Returns the same declaration.
fn copy_of(alloc: Global, plan: &SwitchPlan) -> Result<SwitchPlan, AllocError>
    ensures { IfOk result (λ copy. copy ≡ plan.now) }
{
    Ok(SwitchPlan {
        name: Name::of_bytes(plan.name.bytes()),
        ports: Items::of_vec(Vec::from_slice(alloc, plan.ports.as_slice())?),
    })
}

/// Returns a switch for each of these declarations, which has no frame and knows no station. Each has 2 to 16 ports.
/// Returns an error if memory runs out.
pub fn new_switches(alloc: Global, plans: &[SwitchPlan]) -> Result<Vec<Switch>, AllocError>
    requires { All (λ plan. IsPorts (length plan.ports)) plans.now }
    ensures { IfOk result (λ switches. switches.items ≡ map (λ plan. new_switch (length plan.ports)) plans.now) }
{
    let mut switches = Vec::new(alloc);
    for plan in plans {
        switches.push(Switch::new(alloc, plan.ports.len() as u32)?)?;
    }
    Ok(switches)
}
