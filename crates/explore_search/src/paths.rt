//! Machines made anew along a path.

ghost use Rattle.std.specs.Prelude.{◌≡◌, ◌≤◌, ◌++◌, IfOk, List, OnOk, length};
ghost use Rattle.std.specs.List.{All};
ghost use Rattle.pair_model.specs.PlanParts.{declared_part, steps_in};
ghost use Rattle.step_kinds.specs.declared.plan.Plan.{Plan as PlanValue};
ghost use Rattle.step_kinds.specs.declared.steps.Step.{Step as StepValue};
ghost use Rattle.pair_model.specs.Switches.{IsMakeable};
ghost use Rattle.explore_search.specs.Paths.{IsExplorable, IsLandingBy, between, path, search_script_of};

use crate::machine::Machine;
use explore_model::Landing;
use std::alloc::{AllocError, Global};
use step_kinds::{Line, Plan};

/// Returns a machine that has made this many steps of a plan, and these landings between them. Returns an error if
/// memory runs out.
pub fn rebuilt<M: Machine>(
    alloc: Global,
    plan: &Plan,
    landings: &[Landing],
    done: usize,
) -> Result<M, AllocError>
    requires plan { IsExplorable plan.now }
    requires done { done ≤ length plan.now.steps }
    requires landings { All (IsLandingBy plan.now done) landings.now }
    ensures made { IfOk result (λ machine. M.has_made machine plan.now (path (search_script_of plan.now) landings.now done)) }
    ensures plan { IfOk result (λ machine. M.plan_held machine ≡ declared_part plan.now) }
{
    let lines = plan.steps.as_slice();
    let mut machine = M::fresh(alloc, plan)?;
    let mut at = 0;
    for landing in landings {
        make_lines(&mut machine, lines, at, landing.at)?;
        machine.step(&landing.as_step())?;
        at = landing.at;
    }
    make_lines(&mut machine, lines, at, done)?;
    Ok(machine)
}

// Makes the steps of a script from one place up to another.
fn make_lines<M: Machine>(
    machine: &mut M,
    lines: &[Line],
    from: usize,
    to: usize,
) -> Result<(), AllocError>
    requires may { All (λ line. IsMakeable (M.plan_held machine.old) line.step) lines.now }
    requires within { to ≤ length lines.now }
    ensures plan { M.plan_held machine.new ≡ M.plan_held machine.old }
    ensures made { (plan : PlanValue) (steps : List StepValue) → M.has_made machine.old plan steps →
        OnOk result (M.has_made machine.new plan (steps ++ between (steps_in lines.now) from to)) }
{
    for place in from..to {
        machine.step(&lines[place].step)?;
    }
    Ok(())
}
