//! Landings that lead to states which are known, found out by the machines that the states keep.

ghost use Rattle.std.specs.Prelude.{◌≡◌, ◌<◌, IfOk, IfSome, IsTrue, length};
ghost use Rattle.std.specs.List.{All, Any, HoldsAt};
ghost use Rattle.pair_model.specs.DeclaredPlans.{IsPairOf};
ghost use Rattle.explore_search.specs.Known.{AreOfPlan, IsLandedIn};
ghost use Rattle.explore_search.specs.Paths.{IsExplorable};
ghost use Rattle.explore_search.specs.Spread.{IsNext, Lands};
ghost use Rattle.explore_search.specs.States.{IsState};

use crate::machine::Machine;
use crate::states::{KEY_ROOM, States};
use explore_model::Landing;
use std::alloc::{AllocError, Global};
use step_kinds::Plan;

/// Returns whether a landing after one of the states, which are all after this many steps of the plan, leads to one of
/// them. It is found out without making the landing, and only by machines that states keep. If the answer is `false`,
/// the landing may lead to one of them all the same. Returns an error if memory runs out.
pub fn leads_back<M: Machine>(
    alloc: Global,
    plan: &Plan,
    done: usize,
    states: &States<M>,
    from: usize,
    landing: Landing,
) -> Result<bool, AllocError>
    requires plan { IsExplorable plan.now }
    requires states { All (IsState M.has_made M.plan_held M.key_of plan.now done) states.now }
    requires from { from < length states.now }
    requires landing { IsNext plan.now done landing }
    ensures { IfOk result (λ answer. IsTrue answer → HoldsAt (λ state. Lands M.has_made plan.now done states.now state landing) states.now from) }
{
    let Some(machine) = &states.as_slice()[from].machine else {
        return Ok(false);
    };
    let mut key = Vec::with_capacity(alloc, KEY_ROOM)?;
    machine.push_key_without(landing, &mut key)?;
    Ok(lands_among(states, &key, machine, landing))
}

// Returns whether one of the states with this key keeps a machine that is the same as another once a landing has landed
// on that.
fn lands_among<M: Machine>(states: &States<M>, key: &Vec<u8>, machine: &M, landing: Landing) -> bool
    requires pair { IsPairOf (M.plan_held machine.now) landing.pair }
    requires states { AreOfPlan M.plan_held (M.plan_held machine.now) states.now }
    ensures { IsTrue result → Any (IsLandedIn M.has_made machine.now landing) states.now }
{
    let mut last = states.last_with(key);
    while let Some(place) = last {
        let state = &states.as_slice()[place];
        if let Some(kept) = &state.machine
            && machine.lands_as(landing, kept)
        {
            return true;
        }
        last = state.before;
    }
    false
}
