//! States closed under landings.

ghost use Rattle.std.specs.Prelude.{◌≡◌, ◌≤◌, ◌<◌, ◌↔◌, ◌++◌, ◌∷◌, [], IfOk, IsTrue, OnOk, length};
ghost use Rattle.std.specs.List.{All, HoldsAt};
ghost use Rattle.pair_model.specs.PlanParts.{declared_part};
ghost use Rattle.pair_model.specs.DeclaredPlans.{IsPairOf};
ghost use Rattle.explore_search.specs.Paths.{IsExplorable};
ghost use Rattle.explore_search.specs.Spread.{AreAdded, AreClosed, IsNext, IsOfSide, IsSpread, Lands};
ghost use Rattle.explore_search.specs.States.{HaveGrown, IsMachineAt, IsSpareOf, IsState, made_to};

use crate::known::leads_back;
use crate::machine::Machine;
use crate::paths::rebuilt;
use crate::states::{State, States, join};
use explore_model::Landing;
use std::alloc::{AllocError, Global};
use step_kinds::{Answer, Plan, Side};

// How many places of writes a landing can name.
const PLACES: usize = 4_294_967_296;

/// Adds to states, all after this many steps of the plan, those to which landings lead from them, until there are more
/// than there is room for. It answers whether there was room. Returns an error if memory runs out.
pub fn close<M: Machine>(
    alloc: Global,
    plan: &Plan,
    done: usize,
    states: &mut States<M>,
    room: usize,
    live: usize,
) -> Result<bool, AllocError>
    requires plan { IsExplorable plan.now }
    requires done { done ≤ length plan.now.steps }
    requires states { All (IsState M.has_made M.plan_held M.key_of plan.now done) states.old }
    ensures grown { OnOk result (HaveGrown M.has_made M.plan_held M.key_of plan.now done states.old states.new) }
    ensures room { IfOk result (λ answer. IsTrue answer ↔ length states.new ≤ room) }
    ensures closed { IfOk result (λ answer. IsTrue answer → AreClosed M.has_made plan.now done states.new) }
{
    let mut from = 0;
    while from < states.len() && states.len() <= room {
        spread(alloc, plan, done, states, from, live)?;
        from += 1;
    }
    Ok(states.len() <= room)
}

// Adds the states to which landings lead from one of them.
fn spread<M: Machine>(
    alloc: Global,
    plan: &Plan,
    done: usize,
    states: &mut States<M>,
    from: usize,
    live: usize,
) -> Result<(), AllocError>
    requires plan { IsExplorable plan.now }
    requires done { done ≤ length plan.now.steps }
    requires states { All (IsState M.has_made M.plan_held M.key_of plan.now done) states.old }
    requires from { from < length states.old }
    ensures grown { OnOk result (HaveGrown M.has_made M.plan_held M.key_of plan.now done states.old states.new) }
    ensures spread { OnOk result (HoldsAt (IsSpread M.has_made plan.now done states.new) states.old from) }
{
    let machine = machine_of(alloc, plan, done, &states.as_slice()[from], None)?;
    let landings = landings_at(alloc, plan, done, &machine)?;
    let mut spare = Some(machine);
    for landing in &landings {
        spare = land(alloc, plan, done, states, from, spare, *landing, live)?;
    }
    Ok(())
}

// Makes a landing after a state, and adds the state to which it leads where it is answered `landed`, unless it is known
// to lead to one of the states. It takes a machine of the state where one is at hand, and answers one where the landing
// left it at the state.
fn land<M: Machine>(
    alloc: Global,
    plan: &Plan,
    done: usize,
    states: &mut States<M>,
    from: usize,
    spare: Option<M>,
    landing: Landing,
    live: usize,
) -> Result<Option<M>, AllocError>
    requires plan { IsExplorable plan.now }
    requires done { done ≤ length plan.now.steps }
    requires states { All (IsState M.has_made M.plan_held M.key_of plan.now done) states.old }
    requires from { from < length states.old }
    requires spare { HoldsAt (IsSpareOf M.has_made M.plan_held plan.now done spare) states.old from }
    requires landing { IsNext plan.now done landing }
    ensures grown { OnOk result (HaveGrown M.has_made M.plan_held M.key_of plan.now done states.old states.new) }
    ensures lands { OnOk result (HoldsAt (λ state. Lands M.has_made plan.now done states.new state landing) states.old from) }
    ensures spare { IfOk result (λ spare. HoldsAt (IsSpareOf M.has_made M.plan_held plan.now done spare) states.old from) }
{
    if leads_back(alloc, plan, done, states, from, landing)? {
        return Ok(spare);
    }
    let mut machine = machine_of(alloc, plan, done, &states.as_slice()[from], spare)?;
    let answer = machine.step(&landing.as_step())?;
    let Answer::Landed { .. } = answer else {
        return Ok(Some(machine));
    };
    let landings = longer(alloc, &states.as_slice()[from].landings, landing)?;
    join(alloc, plan, done, states, landings, machine, live)?;
    Ok(None)
}

// Returns a path with one landing more.
fn longer(alloc: Global, path: &[Landing], landing: Landing) -> Result<Vec<Landing>, AllocError>
    ensures { IfOk result (λ longer. longer.items ≡ path.now ++ landing ∷ []) }
{
    let mut longer = Vec::with_capacity(alloc, path.len().saturating_add(1))?;
    longer.extend_from_slice(path)?;
    longer.push(landing)?;
    Ok(longer)
}

// Returns a machine of a state: the one at hand, or a copy of the one that the state keeps, or one that is made anew
// along the path.
fn machine_of<M: Machine>(
    alloc: Global,
    plan: &Plan,
    done: usize,
    state: &State<M>,
    spare: Option<M>,
) -> Result<M, AllocError>
    requires plan { IsExplorable plan.now }
    requires done { done ≤ length plan.now.steps }
    requires state { IsState M.has_made M.plan_held M.key_of plan.now done state.now }
    requires spare { IsSpareOf M.has_made M.plan_held plan.now done spare state.now }
    ensures { IfOk result (IsMachineAt M.has_made M.plan_held plan.now (made_to plan.now done state.now)) }
{
    if let Some(machine) = spare {
        return Ok(machine);
    }
    match &state.machine {
        Some(machine) => machine.copy_of(alloc),
        None => rebuilt::<M>(alloc, plan, &state.landings, done),
    }
}

// Returns the landings of all pairs and sides at places where a machine has writes in flight, the last place first.
// Each landing that lands takes a machine, and one at the front of a side always lands: so none is left over.
fn landings_at<M: Machine>(
    alloc: Global,
    plan: &Plan,
    done: usize,
    machine: &M,
) -> Result<Vec<Landing>, AllocError>
    requires plan { IsExplorable plan.now }
    requires machine { M.plan_held machine.now ≡ declared_part plan.now }
    ensures { IfOk result (λ landings. AreAdded M.has_made plan.now done machine.now (λ landing. Unit {0}) [] landings.items) }
{
    let mut landings = Vec::new(alloc);
    for pair in 0..plan.pairs.len() as u32 {
        push_side(&mut landings, plan, done, machine, pair, Side::A)?;
        push_side(&mut landings, plan, done, machine, pair, Side::B)?;
    }
    landings.reverse();
    Ok(landings)
}

// Adds the landings of a side of a pair.
fn push_side<M: Machine>(
    landings: &mut Vec<Landing>,
    plan: &Plan,
    done: usize,
    machine: &M,
    pair: u32,
    side: Side,
) -> Result<(), AllocError>
    requires pair { IsPairOf plan.now pair }
    requires machine { M.plan_held machine.now ≡ declared_part plan.now }
    ensures { OnOk result (AreAdded M.has_made plan.now done machine.now (IsOfSide pair side) landings.old.items landings.new.items) }
{
    let count = machine.in_flight(pair, side).min(PLACES);
    for place in 0..count {
        landings.push(Landing {
            at: done,
            pair,
            side,
            place: place as u32,
        })?;
    }
    Ok(())
}
