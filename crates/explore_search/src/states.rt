//! States of a search, and how one is found among others.

ghost use Rattle.std.specs.Prelude.{◌≡◌, ◌≤◌, ◌<◌, ◌↔◌, ◌∷◌, ◌++◌, [], IfOk, IfSome, IsTrue, List, OnErr, OnOk, length, slice_index_or};
ghost use Rattle.std.specs.List.{All};
ghost use Rattle.pair_model.specs.PlanParts.{declared_part};
ghost use Rattle.step_kinds.specs.declared.steps.Step.{Step as StepValue};
ghost use Rattle.explore_search.specs.Chains.{AreChained, HasPushed, IsLast};
ghost use Rattle.explore_search.specs.Paths.{IsExplorable, IsLandingBy, path, search_script_of};
ghost use Rattle.explore_search.specs.States.{Covers, IsMachineAt, IsState, Joined, Reaches};

use crate::machine::Machine;
use crate::paths::rebuilt;
use explore_model::Landing;
use indexmap::IndexMap;
use std::alloc::{AllocError, Global};
use std::marker::Model;
use step_kinds::Plan;

// This many bytes most keys don't exceed: a longer one grows.
pub const KEY_ROOM: usize = 128;

/// A state of a search: the landings of a path to it, the key of its machine, and maybe the machine.
#[derive(Drop)]
pub struct State<M> {
    /// The further landings of the path, in order.
    pub landings: Vec<Landing>,
    /// The key of each machine in this state.
    pub key: Vec<u8>,
    /// The place of the last state before it with the same key, if there is one.
    pub before: Option<usize>,
    /// A machine in this state, if it is kept.
    pub machine: Option<M>,
}

/// States in the order in which they were reached. Those with one key are found in turn, the last of them first.
/// Contracts see the list.
#[derive(Drop)]
pub struct States<M> {
    list: Vec<State<M>>,
    last: IndexMap<Vec<u8>, usize>,
}

impl<M: Machine> States<M> {
    /// No states.
    pub fn new(alloc: Global) -> States<M>
        ensures { result ≡ [] }
    {
        States {
            list: Vec::new(alloc),
            last: IndexMap::new(alloc),
        }
    }

    /// Returns how many states there are.
    pub fn len(&self) -> usize
        ensures { result ≡ length self.now }
    {
        self.list.len()
    }

    /// Returns the states.
    pub fn as_slice(&self) -> &[State<M>]
        ensures { result.now ≡ self.now }
    {
        &self.list
    }

    /// Returns the states alone.
    pub fn into_vec(self) -> Vec<State<M>>
        ensures { result.items ≡ self }
    {
        self.list
    }

    /// Returns the place of the last state with this key, if there is one. The clause `before` says the same of each
    /// state: its field `before` has the place of the last one before it with its key.
    pub fn last_with(&self, key: &Vec<u8>) -> Option<usize>
        ensures last { IsLast self.now key.now.items (length self.now) result }
        ensures before { AreChained self.now }
    {
        self.last.get(key).copied()
    }

    /// Adds a state with this path and key.
    ///
    /// # Errors
    ///
    /// [`AllocError`] if memory runs out, and then the states stay.
    pub fn push(
        &mut self,
        alloc: Global,
        landings: Vec<Landing>,
        key: Vec<u8>,
        machine: Option<M>,
    ) -> Result<(), AllocError>
        ensures ok { OnOk result (HasPushed landings.items key.items machine self.old self.new) }
        ensures err { OnErr result (self.new ≡ self.old) }
    {
        self.list.reserve(1)?;
        let name = Vec::from_slice(alloc, &key)?;
        let before = self.last.insert(name, self.list.len())?;
        self.list.push_reserved(State {
            landings,
            key,
            before,
            machine,
        });
        Ok(())
    }
}

impl<M> Model for States<M> {
    ghost use Rattle.std.specs.Prelude.{List};
    ghost use Rattle.explore_search.specs.Chains.{AreIndexed};
    ghost use Rattle.explore_search.specs.declared.states.State.{State as StateValue};

    ghost Value = { List (StateValue M) };

    ghost view = { λ states. states.list.items };

    ghost invariant = { λ states. AreIndexed states.last (λ key. key.items) states.list.items };
}

/// Adds the state of a machine, which has made this many steps of the plan and these landings between them, unless it
/// is among the states. Where fewer than `live` states are there it keeps its machine. Returns an error if memory runs
/// out.
pub fn join<M: Machine>(
    alloc: Global,
    plan: &Plan,
    done: usize,
    states: &mut States<M>,
    landings: Vec<Landing>,
    machine: M,
    live: usize,
) -> Result<(), AllocError>
    requires plan { IsExplorable plan.now }
    requires done { done ≤ length plan.now.steps }
    requires states { All (IsState M.has_made M.plan_held M.key_of plan.now done) states.old }
    requires landings { All (IsLandingBy plan.now done) landings.items }
    requires machine { IsMachineAt M.has_made M.plan_held plan.now (path (search_script_of plan.now) landings.items done) machine }
    ensures { OnOk result (Joined M.has_made M.plan_held M.key_of plan.now done landings.items states.old states.new) }
{
    let mut key = Vec::with_capacity(alloc, KEY_ROOM)?;
    machine.push_key(&mut key)?;
    if is_among(alloc, plan, done, states, &machine, &key)? {
        return Ok(());
    }
    let machine = kept(machine, states.len() < live);
    states.push(alloc, landings, key, machine)
}

// Returns the machine, if it is kept.
fn kept<M: Machine>(machine: M, is_kept: bool) -> Option<M>
    ensures { IfSome result (λ same. same ≡ machine) }
{
    if is_kept { Some(machine) } else { None }
}

// Returns whether one of the states is that of a machine, which has this key.
fn is_among<M: Machine>(
    alloc: Global,
    plan: &Plan,
    done: usize,
    states: &States<M>,
    machine: &M,
    key: &Vec<u8>,
) -> Result<bool, AllocError>
    requires plan { IsExplorable plan.now }
    requires done { done ≤ length plan.now.steps }
    requires states { All (IsState M.has_made M.plan_held M.key_of plan.now done) states.now }
    requires machine { M.plan_held machine.now ≡ declared_part plan.now }
    requires key { key.now.items ≡ M.key_of machine.now }
    ensures { (made : List StepValue) → M.has_made machine.now plan.now made →
        IfOk result (λ answer. IsTrue answer ↔ Covers M.has_made plan.now done states.now made) }
{
    let mut last = states.last_with(key);
    while let Some(place) = last {
        let state = &states.as_slice()[place];
        if is_state_of(alloc, plan, done, state, machine, key)? {
            return Ok(true);
        }
        last = state.before;
    }
    Ok(false)
}

// Returns whether a state is that of a machine, which has this key.
fn is_state_of<M: Machine>(
    alloc: Global,
    plan: &Plan,
    done: usize,
    state: &State<M>,
    machine: &M,
    key: &[u8],
) -> Result<bool, AllocError>
    requires plan { IsExplorable plan.now }
    requires done { done ≤ length plan.now.steps }
    requires state { IsState M.has_made M.plan_held M.key_of plan.now done state.now }
    requires machine { M.plan_held machine.now ≡ declared_part plan.now }
    requires key { key.now ≡ M.key_of machine.now }
    ensures { (made : List StepValue) → M.has_made machine.now plan.now made →
        IfOk result (λ answer. IsTrue answer ↔ Reaches M.has_made plan.now done state.now made) }
{
    if state.key.as_slice() != key {
        return Ok(false);
    }
    match &state.machine {
        Some(kept) => Ok(kept.is_same(machine)),
        None => {
            let again = rebuilt::<M>(alloc, plan, &state.landings, done)?;
            Ok(again.is_same(machine))
        }
    }
}
