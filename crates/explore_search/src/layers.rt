//! Groups of states by their answers, and the branches to which the next step leads from them.

ghost use Rattle.std.specs.Prelude.{◌≡◌, ◌+◌, ◌<◌, ◌≤◌, ◌++◌, ◌∷◌, [], IfOk, IfSome, OnOk, length, map};
ghost use Rattle.std.specs.List.{All};
ghost use Rattle.explore_search.specs.Layers.{AreKept, HasPlaced, HasStepped, HaveBranched, IsSearchPlace, with_answers};
ghost use Rattle.explore_search.specs.Paths.{IsExplorable, IsLandingBy, path, search_script_of};
ghost use Rattle.explore_search.specs.States.{IsMachineAt, IsState};

use crate::machine::Machine;
use crate::paths::rebuilt;
use crate::states::{State, States, join};
use explore_model::Landing;
use report_text::text_of;
use std::alloc::{AllocError, Global};
use std::cmp::Ordering;
use step_kinds::{Items, Plan};

/// The states of a layer that were reached with the same answers.
#[derive(Drop)]
pub struct Group<M> {
    /// The texts of the answers.
    pub answers: Items<Items<u8>>,
    /// The states.
    pub states: States<M>,
}

/// The states that a group's states lead to by one step that is answered alike.
#[derive(Drop)]
pub struct Branch<M> {
    /// The text of the answer.
    pub text: Items<u8>,
    /// The states.
    pub states: States<M>,
}

/// Makes the next step of the script on each state of a group. The branches stand in the order of their texts. Returns
/// an error if memory runs out.
pub fn branches_of<M: Machine>(
    alloc: Global,
    plan: &Plan,
    done: usize,
    states: Vec<State<M>>,
    live: usize,
) -> Result<Vec<Branch<M>>, AllocError>
    requires plan { IsExplorable plan.now }
    requires done { done < length plan.now.steps }
    requires states { AreKept M.has_made M.plan_held M.key_of plan.now done states.items }
    ensures { IfOk result (λ branches. HaveBranched M.has_made M.plan_held M.key_of plan.now done states.items branches.items) }
{
    let mut branches = Vec::new(alloc);
    for state in states {
        step_state(alloc, plan, done, state, &mut branches, live)?;
    }
    Ok(branches)
}

// Makes the next step of the script on a state, and puts the state that it leads to into the branch of its answer.
fn step_state<M: Machine>(
    alloc: Global,
    plan: &Plan,
    done: usize,
    state: State<M>,
    branches: &mut Vec<Branch<M>>,
    live: usize,
) -> Result<(), AllocError>
    requires plan { IsExplorable plan.now }
    requires done { done < length plan.now.steps }
    requires state { IsState M.has_made M.plan_held M.key_of plan.now done state }
    requires branches { All (λ branch. AreKept M.has_made M.plan_held M.key_of plan.now (done + 1) branch.states) branches.old.items }
    ensures { OnOk result (HasStepped M.has_made M.plan_held M.key_of plan.now done state branches.old.items branches.new.items) }
{
    let State {
        landings,
        key: _,
        before: _,
        machine,
    } = state;
    let mut machine = machine_at(alloc, plan, done, &landings, machine)?;
    let answer = machine.step(&plan.steps.as_slice()[done].step)?;
    let text = Items::of_vec(text_of(alloc, &answer)?);
    place_in(
        alloc,
        plan,
        done + 1,
        branches,
        text,
        landings,
        machine,
        live,
    )
}

// Returns the machine that is kept, or one that is made anew along the path.
fn machine_at<M: Machine>(
    alloc: Global,
    plan: &Plan,
    done: usize,
    landings: &[Landing],
    machine: Option<M>,
) -> Result<M, AllocError>
    requires plan { IsExplorable plan.now }
    requires done { done ≤ length plan.now.steps }
    requires landings { All (IsLandingBy plan.now done) landings.now }
    requires kept { IfSome machine (IsMachineAt M.has_made M.plan_held plan.now (path (search_script_of plan.now) landings.now done)) }
    ensures { IfOk result (IsMachineAt M.has_made M.plan_held plan.now (path (search_script_of plan.now) landings.now done)) }
{
    match machine {
        Some(machine) => Ok(machine),
        None => rebuilt(alloc, plan, landings, done),
    }
}

// Puts the state of a machine into the branch of a text.
fn place_in<M: Machine>(
    alloc: Global,
    plan: &Plan,
    done: usize,
    branches: &mut Vec<Branch<M>>,
    text: Items<u8>,
    landings: Vec<Landing>,
    machine: M,
    live: usize,
) -> Result<(), AllocError>
    requires plan { IsExplorable plan.now }
    requires done { done ≤ length plan.now.steps }
    requires branches { All (λ branch. AreKept M.has_made M.plan_held M.key_of plan.now done branch.states) branches.old.items }
    requires landings { All (IsLandingBy plan.now done) landings.items }
    requires machine { IsMachineAt M.has_made M.plan_held plan.now (path (search_script_of plan.now) landings.items done) machine }
    ensures { OnOk result (HasPlaced M.has_made M.plan_held M.key_of plan.now done text landings.items branches.old.items branches.new.items) }
{
    match place_of(branches, text.as_slice()) {
        Ok(place) => {
            let states = &mut branches[place].states;
            join(alloc, plan, done, states, landings, machine, live)
        }
        Err(place) => {
            let mut states = States::new(alloc);
            join(alloc, plan, done, &mut states, landings, machine, live)?;
            branches.insert(place, Branch { text, states })?;
            Ok(())
        }
    }
}

// Returns the place of the branch of a text among branches in their order, or where it would be put in.
fn place_of<M: Machine>(branches: &[Branch<M>], text: &[u8]) -> Result<usize, usize>
    ensures { IsSearchPlace branches.now text.now result }
{
    for place in 0..branches.len() {
        match branches[place].text.as_slice().cmp(text) {
            Ordering::Less => {}
            Ordering::Equal => return Ok(place),
            Ordering::Greater => return Err(place),
        }
    }
    Err(branches.len())
}

/// Groups of branches, after these answers. Returns an error if memory runs out.
pub fn named<M: Machine>(
    alloc: Global,
    answers: Items<Items<u8>>,
    branches: Vec<Branch<M>>,
) -> Result<Vec<Group<M>>, AllocError>
    ensures { IfOk result (λ groups. groups.items ≡ map (with_answers answers) branches.items) }
{
    let mut branches = branches;
    let mut groups = Vec::new(alloc);
    let Some(last) = branches.pop() else {
        return Ok(groups);
    };
    push_each(alloc, &mut groups, answers.as_slice(), branches)?;
    push_group(&mut groups, answers, last)?;
    Ok(groups)
}

// Adds the group of each branch, after copies of these answers.
fn push_each<M: Machine>(
    alloc: Global,
    groups: &mut Vec<Group<M>>,
    answers: &[Items<u8>],
    branches: Vec<Branch<M>>,
) -> Result<(), AllocError>
    ensures { OnOk result (groups.new.items ≡ groups.old.items ++ map (with_answers answers.now) branches.items) }
{
    for branch in branches {
        push_group(groups, copy_of(alloc, answers)?, branch)?;
    }
    Ok(())
}

// Adds the group of a branch, after these answers.
fn push_group<M: Machine>(
    groups: &mut Vec<Group<M>>,
    answers: Items<Items<u8>>,
    branch: Branch<M>,
) -> Result<(), AllocError>
    ensures { OnOk result (groups.new.items ≡ groups.old.items ++ with_answers answers branch ∷ []) }
{
    let mut answers = answers;
    answers.push(branch.text)?;
    groups.push(Group {
        answers,
        states: branch.states,
    })?;
    Ok(())
}

/// Returns a copy of texts. Returns an error if memory runs out.
fn copy_of(alloc: Global, texts: &[Items<u8>]) -> Result<Items<Items<u8>>, AllocError>
    ensures { IfOk result (λ copy. copy ≡ texts.now) }
{
    let mut copy = Items::new(alloc);
    for text in texts {
        copy.push(Items::of_vec(Vec::from_slice(alloc, text.as_slice())?))?;
    }
    Ok(copy)
}
