//! Layers of a search: the states after one number of a script's steps, in groups by their answers.

ghost use Rattle.std.specs.Prelude.{◌≡◌, ◌<◌, ◌≤◌, ◌++◌, IfOk, OnOk, length};
ghost use Rattle.std.specs.List.{All};
ghost use Rattle.explore_search.specs.Closing.{GroupClosed, GroupGrown, LayerClosed};
ghost use Rattle.explore_search.specs.Layers.{AreKept, GroupsCover, HasGroups, HasNext};
ghost use Rattle.explore_search.specs.Paths.{IsExplorable};

use crate::layers::{Group, branches_of, named};
use crate::live::most_live;
use crate::machine::Machine;
use crate::spread::close;
use std::alloc::{AllocError, Global};
use step_kinds::Plan;

/// Closes the states of each group of a layer under landings. It answers how many states there are then, together with
/// those that were counted before, or `None` where there are more than the limit. Returns an error if memory runs out.
pub fn close_layer<M: Machine>(
    alloc: Global,
    plan: &Plan,
    done: usize,
    layer: &mut Vec<Group<M>>,
    before: usize,
    limit: usize,
) -> Result<Option<usize>, AllocError>
    requires plan { IsExplorable plan.now }
    requires done { done ≤ length plan.now.steps }
    requires layer { All (λ group. AreKept M.has_made M.plan_held M.key_of plan.now done group.states) layer.old.items }
    requires before { before ≤ limit }
    ensures { IfOk result (LayerClosed M.has_made M.plan_held M.key_of plan.now done before limit layer.old.items layer.new.items) }
{
    let groups = layer.as_mut_slice();
    close_groups(alloc, plan, done, groups, before, limit)
}

// Closes the states of each group under landings. It answers how many there are then, together with those that were
// counted before, or `None` where there are more than the limit.
fn close_groups<M: Machine>(
    alloc: Global,
    plan: &Plan,
    done: usize,
    layer: &mut [Group<M>],
    before: usize,
    limit: usize,
) -> Result<Option<usize>, AllocError>
    requires plan { IsExplorable plan.now }
    requires done { done ≤ length plan.now.steps }
    requires layer { All (λ group. AreKept M.has_made M.plan_held M.key_of plan.now done group.states) layer.old }
    requires before { before ≤ limit }
    ensures { IfOk result (LayerClosed M.has_made M.plan_held M.key_of plan.now done before limit layer.old layer.new) }
{
    let mut count = before;
    for place in 0..layer.len() {
        let live = most_live(plan).saturating_sub(count - before);
        let Some(states) = close_group(alloc, plan, done, &mut layer[place], limit - count, live)?
        else {
            return Ok(None);
        };
        count += states;
    }
    Ok(Some(count))
}

// Closes the states of a group under landings, and returns how many there are then, or `None` where there is no room.
fn close_group<M: Machine>(
    alloc: Global,
    plan: &Plan,
    done: usize,
    group: &mut Group<M>,
    room: usize,
    live: usize,
) -> Result<Option<usize>, AllocError>
    requires plan { IsExplorable plan.now }
    requires done { done ≤ length plan.now.steps }
    requires group { AreKept M.has_made M.plan_held M.key_of plan.now done group.old.states }
    ensures grown { OnOk result (GroupGrown M.has_made M.plan_held M.key_of plan.now done group.old group.new) }
    ensures closed { IfOk result (GroupClosed M.has_made M.plan_held M.key_of plan.now done group.new room) }
{
    if !close(alloc, plan, done, &mut group.states, room, live)? {
        return Ok(None);
    }
    Ok(Some(group.states.len()))
}

/// Makes the next step of the script on each state of a layer. Returns an error if memory runs out.
pub fn step_layer<M: Machine>(
    alloc: Global,
    plan: &Plan,
    done: usize,
    layer: Vec<Group<M>>,
) -> Result<Vec<Group<M>>, AllocError>
    requires plan { IsExplorable plan.now }
    requires done { done < length plan.now.steps }
    requires layer { All (λ group. AreKept M.has_made M.plan_held M.key_of plan.now done group.states) layer.items }
    ensures { IfOk result (λ next. HasNext M.has_made M.plan_held M.key_of plan.now done layer.items next.items) }
{
    let mut live = most_live(plan);
    let mut next = Vec::new(alloc);
    for group in layer {
        let states = group.states.len();
        let after = step_group(alloc, plan, done, group, live)?;
        add_groups(&mut next, after)?;
        live = live.saturating_sub(states);
    }
    Ok(next)
}

// Adds groups after others.
fn add_groups<M: Machine>(groups: &mut Vec<Group<M>>, more: Vec<Group<M>>) -> Result<(), AllocError>
    ensures { OnOk result (groups.new.items ≡ groups.old.items ++ more.items) }
{
    let mut more = more;
    groups.append(&mut more)?;
    Ok(())
}

// Makes the next step of the script on each state of a group. The groups that it leads to stand in the order of its
// answers.
fn step_group<M: Machine>(
    alloc: Global,
    plan: &Plan,
    done: usize,
    group: Group<M>,
    live: usize,
) -> Result<Vec<Group<M>>, AllocError>
    requires plan { IsExplorable plan.now }
    requires done { done < length plan.now.steps }
    requires group { AreKept M.has_made M.plan_held M.key_of plan.now done group.states }
    ensures groups { IfOk result (λ groups. HasGroups M.has_made M.plan_held M.key_of plan.now done group groups.items) }
    ensures covers { IfOk result (λ groups. GroupsCover M.has_made M.plan_held M.key_of plan.now done group groups.items) }
{
    let Group { answers, states } = group;
    let branches = branches_of(alloc, plan, done, states.into_vec(), live)?;
    named(alloc, answers, branches)
}
