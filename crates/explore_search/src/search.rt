//! The search.

ghost use Rattle.std.specs.Prelude.{◌≡◌, ◌<◌, ◌≤◌, IfOk, length, map};
ghost use Rattle.std.specs.List.{All};
ghost use Rattle.explore_search.specs.Paths.{IsExplorable};
ghost use Rattle.explore_search.specs.Results.{IsExploration, first_landings, outcome_of};
ghost use Rattle.explore_search.specs.Whole.{IsBased, IsCount};

use crate::groups::{close_layer, step_layer};
use crate::layers::Group;
use crate::live::most_live;
use crate::machine::Machine;
use crate::states::{State, States, join};
use explore_model::{Landing, Outcome};
use std::alloc::{AllocError, Global};
use step_kinds::{Items, Plan};

/// The most states of a search that ends with outcomes.
pub const MOST_STATES: usize = 1_000_000;

/// The result of a search.
#[derive(Drop)]
pub enum Explored {
    /// All outcomes of the script's schedules, and how many states the schedules come to before a step.
    Done {
        /// The outcomes, in the order of their answers.
        outcomes: Vec<Outcome>,
        /// How many states there are, at most a million.
        states: usize,
    },
    /// The script's schedules come to more than a million states before a step.
    TooMany,
}

/// Every outcome that the schedules of a plan's script have, by machines of the plan. If the schedules come to more
/// than a million states before a step, it is [`Explored::TooMany`] instead. The plan is one that a script can declare.
///
/// # Errors
///
/// [`AllocError`] if memory runs out.
pub fn explore<M: Machine>(alloc: Global, plan: &Plan) -> Result<Explored, AllocError>
    requires { IsExplorable plan.now }
    ensures { IfOk result (IsExploration M.has_made plan.now) }
{
    let mut layer = start::<M>(alloc, plan)?;
    let mut states = 0;
    for done in 0..plan.steps.len() {
        let Some(count) = close_layer(alloc, plan, done, &mut layer, states, MOST_STATES)? else {
            return Ok(Explored::TooMany);
        };
        layer = step_layer(alloc, plan, done, layer)?;
        states = count;
    }
    Ok(Explored::Done {
        outcomes: outcomes_of(alloc, layer)?,
        states,
    })
}

// Returns the first layer: one state, in which nothing was made.
fn start<M: Machine>(alloc: Global, plan: &Plan) -> Result<Vec<Group<M>>, AllocError>
    requires { IsExplorable plan.now }
    ensures { IfOk result (λ layer. IsBased M.has_made M.plan_held M.key_of plan.now 0 layer.items) }
{
    let machine = M::fresh(alloc, plan)?;
    let mut states = States::new(alloc);
    join(
        alloc,
        plan,
        0,
        &mut states,
        Vec::new(alloc),
        machine,
        most_live(plan),
    )?;
    let mut layer = Vec::new(alloc);
    layer.push(Group {
        answers: Items::new(alloc),
        states,
    })?;
    Ok(layer)
}

// Returns the outcomes of groups: the answers of each, and the path to its first state.
fn outcomes_of<M: Machine>(alloc: Global, layer: Vec<Group<M>>) -> Result<Vec<Outcome>, AllocError>
    requires { All (λ group. 0 < length group.states) layer.items }
    ensures { IfOk result (λ outcomes. outcomes.items ≡ map outcome_of layer.items) }
{
    let mut outcomes = Vec::new(alloc);
    for group in layer {
        outcomes.push(Outcome {
            answers: group.answers,
            landings: first_path(group.states.into_vec()),
        })?;
    }
    Ok(outcomes)
}

// Returns the landings on the path to the first of some states.
fn first_path<M: Machine>(states: Vec<State<M>>) -> Items<Landing>
    requires { 0 < length states.items }
    ensures { result ≡ first_landings states.items }
{
    let mut states = states;
    Items::of_vec(states.swap_remove(0).landings)
}
