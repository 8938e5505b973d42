//! The lanes that wait to be run.

ghost use Rattle.std.specs.Prelude.{◌≡◌, ◌≤◌, ◌<◌, ◌++◌, ◌∷◌, [], count_by, length, map, IfOk, OnOk};
ghost use Rattle.step_kinds.specs.Limits.{most_breaks};
ghost use Rattle.pair_model.specs.Plans.{pair_plan};
ghost use Rattle.pair_model.specs.TrafficPlans.{is_break_of};
ghost use Rattle.cluster_run.specs.LaneKeys.{keys_from};
ghost use Rattle.cluster_run.specs.Lanes.{CanRun, traffic_lanes, most_lanes};
ghost use Rattle.cluster_run.specs.ByLane.{AreOfTraffic, key_with, keys_with_frames, lane_frames};
ghost use Rattle.cluster_run.specs.Tasks.{CanBeRun, losses_by_pair};
ghost use Rattle.traffic_plan.specs.Lanes.{frames_on};

use crate::by_lane::{LaneTraffic, traffic_by_lane};
use crate::tasks::LaneTask;
use plan_numbers::sending_ring;
use ring_geometry::laws::ring_has_two_entries;
use std::alloc::{AllocError, Global};
use std::collections::VecDeque;
use step_kinds::{PairPlan, Plan};
use traffic_plan::breaks;

// Returns how many losses of its link each pair has.
fn losses_by_pair(alloc: Global, plan: &Plan) -> Result<Vec<u32>, AllocError>
    requires { CanRun plan.now }
    ensures { IfOk result (λ losses. losses.items ≡ losses_by_pair plan.now) }
{
    let mut losses = Vec::new(alloc);
    for pair in 0..plan.pairs.len() as u32 {
        losses.push(breaks(plan, pair))?;
    }
    Ok(losses)
}

// Returns a pair of the plan.
fn pair_at(plan: &Plan, pair: u32) -> &PairPlan
    requires { pair < length plan.now.pairs }
    ensures { result.now ≡ pair_plan plan.now pair }
{
    &plan.pairs.as_slice()[pair as usize]
}

// Returns the losses of a pair's link.
fn losses_of(plan: &Plan, losses: &[u32], pair: u32) -> u32
    requires plan { CanRun plan.now }
    requires losses { losses.now ≡ losses_by_pair plan.now }
    requires pair { pair < length plan.now.pairs }
    ensures value { result ≡ count_by (is_break_of pair) plan.now.traffic }
    ensures few { result ≤ most_breaks }
{
    losses[pair as usize]
}

// Returns the lane with this number, which may have traffic.
fn task_of(plan: &Plan, losses: &[u32], number: u32, lane: LaneTraffic) -> LaneTask
    requires plan { CanRun plan.now }
    requires losses { losses.now ≡ losses_by_pair plan.now }
    requires number { number < most_lanes }
    requires lane { CanBeRun plan.now lane }
    ensures { result ≡ key_with plan.now number (lane_frames lane) }
{
    let LaneTraffic { name, frames } = lane;
    ring_has_two_entries();
    let ring = sending_ring(pair_at(plan, name.pair), name.from, name.queue);
    LaneTask {
        name,
        number,
        entries: ring.entries(),
        losses: losses_of(plan, losses, name.pair),
        frames,
    }
}

// Adds a lane after those that wait, if it has a frame. Its number is how many waited.
fn push_task(
    plan: &Plan,
    losses: &[u32],
    tasks: &mut VecDeque<LaneTask>,
    lane: LaneTraffic,
) -> Result<(), AllocError>
    requires plan { CanRun plan.now }
    requires losses { losses.now ≡ losses_by_pair plan.now }
    requires few { length tasks.old.items < most_lanes }
    requires lane { lane.frames.frames ≡ frames_on lane.name plan.now.traffic }
    ensures { OnOk result (tasks.new.items ≡ tasks.old.items ++ keys_with_frames plan.now (length tasks.old.items) (lane_frames lane ∷ [])) }
{
    if lane.frames.is_empty() {
        return Ok(());
    }
    let number = tasks.len() as u32;
    tasks.push_back(task_of(plan, losses, number, lane))?;
    Ok(())
}

// Returns the lanes of a plan that have a frame.
fn waiting_lanes(
    alloc: Global,
    plan: &Plan,
    lanes: Vec<LaneTraffic>,
) -> Result<VecDeque<LaneTask>, AllocError>
    requires plan { CanRun plan.now }
    requires few { length lanes.items ≤ most_lanes }
    requires traffic { AreOfTraffic plan.now lanes.items }
    ensures { IfOk result (λ tasks. tasks.items ≡ keys_with_frames plan.now 0 (map lane_frames lanes.items)) }
{
    let losses = losses_by_pair(alloc, plan)?;
    let mut tasks = VecDeque::new(alloc);
    for lane in lanes {
        push_task(plan, &losses, &mut tasks, lane)?;
    }
    Ok(tasks)
}

/// Returns the lanes of a plan that have traffic, each with its frames. They stand by the number of the pair, then
/// those from side A before those from side B, then by the queue, and are numbered from 0 in that order. Returns an
/// error if memory runs out.
///
/// The plan's pairs and traffic have to be as a script can declare them, within the limits of traffic.
pub fn lanes_to_run(alloc: Global, plan: &Plan) -> Result<VecDeque<LaneTask>, AllocError>
    requires { CanRun plan.now }
    ensures keys { IfOk result (λ tasks. tasks.items ≡ keys_from plan.now 0 (traffic_lanes plan.now)) }
    ensures few { IfOk result (λ tasks. length tasks.items ≤ most_lanes) }
{
    let lanes = traffic_by_lane(alloc, plan)?;
    waiting_lanes(alloc, plan, lanes)
}
