//! The traffic of a plan, by lanes and by pairs.

ghost use Rattle.std.specs.Prelude.{◌≡◌, ◌∷◌, [], ◌<◌, ◌^◌, length, count_by, IfOk, OnOk};
ghost use Rattle.pair_model.specs.TrafficPlans.{is_break_of};
ghost use Rattle.step_kinds.specs.FrameLists.{no_frames};
ghost use Rattle.traffic_plan.specs.Lanes.{frames_on, with_frames};

use std::alloc::{AllocError, Global};
use step_kinds::{FrameList, LaneName, Plan, Traffic};

/// Adds a copy of an item's frame to a list, if it is sent on the lane.
fn push_on(
    alloc: Global,
    list: &mut FrameList,
    lane: LaneName,
    item: &Traffic,
) -> Result<(), AllocError>
    ensures { OnOk result (list.new ≡ with_frames list.old (frames_on lane (item.now ∷ []))) }
{
    if let Traffic::Send { lane: other, frame } = item
        && other.is(lane)
    {
        let copy = frame.copy_of(alloc)?;
        list.promise(1)?;
        list.push(copy);
    }
    Ok(())
}

/// Copies of the frames that the plan's traffic sends on a lane, in the traffic's order. No room is promised for more.
/// Returns an error if memory runs out.
pub fn lane_traffic(alloc: Global, plan: &Plan, lane: LaneName) -> Result<FrameList, AllocError>
    ensures { IfOk result (λ list. list ≡ with_frames no_frames (frames_on lane plan.now.traffic)) }
{
    let mut list = FrameList::new(alloc);
    for item in plan.traffic.as_slice() {
        push_on(alloc, &mut list, lane, item)?;
    }
    Ok(list)
}

/// Returns whether an item of the traffic is a loss of the pair's link.
fn is_break_of(item: &Traffic, pair: u32) -> bool
    ensures { result ≡ is_break_of pair item.now }
{
    match item {
        Traffic::Break { pair: other } => *other == pair,
        Traffic::Send { .. } => false,
    }
}

/// Returns how many losses of a pair's link the plan's traffic has. The traffic has fewer than 2^32 items.
pub fn breaks(plan: &Plan, pair: u32) -> u32
    requires { length plan.now.traffic < 2 ^ 32 }
    ensures { result ≡ count_by (is_break_of pair) plan.now.traffic }
{
    let mut count = 0;
    for item in plan.traffic.as_slice() {
        if is_break_of(item, pair) {
            count += 1;
        }
    }
    count
}
