//! A plan's traffic, sorted into lanes.

ghost use Rattle.std.specs.Prelude.{◌≡◌, ◌≤◌, ◌<◌, ◌*◌, ◌++◌, [], List, length, map, IfOk, OnOk};
ghost use Rattle.std.specs.List.{range_with_len};
ghost use Rattle.cluster_run.specs.Lanes.{CanRun};
ghost use Rattle.cluster_run.specs.ByLane.{HasLanePlace, by_lane, lane_frames_of, lane_frames, lanes_with, lane_place_of, lane_with_frame};

use std::alloc::{AllocError, Global};
use step_kinds::limits::MOST_QUEUES;
use step_kinds::{Frame, FrameList, LaneName, Plan, Side, Traffic};

/// The lanes that a pair may have: one for each queue of each side.
const LANES: usize = 2 * MOST_QUEUES as usize;

/// A lane and frames that are to be sent on it.
#[derive(Drop)]
pub(crate) struct LaneTraffic {
    pub(crate) name: LaneName,
    pub(crate) frames: FrameList,
}

impl LaneTraffic {
    ghost use Rattle.cluster_run.specs.ByLane.{lane_with_frame, lane_frames};

    // Adds a copy of a frame after the others.
    fn add(&mut self, alloc: Global, frame: &Frame) -> Result<(), AllocError>
        ensures { OnOk result (lane_frames self.new ≡ lane_with_frame (lane_frames self.old) frame.now) }
    {
        let copy = frame.copy_of(alloc)?;
        self.frames.promise(1)?;
        self.frames.push(copy);
        Ok(())
    }
}

// Where a lane stands among all lanes: by pair, then side A before side B, then by queue.
fn place_of(lane: LaneName) -> usize
    ensures { result ≡ lane_place_of lane }
{
    let side = match lane.from {
        Side::A => 0,
        Side::B => MOST_QUEUES as usize,
    };
    LANES * lane.pair as usize + (side + lane.queue as usize)
}

// Adds the lanes of one side of a pair, without frames.
fn push_side(
    alloc: Global,
    lanes: &mut Vec<LaneTraffic>,
    pair: u32,
    from: Side,
) -> Result<(), AllocError>
    ensures { OnOk result (map lane_frames lanes.new.items ≡ map lane_frames lanes.old.items ++ map (λ queue. lane_frames_of [] (record { pair = pair; from = from; queue = queue })) (range_with_len 0 16)) }
{
    for queue in 0..MOST_QUEUES {
        lanes.push(LaneTraffic {
            name: LaneName { pair, from, queue },
            frames: FrameList::new(alloc),
        })?;
    }
    Ok(())
}

// Returns all lanes of this many pairs, without frames.
fn all_lanes(alloc: Global, pairs: usize) -> Result<Vec<LaneTraffic>, AllocError>
    requires { pairs ≤ 16 }
    ensures { IfOk result (λ lanes. map lane_frames lanes.items ≡ by_lane [] pairs) }
{
    let mut lanes = Vec::new(alloc);
    for pair in 0..pairs as u32 {
        push_side(alloc, &mut lanes, pair, Side::A)?;
        push_side(alloc, &mut lanes, pair, Side::B)?;
    }
    Ok(lanes)
}

// Puts a copy of an item's frame on its lane.
fn put(alloc: Global, lanes: &mut [LaneTraffic], item: &Traffic) -> Result<(), AllocError>
    requires { HasLanePlace (length lanes.old) item.now }
    ensures { OnOk result (map lane_frames lanes.new ≡ lanes_with (map lane_frames lanes.old) item.now) }
{
    match item {
        Traffic::Send { lane, frame } => lanes[place_of(*lane)].add(alloc, frame),
        Traffic::Break { .. } => Ok(()),
    }
}

/// All lanes that the plan's pairs may have, each with copies of its frames, in order. The traffic is gone through
/// once. Returns an error if memory runs out.
pub(crate) fn traffic_by_lane(alloc: Global, plan: &Plan) -> Result<Vec<LaneTraffic>, AllocError>
    requires { CanRun plan.now }
    ensures { IfOk result (λ lanes. map lane_frames lanes.items ≡ by_lane plan.now.traffic (length plan.now.pairs)) }
{
    let mut lanes = all_lanes(alloc, plan.pairs.len())?;
    for item in plan.traffic.as_slice() {
        put(alloc, &mut lanes, item)?;
    }
    Ok(lanes)
}
