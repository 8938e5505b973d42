//! A row of generated loads.

use std::alloc::{AllocError, Global};
use step_kinds::{LaneName, Plan, Side};
use traffic_plan::{generate, lane_traffic};

/// Returns whether a load of one frame of 66 bytes, which seed 1 gives, has its 24 steps, and no traffic on its lane.
/// It may be out of memory.
pub fn load_has_its_steps(alloc: Global) -> Result<bool, AllocError> {
    let plan = generate(alloc, 1, 1)?;
    has_its_steps(alloc, &plan)
}

// Returns whether a plan has 24 steps, and no traffic on the lane from side A.
fn has_its_steps(alloc: Global, plan: &Plan) -> Result<bool, AllocError> {
    let lane = LaneName {
        pair: 0,
        from: Side::A,
        queue: 0,
    };
    let frames = lane_traffic(alloc, plan, lane)?;
    Ok(plan.steps.len() == 24 && frames.len() == 0)
}
