//! How many states keep their machines.

use step_kinds::{Plan, SidePlan};

// The most states of a group that keep their machines.
const MOST_LIVE: u64 = 16_384;

// The most bytes that the memories of a group's kept machines may have: 512 MiB.
const LIVE_BYTES: u64 = 536_870_912;

/// Returns how many states of a group keep their machines at most: 16,384, and no more than whose memories have 512 MiB
/// together. Later groups of a layer may keep fewer. It is free which do: a machine that isn't kept is made anew along
/// its path.
pub fn most_live(plan: &Plan) -> usize {
    let mut bytes = 1;
    for pair in plan.pairs.as_slice() {
        bytes = memory_of(pair.a)
            .saturating_add(memory_of(pair.b))
            .saturating_add(bytes);
    }
    (LIVE_BYTES / bytes.max(1)).min(MOST_LIVE) as usize
}

// Returns the most bytes that a side's memory can have.
fn memory_of(side: SidePlan) -> u64 {
    u64::from(side.windows).saturating_mul(side.cap)
}
