//! The rings of a side's queues.

ghost use Rattle.std.specs.Prelude.{◌≡◌, ◌+◌, ◌<◌, ◌≤◌};
ghost use Rattle.pair_model.specs.Addresses.{own_index_word};
ghost use Rattle.pair_model.specs.DeclaredPlans.{IsPair};
ghost use Rattle.pair_model.specs.Plans.{side_plan as side_plan_of};
ghost use Rattle.pair_model.specs.Sizes.{layout_in, layout_of, layout_to};
ghost use Rattle.plan_numbers.specs.Memories.{WindowsFit, memory_size};
ghost use Rattle.ring_geometry.specs.Geometry.{IsPlaced};

use crate::sides::{header_bytes, own_address, side_plan};
use pair_model::laws::each_queue_has_a_ring;
use ring_geometry::Geometry;
use step_kinds::{PairPlan, Side};

/// Returns the ring that a side of a declared pair sends to on a queue, which has to be one of the side's. The ring
/// lies in the peer's memory, in one of the windows that the side sends through.
pub fn sending_ring(plan: &PairPlan, side: Side, queue: u32) -> Geometry
    requires declared { IsPair plan.now }
    requires among { queue < (side_plan_of plan.now side).queues }
    ensures value { result ≡ layout_of plan.now side queue }
    ensures placed { IsPlaced (layout_of plan.now side queue) }
{
    each_queue_has_a_ring();
    ring_in(plan, side, side_plan(plan, side).size, queue)
}

/// Returns the ring that a side of a declared pair receives in on a queue, which has to be one of the side's. The ring
/// lies in the side's own memory, in a window that the peer sends through.
pub fn receiving_ring(plan: &PairPlan, side: Side, queue: u32) -> Geometry
    requires declared { IsPair plan.now }
    requires among { queue < (side_plan_of plan.now side).queues }
    ensures { result ≡ layout_to plan.now side queue }
{
    each_queue_has_a_ring();
    ring_in(plan, side, side_plan(plan, side.other()).size, queue)
}

/// Returns the address of the index word of the lane that a side of a declared pair sends on a queue, which has to be
/// one of the side's. The word is four bytes long and lies in the side's own memory. The windows that the peer sends
/// through have to fit there.
pub fn index_word_at(plan: &PairPlan, side: Side, queue: u32) -> u64
    requires declared { IsPair plan.now }
    requires among { queue < (side_plan_of plan.now side).queues }
    requires fit { WindowsFit plan.now side }
    ensures value { result ≡ own_index_word plan.now side queue }
    ensures within { result + 4 ≤ memory_size plan.now side }
{
    let ring = receiving_ring(plan, side, queue);
    own_address(plan, side, ring.window_of(), ring.index_at())
}

// Returns a ring of one of a side's queues, in windows of this many bytes, which are the side's or the peer's.
fn ring_in(plan: &PairPlan, side: Side, size: u64, queue: u32) -> Geometry
    requires placed { IsPlaced (layout_in plan.now side size queue) }
    ensures { result ≡ layout_in plan.now side size queue }
{
    let own = side_plan(plan, side);
    let header = header_bytes(plan);
    let made = Geometry::new(size, own.windows, own.queues, queue, plan.mtu, header);
    let Ok(ring) = made else { unreachable!() };
    ring
}
