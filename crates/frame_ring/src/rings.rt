//! The rings of one queue of one side.

ghost use Rattle.std.specs.Prelude.{◌≡◌, ◌==◌, ◌+◌, ◌*◌, ◌%◌, ◌<◌, ◌≤◌};
ghost use Rattle.step_kinds.specs.Limits.{most_frame_bytes};
ghost use Rattle.plan_numbers.specs.Memories.{memory_size};
ghost use Rattle.pair_model.specs.Addresses.{own_address as own_address_of, own_header, own_index_word, own_slot};
ghost use Rattle.pair_model.specs.Headers.{flags_offset as offset_of_flags};
ghost use Rattle.pair_model.specs.RingWrites.{header_offset, slot_offset};
ghost use Rattle.frame_ring.specs.Rings.{IsPortQueue};
ghost use Rattle.lane_model.specs.Ring.{free_entries};
ghost use Rattle.pair_model.specs.DeclaredPlans.{IsPair, SizesFit};
ghost use Rattle.pair_model.specs.Plans.{side_plan as side_plan_of};
ghost use Rattle.pair_model.specs.Sizes.{agreed_version, header_bytes as bytes_of_header, layout_of, layout_to, sizes_in, sizes_of};
ghost use Rattle.ring_geometry.specs.Geometry.{IsPlaced, entries_of, frame_size, header_of, index_of, max_payload_of, slot_of, window_of};

use plan_numbers::{copy_of, receiving_ring, sending_ring, speaks_five};
use ring_geometry::Geometry;
use ring_geometry::laws::ring_has_two_entries;
use std::marker::Model;
use step_kinds::{PairPlan, Side};

/// The rings of one queue of one side: the one that it sends to in the peer's memory, and the one that it receives in
/// in its own. They never change, and have a copy of the pair's plan.
#[derive(Drop)]
pub struct QueueRings {
    plan: PairPlan,
    side: Side,
    queue: u32,
    out: Geometry,
    into: Geometry,
    out_window: u32,
    into_window: u32,
}

impl QueueRings {
    ghost use Rattle.frame_ring.specs.Rings.{QueueOf};

    /// Returns the rings of one of a side's queues, by a copy of the plan. It takes no memory.
    pub fn new(plan: &PairPlan, side: Side, queue: u32) -> QueueRings
        requires declared { IsPair plan.now }
        requires among { queue < (side_plan_of plan.now side).queues }
        ensures { result ≡ record { plan = plan.now; side = side; queue = queue } }
    {
        let out = sending_ring(plan, side, queue);
        let into = receiving_ring(plan, side, queue);
        QueueRings {
            plan: copy_of(plan),
            side,
            queue,
            out,
            into,
            out_window: out.window_of(),
            into_window: into.window_of(),
        }
    }

    /// Returns the rings of the same queue. It takes no memory.
    pub fn copy_of(&self) -> QueueRings
        ensures { result ≡ self.now }
    {
        QueueRings {
            plan: copy_of(&self.plan),
            side: self.side,
            queue: self.queue,
            out: self.out,
            into: self.into,
            out_window: self.out_window,
            into_window: self.into_window,
        }
    }

    /// What is so of the rings of every queue: their plan is one that a script can declare, and the side has the queue.
    /// It does nothing: its clause is the law.
    #[inline(always)]
    pub fn law(&self)
        ensures { IsPortQueue self.now }
    {
        let _side = self.side();
    }

    /// Returns the side, of a queue that it has.
    pub fn side(&self) -> Side
        ensures value { result ≡ self.now.side }
        ensures law { IsPortQueue self.now }
    {
        self.side
    }

    /// Returns the number of the queue.
    pub fn queue(&self) -> u32
        ensures value { result ≡ self.now.queue }
        ensures few { result < 16 }
    {
        self.queue
    }

    /// Returns the plan of the pair.
    pub fn plan(&self) -> &PairPlan
        ensures { result.now ≡ self.now.plan }
    {
        &self.plan
    }

    /// Returns the ring that the side sends to.
    pub fn out(&self) -> &Geometry
        ensures value { result.now ≡ layout_of self.now.plan self.now.side self.now.queue }
        ensures placed { IsPlaced result.now }
    {
        ring_is_placed(&self.out);
        &self.out
    }

    /// Returns the ring that the side receives in.
    pub fn into(&self) -> &Geometry
        ensures value { result.now ≡ layout_to self.now.plan self.now.side self.now.queue }
        ensures placed { IsPlaced result.now }
    {
        ring_is_placed(&self.into);
        &self.into
    }

    /// Returns the number of the window in which the side sends.
    #[inline]
    pub fn out_window(&self) -> u32
        ensures { result ≡ window_of (layout_of self.now.plan self.now.side self.now.queue) }
    {
        self.out_window
    }

    /// Returns the number of the window in which it receives.
    #[inline]
    pub fn into_window(&self) -> u32
        ensures { result ≡ window_of (layout_to self.now.plan self.now.side self.now.queue) }
    {
        self.into_window
    }

    /// Returns whether the pair speaks version 5.
    pub fn speaks_five(&self) -> bool
        ensures { result ≡ (agreed_version self.now.plan == 5) }
    {
        speaks_five(&self.plan)
    }

    /// Returns the most bytes of a frame that is sent.
    pub fn most_sent(&self) -> u32
        ensures value { result ≡ (sizes_of self.now.plan self.now.side self.now.queue).most }
        ensures few { result ≤ most_frame_bytes }
    {
        if self.speaks_five() {
            self.out.longest()
        } else {
            self.out.max_payload()
        }
    }

    /// Returns the most bytes of a frame that is received.
    pub fn most_received(&self) -> u32
        ensures value { result ≡ (sizes_in self.now.plan (layout_to self.now.plan self.now.side self.now.queue)).most }
        ensures few { result ≤ most_frame_bytes }
    {
        if self.speaks_five() {
            self.into.longest()
        } else {
            self.into.max_payload()
        }
    }

    /// No frame that is received is longer than a frame may be. It does nothing: its clause is the law.
    #[inline(always)]
    pub fn received_frames_are_short(&self)
        ensures { (sizes_in self.now.plan (layout_to self.now.plan self.now.side self.now.queue)).most ≤ most_frame_bytes }
    {
        let _most = self.most_received();
    }
}

impl Model for QueueRings {
    ghost use Rattle.frame_ring.specs.Rings.{ArePlaced, QueueOf, rings_seen};

    ghost Value = { QueueOf };

    ghost view = { rings_seen };

    ghost invariant = { ArePlaced };
}

// A ring lies in its window. It does nothing: its clause is the law.
#[inline(always)]
fn ring_is_placed(ring: &Geometry)
    ensures { IsPlaced ring.now }
{
    let _entries = ring.entries();
}

/// Returns the slot of a ring for entry `n`.
pub fn slot_in(ring: &Geometry, n: u64) -> u32
    ensures value { result ≡ n % entries_of ring.now }
    ensures within { result < entries_of ring.now }
{
    ring_has_two_entries();
    (n % u64::from(ring.entries())) as u32
}
