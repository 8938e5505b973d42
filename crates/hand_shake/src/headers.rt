//! The headers of the rings that a side receives in.
//!
//! A ring may have millions of entries, of which few were written to: headers on pages that aren't there are passed
//! over.

ghost use Rattle.std.specs.Prelude.{◌≡◌, ◌↔◌, ◌+◌, ◌-◌, ◌<◌, ◌≤◌, IsTrue, OnOk, length, replicate};
ghost use Rattle.plan_numbers.specs.Memories.{memory_size, WindowsFit};
ghost use Rattle.bridge_pair.specs.Bridge.{bridge_bytes_of, pages_of, with_bytes};
ghost use Rattle.bridge_pair.specs.Ends.{bytes_after};
ghost use Rattle.bridge_pair.specs.Pages.{OnlyPagesGrow};
ghost use Rattle.pair_model.specs.Addresses.{own_header};
ghost use Rattle.hand_shake.specs.Headers.{AreHeadersOfReady, AreHeadersReady, AreSomeZeroed, IsHeaderReady, IsReceivingRing, IsZeroed, TouchesHeader, TouchesHeaderOf, ring_stores};
ghost use Rattle.host_memory.specs.Memory.{ArePromised, AreZero, written};
ghost use Rattle.pair_model.specs.FreshRings.{zeroed_headers};
ghost use Rattle.pair_model.specs.DeclaredPlans.{IsPair};
ghost use Rattle.pair_model.specs.Plans.{side_plan as side_plan_of};
ghost use Rattle.pair_model.specs.Sizes.{header_bytes as bytes_of_header};
ghost use Rattle.ring_geometry.specs.Geometry.{entries_of, frame_size};

use bridge_pair::Pair;
use plan_numbers::{header_bytes, own_address, receiving_ring, side_plan};
use ring_geometry::Geometry;
use std::alloc::AllocError;
use step_kinds::{PairPlan, Side};

// The headers whose slots have this many bytes are looked at together, and so are more of them where no page is there.
const TOGETHER_BYTES: u32 = 1024;

/// Promises the pages of the headers of the rings that a side receives in, but for headers that are zero already. So a
/// ring that was never written to takes no memory. Returns an error if memory runs out, and then some of these pages
/// may be promised.
pub fn promise_headers(pair: &mut Pair, side: Side) -> Result<(), AllocError>
    requires { WindowsFit pair.old.plan side }
    ensures grown { OnlyPagesGrow (TouchesHeader pair.old.plan side (bridge_bytes_of pair.old side)) side pair.old pair.new }
    ensures ok { OnOk result (AreHeadersReady pair.old.plan side (bridge_bytes_of pair.old side) (pages_of pair.new side)) }
{
    let queues = side_plan(pair.plan(), side).queues;
    for queue in 0..queues {
        promise_headers_of(pair, side, queue)?;
    }
    Ok(())
}

// The same of one queue's ring, from the last header on.
fn promise_headers_of(pair: &mut Pair, side: Side, queue: u32) -> Result<(), AllocError>
    requires fit { WindowsFit pair.old.plan side }
    requires among { queue < (side_plan_of pair.old.plan side).queues }
    ensures grown { OnlyPagesGrow (TouchesHeaderOf pair.old.plan side queue (bridge_bytes_of pair.old side)) side pair.old pair.new }
    ensures ok { OnOk result (AreHeadersOfReady pair.old.plan side queue (bridge_bytes_of pair.old side) (pages_of pair.new side)) }
{
    let ring = receiving_ring(pair.plan(), side, queue);
    let mut count = up_to_nonzero(pair, side, &ring, ring.entries());
    while count > 0 {
        promise_header(pair, side, &ring, count - 1)?;
        count = up_to_nonzero(pair, side, &ring, count - 1);
    }
    Ok(())
}

// Promises the pages of a header that isn't zero.
fn promise_header(pair: &mut Pair, side: Side, ring: &Geometry, n: u32) -> Result<(), AllocError>
    requires fit { WindowsFit pair.old.plan side }
    requires ring { IsReceivingRing pair.old.plan side ring.now }
    requires slot { n < entries_of ring.now }
    requires nonzero { ¬ IsZeroed pair.old.plan side ring.now.queue n (bridge_bytes_of pair.old side) }
    ensures grown { OnlyPagesGrow (TouchesHeaderOf pair.old.plan side ring.now.queue (bridge_bytes_of pair.old side)) side pair.old pair.new }
    ensures ok { OnOk result (ArePromised (own_header pair.old.plan side ring.now.queue n) (bytes_of_header pair.old.plan) (pages_of pair.new side)) }
{
    let at = header_at(pair.plan(), side, ring, n);
    let len = u64::from(header_bytes(pair.plan()));
    pair.promise_range(side, at, len)
}

/// Zeroes all headers of the rings that a side receives in. The pages of those that aren't zero have to be promised.
pub fn zero_headers(pair: &mut Pair, side: Side)
    requires fit { WindowsFit pair.old.plan side }
    requires ready { AreHeadersReady pair.old.plan side (bridge_bytes_of pair.old side) (pages_of pair.old side) }
    ensures { pair.new ≡ with_bytes pair.old side (bytes_after (zeroed_headers pair.old.plan side) (bridge_bytes_of pair.old side)) }
{
    let queues = side_plan(pair.plan(), side).queues;
    for queue in (0..queues).rev() {
        zero_headers_of(pair, side, queue);
    }
}

// The same of one queue's ring, from the last header on.
fn zero_headers_of(pair: &mut Pair, side: Side, queue: u32)
    requires fit { WindowsFit pair.old.plan side }
    requires among { queue < (side_plan_of pair.old.plan side).queues }
    requires ready { AreHeadersOfReady pair.old.plan side queue (bridge_bytes_of pair.old side) (pages_of pair.old side) }
    ensures { pair.new ≡ with_bytes pair.old side (bytes_after (ring_stores pair.old.plan side queue) (bridge_bytes_of pair.old side)) }
{
    let ring = receiving_ring(pair.plan(), side, queue);
    let mut count = up_to_nonzero(pair, side, &ring, ring.entries());
    while count > 0 {
        zero_header(pair, side, &ring, count - 1);
        count = up_to_nonzero(pair, side, &ring, count - 1);
    }
}

// Zeroes a header whose pages are promised.
fn zero_header(pair: &mut Pair, side: Side, ring: &Geometry, n: u32)
    requires fit { WindowsFit pair.old.plan side }
    requires ring { IsReceivingRing pair.old.plan side ring.now }
    requires slot { n < entries_of ring.now }
    requires promised { ArePromised (own_header pair.old.plan side ring.now.queue n) (bytes_of_header pair.old.plan) (pages_of pair.old side) }
    ensures { pair.new ≡ with_bytes pair.old side (written (own_header pair.old.plan side ring.now.queue n) (replicate (bytes_of_header pair.old.plan) 0) (bridge_bytes_of pair.old side)) }
{
    let zeros = [0u8; 16];
    let at = header_at(pair.plan(), side, ring, n);
    let len = header_bytes(pair.plan()) as usize;
    pair.local_write(side, at, &zeros[..len]);
}

// Of the first `count` headers of a ring, how many there are up to the last one that isn't zero: none where all are
// zero. It looks at a few together, or, as long as these are zero, at twice as many each time.
fn up_to_nonzero(pair: &Pair, side: Side, ring: &Geometry, count: u32) -> u32
    requires fit { WindowsFit pair.now.plan side }
    requires ring { IsReceivingRing pair.now.plan side ring.now }
    requires slots { count ≤ entries_of ring.now }
    ensures fewer { result ≤ count }
    ensures zero { AreSomeZeroed pair.now.plan side ring.now.queue result count (bridge_bytes_of pair.now side) }
    ensures nonzero { 0 < result → ¬ IsZeroed pair.now.plan side ring.now.queue (result - 1) (bridge_bytes_of pair.now side) }
    ensures within { 0 < count → own_header pair.now.plan side ring.now.queue (count - 1) + bytes_of_header pair.now.plan ≤ length (bridge_bytes_of pair.now side) }
{
    let few = (TOGETHER_BYTES / ring.frame_size().max(1)).max(1);
    let mut together = few;
    let mut to = count;
    while to > 0 {
        let from = to.saturating_sub(together);
        if are_zero(pair, side, ring, from, to) {
            together = (to - from).saturating_mul(2);
            to = from;
        } else if together > few {
            together /= 2;
        } else {
            let last = up_to_nonzero_from(pair, side, ring, from, to);
            if last > from {
                return last;
            }
            to = from;
        }
    }
    0
}

// Returns the same of the headers from one on up to another, looked at one by one: the first one's number where all are
// zero.
fn up_to_nonzero_from(pair: &Pair, side: Side, ring: &Geometry, from: u32, to: u32) -> u32
    requires fit { WindowsFit pair.now.plan side }
    requires ring { IsReceivingRing pair.now.plan side ring.now }
    requires some { from < to }
    requires slots { to ≤ entries_of ring.now }
    ensures least { from ≤ result }
    ensures fewer { result ≤ to }
    ensures zero { AreSomeZeroed pair.now.plan side ring.now.queue result to (bridge_bytes_of pair.now side) }
    ensures nonzero { from < result → ¬ IsZeroed pair.now.plan side ring.now.queue (result - 1) (bridge_bytes_of pair.now side) }
{
    let last = header_at(pair.plan(), side, ring, to - 1);
    let slot = u64::from(ring.frame_size());
    let len = header_bytes(pair.plan()) as usize;
    for n in (from..to).rev() {
        let at = last - u64::from(to - 1 - n) * slot;
        if !is_zero::<16>(pair, side, at, len) {
            return n + 1;
        }
    }
    from
}

// Returns whether the headers from one on up to another are zero for sure: they are where all bytes from the first
// one's beginning to the last one's end are. A few bytes are read, and of more it is asked whether no page is there.
fn are_zero(pair: &Pair, side: Side, ring: &Geometry, from: u32, to: u32) -> bool
    requires fit { WindowsFit pair.now.plan side }
    requires ring { IsReceivingRing pair.now.plan side ring.now }
    requires some { from < to }
    requires slots { to ≤ entries_of ring.now }
    ensures zero { IsTrue result → AreSomeZeroed pair.now.plan side ring.now.queue from to (bridge_bytes_of pair.now side) }
    ensures within { own_header pair.now.plan side ring.now.queue (to - 1) + bytes_of_header pair.now.plan ≤ length (bridge_bytes_of pair.now side) }
{
    let plan = pair.plan();
    let first = header_at(plan, side, ring, from);
    let last = header_at(plan, side, ring, to - 1);
    let len = last.saturating_sub(first) + u64::from(header_bytes(plan));
    if len <= u64::from(TOGETHER_BYTES) {
        is_zero::<1024>(pair, side, first, len as usize)
    } else {
        pair.is_blank(side, first, len)
    }
}

// Returns whether each of this many bytes of a side's memory, `MOST` at most, is zero; `MOST` is 1,024 at most.
fn is_zero<const MOST: usize>(pair: &Pair, side: Side, at: u64, len: usize) -> bool
    requires within { at + len ≤ length (bridge_bytes_of pair.now side) }
    requires few { len ≤ MOST }
    requires small { MOST ≤ 1024 }
    ensures { IsTrue result ↔ AreZero at len (bridge_bytes_of pair.now side) }
{
    let mut bytes = [0u8; MOST];
    pair.local_read(side, at, &mut bytes[..len]);
    bytes == [0u8; MOST]
}

// Returns the address of a header of a ring that a side receives in.
fn header_at(plan: &PairPlan, side: Side, ring: &Geometry, n: u32) -> u64
    requires declared { IsPair plan.now }
    requires fit { WindowsFit plan.now side }
    requires ring { IsReceivingRing plan.now side ring.now }
    requires slot { n < entries_of ring.now }
    ensures value { result ≡ own_header plan.now side ring.now.queue n }
    ensures within { result + bytes_of_header plan.now ≤ memory_size plan.now side }
    ensures fits { ring.now.header ≤ frame_size ring.now }
{
    own_address(plan, side, ring.window_of(), ring.header_at(n))
}
