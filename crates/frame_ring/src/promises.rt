//! The promises that a begin needs.

ghost use Rattle.std.specs.Prelude.{◌≡◌, ◌+◌, ◌<◌, ◌≤◌, OnOk, length};
ghost use Rattle.step_kinds.specs.Limits.{most_frame_bytes};
ghost use Rattle.bridge_pair.specs.Bridge.{pages_of, with_pages};
ghost use Rattle.bridge_pair.specs.Pages.{PagesGrow};
ghost use Rattle.pair_model.specs.Addresses.{own_header};
ghost use Rattle.pair_model.specs.Headers.{flags_offset as offset_of_flags};
ghost use Rattle.frame_ring.specs.Outgoing.{all_writes_in, most_numbers, most_writes_left};
ghost use Rattle.frame_ring.specs.Promises.{AreEntriesPromised, IsEntryPromised, IsRangePromised, TouchesEntries, TouchesEntry, TouchesRange};
ghost use Rattle.host_memory.specs.Memory.{ArePromised, Touches};
ghost use Rattle.pair_model.specs.DeclaredPlans.{SizesFit};
ghost use Rattle.pair_model.specs.Pieces.{pieces_of};
ghost use Rattle.pair_model.specs.Plans.{side_plan as side_plan_of};
ghost use Rattle.pair_model.specs.Sizes.{layout_of, sizes_of};
ghost use Rattle.ring_geometry.specs.Geometry.{index_of};
ghost use Rattle.step_kinds.specs.Sides.{other_side};

use crate::posting::{header_offset_of, reaches, slot_offset_of};
use crate::reading::{flags_offset, header_at};
use crate::rings::QueueRings;
use crate::sending::piece_bytes;
use bridge_pair::Pair;
use plan_numbers::{header_bytes, own_address, pieces_in, writes_in};
use std::alloc::AllocError;
use step_kinds::Frame;

impl QueueRings {
    /// Promises the pages of this many bytes at the peer, from an offset of the queue's window on, if the peer has the
    /// window. Returns an error if memory runs out. Some of these pages may then be promised, and nothing else changes.
    pub fn promise_bytes(&self, pair: &mut Pair, offset: u64, len: u64) -> Result<(), AllocError>
        requires plan { pair.old.plan ≡ self.now.plan }
        requires fit { SizesFit self.now.plan }
        requires within { offset + len ≤ (side_plan_of self.now.plan self.now.side).size }
        ensures rest { pair.new ≡ with_pages pair.old (other_side self.now.side) (pages_of pair.new (other_side self.now.side)) }
        ensures pages { PagesGrow (TouchesRange self.now offset len) (pages_of pair.old (other_side self.now.side)) (pages_of pair.new (other_side self.now.side)) }
        ensures ok { OnOk result (IsRangePromised self.now offset len (pages_of pair.new (other_side self.now.side))) }
    {
        if !reaches(self) {
            return Ok(());
        }
        pair.law();
        let peer = self.side().other();
        let at = own_address(self.plan(), peer, self.out_window(), offset);
        pair.promise_range(peer, at, len)
    }

    /// Promises the pages of entry `n`, which has this many bytes, at the peer. Returns an error if memory runs out.
    /// Some of these pages may then be promised, and nothing else changes.
    pub fn promise_entry(&self, pair: &mut Pair, n: u64, len: u64) -> Result<(), AllocError>
        requires plan { pair.old.plan ≡ self.now.plan }
        requires fit { SizesFit self.now.plan }
        requires fits { len ≤ (sizes_of self.now.plan self.now.side self.now.queue).largest }
        ensures rest { pair.new ≡ with_pages pair.old (other_side self.now.side) (pages_of pair.new (other_side self.now.side)) }
        ensures pages { PagesGrow (TouchesEntry self.now n len) (pages_of pair.old (other_side self.now.side)) (pages_of pair.new (other_side self.now.side)) }
        ensures ok { OnOk result (IsEntryPromised self.now n len (pages_of pair.new (other_side self.now.side))) }
    {
        self.promise_bytes(pair, slot_offset_of(self, n), len)?;
        let header = u64::from(header_bytes(self.plan()));
        self.promise_bytes(pair, header_offset_of(self, n), header)
    }

    /// Promises the pages of all entries of a frame, the first of which has the number `from`, at the peer. Returns an
    /// error if memory runs out. Some of these pages may then be promised, and nothing else changes.
    pub fn promise_frame(&self, pair: &mut Pair, from: u64, frame: &Frame) -> Result<(), AllocError>
        requires plan { pair.old.plan ≡ self.now.plan }
        requires fit { SizesFit self.now.plan }
        requires few { from ≤ most_numbers }
        ensures rest { pair.new ≡ with_pages pair.old (other_side self.now.side) (pages_of pair.new (other_side self.now.side)) }
        ensures pages { PagesGrow (TouchesEntries self.now from (pieces_of (sizes_of self.now.plan self.now.side self.now.queue).largest frame.now)) (pages_of pair.old (other_side self.now.side)) (pages_of pair.new (other_side self.now.side)) }
        ensures ok { OnOk result (AreEntriesPromised self.now from (pieces_of (sizes_of self.now.plan self.now.side self.now.queue).largest frame.now) (pages_of pair.new (other_side self.now.side))) }
    {
        let largest = self.out().max_payload();
        for k in 0..pieces_in(largest, frame.len()) {
            let len = piece_bytes(frame.bytes(), largest, k).len() as u64;
            self.promise_entry(pair, from + u64::from(k), len)?;
        }
        Ok(())
    }

    /// Promises the pages of the index words that the side posts. Returns an error if memory runs out. Some of these
    /// pages may then be promised, and nothing else changes.
    pub fn promise_index_word(&self, pair: &mut Pair) -> Result<(), AllocError>
        requires plan { pair.old.plan ≡ self.now.plan }
        requires fit { SizesFit self.now.plan }
        ensures rest { pair.new ≡ with_pages pair.old (other_side self.now.side) (pages_of pair.new (other_side self.now.side)) }
        ensures pages { PagesGrow (TouchesRange self.now (index_of (layout_of self.now.plan self.now.side self.now.queue)) 4) (pages_of pair.old (other_side self.now.side)) (pages_of pair.new (other_side self.now.side)) }
        ensures ok { OnOk result (IsRangePromised self.now (index_of (layout_of self.now.plan self.now.side self.now.queue)) 4 (pages_of pair.new (other_side self.now.side))) }
    {
        let offset = self.out().index_at();
        self.promise_bytes(pair, offset, 4)
    }

    /// Promises the pages of the flags of the slot in which the side receives entry `n`. Returns an error if memory
    /// runs out. Some of these pages may then be promised, and nothing else changes.
    pub fn promise_flags(&self, pair: &mut Pair, n: u64) -> Result<(), AllocError>
        requires plan { pair.old.plan ≡ self.now.plan }
        requires fit { SizesFit self.now.plan }
        ensures rest { pair.new ≡ with_pages pair.old self.now.side (pages_of pair.new self.now.side) }
        ensures pages { PagesGrow (Touches (own_header self.now.plan self.now.side self.now.queue n + offset_of_flags self.now.plan) 4) (pages_of pair.old self.now.side) (pages_of pair.new self.now.side) }
        ensures ok { OnOk result (ArePromised (own_header self.now.plan self.now.side self.now.queue n + offset_of_flags self.now.plan) 4 (pages_of pair.new self.now.side)) }
    {
        pair.law();
        let at = header_at(self, n) + flags_offset(self);
        pair.promise_range(self.side(), at, 4)
    }
}

/// Returns how many writes the entries of a frame take.
pub fn count_writes(frame: &Frame, largest: u32) -> usize
    requires some { 4 ≤ largest }
    requires few { largest ≤ most_frame_bytes }
    ensures value { result ≡ all_writes_in (pieces_of largest frame.now) }
    ensures small { result ≤ most_writes_left }
{
    let mut count = 0;
    for k in 0..pieces_in(largest, frame.len()) {
        let len = piece_bytes(frame.bytes(), largest, k).len() as u32;
        count += writes_in(len) as usize;
    }
    count
}
