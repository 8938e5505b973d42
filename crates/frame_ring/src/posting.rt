//! Posting the writes of a ring.

ghost use Rattle.std.specs.Prelude.{◌≡◌, ◌+◌, ◌*◌, ◌%◌, ◌<◌, ◌≤◌, ◌++◌, length};
ghost use Rattle.step_kinds.specs.Limits.{most_frame_bytes, most_write_bytes};
ghost use Rattle.bridge_pair.specs.Bridge.{flight_of, pages_of};
ghost use Rattle.pair_model.specs.Addresses.{own_header};
ghost use Rattle.pair_model.specs.Headers.{flags_offset as offset_of_flags, len_offset as offset_of_len, version_bytes, word_bytes};
ghost use Rattle.pair_model.specs.RingWrites.{header_offset, index_write, queue_write, slot_offset};
ghost use Rattle.frame_ring.specs.Outgoing.{IsLabelOf};
ghost use Rattle.frame_ring.specs.PortView.{IsLeftReady, flags_cleared, IsReadyToLand, index_posted, reaches as reaches_by, ring_posted, window_posted};
ghost use Rattle.host_memory.specs.Memory.{ArePromised};
ghost use Rattle.lane_model.specs.Lane.{bytes_of, chunk_of, chunks_in, chunk_size};
ghost use Rattle.pair_model.specs.DeclaredPlans.{SizesFit};
ghost use Rattle.pair_model.specs.Plans.{side_plan as side_plan_of};
ghost use Rattle.pair_model.specs.Sizes.{header_bytes as bytes_of_header, layout_of, layout_to, sizes_of};
ghost use Rattle.ring_geometry.specs.Geometry.{entries_of, window_of};
ghost use Rattle.step_kinds.specs.Sides.{other_side};
ghost use Rattle.step_kinds.specs.declared.steps.Label.TheVariants.{Index};

use crate::reading::{flags_offset, header_at};
use crate::rings::{QueueRings, slot_in};
use crate::sending::Sender;
use bridge_pair::{Pair, Write};
use lane_model::{CHUNK_SIZE, DONE, LINK_DOWN};
use plan_numbers::side_plan;
use ring_geometry::ver_of;
use step_kinds::Label;

/// Returns whether the peer has the window that the side sends through on the queue.
pub fn reaches(rings: &QueueRings) -> bool
    ensures { result ≡ reaches_by rings.now.plan rings.now.side (window_of (layout_of rings.now.plan rings.now.side rings.now.queue)) }
{
    let peer = rings.side().other();
    rings.out_window() < side_plan(rings.plan(), peer).windows
}

// Posts bytes into that window; where the peer lacks it they are lost, and their promise is given back.
fn post_bytes(rings: &QueueRings, pair: &mut Pair, label: Label, offset: u64, bytes: &[u8])
    requires plan { pair.old.plan ≡ rings.now.plan }
    requires fit { SizesFit rings.now.plan }
    requires some { 1 ≤ length bytes.now }
    requires few { length bytes.now ≤ most_write_bytes }
    requires within { offset + length bytes.now ≤ (side_plan_of rings.now.plan rings.now.side).size }
    requires room { 0 < (flight_of pair.old rings.now.side).spare }
    requires pages { IsReadyToLand rings.now.plan rings.now.side (pages_of pair.old (other_side rings.now.side)) (queue_write rings.now.plan rings.now.side rings.now.queue offset bytes.now) }
    ensures { pair.new ≡ window_posted pair.old rings.now.side label (queue_write rings.now.plan rings.now.side rings.now.queue offset bytes.now) }
{
    let side = rings.side();
    if reaches(rings) {
        pair.post_bytes(side, label, rings.out_window(), offset, bytes);
    } else {
        pair.give_back(side, 1);
    }
}

// Posts a word.
fn post_word(rings: &QueueRings, pair: &mut Pair, label: Label, offset: u64, value: u32)
    requires plan { pair.old.plan ≡ rings.now.plan }
    requires fit { SizesFit rings.now.plan }
    requires within { offset + 4 ≤ (side_plan_of rings.now.plan rings.now.side).size }
    requires room { 0 < (flight_of pair.old rings.now.side).spare }
    requires pages { IsReadyToLand rings.now.plan rings.now.side (pages_of pair.old (other_side rings.now.side)) (queue_write rings.now.plan rings.now.side rings.now.queue offset (word_bytes value)) }
    ensures { pair.new ≡ window_posted pair.old rings.now.side label (queue_write rings.now.plan rings.now.side rings.now.queue offset (word_bytes value)) }
{
    post_bytes(rings, pair, label, offset, &value.to_le_bytes());
}

/// Returns the offset of the slot to which the side sends entry `n`.
pub fn slot_offset_of(rings: &QueueRings, n: u64) -> u64
    ensures value { result ≡ slot_offset rings.now.plan rings.now.side rings.now.queue n }
    ensures within { result + (sizes_of rings.now.plan rings.now.side rings.now.queue).largest ≤ (side_plan_of rings.now.plan rings.now.side).size }
    ensures small { result < 1000000000 }
{
    let out = rings.out();
    out.slot_at(slot_in(out, n))
}

/// Returns the offset of the header of the slot to which the side sends entry `n`.
pub fn header_offset_of(rings: &QueueRings, n: u64) -> u64
    ensures value { result ≡ header_offset rings.now.plan rings.now.side rings.now.queue n }
    ensures within { result + bytes_of_header rings.now.plan ≤ (side_plan_of rings.now.plan rings.now.side).size }
    ensures small { result < 1000000000 }
{
    let out = rings.out();
    out.header_at(slot_in(out, n))
}

// Where the length stands in a header.
fn len_offset(rings: &QueueRings) -> u64
    ensures value { result ≡ offset_of_len rings.now.plan }
    ensures within { result + 8 ≡ bytes_of_header rings.now.plan }
{
    if rings.speaks_five() { 8 } else { 4 }
}

// Returns a chunk of a payload.
fn chunk_at(payload: &[u8], part: u32) -> &[u8]
    requires among { part < chunks_in (length payload.now) }
    requires fits { length payload.now ≤ most_frame_bytes }
    ensures value { result.now ≡ chunk_of payload.now part }
    ensures some { 1 ≤ length result.now }
    ensures few { length result.now ≤ most_write_bytes }
    ensures within { chunk_size * part + length result.now ≤ length payload.now }
{
    let start = (CHUNK_SIZE * part) as usize;
    let rest = &payload[start..];
    let end = rest.len().min(CHUNK_SIZE as usize);
    &rest[..end]
}

// Posts the version of an entry, on version 5 with the number of entries that follow it.
fn post_version(rings: &QueueRings, pair: &mut Pair, label: Label, n: u64, left: u32)
    requires plan { pair.old.plan ≡ rings.now.plan }
    requires fit { SizesFit rings.now.plan }
    requires room { 0 < (flight_of pair.old rings.now.side).spare }
    requires pages { IsReadyToLand rings.now.plan rings.now.side (pages_of pair.old (other_side rings.now.side)) (queue_write rings.now.plan rings.now.side rings.now.queue (header_offset rings.now.plan rings.now.side rings.now.queue n) (version_bytes rings.now.plan n left)) }
    ensures { pair.new ≡ window_posted pair.old rings.now.side label (queue_write rings.now.plan rings.now.side rings.now.queue (header_offset rings.now.plan rings.now.side rings.now.queue n) (version_bytes rings.now.plan n left)) }
{
    let offset = header_offset_of(rings, n);
    let version = ver_of(n);
    if rings.speaks_five() {
        let both = two_words(left, version);
        post_bytes(rings, pair, label, offset, &both);
    } else {
        post_word(rings, pair, label, offset, version);
    }
}

// Two words, one after the other.
fn two_words(first: u32, second: u32) -> [u8; 8]
    ensures { result ≡ word_bytes first ++ word_bytes second }
{
    let mut both = [0u8; 8];
    both[..4].copy_from_slice(&first.to_le_bytes());
    both[4..].copy_from_slice(&second.to_le_bytes());
    both
}

/// Posts the index write of entry `n`.
pub fn post_index(rings: &QueueRings, pair: &mut Pair, n: u64)
    requires plan { pair.old.plan ≡ rings.now.plan }
    requires fit { SizesFit rings.now.plan }
    requires room { 0 < (flight_of pair.old rings.now.side).spare }
    requires pages { IsReadyToLand rings.now.plan rings.now.side (pages_of pair.old (other_side rings.now.side)) (index_write rings.now.plan rings.now.side rings.now.queue n) }
    ensures { pair.new ≡ index_posted pair.old rings.now.side rings.now.queue n }
{
    let slot = slot_in(rings.into(), n);
    let label = Label::Index {
        queue: rings.queue(),
        number: n,
    };
    post_word(rings, pair, label, rings.out().index_at(), slot);
}

/// Posts the write of the entry at hand that has this label.
pub fn post_write(rings: &QueueRings, sender: &Sender, pair: &mut Pair, label: Label)
    requires plan { pair.old.plan ≡ rings.now.plan }
    requires fit { SizesFit rings.now.plan }
    requires queue { sender.now.queue ≡ rings.now.queue }
    requires largest { sender.now.largest ≡ (sizes_of rings.now.plan rings.now.side rings.now.queue).largest }
    requires of_entry { IsLabelOf sender.now.queue sender.now.sending.entry label }
    requires room { 0 < (flight_of pair.old rings.now.side).spare }
    requires pages { IsLeftReady rings.now.plan rings.now.side (pages_of pair.old (other_side rings.now.side)) (record { entry = sender.now.sending.entry; label = label }) }
    ensures { pair.new ≡ ring_posted pair.old rings.now.side sender.now.sending.entry label }
{
    match label {
        Label::Chunk { number, part, .. } => {
            let bytes = chunk_at(sender.payload(), part);
            let offset = slot_offset_of(rings, number) + u64::from(CHUNK_SIZE * part);
            post_bytes(rings, pair, label, offset, bytes);
        }
        Label::Len { number, .. } => {
            let len = sender.payload().len() as u32;
            let offset = header_offset_of(rings, number) + len_offset(rings);
            post_word(rings, pair, label, offset, len);
        }
        Label::Ver { number, .. } => {
            post_version(rings, pair, label, number, sender.followers());
        }
        Label::Flag { number, .. } => {
            let offset = header_offset_of(rings, number) + flags_offset(rings);
            post_word(rings, pair, label, offset, DONE);
        }
        Label::Down { number, .. } => {
            let offset = header_offset_of(rings, number) + flags_offset(rings);
            post_word(rings, pair, label, offset, DONE + LINK_DOWN);
        }
        Label::Bell { .. } => pair.post(rings.side(), Write::bell(rings.queue())),
        Label::Index { .. } | Label::Pad { .. } | Label::Raw { .. } => {}
    }
}

/// Zeroes the flags of the slot in which the side received entry `n`.
pub fn clear_flags(rings: &QueueRings, pair: &mut Pair, n: u64)
    requires plan { pair.old.plan ≡ rings.now.plan }
    requires fit { SizesFit rings.now.plan }
    requires promised { ArePromised (own_header rings.now.plan rings.now.side rings.now.queue n + offset_of_flags rings.now.plan) 4 (pages_of pair.old rings.now.side) }
    ensures { pair.new ≡ flags_cleared pair.old rings.now.side rings.now.queue n }
{
    pair.law();
    let at = header_at(rings, n) + flags_offset(rings);
    pair.local_write(rings.side(), at, &[0u8; 4]);
}
