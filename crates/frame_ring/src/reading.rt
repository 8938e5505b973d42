//! What a side reads of its rings in its own memory.

ghost use Rattle.std.specs.Prelude.{◌≡◌, ℕ, ◌+◌, ◌%◌, ◌*◌, ◌<◌, ◌≤◌, nat_le};
ghost use Rattle.plan_numbers.specs.Memories.{memory_size};
ghost use Rattle.pair_model.specs.Addresses.{own_address as address_in_window, own_header, own_index_word, own_slot};
ghost use Rattle.pair_model.specs.Headers.{flags_offset as offset_of_flags, free_in_memory, header_in, index_word_in, word_at};
ghost use Rattle.frame_ring.specs.Rings.{port_header_of, address_limit};
ghost use Rattle.frame_ring.specs.PortView.{bytes_seen};
ghost use Rattle.pair_model.specs.DeclaredPlans.{SizesFit};
ghost use Rattle.pair_model.specs.Plans.{side_plan as side_plan_of};
ghost use Rattle.pair_model.specs.Sizes.{header_bytes as bytes_of_header, layout_to, sizes_of};
ghost use Rattle.ring_geometry.specs.Geometry.{max_payload_of};

use crate::rings::{QueueRings, slot_in};
use bridge_pair::Pair;
use plan_numbers::{memory_bytes, own_address, side_plan};

/// The words of a header: on version 4 none follows, and `left` is 0.
#[derive(Clone, Copy)]
pub struct HeaderWords {
    pub left: u32,
    pub ver: u32,
    pub len: u32,
    pub flags: u32,
}

// Returns the address of a place in the window of the ring in which the side receives.
fn received_at(rings: &QueueRings, offset: u64) -> u64
    requires fit { SizesFit rings.now.plan }
    requires offset { offset ≤ (side_plan_of rings.now.plan rings.now.side).cap }
    ensures value { result ≡ address_in_window rings.now.plan rings.now.side rings.now.queue offset }
    ensures within { (len : ℕ) → offset + len ≤ (side_plan_of rings.now.plan rings.now.side).cap → result + len ≤ memory_size rings.now.plan rings.now.side }
    ensures small { result < address_limit }
{
    own_address(rings.plan(), rings.side(), rings.into_window(), offset)
}

/// Returns the address of the header of the slot in which the side receives entry `n`.
pub fn header_at(rings: &QueueRings, n: u64) -> u64
    requires { SizesFit rings.now.plan }
    ensures value { result ≡ own_header rings.now.plan rings.now.side rings.now.queue n }
    ensures within { result + bytes_of_header rings.now.plan ≤ memory_size rings.now.plan rings.now.side }
    ensures small { result < address_limit }
{
    let into = rings.into();
    received_at(rings, into.header_at(slot_in(into, n)))
}

/// Returns the address of the slot in which the side receives entry `n`.
pub fn slot_at(rings: &QueueRings, n: u64) -> u64
    requires { SizesFit rings.now.plan }
    ensures value { result ≡ own_slot rings.now.plan rings.now.side rings.now.queue n }
    ensures within { result + max_payload_of (layout_to rings.now.plan rings.now.side rings.now.queue) ≤ memory_size rings.now.plan rings.now.side }
    ensures small { result < address_limit }
{
    let into = rings.into();
    received_at(rings, into.slot_at(slot_in(into, n)))
}

/// Where the flags stand in a header.
pub fn flags_offset(rings: &QueueRings) -> u64
    ensures value { result ≡ offset_of_flags rings.now.plan }
    ensures within { result + 4 ≡ bytes_of_header rings.now.plan }
{
    if rings.speaks_five() { 12 } else { 8 }
}

// Returns a word of the side's memory.
fn word(rings: &QueueRings, pair: &Pair, at: u64) -> u32
    requires plan { pair.now.plan ≡ rings.now.plan }
    requires within { at + 4 ≤ memory_size rings.now.plan rings.now.side }
    ensures { result ≡ word_at (bytes_seen pair.now) rings.now.side at }
{
    pair.law();
    pair.local_word(rings.side(), at)
}

/// Returns the header of the slot in which the side receives entry `n`.
pub fn header(rings: &QueueRings, pair: &Pair, n: u64) -> HeaderWords
    requires plan { pair.now.plan ≡ rings.now.plan }
    requires fit { SizesFit rings.now.plan }
    ensures { port_header_of result ≡ header_in rings.now.plan (bytes_seen pair.now) rings.now.side rings.now.queue n }
{
    let at = header_at(rings, n);
    if rings.speaks_five() {
        HeaderWords {
            left: word(rings, pair, at),
            ver: word(rings, pair, at + 4),
            len: word(rings, pair, at + 8),
            flags: word(rings, pair, at + 12),
        }
    } else {
        HeaderWords {
            left: 0,
            ver: word(rings, pair, at),
            len: word(rings, pair, at + 4),
            flags: word(rings, pair, at + 8),
        }
    }
}

/// Returns how many entries of its frame follow entry `n`, by the header of its slot: on version 4 none.
pub fn followers(rings: &QueueRings, pair: &Pair, n: u64) -> u32
    requires plan { pair.now.plan ≡ rings.now.plan }
    requires fit { SizesFit rings.now.plan }
    ensures { result ≡ (header_in rings.now.plan (bytes_seen pair.now) rings.now.side rings.now.queue n).left }
{
    if rings.speaks_five() {
        word(rings, pair, header_at(rings, n))
    } else {
        0
    }
}

/// Returns the address of the index word of the lane that the side sends, which needn't lie in the side's memory.
pub fn index_word_at(rings: &QueueRings) -> u64
    ensures value { result ≡ own_index_word rings.now.plan rings.now.side rings.now.queue }
    ensures small { result < address_limit }
{
    let into = rings.into();
    let cap = side_plan(rings.plan(), rings.side()).cap;
    u64::from(rings.into_window()) * cap + into.index_at()
}

/// Returns whether the index word lies wholly in the side's memory.
pub fn has_index_word(rings: &QueueRings) -> bool
    ensures { result ≡ nat_le (own_index_word rings.now.plan rings.now.side rings.now.queue + 4) (memory_size rings.now.plan rings.now.side) }
{
    rings.law();
    index_word_at(rings) + 4 <= memory_bytes(rings.plan(), rings.side())
}

/// Returns the index word of the lane that the side sends, which has to lie wholly in the side's memory.
pub fn index_word(rings: &QueueRings, pair: &Pair) -> u32
    requires plan { pair.now.plan ≡ rings.now.plan }
    requires within { own_index_word rings.now.plan rings.now.side rings.now.queue + 4 ≤ memory_size rings.now.plan rings.now.side }
    ensures { result ≡ index_word_in rings.now.plan (bytes_seen pair.now) rings.now.side rings.now.queue }
{
    word(rings, pair, index_word_at(rings))
}

/// Returns the index word of the lane that the side sends, if the sides' windows fit, so that it lies in the side's
/// memory.
pub fn tail(rings: &QueueRings, pair: &Pair) -> u32
    requires plan { pair.now.plan ≡ rings.now.plan }
    requires fit { SizesFit rings.now.plan }
    ensures { result ≡ index_word_in rings.now.plan (bytes_seen pair.now) rings.now.side rings.now.queue }
{
    word(rings, pair, received_at(rings, rings.into().index_at()))
}

/// Returns the free entries of the ring that the side sends to, by the slot of its next entry and an index word.
pub fn free_by(rings: &QueueRings, head: u32, index_word: u32) -> u32
    requires { head < (sizes_of rings.now.plan rings.now.side rings.now.queue).entries }
    ensures value { result ≡ free_in_memory (sizes_of rings.now.plan rings.now.side rings.now.queue).entries head index_word }
{
    let out = rings.out();
    if index_word < out.entries() {
        out.free(head, index_word)
    } else {
        0
    }
}
