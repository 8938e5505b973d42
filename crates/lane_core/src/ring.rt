//! The ring in the receiver's memory: its slots one after another.

ghost use Rattle.std.specs.Prelude.{◌≡◌, ◌+◌, ◌-◌, ◌*◌, ◌%◌, ◌<◌, ◌≤◌, ◌↔◌, ◌++◌, length, map, replicate, take, vec_len, vec_capacity, IfOk, IsTrue};
ghost use Rattle.lane_model.specs.Lane.{GoesDown, chunk_of, chunk_size};
ghost use Rattle.lane_model.specs.declared.Write.TheVariants.{Data};
ghost use Rattle.lane_model.specs.Ring.{free_entries};
ghost use Rattle.pair_model.specs.Labels.{label_of};
ghost use Rattle.lane_core.specs.Calls.{core_number_of};
ghost use Rattle.lane_core.specs.Fresh.{zeroed_slot};
ghost use Rattle.lane_core.specs.Parts.{core_entry_in, entry_seen, place_seen, CanStore, IsKnown, core_ring_after, with_flags_at};

use crate::entry::Entry;
use crate::slot::{CHUNK, Slot};
use lane_model::{Field, Write};
use std::alloc::{AllocError, Global};
use step_kinds::Label;

/// Returns a ring of this many zeroed slots. Returns an error if memory runs out.
pub fn zeroed_ring(alloc: Global, entries: u32, largest: u32) -> Result<Vec<Slot>, AllocError>
    ensures { IfOk result (λ ring. map place_seen ring.items ≡ replicate entries (zeroed_slot largest)) }
{
    let mut ring = Vec::with_capacity(alloc, entries as usize)?;
    for _ in 0..entries {
        ring.push(Slot::zeroed(alloc, largest)?)?;
    }
    Ok(ring)
}

/// Returns the slot of the entry of this number, in a ring of `entries` slots, 1 at least.
pub fn position_of(entries: u32, number: u64) -> u32
    requires { 0 < entries }
    ensures value { result ≡ number % entries }
    ensures within { result < entries }
{
    (number % u64::from(entries)) as u32
}

/// Returns the free entries of a ring, by the slot of the next entry, which is below `entries`, and the index word.
pub fn free_between(entries: u32, head: u32, tail: u32) -> u32
    requires { head < entries }
    ensures { result ≡ free_entries entries head tail }
{
    if head <= tail {
        tail - head
    } else {
        entries - head + tail
    }
}

/// Stores what a write of the lane writes: a field or the flags of its entry, in the slot of that entry. The ring has
/// `entries` slots, the entry was begun and fits its slot, and the field begins within the entry's bytes.
pub fn store(ring: &mut [Slot], entries: u32, sent: &[Entry], mark: Write)
    requires ring { length ring.old ≡ entries }
    requires can { CanStore (map place_seen ring.old) (map entry_seen sent.now) mark }
    ensures { map place_seen ring.new ≡ core_ring_after (map place_seen ring.old) (map entry_seen sent.now) mark }
{
    match mark {
        Write::Data { number, field } => {
            let place = &mut ring[position_of(entries, number) as usize];
            place.put(number, &sent[number as usize], field);
        }
        Write::Flag { number } => {
            let flags = sent[number as usize].flags();
            put_flags(ring, entries, number, flags);
        }
        Write::Bell => {}
    }
}

/// Puts these flags into the slot of the entry of this number. The ring has `entries` slots, 1 at least.
pub fn put_flags(ring: &mut [Slot], entries: u32, number: u64, flags: u32)
    requires some { 0 < entries }
    requires ring { length ring.old ≡ entries }
    ensures { map place_seen ring.new ≡ with_flags_at (map place_seen ring.old) number flags }
{
    let place = &mut ring[position_of(entries, number) as usize];
    place.flags = flags;
}

/// Copies part `part` of the frame that stands in a slot after what was copied before, in room that was reserved, and
/// returns whether more of the frame is left. The slot's length fits its payload, and the part begins no later than the
/// frame ends.
pub fn copy_chunk(copied: &mut Vec<u8>, place: &Slot, part: u32) -> bool
    requires begins { chunk_size * part ≤ place.now.len }
    requires stands { place.now.len ≤ length place.now.payload.items }
    requires room { vec_len copied.old + (place.now.len - chunk_size * part) ≤ vec_capacity copied.old }
    ensures more { IsTrue result ↔ (chunk_size * (part + 1) < place.now.len) }
    ensures copied { copied.new.items ≡ copied.old.items ++ chunk_of (take place.now.len place.now.payload.items) part }
    ensures capacity { vec_capacity copied.new ≡ vec_capacity copied.old }
{
    let len = place.len as usize;
    let at = part as usize * CHUNK;
    let end = len.min(at + CHUNK);
    append_reserved(copied, &place.payload[at..end]);
    end < len
}

// Adds bytes to a vector that has room for them.
fn append_reserved(out: &mut Vec<u8>, bytes: &[u8])
    requires { vec_len out.old + length bytes.now ≤ vec_capacity out.old }
    ensures items { out.new.items ≡ out.old.items ++ bytes.now }
    ensures capacity { vec_capacity out.new ≡ vec_capacity out.old }
{
    for byte in bytes {
        out.push_reserved(*byte);
    }
}

/// Returns the label of a write of the lane on a queue. If it writes flags, their entry was begun.
pub fn label(queue: u32, sent: &[Entry], mark: Write) -> Label
    requires { IsKnown mark (length sent.now) }
    ensures { result ≡ label_of queue (core_entry_in (map entry_seen sent.now) (core_number_of mark)) mark }
{
    match mark {
        Write::Data { number, field } => field_label(queue, number, field),
        Write::Flag { number } => match sent[number as usize] {
            Entry::Carries(_) => Label::Flag { queue, number },
            Entry::GoesDown => Label::Down { queue, number },
        },
        Write::Bell => Label::Bell { queue },
    }
}

// Returns the label of a field.
fn field_label(queue: u32, number: u64, field: Field) -> Label
    ensures { result ≡ label_of queue GoesDown (Data number field) }
{
    match field {
        Field::Chunk { part } => Label::Chunk {
            queue,
            number,
            part,
        },
        Field::Length => Label::Len { queue, number },
        Field::Version => Label::Ver { queue, number },
    }
}
