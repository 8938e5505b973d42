//! Slots of the ring in the receiver's memory.

ghost use Rattle.std.specs.Prelude.{◌≡◌, ◌*◌, ◌<◌, ◌≤◌, length, IfOk};
ghost use Rattle.lane_model.specs.Lane.{bytes_of, chunk_of, chunk_size, overwritten, with_field};

use crate::entry::Entry;
use lane_model::{CHUNK_SIZE, DONE, Field, LINK_DOWN};
use std::alloc::{AllocError, Global};

/// The bytes of a chunk, as a length.
pub const CHUNK: usize = CHUNK_SIZE as usize;

/// One slot: the payload at its beginning and the fields of the header at its end.
#[derive(Drop)]
pub struct Slot {
    pub payload: Vec<u8>,
    pub len: u32,
    pub ver: u32,
    pub flags: u32,
}

/// What the flags of a slot say.
#[derive(Clone, Copy)]
pub enum Shown {
    Nothing,
    Frame,
    GoesDown,
}

impl Slot {
    ghost use Rattle.lane_core.specs.Fresh.{zeroed_slot};
    ghost use Rattle.lane_core.specs.Parts.{entry_seen, place_seen, BeginsWithin};

    /// Returns a slot of which all bytes are zero, with room for payloads of up to `largest` bytes. Returns an error if
    /// memory runs out.
    pub fn zeroed(alloc: Global, largest: u32) -> Result<Slot, AllocError>
        ensures { IfOk result (λ place. place_seen place ≡ zeroed_slot largest) }
    {
        Ok(Slot {
            payload: vec![in alloc; 0u8; largest as usize]?,
            len: 0,
            ver: 0,
            flags: 0,
        })
    }

    /// Stores a field of entry `number`, which begins within the entry's bytes. These fit the payload.
    #[tactic(auto, using(crate::proofs::OnePiece::none_left))]
    pub fn put(&mut self, number: u64, entry: &Entry, field: Field)
        requires begins { BeginsWithin (entry_seen entry.now) field }
        requires fits { length (bytes_of (entry_seen entry.now)) ≤ length (place_seen self.old).payload }
        ensures { place_seen self.new ≡ with_field (place_seen self.old) number (entry_seen entry.now) field }
    {
        let bytes = entry.bytes();
        match field {
            Field::Chunk { part } => put_chunk(&mut self.payload, part, bytes),
            Field::Length => self.len = bytes.len() as u32,
            Field::Version => self.ver = (number % (1 << 32)) as u32,
        }
    }

    /// Returns what its flags say.
    pub fn shows(&self) -> Shown
        ensures nothing { self.now.flags ≡ 0 → result ≡ Shown.Nothing }
        ensures frame { self.now.flags ≡ 1 → result ≡ Shown.Frame }
        ensures link_down { self.now.flags ≡ 3 → result ≡ Shown.GoesDown }
    {
        if self.flags & DONE == 0 {
            Shown::Nothing
        } else if self.flags & LINK_DOWN == 0 {
            Shown::Frame
        } else {
            Shown::GoesDown
        }
    }
}

// Stores the chunk `part` of these bytes at its offset in the payload.
fn put_chunk(payload: &mut [u8], part: u32, bytes: &[u8])
    requires begins { chunk_size * part < length bytes.now }
    requires fits { length bytes.now ≤ length payload.old }
    ensures { payload.new ≡ overwritten (chunk_size * part) (chunk_of bytes.now part) payload.old }
{
    let at = part as usize * CHUNK;
    let end = bytes.len().min(at + CHUNK);
    payload[at..end].copy_from_slice(&bytes[at..end]);
}
