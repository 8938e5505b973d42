//! The model of one lane: its ring in the peer's memory, what is on its way there, and the statement of the law that
//! holds of both.
//!
//! A lane carries frames from one side of a bridge to the other through one queue. This crate has definitions
//! alone, over lists and numbers; `lane_laws` proves the law of them. It knows nothing of pairs, bytes in a window or
//! objects of a program.
#![tactic(auto)]

ghost use Rattle.std.specs.Prelude.{◌≡◌, ◌+◌};
ghost use Rattle.lane_model.specs.Lane.{GoesDown, chunk_size, done, flags_of};

pub mod examples;

/// The bytes of a chunk: a payload is cut from its start, and the last chunk may be shorter.
pub const CHUNK_SIZE: u32 = 128;

/// The bit of a header's flags that says that the entry stands whole.
pub const DONE: u32 = 1;

/// The bit of a header's flags that says that the sender's end of the queue goes down.
pub const LINK_DOWN: u32 = 2;

/// The constants of this crate are the numbers of its definitions. It does nothing: its clauses are the law.
pub fn constants_are_numbers()
    ensures chunk { CHUNK_SIZE ≡ chunk_size }
    ensures whole { DONE ≡ done }
    ensures down { DONE + LINK_DOWN ≡ flags_of GoesDown }
{}

/// Where a receiver stands with the frame in the next slot of its ring. The order of the phases is that of
/// `ntb_transport`'s receiver: it copies, clears the flags and writes the index back. That a script can put steps
/// between them is this project's own.
#[derive(Clone, Copy, Debug, PartialEq, Eq)]
pub enum Phase {
    /// No frame is looked at: the next one may be looked for.
    Idle,
    /// A frame was found, and at least one part of it is still to be copied.
    Copying,
    /// The whole frame was copied, and its flags still stand in the ring.
    Copied,
    /// The flags are cleared, and the index write that gives the entry back is still to be posted.
    Cleared,
}

/// A field of an entry: what is written of it before its flags. The payload is cut into chunks of 128 bytes, each a
/// write of its own; `ntb_transport` writes length and version beside it. Of the fields of one entry, and of several,
/// any may land before any other where the pair's writes are relaxed (PCI Express Base 4.0, section 2.4).
#[derive(Clone, Copy, Debug, PartialEq, Eq)]
pub enum Field {
    /// The bytes of the payload from 128 times `part` on: 128 of them, or what is left. Parts are numbered from 0, and
    /// a payload of up to 65,536 bytes has at most 512.
    Chunk { part: u32 },
    /// The length in the header: the bytes of the payload.
    Length,
    /// The version in the header, the entry's number modulo 2^32, and with it how many entries of its frame follow.
    Version,
}

/// A posted write of a lane towards the receiver, by what it writes. `number` is its entry's, counted from 0 in the
/// session. Index writes, which go the other way, are only their numbers.
#[derive(Clone, Copy, Debug, PartialEq, Eq)]
pub enum Write {
    /// A field of an entry. It is relaxed on a pair that isn't declared strict.
    Data { number: u64, field: Field },
    /// The flags of an entry: DONE, and LINK_DOWN beside it at a link-down entry. Strict on every pair.
    Flag { number: u64 },
    /// The doorbell of the queue. Strict on every pair. It has no number, since a doorbell doesn't say which entry
    /// rang.
    Bell,
}
