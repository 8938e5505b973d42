//! A ring of frames as bytes in the peer's memory: one queue of one side, with the ring that it sends to and the ring
//! that it receives in. It works in the way of `ntb_transport`. Each call decides by the bytes that stand in the side's
//! own memory, whoever wrote them, and by counts of the port's own. So one code serves ordinary and raw pairs, with
//! headers of 12 bytes and, between sides that both speak version 5, of 16.
//!
//! A begin, a going down or a look promises all room and all pages that what follows it needs. So no other call on a
//! pair takes memory.
#![tactic(auto)]

mod frame_bytes;
mod port;
mod posting;
mod promises;
mod reading;
mod receiving;
mod rings;
mod sending;

pub use port::Port;
pub use step_kinds::{Begun, LaneCopy};

/// What came of looking for the next entry. `ntb_transport` too decides by the flags of the header: without DONE
/// nothing is there, and LINK_DOWN beside it says that the peer's end of the queue goes down.
#[derive(Clone, Copy, Debug, PartialEq, Eq)]
pub enum RingLook {
    /// An entry stands in the next slot: its number, counted from 0 in the session, and its length in bytes.
    Ready { number: u64, len: u32 },
    /// The flags lack DONE.
    Empty,
    /// The flags say LINK_DOWN.
    PeerDown,
    /// The version isn't the next entry's: `seen` stands there, and `own` is the number of the next entry in 32 bits.
    VerDiffers { seen: u32, own: u32 },
    /// The entry has more bytes than an entry may have, or makes its frame longer than a frame may be. `len` is its
    /// length, or that of its frame so far with it, and `max` is the most that this may be. Both are in bytes.
    Long { len: u32, max: u32 },
    /// The receiver is still at another entry: it has not copied, cleared or given back the one that it found.
    OutOfTurn,
}
