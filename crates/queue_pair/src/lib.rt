//! A queue pair of one side of a pair (Linux `Documentation/driver-api/ntb.rst`, `ntb_transport`): a port with refusals
//! of its own. A begin and a going down are refused where the link isn't up, the queue isn't joined, or it is closed. A
//! look is refused in the last two cases. A queue is closed on a side that sends a link-down entry or finds one, until
//! its next clean; posts, copies, clears and acks go on.
#![tactic(auto)]

pub mod laws;
mod queue;

pub use queue::{QueuePair, irq};

/// The answer to a begin or to a queue's going down, in the order in which its refusals are tested.
#[derive(Clone, Copy, Debug, PartialEq, Eq)]
pub enum BeginAnswer {
    /// It was begun, and has this number, counted from 0 in the session.
    Ok { number: u64 },
    /// The link isn't up.
    LinkDown,
    /// The queue isn't joined on this side.
    NotReady,
    /// The queue is closed on this side.
    Closed,
    /// The frame is longer than any may be: its length and the most that it may be, both in bytes.
    TooLong { len: u32, max: u32 },
    /// The frame before has writes left to post.
    Busy,
    /// The ring has fewer entries free than are needed: `head` is the slot of the next entry, and `tail` the index
    /// word.
    NoRoom { head: u32, tail: u32 },
}

/// The answer to a look, in the order in which it is tested; [`LookAnswer::Ready`] comes where no other does.
#[derive(Clone, Copy, Debug, PartialEq, Eq)]
pub enum LookAnswer {
    /// The queue isn't joined on this side.
    NotReady,
    /// The queue is closed on this side.
    Closed,
    /// Another entry is at hand.
    OutOfTurn,
    /// An entry stands in the next slot.
    Ready {
        /// The number of the entry, counted from 0 in the session.
        number: u64,
        /// Its length, in bytes.
        len: u32,
    },
    /// The flags of the next slot lack DONE.
    Empty,
    /// The flags say LINK_DOWN: the queue is closed on this side now.
    PeerDown,
    /// The version isn't the next entry's: `seen` stands there, and `own` is the number of the next entry in 32 bits.
    VerDiffers {
        seen: u32,
        own: u32,
    },
    /// The entry has more bytes than an entry may have, or makes its frame longer than a frame may be: `len` bytes, if
    /// `max` is the most.
    Long {
        len: u32,
        max: u32,
    },
}
