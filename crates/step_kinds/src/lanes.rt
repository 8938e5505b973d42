//! What the calls of a lane's ends answer, whoever keeps the lane.

use crate::frame::Frame;

/// What came of beginning an entry. `ntb_transport` answers a full ring with `-EAGAIN`, and a frame that is too long
/// with `-EMSGSIZE` (older kernels: `-EIO`). That a frame is posted whole before the next is begun is this project's
/// own.
#[derive(Debug, PartialEq, Eq, Drop)]
pub enum Begun {
    /// The frame was begun and has this number, counted from 0 in the session. Of a link-down entry it is the number of
    /// frames that were begun before.
    Ok { number: u64 },
    /// The frame is longer than any may be: its length and the most that it may be, both in bytes. Of a frame alone,
    /// and tested first.
    TooLong { len: u32, max: u32 },
    /// What was begun before has writes left to post.
    Busy,
    /// The ring has fewer entries free than are needed. `head` is the slot of the next entry, and `tail` the index
    /// word. Unless it was written past the transport, this is the slot of the last entry that was given back.
    NoRoom { head: u32, tail: u32 },
}

/// What came of copying the next part of an entry. A part is 128 bytes, the last one of an entry the rest of it. That a
/// copy is made in parts is this project's own, so that a script can put steps between them.
#[derive(Debug, Drop)]
pub enum LaneCopy {
    /// A part was copied, and more of the frame is left: the number of the entry, and that of the part, counted from 0
    /// in its entry.
    Part { number: u64, part: u32 },
    /// The last part was copied: the number of the frame, and the whole frame.
    Whole { number: u64, frame: Frame },
    /// No entry is being copied.
    OutOfTurn,
}
