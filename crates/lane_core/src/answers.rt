//! What the calls of a lane answer.

use step_kinds::Label;
pub use step_kinds::{Begun, LaneCopy};

/// What came of landing a write. Which write may pass which is the rule of PCI Express Base 4.0, section 2.4.
#[derive(Debug, PartialEq, Eq, Drop)]
pub enum LaneLand {
    /// The write of this label landed, and is no longer in flight.
    Landed(Label),
    /// The write may not pass one before it, and stays where it is.
    Blocked,
    /// No write is in flight at the place.
    Nothing,
}

/// What came of looking for the next entry. `ntb_transport` too decides by the flags of the header: without DONE
/// nothing is there, and LINK_DOWN beside it says that the peer's end of the queue goes down.
#[derive(Debug, PartialEq, Eq, Drop)]
pub enum LaneLook {
    /// A frame of this number, and of this length in bytes, stands in the next entry's slot, whole.
    Ready { number: u64, len: u32 },
    /// The next entry's flags have not landed.
    Empty,
    /// A link-down entry stands there.
    PeerDown,
    /// The receiver is still at another entry: it has not copied, cleared or given back the one that it found.
    OutOfTurn,
}
