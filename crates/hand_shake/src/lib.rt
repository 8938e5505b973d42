//! The handshake of a pair: each side offers its numbers in the peer's scratchpads, checks the peer's, and says which
//! queues are ready and joined. `ntb_transport` agrees on versions, queues, windows and link bits in the same way
//! (Linux `Documentation/driver-api/ntb.rst`).
//!
//! A refusal changes nothing. Each call tests its refusals in this order:
//!
//! - [`offer`]: `LinkDown`, `Already`;
//! - [`check`]: `LinkDown`, `Already`, `NotYet`, `Version`, `Queues`, `Windows`, `Size`;
//! - [`ready`]: `LinkDown`, `NotChecked`, `Already`;
//! - [`join`]: `LinkDown`, `NotReady`, `Already`, `NotYet`.
#![tactic(auto)]

mod checks;
mod headers;
mod offers;
mod queues;

pub use checks::check;
pub use offers::offer;
pub use queues::{join, ready};

/// The answer to [`offer`].
#[derive(Clone, Copy, Debug, PartialEq, Eq)]
pub enum OfferAnswer {
    /// The next scratchpad of the offer was posted.
    Offered {
        /// The scratchpad's number.
        index: u32,
    },
    /// The whole offer was posted before.
    Already,
    /// The link isn't up.
    LinkDown,
}

/// The answer to [`check`]. `seen` is what the peer offered, `own` the side's own number.
#[derive(Clone, Copy, Debug, PartialEq, Eq)]
pub enum CheckAnswer {
    /// The two sides agree, and the side is up.
    Up,
    /// The side was up before.
    Already,
    /// The link isn't up.
    LinkDown,
    /// The peer's version has not come yet, which is the last of its offer.
    NotYet,
    /// The versions differ, and one of them is below 4.
    Version {
        /// The peer's version.
        seen: u32,
        /// The side's version.
        own: u32,
    },
    /// The numbers of queues differ.
    Queues {
        /// The peer's queues.
        seen: u32,
        /// The side's queues.
        own: u32,
    },
    /// The numbers of windows differ.
    Windows {
        /// The peer's windows.
        seen: u32,
        /// The side's windows.
        own: u32,
    },
    /// A window of the peer is larger than the side's memory gives. The first such window is said.
    Size {
        /// The bytes of the peer's window.
        seen: u64,
        /// The most bytes that the side's memory gives.
        cap: u64,
    },
}

/// The answer to [`ready`].
#[derive(Clone, Copy, Debug, PartialEq, Eq)]
pub enum ReadyAnswer {
    /// The queue is ready on this side, and the word of it is posted to the peer.
    Ok,
    /// The queue was ready before.
    Already,
    /// The side has not checked the peer's offer.
    NotChecked,
    /// The link isn't up.
    LinkDown,
}

/// The answer to [`join`].
#[derive(Clone, Copy, Debug, PartialEq, Eq)]
pub enum JoinAnswer {
    /// The queue is joined on this side: frames may go.
    Joined,
    /// The queue was joined before.
    Already,
    /// The queue isn't ready on this side.
    NotReady,
    /// The peer has not said yet that the queue is ready on its side.
    NotYet,
    /// The link isn't up.
    LinkDown,
}
