//! What a side has reached in the handshake.

/// What one side of a pair has reached in the handshake of the session. Sets of queues are the bits of a number: bit k
/// says that queue k is in the set.
#[derive(Clone, Copy, Debug, PartialEq, Eq)]
pub struct SideBook {
    /// Whether the side has checked the peer's offer and found that they agree.
    pub up: bool,
    /// The queues that the side has said to be ready.
    pub ready: u32,
    /// The queues that are ready on both sides, as far as the side has seen.
    pub joined: u32,
    /// How many scratchpads of its offer the side has posted: at most two for each of its windows and three.
    pub offered: u32,
}

impl SideBook {
    ghost use Rattle.std.specs.Prelude.{◌≡◌};
    ghost use Rattle.bridge_pair.specs.Links.{no_book};

    /// Returns a side that has reached nothing.
    pub fn none() -> SideBook
        ensures { result ≡ no_book }
    {
        SideBook {
            up: false,
            ready: 0,
            joined: 0,
            offered: 0,
        }
    }
}
