//! What stands in flight for a write that is kept elsewhere.

ghost use Rattle.std.specs.Prelude.{◌≡◌, ◌<◌};

use crate::Ordered;

/// The key of a write that is kept elsewhere, and how bridges order it.
#[derive(Clone, Copy)]
pub struct Ticket {
    kind: u32,
    class: u32,
    pub key: usize,
    ghost small: { (kind < 2) × (class < 8) },
}

impl Ticket {
    /// Returns the ticket of the write at this key, which has this kind, below 2, and this traffic class, below 8.
    #[inline]
    pub fn new(key: usize, kind: usize, class: u32) -> Self
        requires kind { kind < 2 }
        requires class { class < 8 }
        ensures key { result.key ≡ key }
        ensures kind { result.kind ≡ kind }
        ensures class { result.class ≡ class }
    {
        Ticket {
            kind: kind as u32,
            class,
            key,
        }
    }
}

impl Ordered for Ticket {
    ghost order = { λ ticket. record { kind = ticket.kind; class = ticket.class } };

    #[inline]
    fn kind(&self) -> usize {
        self.kind as usize
    }

    #[inline]
    fn class(&self) -> u32 {
        self.class
    }
}
