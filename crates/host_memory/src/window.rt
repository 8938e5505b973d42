//! Translation windows.

ghost use Rattle.std.specs.Prelude.{◌+◌, ◌<◌, ◌^◌, ◌≤◌};
ghost use Rattle.std.specs.Option.{SomeIff};

/// A translation window: the part of a host's memory that the peer reaches, from its own offset 0 on (a memory window
/// of Linux `Documentation/driver-api/ntb.rst`).
#[derive(Clone, Copy, Debug, PartialEq, Eq)]
pub struct Window {
    /// The address of the part's first byte.
    pub base: u64,
    /// The bytes of the part.
    pub size: u64,
}

impl Window {
    /// Returns the address of the window's byte `offset`, counted from 0, if the `len` bytes from there on lie in the
    /// window. The answer is `None` if and only if `offset + len` is above the window's size. No bytes lie in the
    /// window also at its end. The window has to end below 2^64.
    pub fn translate(&self, offset: u64, len: u64) -> Option<u64>
        requires { self.now.base + self.now.size < 2 ^ 64 }
        ensures { SomeIff result (offset + len ≤ self.now.size) (self.now.base + offset) }
    {
        if offset <= self.size && len <= self.size - offset {
            Some(self.base + offset)
        } else {
            None
        }
    }
}
