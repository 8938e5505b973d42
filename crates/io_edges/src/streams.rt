//! What the program asks of the outside.
ghost use Rattle.std.specs.Prelude.{◌+◌, ◌<◌, ◌≤◌, ℕ, List, Option, length, IfOk};
ghost use Rattle.io_edges.specs.Causes.{HasCause};
ghost use Rattle.io_edges.specs.Streams.{Reads, Writes};

use thiserror::Error;

/// The outside failed in this call: a read gave nothing, or a write took nothing.
#[derive(Clone, Copy, Debug, PartialEq, Eq, Error)]
#[error("the stream failed")]
pub struct Failed;

/// A source of bytes. It tells the bytes that are left, if it can, and a count of faults that never falls.
pub trait Source {
    /// The bytes that reads will give from here on, if they are told.
    ghost left: { Self → Option (List ℕ) };

    /// How often the source has failed, up to the last value of a `u64`.
    ghost faults: { Self → ℕ };

    /// How often it was read from, if it counts that; else always 0.
    ghost reads: { Self → ℕ } = { λ _. 0 };

    /// Reads some bytes into the front of the buffer and returns their number, at most the buffer's length. With room
    /// in the buffer it returns 0 only at the end.
    ///
    /// # Errors
    ///
    /// `Failed` where the source failed, which raises its count of faults; else that stays. Nothing of what is left is
    /// lost then.
    fn read(&mut self, out: &mut [u8]) -> Result<usize, Failed>
        ensures bound { IfOk result (λ count. count ≤ length out.new) }
        ensures bytes { Reads (left self.old) (left self.new) result out.new }
        ensures cause { HasCause (faults self.old) (faults self.new) result }
        ensures reads { reads self.new ≤ reads self.old + 1 };
}

/// A sink of bytes. It tells the bytes that it holds, if it can, and a count of faults that never falls.
pub trait Sink {
    /// The bytes that writes have put into it, if they are told.
    ghost held: { Self → Option (List ℕ) };

    /// How often the sink has failed, up to the last value of a `u64`.
    ghost faults: { Self → ℕ };

    /// How often it was written to, if it counts that; else always 0.
    ghost writes: { Self → ℕ } = { λ _. 0 };

    /// Takes some bytes from the front of the piece and returns their number: at least one of a piece that isn't empty.
    ///
    /// # Errors
    ///
    /// `Failed` where the sink failed, which raises its count of faults; else that stays. It took nothing of the piece
    /// then.
    fn write(&mut self, bytes: &[u8]) -> Result<usize, Failed>
        ensures bound { IfOk result (λ count. count ≤ length bytes.now) }
        ensures some { IfOk result (λ count. 0 < length bytes.now → 0 < count) }
        ensures bytes { Writes (held self.old) (held self.new) result bytes.now }
        ensures cause { HasCause (faults self.old) (faults self.new) result }
        ensures writes { writes self.new ≤ writes self.old + 1 };
}
