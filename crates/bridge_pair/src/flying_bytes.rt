//! The bytes of posted writes in flight.

ghost use Rattle.std.specs.Prelude.{◌≡◌, ◌≤◌, length, take, IfOk};
ghost use Rattle.step_kinds.specs.Limits.{most_write_bytes};
ghost use Rattle.bridge_pair.specs.FlyingBytes.{most_few_bytes};

use std::alloc::{AllocError, Global};
use std::marker::Model;
use step_kinds::limits::MOST_WRITE_BYTES;

/// The most bytes of a write that need no buffer.
pub const FEW: usize = 8;

/// Room for the bytes of one write.
pub type Buffer = Box<[u8; MOST_WRITE_BYTES]>;

// Where the bytes stand.
#[derive(Drop)]
enum Kept {
    // In place.
    Few { bytes: [u8; FEW] },
    // In a buffer of their own.
    Many { buffer: Buffer },
}

/// The bytes of a write in flight, at most 128. Most writes are of a word, which stands in place, so that a write in
/// flight is small; more bytes stand in a buffer. Contracts see their list.
#[derive(Drop)]
pub struct FlyingBytes {
    kept: Kept,
    len: u32,
}

impl FlyingBytes {
    /// These few bytes.
    #[inline]
    pub fn few(bytes: &[u8]) -> FlyingBytes
        requires { length bytes.now ≤ most_few_bytes }
        ensures { result ≡ bytes.now }
    {
        let mut few = [0u8; FEW];
        few[..bytes.len()].copy_from_slice(bytes);
        FlyingBytes {
            kept: Kept::Few { bytes: few },
            len: bytes.len() as u32,
        }
    }

    /// These bytes, in this buffer.
    #[inline]
    pub fn many(mut buffer: Buffer, bytes: &[u8]) -> FlyingBytes
        requires { length bytes.now ≤ most_write_bytes }
        ensures { result ≡ bytes.now }
    {
        fill(&mut buffer, bytes);
        FlyingBytes {
            kept: Kept::Many { buffer },
            len: bytes.len() as u32,
        }
    }

    /// Returns the same bytes, in a buffer of their own where they stand in one. Returns an error if memory runs out.
    pub fn copy_of(&self, alloc: Global) -> Result<FlyingBytes, AllocError>
        ensures { IfOk result (λ copy. copy ≡ self.now) }
    {
        let kept = match &self.kept {
            Kept::Few { bytes } => Kept::Few { bytes: *bytes },
            Kept::Many { buffer } => Kept::Many {
                buffer: Box::new(alloc, **buffer)?,
            },
        };
        Ok(FlyingBytes {
            kept,
            len: self.len,
        })
    }

    /// Returns the bytes.
    #[inline]
    pub fn as_slice(&self) -> &[u8]
        ensures value { result.now ≡ self.now }
        ensures few { length result.now ≤ most_write_bytes }
    {
        let len = self.len as usize;
        match &self.kept {
            Kept::Few { bytes } => &bytes[..len],
            Kept::Many { buffer } => &buffer[..len],
        }
    }

    /// Returns the buffer, if there is one.
    #[inline]
    pub fn into_buffer(self) -> Option<Buffer> {
        match self.kept {
            Kept::Few { .. } => None,
            Kept::Many { buffer } => Some(buffer),
        }
    }
}

impl Model for FlyingBytes {
    ghost use Rattle.std.specs.Prelude.{ℕ, List};
    ghost use Rattle.bridge_pair.specs.FlyingBytes.{AreKept, flying_bytes_seen};

    ghost Value = { List ℕ };

    ghost view = { flying_bytes_seen };

    ghost invariant = { AreKept };
}

// Puts bytes into the front of a buffer.
#[inline]
fn fill(room: &mut [u8; MOST_WRITE_BYTES], bytes: &[u8])
    requires { length bytes.now ≤ most_write_bytes }
    ensures { take (length bytes.now) room.new ≡ bytes.now }
{
    room[..bytes.len()].copy_from_slice(bytes);
}
