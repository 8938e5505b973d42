//! Frames: what a lane carries.

ghost use Rattle.std.specs.Prelude.{◌≡◌, ◌≤◌, ◌↔◌, [], length, vec_len, IfOk, IsTrue};
ghost use Rattle.step_kinds.specs.Limits.{most_frame_bytes};

use std::alloc::{AllocError, Global};
use std::marker::Model;

/// A list of at most 65,536 bytes. What a user sends has at least one. Contracts see the list.
#[derive(Debug, Drop)]
pub struct Frame {
    bytes: Vec<u8>,
}

impl Frame {
    /// Returns the frame of these bytes, of which there are at most 65,536. It takes no memory.
    pub fn of_vec(bytes: Vec<u8>) -> Frame
        requires { vec_len bytes ≤ most_frame_bytes }
        ensures { result ≡ bytes.items }
    {
        Frame { bytes }
    }

    /// Returns the number of its bytes.
    pub fn len(&self) -> u32
        ensures value { result ≡ length self.now }
        ensures fits { result ≤ most_frame_bytes }
    {
        self.bytes.len() as u32
    }

    /// Returns whether it has no byte, which only a raw pair can deliver.
    pub fn is_empty(&self) -> bool
        ensures { IsTrue result ↔ (self.now ≡ []) }
    {
        self.bytes.is_empty()
    }

    /// Its bytes.
    pub fn bytes(&self) -> &[u8]
        ensures value { result.now ≡ self.now }
        ensures fits { length result.now ≤ most_frame_bytes }
    {
        &self.bytes
    }

    /// Returns a frame with the same bytes. Returns an error if memory runs out.
    pub fn copy_of(&self, alloc: Global) -> Result<Frame, AllocError>
        ensures { IfOk result (λ copy. copy ≡ self.now) }
    {
        Ok(Frame {
            bytes: Vec::from_slice(alloc, &self.bytes)?,
        })
    }
}

impl Model for Frame {
    ghost use Rattle.std.specs.Prelude.{ℕ, List, ◌≤◌, length};
    ghost use Rattle.step_kinds.specs.Limits.{most_frame_bytes};

    ghost Value = { List ℕ };

    ghost view = { λ frame. frame.bytes.items };

    ghost invariant = { λ frame. length frame.bytes.items ≤ most_frame_bytes };
}
