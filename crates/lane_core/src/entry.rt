//! Entries of a lane.

ghost use Rattle.std.specs.Prelude.{◌≡◌, ◌≤◌, length};
ghost use Rattle.step_kinds.specs.Limits.{most_frame_bytes};
ghost use Rattle.lane_model.specs.Lane.{bytes_of, chunks_in, flags_of};

use crate::slot::CHUNK;
use lane_model::{DONE, LINK_DOWN};
use step_kinds::Frame;

/// What the sender began: a frame, or the word that its end of the queue goes down.
#[derive(Drop)]
pub enum Entry {
    Carries(Frame),
    GoesDown,
}

impl Entry {
    ghost use Rattle.lane_core.specs.Parts.{entry_seen};

    /// Returns the bytes that it carries.
    pub fn bytes(&self) -> &[u8]
        ensures value { result.now ≡ bytes_of (entry_seen self.now) }
        ensures fits { length result.now ≤ most_frame_bytes }
    {
        match self {
            Entry::Carries(frame) => frame.bytes(),
            Entry::GoesDown => &[],
        }
    }

    /// Returns the flags of its header.
    pub fn flags(&self) -> u32
        ensures { result ≡ flags_of (entry_seen self.now) }
    {
        match self {
            Entry::Carries(_) => DONE,
            Entry::GoesDown => DONE | LINK_DOWN,
        }
    }

    /// Returns how many chunks its bytes are, 512 at most.
    pub fn chunks(&self) -> u32
        ensures value { result ≡ chunks_in (length (bytes_of (entry_seen self.now))) }
        ensures few { result ≤ 512 }
    {
        self.bytes().len().div_ceil(CHUNK) as u32
    }
}
