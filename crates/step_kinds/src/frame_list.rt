//! Lists of frames with promised room.

ghost use Rattle.std.specs.Prelude.{◌≡◌, ◌<◌, ◌↔◌, [], length, slice_get, slice_index_or, IsTrue, OnOk, OnErr};
ghost use Rattle.step_kinds.specs.FrameLists.{no_frames, frames_promised, with_last, with_first, frames_without_first};

use crate::frame::Frame;
use std::alloc::{AllocError, Global};
use std::collections::VecDeque;
use std::marker::Model;

/// A list of frames, and the room that is promised for more. Contracts see both: `frames`, a list of lists of bytes,
/// and `spare`, how many more frames can be put into the list without asking for memory.
///
/// Only [`FrameList::promise`] takes memory. What a list says is its frames: two lists are compared by these alone,
/// and `spare` is left out.
#[derive(Debug, Drop)]
pub struct FrameList {
    frames: VecDeque<Frame>,
    spare: usize,
}

impl FrameList {
    /// No frames, and no room promised. It takes no memory yet; the allocator is kept for [`FrameList::promise`].
    pub fn new(alloc: Global) -> FrameList
        ensures { result ≡ no_frames }
    {
        FrameList {
            frames: VecDeque::new(alloc),
            spare: 0,
        }
    }

    /// Promises room for `more` frames, on top of those that are promised already. The frames stay.
    ///
    /// # Errors
    ///
    /// [`AllocError`] if memory runs out, and then the list and its promises are as they were.
    pub fn promise(&mut self, more: usize) -> Result<(), AllocError>
        ensures ok { OnOk result (self.new ≡ frames_promised self.old more) }
        ensures err { OnErr result (self.new ≡ self.old) }
    {
        let spare = self.spare.checked_add(more).ok_or(AllocError)?;
        self.frames.reserve(spare)?;
        self.spare = spare;
        Ok(())
    }

    /// Puts a frame after all others, into room that was promised for at least one more. It takes no memory.
    pub fn push(&mut self, frame: Frame)
        requires { 0 < self.old.spare }
        ensures { self.new ≡ with_last self.old frame }
    {
        self.frames.push_back_reserved(frame);
        self.spare -= 1;
    }

    /// Takes the first frame out, and `None` if and only if the list is empty. The room of the frame that was taken is
    /// promised again: it serves a later [`FrameList::push`] or [`FrameList::put_back`].
    pub fn take_first(&mut self) -> Option<Frame>
        ensures frame { result ≡ slice_get self.old.frames 0 }
        ensures rest { self.new ≡ frames_without_first self.old }
    {
        let first = self.frames.pop_front()?;
        self.spare += 1;
        Some(first)
    }

    /// Puts a frame before all others, into room that was promised for at least one more. It takes no memory.
    pub fn put_back(&mut self, frame: Frame)
        requires { 0 < self.old.spare }
        ensures { self.new ≡ with_first self.old frame }
    {
        self.frames.push_front_reserved(frame);
        self.spare -= 1;
    }

    /// Returns how many frames the list has.
    pub fn len(&self) -> usize
        ensures { result ≡ length self.now.frames }
    {
        self.frames.len()
    }

    /// Returns whether the list has no frame.
    pub fn is_empty(&self) -> bool
        ensures { IsTrue result ↔ (self.now.frames ≡ []) }
    {
        self.frames.is_empty()
    }

    /// Returns the frame at this place, counted from 0, which has to be below the list's length.
    pub fn frame_at(&self, place: usize) -> &Frame
        requires { place < length self.now.frames }
        ensures { result.now ≡ slice_index_or self.now.frames place [] }
    {
        &self.frames[place]
    }
}

impl Model for FrameList {
    ghost use Rattle.std.specs.Prelude.{◌+◌, ◌≤◌};
    ghost use Rattle.std.specs.VecDeque.{deque_len, deque_capacity};
    ghost use Rattle.step_kinds.specs.FrameLists.{Frames};

    ghost Value = { Frames };

    ghost view = { λ list. record { frames = list.frames.items; spare = list.spare } };

    ghost invariant = { λ list. deque_len list.frames + list.spare ≤ deque_capacity list.frames };
}
