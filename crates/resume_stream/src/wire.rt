//! One direction between two ends.

ghost use Rattle.std.specs.Prelude.{◌≡◌, ◌<◌, ◌↔◌, length, slice_index_or, IfOk, IsTrue, OnErr, OnOk, option_copied, Some};
ghost use Rattle.stream_model.specs.World.{empty_wire, first_waiting, last_frame, one_carried, with_frame, without_last};

use std::alloc::{AllocError, Global};
use std::marker::Model;
use step_kinds::Frame;

/// One direction between two ends in this session: the frames that were given to it, and how many of them, from the
/// first on, were carried. Contracts see a `Wire` of [`stream_model`].
#[derive(Drop)]
pub struct Wire {
    frames: Vec<Frame>,
    carried: usize,
}

impl Wire {
    /// No frame. It takes no memory.
    pub fn new(alloc: Global) -> Wire
        ensures { result ≡ empty_wire }
    {
        Wire {
            frames: Vec::new(alloc),
            carried: 0,
        }
    }

    /// A frame is given to the direction, after all others. Returns an error if memory runs out.
    pub fn push(&mut self, frame: Frame) -> Result<(), AllocError>
        ensures { OnOk result (self.new ≡ with_frame self.old frame) }
    {
        self.frames.push(frame)?;
        Ok(())
    }

    /// Returns the first frame that isn't carried.
    pub fn first_waiting(&self) -> Option<&Frame>
        ensures { option_copied result ≡ first_waiting self.now }
    {
        self.frames.get(self.carried)
    }

    /// Returns whether a frame isn't carried.
    pub fn is_waiting(&self) -> bool
        ensures { IsTrue result ↔ (self.now.carried < length self.now.given) }
    {
        self.carried < self.frames.len()
    }

    /// The first frame that isn't carried, of which there is one, is carried.
    pub fn carry(&mut self)
        requires { self.old.carried < length self.old.given }
        ensures { self.new ≡ one_carried self.old }
    {
        self.carried += 1;
    }

    /// Takes the last frame out, which isn't carried.
    pub fn take_last(&mut self) -> Frame
        requires { self.old.carried < length self.old.given }
        ensures frame { last_frame self.old ≡ Some result }
        ensures rest { self.new ≡ without_last self.old }
    {
        self.frames.pop().unwrap()
    }

    /// Takes all frames out.
    pub fn clear(&mut self)
        ensures { self.new ≡ empty_wire }
    {
        self.frames.clear();
        self.carried = 0;
    }
}

impl Model for Wire {
    ghost use Rattle.std.specs.Prelude.{◌≤◌, length};
    ghost use Rattle.stream_model.specs.World.{Wire};

    ghost Value = { Wire };

    ghost view = { λ wire. record { given = wire.frames.items; carried = wire.carried } };

    ghost invariant = { λ wire. wire.carried ≤ length wire.frames.items };
}
