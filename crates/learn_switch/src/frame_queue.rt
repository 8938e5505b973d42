//! Frames in the order in which they came.

ghost use Rattle.std.specs.Prelude.{◌≡◌, ◌↔◌, ◌++◌, ◌∷◌, [], drop, map, replicate, slice_get, IfOk, IsTrue, OnErr, OnOk, option_copied};
ghost use Rattle.pair_model.specs.Switch.{flooded};

use std::alloc::{AllocError, Global};
use std::collections::VecDeque;
use std::marker::Model;
use step_kinds::Frame;

/// Frames, the one that came first in front. Contracts see the list.
#[derive(Drop)]
pub struct FrameQueue {
    frames: VecDeque<Frame>,
}

impl FrameQueue {
    /// No frame. It takes no memory.
    pub fn new(alloc: Global) -> FrameQueue
        ensures { result ≡ [] }
    {
        FrameQueue {
            frames: VecDeque::new(alloc),
        }
    }

    /// The frame joins, as the last one.
    ///
    /// # Errors
    ///
    /// [`AllocError`] if memory runs out, and then nothing joined.
    pub fn push(&mut self, frame: Frame) -> Result<(), AllocError>
        ensures ok { OnOk result (self.new ≡ self.old ++ frame ∷ []) }
        ensures err { OnErr result (self.new ≡ self.old) }
    {
        self.frames.push_back(frame)?;
        Ok(())
    }

    /// A copy of the frame joins, as the last one.
    ///
    /// # Errors
    ///
    /// [`AllocError`] if memory runs out, and then nothing joined.
    pub fn push_copy(&mut self, alloc: Global, frame: &Frame) -> Result<(), AllocError>
        ensures ok { OnOk result (self.new ≡ self.old ++ frame.now ∷ []) }
        ensures err { OnErr result (self.new ≡ self.old) }
    {
        let copy = frame.copy_of(alloc)?;
        self.push(copy)
    }

    /// Returns the first frame, if there is one.
    pub fn first(&self) -> Option<&Frame>
        ensures { option_copied result ≡ slice_get self.now 0 }
    {
        self.frames.front()
    }

    /// Returns whether two queues have the same frames, in one order.
    pub fn is_same(&self, other: &FrameQueue) -> bool
        ensures { IsTrue result ↔ (self.now ≡ other.now) }
    {
        are_same_frames(&self.frames, &other.frames)
    }

    /// Returns a queue of the same frames, in one order.
    ///
    /// # Errors
    ///
    /// [`AllocError`] if memory runs out.
    pub fn copy_of(&self, alloc: Global) -> Result<FrameQueue, AllocError>
        ensures { IfOk result (λ copy. copy ≡ self.now) }
    {
        let mut frames = VecDeque::with_capacity(alloc, self.frames.len())?;
        for place in 0..self.frames.len() {
            frames.push_back_reserved(self.frames[place].copy_of(alloc)?);
        }
        Ok(FrameQueue { frames })
    }

    /// Drops the first frame, if there is one. It takes no memory.
    pub fn drop_first(&mut self)
        ensures { self.new ≡ drop 1 self.old }
    {
        let _first = self.frames.pop_front();
    }
}

impl Model for FrameQueue {
    ghost use Rattle.std.specs.Prelude.{ℕ, List};

    ghost Value = { List (List ℕ) };

    ghost view = { λ queue. queue.frames.items };
}

// Returns whether two lists have the same frames, in one order.
fn are_same_frames(frames: &VecDeque<Frame>, others: &VecDeque<Frame>) -> bool
    ensures { IsTrue result ↔ (frames.now.items ≡ others.now.items) }
{
    if frames.len() != others.len() {
        return false;
    }
    for place in 0..frames.len() {
        if frames[place].bytes() != others[place].bytes() {
            return false;
        }
    }
    true
}

/// Returns the same queues, in one order.
///
/// # Errors
///
/// [`AllocError`] if memory runs out.
pub fn copies(alloc: Global, queues: &[FrameQueue]) -> Result<Vec<FrameQueue>, AllocError>
    ensures { IfOk result (λ copies. copies.items ≡ queues.now) }
{
    let mut copies = Vec::with_capacity(alloc, queues.len())?;
    for queue in queues {
        copies.push_reserved(queue.copy_of(alloc)?);
    }
    Ok(copies)
}

/// A copy of the frame joins each of these queues, as the last one.
///
/// # Errors
///
/// [`AllocError`] if memory runs out, and then it joined none.
pub fn push_to_all(
    queues: &mut [FrameQueue],
    alloc: Global,
    frame: &Frame,
) -> Result<(), AllocError>
    ensures ok { OnOk result (queues.new ≡ map (λ queue. queue ++ frame.now ∷ []) queues.old) }
    ensures err { OnErr result (queues.new ≡ queues.old) }
{
    let Some((queue, others)) = queues.split_first_mut() else {
        return Ok(());
    };
    let copy = frame.copy_of(alloc)?;
    queue.frames.reserve(1)?;
    push_to_all(others, alloc, frame)?;
    queue.frames.push_back_reserved(copy);
    Ok(())
}

/// A copy of the frame joins each of these queues but the one at `place`, as the last one.
///
/// # Errors
///
/// [`AllocError`] if memory runs out, and then it joined none.
pub fn push_to_others(
    queues: &mut [FrameQueue],
    alloc: Global,
    place: usize,
    frame: &Frame,
) -> Result<(), AllocError>
    ensures ok { OnOk result (queues.new ≡ flooded queues.old place frame.now) }
    ensures err { OnErr result (queues.new ≡ queues.old) }
{
    let Some((queue, others)) = queues.split_first_mut() else {
        return Ok(());
    };
    if place == 0 {
        return push_to_all(others, alloc, frame);
    }
    let copy = frame.copy_of(alloc)?;
    queue.frames.reserve(1)?;
    push_to_others(others, alloc, place - 1, frame)?;
    queue.frames.push_back_reserved(copy);
    Ok(())
}

/// This many queues without a frame.
///
/// # Errors
///
/// [`AllocError`] if memory runs out.
pub fn empty_queues(alloc: Global, count: u32) -> Result<Vec<FrameQueue>, AllocError>
    ensures { IfOk result (λ queues. queues.items ≡ replicate count []) }
{
    let mut queues = Vec::new(alloc);
    for _place in 0..count {
        queues.push(FrameQueue::new(alloc))?;
    }
    Ok(queues)
}
