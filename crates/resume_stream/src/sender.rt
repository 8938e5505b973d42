//! The sending end.

ghost use Rattle.std.specs.Prelude.{◌≡◌, ◌<◌, length, IfOk, IfSome, OnErr, OnOk, Some, is_some};
ghost use Rattle.step_kinds.specs.FrameLists.{Frames};
ghost use Rattle.stream_model.specs.Sender.{ack_answer, ack_taken, after_next_frame, sender_given_back, last_given, most_items, new_sender, next_frame, sender_renewed};

use crate::numbers::{number_frame, number_in};
use std::alloc::{AllocError, Global};
use std::marker::Model;
use step_kinds::{Frame, FrameList};
use stream_model::{AckAnswer, Place};

/// The sending end of a stream of items. Contracts see a `Sender` of [`stream_model`]: the items, the number that was
/// acknowledged, the number at which the session starts, and how far the sender is. If its last change was that it gave
/// a frame, they also see how far it was before.
#[derive(Drop)]
pub struct StreamSender {
    alloc: Global,
    items: FrameList,
    acked: u32,
    start: u32,
    place: Place,
    before: Option<Place>,
}

impl StreamSender {
    /// Returns a sender of these items, at the start of its first session: nothing was given or acknowledged. There are
    /// fewer than 2^32 - 1 items. It takes no memory; the allocator is kept for [`StreamSender::next_frame`].
    pub fn new(alloc: Global, items: FrameList) -> StreamSender
        requires { length items.frames < most_items }
        ensures { result ≡ new_sender items.frames }
    {
        StreamSender {
            alloc,
            items,
            acked: 0,
            start: 0,
            place: Place { given: 0, ever: 0 },
            before: None,
        }
    }

    /// Gives the next frame of the session: first the frame of the number at which the session starts, then a copy of
    /// each item from that number on. `None` if and only if all of them were given, and then nothing changes. A frame
    /// that is answered can be given back until the sender changes again.
    ///
    /// # Errors
    ///
    /// [`AllocError`] if memory runs out, and then nothing changes.
    pub fn next_frame(&mut self) -> Result<Option<Frame>, AllocError>
        ensures frame { IfOk result (λ frame. frame ≡ next_frame self.old) }
        ensures after { OnOk result (self.new ≡ after_next_frame self.old) }
        ensures last { IfOk result (λ frame. IfSome frame (λ bytes. last_given self.new ≡ Some bytes)) }
        ensures err { OnErr result (self.new ≡ self.old) }
    {
        let Some(frame) = self.frame_here()? else {
            return Ok(None);
        };
        self.before = Some(self.place);
        self.place = Place {
            given: self.place.given + 1,
            ever: self.place.ever.max(self.start + self.place.given),
        };
        Ok(Some(frame))
    }

    /// Returns whether a frame can be given back: the sender's last change was that [`StreamSender::next_frame`]
    /// answered one.
    pub fn can_give_back(&self) -> bool
        ensures { result ≡ is_some self.now.before }
    {
        self.before.is_some()
    }

    /// Takes a frame back that couldn't be sent: it counts as not given, and is given again next. It has to be the
    /// frame that [`StreamSender::next_frame`] answered in the sender's last change. It takes no memory.
    pub fn give_back(&mut self, frame: Frame)
        requires { last_given self.old ≡ Some frame }
        ensures { self.new ≡ sender_given_back self.old }
    {
        if let Some(place) = self.before {
            self.place = place;
            self.before = None;
        }
    }

    /// Takes an acknowledgement. It takes no memory.
    ///
    /// 1. [`AckAnswer::Bad`] if and only if the frame hasn't four bytes, or its number is above the number of items
    ///    that were ever given. Nothing changes.
    /// 2. [`AckAnswer::Newer`] where its number is above the one that was acknowledged, which it becomes.
    /// 3. Else [`AckAnswer::Old`], and nothing changes.
    pub fn take_ack(&mut self, frame: &Frame) -> AckAnswer
        ensures answer { result ≡ ack_answer self.old frame.now }
        ensures after { self.new ≡ ack_taken self.old frame.now }
    {
        let Some(number) = number_in(frame) else {
            return AckAnswer::Bad;
        };
        if number > self.place.ever {
            return AckAnswer::Bad;
        }
        if number <= self.acked {
            return AckAnswer::Old;
        }
        self.acked = number;
        self.before = None;
        AckAnswer::Newer
    }

    /// Begins a new session, which starts at the number that is acknowledged now. It takes no memory.
    pub fn new_session(&mut self)
        ensures { self.new ≡ sender_renewed self.old }
    {
        self.start = self.acked;
        self.place.given = 0;
        self.before = None;
    }

    // Returns a copy of the frame that comes next.
    fn frame_here(&self) -> Result<Option<Frame>, AllocError>
        ensures { IfOk result (λ frame. frame ≡ next_frame self.now) }
    {
        if self.place.given == 0 {
            return Ok(Some(number_frame(self.alloc, self.start)?));
        }
        let number = self.start as usize + (self.place.given as usize - 1);
        if number < self.items.len() {
            return Ok(Some(self.items.frame_at(number).copy_of(self.alloc)?));
        }
        Ok(None)
    }
}

impl Model for StreamSender {
    ghost use Rattle.stream_model.specs.Sender.{Sender};
    ghost use Rattle.resume_stream.specs.Fields.{IsStreamSender};

    ghost Value = { Sender };

    ghost view = { λ sender. record { items = sender.items.frames; acked = sender.acked; start = sender.start; place = sender.place; before = sender.before } };

    ghost invariant = { λ sender. IsStreamSender sender.items.frames sender.acked sender.start sender.place sender.before };
}
