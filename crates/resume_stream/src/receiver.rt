//! The receiving end.

ghost use Rattle.std.specs.Prelude.{◌≡◌, ◌<◌, length, IfOk, OnErr, OnOk};
ghost use Rattle.stream_model.specs.Receiver.{ack_frame, new_receiver, receiver_renewed, session_from, start_answer, take_answer, taken};
ghost use Rattle.stream_model.specs.Numbers.{number_in};
ghost use Rattle.stream_model.specs.Sender.{most_items};

use crate::numbers::{number_frame, number_in};
use std::alloc::{AllocError, Global};
use std::marker::Model;
use step_kinds::{Frame, FrameList};
use stream_model::{Session, TakeAnswer};

/// The receiving end of a stream of items. Contracts see a `Receiver` of [`stream_model`]: the items that are kept, and
/// where the receiver stands in its session.
#[derive(Drop)]
pub struct StreamReceiver {
    alloc: Global,
    items: FrameList,
    session: Session,
}

impl StreamReceiver {
    /// Returns a receiver that keeps nothing, at the start of its first session. It takes no memory; the allocator is
    /// kept for the calls that do.
    pub fn new(alloc: Global) -> StreamReceiver
        ensures { result ≡ new_receiver }
    {
        StreamReceiver {
            alloc,
            items: FrameList::new(alloc),
            session: Session::Fresh,
        }
    }

    /// Takes the next frame of the session. Fewer than 2^32 - 1 items are kept.
    ///
    /// - A session's first frame is [`TakeAnswer::Start`], and its number is that of the next item. It is
    ///   [`TakeAnswer::Bad`] if and only if it hasn't four bytes, or its number is above the number of items that are
    ///   kept. After such a `Bad` all frames of the session are `Bad`, and are dropped.
    /// - A later frame is the next item. It is [`TakeAnswer::Kept`], and kept after all others, if and only if its
    ///   number is the number of items that are kept; else it is [`TakeAnswer::Old`], and is dropped.
    ///
    /// # Errors
    ///
    /// [`AllocError`] if memory runs out. Then the frame is dropped, and the receiver is as it was.
    pub fn take(&mut self, frame: Frame) -> Result<TakeAnswer, AllocError>
        requires { length self.old.items < most_items }
        ensures answer { IfOk result (λ answer. answer ≡ take_answer self.old frame) }
        ensures after { OnOk result (self.new ≡ taken self.old frame) }
        ensures err { OnErr result (self.new ≡ self.old) }
    {
        let count = self.items.len() as u32;
        match self.session {
            Session::Spoiled => Ok(TakeAnswer::Bad),
            Session::Fresh => {
                let (answer, session) = first_frame(&frame, count);
                self.session = session;
                Ok(answer)
            }
            Session::At { number } if number == count => {
                self.items.promise(1)?;
                self.items.push(frame);
                self.session = Session::At { number: number + 1 };
                Ok(TakeAnswer::Kept { number })
            }
            Session::At { number } => {
                self.session = Session::At { number: number + 1 };
                Ok(TakeAnswer::Old { number })
            }
        }
    }

    /// Returns the acknowledgement: a frame of four bytes that says how many items are kept. Returns an error if memory
    /// runs out.
    pub fn ack_frame(&self) -> Result<Frame, AllocError>
        ensures { IfOk result (λ frame. frame ≡ ack_frame self.now) }
    {
        number_frame(self.alloc, self.items.len() as u32)
    }

    /// Returns the items that are kept, in order.
    pub fn items(&self) -> &FrameList
        ensures { result.now.frames ≡ self.now.items }
    {
        &self.items
    }

    /// Returns the items that were kept, in order. It takes no memory.
    pub fn into_items(self) -> FrameList
        ensures { result.frames ≡ self.items }
    {
        self.items
    }

    /// Begins a new session. The items stay. It takes no memory.
    pub fn new_session(&mut self)
        ensures { self.new ≡ receiver_renewed self.old }
    {
        self.session = Session::Fresh;
    }
}

impl Model for StreamReceiver {
    ghost use Rattle.stream_model.specs.Receiver.{Receiver};
    ghost use Rattle.resume_stream.specs.Fields.{IsStreamReceiver};

    ghost Value = { Receiver };

    ghost view = { λ receiver. record { items = receiver.items.frames; session = receiver.session } };

    ghost invariant = { λ receiver. IsStreamReceiver receiver.items.frames receiver.session };
}

// Returns what a session's first frame is to a receiver that keeps this many items, and where the receiver stands after
// it.
fn first_frame(frame: &Frame, count: u32) -> (TakeAnswer, Session)
    ensures answer { result.0 ≡ start_answer count (number_in frame.now) }
    ensures session { result.1 ≡ session_from count (number_in frame.now) }
{
    match number_in(frame) {
        Some(number) if number <= count => (TakeAnswer::Start, Session::At { number }),
        Some(_) | None => (TakeAnswer::Bad, Session::Spoiled),
    }
}
