//! Two ends that are joined by lists of frames.

ghost use Rattle.std.specs.Prelude.{◌≡◌, ◌<◌, ◌≤◌, length, true, IfOk, OnOk};
ghost use Rattle.stream_model.specs.Fronts.{Begins};
ghost use Rattle.stream_model.specs.Sender.{after_next_frame, last_given, most_items, next_frame};
ghost use Rattle.stream_model.specs.World.{ack_taken_any, after_event, answers_to, can_give_back, carried_any, first_waiting, last_frame, taken_any, with_any, world_after};
ghost use Rattle.stream_laws.specs.Laws.{CarriedAll, NoneIsBad};

use crate::receiver::StreamReceiver;
use crate::sender::StreamSender;
use crate::wire::Wire;
use std::alloc::{AllocError, Global};
use std::marker::Model;
use step_kinds::FrameList;
use stream_model::StreamEvent;

/// Makes these events, in order, on a sender of these items and a receiver that are joined by lists of frames, and
/// answers both ends as they are then. An event that can't be made changes nothing. There are fewer than 2^32 - 1
/// items.
///
/// Whatever the events, what the receiver keeps is a prefix of all items, each once; no more is acknowledged than it
/// keeps; and no call answered `Bad` (`prefix`, `acked`, `not_bad`). Where since the last Lose and the last GiveBack
/// [`StreamSender::next_frame`] answered `None`, and every forward frame was carried, it keeps all items (`all`).
///
/// # Errors
///
/// [`AllocError`] if memory runs out.
pub fn run_world(
    alloc: Global,
    items: FrameList,
    events: &[StreamEvent],
) -> Result<(StreamSender, StreamReceiver), AllocError>
    requires { length items.frames < most_items }
    ensures sender { IfOk result (λ ends. ends.0 ≡ (world_after items.frames events.now).sender) }
    ensures receiver { IfOk result (λ ends. ends.1 ≡ (world_after items.frames events.now).receiver) }
    ensures prefix { IfOk result (λ ends. Begins ends.1.items items.frames) }
    ensures acked { IfOk result (λ ends. ends.0.acked ≤ length ends.1.items) }
    ensures not_bad { OnOk result (NoneIsBad (answers_to items.frames events.now)) }
    ensures all { IfOk result (λ ends. CarriedAll items.frames events.now → ends.1.items ≡ items.frames) }
{
    stream_laws::laws::every_world_is_ordered();
    stream_laws::laws::no_answer_is_bad();
    stream_laws::laws::all_is_brought();
    let mut ends = Ends {
        sender: StreamSender::new(alloc, items),
        receiver: StreamReceiver::new(alloc),
        forward: Wire::new(alloc),
        back: Wire::new(alloc),
    };
    for event in events {
        ends.make(alloc, *event)?;
    }
    Ok((ends.sender, ends.receiver))
}

// Two ends and what is between them. Contracts see a `World` of `stream_model`.
#[derive(Drop)]
struct Ends {
    sender: StreamSender,
    receiver: StreamReceiver,
    forward: Wire,
    back: Wire,
}

impl Ends {
    // Makes an event, which changes nothing where it can't be made. Returns an error if memory runs out.
    fn make(&mut self, alloc: Global, event: StreamEvent) -> Result<(), AllocError>
        requires room { length self.old.receiver.items < most_items }
        requires last { can_give_back self.old ≡ true → last_given self.old.sender ≡ last_frame self.old.forward }
        ensures { OnOk result (self.new ≡ after_event self.old event) }
    {
        match event {
            StreamEvent::Next => give(&mut self.sender, &mut self.forward),
            StreamEvent::GiveBack => {
                if self.sender.can_give_back() && self.forward.is_waiting() {
                    self.sender.give_back(self.forward.take_last());
                }
                Ok(())
            }
            StreamEvent::Carry => carry(&mut self.receiver, &mut self.forward, alloc),
            StreamEvent::Ack => self.back.push(self.receiver.ack_frame()?),
            StreamEvent::CarryAck => {
                carry_ack(&mut self.sender, &mut self.back);
                Ok(())
            }
            StreamEvent::Lose => {
                self.sender.new_session();
                self.receiver.new_session();
                self.forward.clear();
                self.back.clear();
                Ok(())
            }
        }
    }
}

impl Model for Ends {
    ghost use Rattle.stream_model.specs.World.{World};

    ghost Value = { World };

    ghost view = { λ ends. record { sender = ends.sender; receiver = ends.receiver; forward = ends.forward; back = ends.back } };
}

// The sender's next frame, if it has one, is given to the direction. Returns an error if memory runs out.
fn give(sender: &mut StreamSender, forward: &mut Wire) -> Result<(), AllocError>
    ensures sender { OnOk result (sender.new ≡ after_next_frame sender.old) }
    ensures forward { OnOk result (forward.new ≡ with_any forward.old (next_frame sender.old)) }
{
    if let Some(frame) = sender.next_frame()? {
        forward.push(frame)?;
    }
    Ok(())
}

// The first frame that waits is carried to the receiver. Returns an error if memory runs out.
fn carry(receiver: &mut StreamReceiver, forward: &mut Wire, alloc: Global) -> Result<(), AllocError>
    requires { length receiver.old.items < most_items }
    ensures receiver { OnOk result (receiver.new ≡ taken_any receiver.old (first_waiting forward.old)) }
    ensures forward { OnOk result (forward.new ≡ carried_any forward.old (first_waiting forward.old)) }
{
    let Some(frame) = forward.first_waiting() else {
        return Ok(());
    };
    let _answer = receiver.take(frame.copy_of(alloc)?)?;
    forward.carry();
    Ok(())
}

// The first acknowledgement that waits is carried to the sender.
fn carry_ack(sender: &mut StreamSender, back: &mut Wire)
    ensures sender { sender.new ≡ ack_taken_any sender.old (first_waiting back.old) }
    ensures back { back.new ≡ carried_any back.old (first_waiting back.old) }
{
    let Some(frame) = back.first_waiting() else {
        return;
    };
    let _answer = sender.take_ack(frame);
    back.carry();
}
