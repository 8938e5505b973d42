//! Rows of the two ends of a resumable stream.

ghost use Rattle.std.specs.Prelude.{◌≡◌, length, IfOk};

use resume_stream::{StreamEvent, StreamReceiver, StreamSender, TakeAnswer, run_world};
use std::alloc::{AllocError, Global};
use step_kinds::{Frame, FrameList};

// Returns the items `a` and `b`.
fn both(alloc: Global) -> Result<FrameList, AllocError>
    ensures { IfOk result (λ items. length items.frames ≡ 2) }
{
    let first = Frame::of_vec(Vec::from_slice(alloc, b"a")?);
    let second = Frame::of_vec(Vec::from_slice(alloc, b"b")?);
    let mut items = FrameList::new(alloc);
    items.promise(2)?;
    items.push(first);
    items.push(second);
    Ok(items)
}

// The first session is lost with its acknowledgement, once the first item is kept.
const LOST: [StreamEvent; 12] = [
    StreamEvent::Next,
    StreamEvent::Next,
    StreamEvent::Carry,
    StreamEvent::Carry,
    StreamEvent::Lose,
    StreamEvent::Next,
    StreamEvent::Next,
    StreamEvent::Next,
    StreamEvent::Next,
    StreamEvent::Carry,
    StreamEvent::Carry,
    StreamEvent::Carry,
];

/// Returns whether both items come once, in order, although a session is lost. It may be out of memory.
pub fn all_items_come(alloc: Global) -> Result<bool, AllocError> {
    let (_sender, receiver) = run_world(alloc, both(alloc)?, &LOST)?;
    let items = receiver.into_items();
    Ok(
        items.len() == 2
            && items.frame_at(0).bytes() == b"a".as_slice()
            && items.frame_at(1).bytes() == b"b".as_slice(),
    )
}

/// Returns whether the second session of two ends begins again where the first one did, which was lost before anything
/// was acknowledged. The item that the receiver has is old there, and after the last item the sender gives none. It may
/// be out of memory.
pub fn second_session_begins_again(alloc: Global) -> Result<bool, AllocError> {
    let mut sender = StreamSender::new(alloc, both(alloc)?);
    let mut receiver = StreamReceiver::new(alloc);
    begins_again(&mut sender, &mut receiver)
}

// Returns whether both ends do so.
fn begins_again(
    sender: &mut StreamSender,
    receiver: &mut StreamReceiver,
) -> Result<bool, AllocError> {
    let first_start = is_taken(sender, receiver, TakeAnswer::Start)?;
    let kept = is_taken(sender, receiver, TakeAnswer::Kept { number: 0 })?;
    sender.new_session();
    receiver.new_session();
    let second_start = is_taken(sender, receiver, TakeAnswer::Start)?;
    let old = is_taken(sender, receiver, TakeAnswer::Old { number: 0 })?;
    let next_kept = is_taken(sender, receiver, TakeAnswer::Kept { number: 1 })?;
    let ends = sender.next_frame()?.is_none();
    Ok(first_start && kept && second_start && old && next_kept && ends)
}

// Returns whether the sender's next frame is taken with this answer. The receiver keeps one item at most before it.
fn is_taken(
    sender: &mut StreamSender,
    receiver: &mut StreamReceiver,
    answer: TakeAnswer,
) -> Result<bool, AllocError> {
    if receiver.items().len() > 1 {
        return Ok(false);
    }
    match sender.next_frame()? {
        Some(frame) => Ok(receiver.take(frame)? == answer),
        None => Ok(false),
    }
}
