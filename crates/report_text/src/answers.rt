//! The texts of labels and answers: a word, and then its numbers and bytes.

ghost use Rattle.std.specs.Prelude.{◌≡◌, ◌+◌, ◌*◌, ◌≤◌, ◌∷◌, ◌++◌, [], IfOk, OnOk, length};
ghost use Rattle.report_text.specs.Texts.{answer_text, bytes_text, label_text, start_text, word_and_numbers};
ghost use Rattle.step_kinds.specs.declared.steps.Answer.{Answer};

use crate::append::{push_frame, push_hex};
use crate::line::{LineText, ROOM, SPACED};
use std::alloc::{AllocError, Global};
use step_kinds::{Answer, Label};

// The most bytes of a label's text: a word of five letters and three numbers.
const LABEL_ROOM: usize = 68;

/// The most bytes of an answer's text before its bytes: a word of five letters, a number, a space and a label.
pub const START_ROOM: usize = 95;

/// Returns the text of an answer, as it is in a report after the number of its line. Returns an error if memory runs
/// out.
pub fn text_of(alloc: Global, answer: &Answer) -> Result<Vec<u8>, AllocError>
    ensures { IfOk result (λ text. text.items ≡ answer_text answer.now) }
{
    let mut text = Vec::new(alloc);
    push_answer(&mut text, answer)?;
    Ok(text)
}

/// Adds the text of an answer: a word, and then its numbers, its label or its bytes. Returns an error if memory runs
/// out, and then some part of the text may have been added.
pub fn push_answer(text: &mut Vec<u8>, answer: &Answer) -> Result<(), AllocError>
    ensures { OnOk result (text.new.items ≡ text.old.items ++ answer_text answer.now) }
{
    let mut line = LineText::new();
    put_start(&mut line, answer);
    text.extend_from_slice(line.as_slice())?;
    push_bytes(text, answer)
}

/// Adds the bytes that an answer ends with, if it does. Returns an error if memory runs out, and then some part of them
/// may have been added.
pub fn push_bytes(text: &mut Vec<u8>, answer: &Answer) -> Result<(), AllocError>
    ensures { OnOk result (text.new.items ≡ text.old.items ++ bytes_text answer.now) }
{
    if let Answer::Delivered { frame, .. } = answer {
        return push_frame(text, frame.bytes());
    }
    if let Answer::Mem { bytes } = answer {
        return push_hex(text, bytes.bytes());
    }
    Ok(())
}

/// Adds the text of an answer to a line, but for the bytes that the answer ends with. There is room for the longest.
pub fn put_start(line: &mut LineText, answer: &Answer)
    requires { START_ROOM + length line.old ≤ ROOM }
    ensures text { line.new ≡ line.old ++ start_text answer.now }
    ensures len { length line.new ≤ length line.old + START_ROOM }
{
    match answer {
        Answer::OkSession { session } => line.put_one(b"ok", u64::from(*session)),
        Answer::OkNumber { number } => line.put_one(b"ok", *number),
        Answer::Offered { index } => line.put_one(b"offered", u64::from(*index)),
        Answer::Version { seen, own } => put_pair(line, b"version", *seen, *own),
        Answer::Queues { seen, own } => put_pair(line, b"queues", *seen, *own),
        Answer::Windows { seen, own } => put_pair(line, b"windows", *seen, *own),
        Answer::Size { seen, cap } => line.put_two(b"size", *seen, *cap),
        Answer::TooLong { len, max } => put_pair(line, b"toolong", *len, *max),
        Answer::Again { head, tail } => put_pair(line, b"again", *head, *tail),
        Answer::Posted { label } => {
            line.put_word(b"posted ");
            put_label(line, label);
        }
        Answer::Landed { label } => {
            line.put_word(b"landed ");
            put_label(line, label);
        }
        Answer::VerDiffers { seen, own } => put_pair(line, b"verdiffers", *seen, *own),
        Answer::Long { len, max } => put_pair(line, b"long", *len, *max),
        Answer::ReadyFrame { number, len } => {
            line.put_one(b"ready", *number);
            line.put_fresh(u64::from(*len));
        }
        Answer::Copied { number, part } => {
            line.put_one(b"copied", *number);
            line.put_fresh(u64::from(*part));
        }
        Answer::Delivered { number, .. } => {
            line.put_one(b"frame", *number);
            line.put_word(b" ");
        }
        Answer::Cleared { number } => line.put_one(b"cleared", *number),
        Answer::Acked { number } => line.put_one(b"acked", *number),
        Answer::Irq { bits } => line.put_one(b"irq", u64::from(*bits)),
        Answer::Mem { .. } => line.put_word(b"mem "),
        Answer::PadValue { value } => line.put_one(b"pad", u64::from(*value)),
        Answer::QueueShown { count, label } => put_queue(line, *count, label),
        Answer::Short { len } => line.put_one(b"short", u64::from(*len)),
        Answer::To { port } => line.put_one(b"to", u64::from(*port)),
        Answer::Flood { count } => line.put_one(b"flood", u64::from(*count)),
        Answer::Ok => line.put_word(b"ok"),
        Answer::NotDown => line.put_word(b"notdown"),
        Answer::Dirty => line.put_word(b"dirty"),
        Answer::NotEnabled => line.put_word(b"notenabled"),
        Answer::Spent => line.put_word(b"spent"),
        Answer::NotUp => line.put_word(b"notup"),
        Answer::NotClosing => line.put_word(b"notclosing"),
        Answer::LinkDown => line.put_word(b"linkdown"),
        Answer::Already => line.put_word(b"already"),
        Answer::NotYet => line.put_word(b"notyet"),
        Answer::Up => line.put_word(b"up"),
        Answer::NotChecked => line.put_word(b"notchecked"),
        Answer::NotReady => line.put_word(b"notready"),
        Answer::Joined => line.put_word(b"joined"),
        Answer::Closed => line.put_word(b"closed"),
        Answer::Busy => line.put_word(b"busy"),
        Answer::Stopped => line.put_word(b"stopped"),
        Answer::Idle => line.put_word(b"idle"),
        Answer::Nothing => line.put_word(b"nothing"),
        Answer::Blocked => line.put_word(b"blocked"),
        Answer::OutOfTurn => line.put_word(b"outofturn"),
        Answer::Empty => line.put_word(b"empty"),
        Answer::PeerDown => line.put_word(b"peerdown"),
        Answer::Awake => line.put_word(b"awake"),
        Answer::Filtered => line.put_word(b"filtered"),
    }
}

// Adds a word and two numbers to a line.
#[inline]
fn put_pair<const N: usize>(line: &mut LineText, word: &[u8; N], one: u32, other: u32)
    requires { N + 2 * SPACED + length line.old ≤ ROOM }
    ensures text { line.new ≡ line.old ++ word_and_numbers word.now (one ∷ other ∷ []) }
    ensures len { length line.new ≤ length line.old + N + 2 * SPACED }
{
    line.put_two(word, u64::from(one), u64::from(other))
}

// Adds the text of the writes in flight to a line; a dash stands where none is at the place that was asked for.
fn put_queue(line: &mut LineText, count: u64, label: &Option<Label>)
    requires { START_ROOM + length line.old ≤ ROOM }
    ensures text { line.new ≡ line.old ++ start_text (Answer.QueueShown count label.now) }
    ensures len { length line.new ≤ length line.old + START_ROOM }
{
    line.put_one(b"queue", count);
    line.put_word(b" ");
    match label {
        Some(label) => put_label(line, label),
        None => line.put_word(b"-"),
    }
}

// Adds the text of a label to a line.
fn put_label(line: &mut LineText, label: &Label)
    requires { LABEL_ROOM + length line.old ≤ ROOM }
    ensures text { line.new ≡ line.old ++ label_text label.now }
    ensures len { length line.new ≤ length line.old + LABEL_ROOM }
{
    match label {
        Label::Chunk {
            queue,
            number,
            part,
        } => line.put_three(b"chunk", u64::from(*queue), *number, u64::from(*part)),
        Label::Len { queue, number } => line.put_two(b"len", u64::from(*queue), *number),
        Label::Ver { queue, number } => line.put_two(b"ver", u64::from(*queue), *number),
        Label::Flag { queue, number } => line.put_two(b"flag", u64::from(*queue), *number),
        Label::Down { queue, number } => line.put_two(b"down", u64::from(*queue), *number),
        Label::Bell { queue } => line.put_one(b"bell", u64::from(*queue)),
        Label::Index { queue, number } => line.put_two(b"index", u64::from(*queue), *number),
        Label::Pad { index, value } => put_pair(line, b"pad", *index, *value),
        Label::Raw {
            window,
            offset,
            len,
        } => line.put_three(b"raw", u64::from(*window), *offset, u64::from(*len)),
    }
}
