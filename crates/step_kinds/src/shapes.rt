//! The shapes of answers and labels: a word, numbers with names, and what stands at the end. Each text of an answer, in
//! a report or in a trace, is made of its shape.

ghost use Rattle.std.specs.Prelude.{◌≡◌};
ghost use Rattle.step_kinds.specs.Shapes.{
  answer_bytes,
  answer_shape,
  ended,
  label_shape,
  named_number,
  seen_of,
  shown_end,
  with_entry,
  with_len_and_max,
  with_one,
  with_seen_and_own,
  with_three,
  with_two,
  without_end,
  word_alone,
};
ghost use Rattle.step_kinds.specs.declared.shapes.ShapeEnd.TheVariants.{Label as EndsWithLabel};

use crate::steps::{Answer, Label};

/// What a number of an answer or of a label is. Answers and labels say of each of their fields what it counts, and in
/// which unit.
#[derive(Clone, Copy, Debug, PartialEq, Eq)]
pub enum NumberName {
    /// The doorbells that were taken, as bits.
    Bits,
    /// The bytes that a side's memory gives for a window.
    Cap,
    /// How many writes are in flight, or ports a frame waits on.
    Count,
    /// The slot of the next entry.
    Head,
    /// A scratchpad.
    Index,
    /// A length in bytes.
    Len,
    /// The most bytes that there may be.
    Max,
    /// A frame or an entry.
    Number,
    /// The first byte in a window.
    Offset,
    /// What a side itself has.
    Own,
    /// A part of an entry.
    Part,
    /// A port of a switch.
    Port,
    /// A queue.
    Queue,
    /// What was read of the peer.
    Seen,
    /// The bytes of a window of the peer, as its scratchpads say: any number of 64 bits.
    SeenSize,
    /// A link session.
    Session,
    /// The slot in the index word.
    Tail,
    /// The value of a scratchpad.
    Value,
    /// A translation window.
    Window,
}

/// A number of an answer or of a label, with what it is.
#[derive(Clone, Copy, Debug, PartialEq, Eq)]
pub struct NamedNumber {
    /// What the number is.
    pub name: NumberName,
    /// The number.
    pub value: u64,
}

/// The numbers of an answer or of a label, in the order in which a report has them: at most three.
#[derive(Clone, Copy, Debug, PartialEq, Eq)]
pub enum Numbers {
    /// No number.
    None,
    /// One number.
    One {
        first: NamedNumber,
    },
    /// Two numbers.
    Two {
        first: NamedNumber,
        second: NamedNumber,
    },
    /// Three numbers.
    Three {
        first: NamedNumber,
        second: NamedNumber,
        third: NamedNumber,
    },
}

/// What stands at the end of an answer, after its word and its numbers.
#[derive(Clone, Copy, Debug, PartialEq, Eq)]
pub enum ShapeEnd {
    /// Nothing.
    Nothing,
    /// The label of a write.
    Label { label: Label },
    /// The word that there is no write.
    NoLabel,
    /// The bytes of a frame ([`Answer::bytes`]).
    Frame,
    /// Bytes of a memory ([`Answer::bytes`]).
    Bytes,
}

/// The shape of an answer or of a label.
#[derive(Clone, Copy, Debug)]
pub struct Shape {
    /// The word that it begins with: 2 to 10 lower-case letters.
    pub word: &'static str,
    /// Its numbers.
    pub numbers: Numbers,
    /// What stands at its end: nothing after the numbers of a label.
    pub end: ShapeEnd,
}

impl Answer {
    /// Returns the word, the numbers and the end of the answer.
    #[inline]
    pub fn shape(&self) -> Shape
        ensures { seen_of result ≡ answer_shape self.now }
    {
        match *self {
            Answer::Ok => word("ok"),
            Answer::OkSession { session } => one("ok", short(NumberName::Session, session)),
            Answer::OkNumber { number } => one("ok", long(NumberName::Number, number)),
            Answer::NotDown => word("notdown"),
            Answer::Dirty => word("dirty"),
            Answer::NotEnabled => word("notenabled"),
            Answer::Spent => word("spent"),
            Answer::NotUp => word("notup"),
            Answer::NotClosing => word("notclosing"),
            Answer::LinkDown => word("linkdown"),
            Answer::Already => word("already"),
            Answer::Offered { index } => one("offered", short(NumberName::Index, index)),
            Answer::NotYet => word("notyet"),
            Answer::Version { seen, own } => seen_and_own("version", seen, own),
            Answer::Queues { seen, own } => seen_and_own("queues", seen, own),
            Answer::Windows { seen, own } => seen_and_own("windows", seen, own),
            Answer::Size { seen, cap } => two(
                "size",
                long(NumberName::SeenSize, seen),
                long(NumberName::Cap, cap),
            ),
            Answer::Up => word("up"),
            Answer::NotChecked => word("notchecked"),
            Answer::NotReady => word("notready"),
            Answer::Joined => word("joined"),
            Answer::Closed => word("closed"),
            Answer::TooLong { len, max } => len_and_max("toolong", len, max),
            Answer::Busy => word("busy"),
            Answer::Stopped => word("stopped"),
            Answer::Again { head, tail } => two(
                "again",
                short(NumberName::Head, head),
                short(NumberName::Tail, tail),
            ),
            Answer::Idle => word("idle"),
            Answer::Posted { label } => with_label("posted", label),
            Answer::Nothing => word("nothing"),
            Answer::Blocked => word("blocked"),
            Answer::Landed { label } => with_label("landed", label),
            Answer::OutOfTurn => word("outofturn"),
            Answer::Empty => word("empty"),
            Answer::PeerDown => word("peerdown"),
            Answer::VerDiffers { seen, own } => seen_and_own("verdiffers", seen, own),
            Answer::Long { len, max } => len_and_max("long", len, max),
            Answer::ReadyFrame { number, len } => two(
                "ready",
                long(NumberName::Number, number),
                short(NumberName::Len, len),
            ),
            Answer::Copied { number, part } => two(
                "copied",
                long(NumberName::Number, number),
                short(NumberName::Part, part),
            ),
            Answer::Delivered { number, .. } => ending(
                one("frame", long(NumberName::Number, number)),
                ShapeEnd::Frame,
            ),
            Answer::Cleared { number } => one("cleared", long(NumberName::Number, number)),
            Answer::Acked { number } => one("acked", long(NumberName::Number, number)),
            Answer::Awake => word("awake"),
            Answer::Irq { bits } => one("irq", short(NumberName::Bits, bits)),
            Answer::Mem { .. } => ending(word("mem"), ShapeEnd::Bytes),
            Answer::PadValue { value } => one("pad", short(NumberName::Value, value)),
            Answer::QueueShown { count, label } => ending(
                one("queue", long(NumberName::Count, count)),
                shown(label),
            ),
            Answer::Short { len } => one("short", short(NumberName::Len, len)),
            Answer::Filtered => word("filtered"),
            Answer::To { port } => one("to", short(NumberName::Port, port)),
            Answer::Flood { count } => one("flood", short(NumberName::Count, count)),
        }
    }

    /// Returns the bytes that the answer ends with: those of a frame or of a memory. Any other answer has none.
    #[inline]
    pub fn bytes(&self) -> &[u8]
        ensures { result.now ≡ answer_bytes self.now }
    {
        if let Answer::Delivered { frame, .. } = self {
            return frame.bytes();
        }
        if let Answer::Mem { bytes } = self {
            return bytes.bytes();
        }
        &[]
    }
}

impl Label {
    /// Returns the word and the numbers of the label.
    #[inline]
    pub fn shape(&self) -> Shape
        ensures { seen_of result ≡ label_shape self.now }
    {
        match *self {
            Label::Chunk {
                queue,
                number,
                part,
            } => three(
                "chunk",
                short(NumberName::Queue, queue),
                long(NumberName::Number, number),
                short(NumberName::Part, part),
            ),
            Label::Len { queue, number } => of_entry("len", queue, number),
            Label::Ver { queue, number } => of_entry("ver", queue, number),
            Label::Flag { queue, number } => of_entry("flag", queue, number),
            Label::Down { queue, number } => of_entry("down", queue, number),
            Label::Bell { queue } => one("bell", short(NumberName::Queue, queue)),
            Label::Index { queue, number } => of_entry("index", queue, number),
            Label::Pad { index, value } => two(
                "pad",
                short(NumberName::Index, index),
                short(NumberName::Value, value),
            ),
            Label::Raw {
                window,
                offset,
                len,
            } => three(
                "raw",
                short(NumberName::Window, window),
                long(NumberName::Offset, offset),
                short(NumberName::Len, len),
            ),
        }
    }
}

// Returns a number of 32 bits.
#[inline(always)]
fn short(name: NumberName, value: u32) -> NamedNumber
    ensures { result ≡ named_number name value }
{
    long(name, u64::from(value))
}

// Returns a number of 64 bits.
#[inline(always)]
fn long(name: NumberName, value: u64) -> NamedNumber
    ensures { result ≡ named_number name value }
{
    NamedNumber { name, value }
}

// Returns a word with these numbers.
#[inline(always)]
fn with_numbers(word: &'static str, numbers: Numbers) -> Shape
    ensures { seen_of result ≡ without_end word.now numbers }
{
    Shape {
        word,
        numbers,
        end: ShapeEnd::Nothing,
    }
}

// Returns a word alone.
#[inline(always)]
fn word(word: &'static str) -> Shape
    ensures { seen_of result ≡ word_alone word.now }
{
    with_numbers(word, Numbers::None)
}

// Returns a word with a number.
#[inline(always)]
fn one(word: &'static str, first: NamedNumber) -> Shape
    ensures { seen_of result ≡ with_one word.now first }
{
    with_numbers(word, Numbers::One { first })
}

// Returns a word with two numbers.
#[inline(always)]
fn two(word: &'static str, first: NamedNumber, second: NamedNumber) -> Shape
    ensures { seen_of result ≡ with_two word.now first second }
{
    with_numbers(word, Numbers::Two { first, second })
}

// Returns a word with three numbers.
#[inline(always)]
fn three(word: &'static str, first: NamedNumber, second: NamedNumber, third: NamedNumber) -> Shape
    ensures { seen_of result ≡ with_three word.now first second third }
{
    let numbers = Numbers::Three {
        first,
        second,
        third,
    };
    with_numbers(word, numbers)
}

// A word with what was read and what the side itself has.
#[inline(always)]
fn seen_and_own(word: &'static str, seen: u32, own: u32) -> Shape
    ensures { seen_of result ≡ with_seen_and_own word.now seen own }
{
    two(
        word,
        short(NumberName::Seen, seen),
        short(NumberName::Own, own),
    )
}

// Returns a word with a length and the most that there may be.
#[inline(always)]
fn len_and_max(word: &'static str, len: u32, max: u32) -> Shape
    ensures { seen_of result ≡ with_len_and_max word.now len max }
{
    two(
        word,
        short(NumberName::Len, len),
        short(NumberName::Max, max),
    )
}

// Returns a word with a queue and the number of an entry.
#[inline(always)]
fn of_entry(word: &'static str, queue: u32, number: u64) -> Shape
    ensures { seen_of result ≡ with_entry word.now queue number }
{
    two(
        word,
        short(NumberName::Queue, queue),
        long(NumberName::Number, number),
    )
}

// Returns a word with the label of a write.
#[inline(always)]
fn with_label(text: &'static str, label: Label) -> Shape
    ensures { seen_of result ≡ ended (word_alone text.now) (EndsWithLabel label) }
{
    ending(word(text), ShapeEnd::Label { label })
}

// Returns a shape with another end.
#[inline(always)]
fn ending(shape: Shape, end: ShapeEnd) -> Shape
    ensures { seen_of result ≡ ended (seen_of shape) end }
{
    Shape { end, ..shape }
}

// Returns the label of a write that is shown, or the word that there is none.
#[inline(always)]
fn shown(label: Option<Label>) -> ShapeEnd
    ensures { result ≡ shown_end label }
{
    match label {
        Some(label) => ShapeEnd::Label { label },
        None => ShapeEnd::NoLabel,
    }
}
