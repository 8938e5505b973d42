//! The steps of a text of reads, and what they answer.

use pair_model::LinkRefusal;
use step_kinds::{Frame, Items, Side};

/// A step of a text of reads.
#[derive(Debug, Drop)]
pub enum PathStep {
    /// The side posts a write of 1 to 128 bytes to its peer's memory from the address `at` on.
    Write {
        side: Side,
        at: u32,
        bytes: Items<u8>,
        relaxed: bool,
    },
    /// The side asks for `len` bytes, 1 to 512, of its peer's memory from the address `at` on.
    Read {
        side: Side,
        at: u32,
        len: u32,
    },
    /// What stands at this place of those that the side has in flight lands at its peer, counted from 0 for the oldest.
    Land {
        side: Side,
        place: u32,
    },
    /// The side's own memory is shown: `len` bytes, 1 to 64, from the address `at` on.
    Show {
        side: Side,
        at: u32,
        len: u32,
    },
    /// The link is lost. What is in flight may still land.
    Break,
    /// What was in flight when the link was lost is dropped.
    DropDone,
    /// Both sides are cleaned and enable the link, and it comes up in the next session.
    Relink,
}

/// What came of a posted write.
#[derive(Clone, Copy, Debug, PartialEq, Eq)]
pub enum PostAnswer {
    /// The write is in flight.
    Ok,
    /// The link isn't up, and the write is lost.
    LinkDown,
}

/// What came of a read.
#[derive(Clone, Copy, Debug, PartialEq, Eq)]
pub enum ReadAnswer {
    /// The request is in flight. The side's reads are numbered from 0, whatever sessions they are in.
    Posted { number: u64 },
    /// The link isn't up, and nothing is asked.
    LinkDown,
}

/// What came of an attempt to land what a side has in flight at a place.
#[derive(Debug, Drop)]
pub enum PathLand {
    /// No more than `place` are in flight.
    Nothing,
    /// It may not pass one of those before it, and stays.
    Blocked,
    /// A write landed: this many bytes at this address.
    Write { at: u32, len: u32 },
    /// The request of the side's read of this number landed, and its bytes were read.
    Request { number: u64 },
    /// A completion of the peer's read of this number landed that isn't the last one; parts count from 0.
    Part { number: u64, part: u32 },
    /// The last completion of the peer's read of this number landed, and these are the bytes that were read.
    Whole { number: u64, frame: Frame },
}

/// What a step answers.
#[derive(Debug, Drop)]
pub enum PathAnswer {
    /// Of a write.
    Wrote { answer: PostAnswer },
    /// Of a read.
    Asked { answer: ReadAnswer },
    /// Of a landing.
    Landed { answer: PathLand },
    /// Of a show: the bytes.
    Shown { frame: Frame },
    /// Of a step of the link: why it was refused, if it was.
    Linked { refusal: Option<LinkRefusal> },
}
