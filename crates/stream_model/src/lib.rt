//! The model of a resumable stream: a sending end and a receiving end that carry a list of items over any number of
//! sessions. Each session may be lost with what was on its way. The model also has the world of two such ends.
//! `stream_laws` has the laws of the ends and of the world.
//!
//! In each session the sender first gives a frame of four bytes, the number of items that were acknowledged when the
//! session began. Then it gives the items from that number on. The receiver drops items that it has, keeps the next
//! one, and acknowledges by a frame of four bytes, the number of items that it keeps. All numbers of four bytes have
//! the lowest byte first.
//!
//! This crate has definitions alone, over lists and numbers, and the plain types that the ends share.
#![tactic(auto)]

pub mod examples;

/// How far a sender is. A frame that was given back counts as not given.
#[derive(Clone, Copy, Debug, PartialEq, Eq)]
pub struct Place {
    /// The frames that it gave in this session: 0 before the session's first frame, which is no item, was given.
    pub given: u32,
    /// The number of items that it ever gave: all items with a number below this were given in some session.
    pub ever: u32,
}

/// What came of an acknowledgement that a sender took.
#[derive(Clone, Copy, Debug, PartialEq, Eq)]
pub enum AckAnswer {
    /// Its number is above the one that was acknowledged before, and is acknowledged now.
    Newer,
    /// Its number isn't above the one that was acknowledged before. Nothing changed.
    Old,
    /// It hasn't four bytes, or its number is above the number of items that were ever given. Nothing changed.
    Bad,
}

/// What came of a frame that a receiver took.
#[derive(Clone, Copy, Debug, PartialEq, Eq)]
pub enum TakeAnswer {
    /// It is the first frame of its session: the session's items start at its number.
    Start,
    /// It is the item of this number, which the receiver lacked. It was kept.
    Kept { number: u32 },
    /// It is the item of this number, which the receiver has. It was dropped.
    Old { number: u32 },
    /// It is the first frame of its session, and hasn't four bytes or says a number above the number of items that are
    /// kept. Or it came after such a frame in the same session. It was dropped.
    Bad,
}

/// Where a receiver stands in a session.
#[derive(Clone, Copy, Debug, PartialEq, Eq)]
pub enum Session {
    /// No frame was taken yet.
    Fresh,
    /// The next frame is the item of this number.
    At { number: u32 },
    /// The session's first frame was bad, and so is each that follows.
    Spoiled,
}

/// What can happen in a world of two ends.
#[derive(Clone, Copy, Debug, PartialEq, Eq)]
pub enum StreamEvent {
    /// The sender is asked for its next frame. If it has one, the frame sets out.
    Next,
    /// The frame that set out last goes back to the sender. This can be only if the sender didn't change since, and the
    /// frame wasn't carried.
    GiveBack,
    /// The first frame that is on its way is carried to the receiver.
    Carry,
    /// The receiver is asked for an acknowledgement, which sets out.
    Ack,
    /// The first acknowledgement that is on its way is carried to the sender.
    CarryAck,
    /// The session is lost with all that is on its way, and both ends begin a new one.
    Lose,
}
