//! The two ends of a resumable stream: a list of items is sent over any number of link sessions, and comes out once and
//! in order. Each session may be lost with what was on its way.
//!
//! In each session a [`StreamSender`] first gives a frame of four bytes, the number of items that were acknowledged
//! when the session began. Then it gives the items from that number on. A [`StreamReceiver`] keeps the next item, drops
//! those that it has, and acknowledges by a frame of four bytes, the number of items that it keeps. Numbers of four
//! bytes have the lowest byte first.
//!
//! Contracts see both ends as the records of [`stream_model`], whose laws say what holds of them. [`run_world`] makes
//! events on two ends that are joined by lists.
#![tactic(auto)]

mod numbers;
mod receiver;
mod sender;
mod wire;
mod world;

pub use receiver::StreamReceiver;
pub use sender::StreamSender;
pub use stream_model::{AckAnswer, Place, Session, StreamEvent, TakeAnswer};
pub use world::run_world;
