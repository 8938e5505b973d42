//! One lane in one session, as a pure state: a sender, a receiver, the posted writes between them, and the ring that
//! they share.
//!
//! The sender begins entries and posts their writes, and the bridge lands these in any order that PCI Express allows
//! (Base 4.0, section 2.4). The receiver looks for the next entry by its flags, copies it in parts, clears the flags
//! and writes an index back (`ntb_transport` moves frames in this way). After each call the law of the ring holds, so
//! that what is copied is the entry that was begun, whole.
//!
//! Contracts see a [`Lane`] as the model's lane, with its queue and whether its writes are strict beside it. Entries
//! are numbered from 0 in their session, slots of the ring and places in flight from 0. Only [`Lane::new`],
//! [`Lane::begin`], [`Lane::down`] and [`Lane::look`] take memory; after an error the lane is as it was.
#![tactic(auto)]

mod answers;
mod entry;
mod lane;
mod ring;
mod slot;
mod write;

pub use answers::{Begun, LaneCopy, LaneLand, LaneLook};
pub use lane::Lane;
