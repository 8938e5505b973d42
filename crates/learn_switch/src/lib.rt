//! A learning switch, as a Linux bridge is one: it joins several network devices of a host. A frame that arrives on one
//! of them goes on to the device behind which its destination was seen last, or to all others.
//!
//! Contracts see a [`Switch`] as the lists of [`pair_model`]: of each port the frames that arrived and those that
//! wait, and the stations that are known.
#![tactic(auto)]

mod fdb;
mod frame_queue;
mod switch;

pub use pair_model::{RelayAnswer, Station};
pub use switch::Switch;
