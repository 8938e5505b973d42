//! Two sides that one bridge joins, with posted writes, read requests and completions in flight, ordered as PCI Express
//! Base 4.0, section 2.4, orders them.
//!
//! A read request waits for the posted writes before it, and a completion for those before it. So a driver that reads
//! its peer back knows, once the data is there, that its own earlier writes of the session have landed. `ntb_transport`
//! doesn't rely on this, but drivers of other devices do.
#![tactic(auto)]

mod end;
pub mod examples;
mod flight;
pub mod laws;
pub mod limits;
mod path;
pub mod steps;

pub use path::Path;
pub use steps::{PathAnswer, PathLand, PathStep, PostAnswer, ReadAnswer};
