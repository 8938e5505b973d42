//! The command `reads`: a text of steps on two sides that one bridge joins, and the reply to it.
#![tactic(auto)]

mod answers;
mod command;
pub mod examples;
mod lines;
mod reply;

pub use command::reads_reply;
pub use reply::{ReadsError, reads_text};
