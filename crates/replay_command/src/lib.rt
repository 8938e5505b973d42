//! The commands `replay` and `load`: the text of what the steps of a plan are answered, made one after another.
#![tactic(auto)]

mod command;
mod load;
mod replay;

pub use command::{load_reply, replay_reply};
