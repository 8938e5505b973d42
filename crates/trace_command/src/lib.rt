//! The command `trace`: a plan's steps made one after another, and a line of JSON for each step with its answer. A line
//! says which of the writes in flight the step concerns.
//!
//! A side's writes are numbered from 0 over the whole run, in the order in which they were posted. One that is lost as
//! it is posted has none.
#![tactic(auto)]

mod answers;
mod changes;
mod command;
mod ending;
mod head;
pub mod laws;
mod lines;
mod members;
mod steps;
mod trace;
mod words;
mod writes;

pub use command::trace_reply;
