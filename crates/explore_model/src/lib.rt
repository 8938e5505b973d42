//! Exploration: every order in which a cluster may land the writes of a script.
//!
//! A *schedule* makes the steps of a script in their order, and before each of them any number of further landings that
//! are answered `landed`. Its *outcome* is the list of the texts of the answers to the script's own steps. The
//! definitions say what a schedule is, when a list of outcomes is whole, how many states schedules reach, and the text
//! that shows it. They come with worked examples.
#![tactic(auto)]

pub mod examples;
mod outcome;

pub use outcome::{Landing, Outcome};
