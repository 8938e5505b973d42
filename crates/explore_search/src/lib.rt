//! A search through every order in which a cluster may land the writes of a script.
//!
//! It drives machines, of which it knows no more than the trait [`Machine`] says: what steps they have made, and
//! whether two of them are the same. A state keeps its machine where there is room; else it is made anew along its
//! path.
#![tactic(auto)]

mod groups;
mod known;
pub mod laws;
mod layers;
mod live;
mod machine;
mod paths;
mod search;
mod spread;
mod states;

pub use machine::Machine;
pub use search::{Explored, MOST_STATES, explore};
