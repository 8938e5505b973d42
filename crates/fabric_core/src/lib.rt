//! A fabric of pairs.
#![tactic(auto)]

mod answers;
mod bridge_steps;
mod counting;
mod counts;
mod fabric;
mod keys;
mod pairs;
mod queues;
mod refusals;
mod same;

pub use fabric::Fabric;
pub use refusals::refused_again;
pub use same::{one_list_makes_same, same_has_made_same, same_keys};
