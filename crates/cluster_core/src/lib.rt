//! A cluster: the bridges of a plan, and the learning switches that join devices of one host between them. It makes the
//! steps of a plan one after another, and counts what its lanes and devices came to.
#![tactic(auto)]

mod cluster;
mod counts;
pub mod laws;
mod parts;
mod plans;
mod ports;
mod refusals;
mod relays;
mod steps;

pub use cluster::Cluster;
pub use counts::{device_counts, lane_counts};
pub use refusals::refused_again;
pub use steps::{KeepsAnswers, make_steps};
