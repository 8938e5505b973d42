//! The plan of a generated load, and the traffic of a plan by lanes.
//!
//! A load is one pair and the steps of this many frames from its side A to its side B, with bytes and landings of a
//! generator of numbers. The same seed and number of frames give the same plan.
#![tactic(auto)]

pub mod examples;
mod lanes;
pub mod laws;
mod load;
mod steps;

pub use lanes::{breaks, lane_traffic};
pub use load::{LoadFrames, MOST_LOAD_FRAMES, generate, load_without_steps};
