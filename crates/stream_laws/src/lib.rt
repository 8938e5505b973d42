//! The laws of resumable streams: what holds of the two ends of [`stream_model`], and of a world of both, whatever
//! sessions are lost.
#![tactic(auto)]

pub mod laws;
