//! Resumable streams over a plan's traffic, run by threads: what a lost link took is sent again.

mod exchange;
mod group;
mod keeping;
mod lanes;
mod numbers;
mod offering;
mod pair;
mod parts;
mod record;
mod run;
mod session;
mod sink;
mod source;

pub use record::{StreamRecord, StreamRun};
pub use run::run_stream;
