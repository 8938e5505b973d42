//! The run of a plan's traffic by threads, as plain lanes or as resumable streams: sessions, in rounds of workers.
#![tactic(auto)]

mod by_lane;
pub mod clock;
mod group;
mod lanes;
pub mod laws;
mod parts;
pub mod rounds;
mod run;
mod session;
mod stream;
mod task_list;
mod tasks;
pub mod workers;

pub use run::run_plan;
pub use stream::{StreamRecord, StreamRun, run_stream};
pub use task_list::lanes_to_run;
pub use tasks::{LaneTask, TaskParts};
