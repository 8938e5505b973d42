//! The plain types of ntbsim's surface: sides and lanes, frames and names, the steps of a script and their answers.
//! The crate also has the plan that a script declares, the record of a threaded run, and the surface's limits.
//!
//! Contracts see a [`Frame`], a [`Name`] and what is kept [`InPlace`] as their lists of bytes, and [`Items`] as a list.
//! They see a [`FrameList`] as a list of frames and the number of frames for which room is promised.
#![tactic(auto)]

mod frame;
mod frame_list;
mod in_place;
mod items;
mod lanes;
pub mod limits;
mod names;
mod places;
mod plan;
mod runs;
mod shapes;
mod steps;

pub use frame::Frame;
pub use frame_list::FrameList;
pub use in_place::InPlace;
pub use items::Items;
pub use lanes::{Begun, LaneCopy};
pub use names::{LaneName, Name, Side};
pub use places::{BridgeStep, QueueStep, SideStep, StepPlace, SwitchStep};
pub use plan::{
    Counters, DevPlan, LaneCount, Line, LineAnswer, PairPlan, Plan, SidePlan, SwitchPlan, Traffic,
};
pub use runs::{LaneRun, RunRecord, SessionRun};
pub use shapes::{NamedNumber, NumberName, Numbers, Shape, ShapeEnd};
pub use steps::{Answer, Label, Step};
