//! What a threaded run leaves: the record of its lanes, session by session.
//!
//! Two records are compared by their lists, level by level, and by the frames of their frame lists
//! (`specs/Runs.antt`, `run_shown`).

use crate::frame_list::FrameList;
use crate::items::Items;
use crate::names::LaneName;

/// What one link session of a lane came to. The frames that the session accepted are `delivered` followed by `left`,
/// in the order in which they were sent.
#[derive(Drop)]
pub struct SessionRun {
    /// The frames that were delivered, in order.
    pub delivered: FrameList,
    /// The frames that were accepted and not delivered when the session ended, in order. They stay lost.
    pub left: FrameList,
}

/// What one lane's sessions came to.
#[derive(Drop)]
pub struct LaneRun {
    /// The lane.
    pub name: LaneName,
    /// Its link sessions, in order from session 1 on: one more than the link losses of the lane's pair.
    pub sessions: Items<SessionRun>,
}

/// The record of a threaded run.
#[derive(Drop)]
pub struct RunRecord {
    /// The lanes that have traffic, by the number of the pair, then side A before side B, then by the queue.
    pub lanes: Items<LaneRun>,
}
