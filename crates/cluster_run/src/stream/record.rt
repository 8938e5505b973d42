//! What a run of streams leaves.
//!
//! Two records are compared by their lists, and by the frames of their frame lists (`specs/Streams.antt`,
//! `streams_shown`).

use step_kinds::{FrameList, Items, LaneName};

/// What the stream of one lane brought.
#[derive(Drop)]
pub struct StreamRun {
    /// The lane.
    pub name: LaneName,
    /// The items that the receiver kept, in order: the lane's whole traffic, each frame once.
    pub items: FrameList,
    /// How many link sessions it took: one more than the link losses of the lane's pair.
    pub sessions: u32,
}

/// The record of a run of streams.
#[derive(Drop)]
pub struct StreamRecord {
    /// The lanes that have traffic, by the number of the pair, then side A before side B, then by the queue.
    pub lanes: Items<StreamRun>,
}
