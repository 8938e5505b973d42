//! Lanes that wait to be run.

ghost use Rattle.std.specs.Prelude.{◌≡◌, ◌≤◌, IfOk};
ghost use Rattle.step_kinds.specs.Limits.{most_traffic_entries};
ghost use Rattle.cluster_run.specs.Tasks.{AreParts};

use crate::lanes::LaneWork;
use crate::session::Session;
use std::alloc::{AllocError, Global};
use std::marker::Model;
use step_kinds::{FrameList, LaneName};

/// A lane with traffic whose ring isn't open yet. Contracts see its key: the lane, its number among the lanes
/// with traffic, the entries of its ring, the losses of its pair's link, and its traffic.
#[derive(Drop)]
pub struct LaneTask {
    /// The lane.
    pub(crate) name: LaneName,
    /// Its number among the lanes with traffic.
    pub(crate) number: u32,
    /// The entries of its ring.
    pub(crate) entries: u32,
    /// How many losses of its pair's link it sees.
    pub(crate) losses: u32,
    /// Its traffic.
    pub(crate) frames: FrameList,
}

/// What a lane with traffic is: the parts of a [`LaneTask`].
#[derive(Drop)]
pub struct TaskParts {
    /// The lane.
    pub name: LaneName,
    /// Its number among the lanes with traffic, below 65,535.
    pub number: u32,
    /// The entries of its ring, 2 to 65,535.
    pub entries: u32,
    /// How many losses of its pair's link it sees, at most 100.
    pub losses: u32,
    /// Its traffic: at most 100,000 frames, each with a byte.
    pub frames: FrameList,
}

impl LaneTask {
    /// Returns how many entries the ring of the lane has, at most 65,535.
    pub fn entries(&self) -> u32
        ensures value { result ≡ self.now.entries }
        ensures fits { result ≤ most_traffic_entries }
    {
        self.entries
    }

    /// Returns the parts of a lane that waits.
    pub fn into_parts(self) -> TaskParts
        ensures { AreParts self result }
    {
        let LaneTask {
            name,
            number,
            entries,
            losses,
            frames,
        } = self;
        TaskParts {
            name,
            number,
            entries,
            losses,
            frames,
        }
    }

    /// Opens the lane's ring for its first session. Returns an error if memory runs out.
    pub(crate) fn opened(self, alloc: Global) -> Result<LaneWork, AllocError>
        ensures { IfOk result (λ work. work.key ≡ self) }
    {
        let LaneTask {
            name,
            number,
            entries,
            losses,
            frames,
        } = self;
        LaneWork::new(alloc, name, number, entries, losses, frames)
    }
}

impl Model for LaneTask {
    ghost use Rattle.cluster_run.specs.LaneKeys.{LaneKey};

    ghost Value = { LaneKey };

    ghost use Rattle.cluster_run.specs.LaneFields.{key_of_task, IsTask};

    ghost view = { key_of_task };

    ghost invariant = { IsTask };
}
