//! The parts of a record while it is put together.

ghost use Rattle.std.specs.Prelude.{◌≡◌, ◌++◌, ◌∷◌, [], true, List, All, OnOk, map};
ghost use Rattle.step_kinds.specs.Runs.{lane_shown};
ghost use Rattle.cluster_run.specs.LaneKeys.{LaneKey, ComesTo, ComeTo, keys_of};

use crate::lanes::LaneWork;
use std::alloc::{AllocError, Global};
use step_kinds::LaneRun;
use table_lane::LaneProof;

/// The lanes that are over, and the proofs of their sessions.
#[derive(Drop)]
pub(crate) struct RunParts {
    pub(crate) lanes: Vec<LaneRun>,
    pub(crate) proofs: Vec<LaneProof>,
}

impl RunParts {
    /// No lane.
    pub(crate) fn new(alloc: Global) -> RunParts
        ensures lanes { result.lanes.items ≡ [] }
        ensures proofs { result.proofs.items ≡ [] }
    {
        RunParts {
            lanes: Vec::new(alloc),
            proofs: Vec::new(alloc),
        }
    }

    // Adds a lane that is over after the others.
    fn add(&mut self, alloc: Global, work: LaneWork) -> Result<(), AllocError>
        requires { work.over ≡ true }
        ensures { OnOk result ((keys : List LaneKey) → ComeTo ComesTo keys (map lane_shown self.old.lanes.items) self.old.proofs.items → ComeTo ComesTo (keys ++ work.key ∷ []) (map lane_shown self.new.lanes.items) self.new.proofs.items) }
    {
        let (lane, mut proofs) = work.ended(alloc)?;
        self.lanes.push(lane)?;
        self.proofs.append(&mut proofs)
    }

    /// Adds lanes that are over after the others, in order. Returns an error if memory runs out.
    pub(crate) fn add_all(&mut self, alloc: Global, works: Vec<LaneWork>) -> Result<(), AllocError>
        requires { All (λ work. work.over ≡ true) works.items }
        ensures { OnOk result ((keys : List LaneKey) → ComeTo ComesTo keys (map lane_shown self.old.lanes.items) self.old.proofs.items → ComeTo ComesTo (keys ++ keys_of works.items) (map lane_shown self.new.lanes.items) self.new.proofs.items) }
    {
        for work in works {
            self.add(alloc, work)?;
        }
        Ok(())
    }
}
