//! The parts of a record while it is put together.

ghost use Rattle.std.specs.Prelude.{◌≡◌, ◌++◌, ◌∷◌, [], true, List, All, OnOk, map};
ghost use Rattle.cluster_run.specs.LaneKeys.{LaneKey, ComeTo, keys_of};
ghost use Rattle.cluster_run.specs.stream.Keys.{StreamComesTo};
ghost use Rattle.cluster_run.specs.stream.Streams.{stream_shown};

use crate::stream::lanes::StreamWork;
use crate::stream::record::StreamRun;
use std::alloc::{AllocError, Global};
use table_lane::LaneProof;

/// The streams that are over, and the proofs of their sessions.
#[derive(Drop)]
pub(crate) struct StreamParts {
    pub(crate) lanes: Vec<StreamRun>,
    pub(crate) proofs: Vec<LaneProof>,
}

impl StreamParts {
    /// No stream.
    pub(crate) fn new(alloc: Global) -> StreamParts
        ensures lanes { result.lanes.items ≡ [] }
        ensures proofs { result.proofs.items ≡ [] }
    {
        StreamParts {
            lanes: Vec::new(alloc),
            proofs: Vec::new(alloc),
        }
    }

    // Adds a stream that is over after the others.
    fn add(&mut self, work: StreamWork) -> Result<(), AllocError>
        requires { work.over ≡ true }
        ensures { OnOk result ((keys : List LaneKey) → ComeTo StreamComesTo keys (map stream_shown self.old.lanes.items) self.old.proofs.items → ComeTo StreamComesTo (keys ++ work.key ∷ []) (map stream_shown self.new.lanes.items) self.new.proofs.items) }
    {
        let (lane, mut proofs) = work.ended()?;
        self.lanes.push(lane)?;
        self.proofs.append(&mut proofs)
    }

    /// Adds streams that are over after the others, in order. Returns an error if memory runs out.
    pub(crate) fn add_all(&mut self, works: Vec<StreamWork>) -> Result<(), AllocError>
        requires { All (λ work. work.over ≡ true) works.items }
        ensures { OnOk result ((keys : List LaneKey) → ComeTo StreamComesTo keys (map stream_shown self.old.lanes.items) self.old.proofs.items → ComeTo StreamComesTo (keys ++ keys_of works.items) (map stream_shown self.new.lanes.items) self.new.proofs.items) }
    {
        for work in works {
            self.add(work)?;
        }
        Ok(())
    }
}
