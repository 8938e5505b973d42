//! What a run of the program answers.

ghost use Rattle.std.specs.Prelude.{◌≡◌};
ghost use Rattle.ntb_top.specs.Ends.{beside_of, nothing_beside};

use cluster_run::StreamRecord;
use std::alloc::Global;
use step_kinds::RunRecord;
use table_lane::LaneProof;

/// What a run of the program answers.
#[derive(Drop)]
pub struct Ended {
    /// The exit status, 0 or 2 to 8.
    pub status: u8,
    /// The record whose text was written, if `run` ended with status 0; none in every other case.
    pub runs: Option<RunRecord>,
    /// The record whose text was written, if `stream` ended with status 0; none in every other case.
    pub streams: Option<StreamRecord>,
    /// The proofs of that record's sessions, lane by lane: of `run` one of each, of `stream` two. None in every other
    /// case.
    pub proofs: Vec<LaneProof>,
}

impl Ended {
    /// Returns an end with this status, and nothing beside it.
    pub(crate) fn alone(alloc: Global, status: u8) -> Ended
        ensures status { result.status ≡ status }
        ensures alone { beside_of result ≡ nothing_beside }
    {
        Ended {
            status,
            runs: None,
            streams: None,
            proofs: Vec::new(alloc),
        }
    }
}
