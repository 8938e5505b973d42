//! A run of a plan's traffic as resumable streams.

ghost use Rattle.std.specs.Prelude.{IfOk};
ghost use Rattle.io_edges.specs.Gates.{LetsWorkers};
ghost use Rattle.cluster_run.specs.Lanes.{CanRun};
ghost use Rattle.cluster_run.specs.stream.Streams.{AreResumed, streams_shown};
ghost use Rattle.cluster_run.specs.stream.Workers.{most_stream_workers};

use crate::stream::group::{finished_group, next_group};
use crate::stream::parts::StreamParts;
use crate::stream::record::StreamRecord;
use crate::task_list::lanes_to_run;
use io_edges::Gate;
use std::alloc::{AllocError, Global};
use std::sync::Wait;
use std::thread::Threads;
use step_kinds::{Items, Plan};
use table_lane::LaneProof;

/// Sends the traffic of a plan by threads, each lane's as a resumable stream: what a lost link took is sent again, and
/// each frame is brought once. It answers the record of that with two proofs of each session, in the order of the lanes
/// and then of the sessions. Of each session the proof of the lane of items stands first, then that of its
/// acknowledgements.
///
/// The plan's pairs and traffic have to be as a script can declare them, within the limits of traffic. Each lane with
/// traffic has one link session more than its pair has breaks. A session is the life of two table lanes with as many
/// entries as the lane's ring: one carries the items, the other the acknowledgements back. Each session but the last is
/// cut beside its traffic, both lanes at once. The next one begins at the largest number that was acknowledged so far,
/// or at the first item. The last one ends when all items are kept.
///
/// Lanes are numbered from 0 in the record's order. Before each turn a worker passes the gate with its number. Of lane
/// n that is 4n where it sends, 4n + 1 where it moves frames, 4n + 2 where it receives and 4n + 3 where it is cut. If k
/// lanes have traffic, the acknowledgements of lane n are lane k + n. Turns count from 0 in each session. The gate has
/// to let all workers with numbers below 524,280 pass, before each turn with a number below 2^64.
///
/// Of up to four lanes whose rings are open together the two ends of each, its movers and what cuts it have threads of
/// their own. Of more a thread makes the turns of several, those of one lane in turn. Where no thread can be made the
/// caller makes them.
///
/// # Errors
///
/// [`AllocError`] if memory runs out.
pub fn run_stream<R: Threads + Wait + Sync, G: Gate>(
    rt: &R,
    alloc: Global,
    plan: &Plan,
    gate: &G,
) -> Result<(StreamRecord, Vec<LaneProof>), AllocError>
    requires plan { CanRun plan.now }
    requires gate { LetsWorkers (G.lets gate.now) most_stream_workers }
    ensures { IfOk result (λ run. AreResumed plan.now (streams_shown run.0) run.1.items) }
{
    let mut waiting = lanes_to_run(alloc, plan)?;
    let lanes = waiting.len() as u32;
    let mut parts = StreamParts::new(alloc);
    while let Some(first) = waiting.pop_front() {
        let open = next_group(alloc, lanes, first, &mut waiting)?;
        let over = finished_group(rt, alloc, gate, open)?;
        parts.add_all(over)?;
    }
    let StreamParts { lanes, proofs } = parts;
    let lanes = Items::of_vec(lanes);
    Ok((StreamRecord { lanes }, proofs))
}
