//! Streams whose rings are open together, and their rounds.

ghost use Rattle.std.specs.Prelude.{◌≡◌, ◌≤◌, ◌++◌, ◌∷◌, true, All, length, IfOk};
ghost use Rattle.io_edges.specs.Gates.{LetsWorkers};
ghost use Rattle.cluster_run.specs.LaneKeys.{keys_of};
ghost use Rattle.cluster_run.specs.Lanes.{most_lanes};
ghost use Rattle.cluster_run.specs.stream.Keys.{AreNumbered};
ghost use Rattle.cluster_run.specs.stream.Workers.{most_stream_workers};

use crate::group::MOST_OPEN;
use crate::rounds::finished;
use crate::stream::lanes::StreamWork;
use crate::tasks::LaneTask;
use io_edges::Gate;
use lane_workers::Way;
use std::alloc::{AllocError, Global};
use std::collections::VecDeque;
use std::sync::Wait;
use std::thread::Threads;
use step_kinds::limits::MOST_TRAFFIC_ENTRIES;

/// The two rings of a stream have at most this many entries.
const STREAM_ENTRIES: u32 = 2 * MOST_TRAFFIC_ENTRIES;

/// Opens the stream `first` and those of the lanes that wait which may be open together with it, in order, if this many
/// lanes have traffic. Returns an error if memory runs out.
pub(crate) fn next_group(
    alloc: Global,
    lanes: u32,
    first: LaneTask,
    waiting: &mut VecDeque<LaneTask>,
) -> Result<Vec<StreamWork>, AllocError>
    requires { lanes ≤ most_lanes }
    ensures keys { IfOk result (λ works. keys_of works.items ++ waiting.new.items ≡ first ∷ waiting.old.items) }
    ensures numbers { IfOk result (λ works. AreNumbered lanes works.items) }
    ensures fewer { length waiting.new.items ≤ length waiting.old.items }
{
    let mut entries = 2 * first.entries();
    let mut works = vec![in alloc; StreamWork::new(alloc, lanes, first)?]?;
    while entries <= MOST_OPEN - STREAM_ENTRIES
        && let Some(task) = waiting.pop_front()
    {
        entries += 2 * task.entries();
        works.push(StreamWork::new(alloc, lanes, task)?)?;
    }
    Ok(works)
}

/// Rounds of the streams of a group, until all are over. What their work comes to stays. Returns an error if memory
/// runs out.
pub(crate) fn finished_group<R: Threads + Wait + Sync, G: Gate>(
    rt: &R,
    alloc: Global,
    gate: &G,
    works: Vec<StreamWork>,
) -> Result<Vec<StreamWork>, AllocError>
    requires { LetsWorkers (G.lets gate.now) most_stream_workers }
    ensures keys { IfOk result (λ done. keys_of done.items ≡ keys_of works.items) }
    ensures over { IfOk result (λ done. All (λ work. work.over ≡ true) done.items) }
{
    finished(
        rt,
        alloc,
        works,
        &|_, work: &mut StreamWork|
            requires { LetsWorkers (G.lets gate.now) most_stream_workers }
        { work.pass(rt, gate, Way::InThreads) },
        &|_, work: &mut StreamWork|
            requires { LetsWorkers (G.lets gate.now) most_stream_workers }
        { work.pass(rt, gate, Way::InTurn) },
    )
}
