//! Lanes whose rings are open together, and their rounds.

ghost use Rattle.std.specs.Prelude.{◌≡◌, ◌≤◌, ◌++◌, ◌∷◌, true, All, length, IfOk};
ghost use Rattle.io_edges.specs.Gates.{LetsWorkers};
ghost use Rattle.cluster_run.specs.LaneKeys.{keys_of};
ghost use Rattle.cluster_run.specs.Lanes.{most_workers};

use crate::lanes::LaneWork;
use crate::rounds::finished;
use crate::tasks::LaneTask;
use io_edges::Gate;
use lane_workers::Way;
use std::alloc::{AllocError, Global};
use std::collections::VecDeque;
use std::sync::Wait;
use std::thread::Threads;
use step_kinds::limits::MOST_TRAFFIC_ENTRIES;

/// The rings that are open together have at most this many entries in all.
pub(crate) const MOST_OPEN: u32 = 1_000_000;

/// Opens the lane `first` and those of the lanes that wait which may be open together with it, in order. Returns an
/// error if memory runs out.
pub(crate) fn next_group(
    alloc: Global,
    first: LaneTask,
    waiting: &mut VecDeque<LaneTask>,
) -> Result<Vec<LaneWork>, AllocError>
    ensures keys { IfOk result (λ works. keys_of works.items ++ waiting.new.items ≡ first ∷ waiting.old.items) }
    ensures fewer { length waiting.new.items ≤ length waiting.old.items }
{
    let mut entries = first.entries();
    let mut works = vec![in alloc; first.opened(alloc)?]?;
    while entries <= MOST_OPEN - MOST_TRAFFIC_ENTRIES
        && let Some(task) = waiting.pop_front()
    {
        entries += task.entries();
        works.push(task.opened(alloc)?)?;
    }
    Ok(works)
}

/// Rounds of the lanes of a group, until all are over. What their work comes to stays. Returns an error if memory runs
/// out.
pub(crate) fn finished_group<R: Threads + Wait + Sync, G: Gate>(
    rt: &R,
    alloc: Global,
    gate: &G,
    works: Vec<LaneWork>,
) -> Result<Vec<LaneWork>, AllocError>
    requires { LetsWorkers (G.lets gate.now) most_workers }
    ensures keys { IfOk result (λ done. keys_of done.items ≡ keys_of works.items) }
    ensures over { IfOk result (λ done. All (λ work. work.over ≡ true) done.items) }
{
    finished(
        rt,
        alloc,
        works,
        &|_, work: &mut LaneWork|
            requires { LetsWorkers (G.lets gate.now) most_workers }
        { work.pass(rt, gate, Way::InThreads) },
        &|_, work: &mut LaneWork|
            requires { LetsWorkers (G.lets gate.now) most_workers }
        { work.pass(rt, gate, Way::InTurn) },
    )
}
