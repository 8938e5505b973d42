//! A run of a plan's traffic.

ghost use Rattle.std.specs.Prelude.{◌≡◌, IfOk};
ghost use Rattle.io_edges.specs.Gates.{LetsWorkers};
ghost use Rattle.step_kinds.specs.Runs.{run_shown};
ghost use Rattle.cluster_run.specs.Lanes.{CanRun, most_workers};
ghost use Rattle.cluster_run.specs.Runs.{IsFit, IsRunShown};

use crate::group::{finished_group, next_group};
use crate::parts::RunParts;
use crate::task_list::lanes_to_run;
use io_edges::Gate;
use std::alloc::{AllocError, Global};
use std::sync::Wait;
use std::thread::Threads;
use step_kinds::{Items, Plan, RunRecord};
use table_lane::LaneProof;

/// Sends the traffic of a plan by threads, and returns the record of the run with a proof of each session. The proofs
/// stand in the order of the lanes, and then of the sessions.
///
/// The plan's pairs and traffic have to be as a script can declare them, within the limits of traffic. Each lane with
/// traffic has one link session more than its pair has breaks. A session is the life of one table lane with as many
/// entries as the lane's ring. Each session but the last is cut beside its traffic. A frame that a cut refused is sent
/// in the next session; a frame that was accepted before a cut and not delivered stays lost.
///
/// Lanes are numbered from 0 in the record's order. Before each turn a worker passes the gate with its number. Of lane
/// n that is 4n where it sends, 4n + 1 where it moves frames, 4n + 2 where it receives and 4n + 3 where it is cut.
/// Turns count from 0 in each session. The gate has to let all workers with numbers below 262,140 pass, before each
/// turn with a number below 2^64.
///
/// Up to four lanes whose rings are open together have a thread for each worker; of more a thread makes the turns of
/// several, those of one lane in turn. Where no thread can be made the caller makes them.
///
/// # Errors
///
/// [`AllocError`] if memory runs out.
pub fn run_plan<R: Threads + Wait + Sync, G: Gate>(
    rt: &R,
    alloc: Global,
    plan: &Plan,
    gate: &G,
) -> Result<(RunRecord, Vec<LaneProof>), AllocError>
    requires plan { CanRun plan.now }
    requires gate { LetsWorkers (G.lets gate.now) most_workers }
    ensures fits { IfOk result (λ run. IsFit plan.now (run_shown run.0)) }
    ensures shown { IfOk result (λ run. IsRunShown plan.now (run_shown run.0) run.1.items) }
{
    let mut waiting = lanes_to_run(alloc, plan)?;
    let mut parts = RunParts::new(alloc);
    while let Some(first) = waiting.pop_front() {
        let open = next_group(alloc, first, &mut waiting)?;
        let over = finished_group(rt, alloc, gate, open)?;
        parts.add_all(alloc, over)?;
    }
    let RunParts { lanes, proofs } = parts;
    let lanes = Items::of_vec(lanes);
    Ok((RunRecord { lanes }, proofs))
}
