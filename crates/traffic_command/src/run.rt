//! The reply of `run`.

ghost use Rattle.std.specs.Prelude.{◌≡◌, ◌≤◌, IfOk, length};
ghost use Rattle.step_kinds.specs.Limits.{most_script_bytes};
ghost use Rattle.pair_model.specs.TrafficPlans.{IsWhole};
ghost use Rattle.script_plan.specs.Scripts.{plan_in};
ghost use Rattle.io_edges.specs.Gates.{LetsWorkers};
ghost use Rattle.cluster_run.specs.Lanes.{most_workers};
ghost use Rattle.traffic_command.specs.Answers.{IsRunOf, IsRunOfPlan};
ghost use Rattle.traffic_command.specs.Replies.{carried_by};
ghost use Rattle.traffic_command.specs.Traffic.{IsRefusal};

use crate::reply::TrafficReply;
use cluster_run::run_plan;
use command_reply::Reply;
use io_edges::Gate;
use report_text::record_text;
use script_plan::Script;
use script_text::{ParseError, read_script};
use script_words::ScriptFault;
use std::alloc::{AllocError, Global};
use std::sync::Wait;
use std::thread::Threads;
use step_kinds::RunRecord;

/// Returns the reply of `run` to a script of at most 16,777,216 bytes. If it declares a plan, threads send the plan's
/// traffic. The reply is then the text of the record of that, with status 0, beside the record and its proofs. Else it
/// says the first line with a fault, with status 3. Returns an error if memory runs out.
///
/// Each worker of the run passes the gate before each of its turns. The gate has to let all workers with numbers below
/// 262,140 pass, before each turn with a number below 2^64.
pub fn run_reply<R: Threads + Wait + Sync, G: Gate>(
    rt: &R,
    alloc: Global,
    bytes: &[u8],
    gate: &G,
) -> Result<TrafficReply<RunRecord>, AllocError>
    requires short { length bytes.now ≤ most_script_bytes }
    requires gate { LetsWorkers (G.lets gate.now) most_workers }
    ensures { IfOk result (λ run. IsRunOf bytes.now run.reply (carried_by run)) }
{
    match read_script(alloc, bytes) {
        Ok(script) => run_script(rt, alloc, &script, gate),
        Err(ParseError::Fault(fault)) => Ok(refusal(alloc, fault)),
        Err(ParseError::OutOfMemory) => Err(AllocError),
    }
}

// Returns the reply to a script without a fault.
fn run_script<R: Threads + Wait + Sync, G: Gate>(
    rt: &R,
    alloc: Global,
    script: &Script,
    gate: &G,
) -> Result<TrafficReply<RunRecord>, AllocError>
    requires whole { IsWhole (plan_in script.now) }
    requires gate { LetsWorkers (G.lets gate.now) most_workers }
    ensures { IfOk result (λ run. IsRunOfPlan (plan_in script.now) run.reply (carried_by run)) }
{
    let (run, proofs) = run_plan(rt, alloc, &script.declared, gate)?;
    let text = record_text(alloc, &script.declared, &run)?;
    Ok(TrafficReply {
        reply: Reply::done(text),
        recorded: Some(run),
        proofs,
    })
}

// Returns the reply to a script with a fault.
fn refusal(alloc: Global, fault: ScriptFault) -> TrafficReply<RunRecord>
    ensures { IsRefusal fault result.reply (carried_by result) }
{
    TrafficReply {
        reply: Reply::refused(fault),
        recorded: None,
        proofs: Vec::new(alloc),
    }
}
