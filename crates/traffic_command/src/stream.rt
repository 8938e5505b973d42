//! The reply of `stream`.

ghost use Rattle.std.specs.Prelude.{◌≡◌, ◌≤◌, IfOk, length};
ghost use Rattle.step_kinds.specs.Limits.{most_script_bytes};
ghost use Rattle.io_edges.specs.Gates.{LetsWorkers};
ghost use Rattle.pair_model.specs.TrafficPlans.{IsWhole};
ghost use Rattle.script_plan.specs.Scripts.{plan_in};
ghost use Rattle.cluster_run.specs.stream.Workers.{most_stream_workers};
ghost use Rattle.traffic_command.specs.Answers.{IsStreamOf, IsStreamOfPlan};
ghost use Rattle.traffic_command.specs.Replies.{streamed_by};
ghost use Rattle.traffic_command.specs.Traffic.{IsRefusal};

use crate::reply::TrafficReply;
use crate::text::streams_text;
use cluster_run::{StreamRecord, run_stream};
use command_reply::Reply;
use io_edges::Gate;
use script_plan::Script;
use script_text::{ParseError, read_script};
use script_words::ScriptFault;
use std::alloc::{AllocError, Global};
use std::sync::Wait;
use std::thread::Threads;

/// Returns the reply of `stream` to a script of at most 16,777,216 bytes. If it declares a plan, threads send the
/// plan's traffic as resumable streams. The reply is then the text of the record of that, with status 0, beside the
/// record and its proofs. Else it says the first line with a fault, with status 3. Returns an error if memory runs out.
///
/// Each worker passes the gate before each of its turns. The gate has to let all workers with numbers below 524,280
/// pass, before each turn with a number below 2^64.
pub fn stream_reply<R: Threads + Wait + Sync, G: Gate>(
    rt: &R,
    alloc: Global,
    bytes: &[u8],
    gate: &G,
) -> Result<TrafficReply<StreamRecord>, AllocError>
    requires short { length bytes.now ≤ most_script_bytes }
    requires gate { LetsWorkers (G.lets gate.now) most_stream_workers }
    ensures { IfOk result (λ streams. IsStreamOf bytes.now streams.reply (streamed_by streams)) }
{
    match read_script(alloc, bytes) {
        Ok(script) => stream_script(rt, alloc, &script, gate),
        Err(ParseError::Fault(fault)) => Ok(refusal(alloc, fault)),
        Err(ParseError::OutOfMemory) => Err(AllocError),
    }
}

// Returns the reply to a script without a fault.
fn stream_script<R: Threads + Wait + Sync, G: Gate>(
    rt: &R,
    alloc: Global,
    script: &Script,
    gate: &G,
) -> Result<TrafficReply<StreamRecord>, AllocError>
    requires whole { IsWhole (plan_in script.now) }
    requires gate { LetsWorkers (G.lets gate.now) most_stream_workers }
    ensures { IfOk result (λ streams. IsStreamOfPlan (plan_in script.now) streams.reply (streamed_by streams)) }
{
    let (streams, proofs) = run_stream(rt, alloc, &script.declared, gate)?;
    let text = streams_text(alloc, &script.declared, &streams)?;
    Ok(TrafficReply {
        reply: Reply::done(text),
        recorded: Some(streams),
        proofs,
    })
}

// Returns the reply to a script with a fault.
fn refusal(alloc: Global, fault: ScriptFault) -> TrafficReply<StreamRecord>
    ensures { IsRefusal fault result.reply (streamed_by result) }
{
    TrafficReply {
        reply: Reply::refused(fault),
        recorded: None,
        proofs: Vec::new(alloc),
    }
}
