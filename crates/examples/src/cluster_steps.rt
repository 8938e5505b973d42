//! A plan is read of a script, its steps are made on a `cluster_core::Cluster`, and their answers are texts.

ghost use Rattle.std.specs.Prelude.{◌≡◌, ◌≤◌, OnOk, length};
ghost use Rattle.pair_model.specs.PlanParts.{declared_part};
ghost use Rattle.step_kinds.specs.Limits.{most_script_bytes};
ghost use Rattle.pair_model.specs.Switches.{IsMakeable};
ghost use Rattle.pair_model.specs.TrafficPlans.{IsWhole};
ghost use Rattle.cluster_core.specs.Cluster.{plan_held};

use cluster_core::Cluster;
use report_text::push_answer_line;
use script_text::{ParseError, parse};
use std::alloc::{AllocError, Global};
use step_kinds::{Line, LineAnswer, Plan};

/// A frame of one byte from side A, whose doorbell stays in flight.
const SCRIPT: &[u8] = b"ntb 1
host a
host b
pair p a b up strict size=4096 mtu=1023
steps
send p A 0 61
landall p A 4
recv p B 0
";

/// The lines of the answers to the steps of a script that stands here. It may be out of memory.
pub fn script_answers(alloc: Global) -> Result<Vec<u8>, AllocError> {
    let mut reply = Vec::new(alloc);
    push_reply(&mut reply, alloc, SCRIPT)?;
    Ok(reply)
}

// Adds what there is to say of a script: the answers to its steps, or the first line with a fault.
fn push_reply(reply: &mut Vec<u8>, alloc: Global, script: &[u8]) -> Result<(), AllocError>
    requires { length script.now ≤ most_script_bytes }
{
    match parse(alloc, script) {
        Ok(plan) => push_answers(reply, alloc, &plan),
        Err(ParseError::Fault(fault)) => {
            let text = format!(in alloc; "refused line {}\n", fault.line)?;
            reply.extend_from_slice(text.as_bytes())
        }
        Err(ParseError::OutOfMemory) => Err(AllocError),
    }
}

// Adds the answers to the steps of a plan, on the cluster that it declares.
fn push_answers(reply: &mut Vec<u8>, alloc: Global, plan: &Plan) -> Result<(), AllocError>
    requires { IsWhole plan.now }
{
    let mut cluster = Cluster::new(alloc, plan)?;
    make_steps(&mut cluster, plan, reply)
}

// Makes the steps of a plan, in order, and adds a line for each answer.
fn make_steps(cluster: &mut Cluster, plan: &Plan, reply: &mut Vec<u8>) -> Result<(), AllocError>
    requires whole { IsWhole plan.now }
    requires held { plan_held cluster.old ≡ declared_part plan.now }
{
    for line in plan.steps.as_slice() {
        make_step(cluster, line, reply)?;
    }
    Ok(())
}

// Makes a step, and adds the line of its answer.
fn make_step(cluster: &mut Cluster, line: &Line, reply: &mut Vec<u8>) -> Result<(), AllocError>
    requires { IsMakeable (plan_held cluster.old) line.now.step }
    ensures { OnOk result (plan_held cluster.new ≡ plan_held cluster.old) }
{
    let answer = cluster.step(&line.step)?;
    let made = LineAnswer {
        line: line.line,
        answer,
    };
    push_answer_line(reply, &made)
}
