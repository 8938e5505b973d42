//! The trace of a script.

ghost use Rattle.std.specs.Prelude.{◌≡◌, ◌++◌, [], IfOk, OnOk, false, replicate};
ghost use Rattle.std.specs.List.{fold};
ghost use Rattle.pair_model.specs.DeclaredPlans.{IsDeclared};
ghost use Rattle.pair_model.specs.TrafficPlans.{IsWhole};
ghost use Rattle.ledger_model.specs.PlanLog.{device_counts as counts_of_devices, lane_counts as counts_of_lanes, log_of_plan};
ghost use Rattle.cluster_core.specs.Counts.{filled};
ghost use Rattle.cluster_core.specs.PlanSteps.{HasReplayed};
ghost use Rattle.script_plan.specs.Scripts.{plan_in};
ghost use Rattle.trace_command.specs.Lines.{trace_ending};
ghost use Rattle.trace_command.specs.Trace.{trace_start, trace_text as text_of_plan, with_line};

use crate::ending::push_ending;
use crate::head::push_head;
use crate::lines::push_step_line;
use crate::writes::WriteNumbers;
use cluster_core::{Cluster, KeepsAnswers, device_counts, lane_counts, make_steps};
use script_plan::Script;
use std::alloc::{AllocError, Global};
use std::marker::Model;
use step_kinds::{LineAnswer, Plan, Step};

/// The lines of a trace so far, the numbers of the writes in flight, and room for one line that repeats. Contracts see
/// the plan, the numbers and the bytes of the lines.
#[derive(Drop)]
struct TraceLines<'a> {
    plan: &'a Plan,
    writes: WriteNumbers,
    text: Vec<u8>,
    line: Vec<u8>,
}

impl<'a> Model for TraceLines<'a> {
    ghost use Rattle.trace_command.specs.Trace.{Traced};

    ghost Value = { Traced };

    ghost view = { λ lines. record { plan = lines.plan.now; writes = lines.writes; text = lines.text.items } };
}

impl<'a> KeepsAnswers for TraceLines<'a> {
    ghost with_answer = { with_line };

    fn keep(&mut self, step: &Step, made: &LineAnswer) -> Result<(), AllocError> {
        push_step_line(&mut self.text, self.plan, &self.writes, step, made)?;
        self.writes
            .follow(self.plan.pairs.as_slice(), step, &made.answer)
    }

    fn keep_times(&mut self, step: &Step, made: &LineAnswer, count: u32) -> Result<(), AllocError> {
        self.line.clear();
        push_step_line(&mut self.line, self.plan, &self.writes, step, made)?;
        for _ in 0..count {
            self.text.extend_from_slice(&self.line)?;
        }
        Ok(())
    }
}

impl<'a> TraceLines<'a> {
    // No line but the head's, and no write in flight.
    fn new(alloc: Global, plan: &'a Plan) -> Result<TraceLines<'a>, AllocError>
        requires { IsDeclared plan.now }
        ensures { IfOk result (λ lines. lines ≡ trace_start plan.now) }
    {
        let mut text = Vec::new(alloc);
        push_head(&mut text, plan.pairs.as_slice())?;
        Ok(TraceLines {
            plan,
            writes: WriteNumbers::new(alloc, plan.pairs.as_slice())?,
            text,
            line: Vec::new(alloc),
        })
    }
}

/// Returns the trace of a script. It has, one after another:
///
/// - its head, with the version of its form and a line for each pair,
/// - a line for each step, in the order in which they are made,
/// - a line for each lane in each session where a frame was accepted or delivered,
/// - a line for each device, and the end.
///
/// The script's plan is one that a script declares (`IsWhole`). Returns an error if memory runs out.
pub fn trace_text(alloc: Global, script: &Script) -> Result<Vec<u8>, AllocError>
    requires { IsWhole (plan_in script.now) }
    ensures { IfOk result (λ text. text.items ≡ text_of_plan (plan_in script.now)) }
{
    let mut cluster = Cluster::new(alloc, &script.declared)?;
    text_by(alloc, script, &mut cluster)
}

// Returns the trace of a script, whose steps a cluster makes that has made none.
fn text_by(alloc: Global, script: &Script, cluster: &mut Cluster) -> Result<Vec<u8>, AllocError>
    requires whole { IsWhole (plan_in script.now) }
    requires made { HasReplayed (plan_in script.now) [] cluster.old }
    ensures { IfOk result (λ text. text.items ≡ text_of_plan (plan_in script.now)) }
{
    let mut lines = TraceLines::new(alloc, &script.declared)?;
    make_steps(&script.steps, cluster, &mut lines)?;
    push_counts(alloc, &mut lines.text, script, cluster)?;
    Ok(lines.text)
}

// Adds what stands after a trace's steps: its lanes and devices, as the cluster that has made the steps counts them,
// and the end.
fn push_counts(
    alloc: Global,
    text: &mut Vec<u8>,
    script: &Script,
    cluster: &Cluster,
) -> Result<(), AllocError>
    requires whole { IsWhole (plan_in script.now) }
    requires made { HasReplayed (plan_in script.now) script.now.steps cluster.now }
    ensures { OnOk result (text.new.items ≡ text.old.items ++ trace_ending script.now.declared
        (filled (counts_of_lanes (plan_in script.now) (log_of_plan (plan_in script.now))))
        (counts_of_devices (plan_in script.now) (log_of_plan (plan_in script.now)))) }
{
    let lanes = lane_counts(alloc, &script.declared, cluster)?;
    let devs = device_counts(alloc, &script.declared, cluster)?;
    push_ending(text, &script.declared, &lanes, &devs)
}
