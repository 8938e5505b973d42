//! The report of a script.

ghost use Rattle.std.specs.Prelude.{◌≡◌, ◌++◌, [], IfOk, OnOk};
ghost use Rattle.pair_model.specs.TrafficPlans.{IsWhole};
ghost use Rattle.ledger_model.specs.PlanLog.{device_counts as counts_of_devices, lane_counts as counts_of_lanes, log_of_plan};
ghost use Rattle.cluster_core.specs.PlanSteps.{HasReplayed};
ghost use Rattle.script_plan.specs.Scripts.{plan_in};
ghost use Rattle.report_text.specs.Report.{answer_line, ending};
ghost use Rattle.replay_command.specs.Replays.{replay_text as text_of_plan};

use cluster_core::{Cluster, KeepsAnswers, device_counts, lane_counts, make_steps};
use report_text::{AnswerLines, push_ending};
use script_plan::Script;
use std::alloc::{AllocError, Global};
use std::marker::Model;
use step_kinds::{LineAnswer, Step};

/// The lines of a report's answers so far. Contracts see their bytes.
#[derive(Drop)]
struct ReportLines {
    lines: AnswerLines,
}

impl Model for ReportLines {
    ghost use Rattle.std.specs.Prelude.{ℕ, List};

    ghost Value = { List ℕ };

    ghost view = { λ report. report.lines };
}

impl KeepsAnswers for ReportLines {
    ghost with_answer = { λ text answered. text ++ answer_line answered.made };

    fn keep(&mut self, _step: &Step, made: &LineAnswer) -> Result<(), AllocError> {
        self.lines.push(made)
    }

    fn keep_times(
        &mut self,
        _step: &Step,
        made: &LineAnswer,
        count: u32,
    ) -> Result<(), AllocError> {
        self.lines.push_times(made, count)
    }
}

/// Returns the report of a script: the answers to its steps, what its lanes accepted and delivered in each session, and
/// what its devices counted. Its plan has to be whole (`IsWhole`). It may be out of memory.
pub fn replay_text(alloc: Global, script: &Script) -> Result<Vec<u8>, AllocError>
    requires { IsWhole (plan_in script.now) }
    ensures { IfOk result (λ text. text.items ≡ text_of_plan (plan_in script.now)) }
{
    let mut cluster = Cluster::new(alloc, &script.declared)?;
    text_by(alloc, script, &mut cluster)
}

// Returns the report of a script, whose steps a cluster makes that has made none.
fn text_by(alloc: Global, script: &Script, cluster: &mut Cluster) -> Result<Vec<u8>, AllocError>
    requires whole { IsWhole (plan_in script.now) }
    requires made { HasReplayed (plan_in script.now) [] cluster.old }
    ensures { IfOk result (λ text. text.items ≡ text_of_plan (plan_in script.now)) }
{
    let mut report = ReportLines {
        lines: AnswerLines::new(alloc),
    };
    make_steps(&script.steps, cluster, &mut report)?;
    let mut text = report.lines.into_text()?;
    push_counts(alloc, &mut text, script, cluster)?;
    Ok(text)
}

// Adds what stands after a report's answers: its lanes and devices, as the cluster that has made the steps counts them,
// and the end.
fn push_counts(
    alloc: Global,
    text: &mut Vec<u8>,
    script: &Script,
    cluster: &Cluster,
) -> Result<(), AllocError>
    requires whole { IsWhole (plan_in script.now) }
    requires made { HasReplayed (plan_in script.now) script.now.steps cluster.now }
    ensures { OnOk result (text.new.items ≡ text.old.items ++ ending (plan_in script.now)
        (counts_of_lanes (plan_in script.now) (log_of_plan (plan_in script.now)))
        (counts_of_devices (plan_in script.now) (log_of_plan (plan_in script.now)))) }
{
    let lanes = lane_counts(alloc, &script.declared, cluster)?;
    let devs = device_counts(alloc, &script.declared, cluster)?;
    push_ending(text, &script.declared, &lanes, &devs)
}
