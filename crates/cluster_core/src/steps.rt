//! Steps made on a cluster, one after another.

ghost use Rattle.std.specs.Prelude.{◌≡◌, ◌∷◌, [], List, replicate, false, OnOk};
ghost use Rattle.std.specs.List.{All, fold};
ghost use Rattle.step_kinds.specs.AnsweredSteps.{AnsweredStep};
ghost use Rattle.step_kinds.specs.Answers.{is_made};
ghost use Rattle.step_kinds.specs.declared.plan.Line.{Line};
ghost use Rattle.step_kinds.specs.declared.plan.Plan.{Plan};
ghost use Rattle.pair_model.specs.Switches.{IsMakeable};
ghost use Rattle.pair_model.specs.Macros.{receive};
ghost use Rattle.step_list.specs.Compact.{lines_with, step_again};
ghost use Rattle.step_list.specs.StepLists.{lines_in};
ghost use Rattle.cluster_core.specs.Cluster.{plan_held};
ghost use Rattle.cluster_core.specs.PlanSteps.{HasKept, HasReplayed};

use crate::cluster::Cluster;
use crate::refusals::refused_again;
use std::alloc::AllocError;
use step_kinds::{LineAnswer, Side, Step};
use step_list::{Repeated, StepList, Stretch};

/// What is kept of the answers to steps.
pub trait KeepsAnswers {
    ghost with_answer: { Self → AnsweredStep → Self };

    /// Keeps the answer to one more step. It may be out of memory.
    fn keep(&mut self, step: &Step, made: &LineAnswer) -> Result<(), AllocError>
        ensures { OnOk result (self.new ≡ with_answer self.old (record { step = step.now; made = made.now })) };

    /// Keeps the same answer to a step that is refused this many times. It may be out of memory.
    fn keep_times(&mut self, step: &Step, made: &LineAnswer, count: u32) -> Result<(), AllocError>
        requires { is_made made.now.answer ≡ false }
        ensures { OnOk result (self.new ≡ fold with_answer self.old (replicate count (record { step = step.now; made = made.now }))) };
}

/// Makes steps, which a script of the cluster's plan may make, and keeps what there is to keep of each answer. It may
/// be out of memory.
pub fn make_steps<K: KeepsAnswers>(
    steps: &StepList,
    cluster: &mut Cluster,
    kept: &mut K,
) -> Result<(), AllocError>
    requires { All (λ line. IsMakeable (plan_held cluster.old) line.step) steps.now }
    ensures plan { OnOk result (plan_held cluster.new ≡ plan_held cluster.old) }
    ensures kept { (plan : Plan) (before : List Line) → HasReplayed plan before cluster.old → OnOk result (HasKept K.with_answer plan before steps.now cluster.new kept.old kept.new) }
{
    for stretch in steps.stretches() {
        make_stretch(stretch, cluster, kept)?;
    }
    Ok(())
}

// Makes the steps of one stretch.
fn make_stretch<K: KeepsAnswers>(
    stretch: &Stretch,
    cluster: &mut Cluster,
    kept: &mut K,
) -> Result<(), AllocError>
    requires { All (λ line. IsMakeable (plan_held cluster.old) line.step) (lines_in stretch.now) }
    ensures plan { OnOk result (plan_held cluster.new ≡ plan_held cluster.old) }
    ensures kept { (plan : Plan) (before : List Line) → HasReplayed plan before cluster.old → OnOk result (HasKept K.with_answer plan before (lines_in stretch.now) cluster.new kept.old kept.new) }
{
    match stretch {
        Stretch::One { line, step } => make_step(*line, step, cluster, kept),
        Stretch::Again {
            line,
            repeated,
            count,
        } => make_repeated(*line, *repeated, *count, cluster, kept),
        Stretch::Received {
            line,
            pair,
            side,
            queue,
            copies,
        } => make_received(*line, *pair, *side, *queue, *copies, cluster, kept),
    }
}

// Makes a step of few numbers of a line this many times. Posts and landings, which are the most, are made by code of
// their own.
fn make_repeated<K: KeepsAnswers>(
    line: u32,
    repeated: Repeated,
    count: u32,
    cluster: &mut Cluster,
    kept: &mut K,
) -> Result<(), AllocError>
    requires { All (λ line. IsMakeable (plan_held cluster.old) line.step) (lines_with line (replicate count (step_again repeated))) }
    ensures plan { OnOk result (plan_held cluster.new ≡ plan_held cluster.old) }
    ensures kept { (plan : Plan) (before : List Line) → HasReplayed plan before cluster.old → OnOk result (HasKept K.with_answer plan before (lines_with line (replicate count (step_again repeated))) cluster.new kept.old kept.new) }
{
    match repeated {
        Repeated::Post { pair, side, queue } => {
            make_again(
                line,
                Repeated::Post { pair, side, queue },
                count,
                cluster,
                kept,
            )
        }
        Repeated::Land { pair, side, place } => {
            make_again(
                line,
                Repeated::Land { pair, side, place },
                count,
                cluster,
                kept,
            )
        }
        other => make_again(line, other, count, cluster, kept),
    }
}

// Makes the steps of a line by which a side receives an entry in this many copies.
fn make_received<K: KeepsAnswers>(
    line: u32,
    pair: u32,
    side: Side,
    queue: u32,
    copies: u32,
    cluster: &mut Cluster,
    kept: &mut K,
) -> Result<(), AllocError>
    requires { All (λ line. IsMakeable (plan_held cluster.old) line.step) (lines_with line (receive pair side queue copies)) }
    ensures plan { OnOk result (plan_held cluster.new ≡ plan_held cluster.old) }
    ensures kept { (plan : Plan) (before : List Line) → HasReplayed plan before cluster.old → OnOk result (HasKept K.with_answer plan before (lines_with line (receive pair side queue copies)) cluster.new kept.old kept.new) }
{
    make_step(line, &Step::Look { pair, side, queue }, cluster, kept)?;
    make_again(
        line,
        Repeated::Copy { pair, side, queue },
        copies,
        cluster,
        kept,
    )?;
    make_step(line, &Step::Clear { pair, side, queue }, cluster, kept)?;
    make_step(line, &Step::Ack { pair, side, queue }, cluster, kept)
}

// Makes a step of few numbers of a line this many times. Once it is refused it is refused again each further time, so
// it isn't made any more. The step is put together anew each time, so that where its kind is known the others' code
// falls away.
#[inline(always)]
fn make_again<K: KeepsAnswers>(
    line: u32,
    repeated: Repeated,
    count: u32,
    cluster: &mut Cluster,
    kept: &mut K,
) -> Result<(), AllocError>
    requires { All (λ line. IsMakeable (plan_held cluster.old) line.step) (lines_with line (replicate count (step_again repeated))) }
    ensures plan { OnOk result (plan_held cluster.new ≡ plan_held cluster.old) }
    ensures kept { (plan : Plan) (before : List Line) → HasReplayed plan before cluster.old → OnOk result (HasKept K.with_answer plan before (lines_with line (replicate count (step_again repeated))) cluster.new kept.old kept.new) }
{
    for made in 0..count {
        let step = repeated.step();
        let answer = cluster.step(&step)?;
        let answered = LineAnswer { line, answer };
        if made + 1 < count && !answered.answer.is_made() {
            refused_again();
            return kept.keep_times(&step, &answered, count - made);
        }
        kept.keep(&step, &answered)?;
    }
    Ok(())
}

// Makes one step of a line.
#[inline(always)]
fn make_step<K: KeepsAnswers>(
    line: u32,
    step: &Step,
    cluster: &mut Cluster,
    kept: &mut K,
) -> Result<(), AllocError>
    requires { IsMakeable (plan_held cluster.old) step.now }
    ensures plan { OnOk result (plan_held cluster.new ≡ plan_held cluster.old) }
    ensures kept { (plan : Plan) (before : List Line) → HasReplayed plan before cluster.old → OnOk result (HasKept K.with_answer plan before (lines_with line (step.now ∷ [])) cluster.new kept.old kept.new) }
{
    let answer = cluster.step(step)?;
    kept.keep(step, &LineAnswer { line, answer })
}
