//! The summary of a generated load.

ghost use Rattle.std.specs.Prelude.{◌≡◌, ◌≤◌, ℕ, [], IfOk, count_by};
ghost use Rattle.ledger_model.specs.PlanLog.{log_of_plan};
ghost use Rattle.cluster_core.specs.PlanSteps.{HasReplayed};
ghost use Rattle.traffic_plan.specs.Load.{load_of, most_load_frames};
ghost use Rattle.replay_command.specs.Replays.{is_blocked as is_blocked_answer, load_text as text_of_load, summary_text, with_blocked};

use cluster_core::{Cluster, KeepsAnswers, make_steps};
use std::alloc::{AllocError, Global};
use std::marker::Model;
use step_kinds::{Answer, LaneName, LineAnswer, Side, Step};
use step_list::StepList;
use traffic_plan::{LoadFrames, load_without_steps};

/// The one lane of a load.
const LANE: LaneName = LaneName {
    pair: 0,
    from: Side::A,
    queue: 0,
};

/// The session in which its pair starts, and stays.
const SESSION: u32 = 1;

/// How many answers so far are `blocked`, counted up to 2^64 - 1. Contracts see the number.
#[derive(Drop)]
struct BlockedCount {
    count: u64,
}

impl Model for BlockedCount {
    ghost use Rattle.std.specs.Prelude.{ℕ};

    ghost Value = { ℕ };

    ghost view = { λ blocked. blocked.count };
}

impl KeepsAnswers for BlockedCount {
    ghost with_answer = { with_blocked };

    fn keep(&mut self, _step: &Step, made: &LineAnswer) -> Result<(), AllocError> {
        if is_blocked(&made.answer) {
            self.count = self.count.saturating_add(1);
        }
        Ok(())
    }

    fn keep_times(
        &mut self,
        _step: &Step,
        made: &LineAnswer,
        count: u32,
    ) -> Result<(), AllocError> {
        if is_blocked(&made.answer) {
            self.count = self.count.saturating_add(u64::from(count));
        }
        Ok(())
    }
}

/// Returns the summary of a generated load of 1 to 30,000 frames: how many were accepted and delivered, and how many
/// landings were refused by the order rules. Returns an error if memory runs out.
pub fn load_text(alloc: Global, seed: u64, frames: u32) -> Result<Vec<u8>, AllocError>
    requires some { 1 ≤ frames }
    requires few { frames ≤ most_load_frames }
    ensures { IfOk result (λ text. text.items ≡ text_of_load seed frames) }
{
    let mut cluster = new_cluster(alloc)?;
    let blocked = count_blocked(alloc, seed, frames, &mut cluster)?;
    let (accepted, delivered) = cluster.ledger(LANE, SESSION);
    summary(alloc, seed, frames, accepted, delivered, blocked)
}

// Returns the cluster of a load before any step.
fn new_cluster(alloc: Global) -> Result<Cluster, AllocError>
    ensures { (seed frames : ℕ) → IfOk result (λ cluster. HasReplayed (load_of seed frames) [] cluster) }
{
    let plan = load_without_steps(alloc)?;
    Cluster::new(alloc, &plan)
}

// Returns the line that sums a load up.
fn summary(
    alloc: Global,
    seed: u64,
    frames: u32,
    accepted: u64,
    delivered: u64,
    blocked: u64,
) -> Result<Vec<u8>, AllocError>
    ensures { IfOk result (λ text. text.items ≡ summary_text seed frames accepted delivered blocked) }
{
    let text = format!(in alloc;
        "load {seed} {frames} accepted {accepted} delivered {delivered} blocked {blocked}\n"
    )?;
    Ok(text.into_bytes())
}

// Makes the steps of a load on its fresh cluster, frame by frame, and counts those that are answered `blocked`.
fn count_blocked(
    alloc: Global,
    seed: u64,
    frames: u32,
    cluster: &mut Cluster,
) -> Result<u64, AllocError>
    requires few { frames ≤ most_load_frames }
    requires fresh { HasReplayed (load_of seed frames) [] cluster.old }
    ensures made { IfOk result (λ _. HasReplayed (load_of seed frames) (load_of seed frames).steps cluster.new) }
    ensures blocked { IfOk result (λ blocked. blocked ≡ count_by (λ made. is_blocked_answer made.answer) (log_of_plan (load_of seed frames))) }
{
    let mut load = LoadFrames::new(seed);
    let mut steps = StepList::new(alloc);
    let mut blocked = BlockedCount { count: 0 };
    for _ in 0..frames {
        load.put_next(alloc, &mut steps)?;
        make_steps(&steps, cluster, &mut blocked)?;
    }
    Ok(blocked.count)
}

// Returns whether an answer is `blocked`.
fn is_blocked(answer: &Answer) -> bool
    ensures { result ≡ is_blocked_answer answer.now }
{
    matches!(answer, Answer::Blocked)
}
