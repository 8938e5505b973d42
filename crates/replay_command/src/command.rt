//! The replies of `replay` and `load`.

ghost use Rattle.std.specs.Prelude.{◌≡◌, ◌≤◌, IfOk, length};
ghost use Rattle.command_reply.specs.Output.{reply_done};
ghost use Rattle.pair_model.specs.TrafficPlans.{IsWhole};
ghost use Rattle.script_plan.specs.Scripts.{plan_in};
ghost use Rattle.step_kinds.specs.Limits.{most_script_bytes};
ghost use Rattle.traffic_plan.specs.Load.{most_load_frames};
ghost use Rattle.replay_command.specs.Answers.{IsLoadOf, IsReplayOf};
ghost use Rattle.replay_command.specs.Replays.{replay_text as text_of_plan};

use crate::load::load_text;
use crate::replay::replay_text;
use command_reply::Reply;
use script_plan::Script;
use script_text::{ParseError, read_script};
use std::alloc::{AllocError, Global};

/// Returns the reply of `replay` to a script of at most 16,777,216 bytes. It is the report of the plan that the script
/// declares, with status 0, or the first line with a fault, with status 3. Returns an error if memory runs out.
pub fn replay_reply(alloc: Global, bytes: &[u8]) -> Result<Reply, AllocError>
    requires { length bytes.now ≤ most_script_bytes }
    ensures { IfOk result (λ reply. IsReplayOf bytes.now reply) }
{
    match read_script(alloc, bytes) {
        Ok(script) => report(alloc, &script),
        Err(ParseError::Fault(fault)) => Ok(Reply::refused(fault)),
        Err(ParseError::OutOfMemory) => Err(AllocError),
    }
}

// Returns the reply to a script without a fault.
fn report(alloc: Global, script: &Script) -> Result<Reply, AllocError>
    requires { IsWhole (plan_in script.now) }
    ensures { IfOk result (λ reply. reply ≡ reply_done (text_of_plan (plan_in script.now))) }
{
    Ok(Reply::done(replay_text(alloc, script)?))
}

/// Returns the reply of `load`: the summary of a generated load of 1 to 30,000 frames, with status 0. Returns an error
/// if memory runs out.
pub fn load_reply(alloc: Global, seed: u64, frames: u32) -> Result<Reply, AllocError>
    requires some { 1 ≤ frames }
    requires few { frames ≤ most_load_frames }
    ensures { IfOk result (λ reply. IsLoadOf seed frames reply) }
{
    Ok(Reply::done(load_text(alloc, seed, frames)?))
}
