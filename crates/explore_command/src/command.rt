//! The reply of `explore`.

ghost use Rattle.std.specs.Prelude.{◌≤◌, IfOk, Ok, length};
ghost use Rattle.step_kinds.specs.Limits.{most_script_bytes};
ghost use Rattle.pair_model.specs.TrafficPlans.{IsWhole};
ghost use Rattle.explore_command.specs.Answers.{ExploresTo, IsExploreOf};

use crate::machine::PathCluster;
use crate::text::explored_text;
use command_reply::Reply;
use explore_search::{Explored, explore};
use script_text::{ParseError, parse};
use std::alloc::{AllocError, Global};
use step_kinds::Plan;

/// Returns the reply of `explore` to a script of at most 16,777,216 bytes: all outcomes of its schedules, with status
/// 0, or its first line with a fault, with status 3. If the schedules reach more than 1,000,000 states, it is
/// `too many states`, with status 8. Returns an error if memory runs out.
pub fn explore_reply(alloc: Global, bytes: &[u8]) -> Result<Reply, AllocError>
    requires { length bytes.now ≤ most_script_bytes }
    ensures { IfOk result (λ reply. IsExploreOf bytes.now reply) }
{
    match parse(alloc, bytes) {
        Ok(plan) => exploration(alloc, &plan),
        Err(ParseError::Fault(fault)) => Ok(Reply::refused(fault)),
        Err(ParseError::OutOfMemory) => Err(AllocError),
    }
}

// Returns the reply to the plan of a script.
fn exploration(alloc: Global, plan: &Plan) -> Result<Reply, AllocError>
    requires { IsWhole plan.now }
    ensures { IfOk result (λ reply. ExploresTo (Ok plan.now) reply) }
{
    match explore::<PathCluster>(alloc, plan)? {
        Explored::Done { outcomes, states } => {
            let text = explored_text(alloc, plan, &outcomes, states as u64)?;
            Ok(Reply::done(text))
        }
        Explored::TooMany => Ok(Reply::too_many_states()),
    }
}
