//! The reply of `trace`.

ghost use Rattle.std.specs.Prelude.{◌≤◌, IfOk, length};
ghost use Rattle.step_kinds.specs.Limits.{most_script_bytes};
ghost use Rattle.trace_command.specs.Answers.{IsTraceOf};

use crate::trace::trace_text;
use command_reply::Reply;
use script_text::{ParseError, read_script};
use std::alloc::{AllocError, Global};

/// Returns the reply of `trace` to a script of at most 16,777,216 bytes. It is the trace of the plan that the script
/// declares, with status 0, or says the first line with a fault, with status 3. Returns an error if memory runs out.
pub fn trace_reply(alloc: Global, bytes: &[u8]) -> Result<Reply, AllocError>
    requires { length bytes.now ≤ most_script_bytes }
    ensures { IfOk result (λ reply. IsTraceOf bytes.now reply) }
{
    match read_script(alloc, bytes) {
        Ok(script) => Ok(Reply::done(trace_text(alloc, &script)?)),
        Err(ParseError::Fault(fault)) => Ok(Reply::refused(fault)),
        Err(ParseError::OutOfMemory) => Err(AllocError),
    }
}
