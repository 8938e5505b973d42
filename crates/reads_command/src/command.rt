//! The command `reads`.

ghost use Rattle.std.specs.Prelude.{◌≤◌, IfOk, length};
ghost use Rattle.step_kinds.specs.Limits.{most_script_bytes};
ghost use Rattle.reads_command.specs.Answers.{IsReadsOf};

use crate::reply::{ReadsError, reads_text};
use command_reply::Reply;
use std::alloc::{AllocError, Global};

/// Returns the reply of `reads` to a text of at most 16,777,216 bytes. With status 0 it is a line `LINE ANSWER` for
/// each step, and `end`. With status 3 it is `refused line L badline`, for the first bad line. If the status is 0, each
/// read in the log of the steps has pushed the posted writes before it. Returns an error if memory runs out.
pub fn reads_reply(alloc: Global, bytes: &[u8]) -> Result<Reply, AllocError>
    requires { length bytes.now ≤ most_script_bytes }
    ensures { IfOk result (IsReadsOf bytes.now) }
{
    match reads_text(alloc, bytes) {
        Ok(text) => Ok(Reply::done(text)),
        Err(ReadsError::BadLine { line }) => Ok(Reply::refused_at(line, "badline")),
        Err(ReadsError::OutOfMemory) => Err(AllocError),
    }
}
