//! The reply to a text of reads.

ghost use Rattle.std.specs.Prelude.{◌≡◌, ◌≤◌, ◌++◌, length, OnOk};
ghost use Rattle.step_kinds.specs.Limits.{most_script_bytes, most_steps};
ghost use Rattle.script_words.specs.Reads.{result_map};
ghost use Rattle.reads_command.specs.Lines.{reads_line_gives};
ghost use Rattle.reads_command.specs.Report.{reply_to};
ghost use Rattle.reads_command.specs.Replies.{AddsReadsLine, Replies, TextPushed, reply_seen};

use crate::answers::{make_step, push_line};
use crate::lines::read_line;
use read_path::Path;
use read_path::laws::each_read_has_pushed;
use report_text::append::push_word;
use script_text::lines::{cut, without_return};
use script_words::ReadError;
use std::alloc::{AllocError, Global};
use thiserror::Error;

/// Why a text of reads has no reply.
#[derive(Clone, Copy, Debug, PartialEq, Eq, Error)]
pub enum ReadsError {
    /// This line, counted from 1, is the first that is no line of such a text: none of its forms, outside its numbers'
    /// ranges, or the step after the millionth. Line 1 where there is no byte.
    #[error("line {line} is bad")]
    BadLine { line: u32 },
    /// There is no memory for the reply. Nothing is said of the text.
    #[error("out of memory")]
    OutOfMemory,
}

impl From<AllocError> for ReadsError {
    ghost use Rattle.std.specs.Prelude.{◌≡◌};
    ghost use Rattle.reads_command.specs.declared.reply.ReadsError.TheVariants.{OutOfMemory};

    ghost from_gives = { λ _ error. error ≡ OutOfMemory };

    fn from(_: AllocError) -> ReadsError {
        ReadsError::OutOfMemory
    }
}

/// The steps so far: how many there are, the path after them, and the lines of their answers.
#[derive(Drop)]
struct Reply {
    steps: usize,
    path: Path,
    text: Vec<u8>,
}

impl Reply {
    /// Adds what line `number` gives: its step is made, and its answer added. Its words are read into `words`.
    fn add_line<'a>(
        &mut self,
        alloc: Global,
        number: u32,
        words: &mut Vec<&'a [u8]>,
        line: &'a [u8],
    ) -> Result<(), ReadsError>
        requires { self.old.steps ≤ most_steps }
        ensures few { self.new.steps ≤ most_steps }
        ensures adds { AddsReadsLine number (reply_seen self.old) (reply_seen self.new) result (reads_line_gives number self.old.steps line.now) }
    {
        let step = match read_line(alloc, number, self.steps, words, line) {
            Ok(None) => return Ok(()),
            Ok(Some(step)) => step,
            Err(ReadError::Fault(_)) => return Err(ReadsError::BadLine { line: number }),
            Err(ReadError::OutOfMemory) => return Err(ReadsError::OutOfMemory),
        };
        let answer = make_step(&mut self.path, &step)?;
        push_line(&mut self.text, number, &answer)?;
        self.steps += 1;
        Ok(())
    }
}

/// The reply to a text of reads of at most 16,777,216 bytes: a line `LINE ANSWER` for each step, and `end`. In the log
/// of its steps each read has pushed the posted writes before it. Each step costs what it touches.
///
/// # Errors
///
/// [`ReadsError::BadLine`] exactly for the first bad line; [`ReadsError::OutOfMemory`] if memory runs out.
pub fn reads_text(alloc: Global, bytes: &[u8]) -> Result<Vec<u8>, ReadsError>
    requires { length bytes.now ≤ most_script_bytes }
    ensures reply { Replies (result_map (λ text. text.items) result) (reply_to bytes.now) }
    ensures pushed { OnOk result (TextPushed bytes.now) }
{
    let mut reply = Reply {
        steps: 0,
        path: Path::new(alloc)?,
        text: Vec::new(alloc),
    };
    let mut words = Vec::new(alloc);
    let mut number = 1;
    let mut rest = Some(bytes);
    while let Some(text) = rest {
        let (line, more) = cut(text, b'\n');
        reply.add_line(alloc, number, &mut words, without_return(line))?;
        number += 1;
        rest = more;
    }
    push_word(&mut reply.text, "end\n")?;
    each_read_has_pushed();
    Ok(reply.text)
}
