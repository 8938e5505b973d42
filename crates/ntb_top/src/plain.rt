//! The program on all words but those of `run` and of `stream`.

ghost use Rattle.std.specs.Prelude.{◌≤◌, IfOk, IfSome, length, map, option_map};
ghost use Rattle.std.specs.String.{string_bytes};
ghost use Rattle.step_kinds.specs.Limits.{most_script_bytes};
ghost use Rattle.ntb_top.specs.Answers.{IsAnswerTo, IsReplyOf};
ghost use Rattle.ntb_top.specs.Commands.{IsInRange, IsPlain, command_of as command_by_words, is_reading};
ghost use Rattle.ntb_top.specs.Inputs.{HasReplied, HasWritten};
ghost use Rattle.ntb_top.specs.Runs.{HasAnswered, HasRun};
ghost use Rattle.ntb_top.specs.declared.command.Command.TheVariants.{Plain};

use crate::check::check_reply;
use crate::command::{PlainCommand, plain_of};
use crate::input::{Input, Stop, read_input};
use command_reply::{Reply, Status};
use explore_command::explore_reply;
use io_edges::{Sink, Source, WriteFault, write_all};
use reads_command::reads_reply;
use replay_command::{load_reply, replay_reply};
use std::alloc::{AllocError, Global};
use trace_command::trace_reply;

/// Does all that [`run_program`](crate::run_program) does on words that aren't `run` or `stream`, without threads, and
/// returns the exit status. Each read but the last gives a byte, and each write but a failed last one takes a byte. It
/// always returns.
pub fn plain_program<S: Source, K: Sink>(
    alloc: Global,
    words: &[String],
    source: &mut S,
    sink: &mut K,
) -> u8
    requires { IsPlain (command_by_words (map string_bytes words.now)) }
    ensures { HasRun (map string_bytes words.now)
        (record {
          left = S.left source.old;
          read_faults = S.faults source.old;
          reads = S.reads source.old;
          held = K.held sink.old;
          write_faults = K.faults sink.old;
          writes = K.writes sink.old;
        })
        (record {
          left = S.left source.new;
          read_faults = S.faults source.new;
          reads = S.reads source.new;
          held = K.held sink.new;
          write_faults = K.faults sink.new;
          writes = K.writes sink.new;
        })
        result }
{
    run_plain(alloc, plain_of(words), source, sink)
}

/// Runs the program on a command that takes no thread, or on words that are no command.
pub(crate) fn run_plain<S: Source, K: Sink>(
    alloc: Global,
    command: Option<PlainCommand>,
    source: &mut S,
    sink: &mut K,
) -> u8
    requires { IfSome (option_map Plain command) IsInRange }
    ensures { HasAnswered (is_reading (option_map Plain command)) (IsAnswerTo (option_map Plain command))
        (record {
          left = S.left source.old;
          read_faults = S.faults source.old;
          reads = S.reads source.old;
          held = K.held sink.old;
          write_faults = K.faults sink.old;
          writes = K.writes sink.old;
        })
        (record {
          left = S.left source.new;
          read_faults = S.faults source.new;
          reads = S.reads source.new;
          held = K.held sink.new;
          write_faults = K.faults sink.new;
          writes = K.writes sink.new;
        })
        result }
{
    match reply_to(alloc, command, source) {
        Ok(reply) => write_reply(sink, &reply),
        Err(Stop::SourceFailed) => Status::SourceFailed.number(),
        Err(Stop::OutOfMemory) => Status::OutOfMemory.number(),
    }
}

// Returns the reply to a command, or to words that are none, over this source.
fn reply_to<S: Source>(
    alloc: Global,
    command: Option<PlainCommand>,
    source: &mut S,
) -> Result<Reply, Stop>
    requires { IfSome (option_map Plain command) IsInRange }
    ensures { HasReplied (is_reading (option_map Plain command)) (IsAnswerTo (option_map Plain command))
        (record { left = S.left source.old; faults = S.faults source.old; reads = S.reads source.old })
        (record { left = S.left source.new; faults = S.faults source.new; reads = S.reads source.new }) result }
{
    match command {
        None => Ok(Reply::usage()),
        Some(command) => match read_input(alloc, command.reads(), source)? {
            Input::Whole(bytes) => Ok(reply_of(alloc, command, &bytes)?),
            Input::TooLong => Ok(Reply::too_long()),
        },
    }
}

// Returns the reply of a command to the bytes that it read. Returns an error if memory runs out.
fn reply_of(alloc: Global, command: PlainCommand, bytes: &[u8]) -> Result<Reply, AllocError>
    requires range { IsInRange (Plain command) }
    requires few { length bytes.now ≤ most_script_bytes }
    ensures { IfOk result (λ reply. IsReplyOf (Plain command) bytes.now reply) }
{
    match command {
        PlainCommand::Replay => replay_reply(alloc, bytes),
        PlainCommand::Load { seed, frames } => load_reply(alloc, seed, frames),
        PlainCommand::Reads => reads_reply(alloc, bytes),
        PlainCommand::Trace => trace_reply(alloc, bytes),
        PlainCommand::Check => check_reply(alloc, bytes),
        PlainCommand::Explore => explore_reply(alloc, bytes),
    }
}

/// Writes a reply, and returns its status, or that the sink failed. Each write but a failed last one takes a byte.
pub(crate) fn write_reply<K: Sink>(sink: &mut K, reply: &Reply) -> u8
    ensures { HasWritten (record { held = K.held sink.old; faults = K.faults sink.old; writes = K.writes sink.old })
        (record { held = K.held sink.new; faults = K.faults sink.new; writes = K.writes sink.new }) reply.now result }
{
    match write_all(sink, reply.text()) {
        Ok(()) => reply.status(),
        Err(WriteFault) => Status::SinkFailed.number(),
    }
}
