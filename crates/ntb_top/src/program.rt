//! The top call.

ghost use Rattle.std.specs.Prelude.{◌≡◌, IfSome, Some, map, option_map, true};
ghost use Rattle.std.specs.String.{string_bytes};
ghost use Rattle.io_edges.specs.Gates.{LetsWorkers};
ghost use Rattle.cluster_run.specs.stream.Workers.{most_stream_workers};
ghost use Rattle.command_reply.specs.Statuses.{number_of};
ghost use Rattle.command_reply.specs.declared.status.Status.TheVariants.{Done};
ghost use Rattle.traffic_command.specs.Replies.{carried_by};
ghost use Rattle.ntb_top.specs.Answers.{IsRunAnswerTo};
ghost use Rattle.ntb_top.specs.Commands.{IsInRange, command_of as command_by_words};
ghost use Rattle.ntb_top.specs.Ends.{HasEnded, beside_of, beside_run, nothing_beside};
ghost use Rattle.ntb_top.specs.Inputs.{HasReplied, HasWritten};
ghost use Rattle.ntb_top.specs.declared.command.Command.TheVariants.{Plain, Threaded};
ghost use Rattle.ntb_top.specs.declared.command.ThreadedCommand.TheVariants.{Run};

use crate::command::{Command, PlainCommand, ThreadedCommand, command_of};
use crate::ended::Ended;
use crate::input::{Input, Stop, read_input};
use crate::plain::{run_plain, write_reply};
use crate::streams::stream_traffic;
use command_reply::{Reply, Status};
use io_edges::{Gate, Sink, Source};
use std::alloc::Global;
use std::sync::Wait;
use std::thread::Threads;
use step_kinds::RunRecord;
use traffic_command::{TrafficReply, run_reply};

/// Does all that the program does, and returns the exit status. It reads its input from the source where the words are
/// a command that reads, and writes one text to the sink. Each read but the last gives a byte, and each write but a
/// failed last one takes a byte. On words that aren't `run` or `stream` it does what
/// [`plain_program`](crate::plain_program) does. On these two each worker passes the gate before each of its turns, and
/// the end has the record whose text was written, with the proofs of its sessions.
///
/// The gate has to let all workers with numbers below 524,280 pass, before each turn with a number below 2^64.
///
/// | status | cause | text |
/// |---|---|---|
/// | 0 | none of the others | what the command writes, as [`PlainCommand`] and [`ThreadedCommand`] say |
/// | 2 | the words are no command | `usage` |
/// | 3 | a line of the input has a fault | `refused line L CAUSE`; of `reads`, whose cause is always `badline`; of `check` with the word and the range |
/// | 4 | the source failed | nothing |
/// | 5 | the sink failed | a part from the front of the text |
/// | 6 | out of memory | nothing |
/// | 7 | the input has more than 16,777,216 bytes | `too long` |
/// | 8 | the schedules of `explore` reach more than 1,000,000 states | `too many states` |
///
/// The order is words, reading, parsing, work, writing: the text is whole before its first byte is written.
pub fn run_program<R: Threads + Wait + Sync, S: Source, K: Sink, G: Gate>(
    rt: &R,
    alloc: Global,
    words: &[String],
    source: &mut S,
    sink: &mut K,
    gate: &G,
) -> Ended
    requires { LetsWorkers (G.lets gate.now) most_stream_workers }
    ensures { HasEnded (command_by_words (map string_bytes words.now))
        (record {
          left = S.left source.old;
          read_faults = S.faults source.old;
          reads = S.reads source.old;
          held = K.held sink.old;
          write_faults = K.faults sink.old;
          writes = K.writes sink.old;
        })
        (record {
          left = S.left source.new;
          read_faults = S.faults source.new;
          reads = S.reads source.new;
          held = K.held sink.new;
          write_faults = K.faults sink.new;
          writes = K.writes sink.new;
        })
        result.status (beside_of result) }
{
    match command_of(words) {
        Some(Command::Plain(command)) => plain_end(alloc, Some(command), source, sink),
        Some(Command::Threaded(ThreadedCommand::Run)) => {
            run_traffic(rt, alloc, source, sink, gate)
        }
        Some(Command::Threaded(ThreadedCommand::Stream)) => {
            stream_traffic(rt, alloc, source, sink, gate)
        }
        None => plain_end(alloc, None, source, sink),
    }
}

// Runs the program on a command that takes no thread, or on words that are no command.
fn plain_end<S: Source, K: Sink>(
    alloc: Global,
    command: Option<PlainCommand>,
    source: &mut S,
    sink: &mut K,
) -> Ended
    requires { IfSome (option_map Plain command) IsInRange }
    ensures { HasEnded (option_map Plain command)
        (record {
          left = S.left source.old;
          read_faults = S.faults source.old;
          reads = S.reads source.old;
          held = K.held sink.old;
          write_faults = K.faults sink.old;
          writes = K.writes sink.old;
        })
        (record {
          left = S.left source.new;
          read_faults = S.faults source.new;
          reads = S.reads source.new;
          held = K.held sink.new;
          write_faults = K.faults sink.new;
          writes = K.writes sink.new;
        })
        result.status (beside_of result) }
{
    Ended::alone(alloc, run_plain(alloc, command, source, sink))
}

// Runs the program on the word `run`.
fn run_traffic<R: Threads + Wait + Sync, S: Source, K: Sink, G: Gate>(
    rt: &R,
    alloc: Global,
    source: &mut S,
    sink: &mut K,
    gate: &G,
) -> Ended
    requires { LetsWorkers (G.lets gate.now) most_stream_workers }
    ensures { HasEnded (Some (Threaded Run))
        (record {
          left = S.left source.old;
          read_faults = S.faults source.old;
          reads = S.reads source.old;
          held = K.held sink.old;
          write_faults = K.faults sink.old;
          writes = K.writes sink.old;
        })
        (record {
          left = S.left source.new;
          read_faults = S.faults source.new;
          reads = S.reads source.new;
          held = K.held sink.new;
          write_faults = K.faults sink.new;
          writes = K.writes sink.new;
        })
        result.status (beside_of result) }
{
    match run_of_input(rt, alloc, source, gate) {
        Ok(run) => written(alloc, sink, run),
        Err(Stop::SourceFailed) => Ended::alone(alloc, Status::SourceFailed.number()),
        Err(Stop::OutOfMemory) => Ended::alone(alloc, Status::OutOfMemory.number()),
    }
}

// The reply of `run` to what the source has.
fn run_of_input<R: Threads + Wait + Sync, S: Source, G: Gate>(
    rt: &R,
    alloc: Global,
    source: &mut S,
    gate: &G,
) -> Result<TrafficReply<RunRecord>, Stop>
    requires { LetsWorkers (G.lets gate.now) most_stream_workers }
    ensures { HasReplied true (λ bytes run. IsRunAnswerTo bytes run.reply (carried_by run))
        (record { left = S.left source.old; faults = S.faults source.old; reads = S.reads source.old })
        (record { left = S.left source.new; faults = S.faults source.new; reads = S.reads source.new }) result }
{
    match read_input(alloc, true, source)? {
        Input::Whole(bytes) => Ok(run_reply(rt, alloc, &bytes, gate)?),
        Input::TooLong => Ok(TrafficReply {
            reply: Reply::too_long(),
            recorded: None,
            proofs: Vec::new(alloc),
        }),
    }
}

// Writes the reply of `run`. The record and the proofs are answered where the text was written whole and tells of them.
fn written<K: Sink>(alloc: Global, sink: &mut K, run: TrafficReply<RunRecord>) -> Ended
    ensures text { HasWritten (record { held = K.held sink.old; faults = K.faults sink.old; writes = K.writes sink.old })
        (record { held = K.held sink.new; faults = K.faults sink.new; writes = K.writes sink.new }) run.reply result.status }
    ensures told { result.status ≡ number_of Done → beside_of result ≡ beside_run (carried_by run) }
    ensures alone { (result.status ≡ number_of Done → ⊥) → beside_of result ≡ nothing_beside }
{
    let TrafficReply {
        reply,
        recorded,
        proofs,
    } = run;
    let status = write_reply(sink, &reply);
    if status == Status::Done.number() {
        return Ended {
            status,
            runs: recorded,
            streams: None,
            proofs,
        };
    }
    Ended::alone(alloc, status)
}
