//! The arguments of a process.

ghost use Rattle.std.specs.Prelude.{◌≡◌, IfOk, IsErr, drop, map};
ghost use Rattle.std.specs.String.{string_bytes};
ghost use Rattle.std.specs.Vec.Iter.{into_iter_items};
ghost use Rattle.io_edges.specs.Gates.{LetsWorkers};
ghost use Rattle.cluster_run.specs.stream.Workers.{most_stream_workers};
ghost use Rattle.command_reply.specs.Statuses.{number_of};
ghost use Rattle.command_reply.specs.declared.status.Status.TheVariants.{OutOfMemory};
ghost use Rattle.ntb_top.specs.Arguments.{AreWanting, shell_words_of};
ghost use Rattle.ntb_top.specs.Commands.{command_of};
ghost use Rattle.ntb_top.specs.Ends.{HasEnded, beside_of};

use crate::ended::Ended;
use crate::run_program;
use command_reply::Status;
use io_edges::{Gate, Sink, Source};
use std::alloc::{AllocError, Global};
use std::env::Args;
use std::io;
use std::sync::Wait;
use std::thread::Threads;

/// Does all that the program does as a process: [`run_program`] on its arguments but the first, which is its name, and
/// returns its end. Arguments that aren't all text are no command, as no words are. If there is no memory for the
/// arguments it answers status 6, and neither reads nor writes.
///
/// The gate has to let all workers with numbers below 524,280 pass, before each turn with a number below 2^64.
pub fn run_arguments<R: Threads + Wait + Sync, S: Source, K: Sink, G: Gate>(
    rt: &R,
    alloc: Global,
    arguments: io::Result<Args>,
    source: &mut S,
    sink: &mut K,
    gate: &G,
) -> Ended
    requires { LetsWorkers (G.lets gate.now) most_stream_workers }
    ensures run { HasEnded (command_of (shell_words_of arguments))
        (record {
          left = S.left source.old;
          read_faults = S.faults source.old;
          reads = S.reads source.old;
          held = K.held sink.old;
          write_faults = K.faults sink.old;
          writes = K.writes sink.old;
        })
        (record {
          left = S.left source.new;
          read_faults = S.faults source.new;
          reads = S.reads source.new;
          held = K.held sink.new;
          write_faults = K.faults sink.new;
          writes = K.writes sink.new;
        })
        result.status (beside_of result) }
    ensures wanting { AreWanting arguments → result.status ≡ number_of OutOfMemory }
{
    match words_after_name(alloc, arguments) {
        Ok(words) => run_program(rt, alloc, &words, source, sink, gate),
        Err(AllocError) => Ended::alone(alloc, Status::OutOfMemory.number()),
    }
}

// Returns the words of a process's arguments. Returns an error if memory runs out.
fn words_after_name(alloc: Global, arguments: io::Result<Args>) -> Result<Vec<String>, AllocError>
    ensures words { IfOk result (λ words. map string_bytes words.items ≡ shell_words_of arguments) }
    ensures wanting { AreWanting arguments → IsErr result }
{
    match arguments {
        Ok(arguments) => all_but_first(alloc, arguments),
        Err(error) if error.kind() == io::ErrorKind::OutOfMemory => Err(AllocError),
        Err(_) => Ok(Vec::new(alloc)),
    }
}

// Returns all arguments but the first.
fn all_but_first(alloc: Global, arguments: Args) -> Result<Vec<String>, AllocError>
    ensures { IfOk result (λ words. words.items ≡ drop 1 (into_iter_items arguments)) }
{
    arguments.skip(1).collect(alloc)
}
