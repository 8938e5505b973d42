//! What the program answers to a command over a script, at a gate.

ghost use Rattle.cluster_run.specs.stream.Workers.{most_stream_workers};
ghost use Rattle.io_edges.specs.Gates.{LetsWorkers};

use io_edges::{Gate, MemorySink, PlainSource};
use ntb_top::{Ended, run_program};
use std::alloc::{AllocError, Global};
use std::sync::Wait;
use std::thread::Threads;

/// More bytes than any text here has.
const TEXT_ROOM: usize = 100_000;

/// Returns the words of a command line. It may be out of memory.
pub(crate) fn words_of(alloc: Global, texts: &[&str]) -> Result<Vec<String>, AllocError> {
    let mut words = Vec::new(alloc);
    for text in texts {
        words.push(String::from_str(alloc, *text)?)?;
    }
    Ok(words)
}

/// Returns what the program answers to a command over a script, and what it wrote. It may be out of memory.
pub(crate) fn answer_to<R: Threads + Wait + Sync, G: Gate>(
    rt: &R,
    alloc: Global,
    command: &str,
    script: &str,
    gate: &G,
) -> Result<(Ended, MemorySink), AllocError>
    requires { LetsWorkers (G.lets gate.now) most_stream_workers }
{
    let words = words_of(alloc, &[command])?;
    let mut source = PlainSource::new(String::from_str(alloc, script)?.into_bytes());
    let mut sink = MemorySink::new(alloc, TEXT_ROOM, TEXT_ROOM, Vec::new(alloc))?;
    let ended = run_program(rt, alloc, &words, &mut source, &mut sink, gate);
    Ok((ended, sink))
}
