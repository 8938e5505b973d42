//! How often the program reads from its source and writes to its sink.

ghost use Rattle.std.specs.Prelude.{◌≤◌};

use crate::answers::words_of;
use io_edges::{Failed, MemorySink, MemorySource, NoGate, Sink, Source};
use ntb_top::run_program;
use std::alloc::{AllocError, Global};
use std::sync::Wait;
use std::test::Fail;
use std::thread::Threads;

/// A script of 51 bytes.
const SCRIPT: &str = "ntb 1
host a
host b
pair p a b up
steps
look p B 0
";

/// What `replay` answers to it, of 12 bytes.
const TEXT: &str = "6 empty
end
";

/// More bytes than any text here has.
const PIECE_ROOM: usize = 1_000;

/// A source that counts its reads.
#[derive(Drop)]
struct CountedSource {
    inner: MemorySource,
    reads: usize,
}

impl Source for CountedSource {
    ghost use Rattle.std.specs.Prelude.{Some};

    ghost left = { λ source. Some source.inner.left };

    ghost faults = { λ source. source.inner.plan.faults };

    fn read(&mut self, out: &mut [u8]) -> Result<usize, Failed> {
        self.reads = self.reads.saturating_add(1);
        self.inner.read(out)
    }
}

/// A sink that counts its writes.
#[derive(Drop)]
struct CountedSink {
    inner: MemorySink,
    writes: usize,
}

impl Sink for CountedSink {
    ghost use Rattle.std.specs.Prelude.{Some};

    ghost held = { λ sink. Some sink.inner.held };

    ghost faults = { λ sink. sink.inner.plan.faults };

    fn write(&mut self, bytes: &[u8]) -> Result<usize, Failed> {
        self.writes = self.writes.saturating_add(1);
        self.inner.write(bytes)
    }
}

/// What a command over the script came to, in pieces.
#[derive(Drop)]
struct Counts {
    status: u8,
    reads: usize,
    writes: usize,
    written: Vec<u8>,
}

// Returns what words over the script come to, if the source gives and the sink takes at most this many bytes a call. It
// may be out of memory.
fn counts_of<R: Threads + Wait + Sync>(
    rt: &R,
    alloc: Global,
    words: &[&str],
    piece: usize,
) -> Result<Counts, AllocError>
    requires { 1 ≤ piece }
{
    let words = words_of(alloc, words)?;
    let script = String::from_str(alloc, SCRIPT)?.into_bytes();
    let sink = MemorySink::new(alloc, PIECE_ROOM, piece, Vec::new(alloc))?;
    let mut sink = CountedSink {
        inner: sink,
        writes: 0,
    };
    let mut source = CountedSource {
        inner: MemorySource::new(script, piece, Vec::new(alloc)),
        reads: 0,
    };
    let status = run_program(rt, alloc, &words, &mut source, &mut sink, &NoGate).status;
    Ok(Counts {
        status,
        reads: source.reads,
        writes: sink.writes,
        written: Vec::from_slice(alloc, sink.inner.held())?,
    })
}

// Returns whether the script is read in as many pieces of this many bytes as it has, and then its end once. Its text
// has to be written in as many as it has. It may be out of memory.
fn is_taken_in<R: Threads + Wait + Sync>(
    rt: &R,
    alloc: Global,
    piece: usize,
) -> Result<bool, AllocError>
    requires { 1 ≤ piece }
{
    let counts = counts_of(rt, alloc, &["replay"], piece)?;
    Ok(
        counts.status == 0
            && counts.written.as_slice() == TEXT.as_bytes()
            && counts.reads <= SCRIPT.len().div_ceil(piece).saturating_add(1)
            && counts.writes <= TEXT.len().div_ceil(piece),
    )
}

// Pieces of a byte, some that divide script or text, some a byte off, and one larger than both.
#[test]
fn streams_are_taken_in_pieces(rt: HostRuntime) -> Result<(), Fail> {
    assert!(rt; is_taken_in(&rt, rt.alloc(), 1)?);
    assert!(rt; is_taken_in(&rt, rt.alloc(), 5)?);
    assert!(rt; is_taken_in(&rt, rt.alloc(), 12)?);
    assert!(rt; is_taken_in(&rt, rt.alloc(), 50)?);
    assert!(rt; is_taken_in(&rt, rt.alloc(), 51)?);
    assert!(rt; is_taken_in(&rt, rt.alloc(), PIECE_ROOM)?);
    Ok(())
}

// Words that are no command, and those of a command without a script, read nothing.
#[test]
fn others_read_nothing(rt: HostRuntime) -> Result<(), Fail> {
    let none = counts_of(&rt, rt.alloc(), &["reply"], PIECE_ROOM)?;
    assert!(rt; none.status == 2 && none.written.as_slice() == b"usage\n".as_slice());
    let load = counts_of(&rt, rt.alloc(), &["load", "1", "1"], PIECE_ROOM)?;
    assert!(rt; load.status == 0 && load.written.starts_with(b"load 1 1 ".as_slice()));
    assert!(rt; none.reads == 0 && load.reads == 0);
    assert!(rt; none.writes == 1 && load.writes == 1);
    Ok(())
}
