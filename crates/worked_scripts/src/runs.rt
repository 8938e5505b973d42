//! Runs of the program over memory.

use crate::sessions::are_sessions;
use crate::test_input::{Kind, Test, Wanted, Way};
use io_edges::{MemorySink, MemorySource, NoGate};
use ntb_top::run_program;
use std::alloc::{AllocError, Global};
use std::sync::Wait;
use std::thread::Threads;

/// More bytes than any text has.
const MOST_TEXT: usize = 8_000_000;

/// The program, with the handle and the memory that its runs take.
#[derive(Drop)]
pub struct Program<'a, R> {
    pub rt: &'a R,
    pub alloc: Global,
}

/// How the streams of a run are: the bytes that each call gives or takes, and the calls that fail.
#[derive(Clone, Copy)]
pub struct Streams {
    pub piece: usize,
    pub read_fails: Option<u64>,
    pub write_fails: Option<u64>,
}

impl Streams {
    /// Streams without an error.
    pub fn of_pieces(piece: usize) -> Streams {
        Streams {
            piece,
            read_fails: None,
            write_fails: None,
        }
    }
}

/// How the program ended: its status, and the text that it wrote.
#[derive(Drop)]
pub struct End {
    pub status: u8,
    pub text: Vec<u8>,
}

impl<R: Threads + Wait + Sync> Program<'_, R> {
    /// Returns whether the program answers a test's status and writes what is wanted, in whatever pieces its input and
    /// its output come. It may be out of memory.
    pub fn passes(&self, test: &Test) -> Result<bool, AllocError> {
        match test.way {
            Way::Once => self.passes_in_pieces(test, MOST_TEXT),
            Way::Pieces | Way::Streams => {
                let mut passed = true;
                for piece in [1usize, 7, 8, MOST_TEXT] {
                    passed = passed && self.passes_in_pieces(test, piece)?;
                }
                Ok(passed)
            }
        }
    }

    fn passes_in_pieces(&self, test: &Test, piece: usize) -> Result<bool, AllocError> {
        let end = self.run(&test.words, &test.script, Streams::of_pieces(piece))?;
        Ok(end.status == test.status && has_all(self.alloc, &end.text, &test.wanted)?)
    }

    /// Runs it on these words and this input. It may be out of memory.
    pub fn run(
        &self,
        words: &[String],
        script: &[u8],
        streams: Streams,
    ) -> Result<End, AllocError> {
        let Program { rt, alloc } = *self;
        let bytes = Vec::from_slice(alloc, script)?;
        let failing_reads = calls_of(alloc, streams.read_fails)?;
        let failing_writes = calls_of(alloc, streams.write_fails)?;
        let mut source = MemorySource::new(bytes, streams.piece.max(1), failing_reads);
        let mut sink = MemorySink::new(alloc, MOST_TEXT, streams.piece, failing_writes)?;
        let status = run_program(rt, alloc, words, &mut source, &mut sink, &NoGate).status;
        Ok(End {
            status,
            text: Vec::from_slice(alloc, sink.held())?,
        })
    }
}

fn calls_of(alloc: Global, call: Option<u64>) -> Result<Vec<u64>, AllocError> {
    let mut calls = Vec::new(alloc);
    if let Some(call) = call {
        calls.push(call)?;
    }
    Ok(calls)
}

// Returns whether a text has all that is wanted of it.
fn has_all(alloc: Global, text: &[u8], wanted: &[Wanted]) -> Result<bool, AllocError> {
    let mut passed = true;
    for one in wanted {
        passed = passed && has(alloc, text, one)?;
    }
    Ok(passed)
}

fn has(alloc: Global, text: &[u8], wanted: &Wanted) -> Result<bool, AllocError> {
    let (Ok(came), Ok(due)) = (std::str::from_utf8(text), std::str::from_utf8(&wanted.text)) else {
        return Ok(false);
    };
    match wanted.kind {
        Kind::Whole => Ok(came == due),
        Kind::Part => Ok(has_lines(text, &wanted.text)),
        Kind::Answers => has_answers(alloc, came, due),
        Kind::Ending => Ok(has_ending(came, due)),
        Kind::Sessions => are_sessions(alloc, came, due),
    }
}

// Returns whether these lines stand in a text, one after the other, from the start of a line on.
fn has_lines(text: &[u8], lines: &[u8]) -> bool {
    text.starts_with(lines)
        || text.windows(lines.len() + 1).any(|window| window.first() == Some(&b'\n')
            && window.ends_with(lines))
}

// Returns whether all lines of a text whose first words stand at the head of a wanted line are the wanted ones.
fn has_answers(alloc: Global, text: &str, wanted: &str) -> Result<bool, AllocError> {
    let numbers: Vec<&str> = wanted.lines().map(first_word).collect(alloc)?;
    let mut left = wanted.lines();
    let mut passed = true;
    for line in text.lines() {
        if numbers.contains(&first_word(line)) {
            passed = passed && left.next() == Some(line);
        }
    }
    Ok(passed && left.next().is_none())
}

// Returns whether all lines of a text that begin with no number, but for `end`, are the wanted ones.
fn has_ending(text: &str, wanted: &str) -> bool {
    let mut left = wanted.lines();
    let mut passed = true;
    for line in text.lines() {
        if line != "end" && first_word(line).parse::<u32>().is_err() {
            passed = passed && left.next() == Some(line);
        }
    }
    passed && left.next().is_none()
}

fn first_word(line: &str) -> &str {
    match line.split_once(' ') {
        Some((word, _)) => word,
        None => line,
    }
}
