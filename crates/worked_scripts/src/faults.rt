//! Runs over streams that fail, over scripts that are cut, over other words and over an input that is too long.

ghost use Rattle.std.specs.Prelude.{◌<◌, length};

use crate::runs::{End, Program, Streams};
use crate::tell;
use crate::test_input::Test;
use std::alloc::AllocError;
use std::io;
use std::sync::Wait;
use std::thread::Threads;

/// One byte more than a script may have.
const TOO_MANY: usize = 16_777_217;

/// The bytes that a failing stream gives or takes at a call.
const FAILING_PIECE: usize = 8;

/// More calls than a stream of such pieces has.
const CALLS: u64 = 1_000;

impl<R: Print + Threads + Wait + Sync> Program<'_, R> {
    /// Says what failing streams, cut scripts, other words and long inputs are answered, by a test of a replay.
    ///
    /// # Errors
    ///
    /// Those of writing, and out of memory.
    pub fn tell_faults(&self, test: &Test) -> io::Result<()> {
        tell(self.rt, self.tells_reads(test)?, "failing-source")?;
        tell(self.rt, self.tells_writes(test)?, "failing-sink")?;
        tell(self.rt, self.tells_cuts(test)?, "cut-script")?;
        tell(self.rt, self.tells_other_words()?, "other-words")?;
        tell(self.rt, self.tells_long_input(test)?, "input-too-long")
    }
}

impl<R: Threads + Wait + Sync> Program<'_, R> {
    // Whether, for each call that is made, a source that fails there is answered with status 4 and nothing is written.
    // If the call isn't made, the test's status has to come. More calls have to fail than the script has pieces.
    fn tells_reads(&self, test: &Test) -> Result<bool, AllocError> {
        for call in 0..CALLS {
            let streams = Streams {
                piece: FAILING_PIECE,
                read_fails: Some(call),
                write_fails: None,
            };
            let end = self.run(&test.words, &test.script, streams)?;
            if end.status == test.status {
                return Ok(call > test.script.len() as u64 / FAILING_PIECE as u64);
            }
            if end.status != 4 || !end.text.is_empty() {
                return Ok(false);
            }
        }
        Ok(false)
    }

    // Whether, for each call that is made, a sink that fails there is answered with status 5 and keeps a front of the
    // text, a piece for each call before. If the call isn't made, the test's status has to come.
    fn tells_writes(&self, test: &Test) -> Result<bool, AllocError> {
        let whole = self.text_of(test, &test.script)?;
        let mut kept = 0usize;
        for call in 0..CALLS {
            let streams = Streams {
                piece: FAILING_PIECE,
                read_fails: None,
                write_fails: Some(call),
            };
            let end = self.run(&test.words, &test.script, streams)?;
            if end.status == test.status {
                return Ok(kept >= whole.len());
            }
            if end.status != 5 || end.text.len() != kept || !whole.starts_with(&end.text) {
                return Ok(false);
            }
            kept = kept.saturating_add(FAILING_PIECE);
        }
        Ok(false)
    }

    // Returns whether the test's script, cut after each of its line feeds, is a script, and gives the same text without
    // its last line feed.
    fn tells_cuts(&self, test: &Test) -> Result<bool, AllocError> {
        let mut passed = true;
        for (place, byte) in test.script.iter().enumerate() {
            if *byte == b'\n' {
                passed = passed && self.tells_cut(test, place)?;
            }
        }
        Ok(passed)
    }

    // Returns whether a script that is cut after a line feed is a script, and gives the same text without it.
    fn tells_cut(&self, test: &Test, place: usize) -> Result<bool, AllocError>
        requires { place < length test.now.script.items }
    {
        let cut = self.text_of(test, &test.script[..place + 1])?;
        let unended = self.text_of(test, &test.script[..place])?;
        Ok(cut.ends_with(b"end\n".as_slice()) && unended == cut)
    }

    // Returns whether words that are no command are answered with `usage` and status 2.
    fn tells_other_words(&self) -> Result<bool, AllocError> {
        let words = vec![in self.alloc; String::from_str(self.alloc, "reply")?]?;
        let end = self.run(&words, &[], Streams::of_pieces(FAILING_PIECE))?;
        Ok(is_end(&end, 2, b"usage\n"))
    }

    // Returns whether an input of a byte too many is answered with `too long` and status 7.
    fn tells_long_input(&self, test: &Test) -> Result<bool, AllocError> {
        let comment = vec![in self.alloc; b'#'; TOO_MANY]?;
        let end = self.run(&test.words, &comment, Streams::of_pieces(TOO_MANY))?;
        Ok(is_end(&end, 7, b"too long\n"))
    }

    // Returns what is written to a script.
    fn text_of(&self, test: &Test, script: &[u8]) -> Result<Vec<u8>, AllocError> {
        let end = self.run(&test.words, script, Streams::of_pieces(FAILING_PIECE))?;
        Ok(end.text)
    }
}

fn is_end(end: &End, status: u8, text: &[u8]) -> bool {
    end.status == status && end.text.as_slice() == text
}
