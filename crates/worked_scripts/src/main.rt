//! Runs the program on the tests of standard input, and says of each whether its status and its text are those that
//! were worked out by hand.
#![tactic(auto)]

mod faults;
mod runs;
mod sessions;
mod test_input;

use runs::Program;
use std::io;
use std::io::{BufRead, BufReader};
use std::sync::Wait;
use std::thread::Threads;
use test_input::{Test, Way, read_test};

fn main(rt: HostRuntime) -> io::Result<()> {
    let mut input = BufReader::new(rt.alloc(), rt.reader())?;
    let program = Program {
        rt: &rt,
        alloc: rt.alloc(),
    };
    program.tell_tests(&mut input)
}

impl<R: Print + Threads + Wait + Sync> Program<'_, R> {
    // Returns what comes of each test, as long as there is one.
    fn tell_tests<I: BufRead>(&self, input: &mut I) -> io::Result<()> {
        for _ in 0..u64::MAX {
            match read_test(self.alloc, input)? {
                Some(test) => self.tell_test(&test)?,
                None => break,
            }
        }
        Ok(())
    }

    // Returns whether a test has passed, and what else is told of it.
    fn tell_test(&self, test: &Test) -> io::Result<()> {
        tell(self.rt, self.passes(test)?, test.name.as_str())?;
        match test.way {
            Way::Once | Way::Pieces => Ok(()),
            Way::Streams => self.tell_faults(test),
        }
    }
}

// Returns whether what has this name has passed.
fn tell<R: Print>(rt: &R, passed: bool, name: &str) -> io::Result<()> {
    let verdict = if passed { "passed" } else { "FAILED" };
    println!(rt; "{verdict}: {name}")
}
