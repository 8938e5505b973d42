//! The tests on standard input.
//!
//! A test is a line `NAME WAY STATUS COMMAND`, which goes on with `KIND COUNT LENGTH` for each part, and behind it the
//! bytes of the parts. COMMAND has its words with commas between them. A part `script` adds its bytes COUNT times to
//! the input, and each other one is wanted of the text.

use std::alloc::{AllocError, Global};
use std::io;
use std::io::{BufRead, ErrorKind};

/// How a test is run.
#[derive(Clone, Copy)]
pub enum Way {
    /// Once.
    Once,
    /// Over streams that give and take pieces, of several sizes.
    Pieces,
    /// So, and over streams that fail.
    Streams,
}

/// What is wanted of the text that the program writes.
#[derive(Clone, Copy)]
pub enum Kind {
    /// The text is this.
    Whole,
    /// These lines stand in it, one after the other.
    Part,
    /// Of each line of the script that is answered here, these are all answers, in their order.
    Answers,
    /// Of the lines that answer no line of the script, these are all but `end`.
    Ending,
    /// It is that of a run with these lanes and sessions.
    Sessions,
}

/// A text that is wanted.
#[derive(Drop)]
pub struct Wanted {
    pub kind: Kind,
    pub text: Vec<u8>,
}

/// A test: the input and the words of the command, the status that the program has to answer, and what it has to write.
#[derive(Drop)]
pub struct Test {
    pub name: String,
    pub way: Way,
    pub status: u8,
    pub words: Vec<String>,
    pub script: Vec<u8>,
    pub wanted: Vec<Wanted>,
}

/// Returns the next test, if there is one.
///
/// # Errors
///
/// `InvalidData` where what stands there is no test, and the errors of reading.
pub fn read_test<I: BufRead>(alloc: Global, input: &mut I) -> io::Result<Option<Test>> {
    let mut head = String::new(alloc);
    if input.read_line(&mut head)? == 0 {
        return Ok(None);
    }
    let words: Vec<&str> = head.trim_end().split(' ').collect(alloc)?;
    match words.as_slice() {
        [name, way, status, command, parts @ ..] => {
            let mut test = Test {
                name: String::from_str(alloc, name)?,
                way: way_of(way)?,
                status: status.parse::<u8>().map_err(|_| no_test())?,
                words: words_of(alloc, command)?,
                script: Vec::new(alloc),
                wanted: Vec::new(alloc),
            };
            test.take_parts(alloc, input, parts)?;
            Ok(Some(test))
        }
        _ => Err(no_test()),
    }
}

impl Test {
    // Takes the bytes of each part, which has three words.
    fn take_parts<I: BufRead>(
        &mut self,
        alloc: Global,
        input: &mut I,
        parts: &[&str],
    ) -> io::Result<()> {
        for part in parts.chunks(3) {
            let [kind, count, length] = part else {
                return Err(no_test());
            };
            let bytes = read_bytes(alloc, input, number_of(length)?)?;
            self.take_part(kind, number_of(count)?, bytes)?;
        }
        Ok(())
    }

    // Adds bytes to the script this many times, or the text that they are to what is wanted.
    fn take_part(&mut self, kind: &str, count: u32, bytes: Vec<u8>) -> io::Result<()> {
        match kind_of(kind) {
            Some(kind) => self.wanted.push(Wanted { kind, text: bytes })?,
            None if kind == "script" => {
                for _ in 0..count {
                    self.script.extend_from_slice(&bytes)?;
                }
            }
            None => return Err(no_test()),
        }
        Ok(())
    }
}

fn read_bytes<I: BufRead>(alloc: Global, input: &mut I, length: u32) -> io::Result<Vec<u8>> {
    let mut bytes = vec![in alloc; 0; length as usize]?;
    input.read_exact(&mut bytes)?;
    Ok(bytes)
}

fn words_of(alloc: Global, command: &str) -> Result<Vec<String>, AllocError> {
    let mut words = Vec::new(alloc);
    for word in command.split(',') {
        words.push(String::from_str(alloc, word)?)?;
    }
    Ok(words)
}

fn way_of(word: &str) -> io::Result<Way> {
    match word {
        "once" => Ok(Way::Once),
        "pieces" => Ok(Way::Pieces),
        "streams" => Ok(Way::Streams),
        _ => Err(no_test()),
    }
}

fn kind_of(word: &str) -> Option<Kind> {
    match word {
        "whole" => Some(Kind::Whole),
        "part" => Some(Kind::Part),
        "answers" => Some(Kind::Answers),
        "ending" => Some(Kind::Ending),
        "sessions" => Some(Kind::Sessions),
        _ => None,
    }
}

fn number_of(word: &str) -> io::Result<u32> {
    word.parse::<u32>().map_err(|_| no_test())
}

fn no_test() -> io::Error {
    io::Error::from(ErrorKind::InvalidData)
}
