//! The lines of answers, one after another.

ghost use Rattle.std.specs.Prelude.{◌≡◌, ◌+◌, ◌≤◌, ◌∷◌, ◌++◌, [], IfOk, OnOk, length, replicate};
ghost use Rattle.std.specs.Fmt.{decimal};
ghost use Rattle.std.specs.List.{flat_map};
ghost use Rattle.report_text.specs.Texts.{start_text};
ghost use Rattle.report_text.specs.Report.{answer_line};

use crate::answers::{START_ROOM, push_bytes, put_start};
use crate::append::push_repeated;
use crate::line::{DIGITS, LineText, ROOM};
use std::alloc::{AllocError, Global};
use std::marker::Model;
use step_kinds::{Answer, LineAnswer};

// The most bytes of an answer's line but for the bytes that it ends with: a number, a space, a text and a line feed.
const LINE_ROOM: usize = DIGITS + START_ROOM + 2;

/// The lines of answers so far. Contracts see their bytes.
///
/// The last of them stand in a place of their own, so that the text grows by several lines at a time.
#[derive(Drop)]
pub struct AnswerLines {
    text: Vec<u8>,
    last: LineText,
    again: Vec<u8>,
    block: Vec<u8>,
}

impl AnswerLines {
    /// No lines.
    pub fn new(alloc: Global) -> AnswerLines
        ensures { result ≡ [] }
    {
        AnswerLines {
            text: Vec::new(alloc),
            last: LineText::new(),
            again: Vec::new(alloc),
            block: Vec::new(alloc),
        }
    }

    /// Adds the line of an answer: the number of its script line, a space, and the answer's text. Returns an error if
    /// memory runs out, and then some part of the line may have been added.
    pub fn push(&mut self, made: &LineAnswer) -> Result<(), AllocError>
        ensures { OnOk result (self.new ≡ self.old ++ answer_line made.now) }
    {
        if self.last.len() > ROOM - LINE_ROOM {
            gather(&mut self.text, &mut self.last)?;
        }
        put_line(&mut self.last, made);
        if matches!(&made.answer, Answer::Delivered { .. } | Answer::Mem { .. }) {
            gather(&mut self.text, &mut self.last)?;
            push_bytes(&mut self.text, &made.answer)?;
        }
        self.last.put_word(b"\n");
        Ok(())
    }

    /// Adds the line of an answer this many times. Returns an error if memory runs out, and then some of them may have
    /// been added.
    pub fn push_times(&mut self, made: &LineAnswer, count: u32) -> Result<(), AllocError>
        ensures { OnOk result (self.new ≡ self.old ++ flat_map answer_line (replicate count made.now)) }
    {
        gather(&mut self.text, &mut self.last)?;
        self.again.clear();
        push_line(&mut self.again, &mut self.last, made)?;
        push_repeated(&mut self.text, &mut self.block, &self.again, count)
    }

    /// Returns all lines. Returns an error if memory runs out.
    pub fn into_text(self) -> Result<Vec<u8>, AllocError>
        ensures { IfOk result (λ text. text.items ≡ self) }
    {
        let AnswerLines { mut text, last, .. } = self;
        text.extend_from_slice(last.as_slice())?;
        Ok(text)
    }
}

impl Model for AnswerLines {
    ghost use Rattle.std.specs.Prelude.{ℕ, List, ◌++◌};

    ghost Value = { List ℕ };

    ghost view = { λ lines. lines.text.items ++ lines.last };
}

// Adds the last lines to the text.
#[inline]
fn gather(text: &mut Vec<u8>, last: &mut LineText) -> Result<(), AllocError>
    ensures added { OnOk result (text.new.items ≡ text.old.items ++ last.old) }
    ensures none { OnOk result (last.new ≡ []) }
{
    text.extend_from_slice(last.as_slice())?;
    last.clear();
    Ok(())
}

/// Adds the line of an answer: the number of its script line, a space, and the answer's text. Returns an error if
/// memory runs out, and then some part of the line may have been added.
pub fn push_answer_line(text: &mut Vec<u8>, made: &LineAnswer) -> Result<(), AllocError>
    ensures { OnOk result (text.new.items ≡ text.old.items ++ answer_line made.now) }
{
    push_line(text, &mut LineText::new(), made)
}

// The same, if the line is put together in a place that has no text, and has none after it.
fn push_line(text: &mut Vec<u8>, line: &mut LineText, made: &LineAnswer) -> Result<(), AllocError>
    requires { line.old ≡ [] }
    ensures added { OnOk result (text.new.items ≡ text.old.items ++ answer_line made.now) }
    ensures none { OnOk result (line.new ≡ []) }
{
    put_line(line, made);
    text.extend_from_slice(line.as_slice())?;
    line.clear();
    push_bytes(text, &made.answer)?;
    text.push(b'\n')?;
    Ok(())
}

// Adds the line of an answer up to the bytes that the answer ends with.
#[inline]
fn put_line(line: &mut LineText, made: &LineAnswer)
    requires { LINE_ROOM + length line.old ≤ ROOM }
    ensures text { line.new ≡ line.old ++ decimal made.now.line ++ 32 ∷ start_text made.now.answer }
    ensures len { length line.new ≤ length line.old + DIGITS + 1 + START_ROOM }
{
    line.put_first(u64::from(made.line));
    line.put_word(b" ");
    put_start(line, &made.answer);
}
