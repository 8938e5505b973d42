//! A script, line by line.
#![tactic(auto, unfolding(script_words::specs::Tests::and_then))]

ghost use Rattle.std.specs.Prelude.{◌≡◌, ◌≤◌, ◌+◌, ◌^◌, ◌<◌, length, map};
ghost use Rattle.step_kinds.specs.Limits.{most_script_bytes};
ghost use Rattle.script_words.specs.Before.{Nothing};
ghost use Rattle.script_words.specs.Reads.{ReadsLine, result_map};
ghost use Rattle.script_words.specs.Words.{lines_of};
ghost use Rattle.script_plan.specs.Scripts.{plan_in};
ghost use Rattle.script_text.specs.SoundLines.{Held, Filled};
ghost use Rattle.script_text.specs.ParseClauses.{Parses, Adds, after_line};
ghost use Rattle.script_text.specs.Script as rules;

use crate::declarations::declaration_line;
use crate::error::ParseError;
use crate::lines::{AddResult, cut, is_skipped, read_words, without_return};
use crate::step_lines::step_line;
use crate::traffic_lines::traffic_line;
use script_plan::{Reader, Script};
use script_words::{Cause, LineError, Part, ScriptFault};
use std::alloc::Global;
use step_kinds::Plan;

/// Returns the first line.
fn header_line<'a>(words: &mut Vec<&'a [u8]>, line: &'a [u8]) -> AddResult
    ensures { ReadsLine (result_map (λ _. Nothing) result) (rules.header_line line.now) }
{
    if !read_words(words, line)? {
        return Err(LineError::Fault(Cause::NotText.of_line()));
    }
    if !is_header(words) {
        return Err(LineError::Fault(Cause::BadHeader.of_line()));
    }
    Ok(())
}

/// Returns whether these are the words of the first line.
fn is_header(words: &[&[u8]]) -> bool
    ensures { result ≡ rules.is_header (map (λ word. word.now) words.now) }
{
    match words {
        [word, version] => *word == b"ntb".as_slice() && *version == b"1".as_slice(),
        _ => false,
    }
}

/// Adds what the words of a line give in that part of the script.
#[inline(always)]
fn words_line(alloc: Global, before: &mut Reader, line: u32, words: &[&[u8]]) -> AddResult
    requires held { Held before.old }
    requires filled { Filled (map (λ word. word.now) words.now) }
    ensures { Adds line before.old before.new result (rules.words_line before.old before.old.part (map (λ word. word.now) words.now)) }
{
    let [word, words @ ..] = words else {
        return Ok(());
    };
    match before.part() {
        Part::Declarations => {
            let given = declaration_line(alloc, before, word, words)?;
            before.add(alloc, line, given)?;
            Ok(())
        }
        Part::Steps => step_line(alloc, before, line, word, words),
        Part::Traffic => {
            let given = traffic_line(alloc, before, word, words)?;
            before.add(alloc, line, given)?;
            Ok(())
        }
    }
}

/// Adds what line `number` gives to the lines so far. Its words are read into `words`.
#[inline(always)]
fn read_line<'a>(
    alloc: Global,
    number: u32,
    before: &mut Reader,
    words: &mut Vec<&'a [u8]>,
    line: &'a [u8],
) -> AddResult
    requires { Held before.old }
    ensures { Adds number before.old before.new result (rules.line_gives number before.old line.now) }
{
    if number == 1 {
        return header_line(words, line);
    }
    if is_skipped(line) {
        return Ok(());
    }
    if !read_words(words, line)? {
        return Err(LineError::Fault(Cause::NotText.of_line()));
    }
    words_line(alloc, before, number, words)
}

/// The same, if the fault has its line.
#[inline(always)]
fn add_line<'a>(
    alloc: Global,
    number: u32,
    before: &mut Reader,
    words: &mut Vec<&'a [u8]>,
    line: &'a [u8],
) -> Result<(), ParseError>
    requires { Held before.old }
    ensures { Parses (result_map (λ _. before.new) result) (after_line number before.old (rules.line_gives number before.old line.now)) }
{
    match read_line(alloc, number, before, words, line) {
        Ok(()) => Ok(()),
        Err(LineError::Fault(fault)) => Err(ParseError::Fault(ScriptFault {
            line: number,
            fault,
        })),
        Err(LineError::OutOfMemory) => Err(ParseError::OutOfMemory),
    }
}

/// Returns what the lines of a script of at most 16,777,216 bytes declare.
///
/// # Errors
///
/// [`ParseError::OutOfMemory`] only if there is no memory for what the script declares: it says nothing of the script.
/// Else [`ParseError::Fault`] if the script has a fault: the first line that has one, and that line's first fault.
pub fn read_declared(alloc: Global, bytes: &[u8]) -> Result<Reader, ParseError>
    requires { length bytes.now ≤ most_script_bytes }
    ensures { Parses result (rules.declared_by bytes.now) }
{
    let mut before = Reader::new(alloc);
    if let Err(error) = add_lines(alloc, &mut before, bytes) {
        // One call drops all its fields: dropped at the return, each would be a step of this function's proof.
        drop(before);
        return Err(error);
    }
    Ok(before)
}

/// Adds what the lines of a script give, the first of which is line 1.
fn add_lines(alloc: Global, before: &mut Reader, bytes: &[u8]) -> Result<(), ParseError>
    requires few { length bytes.now ≤ most_script_bytes }
    requires held { Held before.old }
    ensures { Parses (result_map (λ _. before.new) result) (rules.read_lines 1 before.old (lines_of bytes.now)) }
{
    let mut words = Vec::new(alloc);
    let mut number = 1;
    let mut rest = Some(bytes);
    while let Some(text) = rest {
        let (line, more) = cut(text, b'\n');
        add_line(alloc, number, before, &mut words, without_return(line))?;
        number += 1;
        rest = more;
    }
    Ok(())
}

/// Returns what a script of at most 16,777,216 bytes declares, with its steps as its lines have them.
///
/// # Errors
///
/// [`ParseError::OutOfMemory`] only if there is no memory for what the script declares: it says nothing of the script.
/// Else [`ParseError::Fault`] if the script has a fault, which is as [`read_declared`] answers it.
pub fn read_script(alloc: Global, bytes: &[u8]) -> Result<Script, ParseError>
    requires { length bytes.now ≤ most_script_bytes }
    ensures { Parses (result_map plan_in result) (rules.script_of bytes.now) }
{
    let declared = read_declared(alloc, bytes)?;
    Ok(declared.into_script(alloc))
}

/// The plan that a script of at most 16,777,216 bytes declares, in which each step stands by itself.
///
/// # Errors
///
/// [`ParseError::OutOfMemory`] only if there is no memory for the plan: it says nothing of the script. Else
/// [`ParseError::Fault`] if the script has a fault, which is as [`read_declared`] answers it.
pub fn parse(alloc: Global, bytes: &[u8]) -> Result<Plan, ParseError>
    requires { length bytes.now ≤ most_script_bytes }
    ensures { Parses result (rules.script_of bytes.now) }
{
    let script = read_script(alloc, bytes)?;
    Ok(script.into_plan(alloc)?)
}
