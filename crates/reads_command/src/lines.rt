//! Lines of a text of reads, each a step.
#![tactic(auto, unfolding(script_words::specs::Tests::and_then))]

ghost use Rattle.std.specs.Prelude.{◌≡◌, ◌≢◌, IfOk, IsSome, map};
ghost use Rattle.step_kinds.specs.Limits.{most_steps};
ghost use Rattle.script_words.specs.Reads.{WordReads};
ghost use Rattle.reads_command.specs.Lines as rules;
ghost use Rattle.reads_command.specs.Steps.{Fits, FitsIfThere};

use read_path::PathStep;
use read_path::limits::{MEMORY_BYTES, MOST_READ_BYTES, MOST_SHOW_BYTES};
use script_text::lines::{is_skipped, read_words};
use script_words::words::{read_bytes, read_number, read_number_between, read_side};
use script_words::{Cause, ReadError};
use std::alloc::Global;
use step_kinds::limits::{MOST_STEPS, MOST_WRITE_BYTES};

/// Returns the order that a word spells: whether a write is relaxed.
fn read_order(word: &[u8]) -> Option<bool>
    ensures { result ≡ rules.reads_order_of word.now }
{
    if word == b"relaxed".as_slice() {
        Some(true)
    } else if word == b"strict".as_slice() {
        Some(false)
    } else {
        None
    }
}

/// Returns whether this many bytes from an address on leave a side's memory.
fn leaves_memory(at: u32, len: u32) -> bool
    ensures { result ≡ rules.leaves_memory at len }
{
    MEMORY_BYTES < u64::from(at) + u64::from(len)
}

/// `write S AT HEX ORDER`
fn write_step(
    alloc: Global,
    side: &[u8],
    at: &[u8],
    hex: &[u8],
    order: &[u8],
) -> Result<PathStep, ReadError>
    ensures step { WordReads result (rules.write_step side.now at.now hex.now order.now) }
    ensures fits { IfOk result Fits }
{
    let side = read_side(side)?;
    let at = read_number(at)?;
    let bytes = read_bytes(alloc, hex)?;
    let relaxed = read_order(order).ok_or(Cause::UnknownWord)?;
    let len = bytes.len();
    if len == 0 || MOST_WRITE_BYTES < len || leaves_memory(at, len as u32) {
        return Err(ReadError::Fault(Cause::BadNumber));
    }
    Ok(PathStep::Write {
        side,
        at,
        bytes,
        relaxed,
    })
}

/// `read S AT LEN`
fn read_step(side: &[u8], at: &[u8], len: &[u8]) -> Result<PathStep, ReadError>
    ensures step { WordReads result (rules.read_step side.now at.now len.now) }
    ensures fits { IfOk result Fits }
{
    let side = read_side(side)?;
    let at = read_number(at)?;
    let len = read_number_between(1, MOST_READ_BYTES, len)?;
    if leaves_memory(at, len) {
        return Err(ReadError::Fault(Cause::BadNumber));
    }
    Ok(PathStep::Read { side, at, len })
}

/// `land S K`
fn land_step(side: &[u8], place: &[u8]) -> Result<PathStep, ReadError>
    ensures step { WordReads result (rules.reads_land_step side.now place.now) }
    ensures fits { IfOk result Fits }
{
    let side = read_side(side)?;
    let place = read_number(place)?;
    Ok(PathStep::Land { side, place })
}

/// `show S AT LEN`
fn show_step(side: &[u8], at: &[u8], len: &[u8]) -> Result<PathStep, ReadError>
    ensures step { WordReads result (rules.show_step side.now at.now len.now) }
    ensures fits { IfOk result Fits }
{
    let side = read_side(side)?;
    let at = read_number(at)?;
    let len = read_number_between(1, MOST_SHOW_BYTES, len)?;
    if leaves_memory(at, len) {
        return Err(ReadError::Fault(Cause::BadNumber));
    }
    Ok(PathStep::Show { side, at, len })
}

/// Returns a step of the link, which is one word.
fn link_step(word: &[u8]) -> Result<PathStep, ReadError>
    ensures step { WordReads result (rules.link_step word.now) }
    ensures fits { IfOk result Fits }
{
    if word == b"break".as_slice() {
        Ok(PathStep::Break)
    } else if word == b"drop".as_slice() {
        Ok(PathStep::DropDone)
    } else if word == b"relink".as_slice() {
        Ok(PathStep::Relink)
    } else {
        Err(ReadError::Fault(Cause::UnknownWord))
    }
}

/// Returns a step with a side, an address and a length.
fn range_step(word: &[u8], side: &[u8], at: &[u8], len: &[u8]) -> Result<PathStep, ReadError>
    ensures step { WordReads result (rules.range_step word.now side.now at.now len.now) }
    ensures fits { IfOk result Fits }
{
    if word == b"read".as_slice() {
        read_step(side, at, len)
    } else if word == b"show".as_slice() {
        show_step(side, at, len)
    } else {
        Err(ReadError::Fault(Cause::UnknownWord))
    }
}

/// Returns a step with a side and a place.
fn place_step(word: &[u8], side: &[u8], place: &[u8]) -> Result<PathStep, ReadError>
    ensures step { WordReads result (rules.place_step word.now side.now place.now) }
    ensures fits { IfOk result Fits }
{
    if word == b"land".as_slice() {
        land_step(side, place)
    } else {
        Err(ReadError::Fault(Cause::UnknownWord))
    }
}

/// Returns a step with a side, an address, bytes and an order.
fn bytes_step(
    alloc: Global,
    word: &[u8],
    side: &[u8],
    at: &[u8],
    hex: &[u8],
    order: &[u8],
) -> Result<PathStep, ReadError>
    ensures step { WordReads result (rules.bytes_step word.now side.now at.now hex.now order.now) }
    ensures fits { IfOk result Fits }
{
    if word == b"write".as_slice() {
        write_step(alloc, side, at, hex, order)
    } else {
        Err(ReadError::Fault(Cause::UnknownWord))
    }
}

/// Returns the step of a line's words.
fn step_of(alloc: Global, words: &[&[u8]]) -> Result<PathStep, ReadError>
    ensures step { WordReads result (rules.step_of (map (λ word. word.now) words.now)) }
    ensures fits { IfOk result Fits }
{
    match words {
        [] | [_, _] => Err(ReadError::Fault(Cause::UnknownWord)),
        [word] => link_step(word),
        [word, side, place] => place_step(word, side, place),
        [word, side, at, len] => range_step(word, side, at, len),
        [word, side, at, hex, order] => bytes_step(alloc, word, side, at, hex, order),
        _ => Err(ReadError::Fault(Cause::UnknownWord)),
    }
}

/// Returns whether these are the words of the first line.
fn is_header(words: &[&[u8]]) -> bool
    ensures { result ≡ rules.is_reads_header (map (λ word. word.now) words.now) }
{
    match words {
        [word, version] => *word == b"reads".as_slice() && *version == b"1".as_slice(),
        _ => false,
    }
}

/// Returns the first line.
fn header_line<'a>(words: &mut Vec<&'a [u8]>, line: &'a [u8]) -> Result<Option<PathStep>, ReadError>
    ensures step { WordReads result (rules.reads_header_line line.now) }
    ensures none { IfOk result (λ step. step ≡ None) }
{
    if !read_words(words, line)? {
        return Err(ReadError::Fault(Cause::NotText));
    }
    if !is_header(words) {
        return Err(ReadError::Fault(Cause::BadHeader));
    }
    Ok(None)
}

/// Returns the step that line `number` gives, if this many steps stand before it: the first line, a comment and a line
/// without words give none. Its words are read into `words`.
///
/// Line 1, and each other line that has words and is no comment, may have a fault. It is the first of these:
///
/// - `NotText` where the line isn't text.
/// - Of line 1, `BadHeader` where its words aren't `reads 1`.
/// - Of any other, that of its words: `UnknownWord`, `BadName`, `BadNumber` or `BadHex`.
/// - Of any other, `TooMany` where as many steps stand before it as a text may have.
///
/// Returns the other error if memory runs out.
pub fn read_line<'a>(
    alloc: Global,
    number: u32,
    steps: usize,
    words: &mut Vec<&'a [u8]>,
    line: &'a [u8],
) -> Result<Option<PathStep>, ReadError>
    ensures step { WordReads result (rules.reads_line_gives number steps line.now) }
    ensures fits { IfOk result (λ step. FitsIfThere step) }
    ensures few { IfOk result (λ step. IsSome step → steps ≢ most_steps) }
{
    if number == 1 {
        return header_line(words, line);
    }
    if is_skipped(line) {
        return Ok(None);
    }
    if !read_words(words, line)? {
        return Err(ReadError::Fault(Cause::NotText));
    }
    let step = step_of(alloc, words)?;
    if steps == MOST_STEPS {
        return Err(ReadError::Fault(Cause::TooMany));
    }
    Ok(Some(step))
}
