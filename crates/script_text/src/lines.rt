//! Lines of a script, and their words.

ghost use Rattle.std.specs.Prelude.{◌≡◌, ◌∷◌, ◌++◌, ◌==◌, ◌<◌, [], filter, length, map, IfOk, OnOk, IfSome, IsTrue};
ghost use Rattle.std.specs.List.{slice_split};
ghost use Rattle.std.specs.Option.{option_map_or};
ghost use Rattle.script_words.specs.Compact.{given_of};
ghost use Rattle.script_words.specs.Reads.{ReadsLine, result_map};
ghost use Rattle.script_words.specs.Words as spelled;

use memchr::memchr;
use script_words::{Given, LineError, LineFault};
use std::alloc::AllocError;

/// A line of fewer bytes is read byte by byte, any other by searches of many bytes at a time.
const SHORT_LINE: usize = 64;

/// What a line gives, or why it gives nothing.
pub type LineResult = Result<Given, LineError>;

/// Nothing where what a line gives is added, or why it isn't.
pub type AddResult = Result<(), LineError>;

/// Returns what a line gives, or its fault.
#[inline]
pub fn or_fault(given: Result<Given, LineFault>) -> LineResult
    ensures { ReadsLine (result_map given_of result) (result_map given_of given) }
{
    Ok(given?)
}

/// Returns what stands before the first of such bytes, and what stands after it where there is one. A short text is
/// read byte by byte, which takes less there than a search of many bytes at a time.
#[inline(always)]
pub fn cut(text: &[u8], at: u8) -> (&[u8], Option<&[u8]>)
    ensures parts { slice_split (λ b. b == at) text.now ≡ result.0.now ∷ option_map_or (λ rest. slice_split (λ b. b == at) rest.now) result.1 [] }
    ensures shorter { IfSome result.1 (λ rest. length rest.now < length text.now) }
{
    if text.len() >= 32 {
        return cut_long(text, at);
    }
    for (i, byte) in text.iter().enumerate() {
        if *byte == at {
            return (&text[..i], Some(&text[i + 1..]));
        }
    }
    (text, None)
}

/// Returns the same by a search of many bytes at a time.
#[inline(always)]
fn cut_long(text: &[u8], at: u8) -> (&[u8], Option<&[u8]>)
    ensures parts { slice_split (λ b. b == at) text.now ≡ result.0.now ∷ option_map_or (λ rest. slice_split (λ b. b == at) rest.now) result.1 [] }
    ensures shorter { IfSome result.1 (λ rest. length rest.now < length text.now) }
{
    match memchr(at, text) {
        Some(i) => (&text[..i], Some(&text[i + 1..])),
        None => (text, None),
    }
}

/// Returns a line without the carriage return that may end it.
pub fn without_return(line: &[u8]) -> &[u8]
    ensures { result.now ≡ spelled.without_return line.now }
{
    if line.is_empty() {
        return line;
    }
    let last = line.len() - 1;
    if line[last] == b'\r' {
        &line[..last]
    } else {
        line
    }
}

/// Returns whether a line says nothing: it has no words, or its first byte after its spaces is a number sign.
pub fn is_skipped(line: &[u8]) -> bool
    ensures { result ≡ spelled.is_skipped line.now }
{
    for byte in line {
        if *byte != b' ' {
            return *byte == b'#';
        }
    }
    true
}

/// Returns whether all bytes of a line are printed characters or spaces.
fn is_text(line: &[u8]) -> bool
    ensures { result ≡ spelled.is_text line.now }
{
    let mut is_text = true;
    for byte in line {
        is_text &= 32 <= *byte && *byte <= 126;
    }
    is_text
}

/// Reads the words of a line, what stands between its spaces, into `words` in place of what was there, and says whether
/// the line is text. If it isn't, its words may be any. Returns an error if memory runs out.
pub fn read_words<'a>(words: &mut Vec<&'a [u8]>, line: &'a [u8]) -> Result<bool, AllocError>
    ensures text { IfOk result (λ text. text ≡ spelled.is_text line.now) }
    ensures words { IfOk result (λ text. IsTrue text → map (λ word. word.now) words.new.items ≡ spelled.words_of line.now) }
{
    words.clear();
    if line.len() < SHORT_LINE {
        return read_short(words, line);
    }
    if !is_text(line) {
        return Ok(false);
    }
    read_long(words, line)?;
    Ok(true)
}

/// Adds the words of a line, byte by byte, and says whether it is text.
fn read_short<'a>(words: &mut Vec<&'a [u8]>, line: &'a [u8]) -> Result<bool, AllocError>
    requires { words.old.items ≡ [] }
    ensures text { IfOk result (λ text. text ≡ spelled.is_text line.now) }
    ensures words { IfOk result (λ text. IsTrue text → map (λ word. word.now) words.new.items ≡ spelled.words_of line.now) }
{
    let mut start = 0;
    for (i, byte) in line.iter().enumerate() {
        if *byte == b' ' {
            push_word(words, &line[start..i])?;
            start = i + 1;
        } else if *byte < 32 || 126 < *byte {
            return Ok(false);
        }
    }
    push_word(words, &line[start..])?;
    Ok(true)
}

/// Adds the words of a line, each found by a search for the next space.
fn read_long<'a>(words: &mut Vec<&'a [u8]>, line: &'a [u8]) -> Result<(), AllocError>
    requires { words.old.items ≡ [] }
    ensures { OnOk result (map (λ word. word.now) words.new.items ≡ spelled.words_of line.now) }
{
    let mut rest = Some(line);
    while let Some(text) = rest {
        let (word, more) = cut(text, b' ');
        push_word(words, word)?;
        rest = more;
    }
    Ok(())
}

/// Adds what stands between two spaces, if it has a byte.
fn push_word<'a>(words: &mut Vec<&'a [u8]>, word: &'a [u8]) -> Result<(), AllocError>
    ensures { OnOk result (map (λ word. word.now) words.new.items ≡ map (λ word. word.now) words.old.items ++ filter spelled.is_filled (word.now ∷ [])) }
{
    if !word.is_empty() {
        words.push(word)?;
    }
    Ok(())
}
