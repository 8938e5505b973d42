//! How words are spelled: names, sides, numbers and bytes.
#![tactic(auto, unfolding(crate::specs::Tests::and_then))]

ghost use Rattle.std.specs.Prelude.{◌≡◌, ◌||◌};
ghost use Rattle.std.specs.List.{list_all};
ghost use Rattle.script_words.specs.Reads.{WordReads, ReadsLine};
ghost use Rattle.script_words.specs.Tests as tests;
ghost use Rattle.script_words.specs.Words as spelled;

use crate::fault::{Cause, LineError, LineFault, ReadError, within};
use hex::FromHexError;
use pair_settings::Range;
use std::alloc::Global;
use step_kinds::{Items, Name, Side};

/// Returns whether a word is a name: 1 to 16 small letters and digits, the first a letter.
pub fn is_name(word: &[u8]) -> bool
    ensures { result ≡ spelled.is_name word.now }
{
    match word {
        [] => false,
        [first, rest @ ..] => {
            first.is_ascii_lowercase() && rest.len() < 16 && are_name_bytes(rest)
        }
    }
}

/// Returns whether bytes may stand in a name after its first.
fn are_name_bytes(bytes: &[u8]) -> bool
    ensures { result ≡ list_all (λ b. spelled.is_letter b || spelled.is_digit b) bytes.now }
{
    bytes
        .iter()
        .all(|byte| byte.is_ascii_lowercase() || byte.is_ascii_digit())
}

/// Returns the name that a word spells.
///
/// # Errors
///
/// [`Cause::BadName`] if the word is no name, by [`is_name`].
pub fn read_name(word: &[u8]) -> Result<Name, Cause>
    ensures { result ≡ spelled.name_word word.now }
{
    if is_name(word) {
        Ok(Name::of_bytes(word))
    } else {
        Err(Cause::BadName)
    }
}

/// Returns the side that a word spells.
///
/// # Errors
///
/// [`Cause::BadName`] if the word is neither `A` nor `B`.
pub fn read_side(word: &[u8]) -> Result<Side, Cause>
    ensures { result ≡ spelled.side_word word.now }
{
    match word {
        [b'A'] => Ok(Side::A),
        [b'B'] => Ok(Side::B),
        _ => Err(Cause::BadName),
    }
}

/// Returns whether there is a digit, and no leading zero but for zero itself.
fn is_plain(word: &[u8]) -> bool
    ensures { result ≡ spelled.is_plain word.now }
{
    match word {
        [] => false,
        [_] => true,
        [first, _, ..] => *first != b'0',
    }
}

/// Returns the number that a word spells: decimal digits without a leading zero but for zero itself, below 2^32.
fn number_of(word: &[u8]) -> Option<u32>
    ensures { result ≡ spelled.word_number_of word.now }
{
    if !is_plain(word) {
        return None;
    }
    let mut value = 0u64;
    for digit in word {
        if !digit.is_ascii_digit() {
            return None;
        }
        value = value * 10 + (*digit - b'0') as u64;
        if value > u32::MAX as u64 {
            return None;
        }
    }
    Some(value as u32)
}

/// Returns the number that a word spells.
///
/// # Errors
///
/// [`Cause::BadNumber`] if the word isn't decimal digits, at least one, without a leading zero but for zero itself, or
/// their number isn't below 2^32.
pub fn read_number(word: &[u8]) -> Result<u32, Cause>
    ensures { result ≡ spelled.number_word word.now }
{
    number_of(word).ok_or(Cause::BadNumber)
}

/// Returns the number that a word spells, from the least to the most.
///
/// # Errors
///
/// [`Cause::BadNumber`] if [`read_number`] answers it, or the number is below `least` or above `most`.
pub fn read_number_between(least: u32, most: u32, word: &[u8]) -> Result<u32, Cause>
    ensures { result ≡ spelled.number_between least most word.now }
{
    let number = read_number(word)?;
    if number < least || most < number {
        return Err(Cause::BadNumber);
    }
    Ok(number)
}

/// Returns the number that word `n` of a line spells, from the least to the most.
///
/// # Errors
///
/// The fault of [`Cause::BadNumber`] at word `n`, with the range, if [`read_number_between`] answers that cause.
pub fn read_number_in(n: u32, least: u32, most: u32, word: &[u8]) -> Result<u32, LineFault>
    ensures { result ≡ spelled.word_number_in n least most word.now }
{
    within(
        n,
        Range { least, most },
        read_number_between(least, most, word),
    )
}

/// Returns the bytes that a word spells by pairs of hexadecimal digits.
///
/// # Errors
///
/// [`ReadError::OutOfMemory`] if memory runs out. Else [`ReadError::Fault`] of [`Cause::BadHex`] if the word isn't
/// pairs of hexadecimal digits.
pub fn read_bytes(alloc: Global, word: &[u8]) -> Result<Items<u8>, ReadError>
    ensures { WordReads result (spelled.hex_word word.now) }
{
    match hex::decode(alloc, word) {
        Ok(bytes) => Ok(Items::of_vec(bytes)),
        Err(FromHexError::OutOfMemory) => Err(ReadError::OutOfMemory),
        Err(_) => Err(ReadError::Fault(Cause::BadHex)),
    }
}

/// Returns the bytes that word `n` of a line spells.
///
/// # Errors
///
/// [`LineError::OutOfMemory`] if memory runs out. Else [`LineError::Fault`] of [`Cause::BadHex`] at word `n` if the
/// word isn't pairs of hexadecimal digits.
#[inline(always)]
pub fn read_bytes_at(alloc: Global, n: u32, word: &[u8]) -> Result<Items<u8>, LineError>
    ensures { ReadsLine result (tests.at n (spelled.hex_word word.now)) }
{
    match read_bytes(alloc, word) {
        Ok(bytes) => Ok(bytes),
        Err(ReadError::Fault(cause)) => Err(LineError::Fault(cause.at(n))),
        Err(ReadError::OutOfMemory) => Err(LineError::OutOfMemory),
    }
}

/// Returns the bytes that a word spells, of which there have to be this many. It takes no memory.
///
/// # Errors
///
/// [`Cause::BadHex`] if the word isn't pairs of hexadecimal digits, or not `N` of them.
pub fn read_array<const N: usize>(word: &[u8]) -> Result<[u8; N], Cause>
    ensures { result ≡ spelled.hex_of N word.now }
{
    let mut bytes = [0u8; N];
    if hex::decode_to_slice(word, &mut bytes).is_err() {
        return Err(Cause::BadHex);
    }
    Ok(bytes)
}

/// Returns the number of two bytes that a word spells, the high one first.
///
/// # Errors
///
/// [`Cause::BadHex`] if the word isn't two pairs of hexadecimal digits.
pub fn read_kind(word: &[u8]) -> Result<u16, Cause>
    ensures { result ≡ spelled.kind_word word.now }
{
    let [high, low] = read_array::<2>(word)?;
    Ok(high as u16 * 256 + low as u16)
}
