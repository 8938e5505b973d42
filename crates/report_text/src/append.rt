//! Appending to a text.

ghost use Rattle.std.specs.Prelude.{◌≡◌, ◌++◌, OnOk, List, map};
ghost use Rattle.std.specs.List.{repeat};
ghost use Rattle.hex.specs.Hex.{encode_lower};
ghost use Rattle.report_text.specs.Texts.{frame_text, numbers_text};

use itoa::Buffer;
use std::alloc::AllocError;

// How many copies of bytes that repeat are added at a time.
const COPIES: u32 = 64;

/// Adds a word.
///
/// # Errors
///
/// [`AllocError`] if memory runs out, and then some part may have been added.
pub fn push_word(text: &mut Vec<u8>, word: &str) -> Result<(), AllocError>
    ensures { OnOk result (text.new.items ≡ text.old.items ++ word.now) }
{
    text.extend_from_slice(word.as_bytes())
}

/// Adds numbers in decimal, each after a space.
///
/// # Errors
///
/// [`AllocError`] if memory runs out, and then some part may have been added.
pub fn push_numbers(text: &mut Vec<u8>, numbers: &[u64]) -> Result<(), AllocError>
    ensures { OnOk result (text.new.items ≡ text.old.items ++ numbers_text numbers.now) }
{
    let mut digits = Buffer::new();
    for number in numbers {
        push_word(text, " ")?;
        text.extend_from_slice(digits.format(*number).as_bytes())?;
    }
    Ok(())
}

/// Adds bytes in lower-case hexadecimal. It stays a call, so that a line without bytes pays nothing for it.
///
/// # Errors
///
/// [`AllocError`] if memory runs out, and then some part may have been added.
#[inline(never)]
pub fn push_hex(text: &mut Vec<u8>, bytes: &[u8]) -> Result<(), AllocError>
    ensures { OnOk result (text.new.items ≡ text.old.items ++ encode_lower bytes.now) }
{
    let start = text.len();
    let end = start.checked_add(2 * bytes.len()).ok_or(AllocError)?;
    text.resize(end, 0)?;
    hex::encode_to_slice(bytes, &mut text.as_mut_slice()[start..]).unwrap();
    Ok(())
}

/// Adds the bytes of a frame in lower-case hexadecimal; one without bytes has a dash in their place.
///
/// # Errors
///
/// [`AllocError`] if memory runs out, and then some part may have been added.
pub fn push_frame(text: &mut Vec<u8>, bytes: &[u8]) -> Result<(), AllocError>
    ensures { OnOk result (text.new.items ≡ text.old.items ++ frame_text bytes.now) }
{
    if bytes.is_empty() {
        return push_word(text, "-");
    }
    push_hex(text, bytes)
}

/// Adds bytes this many times. The block is a place for many copies, which are then added at a time; what stood there
/// may be gone.
///
/// # Errors
///
/// [`AllocError`] if memory runs out, and then some part may have been added.
pub fn push_repeated(
    text: &mut Vec<u8>,
    block: &mut Vec<u8>,
    bytes: &[u8],
    count: u32,
) -> Result<(), AllocError>
    ensures { OnOk result (text.new.items ≡ text.old.items ++ repeat count bytes.now) }
{
    if count < COPIES {
        return push_copies(text, bytes, count);
    }
    block.clear();
    push_copies(block, bytes, COPIES)?;
    push_copies(text, block, count / COPIES)?;
    push_copies(text, bytes, count % COPIES)
}

// Adds bytes this many times, one copy at a time.
fn push_copies(text: &mut Vec<u8>, bytes: &[u8], count: u32) -> Result<(), AllocError>
    ensures { OnOk result (text.new.items ≡ text.old.items ++ repeat count bytes.now) }
{
    for _ in 0..count {
        text.extend_from_slice(bytes)?;
    }
    Ok(())
}
