//! Members of a JSON object. A member's name is given with the comma before it and the colon after it.

ghost use Rattle.std.specs.Prelude.{◌≡◌, ◌++◌, OnOk, codes};
ghost use Rattle.std.specs.Fmt.{decimal};
ghost use Rattle.trace_command.specs.Words.{bytes_member, is_wide as may_be_wide, label_object, named_member, named_members, number_member, numbers_list, text_member, wide_member};
ghost use Rattle.trace_command.specs.Writes.{numbers_in};

use crate::words::number_name;
use crate::writes::SideNumbers;
use itoa::Buffer;
use report_text::append::{push_hex, push_word};
use std::alloc::AllocError;
use step_kinds::{Label, NamedNumber, NumberName, Numbers, Shape};

// Numbers below are numbers in a trace.
const EXACT_NUMBERS: u64 = 1 << 53;

/// Adds a number. Returns an error if memory runs out.
pub fn push_number(text: &mut Vec<u8>, number: u64) -> Result<(), AllocError>
    ensures { OnOk result (text.new.items ≡ text.old.items ++ decimal number) }
{
    let mut digits = Buffer::new();
    text.extend_from_slice(digits.format(number).as_bytes())
}

/// Adds a member of a JSON object with a number. `name` has the comma before it and the colon after it, as `,"queue":`.
///
/// # Errors
///
/// [`AllocError`] if memory runs out.
#[tactic(auto, unfolding(crate::specs::Words::number_member))]
pub fn push_number_member(text: &mut Vec<u8>, name: &str, number: u64) -> Result<(), AllocError>
    ensures { OnOk result (text.new.items ≡ text.old.items ++ number_member name.now number) }
{
    push_word(text, name)?;
    push_number(text, number)
}

/// Adds a member with a number that may be large: from 2^53 on its digits stand within quotation marks, since some
/// readers of JSON have no larger numbers. Returns an error if memory runs out.
#[tactic(auto, unfolding(crate::specs::Words::text_member))]
pub fn push_wide_member(text: &mut Vec<u8>, name: &str, number: u64) -> Result<(), AllocError>
    ensures { OnOk result (text.new.items ≡ text.old.items ++ wide_member name.now number) }
{
    if number < EXACT_NUMBERS {
        return push_number_member(text, name, number);
    }
    push_word(text, name)?;
    push_word(text, "\"")?;
    push_number(text, number)?;
    push_word(text, "\"")
}

/// Adds a member of a JSON object with a text, within quotation marks and as it is: nothing is escaped. `name` has the
/// comma before it and the colon after it, as `,"side":`.
///
/// # Errors
///
/// [`AllocError`] if memory runs out.
#[tactic(auto, unfolding(crate::specs::Words::text_member))]
pub fn push_text_member(text: &mut Vec<u8>, name: &str, value: &[u8]) -> Result<(), AllocError>
    ensures { OnOk result (text.new.items ≡ text.old.items ++ text_member name.now value.now) }
{
    push_word(text, name)?;
    push_word(text, "\"")?;
    text.extend_from_slice(value)?;
    push_word(text, "\"")
}

/// Adds a member with bytes. Returns an error if memory runs out.
#[tactic(auto, unfolding(crate::specs::Words::text_member))]
pub fn push_bytes_member(text: &mut Vec<u8>, name: &str, bytes: &[u8]) -> Result<(), AllocError>
    ensures { OnOk result (text.new.items ≡ text.old.items ++ bytes_member name.now bytes.now) }
{
    push_word(text, name)?;
    push_word(text, "\"")?;
    push_hex(text, bytes)?;
    push_word(text, "\"")
}

/// Adds the list of the numbers of a side's writes in flight, in the order of posting. Returns an error if memory runs
/// out.
#[tactic(auto, unfolding(crate::specs::Words::numbers_list))]
pub fn push_numbers_in(text: &mut Vec<u8>, side: &SideNumbers) -> Result<(), AllocError>
    ensures { OnOk result (text.new.items ≡ text.old.items ++ numbers_list (numbers_in side.now.flight)) }
{
    push_word(text, "[")?;
    for place in 0..side.in_flight() {
        if place > 0 {
            push_word(text, ",")?;
        }
        push_number(text, side.write_at(place).number)?;
    }
    push_word(text, "]")
}

/// Adds a label. Returns an error if memory runs out.
pub fn push_label(text: &mut Vec<u8>, label: &Label) -> Result<(), AllocError>
    ensures { OnOk result (text.new.items ≡ text.old.items ++ label_object label.now) }
{
    push_shape(text, &label.shape())?;
    push_word(text, "}")
}

/// Begins an object of an answer or of a label: its word is its name, and its numbers are members. The errors are those
/// of [`push_word`].
pub fn push_shape(text: &mut Vec<u8>, shape: &Shape) -> Result<(), AllocError>
    ensures { OnOk result (text.new.items ≡ text.old.items ++ codes "{\"name\":\"" ++ shape.now.word.now ++ codes "\"" ++ named_members shape.now.numbers) }
{
    push_word(text, "{\"name\":\"")?;
    push_word(text, shape.word)?;
    push_word(text, "\"")?;
    push_named_members(text, shape.numbers)
}

// Adds the numbers of an answer or of a label.
fn push_named_members(text: &mut Vec<u8>, numbers: Numbers) -> Result<(), AllocError>
    ensures { OnOk result (text.new.items ≡ text.old.items ++ named_members numbers) }
{
    match numbers {
        Numbers::None => Ok(()),
        Numbers::One { first } => push_named_member(text, first),
        Numbers::Two { first, second } => {
            push_named_member(text, first)?;
            push_named_member(text, second)
        }
        Numbers::Three {
            first,
            second,
            third,
        } => {
            push_named_member(text, first)?;
            push_named_member(text, second)?;
            push_named_member(text, third)
        }
    }
}

// Adds a number with its name.
fn push_named_member(text: &mut Vec<u8>, number: NamedNumber) -> Result<(), AllocError>
    ensures { OnOk result (text.new.items ≡ text.old.items ++ named_member number) }
{
    let name = number_name(number.name);
    if is_wide(number.name) {
        push_wide_member(text, name, number.value)
    } else {
        push_number_member(text, name, number.value)
    }
}

// Is it a number that may be large?
fn is_wide(name: NumberName) -> bool
    ensures { result ≡ may_be_wide name }
{
    matches!(name, NumberName::SeenSize)
}
