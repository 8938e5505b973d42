//! Answers as JSON objects.

ghost use Rattle.std.specs.Prelude.{◌≡◌, ◌++◌, OnOk};
ghost use Rattle.trace_command.specs.Steps.{answer_object, end_member};

use crate::members::{push_bytes_member, push_label, push_shape};
use report_text::append::push_word;
use std::alloc::AllocError;
use step_kinds::{Answer, ShapeEnd};

/// Adds an answer as an object. Returns an error if memory runs out.
pub fn push_answer(text: &mut Vec<u8>, answer: &Answer) -> Result<(), AllocError>
    ensures { OnOk result (text.new.items ≡ text.old.items ++ answer_object answer.now) }
{
    let shape = answer.shape();
    push_shape(text, &shape)?;
    push_end(text, shape.end, answer.bytes())?;
    push_word(text, "}")
}

// Adds what stands behind the numbers of an answer.
fn push_end(text: &mut Vec<u8>, end: ShapeEnd, bytes: &[u8]) -> Result<(), AllocError>
    ensures { OnOk result (text.new.items ≡ text.old.items ++ end_member end bytes.now) }
{
    match end {
        ShapeEnd::Nothing => Ok(()),
        ShapeEnd::Label { label } => {
            push_word(text, ",\"label\":")?;
            push_label(text, &label)
        }
        ShapeEnd::NoLabel => push_word(text, ",\"label\":null"),
        ShapeEnd::Frame => push_bytes_member(text, ",\"frame\":", bytes),
        ShapeEnd::Bytes => push_bytes_member(text, ",\"bytes\":", bytes),
    }
}
