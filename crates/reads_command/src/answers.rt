//! Steps made on a path, and the texts of their answers.

ghost use Rattle.std.specs.Prelude.{◌≡◌, ◌∷◌, ◌++◌, [], IfOk, OnOk};
ghost use Rattle.std.specs.Fmt.{decimal};
ghost use Rattle.read_path.specs.PathLog.{path_after_step, path_answer_to};
ghost use Rattle.reads_command.specs.Report.{made_line};
ghost use Rattle.reads_command.specs.Texts.{reads_answer_text, reads_land_text, link_text, post_text, read_text, refusal_text};
ghost use Rattle.report_text.specs.Texts.{word_and_numbers};
ghost use Rattle.reads_command.specs.Steps.{Fits};

use itoa::Buffer;
use pair_model::LinkRefusal;
use read_path::{Path, PathAnswer, PathLand, PathStep, PostAnswer, ReadAnswer};
use report_text::append::{push_hex, push_numbers, push_word};
use std::alloc::AllocError;

/// Makes a step on a path. Its bytes are as many as such a step may have, and lie in a side's memory (`Fits`). Returns
/// an error if memory runs out.
pub fn make_step(path: &mut Path, step: &PathStep) -> Result<PathAnswer, AllocError>
    requires { Fits step.now }
    ensures answer { IfOk result (λ answer. answer ≡ path_answer_to path.old step.now) }
    ensures after { OnOk result (path.new ≡ path_after_step path.old step.now) }
{
    Ok(match step {
        PathStep::Write {
            side,
            at,
            bytes,
            relaxed,
        } => PathAnswer::Wrote {
            answer: path.write(*side, *at, bytes.as_slice(), *relaxed)?,
        },
        PathStep::Read { side, at, len } => PathAnswer::Asked {
            answer: path.read(*side, *at, *len)?,
        },
        PathStep::Land { side, place } => PathAnswer::Landed {
            answer: path.land(*side, *place as usize),
        },
        PathStep::Show { side, at, len } => PathAnswer::Shown {
            frame: path.show(*side, *at, *len)?,
        },
        PathStep::Break => PathAnswer::Linked {
            refusal: path.cut().err(),
        },
        PathStep::DropDone => PathAnswer::Linked {
            refusal: path.drop_done().err(),
        },
        PathStep::Relink => PathAnswer::Linked {
            refusal: path.relink().err(),
        },
    })
}

/// Adds the line of an answer. Returns an error if memory runs out, and then some part of the line may have been added.
pub fn push_line(text: &mut Vec<u8>, line: u32, answer: &PathAnswer) -> Result<(), AllocError>
    ensures { OnOk result (text.new.items ≡ text.old.items ++ made_line line answer.now) }
{
    push_number(text, u64::from(line))?;
    push_word(text, " ")?;
    push_answer(text, answer)?;
    push_word(text, "\n")
}

// Adds the text of an answer.
fn push_answer(text: &mut Vec<u8>, answer: &PathAnswer) -> Result<(), AllocError>
    ensures { OnOk result (text.new.items ≡ text.old.items ++ reads_answer_text answer.now) }
{
    match answer {
        PathAnswer::Wrote { answer } => push_word(text, post_word(*answer)),
        PathAnswer::Asked { answer } => push_read(text, answer),
        PathAnswer::Landed { answer } => push_landing(text, answer),
        PathAnswer::Shown { frame } => {
            push_word(text, "mem ")?;
            push_hex(text, frame.bytes())
        }
        PathAnswer::Linked { refusal } => push_word(text, link_word(refusal)),
    }
}

// Returns the word of what came of a posted write.
fn post_word(answer: PostAnswer) -> &'static str
    ensures { result.now ≡ post_text answer }
{
    match answer {
        PostAnswer::Ok => "ok",
        PostAnswer::LinkDown => "linkdown",
    }
}

// Adds the text of what came of a read.
fn push_read(text: &mut Vec<u8>, answer: &ReadAnswer) -> Result<(), AllocError>
    ensures { OnOk result (text.new.items ≡ text.old.items ++ read_text answer.now) }
{
    match answer {
        ReadAnswer::Posted { number } => push_one(text, "read", *number),
        ReadAnswer::LinkDown => push_word(text, "linkdown"),
    }
}

// Adds the text of what came of a landing.
fn push_landing(text: &mut Vec<u8>, answer: &PathLand) -> Result<(), AllocError>
    ensures { OnOk result (text.new.items ≡ text.old.items ++ reads_land_text answer.now) }
{
    match answer {
        PathLand::Nothing => push_word(text, "nothing"),
        PathLand::Blocked => push_word(text, "blocked"),
        PathLand::Write { at, len } => {
            push_two(text, "landed write", u64::from(*at), u64::from(*len))
        }
        PathLand::Request { number } => push_one(text, "landed read", *number),
        PathLand::Part { number, part } => push_two(text, "part", *number, u64::from(*part)),
        PathLand::Whole { number, frame } => {
            push_one(text, "data", *number)?;
            push_word(text, " ")?;
            push_hex(text, frame.bytes())
        }
    }
}

// Returns the word of what came of a step of the link.
fn link_word(refusal: &Option<LinkRefusal>) -> &'static str
    ensures { result.now ≡ link_text refusal.now }
{
    match refusal {
        None => "ok",
        Some(refusal) => refusal_word(*refusal),
    }
}

// Returns the word of a refusal. A path's sides are cleaned and enabled with its link, so the last two never come.
fn refusal_word(refusal: LinkRefusal) -> &'static str
    ensures { result.now ≡ refusal_text refusal }
{
    match refusal {
        LinkRefusal::NotUp => "notup",
        LinkRefusal::NotClosing => "notclosing",
        LinkRefusal::NotDown => "notdown",
        LinkRefusal::SessionsSpent => "spent",
        LinkRefusal::Dirty => "dirty",
        LinkRefusal::NotEnabled => "notenabled",
    }
}

// Adds a word and a number.
fn push_one(text: &mut Vec<u8>, word: &str, one: u64) -> Result<(), AllocError>
    ensures { OnOk result (text.new.items ≡ text.old.items ++ word_and_numbers word.now (one ∷ [])) }
{
    push_word(text, word)?;
    push_numbers(text, &[one])
}

// Adds a word and two numbers.
fn push_two(text: &mut Vec<u8>, word: &str, one: u64, two: u64) -> Result<(), AllocError>
    ensures { OnOk result (text.new.items ≡ text.old.items ++ word_and_numbers word.now (one ∷ two ∷ [])) }
{
    push_word(text, word)?;
    push_numbers(text, &[one, two])
}

// Adds a number.
fn push_number(text: &mut Vec<u8>, number: u64) -> Result<(), AllocError>
    ensures { OnOk result (text.new.items ≡ text.old.items ++ decimal number) }
{
    text.extend_from_slice(Buffer::new().format(number).as_bytes())
}
