//! The line of a step.

ghost use Rattle.std.specs.Prelude.{◌≡◌, ◌++◌, OnOk, codes};
ghost use Rattle.trace_command.specs.Words.{number_member};
ghost use Rattle.trace_command.specs.Writes.{trace_number_at};
ghost use Rattle.trace_command.specs.Lines.{change_members, dropped_members, link_members, made_member, trace_step_line};
ghost use Rattle.trace_command.specs.declared.changes.Change.TheVariants.{Posts};

use crate::answers::push_answer;
use crate::changes::Change;
use crate::members::{push_number, push_number_member, push_numbers_in, push_text_member};
use crate::steps::{change_in, push_step};
use crate::writes::{PairNumbers, SideNumbers, WriteNumbers};
use report_text::append::push_word;
use std::alloc::AllocError;
use step_kinds::{Answer, LineAnswer, Plan, Side, Step};

/// Adds the line of a step: its line in the script, the step, its answer, and whether it was made. Then comes what it
/// changes of the link or of the writes in flight. `writes` are those before the step. Returns an error if memory runs
/// out, and then some part of the line may have been added.
pub fn push_step_line(
    text: &mut Vec<u8>,
    plan: &Plan,
    writes: &WriteNumbers,
    step: &Step,
    made: &LineAnswer,
) -> Result<(), AllocError>
    ensures { OnOk result (text.new.items ≡ text.old.items ++ trace_step_line plan.now writes.now step.now made.now) }
{
    push_word(text, "{\"line\":")?;
    push_number(text, u64::from(made.line))?;
    push_word(text, ",\"step\":")?;
    push_step(text, plan, step)?;
    push_word(text, ",\"answer\":")?;
    push_answer(text, &made.answer)?;
    push_made(text, &made.answer)?;
    let change = change_in(plan.pairs.as_slice(), step, &made.answer);
    push_change(text, writes.pair(step.subject()), change)?;
    push_word(text, "}\n")
}

// Adds whether a step that got this answer was made.
fn push_made(text: &mut Vec<u8>, answer: &Answer) -> Result<(), AllocError>
    ensures { OnOk result (text.new.items ≡ text.old.items ++ made_member answer.now) }
{
    if answer.is_made() {
        push_word(text, ",\"made\":true")
    } else {
        push_word(text, ",\"made\":false")
    }
}

// Adds what a step changes on a pair, said with the numbers of the writes.
fn push_change(text: &mut Vec<u8>, pair: &PairNumbers, change: Change) -> Result<(), AllocError>
    ensures { OnOk result (text.new.items ≡ text.old.items ++ change_members pair.now change) }
{
    match change {
        Change::Trains { session } => push_link(text, b"up", session),
        Change::Breaks => push_link(text, b"closing", pair.session()),
        Change::Drops => {
            push_dropped(text, pair)?;
            push_link(text, b"down", pair.session())
        }
        Change::Posts { side, .. } => push_post(text, pair, side),
        Change::Loses => push_word(text, ",\"write\":null"),
        Change::Lands { side, place } => {
            push_flying(text, pair.side(side), place)?;
            push_number_member(text, ",\"passed\":", u64::from(place))
        }
        Change::Waits { side, place } => {
            push_flying(text, pair.side(side), place)?;
            let before = pair.side(side).stopped_by(place as usize);
            push_number_member(text, ",\"waits_for\":", before)
        }
        Change::Nothing => Ok(()),
    }
}

// Adds the number of a write that is posted, or null where the link isn't up and the write is lost.
fn push_post(text: &mut Vec<u8>, pair: &PairNumbers, side: Side) -> Result<(), AllocError>
    ensures { OnOk result (text.new.items ≡ text.old.items ++ change_members pair.now (Posts side 0)) }
{
    if pair.up() {
        push_number_member(text, ",\"write\":", pair.side(side).posted())
    } else {
        push_word(text, ",\"write\":null")
    }
}

// Adds the number of the write at a place in flight.
fn push_flying(text: &mut Vec<u8>, side: &SideNumbers, place: u32) -> Result<(), AllocError>
    ensures { OnOk result (text.new.items ≡ text.old.items ++ number_member (codes ",\"write\":") (trace_number_at side.now.flight place)) }
{
    push_number_member(text, ",\"write\":", side.write_at(place as usize).number)
}

// Adds the numbers of the writes that are in flight on both sides.
fn push_dropped(text: &mut Vec<u8>, pair: &PairNumbers) -> Result<(), AllocError>
    ensures { OnOk result (text.new.items ≡ text.old.items ++ dropped_members pair.now) }
{
    push_word(text, ",\"dropped\":{\"A\":")?;
    push_numbers_in(text, pair.side(Side::A))?;
    push_word(text, ",\"B\":")?;
    push_numbers_in(text, pair.side(Side::B))?;
    push_word(text, "}")
}

// Adds the state of a link, and the session.
fn push_link(text: &mut Vec<u8>, state: &[u8], session: u32) -> Result<(), AllocError>
    ensures { OnOk result (text.new.items ≡ text.old.items ++ link_members state.now session) }
{
    push_text_member(text, ",\"link\":", state)?;
    push_number_member(text, ",\"session\":", u64::from(session))
}
