//! What a trace says of a step: its word, its object in JSON, and what it changes of the writes in flight.

ghost use Rattle.std.specs.Prelude.{◌≡◌, ◌++◌, OnOk, codes};
ghost use Rattle.pair_model.specs.Plans.{switch_plan};
ghost use Rattle.report_text.specs.Report.{pair_name};
ghost use Rattle.trace_command.specs.Steps.{ethernet_members, of_device, on_pair, on_queue, on_side, step_members, step_name as name_of_step, step_object};
ghost use Rattle.trace_command.specs.Words.{text_member};
ghost use Rattle.trace_command.specs.Writes.{change_in as change_of_pairs};

use crate::changes::{Change, landing, only_if, posts_if, queue_post, trained};
use crate::members::{push_bytes_member, push_number_member, push_text_member};
use crate::words::side_name;
use report_text::append::push_word;
use std::alloc::AllocError;
use step_kinds::{Answer, Frame, Label, PairPlan, Plan, Side, Step};

/// Adds a step as an object. Nothing is added for the name of a pair, a device or a switch that the plan hasn't.
/// Returns an error if memory runs out.
pub fn push_step(text: &mut Vec<u8>, plan: &Plan, step: &Step) -> Result<(), AllocError>
    ensures { OnOk result (text.new.items ≡ text.old.items ++ step_object plan.now step.now) }
{
    push_word(text, "{\"name\":\"")?;
    push_word(text, step_name(step))?;
    push_word(text, "\"")?;
    push_step_members(text, plan, step)?;
    push_word(text, "}")
}

// Returns the word of a step in a script.
fn step_name(step: &Step) -> &'static str
    ensures { result.now ≡ name_of_step step.now }
{
    match step {
        Step::Enable { .. } => "enable",
        Step::Train { .. } => "train",
        Step::Break { .. } => "break",
        Step::DropDone { .. } => "drop",
        Step::Clean { .. } => "clean",
        Step::Offer { .. } => "offer",
        Step::Check { .. } => "check",
        Step::Ready { .. } => "ready",
        Step::Join { .. } => "join",
        Step::Begin { .. } => "begin",
        Step::QpDown { .. } => "qpdown",
        Step::Xbegin { .. } => "xbegin",
        Step::Post { .. } => "post",
        Step::Land { .. } => "land",
        Step::Look { .. } => "look",
        Step::Copy { .. } => "copy",
        Step::Clear { .. } => "clear",
        Step::Ack { .. } => "ack",
        Step::Wake { .. } => "wake",
        Step::Irq { .. } => "irq",
        Step::Mask { .. } => "mask",
        Step::Unmask { .. } => "unmask",
        Step::Spad { .. } => "spad",
        Step::Poke { .. } => "poke",
        Step::ShowMem { .. } => "showmem",
        Step::ShowPad { .. } => "showspad",
        Step::ShowQueue { .. } => "showq",
        Step::Relay { .. } => "relay",
        Step::Xnext { .. } => "xnext",
    }
}

// Adds what a step has but for its name.
fn push_step_members(text: &mut Vec<u8>, plan: &Plan, step: &Step) -> Result<(), AllocError>
    ensures { OnOk result (text.new.items ≡ text.old.items ++ step_members plan.now step.now) }
{
    match step {
        Step::Train { pair } | Step::Break { pair } | Step::DropDone { pair } => push_pair(
            text, plan, *pair,
        ),
        Step::Enable { pair, side }
        | Step::Clean { pair, side }
        | Step::Offer { pair, side }
        | Step::Check { pair, side }
        | Step::Irq { pair, side } => push_side(text, plan, *pair, *side),
        Step::Ready { pair, side, queue }
        | Step::Join { pair, side, queue }
        | Step::QpDown { pair, side, queue }
        | Step::Post { pair, side, queue }
        | Step::Look { pair, side, queue }
        | Step::Copy { pair, side, queue }
        | Step::Clear { pair, side, queue }
        | Step::Ack { pair, side, queue } => push_queue(text, plan, *pair, *side, *queue),
        Step::Begin {
            pair,
            side,
            queue,
            frame,
        } => {
            push_queue(text, plan, *pair, *side, *queue)?;
            push_bytes_member(text, ",\"frame\":", frame.bytes())
        }
        Step::Xbegin {
            pair,
            side,
            queue,
            dev,
            dst,
            kind,
            payload,
        } => {
            push_queue(text, plan, *pair, *side, *queue)?;
            push_device(text, plan, *dev)?;
            push_ethernet(text, dst, *kind, payload)
        }
        Step::Land { pair, side, place } | Step::ShowQueue { pair, side, place } => {
            push_side(text, plan, *pair, *side)?;
            push_number_member(text, ",\"place\":", u64::from(*place))
        }
        Step::Wake {
            pair,
            side,
            queue,
            dev,
        }
        | Step::Xnext {
            pair,
            side,
            queue,
            dev,
        } => {
            push_queue(text, plan, *pair, *side, *queue)?;
            push_device(text, plan, *dev)
        }
        Step::Mask { pair, side, bits } | Step::Unmask { pair, side, bits } => {
            push_side(text, plan, *pair, *side)?;
            push_number_member(text, ",\"bits\":", u64::from(*bits))
        }
        Step::Spad {
            pair,
            side,
            index,
            value,
        } => {
            push_side(text, plan, *pair, *side)?;
            push_number_member(text, ",\"index\":", u64::from(*index))?;
            push_number_member(text, ",\"value\":", u64::from(*value))
        }
        Step::Poke {
            pair,
            side,
            window,
            offset,
            bytes,
        } => {
            push_side(text, plan, *pair, *side)?;
            push_number_member(text, ",\"window\":", u64::from(*window))?;
            push_number_member(text, ",\"offset\":", *offset)?;
            push_bytes_member(text, ",\"bytes\":", bytes.bytes())
        }
        Step::ShowMem {
            pair,
            side,
            at,
            len,
        } => {
            push_side(text, plan, *pair, *side)?;
            push_number_member(text, ",\"at\":", *at)?;
            push_number_member(text, ",\"len\":", u64::from(*len))
        }
        Step::ShowPad { pair, side, index } => {
            push_side(text, plan, *pair, *side)?;
            push_number_member(text, ",\"index\":", u64::from(*index))
        }
        Step::Relay {
            pair,
            side,
            queue,
            switch,
            port,
        } => {
            push_queue(text, plan, *pair, *side, *queue)?;
            push_switch(text, plan, *switch)?;
            push_number_member(text, ",\"port\":", u64::from(*port))
        }
    }
}

/// Returns what a step on one of these pairs changes, if it was answered so.
pub fn change_in(pairs: &[PairPlan], step: &Step, answer: &Answer) -> Change
    ensures { result ≡ change_of_pairs pairs.now step.now answer.now }
{
    let done = matches!(answer, Answer::Ok);
    match step {
        Step::Train { .. } => trained(answer),
        Step::Break { .. } => only_if(done, Change::Breaks),
        Step::DropDone { .. } => only_if(done, Change::Drops),
        Step::Ready { side, .. } | Step::Spad { side, .. } | Step::Poke { side, .. } => {
            posts_if(done, *side, 0)
        }
        Step::Offer { side, .. } => posts_if(matches!(answer, Answer::Offered { .. }), *side, 0),
        Step::Post { pair, side, queue } => {
            if let Answer::Posted { label } = answer {
                queue_post(pairs, *pair, *side, *queue, label)
            } else {
                Change::Nothing
            }
        }
        Step::Ack { pair, side, queue } => {
            if let Answer::Acked { number } = answer {
                let label = Label::Index {
                    queue: *queue,
                    number: *number,
                };
                queue_post(pairs, *pair, *side, *queue, &label)
            } else {
                Change::Nothing
            }
        }
        Step::Land { side, place, .. } => landing(*side, *place, answer),
        Step::Enable { .. }
        | Step::Clean { .. }
        | Step::Check { .. }
        | Step::Join { .. }
        | Step::Begin { .. }
        | Step::QpDown { .. }
        | Step::Xbegin { .. }
        | Step::Look { .. }
        | Step::Copy { .. }
        | Step::Clear { .. }
        | Step::Wake { .. }
        | Step::Irq { .. }
        | Step::Mask { .. }
        | Step::Unmask { .. }
        | Step::ShowMem { .. }
        | Step::ShowPad { .. }
        | Step::ShowQueue { .. }
        | Step::Relay { .. }
        | Step::Xnext { .. } => Change::Nothing,
    }
}

/// Adds the name of a pair, and nothing where there is none. Returns an error if memory runs out.
pub fn push_pair_name(text: &mut Vec<u8>, pairs: &[PairPlan], pair: u32) -> Result<(), AllocError>
    ensures { OnOk result (text.new.items ≡ text.old.items ++ pair_name pairs.now pair) }
{
    match pairs.get(pair as usize) {
        Some(plan) => text.extend_from_slice(plan.name.bytes()),
        None => Ok(()),
    }
}

// Adds the pair that a step is made on.
#[tactic(auto, unfolding(crate::specs::Words::text_member))]
fn push_pair(text: &mut Vec<u8>, plan: &Plan, pair: u32) -> Result<(), AllocError>
    ensures { OnOk result (text.new.items ≡ text.old.items ++ on_pair plan.now pair) }
{
    push_word(text, ",\"pair\":\"")?;
    push_pair_name(text, plan.pairs.as_slice(), pair)?;
    push_word(text, "\"")
}

// Adds the pair and the side that a step is made on.
fn push_side(text: &mut Vec<u8>, plan: &Plan, pair: u32, side: Side) -> Result<(), AllocError>
    ensures { OnOk result (text.new.items ≡ text.old.items ++ on_side plan.now pair side) }
{
    push_pair(text, plan, pair)?;
    push_text_member(text, ",\"side\":", side_name(side).as_bytes())
}

// Adds the pair, the side and the queue that a step is made on.
fn push_queue(
    text: &mut Vec<u8>,
    plan: &Plan,
    pair: u32,
    side: Side,
    queue: u32,
) -> Result<(), AllocError>
    ensures { OnOk result (text.new.items ≡ text.old.items ++ on_queue plan.now pair side queue) }
{
    push_side(text, plan, pair, side)?;
    push_number_member(text, ",\"queue\":", u64::from(queue))
}

// Adds the device of a step.
#[tactic(auto, unfolding(crate::specs::Words::text_member))]
fn push_device(text: &mut Vec<u8>, plan: &Plan, dev: u32) -> Result<(), AllocError>
    ensures { OnOk result (text.new.items ≡ text.old.items ++ of_device plan.now dev) }
{
    push_word(text, ",\"device\":\"")?;
    if let Some(plan) = plan.devs.as_slice().get(dev as usize) {
        text.extend_from_slice(plan.name.bytes())?;
    }
    push_word(text, "\"")
}

// Adds the Ethernet frame of a step: its destination, its kind and its payload.
fn push_ethernet(
    text: &mut Vec<u8>,
    dst: &[u8; 6],
    kind: u16,
    payload: &Frame,
) -> Result<(), AllocError>
    ensures { OnOk result (text.new.items ≡ text.old.items ++ ethernet_members dst.now kind payload.now) }
{
    push_bytes_member(text, ",\"address\":", dst)?;
    push_number_member(text, ",\"kind\":", u64::from(kind))?;
    push_bytes_member(text, ",\"payload\":", payload.bytes())
}

// Adds the switch of a step.
#[tactic(auto, unfolding(crate::specs::Words::text_member))]
fn push_switch(text: &mut Vec<u8>, plan: &Plan, switch: u32) -> Result<(), AllocError>
    ensures { OnOk result (text.new.items ≡ text.old.items ++ text_member (codes ",\"switch\":") (switch_plan plan.now switch).name) }
{
    push_word(text, ",\"switch\":\"")?;
    if let Some(plan) = plan.switches.as_slice().get(switch as usize) {
        text.extend_from_slice(plan.name.bytes())?;
    }
    push_word(text, "\"")
}
