//! The head of a trace.

ghost use Rattle.std.specs.Prelude.{◌≡◌, ◌++◌, ◌<◌, ◌≤◌, OnOk, All, slice_index_or};
ghost use Rattle.std.specs.List.{flat_map, range_with_len};
ghost use Rattle.pair_model.specs.DeclaredPlans.{IsPair};
ghost use Rattle.pair_model.specs.Orders.{classes_of};
ghost use Rattle.pair_model.specs.Plans.{side_plan};
ghost use Rattle.pair_model.specs.Sizes.{agreed_version as version_of};
ghost use Rattle.trace_command.specs.Head.{trace_head, trace_pair_line, ring_after, ring_object, side_object};
ghost use Rattle.trace_command.specs.Words.{truth_text};

use crate::ending::push_first_line;
use crate::members::{push_number_member, push_text_member};
use plan_numbers::{sending_ring, side_plan, speaks_five};
use report_text::append::push_word;
use std::alloc::AllocError;
use step_kinds::{PairPlan, Side};

/// Adds the head of a trace: the line with its version, and a line for each pair. Each pair is one that a script can
/// declare. Returns an error if memory runs out.
pub fn push_head(text: &mut Vec<u8>, pairs: &[PairPlan]) -> Result<(), AllocError>
    requires { All IsPair pairs.now }
    ensures { OnOk result (text.new.items ≡ text.old.items ++ trace_head pairs.now) }
{
    push_first_line(text)?;
    push_pairs(text, pairs)
}

// Adds the lines of pairs.
fn push_pairs(text: &mut Vec<u8>, pairs: &[PairPlan]) -> Result<(), AllocError>
    requires { All IsPair pairs.now }
    ensures { OnOk result (text.new.items ≡ text.old.items ++ flat_map trace_pair_line pairs.now) }
{
    for pair in pairs {
        push_pair(text, pair)?;
    }
    Ok(())
}

// Adds the line of a pair.
fn push_pair(text: &mut Vec<u8>, pair: &PairPlan) -> Result<(), AllocError>
    requires { IsPair pair.now }
    ensures { OnOk result (text.new.items ≡ text.old.items ++ trace_pair_line pair.now) }
{
    push_text_member(text, "{\"pair\":", pair.name.bytes())?;
    push_truth(text, ",\"up\":", pair.up)?;
    push_truth(text, ",\"strict\":", pair.strict)?;
    push_truth(text, ",\"raw\":", pair.raw)?;
    push_number_member(text, ",\"version\":", u64::from(agreed_version(pair)))?;
    push_number_member(text, ",\"mtu\":", u64::from(pair.mtu))?;
    push_word(text, ",\"A\":")?;
    push_side(text, pair, Side::A)?;
    push_word(text, ",\"B\":")?;
    push_side(text, pair, Side::B)?;
    push_word(text, "}\n")
}

// Adds a member that is true or false.
fn push_truth(text: &mut Vec<u8>, name: &str, holds: bool) -> Result<(), AllocError>
    ensures { OnOk result (text.new.items ≡ text.old.items ++ name.now ++ truth_text holds) }
{
    push_word(text, name)?;
    push_word(text, if holds { "true" } else { "false" })
}

// Returns the version that a pair speaks: 5 where both sides declare it, else 4.
fn agreed_version(pair: &PairPlan) -> u32
    ensures { result ≡ version_of pair.now }
{
    if speaks_five(pair) { 5 } else { 4 }
}

// Adds a side of a pair.
fn push_side(text: &mut Vec<u8>, pair: &PairPlan, side: Side) -> Result<(), AllocError>
    requires { IsPair pair.now }
    ensures { OnOk result (text.new.items ≡ text.old.items ++ side_object pair.now side) }
{
    let own = side_plan(pair, side);
    push_number_member(text, "{\"version\":", u64::from(own.version))?;
    push_number_member(text, ",\"queues\":", u64::from(own.queues))?;
    push_number_member(text, ",\"windows\":", u64::from(own.windows))?;
    push_number_member(text, ",\"size\":", own.size)?;
    push_number_member(text, ",\"cap\":", own.cap)?;
    push_word(text, ",\"rings\":[")?;
    push_rings(text, pair, side, own.queues)?;
    push_word(text, "]}")
}

// Adds the rings that a side sends to on this many queues.
fn push_rings(
    text: &mut Vec<u8>,
    pair: &PairPlan,
    side: Side,
    queues: u32,
) -> Result<(), AllocError>
    requires declared { IsPair pair.now }
    requires among { queues ≤ (side_plan pair.now side).queues }
    ensures { OnOk result (text.new.items ≡ text.old.items ++ flat_map (ring_after pair.now side) (range_with_len 0 queues)) }
{
    for queue in 0..queues {
        push_ring(text, pair, side, queue)?;
    }
    Ok(())
}

// Adds the ring that a side sends to on a queue, after a comma where it isn't the first.
fn push_ring(text: &mut Vec<u8>, pair: &PairPlan, side: Side, queue: u32) -> Result<(), AllocError>
    requires declared { IsPair pair.now }
    requires among { queue < (side_plan pair.now side).queues }
    ensures { OnOk result (text.new.items ≡ text.old.items ++ ring_after pair.now side queue) }
{
    if queue != 0 {
        push_word(text, ",")?;
    }
    push_ring_object(text, pair, side, queue)
}

// Adds the ring that a side sends to on a queue.
fn push_ring_object(
    text: &mut Vec<u8>,
    pair: &PairPlan,
    side: Side,
    queue: u32,
) -> Result<(), AllocError>
    requires declared { IsPair pair.now }
    requires among { queue < (side_plan pair.now side).queues }
    ensures { OnOk result (text.new.items ≡ text.old.items ++ ring_object pair.now side queue) }
{
    let ring = sending_ring(pair, side, queue);
    push_number_member(text, "{\"entries\":", u64::from(ring.entries()))?;
    push_number_member(text, ",\"largest\":", u64::from(ring.max_payload()))?;
    push_number_member(text, ",\"class\":", u64::from(class_on(pair, side, queue)))?;
    push_word(text, "}")
}

// The traffic class of a side's writes on a queue.
fn class_on(pair: &PairPlan, side: Side, queue: u32) -> u32
    ensures { result ≡ slice_index_or (classes_of pair.now side) queue 0 }
{
    let classes = match side {
        Side::A => &pair.class_a,
        Side::B => &pair.class_b,
    };
    classes.get(queue as usize).copied().unwrap_or(0)
}
