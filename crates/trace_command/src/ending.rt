//! The first line of a trace, and what it ends with.

ghost use Rattle.std.specs.Prelude.{◌≡◌, ◌++◌, OnOk};
ghost use Rattle.trace_command.specs.Lines.{trace_count_lines, count_members, counter_members, trace_device_line, trace_device_lines, trace_ending, first_line, lane_line, trace_lane_lines, lane_object};

use crate::members::{push_number_member, push_text_member};
use crate::steps::push_pair_name;
use crate::words::side_name;
use report_text::append::push_word;
use std::alloc::AllocError;
use step_kinds::{Counters, DevPlan, LaneCount, LaneName, PairPlan, Plan};

/// Adds the first line of a trace, with the version of its form. Returns an error if memory runs out.
pub fn push_first_line(text: &mut Vec<u8>) -> Result<(), AllocError>
    ensures { OnOk result (text.new.items ≡ text.old.items ++ first_line) }
{
    push_word(text, "{\"trace\":1}\n")
}

/// Adds what follows the steps. First comes a line for each lane and session where a frame was accepted or delivered.
/// Then come a line for each device of the plan with its counters, as far as both lists go, and the line of the end.
/// Returns an error if memory runs out, and then some part of the text may have been added.
pub fn push_ending(
    text: &mut Vec<u8>,
    plan: &Plan,
    lanes: &[LaneCount],
    devs: &[Counters],
) -> Result<(), AllocError>
    ensures { OnOk result (text.new.items ≡ text.old.items ++ trace_ending plan.now lanes.now devs.now) }
{
    push_lanes(text, plan.pairs.as_slice(), lanes)?;
    push_devices(text, plan.devs.as_slice(), devs)?;
    push_word(text, "{\"end\":true}\n")
}

// Adds the lines of what lanes accepted and delivered.
fn push_lanes(
    text: &mut Vec<u8>,
    pairs: &[PairPlan],
    counts: &[LaneCount],
) -> Result<(), AllocError>
    ensures { OnOk result (text.new.items ≡ text.old.items ++ trace_lane_lines pairs.now counts.now) }
{
    for count in counts {
        push_count(text, pairs, count)?;
    }
    Ok(())
}

// Adds the line of what a lane accepted and delivered, if either isn't 0.
fn push_count(text: &mut Vec<u8>, pairs: &[PairPlan], count: &LaneCount) -> Result<(), AllocError>
    ensures { OnOk result (text.new.items ≡ text.old.items ++ trace_count_lines pairs.now count.now) }
{
    if count.accepted == 0 && count.delivered == 0 {
        return Ok(());
    }
    push_lane_line(text, pairs, count)
}

// Adds the line of what a lane accepted and delivered.
fn push_lane_line(
    text: &mut Vec<u8>,
    pairs: &[PairPlan],
    count: &LaneCount,
) -> Result<(), AllocError>
    ensures { OnOk result (text.new.items ≡ text.old.items ++ lane_line pairs.now count.now) }
{
    push_word(text, "{\"lane\":")?;
    push_lane(text, pairs, &count.name)?;
    push_counts(text, count)?;
    push_word(text, "}\n")
}

// Adds what a lane accepted and delivered in a session.
fn push_counts(text: &mut Vec<u8>, count: &LaneCount) -> Result<(), AllocError>
    ensures { OnOk result (text.new.items ≡ text.old.items ++ count_members count.now) }
{
    push_number_member(text, ",\"session\":", u64::from(count.session))?;
    push_number_member(text, ",\"accepted\":", count.accepted)?;
    push_number_member(text, ",\"delivered\":", count.delivered)
}

// Adds a lane.
#[tactic(auto, unfolding(crate::specs::Lines::lane_object))]
fn push_lane(text: &mut Vec<u8>, pairs: &[PairPlan], lane: &LaneName) -> Result<(), AllocError>
    ensures { OnOk result (text.new.items ≡ text.old.items ++ lane_object pairs.now lane.now) }
{
    push_word(text, "{\"pair\":\"")?;
    push_pair_name(text, pairs, lane.pair)?;
    push_word(text, "\"")?;
    push_text_member(text, ",\"side\":", side_name(lane.from).as_bytes())?;
    push_number_member(text, ",\"queue\":", u64::from(lane.queue))?;
    push_word(text, "}")
}

// Adds the lines of all devices, each with its counters.
fn push_devices(
    text: &mut Vec<u8>,
    devs: &[DevPlan],
    counters: &[Counters],
) -> Result<(), AllocError>
    ensures { OnOk result (text.new.items ≡ text.old.items ++ trace_device_lines devs.now counters.now) }
{
    for (dev, counts) in devs.iter().zip(counters) {
        push_device(text, dev, counts)?;
    }
    Ok(())
}

// Adds the line of a device, with its counters.
fn push_device(text: &mut Vec<u8>, dev: &DevPlan, counts: &Counters) -> Result<(), AllocError>
    ensures { OnOk result (text.new.items ≡ text.old.items ++ trace_device_line dev.now counts.now) }
{
    push_word(text, "{\"device\":\"")?;
    text.extend_from_slice(dev.name.bytes())?;
    push_word(text, "\"")?;
    push_counters(text, counts)?;
    push_word(text, "}\n")
}

// Adds what a device sent, refused and received.
#[tactic(auto, unfolding(crate::specs::Lines::counter_members, crate::specs::Words::number_member))]
fn push_counters(text: &mut Vec<u8>, counts: &Counters) -> Result<(), AllocError>
    ensures { OnOk result (text.new.items ≡ text.old.items ++ counter_members counts.now) }
{
    push_number_member(text, ",\"tx\":", counts.tx)?;
    push_number_member(text, ",\"tx_bytes\":", counts.tx_bytes)?;
    push_number_member(text, ",\"refused\":", counts.refused)?;
    push_number_member(text, ",\"rx\":", counts.rx)?;
    push_number_member(text, ",\"rx_bytes\":", counts.rx_bytes)?;
    push_number_member(text, ",\"short\":", counts.short)
}
