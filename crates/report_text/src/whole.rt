//! The report of a replay.

ghost use Rattle.std.specs.Prelude.{◌≡◌, ◌++◌, ◌<◌, ◌≤◌, IfOk, OnOk, All, length, ◌∷◌};
ghost use Rattle.std.specs.List.{flat_map};
ghost use Rattle.report_text.specs.Report.{answer_line, count_lines, device_line, device_lines, ending, lane_text, report_of, side_text};

use crate::answer_lines::AnswerLines;
use crate::append::{push_numbers, push_word};
use std::alloc::{AllocError, Global};
use step_kinds::{Counters, DevPlan, LaneCount, LaneName, LineAnswer, PairPlan, Plan, Side};

/// Returns the report of a replay: a line for each answer in order, with the number of its script line. Then come a
/// line for each lane and session where a frame was accepted or delivered, a line for each device of the plan, and
/// `end`. Returns an error if memory runs out.
///
/// Each lane names a pair of the plan, and there are as many counters as the plan has devices.
pub fn report(
    alloc: Global,
    plan: &Plan,
    lines: &[LineAnswer],
    lanes: &[LaneCount],
    devs: &[Counters],
) -> Result<Vec<u8>, AllocError>
    requires known_pairs { All (λ lane. lane.name.pair < length plan.now.pairs) lanes.now }
    requires all_devices { length devs.now ≡ length plan.now.devs }
    ensures { IfOk result (λ text. text.items ≡ report_of plan.now lines.now lanes.now devs.now) }
{
    let mut answers = AnswerLines::new(alloc);
    for made in lines {
        answers.push(made)?;
    }
    let mut text = answers.into_text()?;
    push_ending(&mut text, plan, lanes, devs)?;
    Ok(text)
}

/// Adds what a report ends with, after its answers. That is a line for each lane and session where a frame was accepted
/// or delivered, a line for each device of the plan, and `end`. Returns an error if memory runs out, and then some part
/// of the text may have been added.
///
/// Each lane names a pair of the plan, and there are as many counters as the plan has devices.
pub fn push_ending(
    text: &mut Vec<u8>,
    plan: &Plan,
    lanes: &[LaneCount],
    devs: &[Counters],
) -> Result<(), AllocError>
    requires known_pairs { All (λ lane. lane.name.pair < length plan.now.pairs) lanes.now }
    requires all_devices { length devs.now ≡ length plan.now.devs }
    ensures { OnOk result (text.new.items ≡ text.old.items ++ ending plan.now lanes.now devs.now) }
{
    push_lanes(text, plan.pairs.as_slice(), lanes)?;
    push_devices(text, plan.devs.as_slice(), devs)?;
    push_word(text, "end\n")
}

// Adds the lines of what lanes accepted and delivered.
fn push_lanes(text: &mut Vec<u8>, pairs: &[PairPlan], lanes: &[LaneCount]) -> Result<(), AllocError>
    requires { All (λ lane. lane.name.pair < length pairs.now) lanes.now }
    ensures { OnOk result (text.new.items ≡ text.old.items ++ flat_map (count_lines pairs.now) lanes.now) }
{
    for count in lanes {
        push_count(text, pairs, count)?;
    }
    Ok(())
}

// Adds the line of what a lane accepted and delivered, if either isn't 0.
fn push_count(text: &mut Vec<u8>, pairs: &[PairPlan], count: &LaneCount) -> Result<(), AllocError>
    requires { count.now.name.pair < length pairs.now }
    ensures { OnOk result (text.new.items ≡ text.old.items ++ count_lines pairs.now count.now) }
{
    if count.accepted == 0 && count.delivered == 0 {
        return Ok(());
    }
    push_lane(text, pairs, &count.name, u64::from(count.session))?;
    push_word(text, " accepted")?;
    push_numbers(text, &[count.accepted])?;
    push_word(text, " delivered")?;
    push_numbers(text, &[count.delivered])?;
    push_word(text, "\n")
}

/// Adds a lane in a session. Returns an error if memory runs out, and then some part of it may have been added. The
/// lane names one of the pairs.
pub fn push_lane(
    text: &mut Vec<u8>,
    pairs: &[PairPlan],
    lane: &LaneName,
    session: u64,
) -> Result<(), AllocError>
    requires { lane.now.pair < length pairs.now }
    ensures { OnOk result (text.new.items ≡ text.old.items ++ lane_text pairs.now lane.now session) }
{
    push_word(text, "lane ")?;
    text.extend_from_slice(pairs[lane.pair as usize].name.bytes())?;
    push_word(text, side_word(lane.from))?;
    push_numbers(text, &[u64::from(lane.queue), session])
}

/// Returns a side after a space.
pub(crate) fn side_word(side: Side) -> &'static str
    ensures { result.now ≡ 32 ∷ side_text side }
{
    match side {
        Side::A => " A",
        Side::B => " B",
    }
}

// Adds the lines of all devices, each with its counters.
#[tactic(auto, using(crate::proofs::Devices::device_lines_more, crate::proofs::Devices::device_lines_all))]
fn push_devices(
    text: &mut Vec<u8>,
    devs: &[DevPlan],
    counters: &[Counters],
) -> Result<(), AllocError>
    requires { length counters.now ≡ length devs.now }
    ensures { OnOk result (text.new.items ≡ text.old.items ++ device_lines devs.now counters.now) }
{
    for place in 0..devs.len() {
        push_device(text, &devs[place], &counters[place])?;
    }
    Ok(())
}

// Adds what a device sent, refused and received.
fn push_device(text: &mut Vec<u8>, dev: &DevPlan, counts: &Counters) -> Result<(), AllocError>
    ensures { OnOk result (text.new.items ≡ text.old.items ++ device_line dev.now counts.now) }
{
    push_word(text, "dev ")?;
    text.extend_from_slice(dev.name.bytes())?;
    push_word(text, " tx")?;
    push_numbers(text, &[counts.tx, counts.tx_bytes, counts.refused])?;
    push_word(text, " rx")?;
    push_numbers(text, &[counts.rx, counts.rx_bytes, counts.short])?;
    push_word(text, "\n")
}
