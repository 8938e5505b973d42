//! Lines of traffic: frames that a threaded run sends, and losses of a link beside them.
#![tactic(auto, unfolding(script_words::specs::Tests::and_then))]

ghost use Rattle.std.specs.Prelude.{◌≡◌, ◌<◌, ◌≤◌, ◌*◌, length, map, sum, List, Ok, OnOk};
ghost use Rattle.step_kinds.specs.Limits.{most_frame_bytes, most_traffic_frames};
ghost use Rattle.step_kinds.specs.declared.plan.Traffic.{Traffic};
ghost use Rattle.pair_model.specs.Plans.{side_plan, pair_plan};
ghost use Rattle.pair_model.specs.TrafficPlans.{frames_in, traffic_bytes_in};
ghost use Rattle.script_words.specs.Before.{MoreTraffic};
ghost use Rattle.script_words.specs.Compact.{given_of};
ghost use Rattle.script_words.specs.Reads.{ReadsLine, result_map};
ghost use Rattle.script_words.specs.TrafficLines as rules;

use crate::lines::{LineResult, or_fault};
use crate::lookups::{QueueWords, read_pair, read_queue_name};
use pair_settings::agrees;
use plan_numbers::sending_ring;
use script_plan::Reader;
use script_words::words::{read_bytes_at, read_number_in};
use script_words::{Cause, Given, LineError, LineFault, QueueName, at, unknown_line};
use std::alloc::Global;
use step_kinds::limits::{
    MOST_BREAKS, MOST_FRAME_BYTES, MOST_TRAFFIC_ENTRIES, MOST_TRAFFIC_FRAMES,
};
use step_kinds::{Frame, LaneName, PairPlan};

/// Returns whether a pair may have traffic.
fn may_have_traffic(pair: &PairPlan) -> bool
    ensures { result ≡ rules.may_have_traffic pair.now }
{
    !pair.raw && agrees(pair)
}

/// Whether this many frames of this many bytes each may be sent on a lane.
fn test_lane(before: &Reader, lane: LaneName, len: u64, count: u64) -> Result<(), LineFault>
    requires declared { lane.pair < length before.now.plan.pairs }
    requires among { lane.queue < (side_plan (pair_plan before.now.plan lane.pair) lane.from).queues }
    requires count { count ≤ most_traffic_frames }
    ensures value { (more : List Traffic) → sum (map frames_in more) ≡ count → sum (map traffic_bytes_in more) ≡ count * len → result_map (λ _. MoreTraffic more) result ≡ rules.traffic_within before.now lane len more }
    ensures short { OnOk result (len ≤ most_frame_bytes) }
{
    let pair = before.pair(lane.pair);
    let ring = sending_ring(pair, lane.from, lane.queue);
    if len > ring.max_payload() as u64 || ring.entries() > MOST_TRAFFIC_ENTRIES {
        return Err(Cause::BadGeometry.of_line());
    }
    if !may_have_traffic(pair) {
        return Err(Cause::BadPair.of_line());
    }
    if !before.traffic().has_room(count, count * len) {
        return Err(Cause::TooMany.of_line());
    }
    Ok(())
}

/// `break PAIR`
fn break_line(before: &Reader, pair: &[u8]) -> Result<Given, LineFault>
    ensures { result_map given_of result ≡ rules.break_line before.now pair.now }
{
    let pair = at(2, read_pair(before, pair))?;
    if !may_have_traffic(before.pair(pair)) {
        return Err(Cause::BadPair.of_line());
    }
    if before.traffic().breaks_of(pair) >= MOST_BREAKS {
        return Err(Cause::TooMany.of_line());
    }
    Ok(Given::Break { pair })
}

/// Returns the lane that a queue's side sends.
fn lane_of(name: QueueName) -> LaneName
    ensures { result ≡ rules.script_lane_of name }
{
    LaneName {
        pair: name.pair,
        from: name.side,
        queue: name.queue,
    }
}

/// `frame PAIR SIDE QUEUE HEX`
fn frame_line(alloc: Global, before: &Reader, on: QueueWords<'_>, frame: &[u8]) -> LineResult
    ensures { ReadsLine (result_map given_of result) (rules.traffic_frame_line before.now on.entry.pair.now on.entry.side.now on.entry.queue.now frame.now) }
{
    let name = read_queue_name(before, 2, on)?;
    let lane = lane_of(name);
    let bytes = read_bytes_at(alloc, 5, frame)?;
    test_lane(before, lane, bytes.len() as u64, 1)?;
    let frame = Frame::of_vec(bytes.into_vec());
    Ok(Given::Frame { lane, frame })
}

/// `flood PAIR SIDE QUEUE COUNT LEN`
fn flood_line(
    before: &Reader,
    on: QueueWords<'_>,
    count: &[u8],
    len: &[u8],
) -> Result<Given, LineFault>
    ensures { result_map given_of result ≡ rules.flood_line before.now on.entry.pair.now on.entry.side.now on.entry.queue.now count.now len.now }
{
    let name = read_queue_name(before, 2, on)?;
    let lane = lane_of(name);
    let count = read_number_in(5, 1, MOST_TRAFFIC_FRAMES as u32, count)?;
    let len = read_number_in(6, 1, MOST_FRAME_BYTES, len)?;
    test_lane(before, lane, len as u64, count as u64)?;
    Ok(Given::Flood { lane, count, len })
}

/// Returns a line among the traffic.
pub fn traffic_line(alloc: Global, before: &Reader, word: &[u8], words: &[&[u8]]) -> LineResult
    ensures { ReadsLine (result_map given_of result) (rules.traffic_line before.now word.now (map (λ word. word.now) words.now)) }
{
    match words {
        [] => Err(LineError::Fault(unknown_line())),
        [pair] => {
            if word == b"break".as_slice() {
                or_fault(break_line(before, pair))
            } else {
                Err(LineError::Fault(unknown_line()))
            }
        }
        [_, _] => Err(LineError::Fault(unknown_line())),
        [_, _, _] => Err(LineError::Fault(unknown_line())),
        [pair, side, queue, frame] => {
            if word == b"frame".as_slice() {
                frame_line(alloc, before, QueueWords { pair, side, queue }, frame)
            } else {
                Err(LineError::Fault(unknown_line()))
            }
        }
        [pair, side, queue, count, len] => {
            if word == b"flood".as_slice() {
                or_fault(flood_line(before, QueueWords { pair, side, queue }, count, len))
            } else {
                Err(LineError::Fault(unknown_line()))
            }
        }
        _ => Err(LineError::Fault(unknown_line())),
    }
}
