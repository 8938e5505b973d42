//! The text of a stream.

ghost use Rattle.std.specs.Prelude.{◌≡◌, ◌++◌, ◌<◌, OnOk, length};
ghost use Rattle.report_text.specs.Report.{stream_line, stream_lines};

use crate::append::{push_numbers, push_word};
use crate::run::push_frames;
use crate::whole::side_word;
use std::alloc::AllocError;
use step_kinds::{FrameList, LaneName, PairPlan};

/// Adds the lines of a lane's stream: how many items it brought over how many sessions, then the items, numbered from
/// 0. Returns an error if memory runs out; a part of the lines may be added then.
///
/// The lane names one of the pairs.
pub fn push_stream(
    text: &mut Vec<u8>,
    pairs: &[PairPlan],
    lane: &LaneName,
    items: &FrameList,
    sessions: u32,
) -> Result<(), AllocError>
    requires { lane.now.pair < length pairs.now }
    ensures { OnOk result (text.new.items ≡ text.old.items ++ stream_lines pairs.now lane.now items.now.frames sessions) }
{
    push_line(text, pairs, lane, items.len() as u64, sessions)?;
    push_frames(text, "item", 0, items)
}

// Adds how many items a stream brought over how many sessions.
fn push_line(
    text: &mut Vec<u8>,
    pairs: &[PairPlan],
    lane: &LaneName,
    items: u64,
    sessions: u32,
) -> Result<(), AllocError>
    requires { lane.now.pair < length pairs.now }
    ensures { OnOk result (text.new.items ≡ text.old.items ++ stream_line pairs.now lane.now items sessions) }
{
    push_word(text, "stream ")?;
    text.extend_from_slice(pairs[lane.pair as usize].name.bytes())?;
    push_word(text, side_word(lane.from))?;
    push_numbers(text, &[u64::from(lane.queue)])?;
    push_word(text, " items")?;
    push_numbers(text, &[items])?;
    push_word(text, " sessions")?;
    push_numbers(text, &[u64::from(sessions)])?;
    push_word(text, "\n")
}
