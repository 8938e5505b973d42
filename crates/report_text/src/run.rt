//! The text of a threaded run.

ghost use Rattle.std.specs.Prelude.{◌≡◌, ◌++◌, ◌+◌, ◌<◌, ◌≤◌, ◌^◌, IfOk, OnOk, All, length};
ghost use Rattle.std.specs.List.{flat_map};
ghost use Rattle.step_kinds.specs.Runs.{lane_shown, run_shown, session_shown};
ghost use Rattle.report_text.specs.Report.{counts_text, frame_line, frame_lines, record_of, run_lines, session_lines};

use crate::append::{push_frame, push_numbers, push_word};
use crate::whole::push_lane;
use std::alloc::{AllocError, Global};
use step_kinds::{FrameList, LaneName, LaneRun, PairPlan, Plan, RunRecord, SessionRun};

// How many frames of a session were accepted, delivered and left.
#[derive(Clone, Copy)]
struct FrameCounts {
    accepted: u64,
    delivered: u64,
    left: u64,
}

/// Returns the text of a threaded run: for each lane of the record the lines of its sessions, from session 1 on, and
/// then `end`. A session has a line with how many frames were accepted, delivered and left. Then come these frames,
/// numbered from 0 in each session, those that were left after those that were delivered. Returns an error if memory
/// runs out.
///
/// Each lane names a pair of the plan.
pub fn record_text(alloc: Global, plan: &Plan, run: &RunRecord) -> Result<Vec<u8>, AllocError>
    requires known_pairs { All (λ lane. lane.name.pair < length plan.now.pairs) run.now.lanes }
    ensures { IfOk result (λ text. text.items ≡ record_of plan.now (run_shown run.now)) }
{
    let mut text = Vec::new(alloc);
    push_runs(&mut text, plan.pairs.as_slice(), run.lanes.as_slice())?;
    push_word(&mut text, "end\n")?;
    Ok(text)
}

// Adds the lines of all lanes.
fn push_runs(text: &mut Vec<u8>, pairs: &[PairPlan], lanes: &[LaneRun]) -> Result<(), AllocError>
    requires { All (λ lane. lane.name.pair < length pairs.now) lanes.now }
    ensures { OnOk result (text.new.items ≡ text.old.items ++ flat_map (λ lane. run_lines pairs.now (lane_shown lane)) lanes.now) }
{
    for lane in lanes {
        push_run(text, pairs, lane)?;
    }
    Ok(())
}

// Adds the lines of a lane's sessions.
fn push_run(text: &mut Vec<u8>, pairs: &[PairPlan], lane: &LaneRun) -> Result<(), AllocError>
    requires { lane.now.name.pair < length pairs.now }
    ensures { OnOk result (text.new.items ≡ text.old.items ++ run_lines pairs.now (lane_shown lane.now)) }
{
    let sessions = lane.sessions.as_slice();
    for place in 0..sessions.len() {
        push_session(text, pairs, &lane.name, place as u64 + 1, &sessions[place])?;
    }
    Ok(())
}

// Adds the lines of a session.
fn push_session(
    text: &mut Vec<u8>,
    pairs: &[PairPlan],
    lane: &LaneName,
    session: u64,
    run: &SessionRun,
) -> Result<(), AllocError>
    requires { lane.now.pair < length pairs.now }
    ensures { OnOk result (text.new.items ≡ text.old.items ++ session_lines pairs.now lane.now session (session_shown run.now)) }
{
    let delivered = run.delivered.len() as u64;
    let left = run.left.len() as u64;
    let accepted = delivered.checked_add(left).ok_or(AllocError)?;
    push_lane(text, pairs, lane, session)?;
    let counts = FrameCounts {
        accepted,
        delivered,
        left,
    };
    push_counts(text, counts)?;
    push_frames(text, "frame", 0, &run.delivered)?;
    push_frames(text, "left", delivered, &run.left)
}

// Adds how many frames a session accepted, delivered and left, and ends the line.
fn push_counts(text: &mut Vec<u8>, counts: FrameCounts) -> Result<(), AllocError>
    ensures { OnOk result (text.new.items ≡ text.old.items ++ counts_text counts.accepted counts.delivered counts.left) }
{
    push_word(text, " accepted")?;
    push_numbers(text, &[counts.accepted])?;
    push_word(text, " delivered")?;
    push_numbers(text, &[counts.delivered])?;
    push_word(text, " left")?;
    push_numbers(text, &[counts.left])?;
    push_word(text, "\n")
}

/// Adds frames after a word, numbered from `first` on. The number after the last is below 2^64.
#[tactic(auto, using(crate::proofs::Runs::frame_lines_more))]
pub(crate) fn push_frames(
    text: &mut Vec<u8>,
    word: &str,
    first: u64,
    frames: &FrameList,
) -> Result<(), AllocError>
    requires { first + length frames.now.frames < 2 ^ 64 }
    ensures { OnOk result (text.new.items ≡ text.old.items ++ frame_lines word.now first frames.now.frames) }
{
    for place in 0..frames.len() {
        push_frame_line(
            text,
            word,
            first + place as u64,
            frames.frame_at(place).bytes(),
        )?;
    }
    Ok(())
}

// Adds a frame after a word and its number.
fn push_frame_line(
    text: &mut Vec<u8>,
    word: &str,
    number: u64,
    frame: &[u8],
) -> Result<(), AllocError>
    ensures { OnOk result (text.new.items ≡ text.old.items ++ frame_line word.now number frame.now) }
{
    push_word(text, word)?;
    push_numbers(text, &[number])?;
    push_word(text, " ")?;
    push_frame(text, frame)?;
    push_word(text, "\n")
}
