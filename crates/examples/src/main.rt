//! Short uses of the crates, for callers to read, each in a module of its own. Of each row the program says whether its
//! answers are those that were worked out by hand from the definitions. Then it prints what came of a lane between
//! threads, and the answers to the steps of a script.
#![tactic(auto)]

mod cluster_steps;
mod in_one_ring;
mod lane_threads;
mod of_ends;
mod of_loads;
mod of_passes;
mod of_queues;
mod of_reports;
mod of_versions;
mod of_worlds;

use cluster_steps::script_answers;
use in_one_ring::{LaneRow, is_shown};
use lane_threads::send_in_threads;
use of_ends::{EndsRow, ends_show};
use of_loads::load_has_its_steps;
use of_passes::one_of_two_frames_goes_round;
use of_queues::begun_frame_is_posted;
use of_reports::report_has_its_lines;
use of_versions::versions_wrap;
use of_worlds::{all_items_come, second_session_begins_again};
use std::alloc::{AllocError, Global};
use std::io::Write;
use std::test::Fail;
use std::thread::Threads;

/// What a row shows.
#[derive(Clone, Copy)]
enum Row {
    OfLane(LaneRow),
    LoadHasItsSteps,
    AllItemsCome,
    SecondSessionBeginsAgain,
    OneOfTwoFramesGoesRound,
    OfEnds(EndsRow),
    BegunFrameIsPosted,
    VersionsWrap,
    ReportHasItsLines,
}

const ROWS: [Row; 14] = [
    Row::OfLane(LaneRow::FrameComesWhole),
    Row::OfLane(LaneRow::LinkDownEntryStays),
    Row::OfLane(LaneRow::LostWriteNeverLands),
    Row::LoadHasItsSteps,
    Row::AllItemsCome,
    Row::SecondSessionBeginsAgain,
    Row::OneOfTwoFramesGoesRound,
    Row::OfEnds(EndsRow::FullRingRefuses),
    Row::OfEnds(EndsRow::EntryIsGivenBack),
    Row::OfEnds(EndsRow::CutLaneRefuses),
    Row::OfEnds(EndsRow::ThreadsKeepOrder),
    Row::BegunFrameIsPosted,
    Row::VersionsWrap,
    Row::ReportHasItsLines,
];

fn main(rt: HostRuntime) -> Result<(), Fail> {
    for row in ROWS.as_slice() {
        let word = word_of(has_passed(&rt, rt.alloc(), *row)?);
        println!(rt; "{word}: {}", text_of(*row))?;
    }
    let carried = send_in_threads(&rt, rt.alloc())?;
    println!(rt; "sent {}, came {}", carried.sent, carried.came)?;
    println!(rt; "in order: {}", carried.in_order)?;
    let answers = script_answers(rt.alloc())?;
    rt.stdout().write_all(answers.as_slice())?;
    Ok(())
}

fn has_passed<R: Threads + Sync>(rt: &R, alloc: Global, row: Row) -> Result<bool, AllocError> {
    match row {
        Row::OfLane(row) => is_shown(alloc, row),
        Row::LoadHasItsSteps => load_has_its_steps(alloc),
        Row::AllItemsCome => all_items_come(alloc),
        Row::SecondSessionBeginsAgain => second_session_begins_again(alloc),
        Row::OneOfTwoFramesGoesRound => one_of_two_frames_goes_round(alloc),
        Row::OfEnds(row) => ends_show(rt, alloc, row),
        Row::BegunFrameIsPosted => begun_frame_is_posted(alloc),
        Row::VersionsWrap => Ok(versions_wrap()),
        Row::ReportHasItsLines => report_has_its_lines(alloc),
    }
}

fn text_of(row: Row) -> &'static str {
    match row {
        Row::OfLane(LaneRow::FrameComesWhole) => {
            "A frame comes whole, and its entry is given back."
        }
        Row::OfLane(LaneRow::LinkDownEntryStays) => "A link-down entry is seen again.",
        Row::OfLane(LaneRow::LostWriteNeverLands) => "What is posted on a lost link never lands.",
        Row::LoadHasItsSteps => "A load of one frame has its steps.",
        Row::AllItemsCome => "Both items come, although a session is lost.",
        Row::SecondSessionBeginsAgain => "An item of a lost session is old in the next one.",
        Row::OneOfTwoFramesGoesRound => "Of two frames one goes round before the link is cut.",
        Row::OfEnds(EndsRow::FullRingRefuses) => {
            "A ring of four takes three frames, and refuses a fourth."
        }
        Row::OfEnds(EndsRow::EntryIsGivenBack) => {
            "A ring of two takes a frame again once its entry is given back."
        }
        Row::OfEnds(EndsRow::CutLaneRefuses) => "A frame comes back from a lane that is cut.",
        Row::OfEnds(EndsRow::ThreadsKeepOrder) =>
            "Three ends in threads carry three frames in order.",
        Row::BegunFrameIsPosted => "A frame is begun once, and its five writes are posted.",
        Row::VersionsWrap => "The version of entry 2^32 is 0 again.",
        Row::ReportHasItsLines => "A report has a line for each answer and lane, and ends.",
    }
}

fn word_of(passed: bool) -> &'static str {
    if passed { "passed" } else { "FAILED" }
}
