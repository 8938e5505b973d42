//! The text of a run, whatever the schedule was.

use std::alloc::{AllocError, Global};

/// What a lane has to come to: its sessions accept a flood of frames, and the last one leaves none.
#[derive(Clone, Copy)]
struct LaneFlood {
    sessions: u64,
    frames: u64,
    len: u64,
}

/// What of a lane was read so far.
#[derive(Clone, Copy)]
struct LaneSeen {
    /// Whether the lines belong to the lane.
    is_open: bool,
    /// Its sessions.
    sessions: u64,
    /// The frames of all sessions, those that were delivered and those that were left.
    frames: u64,
    /// The number of the next frame in this session.
    number: u64,
    /// The frames that this session left.
    left: u64,
    /// Whether all lines are as they have to be.
    is_right: bool,
}

/// Returns whether a text is that of a run whose lanes come to what these lines say. Each line has the pair, the side,
/// the queue, the number of sessions, and the number and the length of the frames of the lane's flood. Returns an error
/// if memory runs out.
pub fn are_sessions(alloc: Global, text: &str, lanes: &str) -> Result<bool, AllocError> {
    let mut passed = text.ends_with("\nend\n");
    for lane in lanes.lines() {
        let words: Vec<&str> = lane.split(' ').collect(alloc)?;
        passed = passed && lane_is_right(alloc, text, &words)?;
    }
    Ok(passed)
}

// Returns whether the lines of one lane are those of its flood.
fn lane_is_right(alloc: Global, text: &str, words: &[&str]) -> Result<bool, AllocError> {
    let [pair, side, queue, sessions, frames, len] = words else {
        return Ok(false);
    };
    let flood = LaneFlood {
        sessions: number_of(sessions),
        frames: number_of(frames),
        len: number_of(len),
    };
    let mut seen = LaneSeen {
        is_open: false,
        sessions: 0,
        frames: 0,
        number: 0,
        left: 0,
        is_right: true,
    };
    for line in text.lines() {
        take_words(alloc, &mut seen, &flood, &[pair, side, queue], line)?;
    }
    Ok(
        seen.is_right
            && seen.sessions == flood.sessions
            && seen.frames == flood.frames
            && seen.left == 0,
    )
}

// Takes a line of the text by its words.
fn take_words(
    alloc: Global,
    seen: &mut LaneSeen,
    flood: &LaneFlood,
    lane: &[&str],
    line: &str,
) -> Result<(), AllocError> {
    let words: Vec<&str> = line.split(' ').collect(alloc)?;
    take_line(seen, flood, lane, &words);
    Ok(())
}

// Takes a line of the text: one of eleven words begins a session, one of three is a frame's.
fn take_line(seen: &mut LaneSeen, flood: &LaneFlood, lane: &[&str], line: &[&str]) {
    match line {
        [
            _,
            pair,
            side,
            queue,
            session,
            _,
            accepted,
            _,
            delivered,
            _,
            left,
        ] => {
            seen.is_open = lane == [*pair, *side, *queue].as_slice();
            if seen.is_open {
                take_session(seen, [session, accepted, delivered, left]);
            }
        }
        [word, number, hex] if seen.is_open => take_frame(seen, flood, word, number, hex),
        _ => {}
    }
}

// Takes the line that begins a session.
fn take_session(seen: &mut LaneSeen, words: [&str; 4]) {
    let [session, accepted, delivered, left] = words;
    seen.sessions = seen.sessions.saturating_add(1);
    seen.number = 0;
    seen.left = number_of(left);
    seen.is_right = seen.is_right
        && number_of(session) == seen.sessions
        && number_of(accepted) == number_of(delivered).saturating_add(seen.left);
}

// Takes the line of a frame.
fn take_frame(seen: &mut LaneSeen, flood: &LaneFlood, word: &str, number: &str, hex: &str) {
    seen.is_right = seen.is_right
        && (word == "frame" || word == "left")
        && number_of(number) == seen.number
        && is_frame_of(flood, seen.frames, hex.as_bytes());
    seen.number = seen.number.saturating_add(1);
    seen.frames = seen.frames.saturating_add(1);
}

/// Hexadecimal digits.
const DIGITS: [u8; 16] = *b"0123456789abcdef";

// Returns whether these are the digits of a flood's frame: byte j of frame i is i + j modulo 256.
fn is_frame_of(flood: &LaneFlood, frame: u64, hex: &[u8]) -> bool {
    let mut passed = hex.len() as u64 == flood.len.saturating_mul(2);
    for (place, digits) in hex.chunks(2).enumerate() {
        let byte = (frame % 256 + place as u64 % 256) % 256;
        let high = DIGITS[(byte / 16) as usize];
        let low = DIGITS[(byte % 16) as usize];
        passed = passed && digits == [high, low].as_slice();
    }
    passed
}

// Returns a number, or one that none is.
fn number_of(word: &str) -> u64 {
    word.parse::<u64>().unwrap_or(u64::MAX)
}
