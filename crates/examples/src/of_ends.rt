//! Rows of the five ends of a lane between threads.

ghost use Rattle.std.specs.Prelude.{◌≡◌, ◌≤◌, ◌<◌, ◌+◌, length};

use crate::lane_threads::push_frames;
use std::alloc::{AllocError, Global};
use std::thread;
use std::thread::{Threads, join_mut};
use step_kinds::Frame;
use table_lane::{
    BackAnswer, BackEnd, LaneEnd, MoveAnswer, MoveEnd, RecvAnswer, RecvEnd, SendAnswer, SendEnd,
    finish, make,
};

/// What the ends of a lane show.
#[derive(Clone, Copy)]
pub enum EndsRow {
    /// A ring of four entries takes three frames and refuses a fourth. They come in order, and then none does.
    FullRingRefuses,
    /// A ring of two entries takes a second frame once the entry of the first one is given back.
    EntryIsGivenBack,
    /// A lane whose link is cut refuses a frame, which comes back.
    CutLaneRefuses,
    /// Three ends in threads carry three frames in order, of which the ring refuses a fourth.
    ThreadsKeepOrder,
}

/// Returns whether the ends of a lane show what the row says. It may be out of memory.
pub fn ends_show<R: Threads + Sync>(
    rt: &R,
    alloc: Global,
    row: EndsRow,
) -> Result<bool, AllocError> {
    match row {
        EndsRow::FullRingRefuses => full_ring_refuses(alloc),
        EndsRow::EntryIsGivenBack => entry_is_given_back(alloc),
        EndsRow::CutLaneRefuses => cut_lane_refuses(alloc),
        EndsRow::ThreadsKeepOrder => threads_keep_order(rt, alloc),
    }
}

// Sends a frame of one byte.
fn send(alloc: Global, end: &mut SendEnd, byte: u8) -> Result<SendAnswer, AllocError>
    requires { length end.old.part.sent < 8 }
    ensures lane { end.new.lane ≡ end.old.lane }
    ensures few { length end.new.part.sent ≤ length end.old.part.sent + 1 }
{
    let frame = Frame::of_vec(vec![in alloc; byte]?);
    Ok(end.send(frame))
}

// Returns whether a frame of this byte is sent, as the entry with this number.
fn sends(alloc: Global, end: &mut SendEnd, byte: u8, entry: u64) -> Result<bool, AllocError>
    requires { length end.old.part.sent < 8 }
    ensures lane { end.new.lane ≡ end.old.lane }
    ensures few { length end.new.part.sent ≤ length end.old.part.sent + 1 }
{
    let answer = send(alloc, end, byte)?;
    Ok(match &answer {
        SendAnswer::Sent { number } => *number == entry,
        SendAnswer::NoRoom { .. } | SendAnswer::Cut { .. } => false,
    })
}

// Returns whether a frame of this byte comes back, since the ring is full, with head and tail at this position.
fn is_refused(alloc: Global, end: &mut SendEnd, byte: u8, at: u32) -> Result<bool, AllocError>
    requires { length end.old.part.sent < 8 }
    ensures lane { end.new.lane ≡ end.old.lane }
    ensures few { length end.new.part.sent ≤ length end.old.part.sent + 1 }
{
    let answer = send(alloc, end, byte)?;
    Ok(match &answer {
        SendAnswer::NoRoom { frame, head, tail } => {
            is_byte(frame, byte) && *head == at && *tail == at
        }
        SendAnswer::Sent { .. } | SendAnswer::Cut { .. } => false,
    })
}

fn is_byte(frame: &Frame, byte: u8) -> bool {
    frame.bytes() == [byte].as_slice()
}

// Returns whether a frame of this byte is received, as the entry with this number.
fn receives(end: &mut RecvEnd, byte: u8, entry: u64) -> bool {
    match end.recv() {
        RecvAnswer::Got { number, frame } => number == entry && is_byte(&frame, byte),
        RecvAnswer::Empty => false,
    }
}

// Returns whether nothing is received.
fn receives_none(end: &mut RecvEnd) -> bool {
    match end.recv() {
        RecvAnswer::Got { .. } => false,
        RecvAnswer::Empty => true,
    }
}

// Returns whether a ring of four entries takes `a`, `b` and `c`, and `d` comes back.
fn is_filled(alloc: Global, end: &mut SendEnd) -> Result<bool, AllocError>
    requires { length end.old.part.sent ≡ 0 }
    ensures { end.new.lane ≡ end.old.lane }
{
    let first = sends(alloc, end, b'a', 0)?;
    let second = sends(alloc, end, b'b', 1)?;
    let third = sends(alloc, end, b'c', 2)?;
    let fourth = is_refused(alloc, end, b'd', 3)?;
    Ok(first && second && third && fourth)
}

// Returns a ring of four entries, in one thread.
fn full_ring_refuses(alloc: Global) -> Result<bool, AllocError> {
    let (mut send, mut mover, mut recv, _back, _cut) = make(alloc, 4)?;
    let filled = is_filled(alloc, &mut send)?;
    move_all(&mut mover);
    Ok(
        filled
            && mover.step(0) == MoveAnswer::Idle
            && receives(&mut recv, b'a', 0)
            && receives(&mut recv, b'b', 1)
            && receives(&mut recv, b'c', 2)
            && receives_none(&mut recv),
    )
}

// Returns whether the first frame is taken, and its header and its flag are stored.
fn moves_first(end: &mut MoveEnd) -> bool {
    end.step(0) == MoveAnswer::Took { number: 0 }
        && end.step(0) == MoveAnswer::Header { number: 0 }
        && end.step(0) == MoveAnswer::Flag { number: 0 }
}

// Returns a ring of two entries, which has room for one frame.
fn entry_is_given_back(alloc: Global) -> Result<bool, AllocError> {
    let (mut send, mut mover, mut recv, mut back, _cut) = make(alloc, 2)?;
    goes_round(alloc, &mut send, &mut mover, &mut recv, &mut back)
}

// Returns whether the entry of a ring of two goes round, and takes the next frame.
fn goes_round(
    alloc: Global,
    send: &mut SendEnd,
    mover: &mut MoveEnd,
    recv: &mut RecvEnd,
    back: &mut BackEnd,
) -> Result<bool, AllocError>
    requires { length send.old.part.sent ≡ 0 }
{
    let first = sends(alloc, send, b'a', 0)?;
    let second = is_refused(alloc, send, b'b', 1)?;
    let is_round = moves_first(mover)
        && receives(recv, b'a', 0)
        && back.step() == BackAnswer::Index { number: 0 };
    let third = sends(alloc, send, b'b', 1)?;
    Ok(first && second && is_round && third)
}

// Returns a ring of two entries whose link is cut before the first frame.
fn cut_lane_refuses(alloc: Global) -> Result<bool, AllocError> {
    let (mut send, _mover, _recv, _back, mut cut) = make(alloc, 2)?;
    cut.cut();
    comes_back(alloc, &mut send)
}

// Returns whether a frame comes back, since the link is cut.
fn comes_back(alloc: Global, end: &mut SendEnd) -> Result<bool, AllocError>
    requires { length end.old.part.sent ≡ 0 }
{
    let answer = send(alloc, end, b'c')?;
    Ok(match &answer {
        SendAnswer::Cut { frame } => is_byte(frame, b'c'),
        SendAnswer::Sent { .. } | SendAnswer::NoRoom { .. } => false,
    })
}

/// This many turns an end in a thread makes at most.
const END_TURNS: u32 = 1_000_000;

/// The entry of the last frame that it moves or receives.
const LAST: u64 = 2;

// Moves until the last frame's flag is stored, or the turns are made.
fn move_all(end: &mut MoveEnd)
    ensures { end.new.lane ≡ end.old.lane }
{
    for turn in 0..END_TURNS {
        match end.step(u64::from(turn)) {
            MoveAnswer::Flag { number: LAST } => return,
            MoveAnswer::Idle => thread::yield_now(),
            MoveAnswer::Took { .. } | MoveAnswer::Header { .. } | MoveAnswer::Flag { .. } => {}
        }
    }
}

// Receives until all frames came, or the turns are made, and keeps their bytes.
fn receive_all(end: &mut RecvEnd, got: &mut Vec<u8>) -> Result<(), AllocError>
    ensures { end.new.lane ≡ end.old.lane }
{
    for _ in 0..END_TURNS {
        match end.recv() {
            RecvAnswer::Got { number, frame } => {
                got.extend_from_slice(frame.bytes())?;
                if number == LAST {
                    break;
                }
            }
            RecvAnswer::Empty => thread::yield_now(),
        }
    }
    Ok(())
}

// A ring of four entries whose sender, mover and receiver have a thread each.
fn threads_keep_order<R: Threads + Sync>(rt: &R, alloc: Global) -> Result<bool, AllocError> {
    let mut got = Vec::new(alloc);
    let (filled, end) = carried(rt, alloc, &mut got)?;
    push_frames(&mut got, &end.left)?;
    Ok(filled && got.as_slice() == b"abc".as_slice())
}

// Returns what came, whether the ring was filled, and what the lane leaves.
fn carried<R: Threads + Sync>(
    rt: &R,
    alloc: Global,
    got: &mut Vec<u8>,
) -> Result<(bool, LaneEnd), AllocError> {
    let (mut send, mut mover, mut recv, back, cut) = make(alloc, 4)?;
    let mut filled = Ok(false);
    let mut came = Ok(());
    join_mut(
        rt,
        &mut || {
            filled = is_filled(alloc, &mut send);
        },
        &mut || {
            join_mut(
                rt,
                &mut || move_all(&mut mover),
                &mut || {
                    came = receive_all(&mut recv, got);
                },
            );
        },
    );
    let filled = filled?;
    came?;
    Ok((filled, finish(send, mover, recv, back, cut)))
}
