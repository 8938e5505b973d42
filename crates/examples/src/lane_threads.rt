//! Frames go through the five ends of one lane of `table_lane`, in threads.

ghost use Rattle.std.specs.Prelude.{◌≡◌, ◌≤◌, ◌<◌, ◌+◌, length};

use std::alloc::{AllocError, Global};
use std::thread;
use std::thread::{Threads, join_mut};
use step_kinds::{Frame, FrameList};
use table_lane::{
    BackAnswer, BackEnd, LaneEnd, MoveAnswer, MoveEnd, RecvAnswer, RecvEnd, SendEnd, finish, make,
};

/// A ring of eight entries has room for seven frames.
const ENTRIES: u32 = 8;

/// Each of these bytes is a frame.
const FRAMES: [u8; 5] = *b"lanes";

/// This many turns an end makes at most, so that each thread ends.
const TRIES: u32 = 4_096;

/// What came of the frames.
#[derive(Clone, Copy)]
pub struct Carried {
    /// How many frames were sent.
    pub sent: usize,
    /// How many bytes came, of which each is a frame.
    pub came: usize,
    /// Whether they came in order.
    pub in_order: bool,
}

/// Sends five frames through a lane whose ends have a thread each. It may be out of memory.
pub fn send_in_threads<R: Threads + Sync>(rt: &R, alloc: Global) -> Result<Carried, AllocError> {
    let mut got = Vec::new(alloc);
    let end = carry_frames(rt, alloc, &mut got)?;
    push_frames(&mut got, &end.left)?;
    Ok(Carried {
        sent: FRAMES.len(),
        came: got.len(),
        in_order: got.as_slice() == FRAMES.as_slice(),
    })
}

// Makes a lane and sends the frames through it. The sender, the mover with the way back, and the receiver have a thread
// each. What the receiver hadn't found when it left comes out at the end.
fn carry_frames<R: Threads + Sync>(
    rt: &R,
    alloc: Global,
    got: &mut Vec<u8>,
) -> Result<LaneEnd, AllocError> {
    let (mut send, mut mover, mut recv, mut back, cut) = make(alloc, ENTRIES)?;
    let mut sent = Ok(());
    let mut came = Ok(());
    join_mut(
        rt,
        &mut || {
            sent = send_all(alloc, &mut send);
        },
        &mut || {
            join_mut(
                rt,
                &mut || move_all(&mut mover, &mut back),
                &mut || {
                    came = receive_all(&mut recv, got);
                },
            );
        },
    );
    sent?;
    came?;
    Ok(finish(send, mover, recv, back, cut))
}

// Sends each frame: the ring has room for all of them.
fn send_all(alloc: Global, end: &mut SendEnd) -> Result<(), AllocError>
    requires { length end.old.part.sent ≡ 0 }
    ensures { end.new.lane ≡ end.old.lane }
{
    for byte in FRAMES.as_slice() {
        send_byte(alloc, end, *byte)?;
    }
    Ok(())
}

// Sends a frame of one byte. A refused frame would come back in the answer.
fn send_byte(alloc: Global, end: &mut SendEnd, byte: u8) -> Result<(), AllocError>
    requires { length end.old.part.sent < 8 }
    ensures lane { end.new.lane ≡ end.old.lane }
    ensures few { length end.new.part.sent ≤ length end.old.part.sent + 1 }
{
    let frame = Frame::of_vec(vec![in alloc; byte]?);
    let _answer = end.send(frame);
    Ok(())
}

// Lands what is in flight, and brings the index words back.
fn move_all(mover: &mut MoveEnd, back: &mut BackEnd)
    ensures mover { mover.new.lane ≡ mover.old.lane }
    ensures back { back.new.lane ≡ back.old.lane }
{
    for turn in 0..TRIES {
        let moved = mover.step(u64::from(turn));
        let given_back = back.step();
        if moved == MoveAnswer::Idle && given_back == BackAnswer::Idle {
            thread::yield_now();
        }
    }
}

// Receives frames, and keeps their bytes.
fn receive_all(end: &mut RecvEnd, got: &mut Vec<u8>) -> Result<(), AllocError>
    ensures { end.new.lane ≡ end.old.lane }
{
    for _ in 0..TRIES {
        match end.recv() {
            RecvAnswer::Got { frame, .. } => got.extend_from_slice(frame.bytes())?,
            RecvAnswer::Empty => thread::yield_now(),
        }
    }
    Ok(())
}

/// Adds the bytes of frames. It may be out of memory.
pub fn push_frames(got: &mut Vec<u8>, frames: &FrameList) -> Result<(), AllocError> {
    for place in 0..frames.len() {
        got.extend_from_slice(frames.frame_at(place).bytes())?;
    }
    Ok(())
}
