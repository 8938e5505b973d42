//! The passes of the worker that keeps a stream's items, and its acknowledgements.

ghost use Rattle.std.specs.Prelude.{◌≡◌, ◌+◌, ◌-◌, ◌≤◌, ◌<◌, ◌^◌, ◌++◌, ◌∷◌, [], if◌then◌else◌, length, fold, IfOk, OnOk, OnErr};
ghost use Rattle.stream_model.specs.Receiver.{Receiver, ack_frame, taken};
ghost use Rattle.table_lane.specs.ShownLane.{most_lane_frames};
ghost use Rattle.lane_workers.specs.Passes.{LetsTurns};
ghost use Rattle.cluster_run.specs.stream.Ends.{Grows};

use lane_workers::{IDLE_TURNS, TurnGate};
use resume_stream::StreamReceiver;
use std::alloc::AllocError;
use table_lane::{RecvAnswer, RecvEnd, SendAnswer, SendEnd};

// One turn: where a frame has landed, the stream takes it, and true is answered. Returns an error if memory runs out.
fn keep_next(end: &mut RecvEnd, receiver: &mut StreamReceiver) -> Result<bool, AllocError>
    requires { length receiver.old.items + 1 < 2 ^ 32 }
    ensures taken { OnOk result ((start : Receiver) → receiver.old ≡ fold taken start end.old.part.got → receiver.new ≡ fold taken start end.new.part.got) }
    ensures items { Grows 1 receiver.old.items receiver.new.items }
    ensures lane { end.new.lane ≡ end.old.lane }
{
    match end.recv() {
        RecvAnswer::Got { frame, .. } => {
            receiver.take(frame)?;
            Ok(true)
        }
        RecvAnswer::Empty => Ok(false),
    }
}

// Returns how many turns in a row were empty, with one turn more.
fn empty_after(empty: u32, came: bool) -> u32 {
    if came { 0 } else { empty.saturating_add(1) }
}

/// Makes at least 1 and at most this many turns, and returns how many. Before each it passes the gate with the turn's
/// number, counted from `first`. It ends early where nothing came for a while. Returns an error if memory runs out.
pub(crate) fn keep_pass<G: TurnGate>(
    end: &mut RecvEnd,
    receiver: &mut StreamReceiver,
    gate: &G,
    worker: u32,
    first: u64,
    turns: u32,
) -> Result<u32, AllocError>
    requires few { length receiver.old.items + turns < 2 ^ 32 }
    requires fits { first + turns < 2 ^ 64 }
    requires gate { LetsTurns (G.lets gate.now) worker first turns }
    ensures taken { OnOk result ((start : Receiver) → receiver.old ≡ fold taken start end.old.part.got → receiver.new ≡ fold taken start end.new.part.got) }
    ensures items { Grows turns receiver.old.items receiver.new.items }
    ensures lane { end.new.lane ≡ end.old.lane }
{
    let mut made = 0;
    let mut empty = 0;
    while made < turns && empty < IDLE_TURNS {
        gate.admit(worker, first + u64::from(made));
        let came = keep_next(end, receiver)?;
        empty = empty_after(empty, came);
        made += 1;
    }
    Ok(made)
}

/// Sends how many items the stream keeps, and returns whether the lane took it. Returns an error if memory runs out.
pub(crate) fn acknowledge(receiver: &StreamReceiver, end: &mut SendEnd) -> Result<bool, AllocError>
    requires { length end.old.part.sent < most_lane_frames }
    ensures sent { IfOk result (λ told. end.new.part.sent ≡ (if told then end.old.part.sent ++ ack_frame receiver.now ∷ [] else end.old.part.sent)) }
    ensures err { OnErr result (end.new ≡ end.old) }
    ensures lane { end.new.lane ≡ end.old.lane }
    ensures entries { end.new.part.entries ≡ end.old.part.entries }
{
    let frame = receiver.ack_frame()?;
    match end.send(frame) {
        SendAnswer::Sent { .. } => Ok(true),
        SendAnswer::NoRoom { .. } | SendAnswer::Cut { .. } => Ok(false),
    }
}
