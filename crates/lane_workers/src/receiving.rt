//! The passes of the worker that receives.
ghost use Rattle.std.specs.Prelude.{◌≡◌, ◌+◌, ◌≤◌, ◌<◌, ◌^◌, ◌++◌, length, take, drop};
ghost use Rattle.table_lane.specs.LaneNames.{Idle};
ghost use Rattle.lane_workers.specs.Passes.{LetsTurns};

use crate::idling::{Idling, Turn};
use crate::turn_gate::TurnGate;
use step_kinds::FrameList;
use table_lane::{RecvAnswer, RecvEnd};

/// One turn: the next frame, if it has landed, is put after the others in `got`.
fn recv_turn(end: &mut RecvEnd, got: &mut FrameList) -> Turn
    requires { 0 < got.old.spare }
    ensures lane { end.new.lane ≡ end.old.lane }
    ensures entries { end.new.part.entries ≡ end.old.part.entries }
    ensures kept { take (length end.old.part.got) end.new.part.got ≡ end.old.part.got }
    ensures got { got.new.frames ≡ got.old.frames ++ drop (length end.old.part.got) end.new.part.got }
    ensures room { got.new.spare + length got.new.frames ≡ got.old.spare + length got.old.frames }
    ensures at_most { got.old.spare ≤ got.new.spare + 1 }
    ensures tries { end.new.part.loads ≡ end.old.part.loads + 1 }
    ensures idle { end.new.part.phase ≡ Idle }
{
    match end.recv() {
        RecvAnswer::Got { frame, .. } => {
            got.push(frame);
            Turn::Useful
        }
        RecvAnswer::Empty => Turn::Idle,
    }
}

/// Makes at least 1 and at most `turns` turns of the worker that receives, and returns how many. Before each it passes
/// the gate with the turn's number, counted from `first`. A turn is one [`RecvEnd::recv`], and what comes is put after
/// the others in `got`, into room that is promised there. So `got` grows by just the frames that the end received, in
/// their order, and its room shrinks by their number.
///
/// The pass may end early, if its turns did nothing for a while. It takes no memory and never waits for another worker.
///
/// `got` has to have room for `turns` frames. `turns` is at least 1, and `first + turns` fits a `u64`. The gate has to
/// let the worker pass before each turn.
pub fn recv_pass<G: TurnGate>(
    end: &mut RecvEnd,
    got: &mut FrameList,
    gate: &G,
    worker: u32,
    first: u64,
    turns: u32,
) -> u32
    requires promised { turns ≤ got.old.spare }
    requires some { 1 ≤ turns }
    requires fits { first + turns < 2 ^ 64 }
    requires gate { LetsTurns (G.lets gate.now) worker first turns }
    ensures lane { end.new.lane ≡ end.old.lane }
    ensures entries { end.new.part.entries ≡ end.old.part.entries }
    ensures kept { take (length end.old.part.got) end.new.part.got ≡ end.old.part.got }
    ensures got { got.new.frames ≡ got.old.frames ++ drop (length end.old.part.got) end.new.part.got }
    ensures room { got.new.spare + length got.new.frames ≡ got.old.spare + length got.old.frames }
    ensures some { 1 ≤ result }
    ensures at_most { result ≤ turns }
    ensures tries { end.new.part.loads ≡ end.old.part.loads + result }
    ensures idle { end.new.part.phase ≡ Idle }
{
    let mut idling = Idling::new();
    let mut made = 0;
    while made < turns {
        gate.admit(worker, first + u64::from(made));
        let turn = recv_turn(end, got);
        made += 1;
        if idling.ends_with(turn) {
            break;
        }
    }
    made
}
