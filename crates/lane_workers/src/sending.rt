//! The passes of the worker that sends.
ghost use Rattle.std.specs.Prelude.{◌≡◌, ◌≢◌, ◌+◌, ◌≤◌, ◌<◌, ◌^◌, ◌++◌, [], length};
ghost use Rattle.table_lane.specs.ShownLane.{most_lane_frames};
ghost use Rattle.lane_workers.specs.Passes.{HaveBytes, LetsTurns};

use crate::idling::{Idling, Turn};
use crate::turn_gate::TurnGate;
use step_kinds::FrameList;
use table_lane::{SendAnswer, SendEnd};

/// One turn: the first frame of `todo`, if there is one, is sent, or put back before the others where it is refused.
fn send_turn(end: &mut SendEnd, todo: &mut FrameList) -> Turn
    requires bytes { HaveBytes todo.old.frames }
    requires counted { length end.old.part.sent + length todo.old.frames < most_lane_frames }
    ensures lane { end.new.lane ≡ end.old.lane }
    ensures entries { end.new.part.entries ≡ end.old.part.entries }
    ensures order { end.new.part.sent ++ todo.new.frames ≡ end.old.part.sent ++ todo.old.frames }
    ensures count { length end.new.part.sent + length todo.new.frames ≡ length end.old.part.sent + length todo.old.frames }
    ensures grows { length end.old.part.sent ≤ length end.new.part.sent }
    ensures bytes { HaveBytes todo.new.frames }
    ensures room { todo.new.spare + length todo.new.frames ≡ todo.old.spare + length todo.old.frames }
    ensures one_each { end.new.part.link_loads ≤ end.old.part.link_loads + 1 }
    ensures tries { todo.new.frames ≢ [] → end.new.part.link_loads ≡ end.old.part.link_loads + 1 }
{
    let Some(frame) = todo.take_first() else {
        return Turn::Over;
    };
    match end.send(frame) {
        SendAnswer::Sent { .. } => Turn::Useful,
        SendAnswer::NoRoom { frame, .. } => {
            todo.put_back(frame);
            Turn::Idle
        }
        SendAnswer::Cut { frame } => {
            todo.put_back(frame);
            Turn::Over
        }
    }
}

/// Makes at least 1 and at most `turns` turns of the worker that sends, and returns how many. Before each it passes the
/// gate with the turn's number, counted from `first`. A turn with a frame in `todo` is one [`SendEnd::send`] of the
/// first; a frame that is refused stands before the others again. So what was sent and what is left in `todo` are
/// together what they were before, in the same order. Room that a frame leaves in `todo` is promised again.
///
/// The pass may end early: if `todo` is empty, if the link was cut, or if its turns did nothing for a while. It
/// takes no memory and never waits for another worker.
///
/// Each frame in `todo` has to have a byte. What was sent and what is to be sent are fewer than 2^62 frames. `turns` is
/// at least 1, and `first + turns` fits a `u64`. The gate has to let the worker pass before each turn.
pub fn send_pass<G: TurnGate>(
    end: &mut SendEnd,
    todo: &mut FrameList,
    gate: &G,
    worker: u32,
    first: u64,
    turns: u32,
) -> u32
    requires bytes { HaveBytes todo.old.frames }
    requires counted { length end.old.part.sent + length todo.old.frames < most_lane_frames }
    requires some { 1 ≤ turns }
    requires fits { first + turns < 2 ^ 64 }
    requires gate { LetsTurns (G.lets gate.now) worker first turns }
    ensures lane { end.new.lane ≡ end.old.lane }
    ensures entries { end.new.part.entries ≡ end.old.part.entries }
    ensures order { end.new.part.sent ++ todo.new.frames ≡ end.old.part.sent ++ todo.old.frames }
    ensures count { length end.new.part.sent + length todo.new.frames ≡ length end.old.part.sent + length todo.old.frames }
    ensures grows { length end.old.part.sent ≤ length end.new.part.sent }
    ensures bytes { HaveBytes todo.new.frames }
    ensures room { todo.new.spare + length todo.new.frames ≡ todo.old.spare + length todo.old.frames }
    ensures some { 1 ≤ result }
    ensures at_most { result ≤ turns }
    ensures one_each { end.new.part.link_loads ≤ end.old.part.link_loads + result }
    ensures tries { todo.new.frames ≢ [] → end.new.part.link_loads ≡ end.old.part.link_loads + result }
{
    let mut idling = Idling::new();
    let mut made = 0;
    while made < turns {
        gate.admit(worker, first + u64::from(made));
        let turn = send_turn(end, todo);
        made += 1;
        if idling.ends_with(turn) {
            break;
        }
    }
    made
}
