//! The receiver's end.
ghost use Rattle.std.specs.Prelude.{◌≡◌, ◌%◌, ◌≤◌, ◌<◌, ℕ, length, take, MatchOption, IfSome, IfNone};
ghost use Rattle.table_lane.specs.Views.{HasRecv, the_recv};
ghost use Rattle.table_lane.specs.LaneNames.{Idle};
ghost use Rattle.table_lane.specs.ShownLane.{most_lane_frames};
ghost use Rattle.table_lane.specs.Table.{IsTableOf};
ghost use Rattle.table_lane.specs.RecvAnswers.{Receives, IsReady, NothingCame, FrameCame};

use crate::board::{Board, DONE, LaneSeat, Standing, position_after};
use crate::steps::{acknowledge, clear_flag, load_flag, load_header};
use std::marker::Model;
use step_kinds::{Frame, FrameList};

/// The end that receives frames. It never waits and takes no memory.
///
/// A contract sees its table, and what it knows: the frames that were received, and its loads.
#[derive(Drop)]
pub struct RecvEnd {
    pub(crate) at: Standing,
    pub(crate) got: u64,
    /// The position of the next entry.
    pub(crate) position: u64,
    /// Room for all frames that a ring can have, for what `finish` takes out.
    pub(crate) left: FrameList,
}

/// What came of an attempt to receive a frame.
#[derive(Debug, Drop)]
pub enum RecvAnswer {
    /// The frame of the entry with this number, counted from 0.
    Got { number: u64, frame: Frame },
    /// The flag that this call loaded showed no DONE.
    Empty,
}

// Receives the next frame where the flag of its entry, at this position, is up: takes it out of its slot, clears the
// flag and acknowledges the entry.
pub(crate) fn receive(
    board: &Board,
    seat: &mut LaneSeat,
    entries: u64,
    position: u64,
) -> Option<Frame>
    requires table { (seat.old.table_id ≡ board.now.table_id) × IsTableOf entries board.now.table_id board.now.key }
    requires part { HasRecv seat.old.me.0 × IsReady entries (length (the_recv seat.old.me.0).got) (the_recv seat.old.me.0) }
    requires position { position ≡ length (the_recv seat.old.me.0).got % entries }
    ensures table { seat.new.table_id ≡ seat.old.table_id }
    ensures knows { MatchOption result ((found : ℕ) × NothingCame seat.old.me found seat.new.me) (λ frame. (length (the_recv seat.old.me.0).got < most_lane_frames) × FrameCame seat.old.me frame seat.new.me) }
    ensures begins { IfSome seat.old.me.0.send (λ send. (the_recv seat.new.me.0).got ≡ take (length (the_recv seat.new.me.0).got) send.sent) }
    ensures comes { IfNone result (IfSome seat.old.me.0.mover (λ mover. mover.flagged ≤ length (the_recv seat.old.me.0).got)) }
{
    if load_flag(board, seat, entries, position) != DONE {
        return None;
    }
    let _header = load_header(board, seat, entries, position);
    let frame = clear_flag(board, seat, entries, position).unwrap();
    acknowledge(board, seat, entries, position);
    Some(frame)
}

impl RecvEnd {
    /// Receives the next frame, if the flag that this call loads says that it has landed. The flag is then cleared,
    /// the slot is empty and index out names the entry.
    pub fn recv(&mut self) -> RecvAnswer
        ensures lane { self.new.lane ≡ self.old.lane }
        ensures receives { Receives self.old.part result self.new.part }
        ensures idle { self.new.part.phase ≡ Idle }
    {
        let number = self.got;
        let board = &self.at.table.shared;
        match receive(board, &mut self.at.seat, self.at.entries, self.position) {
            None => RecvAnswer::Empty,
            Some(frame) => {
                self.got = number + 1;
                self.position = position_after(self.at.entries, self.position, 1);
                RecvAnswer::Got { number, frame }
            }
        }
    }
}

impl Model for RecvEnd {
    ghost use Rattle.table_lane.specs.Ends.{TableReceiver};

    ghost Value = { TableReceiver };

    ghost use Rattle.table_lane.specs.EndFields.{table_receiver_of, IsRecvEnd};

    ghost view = { table_receiver_of };

    ghost invariant = { IsRecvEnd };
}
