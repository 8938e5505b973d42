//! The end of a lane: its five ends become one, and what is left in the ring comes out.
ghost use Rattle.std.specs.Prelude.{◌≡◌, ◌≤◌, ◌<◌, ◌+◌, ◌++◌, true, [], length, IfSome, MatchBool};
ghost use Rattle.table_lane.specs.Views.{table_joined, the_send, the_move, the_recv, the_cut};
ghost use Rattle.table_lane.specs.Words.{cut_word};
ghost use Rattle.table_lane.specs.ShownLane.{most_lane_frames};
ghost use Rattle.table_lane.specs.Table.{IsTableOf};
ghost use Rattle.table_lane.specs.NewEnds.{AreOfOneLane};
ghost use Rattle.table_lane.specs.RecvAnswers.{IsReady};
ghost use Rattle.table_lane.specs.EndOfLane.{CutIsMade, HasAll, MovesNext, TableOthersStay, shown_by};

use crate::back::{BackEnd, CutEnd};
use crate::board::{Board, LaneSeat, Standing, header_of, position_of};
use crate::mover::MoveEnd;
use crate::parts::LaneView;
use crate::plays::JoinsSeats;
use crate::recv::{RecvEnd, receive};
use crate::send::SendEnd;
use crate::steps::{load_posted, store_flag, store_header};
use atomic_table::Badge;
use std::marker::Model;
use step_kinds::FrameList;

/// What a lane did, by the seat of all its parts. Nothing else makes one but [`finish`].
///
/// A contract sees the frames that were sent, those that were received before [`finish`], the number of entries, and
/// whether the link was cut.
#[derive(Drop)]
pub struct LaneProof {
    badge: Badge<LaneView>,
    got: u64,
}

impl Model for LaneProof {
    ghost use Rattle.table_lane.specs.EndOfLane.{Shown};

    ghost Value = { Shown };

    ghost use Rattle.table_lane.specs.ProofFields.{shown_of, IsLaneProof};

    ghost view = { shown_of };

    ghost invariant = { IsLaneProof };
}

/// What a lane leaves.
#[derive(Drop)]
pub struct LaneEnd {
    /// The frames that were sent and not received, in order.
    pub left: FrameList,
    /// What the lane did.
    pub proof: LaneProof,
}

// Moves the next entry, if there is one: takes it, stores its header, and its flag.
fn move_next(board: &Board, seat: &mut LaneSeat, entries: u64, number: u64) -> bool
    requires table { (seat.old.table_id ≡ board.now.table_id) × IsTableOf entries board.now.table_id board.now.key }
    requires parts { HasAll seat.old.me × MovesNext entries number (the_move seat.old.me.0) }
    ensures table { seat.new.table_id ≡ seat.old.table_id }
    ensures parts { HasAll seat.new.me × TableOthersStay seat.old.me.0 seat.new.me.0 × (the_recv seat.new.me.0 ≡ the_recv seat.old.me.0) }
    ensures moved { MatchBool result
        ((number < length (the_send seat.old.me.0).sent) × (number < most_lane_frames) × MovesNext entries (number + 1) (the_move seat.new.me.0))
        ((length (the_send seat.old.me.0).sent ≤ number) × (length (the_send seat.old.me.0).sent + 1 ≤ length (the_recv seat.old.me.0).got + entries) × MovesNext entries number (the_move seat.new.me.0)) }
    ensures seen { CutIsMade seat.old.me.0 }
{
    let position = position_of(entries, number);
    if load_posted(board, seat, entries, position) != header_of(number) {
        return false;
    }
    store_header(board, seat, entries, number, position);
    store_flag(board, seat, entries, position);
    true
}

// Moves all entries that were sent and not yet taken, from entry `from` on.
fn move_all(board: &Board, seat: &mut LaneSeat, entries: u64, from: u64)
    requires table { (seat.old.table_id ≡ board.now.table_id) × IsTableOf entries board.now.table_id board.now.key }
    requires parts { HasAll seat.old.me × MovesNext entries from (the_move seat.old.me.0) }
    ensures table { seat.new.table_id ≡ seat.old.table_id }
    ensures parts { HasAll seat.new.me × TableOthersStay seat.old.me.0 seat.new.me.0 × (the_recv seat.new.me.0 ≡ the_recv seat.old.me.0) }
    ensures moved { length (the_send seat.old.me.0).sent ≤ (the_move seat.new.me.0).flagged }
    ensures room { length (the_send seat.old.me.0).sent + 1 ≤ length (the_recv seat.old.me.0).got + entries }
    ensures seen { CutIsMade seat.old.me.0 }
{
    let mut number = from;
    while move_next(board, seat, entries, number) {
        number += 1;
    }
}

// Receives all frames that are left in the ring, if all entries are moved. The list has room for them.
fn drain(board: &Board, seat: &mut LaneSeat, entries: u64, got: u64, left: &mut FrameList)
    requires table { (seat.old.table_id ≡ board.now.table_id) × IsTableOf entries board.now.table_id board.now.key }
    requires parts { HasAll seat.old.me × IsReady entries got (the_recv seat.old.me.0) × (length (the_send seat.old.me.0).sent ≤ (the_move seat.old.me.0).flagged) }
    requires room { (length (the_send seat.old.me.0).sent + 1 ≤ length (the_recv seat.old.me.0).got + entries) × (left.old.frames ≡ []) × (entries ≤ left.old.spare + 1) }
    ensures parts { HasAll seat.new.me × TableOthersStay seat.old.me.0 seat.new.me.0 }
    ensures got { (the_recv seat.new.me.0).got ≡ (the_recv seat.old.me.0).got ++ left.new.frames }
    ensures all { (the_recv seat.new.me.0).got ≡ (the_send seat.old.me.0).sent }
{
    let mut number = got;
    while let Some(frame) = receive(board, seat, entries, position_of(entries, number)) {
        left.push(frame);
        number += 1;
    }
}

// One seat with the parts of all five.
fn join_all(
    board: &Board,
    send: LaneSeat,
    mover: LaneSeat,
    recv: LaneSeat,
    back: LaneSeat,
    cut: LaneSeat,
) -> LaneSeat
    requires table { (send.table_id ≡ board.now.table_id) × (mover.table_id ≡ board.now.table_id) × (recv.table_id ≡ board.now.table_id) × (back.table_id ≡ board.now.table_id) × (cut.table_id ≡ board.now.table_id) × (0 < board.now.table_id.words) }
    requires no_slots { (mover.me.1 ≡ []) × (recv.me.1 ≡ []) × (back.me.1 ≡ []) × (cut.me.1 ≡ []) }
    ensures table { result.table_id ≡ board.now.table_id }
    ensures me { result.me ≡ (table_joined (table_joined (table_joined (table_joined send.me.0 mover.me.0) recv.me.0) back.me.0) cut.me.0, send.me.1) }
{
    let mut all = send;
    board.join_seat::<JoinsSeats>(&mut all, mover);
    board.join_seat::<JoinsSeats>(&mut all, recv);
    board.join_seat::<JoinsSeats>(&mut all, back);
    board.join_seat::<JoinsSeats>(&mut all, cut);
    all
}

/// Ends a lane: what the mover holds is moved, the seats become one, and what is left in the ring is moved and received
/// with it. The ends are those of one [`make`](crate::make). What was sent is what was received before this call,
/// followed by what is left. If the sender's last load of the link word showed a cut, one was made. It takes no memory.
pub fn finish(
    send: SendEnd,
    mut mover: MoveEnd,
    recv: RecvEnd,
    back: BackEnd,
    cut: CutEnd,
) -> LaneEnd
    requires { AreOfOneLane send mover recv back cut }
    ensures left { send.part.sent ≡ recv.part.got ++ result.left.frames }
    ensures proof { result.proof ≡ record { sent = send.part.sent; got = recv.part.got; entries = send.part.entries; cut = cut.part.cut } }
    ensures cut_seen { send.part.link ≡ cut_word → result.proof.cut ≡ true }
{
    mover.settle();
    let next = mover.flagged;
    let (send, mover, back, cut) = (send.at, mover.at, back.at, cut.at);
    let RecvEnd {
        at,
        got,
        mut left,
        ..
    } = recv;
    let Standing {
        table,
        seat,
        entries,
    } = at;
    let board = &table.shared;
    let mut all = join_all(board, send.seat, mover.seat, seat, back.seat, cut.seat);
    move_all(board, &mut all, entries, next);
    drain(board, &mut all, entries, got, &mut left);
    LaneEnd {
        left,
        proof: LaneProof {
            badge: all.into_badge(),
            got,
        },
    }
}
