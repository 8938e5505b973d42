//! A session of a stream: the life of two table lanes, one for its items and one for its acknowledgements.

ghost use Rattle.std.specs.Prelude.{◌≡◌, ◌≤◌, ◌<◌, ◌==◌, [], length, IfOk};
ghost use Rattle.step_kinds.specs.Limits.{most_traffic_entries};
ghost use Rattle.lane_workers.specs.Passes.{HaveBytes};
ghost use Rattle.table_lane.specs.NewEnds.{AreNew};
ghost use Rattle.cluster_run.specs.stream.LaneFields.{HaveNumbers};
ghost use Rattle.cluster_run.specs.stream.Sessions.{CanStreamBegin, StreamEndsWith, new_stream_session};
ghost use Rattle.cluster_run.specs.stream.Workers.{LetsBoth, LetsSession};

use crate::stream::numbers::LaneNumbers;
use crate::stream::pair::{PairCutting, PairMoving};
use crate::stream::sink::{Sink, SinkEnd};
use crate::stream::source::{ACK_ROOM, Source, SourceEnd};
use crate::workers::{Cutting, Moving, room_for};
use io_edges::Gate;
use lane_workers::{Aim, Team, Way};
use resume_stream::{StreamReceiver, StreamSender};
use std::alloc::{AllocError, Global};
use std::marker::Model;
use std::thread::Threads;
use step_kinds::FrameList;
use table_lane::{BackEnd, CutEnd, LaneProof, MoveEnd, RecvEnd, SendEnd, finish, make};

/// A session of a stream: its workers, at two tables.
#[derive(Drop)]
pub(crate) struct Session {
    team: Team<Source, PairMoving, Sink, PairCutting>,
    entries: u32,
    total: usize,
}

/// What a session leaves.
#[derive(Drop)]
pub(crate) struct SessionEnd {
    pub(crate) sender: StreamSender,
    pub(crate) receiver: StreamReceiver,
    /// The acknowledgements that came, in order.
    pub(crate) acks: FrameList,
    /// What the lane of items did.
    pub(crate) item_proof: LaneProof,
    /// What the lane of acknowledgements did.
    pub(crate) ack_proof: LaneProof,
}

// The ends of a lane.
type LaneEnds = (SendEnd, MoveEnd, RecvEnd, BackEnd, CutEnd);

// Returns what a session takes memory for: a list with room for its acknowledgements, and two lanes. Returns an error
// if memory runs out.
fn new_lanes(alloc: Global, entries: u32) -> Result<(FrameList, LaneEnds, LaneEnds), AllocError>
    requires { (2 ≤ entries) × (entries ≤ most_traffic_entries) }
    ensures got { IfOk result (λ made. (made.0.frames ≡ []) × (made.0.spare ≡ ACK_ROOM)) }
    ensures items { IfOk result (λ made. AreNew entries made.1.0 made.1.1 made.1.2 made.1.3 made.1.4) }
    ensures acks { IfOk result (λ made. AreNew entries made.2.0 made.2.1 made.2.2 made.2.3 made.2.4) }
{
    let got = room_for(alloc, ACK_ROOM)?;
    let items = make(alloc, entries)?;
    let acks = make(alloc, entries)?;
    Ok((got, items, acks))
}

impl Session {
    /// Returns a session of a stream in rings of this many entries: its lanes have these numbers. Returns an error if
    /// memory runs out.
    pub(crate) fn new(
        alloc: Global,
        numbers: LaneNumbers,
        entries: u32,
        sender: StreamSender,
        receiver: StreamReceiver,
        total: usize,
    ) -> Result<Session, AllocError>
        requires numbers { HaveNumbers numbers }
        requires ring { (2 ≤ entries) × (entries ≤ most_traffic_entries) }
        requires ends { CanStreamBegin sender receiver }
        requires total { total ≡ length sender.items }
        ensures { IfOk result (λ s. s ≡ new_stream_session numbers entries sender receiver) }
    {
        let (got, items, acks) = new_lanes(alloc, entries)?;
        let (item_send, item_mover, item_recv, item_back, item_cut) = items;
        let (ack_send, ack_mover, ack_recv, ack_back, ack_cut) = acks;
        let item_worker = 4 * numbers.items;
        let ack_worker = 4 * numbers.acks;
        let moving = PairMoving::new(
            Moving::new(item_mover, item_back, item_worker + 1),
            Moving::new(ack_mover, ack_back, ack_worker + 1),
        );
        let source = Source::new(sender, item_send, ack_recv, got, numbers, total);
        let sink = Sink::new(receiver, item_recv, ack_send, numbers, total);
        let cutting = PairCutting::new(
            Cutting::new(item_cut, item_worker + 3),
            Cutting::new(ack_cut, ack_worker + 3),
        );
        let team = Team {
            giver: source,
            mover: moving,
            taker: sink,
            cutter: cutting,
        };
        Ok(Session {
            team,
            entries,
            total,
        })
    }

    /// A round of the session. Its workers make their passes in this way.
    pub(crate) fn pass<R, G>(&mut self, rt: &R, gate: &G, way: Way, cut_after: Option<usize>)
    where
        R: Threads + Sync,
        G: Gate,
        requires { LetsSession (G.lets gate.now) self.old.first }
        ensures first { self.new.first ≡ self.old.first }
        ensures key { self.new.key ≡ self.old.key }
        ensures ever { self.old.ever ≤ self.new.ever }
    {
        let aim = Aim {
            total: self.total,
            cut_after,
            entries: self.entries,
        };
        self.team.round(rt, gate, way, aim);
    }

    /// Returns how many items the stream has.
    pub(crate) fn total(&self) -> usize
        ensures { result ≡ length self.now.key.items }
    {
        self.total
    }

    /// Returns how many items were kept as the session began.
    pub(crate) fn begun(&self) -> usize {
        self.team.taker.begun
    }

    /// Returns how many items are kept.
    pub(crate) fn kept(&self) -> usize
        ensures { result ≡ self.now.kept }
    {
        self.team.taker.kept()
    }

    /// Returns whether the link was cut.
    pub(crate) fn is_cut(&self) -> bool
        ensures { result ≡ self.now.cut }
    {
        self.team.cutter.is_cut()
    }

    /// Returns whether there was no memory for a frame: the session can't end then.
    pub(crate) fn is_wanting(&self) -> bool {
        self.team.giver.is_wanting || self.team.taker.is_wanting
    }

    /// Ends the session. Returns an error if memory runs out, which a worker may have met before.
    pub(crate) fn ended(self) -> Result<SessionEnd, AllocError>
        ensures { IfOk result (λ end. StreamEndsWith self end) }
    {
        if self.team.giver.is_wanting {
            // One call drops all its fields: dropped at the return, each would be a step of this function's proof.
            drop(self);
            return Err(AllocError);
        }
        self.into_end()
    }

    // Returns what the session leaves. Returns an error if memory runs out, which its sink may have met before.
    fn into_end(self) -> Result<SessionEnd, AllocError>
        ensures { IfOk result (λ end. StreamEndsWith self end) }
    {
        let Session { team, .. } = self;
        let Team {
            giver: source,
            mover: moving,
            taker: sink,
            cutter: cutting,
        } = team;
        let SinkEnd {
            receiver,
            recv: item_recv,
            send: ack_send,
        } = match sink.ended() {
            Ok(end) => end,
            Err(error) => {
                drop(source);
                drop(moving);
                drop(cutting);
                return Err(error);
            }
        };
        let SourceEnd {
            sender,
            send: item_send,
            recv: ack_recv,
            acks,
        } = source.ended();
        let (item_mover, item_back, ack_mover, ack_back) = moving.into_ends();
        let (item_cut, ack_cut) = cutting.into_ends();
        let items = finish(item_send, item_mover, item_recv, item_back, item_cut);
        let acknowledged = finish(ack_send, ack_mover, ack_recv, ack_back, ack_cut);
        Ok(SessionEnd {
            sender,
            receiver,
            acks,
            item_proof: items.proof,
            ack_proof: acknowledged.proof,
        })
    }
}

impl Model for Session {
    ghost use Rattle.cluster_run.specs.stream.Workers.{StreamSessionState};

    ghost Value = { StreamSessionState };

    ghost use Rattle.cluster_run.specs.stream.SessionFields.{stream_session_of, IsStreamSession};

    ghost view = { stream_session_of };

    ghost invariant = { IsStreamSession };
}
