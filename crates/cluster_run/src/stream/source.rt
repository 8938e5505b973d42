//! The worker that gives the items of a stream, and receives their acknowledgements.

ghost use Rattle.std.specs.Prelude.{◌≡◌, ◌≤◌, []};
ghost use Rattle.io_edges.specs.Gates.{LetsWorker};
ghost use Rattle.cluster_run.specs.stream.Ends.{HasOffered};
ghost use Rattle.cluster_run.specs.stream.LaneFields.{HaveNumbers};
ghost use Rattle.cluster_run.specs.stream.Leaving.{LeavesSource};
ghost use Rattle.cluster_run.specs.stream.Workers.{LetsBoth, after_first, first_workers};

use crate::clock::Clock;
use crate::stream::numbers::LaneNumbers;
use crate::stream::offering::{Turn, offer_pass};
use crate::workers::Receiving;
use lane_workers::TurnGate;
use lane_workers::workers::{Giver, Worker};
use resume_stream::StreamSender;
use std::alloc::AllocError;
use std::marker::Model;
use step_kinds::FrameList;
use table_lane::{RecvEnd, SendEnd};

/// The worker that gives the items of a stream, and receives their acknowledgements. What was acknowledged counts from
/// the next session on.
#[derive(Drop)]
pub(crate) struct Source {
    pub(crate) sender: StreamSender,
    pub(crate) end: SendEnd,
    pub(crate) acks: Receiving,
    pub(crate) clock: Clock,
    /// At most this many frames are left to give in this session.
    pub(crate) left: usize,
    /// Whether there was no memory for a frame.
    pub(crate) is_wanting: bool,
}

/// What a source leaves.
#[derive(Drop)]
pub(crate) struct SourceEnd {
    pub(crate) sender: StreamSender,
    /// Its end of the lane of items.
    pub(crate) send: SendEnd,
    /// Its end of the lane of acknowledgements.
    pub(crate) recv: RecvEnd,
    /// The acknowledgements that came, in order.
    pub(crate) acks: FrameList,
}

/// At most this many acknowledgements come in a session.
pub(crate) const ACK_ROOM: usize = 1_024;

/// At most this many acknowledgements are received after a pass.
const ACK_TURNS: u32 = 4;

impl Source {
    /// Returns the source of a stream of this many items in a new session, by the numbers of its two lanes. The list
    /// has room for `ACK_ROOM` acknowledgements. Nothing was sent or received.
    pub(crate) fn new(
        sender: StreamSender,
        send: SendEnd,
        recv: RecvEnd,
        got: FrameList,
        numbers: LaneNumbers,
        total: usize,
    ) -> Source
        requires numbers { HaveNumbers numbers }
        requires offered { HasOffered sender send.part.sent }
        requires acked { sender.acked ≡ sender.start }
        requires received { recv.part.got ≡ [] }
        requires none { got.frames ≡ [] }
        requires room { got.spare ≡ ACK_ROOM }
        ensures { result ≡ record { key = record { workers = after_first (first_workers numbers) 0 2; lane = send.lane; ack_lane = recv.lane; entries = send.part.entries; items = sender.items; start = sender.start }; ever = sender.place.ever } }
    {
        Source {
            sender,
            end: send,
            acks: Receiving::new(recv, got, ACK_ROOM, 4 * numbers.acks + 2),
            clock: Clock::new(4 * numbers.items),
            left: total.saturating_add(1),
            is_wanting: false,
        }
    }

    /// Makes at most this many turns that give, and a few that receive. Returns how many the first were.
    pub(crate) fn pass<G: TurnGate>(&mut self, gate: &G, turns: u32) -> u32
        requires some { 1 ≤ turns }
        requires gate { LetsBoth (G.lets gate.now) self.old.key.workers }
        ensures key { self.new.key ≡ self.old.key }
        ensures ever { self.old.ever ≤ self.new.ever }
    {
        let made = self.give(gate, turns);
        self.acks.pass(gate, ACK_TURNS);
        made
    }

    // The turns that give, and how many they were.
    fn give<G: TurnGate>(&mut self, gate: &G, turns: u32) -> u32
        requires some { 1 ≤ turns }
        requires gate { LetsWorker (G.lets gate.now) self.old.key.workers.items }
        ensures key { self.new.key ≡ self.old.key }
        ensures ever { self.old.ever ≤ self.new.ever }
    {
        let first = self.clock.first(turns);
        let worker = self.clock.worker();
        match offer_pass(&mut self.sender, &mut self.end, gate, worker, first, turns) {
            Ok(pass) => {
                self.clock = self.clock.after(first, pass.turns);
                self.left = match pass.last {
                    Turn::Over => 0,
                    Turn::Sent | Turn::Refused => self.left.saturating_sub(pass.sent as usize),
                };
                pass.turns
            }
            Err(AllocError) => {
                self.is_wanting = true;
                self.left = 0;
                0
            }
        }
    }
}

impl Source {
    /// Returns what it leaves at the end of a session.
    pub(crate) fn ended(self) -> SourceEnd
        ensures { LeavesSource self result }
    {
        let (recv, acks) = self.acks.into_parts();
        SourceEnd {
            sender: self.sender,
            send: self.end,
            recv,
            acks,
        }
    }
}

impl Worker for Source {
    ghost use Rattle.cluster_run.specs.stream.Workers.{LetsBoth, SourceKey};

    ghost Key = { SourceKey };

    ghost key = { λ w. w.key };

    ghost reach = { λ w. w.ever };

    ghost Lets = { λ lets key. LetsBoth lets key.workers };

    fn pass<G: TurnGate>(&mut self, gate: &G, turns: u32) -> u32 {
        Source::pass(self, gate, turns)
    }
}

impl Giver for Source {
    fn left(&self) -> usize {
        self.left
    }
}

impl Model for Source {
    ghost use Rattle.cluster_run.specs.stream.Workers.{SourceShown};

    ghost Value = { SourceShown };

    ghost use Rattle.cluster_run.specs.stream.WorkerFields.{source_of, IsSource};

    ghost view = { source_of };

    ghost invariant = { IsSource };
}
