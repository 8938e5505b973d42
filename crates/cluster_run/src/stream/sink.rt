//! The worker that keeps the items of a stream, and acknowledges them.

ghost use Rattle.std.specs.Prelude.{◌≡◌, ◌+◌, ◌≤◌, ◌<◌, ◌^◌, [], length, IfOk};
ghost use Rattle.stream_model.specs.declared.Session.TheVariants.{Fresh};
ghost use Rattle.io_edges.specs.Gates.{LetsWorker};
ghost use Rattle.cluster_run.specs.stream.LaneFields.{HaveNumbers};
ghost use Rattle.cluster_run.specs.stream.Leaving.{LeavesSink};
ghost use Rattle.cluster_run.specs.stream.Workers.{LetsBoth, after_first, first_workers};

use crate::clock::Clock;
use crate::stream::keeping::{acknowledge, keep_pass};
use crate::stream::numbers::LaneNumbers;
use lane_workers::TurnGate;
use lane_workers::workers::{Taker, Worker};
use resume_stream::StreamReceiver;
use std::alloc::AllocError;
use std::marker::Model;
use table_lane::{RecvEnd, SendEnd};

/// The worker that keeps the items of a stream, and acknowledges them.
#[derive(Drop)]
pub(crate) struct Sink {
    pub(crate) receiver: StreamReceiver,
    pub(crate) end: RecvEnd,
    pub(crate) acks: SendEnd,
    /// How many items it kept as the session began.
    pub(crate) begun: usize,
    /// How many items it acknowledged last in this session, or 0.
    pub(crate) told: usize,
    /// With this many items more it acknowledges again.
    pub(crate) step: usize,
    pub(crate) clock: Clock,
    pub(crate) ack_clock: Clock,
    /// Whether there was no memory for a frame.
    pub(crate) is_wanting: bool,
}

/// What a sink leaves.
#[derive(Drop)]
pub(crate) struct SinkEnd {
    pub(crate) receiver: StreamReceiver,
    /// Its end of the lane of items.
    pub(crate) recv: RecvEnd,
    /// Its end of the lane of acknowledgements.
    pub(crate) send: SendEnd,
}

/// The acknowledgements of a whole traffic in a session.
const ACKS: usize = 512;

/// A stream keeps at most this many items.
const MOST_ITEMS: usize = u32::MAX as usize;

// This many turns, if this many items are kept, that a stream may keep an item of each.
fn turns_within(kept: usize, turns: u32) -> u32
    ensures { kept < 2 ^ 32 → kept + result < 2 ^ 32 }
{
    (turns as usize).min(MOST_ITEMS.saturating_sub(kept)) as u32
}

impl Sink {
    /// Returns the sink of a stream of this many items in a new session, by the numbers of its two lanes. Nothing was
    /// sent or received.
    pub(crate) fn new(
        receiver: StreamReceiver,
        recv: RecvEnd,
        send: SendEnd,
        numbers: LaneNumbers,
        total: usize,
    ) -> Sink
        requires numbers { HaveNumbers numbers }
        requires fresh { receiver.session ≡ Fresh }
        requires few { length receiver.items < 2 ^ 32 }
        requires got { recv.part.got ≡ [] }
        requires sent { send.part.sent ≡ [] }
        ensures { result ≡ record { key = record { workers = after_first (first_workers numbers) 2 0; lane = recv.lane; ack_lane = send.lane; entries = send.part.entries; before = receiver.items }; kept = length receiver.items } }
    {
        let begun = receiver.items().len();
        Sink {
            receiver,
            end: recv,
            acks: send,
            begun,
            told: 0,
            step: total / ACKS + 1,
            clock: Clock::new(4 * numbers.items + 2),
            ack_clock: Clock::new(4 * numbers.acks),
            is_wanting: false,
        }
    }

    /// Makes at most this many turns that keep, and one that acknowledges. Returns how many the first were.
    pub(crate) fn pass<G: TurnGate>(&mut self, gate: &G, turns: u32) -> u32
        requires { LetsBoth (G.lets gate.now) self.old.key.workers }
        ensures { self.new.key ≡ self.old.key }
    {
        let made = self.keep(gate, turns);
        self.acknowledge(gate);
        made
    }

    // The turns that keep, and how many they were. After running out of memory there are none.
    fn keep<G: TurnGate>(&mut self, gate: &G, turns: u32) -> u32
        requires { LetsWorker (G.lets gate.now) self.old.key.workers.items }
        ensures { self.new.key ≡ self.old.key }
    {
        let kept = self.receiver.items().len();
        let turns = turns_within(kept, turns);
        if turns == 0 || self.is_wanting {
            return 0;
        }
        let first = self.clock.first(turns);
        let worker = self.clock.worker();
        match keep_pass(
            &mut self.end,
            &mut self.receiver,
            gate,
            worker,
            first,
            turns,
        ) {
            Ok(made) => {
                self.clock = self.clock.after(first, made);
                made
            }
            Err(AllocError) => {
                self.is_wanting = true;
                0
            }
        }
    }

    // The turn that acknowledges, if this many items more are kept.
    fn acknowledge<G: TurnGate>(&mut self, gate: &G)
        requires { LetsWorker (G.lets gate.now) self.old.key.workers.acks }
        ensures { self.new.key ≡ self.old.key }
    {
        let first = self.ack_clock.first(1);
        gate.admit(self.ack_clock.worker(), first);
        self.ack_clock = self.ack_clock.after(first, 1);
        let kept = self.receiver.items().len();
        if kept <= self.told || kept - self.told < self.step {
            return;
        }
        match acknowledge(&self.receiver, &mut self.acks) {
            Ok(true) => self.told = kept,
            Ok(false) => {}
            Err(AllocError) => self.is_wanting = true,
        }
    }

    /// Returns how many items are kept.
    pub(crate) fn kept(&self) -> usize
        ensures { result ≡ self.now.kept }
    {
        self.receiver.items().len()
    }
}

impl Sink {
    /// Returns what it leaves at the end of a session. Returns an error if memory ran out before.
    pub(crate) fn ended(self) -> Result<SinkEnd, AllocError>
        ensures { IfOk result (λ end. LeavesSink self end) }
    {
        let Sink {
            receiver,
            end: recv,
            acks: send,
            is_wanting,
            ..
        } = self;
        if is_wanting {
            return Err(AllocError);
        }
        Ok(SinkEnd {
            receiver,
            recv,
            send,
        })
    }
}

impl Worker for Sink {
    ghost use Rattle.cluster_run.specs.stream.Workers.{LetsBoth, SinkKey};

    ghost Key = { SinkKey };

    ghost key = { λ w. w.key };

    ghost Lets = { λ lets key. LetsBoth lets key.workers };

    fn pass<G: TurnGate>(&mut self, gate: &G, turns: u32) -> u32 {
        Sink::pass(self, gate, turns)
    }
}

impl Taker for Sink {
    fn taken(&self) -> usize {
        self.kept()
    }
}

impl Model for Sink {
    ghost use Rattle.cluster_run.specs.stream.Workers.{SinkShown};

    ghost Value = { SinkShown };

    ghost use Rattle.cluster_run.specs.stream.WorkerFields.{sink_of, IsSink};

    ghost view = { sink_of };

    ghost invariant = { IsSink };
}
