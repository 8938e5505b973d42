//! The workers that move frames on both lanes of a stream, and those that cut both.

ghost use Rattle.std.specs.Prelude.{◌≡◌, ◌+◌, ◌≤◌, true, false};
ghost use Rattle.cluster_run.specs.stream.WorkerFields.{key_of_both};
ghost use Rattle.cluster_run.specs.stream.Workers.{LetsBoth};

use crate::workers::{Cutting, Moving};
use lane_workers::TurnGate;
use lane_workers::workers::Worker;
use std::marker::Model;
use table_lane::{BackEnd, CutEnd, MoveEnd};

/// The two workers that move frames: on the lane of items, and on that of acknowledgements.
#[derive(Drop)]
pub(crate) struct PairMoving {
    pub(crate) items: Moving,
    pub(crate) acks: Moving,
}

/// At most this many moves of acknowledgements are made after a pass.
const ACK_TURNS: u32 = 16;

impl PairMoving {
    /// Returns the workers of a new session.
    pub(crate) fn new(items: Moving, acks: Moving) -> PairMoving
        ensures { result ≡ record { key = key_of_both items.key acks.key; tries = items.tries; loads = items.loads } }
    {
        PairMoving { items, acks }
    }

    /// Makes at most this many turns on the lane of items, and returns how many, and makes a few on the other.
    pub(crate) fn pass<G: TurnGate>(&mut self, gate: &G, turns: u32) -> u32
        requires some { 1 ≤ turns }
        requires gate { LetsBoth (G.lets gate.now) self.old.key.workers }
        ensures key { self.new.key ≡ self.old.key }
        ensures some { 1 ≤ result }
        ensures at_most { result ≤ turns }
        ensures tries { self.old.tries + result ≤ self.new.tries }
        ensures back_tries { self.new.loads ≡ self.old.loads + result }
    {
        let made = self.items.pass(gate, turns);
        self.acks.pass(gate, ACK_TURNS);
        made
    }
}

impl PairMoving {
    /// Its ends, at the end of a session: those of the lane of items first.
    pub(crate) fn into_ends(self) -> (MoveEnd, BackEnd, MoveEnd, BackEnd)
        ensures items { (result.0.lane ≡ self.key.lane) × (result.1.lane ≡ self.key.lane) }
        ensures acks { (result.2.lane ≡ self.key.ack_lane) × (result.3.lane ≡ self.key.ack_lane) }
    {
        let PairMoving { items, acks } = self;
        let (item_mover, item_back) = items.into_ends();
        let (ack_mover, ack_back) = acks.into_ends();
        (item_mover, item_back, ack_mover, ack_back)
    }
}

impl Worker for PairMoving {
    ghost use Rattle.cluster_run.specs.stream.Workers.{LetsBoth, PairKey};

    ghost Key = { PairKey };

    ghost key = { λ w. w.key };

    ghost Lets = { λ lets key. LetsBoth lets key.workers };

    fn pass<G: TurnGate>(&mut self, gate: &G, turns: u32) -> u32 {
        PairMoving::pass(self, gate, turns)
    }
}

impl Model for PairMoving {
    ghost use Rattle.cluster_run.specs.stream.Workers.{StreamMovingShown};

    ghost Value = { StreamMovingShown };

    ghost use Rattle.cluster_run.specs.stream.WorkerFields.{stream_moving_of};

    ghost view = { stream_moving_of };
}

/// The two workers that cut the link: of both lanes.
#[derive(Drop)]
pub(crate) struct PairCutting {
    pub(crate) items: Cutting,
    pub(crate) acks: Cutting,
}

impl PairCutting {
    /// Returns the workers of a new session, in which the link isn't cut.
    pub(crate) fn new(items: Cutting, acks: Cutting) -> PairCutting
        requires { (items.cut ≡ false) × (acks.cut ≡ false) }
        ensures { result ≡ record { key = key_of_both items.key acks.key; cut = false } }
    {
        PairCutting { items, acks }
    }

    /// Makes the one turn of both: the link is cut.
    pub(crate) fn pass<G: TurnGate>(&mut self, gate: &G)
        requires gate { LetsBoth (G.lets gate.now) self.old.key.workers }
        ensures key { self.new.key ≡ self.old.key }
        ensures cut { self.new.cut ≡ true }
    {
        self.items.pass(gate);
        self.acks.pass(gate);
    }

    /// Returns whether the link was cut.
    pub(crate) fn is_cut(&self) -> bool
        ensures { result ≡ self.now.cut }
    {
        self.items.is_cut()
    }
}

impl PairCutting {
    /// Its ends, at the end of a session: that of the lane of items first.
    pub(crate) fn into_ends(self) -> (CutEnd, CutEnd)
        ensures items { (result.0.lane ≡ self.key.lane) × (result.0.part.cut ≡ self.cut) }
        ensures acks { (result.1.lane ≡ self.key.ack_lane) × (result.1.part.cut ≡ self.cut) }
    {
        let PairCutting { items, acks } = self;
        (items.into_end(), acks.into_end())
    }
}

impl Worker for PairCutting {
    ghost use Rattle.cluster_run.specs.stream.Workers.{LetsBoth, PairKey};

    ghost Key = { PairKey };

    ghost key = { λ w. w.key };

    ghost Lets = { λ lets key. LetsBoth lets key.workers };

    fn pass<G: TurnGate>(&mut self, gate: &G, turns: u32) -> u32 {
        PairCutting::pass(self, gate);
        turns.min(1)
    }
}

impl Model for PairCutting {
    ghost use Rattle.cluster_run.specs.stream.Workers.{StreamCuttingShown};

    ghost Value = { StreamCuttingShown };

    ghost use Rattle.cluster_run.specs.stream.WorkerFields.{stream_cutting_of, IsStreamCutting};

    ghost view = { stream_cutting_of };

    ghost invariant = { IsStreamCutting };
}
