//! A round of a session in which one thread makes the passes of all its workers in turn.

ghost use Rattle.std.specs.Prelude.{◌≡◌, ◌≤◌};

use crate::aim::Aim;
use crate::team::Team;
use crate::turn_gate::TurnGate;
use crate::workers::{Giver, Taker, Worker};

/// At most so often the workers make their passes in a round.
const TIMES: u32 = 1_024;

impl<S: Giver, M: Worker, T: Taker, C: Worker> Team<S, M, T, C> {
    // One pass of each worker, if the link is cut after the giver's. A part of what was given is moved then.
    fn cut_in_turn<G: TurnGate>(&mut self, gate: &G, turns: u32)
        requires turns { 1 ≤ turns }
        requires gate { ⟦<Self as Worker>⟧.Lets (G.lets gate.now) (⟦<Self as Worker>⟧.key self.old) }
        ensures key { ⟦<Self as Worker>⟧.key self.new ≡ ⟦<Self as Worker>⟧.key self.old }
        ensures reach { ⟦<Self as Worker>⟧.reach self.old ≤ ⟦<Self as Worker>⟧.reach self.new }
    {
        self.giver.pass(gate, turns);
        self.cutter.pass(gate, 1);
        self.mover.pass(gate, turns);
        self.taker.pass(gate, turns);
    }

    /// A round in which one thread makes the passes of all workers in turn. If the aim has a cut, the link is cut once
    /// this many frames were taken, and then the round is over. If it has none, the round is over once all frames were
    /// taken. In any case it is over once the workers made their passes `TIMES` times.
    pub(crate) fn round_in_turn<G: TurnGate>(&mut self, gate: &G, aim: Aim)
        requires gate { ⟦<Self as Worker>⟧.Lets (G.lets gate.now) (⟦<Self as Worker>⟧.key self.old) }
        ensures key { ⟦<Self as Worker>⟧.key self.new ≡ ⟦<Self as Worker>⟧.key self.old }
        ensures reach { ⟦<Self as Worker>⟧.reach self.old ≤ ⟦<Self as Worker>⟧.reach self.new }
    {
        let turns = aim.turns_in_turn();
        for _ in 0..TIMES {
            if aim.is_cut_due(self.taker.taken()) {
                self.cut_in_turn(gate, turns);
                return;
            }
            self.pass(gate, turns);
            if aim.is_reached(self.taker.taken()) {
                return;
            }
        }
    }
}
