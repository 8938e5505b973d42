//! The workers of a session, as a team: a pass of each that carries frames, one after another.

use crate::turn_gate::TurnGate;
use crate::workers::{Giver, Taker, Worker};

/// The four workers of a session.
#[derive(Drop)]
pub struct Team<S, M, T, C> {
    /// The worker that gives frames.
    pub giver: S,
    /// The worker that moves them.
    pub mover: M,
    /// The worker that takes them.
    pub taker: T,
    /// The worker that cuts the link.
    pub cutter: C,
}

/// A team is a worker too. Its key has those of its workers, and it comes as far as its giver.
impl<S: Giver, M: Worker, T: Taker, C: Worker> Worker for Team<S, M, T, C> {
    ghost use Rattle.lane_workers.specs.Rounds.{TeamKey};

    ghost Key = { TeamKey S.Key M.Key T.Key C.Key };

    ghost key = { λ t. record { giver = S.key t.giver; mover = M.key t.mover; taker = T.key t.taker; cutter = C.key t.cutter } };

    ghost reach = { λ t. S.reach t.giver };

    ghost Lets = { λ lets k. S.Lets lets k.giver × M.Lets lets k.mover × T.Lets lets k.taker × C.Lets lets k.cutter };

    // One pass of each worker that carries frames; the answer is the giver's. The mover has three moves for each frame,
    // and after the taker one turn more, in which the way back brings the giver its entries.
    fn pass<G: TurnGate>(&mut self, gate: &G, turns: u32) -> u32 {
        let made = self.giver.pass(gate, turns);
        self.mover.pass(gate, turns.saturating_mul(3));
        self.taker.pass(gate, turns);
        self.mover.pass(gate, 1);
        made
    }
}
