//! A round of a session: passes of its workers, beside one another or in turn.

ghost use Rattle.std.specs.Prelude.{◌≡◌, ◌≤◌};

use crate::aim::Aim;
use crate::team::Team;
use crate::workers::{Giver, Taker, Worker};
use io_edges::Gate;
use std::thread::Threads;

/// How the workers of a session make their passes.
#[derive(Clone, Copy, Debug, PartialEq, Eq, Drop)]
pub enum Way {
    /// Each in a thread of its own.
    InThreads,
    /// One after another, all in the thread that calls.
    InTurn,
}

impl<S: Giver, M: Worker, T: Taker, C: Worker> Team<S, M, T, C> {
    /// Makes a round of a session: the four workers make their passes, until as many frames were taken as the aim says
    /// or no worker gets on. If the aim has a cut, the link is cut once this many frames were taken, or after a while.
    ///
    /// The gate has to let each worker pass (`Lets`). Each worker has its key after the round, and the giver came no
    /// less far. If no thread can be made, the caller makes all passes.
    pub fn round<R: Threads + Sync, G: Gate>(&mut self, rt: &R, gate: &G, way: Way, aim: Aim)
        requires giver { S.Lets (G.lets gate.now) (S.key self.old.giver) }
        requires mover { M.Lets (G.lets gate.now) (M.key self.old.mover) }
        requires taker { T.Lets (G.lets gate.now) (T.key self.old.taker) }
        requires cutter { C.Lets (G.lets gate.now) (C.key self.old.cutter) }
        ensures giver { S.key self.new.giver ≡ S.key self.old.giver }
        ensures reach { S.reach self.old.giver ≤ S.reach self.new.giver }
        ensures mover { M.key self.new.mover ≡ M.key self.old.mover }
        ensures taker { T.key self.new.taker ≡ T.key self.old.taker }
        ensures cutter { C.key self.new.cutter ≡ C.key self.old.cutter }
    {
        match way {
            Way::InThreads => self.round_in_threads(rt, gate, aim),
            Way::InTurn => self.round_in_turn(gate, aim),
        }
    }
}
