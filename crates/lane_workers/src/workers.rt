//! The workers that a round drives: one gives, one moves, one takes, and one cuts the link.

ghost use Rattle.std.specs.Prelude.{◌≡◌, ◌≤◌, ℕ};

use crate::turn_gate::TurnGate;

/// A worker of a session, at one lane or at several. A round knows no more of it than that its passes keep a key, and
/// what a gate has to let for them.
pub trait Worker: Send {
    /// What a key is.
    ghost Key: { Type 0 };

    /// What no pass changes of a worker, such as its number.
    ghost key: { Self → Key };

    /// How far the worker came: no pass makes it less.
    ghost reach: { Self → ℕ } = { λ _. 0 };

    /// What has to be let of a worker with this key: which workers pass before which turns, both by their numbers.
    ghost Lets: { (ℕ → ℕ → Type 0) → Key → Type 0 };

    /// Makes a pass of at most this many turns, at least 1, and returns how many of them it made. The gate has to let
    /// the worker pass before each (`Lets`). The pass keeps the worker's key, and makes its reach no less.
    fn pass<G: TurnGate>(&mut self, gate: &G, turns: u32) -> u32
        requires some { 1 ≤ turns }
        requires gate { Lets (G.lets gate.now) (key self.old) }
        ensures key { key self.new ≡ key self.old }
        ensures reach { reach self.old ≤ reach self.new };
}

/// The worker that gives frames to a lane.
pub trait Giver: Worker {
    /// Returns how many frames are left to give, at most. If none is left, this answers 0 in the end.
    fn left(&self) -> usize;
}

/// The worker that takes what comes of them.
pub trait Taker: Worker {
    /// Returns how many frames it took in all.
    fn taken(&self) -> usize;
}
