//! The gate that a pass asks for.
ghost use Rattle.std.specs.Prelude.{ℕ};

use io_edges::Gate;

/// A gate as one pass asks for it. Every [`Gate`] is one. It isn't asked to be shared between threads, so that a method
/// of a [`Worker`](crate::workers::Worker) can take it.
pub trait TurnGate {
    /// Which worker it lets pass before which turn, both by their numbers.
    ghost lets: { Self → ℕ → ℕ → Type 0 };

    /// A worker, by its number, passes before its turn with this number; the gate has to let it (`lets`).
    fn admit(&self, worker: u32, turn: u64)
        requires { lets self.now worker turn };
}

impl<G: Gate> TurnGate for G {
    ghost lets = { G.lets };

    fn admit(&self, worker: u32, turn: u64) {
        self.at(worker, turn);
    }
}
