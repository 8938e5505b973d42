//! Where a worker of a threaded run passes before each of its turns.
ghost use Rattle.std.specs.Prelude.{ℕ};

/// A place that each worker passes before each of its turns. It returns and tells nothing, so no answer of a worker
/// depends on it; a gate of a test holds a worker for a stated number of turns.
pub trait Gate: Sync {
    /// Which worker it lets pass before which turn, both by their numbers. A gate says by it which numbers it may be
    /// given, so it may count on them: index an array by the worker's number, say. One that doesn't say lets all pass.
    ghost lets: { Self → ℕ → ℕ → Type 0 } = { λ _ _ _. Unit {0} };

    /// A worker, by its number, passes before its turn with this number; the gate has to let it (`lets`). A run counts
    /// a worker's turns from 0 in each session.
    fn at(&self, worker: u32, turn: u64)
        requires { lets self.now worker turn };
}

/// The gate that holds nobody, and lets all pass.
#[derive(Clone, Copy, Debug, Drop)]
pub struct NoGate;

impl Gate for NoGate {
    fn at(&self, _worker: u32, _turn: u64) {}
}
