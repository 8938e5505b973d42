//! The turns of a worker, counted through a session.

ghost use Rattle.std.specs.Prelude.{◌≡◌, ◌+◌, ◌-◌, ◌<◌, ◌^◌, min};

/// The number of a worker, and that of its next turn, which counts from 0 in each session.
#[derive(Clone, Copy, Debug, Drop)]
pub struct Clock {
    worker: u32,
    turn: u64,
}

impl Clock {
    /// Returns the clock of a worker with this number, in a new session.
    pub fn new(worker: u32) -> Clock
        ensures { result ≡ record { worker = worker; turn = 0 } }
    {
        Clock { worker, turn: 0 }
    }

    /// Returns the number of the worker.
    pub fn worker(&self) -> u32
        ensures { result ≡ self.now.worker }
    {
        self.worker
    }

    /// Returns the number of the next turn. If this many turns from it on would pass the number 2^64 - 2, it is the
    /// largest number from which they don't.
    pub fn first(&self, turns: u32) -> u64
        ensures value { result ≡ min self.now.turn (2 ^ 64 - 1 - turns) }
        ensures fits { result + turns < 2 ^ 64 }
    {
        self.turn.min(u64::MAX - u64::from(turns))
    }

    /// Returns the clock after this many turns from turn `first` on. The number of its next turn is at most 2^64 - 1.
    pub fn after(&self, first: u64, turns: u32) -> Clock
        ensures { result ≡ record { worker = self.now.worker; turn = min (first + turns) (2 ^ 64 - 1) } }
    {
        Clock {
            worker: self.worker,
            turn: first.saturating_add(u64::from(turns)),
        }
    }
}
