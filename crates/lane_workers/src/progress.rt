//! What the workers of one session tell one another during a round in threads of their own.

ghost use Rattle.std.specs.Prelude.{◌≤◌};

use std::sync::atomic::{AtomicBool, AtomicU64, Ordering};
use std::{hint, thread};

/// A worker that carries frames.
#[derive(Clone, Copy, Debug, PartialEq, Eq, Drop)]
pub(crate) enum Role {
    Giver,
    Mover,
    Taker,
}

/// How often a worker told that a pass of it came to something. The words beside the count are read by nobody: they
/// keep it on cache lines of its own.
#[derive(Drop)]
struct News {
    count: AtomicU64,
    apart: [u64; 15],
}

impl News {
    fn new() -> News {
        News {
            count: AtomicU64::new(0),
            apart: [0; 15],
        }
    }

    fn count(&self) -> u64 {
        self.count.load(Ordering::SeqCst)
    }
}

/// What each worker told, how many frames were taken so far, whether the round is over, and who has left it.
#[derive(Drop)]
pub(crate) struct Progress {
    given: News,
    moved: News,
    taken: News,
    frames: AtomicU64,
    over: AtomicBool,
    giver_left: AtomicBool,
    mover_left: AtomicBool,
    is_small: bool,
}

/// Polls of the receiver's progress, each followed by a yield, before the link is cut regardless.
const CUT_LOOKS: u32 = 20_000;

/// In a ring of fewer entries a worker looks at the ring itself, since what the others do in between is few entries.
const SMALL_RING: u32 = 16;

/// There it lets other threads run after this many idle passes in a row.
const PASSES_TO_YIELD: u32 = 4;

/// The most turns of a pass of the giver there.
const SMALL_GIVER_TURNS: u32 = 4_096;

/// In a larger ring it has fewer: it tells of its frames then, and the mover moves them while it sends others.
const GIVER_TURNS: u32 = 64;

/// In a larger ring a worker looks at most so often for news before its next pass.
const LOOKS: u32 = 1_024;

/// After this many of them it lets other threads run at each.
const QUICK_LOOKS: u32 = 64;

/// After this many idle passes in a row a giver leaves the round, in a large ring and in a small one.
const IDLE_PASSES: u32 = 16;

const SMALL_IDLE_PASSES: u32 = 4_096;

impl Progress {
    /// At the start of a round at a ring of this many entries, if nothing is known and nobody has left.
    pub(crate) fn new(entries: u32) -> Progress {
        Progress {
            given: News::new(),
            moved: News::new(),
            taken: News::new(),
            frames: AtomicU64::new(0),
            over: AtomicBool::new(false),
            giver_left: AtomicBool::new(false),
            mover_left: AtomicBool::new(false),
            is_small: entries < SMALL_RING,
        }
    }

    /// Returns how many turns a pass of the giver has, at most.
    pub(crate) fn giver_turns(&self) -> u32
        ensures { 1 ≤ result }
    {
        if self.is_small {
            SMALL_GIVER_TURNS
        } else {
            GIVER_TURNS
        }
    }

    /// Tells that a pass of this worker came to something, or that it leaves. In a small ring nobody is told.
    pub(crate) fn tell(&self, role: Role) {
        if self.is_small {
            return;
        }
        let news = match role {
            Role::Giver => &self.given,
            Role::Mover => &self.moved,
            Role::Taker => &self.taken,
        };
        news.count.fetch_add(1, Ordering::SeqCst);
    }

    /// How much this worker was told so far: the mover hears the two others, and they hear the mover.
    pub(crate) fn told(&self, role: Role) -> u64 {
        if self.is_small {
            return 0;
        }
        match role {
            Role::Giver | Role::Taker => self.moved.count(),
            Role::Mover => self.given.count().wrapping_add(self.taken.count()),
        }
    }

    /// A pause after a pass, of which this many in a row were idle.
    pub(crate) fn pause(&self, role: Role, told: u64, idle: u32) {
        if !self.is_small {
            self.await_news(role, told);
        } else if idle % PASSES_TO_YIELD == PASSES_TO_YIELD - 1 {
            thread::yield_now();
        }
    }

    // Looks until this worker was told more, the round is over, or it has looked often. So it leaves the words of the
    // ring to the others until many frames may have come.
    fn await_news(&self, role: Role, told: u64) {
        for look in 0..LOOKS {
            if self.told(role) != told || self.is_over() {
                return;
            }
            if look < QUICK_LOOKS {
                hint::spin_loop();
            } else {
                thread::yield_now();
            }
        }
    }

    /// Returns whether a worker whose last passes were idle, this many in a row, has to leave the round.
    pub(crate) fn is_stuck(&self, idle: u32) -> bool {
        idle >= if self.is_small {
            SMALL_IDLE_PASSES
        } else {
            IDLE_PASSES
        }
    }

    /// Tells that this many frames were taken in the session.
    pub(crate) fn count(&self, taken: usize) {
        self.frames.store(taken as u64, Ordering::SeqCst);
    }

    /// Ends the round: each worker makes no pass more than the one that it is in.
    pub(crate) fn end(&self) {
        self.over.store(true, Ordering::SeqCst);
    }

    /// Returns whether the round is over.
    pub(crate) fn is_over(&self) -> bool {
        self.over.load(Ordering::SeqCst)
    }

    /// The giver leaves the round: the mover makes passes until one is idle, and leaves too.
    pub(crate) fn giver_leaves(&self) {
        self.giver_left.store(true, Ordering::SeqCst);
        self.tell(Role::Giver);
    }

    /// Returns whether the giver has left the round.
    pub(crate) fn has_giver_left(&self) -> bool {
        self.giver_left.load(Ordering::SeqCst)
    }

    /// The mover leaves the round: the taker makes passes until one is idle, and leaves too.
    pub(crate) fn mover_leaves(&self) {
        self.mover_left.store(true, Ordering::SeqCst);
        self.tell(Role::Mover);
    }

    /// Returns whether the mover has left the round.
    pub(crate) fn has_mover_left(&self) -> bool {
        self.mover_left.load(Ordering::SeqCst)
    }

    /// Lets other threads run until this many frames were taken, the round is over, the mover has left it, or it has
    /// looked often.
    pub(crate) fn await_taken(&self, count: usize) {
        for _ in 0..CUT_LOOKS {
            if self.frames.load(Ordering::SeqCst) >= count as u64
                || self.is_over()
                || self.has_mover_left()
            {
                return;
            }
            thread::yield_now();
        }
    }
}
