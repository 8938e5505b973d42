//! The turns that the workers of two lanes tell a gate, if one lane's link is lost.

use crate::answers::answer_to;
use crate::reads::{MORE_READS, READS, READS_TO_YIELD};
use io_edges::Gate;
use std::alloc::{AllocError, Global};
use std::sync::atomic::{AtomicBool, AtomicU64, Ordering};
use std::test::Fail;
use std::thread;

/// A lane on each of two pairs, of which the first loses its link once.
const ONE_LOSS: &str = "ntb 1
host a
host b
pair p a b up size=4096 mtu=1023
pair q a b up size=4096 mtu=1023
traffic
flood p A 0 200 8
flood q A 0 200 8
break p
";

/// In how many sessions each worker of a run comes. Of lane n, 4n sends, 4n + 1 moves, 4n + 2 receives and 4n + 3 cuts,
/// which is in each session but the last. Lane 0 has two sessions, lane 1 has one.
const OF_RUN: [u64; 8] = [2, 2, 2, 1, 1, 1, 1, 0];

/// The same of a stream: the acknowledgements of both lanes are lanes 2 and 3.
const OF_STREAM: [u64; 16] = [2, 2, 2, 1, 1, 1, 1, 0, 2, 2, 2, 1, 1, 1, 1, 0];

/// The worker that is held at the beginning of a session, so that the link is lost before most frames are sent: the one
/// that receives in lane 0.
const HELD: u32 = 2;

/// It is held until this worker comes, which cuts the link of lane 0, or it has read often enough.
const CUTTER: usize = 3;

/// What one worker told: the number of its next turn, and how many sessions it began.
#[derive(Drop)]
struct Turns {
    next: AtomicU64,
    begun: AtomicU64,
}

impl Turns {
    fn new() -> Turns {
        Turns {
            next: AtomicU64::new(0),
            begun: AtomicU64::new(0),
        }
    }

    // Returns how many sessions the worker began.
    fn begun(&self) -> u64 {
        self.begun.load(Ordering::SeqCst)
    }

    // Keeps a turn, and returns whether it begins a session or is the one after the last.
    fn keeps(&self, turn: u64) -> bool {
        let next = self.next.load(Ordering::SeqCst);
        self.next.store(turn.wrapping_add(1), Ordering::SeqCst);
        if turn == 0 {
            self.begun.fetch_add(1, Ordering::SeqCst);
        }
        turn == 0 || turn == next
    }
}

/// A gate that keeps what it is told, by the workers' numbers, and whether one was wrong.
#[derive(Drop)]
struct Recorder {
    turns: Vec<Turns>,
    is_wrong: AtomicBool,
}

impl Recorder {
    // Of this many workers, before any turn. It may be out of memory.
    fn new(alloc: Global, workers: usize) -> Result<Recorder, AllocError> {
        let mut turns = Vec::new(alloc);
        for _ in 0..workers {
            turns.push(Turns::new())?;
        }
        Ok(Recorder {
            turns,
            is_wrong: AtomicBool::new(false),
        })
    }

    // Returns whether the worker told only of turns that count on.
    fn keeps(&self, worker: u32, turn: u64) -> bool {
        self.turns
            .get(worker as usize)
            .is_some_and(|turns| turns.keeps(turn))
    }

    // Returns whether the link of lane 0 is being cut.
    fn is_cutting(&self) -> bool {
        self.turns
            .get(CUTTER)
            .is_some_and(|turns| turns.begun() > 0)
    }

    // Holds a worker until the link is cut, and some reads longer.
    fn hold(&self) {
        let mut more = MORE_READS;
        for read in 0..READS {
            if self.is_cutting() {
                more = more.saturating_sub(1);
            }
            if more == 0 {
                return;
            }
            if read % READS_TO_YIELD == 0 {
                thread::yield_now();
            }
        }
    }

    // Returns whether no turn was wrong, and each worker began this many sessions.
    fn has_kept(&self, sessions: &[u64]) -> bool {
        !self.is_wrong.load(Ordering::SeqCst)
            && self.turns.len() == sessions.len()
            && self
                .turns
                .iter()
                .zip(sessions.iter())
                .all(|(turns, count)| turns.begun() == *count)
    }
}

impl Gate for Recorder {
    fn at(&self, worker: u32, turn: u64) {
        if !self.keeps(worker, turn) {
            self.is_wrong.store(true, Ordering::SeqCst);
        }
        if worker == HELD && turn == 0 {
            self.hold();
        }
    }
}

// Each worker of a run that a lane has comes, and no other. Its turns count on from 0 in each session of its lane.
#[test]
fn run_counts_turns(rt: HostRuntime) -> Result<(), Fail> {
    let gate = Recorder::new(rt.alloc(), OF_RUN.len())?;
    let (ended, _sink) = answer_to(&rt, rt.alloc(), "run", ONE_LOSS, &gate)?;
    assert!(rt; ended.status == 0 && gate.has_kept(&OF_RUN));
    Ok(())
}

// The same of a stream, whose acknowledgements have lanes of their own.
#[test]
fn stream_counts_turns(rt: HostRuntime) -> Result<(), Fail> {
    let gate = Recorder::new(rt.alloc(), OF_STREAM.len())?;
    let (ended, _sink) = answer_to(&rt, rt.alloc(), "stream", ONE_LOSS, &gate)?;
    assert!(rt; ended.status == 0 && gate.has_kept(&OF_STREAM));
    Ok(())
}
