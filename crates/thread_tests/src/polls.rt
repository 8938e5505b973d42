//! How many turns the workers of one lane tell a gate in all, as a run and as a stream.

use crate::answers::answer_to;
use io_edges::Gate;
use std::alloc::{AllocError, Global};
use std::sync::Wait;
use std::sync::atomic::{AtomicU64, Ordering};
use std::test::Fail;
use std::thread::Threads;

/// A lane with one frame.
const ONE_FRAME: &str = "ntb 1
host a
host b
pair p a b up size=32768 mtu=64
traffic
frame p A 0 61
";

/// So often each is tried. If the machine is busy a worker waits for others, so the fewest turns count.
const SAMPLES: u32 = 100;

/// A gate that counts the turns that it is told.
#[derive(Drop)]
struct Counter {
    turns: AtomicU64,
}

impl Gate for Counter {
    fn at(&self, _worker: u32, _turn: u64) {
        self.turns.fetch_add(1, Ordering::SeqCst);
    }
}

// Returns the fewest turns that a command's workers told in any try. It may be out of memory.
fn fewest_turns<R: Threads + Wait + Sync>(
    rt: &R,
    alloc: Global,
    command: &str,
) -> Result<u64, AllocError> {
    let mut fewest = u64::MAX;
    for _ in 0..SAMPLES {
        let gate = Counter {
            turns: AtomicU64::new(0),
        };
        let (_ended, _sink) = answer_to(rt, alloc, command, ONE_FRAME, &gate)?;
        fewest = fewest.min(gate.turns.load(Ordering::SeqCst));
    }
    Ok(fewest)
}

// A stream of one item makes at most twice as many turns as a run of one frame: its idle workers wait as those of a run
// do. It has two frames to bring and acknowledgements to look for.
#[test]
fn stream_waits_as_a_run(rt: HostRuntime) -> Result<(), Fail> {
    let of_run = fewest_turns(&rt, rt.alloc(), "run")?;
    let of_stream = fewest_turns(&rt, rt.alloc(), "stream")?;
    assert!(rt;
        of_stream / 2 <= of_run,
        "{of_stream} turns of a stream, {of_run} of a run"
    );
    Ok(())
}
