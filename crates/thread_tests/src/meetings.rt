//! The workers of two lanes meet at a gate.

use crate::answers::answer_to;
use crate::reads::{READS, READS_TO_YIELD};
use io_edges::{Gate, MemorySink};
use ntb_top::Ended;
use std::sync::atomic::{AtomicBool, Ordering};
use std::test::Fail;
use std::thread;

/// A lane on each of two pairs.
const TWO_LANES: &str = "ntb 1
host a
host b
pair p a b up size=4096 mtu=1023
pair q a b up size=4096 mtu=1023
traffic
frame p A 0 61
frame q A 0 6263
";

const TWO_LANES_TEXT: &str = "lane p A 0 1 accepted 1 delivered 1 left 0
frame 0 61
lane q A 0 1 accepted 1 delivered 1 left 0
frame 0 6263
end
";

const TWO_STREAMS_TEXT: &str = "stream p A 0 items 1 sessions 1
item 0 61
stream q A 0 items 1 sessions 1
item 0 6263
end
";

/// Whether a worker came, and whether it saw all come.
#[derive(Drop)]
struct Flags {
    came: AtomicBool,
    saw: AtomicBool,
}

impl Flags {
    fn new() -> Flags {
        Flags {
            came: AtomicBool::new(false),
            saw: AtomicBool::new(false),
        }
    }
}

/// The gate at which the sending and the receiving workers of lanes 0 and 1 meet. Each sets its flag before its first
/// turn, and reads those of all until they are set.
#[derive(Drop)]
struct Meeting {
    flags: [Flags; 4],
}

impl Meeting {
    fn new() -> Meeting {
        Meeting {
            flags: [Flags::new(), Flags::new(), Flags::new(), Flags::new()],
        }
    }

    // Returns whether all came.
    fn have_come(&self) -> bool {
        self.flags
            .iter()
            .all(|flags| flags.came.load(Ordering::SeqCst))
    }

    // Returns whether each saw all come.
    fn have_seen(&self) -> bool {
        self.flags
            .iter()
            .all(|flags| flags.saw.load(Ordering::SeqCst))
    }

    // One comes, and reads whether all do.
    fn meet(&self, own: &Flags) {
        own.came.store(true, Ordering::SeqCst);
        for read in 0..READS {
            if self.have_come() {
                own.saw.store(true, Ordering::SeqCst);
                return;
            }
            if read % READS_TO_YIELD == 0 {
                thread::yield_now();
            }
        }
    }
}

impl Gate for Meeting {
    // Of lane n the sending worker is 4n, and the receiving one 4n + 2.
    fn at(&self, worker: u32, turn: u64) {
        let [sender, receiver, other_sender, other_receiver] = &self.flags;
        match (worker, turn) {
            (0, 0) => self.meet(sender),
            (2, 0) => self.meet(receiver),
            (4, 0) => self.meet(other_sender),
            (6, 0) => self.meet(other_receiver),
            _ => {}
        }
    }
}

// Returns whether status 0 came with this text and this many proofs.
fn is_answer(ended: &Ended, sink: &MemorySink, text: &str, proofs: usize) -> bool {
    ended.status == 0 && sink.held() == text.as_bytes() && ended.proofs.len() == proofs
}

// A run doesn't pass whose workers take turns on one thread, be it those of the second lane alone. Who comes first
// spends its reads before another comes. Nor does a run pass that carries one lane after the other.
#[test]
fn workers_meet(rt: HostRuntime) -> Result<(), Fail> {
    let gate = Meeting::new();
    let (ended, sink) = answer_to(&rt, rt.alloc(), "run", TWO_LANES, &gate)?;
    assert!(rt; is_answer(&ended, &sink, TWO_LANES_TEXT, 2) && ended.runs.is_some());
    assert!(rt; gate.have_seen());
    Ok(())
}

// The same of two streams: their sources and their sinks act beside one another.
#[test]
fn stream_meets(rt: HostRuntime) -> Result<(), Fail> {
    let gate = Meeting::new();
    let (ended, sink) = answer_to(&rt, rt.alloc(), "stream", TWO_LANES, &gate)?;
    assert!(rt; is_answer(&ended, &sink, TWO_STREAMS_TEXT, 4) && ended.streams.is_some());
    assert!(rt; ended.runs.is_none() && gate.have_seen());
    Ok(())
}
