//! Workers pass the gate before their turns: one that is held there has not made its turn.

use crate::answers::answer_to;
use crate::reads::{MORE_READS, READS, READS_TO_YIELD};
use io_edges::Gate;
use std::sync::atomic::{AtomicBool, Ordering};
use std::test::Fail;
use std::thread;

/// Two frames on a lane that loses its link once.
const ONE_LOSS: &str = "ntb 1
host a
host b
pair p a b up size=4096 mtu=1023
traffic
frame p A 0 61
frame p A 0 6263
break p
";

/// The link is cut before the first frame is sent.
const CUT_FIRST_TEXT: &str = "lane p A 0 1 accepted 0 delivered 0 left 0
lane p A 0 2 accepted 2 delivered 2 left 0
frame 0 61
frame 1 6263
end
";

/// Both frames are sent before the link is cut.
const SENT_FIRST: &str = "lane p A 0 1 accepted 2 ";

/// A gate that holds the worker that sends until the one that cuts came. It may hold the latter until the sender, which
/// sends two frames, reaches its third turn.
#[derive(Drop)]
struct Order {
    cutter_came: AtomicBool,
    sender_sent: AtomicBool,
    holds_cutter: bool,
}

impl Order {
    fn new(holds_cutter: bool) -> Order {
        Order {
            cutter_came: AtomicBool::new(false),
            sender_sent: AtomicBool::new(false),
            holds_cutter,
        }
    }
}

// Holds a worker until another came, and this many reads longer.
fn hold(came: &AtomicBool, more: u32) {
    let mut more = more;
    for read in 0..READS {
        if came.load(Ordering::SeqCst) {
            if more == 0 {
                return;
            }
            more = more.saturating_sub(1);
        }
        if read % READS_TO_YIELD == 0 {
            thread::yield_now();
        }
    }
}

impl Gate for Order {
    fn at(&self, worker: u32, turn: u64) {
        match (worker, turn) {
            (0, 0) if self.holds_cutter => hold(&self.cutter_came, 0),
            (0, 0) => hold(&self.cutter_came, MORE_READS),
            (0, 2) => self.sender_sent.store(true, Ordering::SeqCst),
            (3, 0) => {
                self.cutter_came.store(true, Ordering::SeqCst);
                if self.holds_cutter {
                    hold(&self.sender_sent, 0);
                }
            }
            _ => {}
        }
    }
}

// The sender is held before its first turn until the link is cut, so no frame is accepted then.
#[test]
fn sender_waits_before_its_turn(rt: HostRuntime) -> Result<(), Fail> {
    let gate = Order::new(false);
    let (ended, sink) = answer_to(&rt, rt.alloc(), "run", ONE_LOSS, &gate)?;
    assert!(rt; ended.status == 0 && sink.held() == CUT_FIRST_TEXT.as_bytes());
    Ok(())
}

// The cutting worker is held before its turn until both frames are sent, so both are accepted.
#[test]
fn cutter_waits_before_its_turn(rt: HostRuntime) -> Result<(), Fail> {
    let gate = Order::new(true);
    let (ended, sink) = answer_to(&rt, rt.alloc(), "run", ONE_LOSS, &gate)?;
    assert!(rt; ended.status == 0 && sink.held().starts_with(SENT_FIRST.as_bytes()));
    Ok(())
}
