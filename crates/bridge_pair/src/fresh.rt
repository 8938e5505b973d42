//! What a side has before any step.

ghost use Rattle.std.specs.Prelude.{◌≡◌, ◌≤◌, IfOk};
ghost use Rattle.bridge_pair.specs.Fresh.{fresh_book as fresh_book_of, fresh_pads, zero_memory};
ghost use Rattle.bridge_regs.specs.Doorbell.{quiet};
ghost use Rattle.pair_model.specs.Pads.{agreed_pads as agreed_words};
ghost use Rattle.pair_model.specs.DeclaredPlans.{IsPair};
ghost use Rattle.posted_queue.specs.Flight.{nothing_in_flight};
ghost use Rattle.step_kinds.specs.Bits.{all_below};
ghost use Rattle.step_kinds.specs.Limits.{most_queues, most_windows};

use crate::book::SideBook;
use crate::endpoint::Endpoint;
use bridge_regs::Pads;
use plan_numbers::{high_half, low_half, memory_bytes, side_plan};
use std::alloc::{AllocError, Global};
use step_kinds::{PairPlan, Side, SidePlan};

/// Returns what a side has reached: all of the handshake where the pair starts up, and else nothing.
pub fn fresh_book(plan: &PairPlan, side: Side) -> SideBook
    requires { IsPair plan.now }
    ensures { result ≡ fresh_book_of plan.now side }
{
    if !plan.up {
        return SideBook::none();
    }
    let own = side_plan(plan, side);
    SideBook {
        up: true,
        ready: all_queues(own.queues),
        joined: all_queues(own.queues),
        offered: 2 * own.windows + 3,
    }
}

/// Returns the end of a side, with nothing in its memory yet. The only error is that of [`Endpoint::new`], and the
/// memory of a plan that a script can declare is too small for it.
pub fn fresh_endpoint(alloc: Global, plan: &PairPlan, side: Side) -> Result<Endpoint, AllocError>
    requires { IsPair plan.now }
    ensures { IfOk result (λ end. end ≡ record { pads = fresh_pads plan.now side; bells = quiet; memory = zero_memory plan.now side; coming = nothing_in_flight }) }
{
    let mut end = Endpoint::new(alloc, memory_bytes(plan, side))?;
    if plan.up {
        end.set_pads(agreed_pads(side_plan(plan, side.other())));
    }
    Ok(end)
}

// Returns the set of this many queues, from 0.
fn all_queues(queues: u32) -> u32
    requires { queues ≤ most_queues }
    ensures { result ≡ all_below queues }
{
    (1 << queues) - 1
}

// Returns the scratchpads of a side that has the peer's whole offer and the word that all its queues are ready. They
// are the version, the ready queues, the numbers of queues and of windows, and two halves of the size of each window.
fn agreed_pads(peer: SidePlan) -> Pads
    requires queues { peer.queues ≤ most_queues }
    requires windows { peer.windows ≤ most_windows }
    ensures { result ≡ agreed_words peer }
{
    let mut pads = Pads::new();
    pads.set(0, peer.version);
    pads.set(1, all_queues(peer.queues));
    pads.set(2, peer.queues);
    pads.set(3, peer.windows);
    for m in 0..peer.windows {
        pads.set(4 + 2 * m, high_half(peer.size));
        pads.set(5 + 2 * m, low_half(peer.size));
    }
    pads
}
