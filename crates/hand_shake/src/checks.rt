//! Checking.

ghost use Rattle.std.specs.Prelude.{◌≡◌, ◌≢◌, ◌≤◌, ◌<◌, IfOk, OnErr, OnOk, Option, Some, None, option_map};
ghost use Rattle.bridge_pair.specs.Bridge.{bridge_bytes_of, pads_of, pages_of, with_pages};
ghost use Rattle.bridge_pair.specs.Pages.{PagesGrow};
ghost use Rattle.plan_numbers.specs.Memories.{WindowsFit};
ghost use Rattle.hand_shake.specs.Checks.{TouchesAnyRing, TouchesRings, after_check, came_up, check_answer as answer_by, unless_larger};
ghost use Rattle.hand_shake.specs.Headers.{AreRingsReady};
ghost use Rattle.hand_shake.specs.declared.CheckAnswer.TheVariants.{Up};
ghost use Rattle.pair_model.specs.Pads.{first_larger, size_in};
ghost use Rattle.pair_model.specs.Plans.{side_plan as side_plan_of};
ghost use Rattle.step_kinds.specs.Limits.{IsWindows};

use crate::CheckAnswer;
use crate::headers::{promise_headers, zero_headers};
use bridge_pair::{Pair, SideBook};
use link_state::LinkState;
use plan_numbers::side_plan;
use std::alloc::AllocError;
use step_kinds::{Side, SidePlan};

// The scratchpads of an offer's numbers.
const VERSION_PAD: u32 = 0;

const QUEUES_PAD: u32 = 2;

const WINDOWS_PAD: u32 = 3;

/// A side reads the peer's offer in its own scratchpads. If it agrees with the side's own numbers, the side is up. It
/// then zeroes all headers of the rings that it receives in, so that no old flag is taken for an entry. It also sets
/// its index words to say that no entry is taken. Versions that differ agree where both are 4 at least.
///
/// Where the answer would be [`CheckAnswer::Up`], the windows that the peer's plan has fit those that the side's memory
/// gives; on pairs whose scratchpads hold nothing but offers this follows.
///
/// # Errors
///
/// [`AllocError`] if memory runs out; only if the side was to come up. Some pages of those that it writes may then be
/// promised, and nothing else changes. A header that is zero already needs no page.
pub fn check(pair: &mut Pair, side: Side) -> Result<CheckAnswer, AllocError>
    requires { answer_by pair.old side ≡ Up → WindowsFit pair.old.plan side }
    ensures answer { IfOk result (λ answer. answer ≡ answer_by pair.old side) }
    ensures after { OnOk result (pair.new ≡ with_pages (after_check pair.old side) side (pages_of pair.new side)) }
    ensures err { OnErr result (pair.new ≡ with_pages pair.old side (pages_of pair.new side)) }
    ensures pages { PagesGrow (TouchesRings pair.old side) (pages_of pair.old side) (pages_of pair.new side) }
    ensures ready { OnOk result (answer_by pair.old side ≡ Up → AreRingsReady pair.old.plan side (bridge_bytes_of pair.old side) (pages_of pair.new side)) }
    ensures wants { OnErr result (answer_by pair.old side ≡ Up) }
    ensures same { answer_by pair.old side ≢ Up → pair.new ≡ pair.old }
{
    let answer = check_answer(pair, side);
    if let CheckAnswer::Up = answer {
        come_up(pair, side)?;
    }
    Ok(answer)
}

// The side comes up: its rings are made fresh.
fn come_up(pair: &mut Pair, side: Side) -> Result<(), AllocError>
    requires { WindowsFit pair.old.plan side }
    ensures ok { OnOk result (pair.new ≡ with_pages (came_up pair.old side) side (pages_of pair.new side)) }
    ensures err { OnErr result (pair.new ≡ with_pages pair.old side (pages_of pair.new side)) }
    ensures pages { PagesGrow (TouchesAnyRing pair.old.plan side (bridge_bytes_of pair.old side)) (pages_of pair.old side) (pages_of pair.new side) }
    ensures ready { OnOk result (AreRingsReady pair.old.plan side (bridge_bytes_of pair.old side) (pages_of pair.new side)) }
{
    promise_headers(pair, side)?;
    pair.promise_index_words(side)?;
    zero_headers(pair, side);
    pair.set_index_words(side);
    let book = pair.book(side);
    pair.set_book(side, SideBook { up: true, ..book });
    Ok(())
}

// Returns the answer to a check.
fn check_answer(pair: &Pair, side: Side) -> CheckAnswer
    ensures { result ≡ answer_by pair.now side }
{
    let own = side_plan(pair.plan(), side);
    let version = pair.pad(side, VERSION_PAD);
    let queues = pair.pad(side, QUEUES_PAD);
    let windows = pair.pad(side, WINDOWS_PAD);
    if pair.link().state() != LinkState::Up {
        CheckAnswer::LinkDown
    } else if pair.book(side).up {
        CheckAnswer::Already
    } else if version == 0 {
        CheckAnswer::NotYet
    } else if version != own.version && (version < 4 || own.version < 4) {
        CheckAnswer::Version {
            seen: version,
            own: own.version,
        }
    } else if queues != own.queues {
        CheckAnswer::Queues {
            seen: queues,
            own: own.queues,
        }
    } else if windows != own.windows {
        CheckAnswer::Windows {
            seen: windows,
            own: own.windows,
        }
    } else {
        size_answer(pair, side, &own)
    }
}

// Returns the last test: no window of the peer is larger than the side's memory gives.
fn size_answer(pair: &Pair, side: Side, own: &SidePlan) -> CheckAnswer
    requires own { own.now ≡ side_plan_of pair.now.plan side }
    requires windows { IsWindows own.now.windows }
    ensures { result ≡ unless_larger own.now (pads_of pair.now side) (first_larger own.now (pads_of pair.now side)) Up }
{
    for m in 0..own.windows {
        let seen = offered_size(pair, side, m);
        if own.cap < seen {
            return CheckAnswer::Size { seen, cap: own.cap };
        }
    }
    CheckAnswer::Up
}

// Returns the size of a window as the peer offered it.
fn offered_size(pair: &Pair, side: Side, m: u32) -> u64
    requires { m < 4 }
    ensures { result ≡ size_in (pads_of pair.now side) m }
{
    let high = pair.pad(side, 4 + 2 * m);
    let low = pair.pad(side, 5 + 2 * m);
    u64::from(high) * (1 << 32) + u64::from(low)
}
