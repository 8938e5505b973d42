//! Queues that are ready and joined.

ghost use Rattle.std.specs.Prelude.{◌≡◌, ◌<◌, IfOk, OnErr, OnOk};
ghost use Rattle.hand_shake.specs.Queues.{after_join, after_ready, join_answer, ready_answer};
ghost use Rattle.hand_shake.specs.declared.ReadyAnswer.TheVariants.{Ok as IsReady};
ghost use Rattle.pair_model.specs.Plans.{side_plan};
ghost use Rattle.step_kinds.specs.Bits.{has_bit as is_among, with_bit as bits_with};

use crate::offers::post_pad;
use crate::{JoinAnswer, ReadyAnswer};
use bridge_pair::{Pair, SideBook};
use link_state::LinkState;
use std::alloc::AllocError;
use step_kinds::Side;

// The scratchpad in which the peer says which of its queues are ready.
const LINKS_PAD: u32 = 1;

/// A side says that a queue is ready: the queue joins the side's ready set, and the scratchpad of link bits with
/// exactly that set is posted to the peer. The queue has to be one of the side's.
///
/// # Errors
///
/// [`AllocError`] if memory runs out; only if the queue was to become ready, and then nothing changes.
pub fn ready(pair: &mut Pair, side: Side, queue: u32) -> Result<ReadyAnswer, AllocError>
    requires { queue < (side_plan pair.old.plan side).queues }
    ensures answer { IfOk result (λ answer. answer ≡ ready_answer pair.old side queue) }
    ensures after { OnOk result (pair.new ≡ after_ready pair.old side queue) }
    ensures err { OnErr result (pair.new ≡ pair.old) }
    ensures wants { OnErr result (ready_answer pair.old side queue ≡ IsReady) }
{
    if pair.link().state() != LinkState::Up {
        return Ok(ReadyAnswer::LinkDown);
    }
    let book = pair.book(side);
    if !book.up {
        return Ok(ReadyAnswer::NotChecked);
    }
    if has_bit(book.ready, queue) {
        return Ok(ReadyAnswer::Already);
    }
    let ready = with_bit(book.ready, queue);
    post_pad(pair, side, LINKS_PAD, ready)?;
    pair.set_book(side, SideBook { ready, ..book });
    Ok(ReadyAnswer::Ok)
}

/// A side joins a queue that it has said to be ready, if the peer has said so too: the queue joins the side's joined
/// set, and frames may go. The queue has to be one of the side's. It takes no memory.
pub fn join(pair: &mut Pair, side: Side, queue: u32) -> JoinAnswer
    requires { queue < (side_plan pair.old.plan side).queues }
    ensures answer { result ≡ join_answer pair.old side queue }
    ensures after { pair.new ≡ after_join pair.old side queue }
{
    if pair.link().state() != LinkState::Up {
        return JoinAnswer::LinkDown;
    }
    let book = pair.book(side);
    if !has_bit(book.ready, queue) {
        return JoinAnswer::NotReady;
    }
    if has_bit(book.joined, queue) {
        return JoinAnswer::Already;
    }
    if !has_bit(pair.pad(side, LINKS_PAD), queue) {
        return JoinAnswer::NotYet;
    }
    let joined = with_bit(book.joined, queue);
    pair.set_book(side, SideBook { joined, ..book });
    JoinAnswer::Joined
}

// Returns whether a number is in a set of numbers below 32, and the set with it.
fn has_bit(bits: u32, k: u32) -> bool
    requires { k < 32 }
    ensures { result ≡ is_among bits k }
{
    (bits >> k) % 2 == 1
}

fn with_bit(bits: u32, k: u32) -> u32
    requires { k < 32 }
    ensures { result ≡ bits_with bits k }
{
    bits | 1 << k
}
