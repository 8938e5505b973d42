//! Offering.

ghost use Rattle.std.specs.Prelude.{◌≡◌, ◌≢◌, ◌==◌, length, ◌+◌, ◌*◌, ◌/◌, ◌%◌, if◌then◌else◌, ◌<◌, ◌≤◌, IfOk, OnErr, OnOk};
ghost use Rattle.hand_shake.specs.declared.OfferAnswer.TheVariants.{Offered};
ghost use Rattle.hand_shake.specs.Offers.{after_offer, next_offer, offer_answer, pad_value, with_posted};
ghost use Rattle.bridge_pair.specs.Bridge.{book_of, offer_length};
ghost use Rattle.bridge_pair.specs.Writes.{pad_write};
ghost use Rattle.pair_model.specs.Pads.{offers, pad_index, word};
ghost use Rattle.pair_model.specs.Link.{is_up as is_link_up};
ghost use Rattle.pair_model.specs.Plans.{side_plan as side_plan_of};
ghost use Rattle.step_kinds.specs.Limits.{IsWindows};
ghost use Rattle.step_kinds.specs.declared.steps.Label.TheVariants.{Pad};
ghost use Rattle.std.specs.Prelude.{IsTrue, slice_index_or};

use crate::OfferAnswer;
use bridge_pair::{Pair, SideBook, Write};
use link_state::LinkState;
use plan_numbers::{high_half, low_half, side_plan};
use std::alloc::AllocError;
use step_kinds::{Side, SidePlan};

/// A side posts the next scratchpad of its offer to the peer. First come the high and the low half of the size of each
/// of its windows, then its numbers of windows and of queues, and last its version. So the peer sees a version only
/// after all else.
///
/// # Errors
///
/// [`AllocError`] if memory runs out; only if a scratchpad was to be posted, and then nothing changes.
pub fn offer(pair: &mut Pair, side: Side) -> Result<OfferAnswer, AllocError>
    ensures answer { IfOk result (λ answer. answer ≡ offer_answer pair.old side) }
    ensures after { OnOk result (pair.new ≡ after_offer pair.old side) }
    ensures err { OnErr result (pair.new ≡ pair.old) }
    ensures wants { OnErr result (offer_answer pair.old side ≡ Offered (pad_index (next_offer pair.old side))) }
{
    if !is_up(pair) {
        return Ok(OfferAnswer::LinkDown);
    }
    if is_whole(pair, side) {
        return Ok(OfferAnswer::Already);
    }
    let pad = next_pad(pair, side);
    let book = pair.book(side);
    post_pad(pair, side, pad.index, pad.value)?;
    pair.set_book(
        side,
        SideBook {
            offered: book.offered + 1,
            ..book
        },
    );
    Ok(OfferAnswer::Offered { index: pad.index })
}

// Returns whether the pair's link is up.
fn is_up(pair: &Pair) -> bool
    ensures { result ≡ is_link_up pair.now.link.state }
{
    pair.link().state() == LinkState::Up
}

// Returns whether a side has posted its whole offer.
fn is_whole(pair: &Pair, side: Side) -> bool
    ensures { result ≡ ((book_of pair.now side).offered == length (offers (side_plan_of pair.now.plan side))) }
{
    pair.book(side).offered == 2 * side_plan(pair.plan(), side).windows + 3
}

// Returns the next scratchpad of a side's offer, of which some is left.
fn next_pad(pair: &Pair, side: Side) -> OfferedPad
    requires { (book_of pair.now side).offered ≢ length (offers (side_plan_of pair.now.plan side)) }
    ensures index { result.index ≡ pad_index (next_offer pair.now side) }
    ensures value { result.value ≡ pad_value (next_offer pair.now side) }
    ensures among { result.index < 16 }
    ensures left { (book_of pair.now side).offered < offer_length pair.now.plan side }
    ensures few { (book_of pair.now side).offered < 11 }
{
    offered_pad(&side_plan(pair.plan(), side), pair.book(side).offered)
}

/// A side posts a scratchpad of the peer while the link is up, and asks for the room itself. Returns an error if memory
/// runs out, and then nothing changes.
pub fn post_pad(pair: &mut Pair, side: Side, index: u32, value: u32) -> Result<(), AllocError>
    requires among { index < 16 }
    requires up { IsTrue (is_link_up pair.old.link.state) }
    ensures ok { OnOk result (pair.new ≡ with_posted pair.old side (pad_write index value)) }
    ensures err { OnErr result (pair.new ≡ pair.old) }
{
    pair.promise(side, 1)?;
    pair.post(side, Write::pad(index, value));
    Ok(())
}

// A scratchpad and what is written there.
#[derive(Clone, Copy)]
struct OfferedPad {
    index: u32,
    value: u32,
}

// Returns the scratchpad at this place of a side's offer, from 0.
fn offered_pad(own: &SidePlan, place: u32) -> OfferedPad
    requires windows { IsWindows own.now.windows }
    requires within { place < 2 * own.now.windows + 3 }
    ensures pad { Pad result.index result.value ≡ slice_index_or (offers own.now) place (Pad 0 0) }
    ensures among { result.index < 16 }
{
    let sizes = 2 * own.windows;
    if place < sizes {
        return OfferedPad {
            index: 4 + place,
            value: half(own.size, place % 2 == 0),
        };
    }
    match place - sizes {
        0 => OfferedPad {
            index: 3,
            value: own.windows,
        },
        1 => OfferedPad {
            index: 2,
            value: own.queues,
        },
        _ => OfferedPad {
            index: 0,
            value: own.version,
        },
    }
}

// Returns a half of a window's size.
fn half(size: u64, is_high: bool) -> u32
    ensures { result ≡ (if is_high then size / word else size % word) }
{
    if is_high {
        high_half(size)
    } else {
        low_half(size)
    }
}
