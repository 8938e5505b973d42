//! The steps that touch the bridge of a pair alone: the link, the handshake, registers, landings and what is shown.

ghost use Rattle.std.specs.Prelude.{IfOk, IsErr, OnErr, OnOk, bit_or, length, option_map, slice_get, ◌+◌, ◌<◌, ◌≡◌, ◌≤◌, true};
ghost use Rattle.plan_numbers.specs.Memories.{memory_size};
ghost use Rattle.bridge_pair.specs.Bridge.{bells_of, bridge_bytes_of, flight_of, pages_of, with_bells};
ghost use Rattle.bridge_pair.specs.Calls.{HasPages};
ghost use Rattle.bridge_pair.specs.Flights.{Flying, Translates, arrival_of};
ghost use Rattle.bridge_pair.specs.Links.{after_train};
ghost use Rattle.bridge_pair.specs.Writes.{memory_write, pad_write};
ghost use Rattle.bridge_regs.specs.Doorbell.{with_masked};
ghost use Rattle.fabric_core.specs.Fabric.{bridge_wants_memory};
ghost use Rattle.fabric_core.specs.Promises.{CanTurn, HasMorePages};
ghost use Rattle.fabric_rule.specs.Answers.{of_link};
ghost use Rattle.hand_shake.specs.Offers.{with_posted};
ghost use Rattle.step_kinds.specs.Answers.{is_made};
ghost use Rattle.host_memory.specs.Memory.{bytes_at};
ghost use Rattle.pair_model.specs.DeclaredPlans.{IsPoke};
ghost use Rattle.pair_model.specs.Link.{is_up, train_refusal};
ghost use Rattle.step_kinds.specs.Bits.{without_bits};
ghost use Rattle.step_kinds.specs.Sides.{other_side};
ghost use Rattle.step_kinds.specs.declared.steps.Answer.TheVariants as answer;
ghost use Rattle.step_kinds.specs.declared.steps.Label.TheVariants.{Raw as RawLabel};
ghost use Rattle.fabric_rule.specs.Turns.{bridge_turn, posted_aside};

use crate::answers::{
    check_answer, join_answer, land_answer, link_answer, offer_answer, ready_answer, refusal_answer,
};
use bridge_pair::{Pair, Write};
use hand_shake::{check, join, offer, ready};
use link_state::LinkState;
use plan_numbers::own_address;
use queue_pair::irq;
use std::alloc::{AllocError, Global};
use step_kinds::{Answer, BridgeStep, Frame, Label, Side};

/// Makes a step on the bridge and returns its answer.
///
/// # Errors
///
/// [`AllocError`] if memory runs out. Further pages may then be promised, and nothing else changes.
#[inline(always)]
pub fn bridge_step(pair: &mut Pair, alloc: Global, step: BridgeStep) -> Result<Answer, AllocError>
    requires { CanTurn pair.old step }
    ensures answer { IfOk result (λ answer. answer ≡ (bridge_turn pair.old step.entry).answer) }
    ensures after { OnOk result (HasMorePages (bridge_turn pair.old step.entry).bridge pair.new) }
    ensures err { OnErr result (HasMorePages pair.old pair.new) }
    ensures wants { IsErr result → bridge_wants_memory step.entry ≡ true }
    ensures border { OnErr result (is_made (bridge_turn pair.old step.entry).answer ≡ true) }
{
    match step {
        BridgeStep::Enable { side } => Ok(link_answer(pair.enable(side))),
        BridgeStep::Train => Ok(train(pair)),
        BridgeStep::Break => Ok(link_answer(pair.cut())),
        BridgeStep::DropDone => Ok(link_answer(pair.drop_done())),
        BridgeStep::Offer { side } => Ok(offer_answer(offer(pair, side)?)),
        BridgeStep::Check { side } => Ok(check_answer(check(pair, side)?)),
        BridgeStep::Ready { side, queue } => Ok(ready_answer(ready(pair, side, queue)?)),
        BridgeStep::Join { side, queue } => Ok(join_answer(join(pair, side, queue))),
        BridgeStep::Land { side, place } => Ok(land_answer(pair.land(side, place as usize))),
        BridgeStep::Irq { side } => Ok(Answer::Irq {
            bits: irq(pair, side),
        }),
        BridgeStep::Mask { side, bits } => Ok(mask(pair, side, bits)),
        BridgeStep::Unmask { side, bits } => Ok(unmask(pair, side, bits)),
        BridgeStep::Spad { side, index, value } => spad(pair, side, index, value),
        BridgeStep::Poke {
            side,
            window,
            offset,
            bytes,
        } => poke(pair, side, window, offset, bytes),
        BridgeStep::ShowMem { side, at, len } => shown_memory(pair, alloc, side, at, len),
        BridgeStep::ShowPad { side, index } => Ok(Answer::PadValue {
            value: pair.pad(side, index),
        }),
        BridgeStep::ShowQueue { side, place } => Ok(shown_queue(pair, side, place)),
    }
}

// The link comes up in the next session.
fn train(pair: &mut Pair) -> Answer
    ensures answer { result ≡ of_link (train_refusal pair.old.link) (answer.OkSession (pair.old.link.session + 1)) }
    ensures after { pair.new ≡ after_train pair.old }
{
    match pair.train() {
        Ok(session) => Answer::OkSession { session },
        Err(refusal) => refusal_answer(refusal),
    }
}

// Masks doorbell bits of a side.
fn mask(pair: &mut Pair, side: Side, bits: u32) -> Answer
    ensures answer { result ≡ answer.Ok }
    ensures after { pair.new ≡ with_bells pair.old side (with_masked (bells_of pair.old side) (bit_or (bells_of pair.old side).masked bits)) }
{
    pair.bells(side).mask(bits);
    Answer::Ok
}

// Unmasks doorbell bits of a side.
fn unmask(pair: &mut Pair, side: Side, bits: u32) -> Answer
    ensures answer { result ≡ answer.Ok }
    ensures after { pair.new ≡ with_bells pair.old side (with_masked (bells_of pair.old side) (without_bits (bells_of pair.old side).masked bits)) }
{
    pair.bells(side).unmask(bits);
    Answer::Ok
}

// A side writes a scratchpad of the peer, past the handshake.
fn spad(pair: &mut Pair, side: Side, index: u32, value: u32) -> Result<Answer, AllocError>
    requires { index < 16 }
    ensures answer { IfOk result (λ given. given ≡ answer.Ok) }
    ensures after { OnOk result (pair.new ≡ posted_aside pair.old side (pad_write index value)) }
    ensures err { OnErr result (pair.new ≡ pair.old) }
{
    if pair.link().state() != LinkState::Up {
        return Ok(Answer::Ok);
    }
    post_aside(pair, side, Write::pad(index, value))?;
    Ok(Answer::Ok)
}

// A side posts a write while the link is up, and asks for its room.
fn post_aside(pair: &mut Pair, side: Side, write: Write) -> Result<(), AllocError>
    requires up { is_up pair.old.link.state ≡ true }
    requires translates { Translates pair.old.plan side write.target }
    requires pages { HasPages (pages_of pair.old (other_side side)) (arrival_of pair.old.plan side write.target) }
    ensures ok { OnOk result (pair.new ≡ with_posted pair.old side write) }
    ensures err { OnErr result (pair.new ≡ pair.old) }
{
    pair.promise(side, 1)?;
    pair.post(side, write);
    Ok(())
}

// A side posts bytes through a window, past the transport.
fn poke(
    pair: &mut Pair,
    side: Side,
    window: u32,
    offset: u64,
    bytes: &Frame,
) -> Result<Answer, AllocError>
    requires { IsPoke pair.old.plan side window offset bytes.now }
    ensures answer { IfOk result (λ given. given ≡ answer.Ok) }
    ensures after { OnOk result (HasMorePages (posted_aside pair.old side (memory_write (RawLabel window offset (length bytes.now)) window offset bytes.now)) pair.new) }
    ensures err { OnErr result (HasMorePages pair.old pair.new) }
{
    if pair.link().state() != LinkState::Up {
        return Ok(Answer::Ok);
    }
    let len = bytes.len();
    let peer = side.other();
    let at = own_address(pair.plan(), peer, window, offset);
    pair.promise_range(peer, at, u64::from(len))?;
    let label = Label::Raw {
        window,
        offset,
        len,
    };
    post_aside(
        pair,
        side,
        Write::memory(label, window, offset, bytes.bytes()),
    )?;
    Ok(Answer::Ok)
}

// Bytes of a side's memory.
fn shown_memory(
    pair: &Pair,
    alloc: Global,
    side: Side,
    at: u64,
    len: u32,
) -> Result<Answer, AllocError>
    requires within { at + len ≤ memory_size pair.now.plan side }
    requires few { len ≤ 64 }
    ensures { IfOk result (λ given. given ≡ answer.Mem (bytes_at at len (bridge_bytes_of pair.now side))) }
{
    pair.law();
    let mut bytes = Vec::new(alloc);
    bytes.resize(len as usize, 0u8)?;
    pair.local_read(side, at, &mut bytes);
    Ok(Answer::Mem {
        bytes: Frame::of_vec(bytes),
    })
}

// Returns what a side has in flight: how many writes, and the label of one.
fn shown_queue(pair: &Pair, side: Side, place: u32) -> Answer
    ensures { result ≡ answer.QueueShown (length (flight_of pair.now side).writes) (option_map (λ (flying : Flying). flying.label) (slice_get (flight_of pair.now side).writes place)) }
{
    Answer::QueueShown {
        count: pair.in_flight(side) as u64,
        label: pair.label_at(side, place as usize),
    }
}
