//! One end of a bridge.

ghost use Rattle.std.specs.Prelude.{◌≡◌, ◌↔◌, ◌+◌, ◌<◌, ◌≤◌, IsTrue, Contains, IfOk, IsOk, OnOk, OnErr, length, option_map, replicate, slice_get, slice_index, slice_set, vec_len};
ghost use Rattle.step_kinds.specs.Limits.{most_write_bytes};
ghost use Rattle.bridge_pair.specs.Ends.{HasPlace, IsEnd, after_answer, after_arrival, fresh_end, label_landed, stored_at};
ghost use Rattle.pair_model.specs.DeclaredPlans.{IsPair};
ghost use Rattle.pair_model.specs.Orders.{order_of};
ghost use Rattle.bridge_pair.specs.Flights.{Flying, flying_order};
ghost use Rattle.bridge_pair.specs.declared.flying_write.Arrival.TheVariants.{AtAddress};
ghost use Rattle.bridge_pair.specs.Pages.{PagesGrow};
ghost use Rattle.bridge_pair.specs.Same.{HasSameParts, IsSameEnd, LandsAsEnd};
ghost use Rattle.bridge_regs.specs.Doorbell.{with_pending};
ghost use Rattle.pair_model.specs.Headers.{word_bytes};
ghost use Rattle.host_memory.specs.Memory.{AreAbsent, ArePromised, AreZero, Touches, bytes_at, memory_word_at};
ghost use Rattle.posted_queue.specs.Flight.{discarded, given_back, nothing_in_flight, posted, promised};
ghost use Rattle.posted_queue.specs.Landing.{flight_after_landing, land_answer};

use crate::flying_bytes::{Buffer, FEW, FlyingBytes};
use crate::flying_write::{Arrival, FlyingWrite};
use crate::same::{
    have_same_bytes, have_same_bytes_after, have_same_writes, have_same_writes_without,
};
use bridge_regs::{Bells, Pads};
use host_memory::Memory;
use posted_queue::{LandAnswer, Queue};
use std::alloc::{AllocError, Global};
use std::marker::Model;
use step_kinds::limits::MOST_WRITE_BYTES;
use step_kinds::{Label, PairPlan, Side};

/// What lies at one side of a pair, its scratchpads, doorbell and memory, and what is in flight towards it. For each
/// write that is promised there is a buffer, since it may have more bytes than stand in place.
#[derive(Drop)]
pub struct Endpoint {
    pads: Pads,
    bells: Bells,
    memory: Memory,
    coming: Queue<FlyingWrite>,
    buffers: Vec<Buffer>,
    alloc: Global,
}

impl Endpoint {
    ghost use Rattle.std.specs.Borrow.{sem};
    ghost use Rattle.bridge_pair.specs.Lending.{LendsBells};

    /// Returns an end with `len` bytes of memory, to which nothing has come. The only error comes where `len` is 2^63
    /// or more, as from [`Memory::new`].
    pub fn new(alloc: Global, len: u64) -> Result<Endpoint, AllocError>
        ensures { IfOk result (λ end. end ≡ fresh_end len) }
    {
        Ok(Endpoint {
            pads: Pads::new(),
            bells: Bells::new(),
            memory: Memory::new(alloc, len)?,
            coming: Queue::new(alloc),
            buffers: Vec::new(alloc),
            alloc,
        })
    }

    /// Returns an end in the same state, with the same promises. Returns an error if memory runs out.
    pub fn copy_of(&self, alloc: Global) -> Result<Endpoint, AllocError>
        ensures { IfOk result (λ copy. copy ≡ self.now) }
    {
        let mut buffers = Vec::new(alloc);
        make_buffers(alloc, &mut buffers, self.coming.spare())?;
        Ok(Endpoint {
            pads: self.pads,
            bells: self.bells,
            memory: self.memory.copy_of(alloc)?,
            coming: copy_of_queue(&self.coming, alloc)?,
            buffers,
            alloc,
        })
    }

    /// What is so of every end. It does nothing: its clause is the law.
    pub fn law(&self)
        ensures { IsEnd self.now }
    {
        let _word = self.pads.get(0);
        let _pending = self.bells.pending();
        let _masked = self.bells.masked();
    }

    /// Returns whether two ends have the same registers, bytes and writes in flight.
    pub fn is_same(&self, other: &Endpoint) -> bool
        ensures { IsTrue result ↔ IsSameEnd self.now other.now }
    {
        self.pads == other.pads
            && self.bells == other.bells
            && have_same_writes(&self.coming, &other.coming)
            && have_same_bytes(&self.memory, &other.memory)
    }

    /// Returns whether the write at a place of those that come may land, and makes this end the same as another.
    pub fn lands_as(&self, place: usize, other: &Endpoint) -> bool
        ensures { IsTrue result ↔ LandsAsEnd self.now place other.now }
    {
        let Some(write) = self.coming.label_at(place) else {
            return false;
        };
        self.coming.may_land(place)
            && have_same_writes_without(&self.coming, place, &other.coming)
            && self.arrives_as(&write.arrival, other)
    }

    // Returns whether what arrives makes the registers and bytes of this end those of another.
    fn arrives_as(&self, arrival: &Arrival, other: &Endpoint) -> bool
        requires { HasPlace self.now.memory arrival.now }
        ensures { IsTrue result ↔ HasSameParts (after_arrival self.now arrival.now) other.now }
    {
        match arrival {
            Arrival::AtAddress { at, bytes } => {
                other.has_registers(self.pads, self.bells)
                    && have_same_bytes_after(&self.memory, *at, bytes.as_slice(), &other.memory)
            }
            Arrival::AtPad { index, value } => {
                let mut pads = self.pads;
                pads.set(*index, *value);
                other.has_registers(pads, self.bells)
                    && have_same_bytes(&self.memory, &other.memory)
            }
            Arrival::AtBell { bit } => {
                let mut bells = self.bells;
                bells.ring(*bit);
                other.has_registers(self.pads, bells)
                    && have_same_bytes(&self.memory, &other.memory)
            }
        }
    }

    // Returns whether its registers are these.
    fn has_registers(&self, pads: Pads, bells: Bells) -> bool
        ensures { IsTrue result ↔ ((pads ≡ self.now.pads) × (bells ≡ self.now.bells)) }
    {
        self.pads == pads && self.bells == bells
    }

    // What comes

    pub fn promise(&mut self, more: usize) -> Result<(), AllocError>
        ensures ok { OnOk result (self.new ≡ record self.old { coming = promised self.old.coming more }) }
        ensures err { OnErr result (self.new ≡ self.old) }
    {
        let spare = self.coming.spare().checked_add(more).ok_or(AllocError)?;
        if self.buffers.len() < spare {
            make_buffers(self.alloc, &mut self.buffers, spare)?;
        }
        self.coming.promise(more)
    }

    pub fn give_back(&mut self, count: usize)
        requires { count ≤ self.old.coming.spare }
        ensures { self.new ≡ record self.old { coming = given_back self.old.coming count } }
    {
        self.coming.give_back(count);
    }

    /// The peer posts a write to a register.
    #[inline]
    pub fn post(&mut self, write: FlyingWrite)
        requires promise { 0 < self.old.coming.spare }
        requires place { HasPlace self.old.memory write.arrival }
        ensures { self.new ≡ record self.old { coming = posted self.old.coming write } }
    {
        self.coming.push(write);
    }

    /// The peer posts bytes, which arrive from the address `at` on.
    #[inline]
    pub fn post_bytes(&mut self, plan: &PairPlan, side: Side, label: Label, at: u64, bytes: &[u8])
        requires declared { IsPair plan.now }
        requires promise { 0 < self.old.coming.spare }
        requires few { length bytes.now ≤ most_write_bytes }
        requires place { HasPlace self.old.memory (AtAddress at bytes.now) }
        ensures { self.new ≡ record self.old { coming = posted self.old.coming (record { label = label; order = order_of plan.now side label; arrival = AtAddress at bytes.now }) } }
    {
        let bytes = flying_bytes(&mut self.buffers, bytes);
        let arrival = Arrival::AtAddress { at, bytes };
        self.coming
            .push(FlyingWrite::new(plan, side, label, arrival));
    }

    /// Lands the write at a place of those that come.
    #[inline]
    pub fn land(&mut self, place: usize) -> LandAnswer<Label>
        ensures answer { result ≡ label_landed (land_answer flying_order self.old.coming place) }
        ensures after { self.new ≡ after_answer (record self.old { coming = flight_after_landing flying_order self.old.coming place }) (land_answer flying_order self.old.coming place) }
        ensures size { length self.new.memory.bytes ≡ length self.old.memory.bytes }
    {
        match self.coming.land(place) {
            LandAnswer::Nothing => LandAnswer::Nothing,
            LandAnswer::Blocked => LandAnswer::Blocked,
            LandAnswer::Landed(write) => {
                self.arrive(write.arrival);
                LandAnswer::Landed(write.label)
            }
        }
    }

    // What arrives is stored, or sets its register.
    #[inline]
    fn arrive(&mut self, arrival: Arrival)
        requires { HasPlace self.old.memory arrival }
        ensures after { self.new ≡ after_arrival self.old arrival }
        ensures size { length self.new.memory.bytes ≡ length self.old.memory.bytes }
    {
        match arrival {
            Arrival::AtAddress { at, bytes } => {
                self.write(at, bytes.as_slice());
                keep_buffer(&mut self.buffers, bytes);
            }
            Arrival::AtPad { index, value } => self.pads.set(index, value),
            Arrival::AtBell { bit } => self.bells.ring(bit),
        }
    }

    pub fn coming_count(&self) -> usize
        ensures { result ≡ length self.now.coming.writes }
    {
        self.coming.len()
    }

    pub fn label_at(&self, place: usize) -> Option<Label>
        ensures { result ≡ option_map (λ (flying : Flying). flying.label) (slice_get self.now.coming.writes place) }
    {
        Some(self.coming.label_at(place)?.label)
    }

    /// Drops all that comes.
    pub fn discard(&mut self)
        ensures { self.new ≡ record self.old { coming = discarded self.old.coming } }
    {
        self.coming.discard();
    }

    // Memory

    pub fn read(&self, at: u64, out: &mut [u8])
        requires { at + length out.old ≤ length self.now.memory.bytes }
        ensures { out.new ≡ bytes_at at (length out.old) self.now.memory.bytes }
    {
        self.memory.read(at, out);
    }

    pub fn is_blank(&self, at: u64, len: u64) -> bool
        requires { at + len ≤ length self.now.memory.bytes }
        ensures absent { IsTrue result ↔ AreAbsent at len self.now.memory.promised }
        ensures zeros { IsTrue result → AreZero at len self.now.memory.bytes }
    {
        self.memory.is_blank(at, len)
    }

    pub fn word_at(&self, at: u64) -> u32
        requires { at + 4 ≤ length self.now.memory.bytes }
        ensures { result ≡ memory_word_at at self.now.memory.bytes }
    {
        self.memory.u32_at(at)
    }

    pub fn write(&mut self, at: u64, bytes: &[u8])
        requires within { at + length bytes.now ≤ length self.old.memory.bytes }
        requires promised { ArePromised at (length bytes.now) self.old.memory.promised }
        ensures after { self.new ≡ record self.old { memory = stored_at at bytes.now self.old.memory } }
        ensures size { length self.new.memory.bytes ≡ length self.old.memory.bytes }
    {
        self.memory.write(at, bytes);
    }

    pub fn set_word(&mut self, at: u64, value: u32)
        requires within { at + 4 ≤ length self.old.memory.bytes }
        requires promised { ArePromised at 4 self.old.memory.promised }
        ensures after { self.new ≡ record self.old { memory = stored_at at (word_bytes value) self.old.memory } }
        ensures size { length self.new.memory.bytes ≡ length self.old.memory.bytes }
    {
        self.memory.set_u32(at, value);
    }

    pub fn promise_range(&mut self, at: u64, len: u64) -> Result<(), AllocError>
        requires { at + len ≤ length self.old.memory.bytes }
        ensures rest { self.new ≡ record self.old { memory = record { bytes = self.old.memory.bytes; promised = self.new.memory.promised } } }
        ensures pages { PagesGrow (Touches at len) self.old.memory.promised self.new.memory.promised }
        ensures ok { OnOk result (ArePromised at len self.new.memory.promised) }
        ensures had { ArePromised at len self.old.memory.promised → IsOk result × (self.new ≡ self.old) }
    {
        self.memory.promise(at, len)
    }

    // Registers

    pub fn pad(&self, index: u32) -> u32
        requires { index < 16 }
        ensures { result ≡ slice_index self.now.pads index }
    {
        self.pads.get(index)
    }

    pub fn bells(&mut self) -> &mut Bells
        ensures* lends { sem 𝓛 (LendsBells self.entry result) }
        ensures value { result.now ≡ self.old.bells }
    {
        &mut self.bells
    }

    pub fn set_pads(&mut self, pads: Pads)
        ensures { self.new ≡ record self.old { pads = pads } }
    {
        self.pads = pads;
    }

    pub fn zero_registers(&mut self)
        ensures { self.new ≡ record self.old { pads = replicate 16 0; bells = with_pending self.old.bells 0 } }
    {
        self.pads = Pads::new();
        self.bells.zero_pending();
    }
}

impl Model for Endpoint {
    ghost use Rattle.bridge_pair.specs.Ends.{End};
    ghost use Rattle.bridge_pair.specs.Endpoints.{IsHeld, end_seen};

    ghost Value = { End };

    ghost view = { end_seen };

    ghost invariant = { IsHeld };
}

// A queue with the same writes in flight, and as much room for more.
fn copy_of_queue(
    queue: &Queue<FlyingWrite>,
    alloc: Global,
) -> Result<Queue<FlyingWrite>, AllocError>
    ensures { IfOk result (λ copy. copy ≡ queue.now) }
{
    let room = queue.len().checked_add(queue.spare()).ok_or(AllocError)?;
    let mut copied = Queue::new(alloc);
    push_copies(&mut copied, queue, room, alloc)?;
    Ok(copied)
}

// Makes room for this many writes in an empty queue, and adds copies of those of another.
fn push_copies(
    copied: &mut Queue<FlyingWrite>,
    queue: &Queue<FlyingWrite>,
    room: usize,
    alloc: Global,
) -> Result<(), AllocError>
    requires none { copied.old ≡ nothing_in_flight }
    requires room { room ≡ length queue.now.writes + queue.now.spare }
    ensures { OnOk result (copied.new ≡ queue.now) }
{
    copied.promise(room)?;
    for place in 0..queue.len() {
        let Some(write) = queue.label_at(place) else {
            unreachable!()
        };
        copied.push(write.copy_of(alloc)?);
    }
    Ok(())
}

// Makes this many buffers at least.
fn make_buffers(alloc: Global, buffers: &mut Vec<Buffer>, count: usize) -> Result<(), AllocError>
    ensures stay { vec_len buffers.old ≤ vec_len buffers.new }
    ensures ok { OnOk result (count ≤ vec_len buffers.new) }
{
    buffers.reserve(count.saturating_sub(buffers.len()))?;
    while buffers.len() < count {
        let buffer = Box::new(alloc, [0u8; MOST_WRITE_BYTES])?;
        buffers.push_reserved(buffer);
    }
    Ok(())
}

// These bytes, in place or in one of the buffers.
#[inline]
fn flying_bytes(buffers: &mut Vec<Buffer>, bytes: &[u8]) -> FlyingBytes
    requires some { 0 < vec_len buffers.old }
    requires few { length bytes.now ≤ most_write_bytes }
    ensures value { result ≡ bytes.now }
    ensures one { vec_len buffers.old ≤ vec_len buffers.new + 1 }
{
    if bytes.len() <= FEW {
        FlyingBytes::few(bytes)
    } else {
        FlyingBytes::many(take_buffer(buffers), bytes)
    }
}

// Takes out one of the buffers.
#[inline]
fn take_buffer(buffers: &mut Vec<Buffer>) -> Buffer
    requires { 0 < vec_len buffers.old }
    ensures { vec_len buffers.new + 1 ≡ vec_len buffers.old }
{
    match buffers.pop() {
        Some(buffer) => buffer,
        None => unreachable!(),
    }
}

// Keeps the buffer of bytes that arrived, if they had one, for later bytes; unless there is no room to keep it.
#[inline]
fn keep_buffer(buffers: &mut Vec<Buffer>, bytes: FlyingBytes)
    ensures { vec_len buffers.old ≤ vec_len buffers.new }
{
    if let Some(buffer) = bytes.into_buffer()
        && buffers.len() < buffers.capacity()
    {
        buffers.push_reserved(buffer);
    }
}
