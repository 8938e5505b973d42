//! One queue of one side.

ghost use Rattle.std.specs.Prelude.{◌≡◌, ◌↔◌, ◌+◌, ◌<◌, ◌≤◌, IfOk, IsTrue, OnErr, OnOk, false, length, true};
ghost use Rattle.pair_model.specs.Addresses.{own_header};
ghost use Rattle.pair_model.specs.Headers.{flags_offset};
ghost use Rattle.pair_model.specs.RingWrites.{index_write};
ghost use Rattle.host_memory.specs.Memory.{Touches};
ghost use Rattle.lane_model.specs.Tests.{is_idle};
ghost use Rattle.lane_model.specs.declared.Phase.TheVariants.{Copying};
ghost use Rattle.pair_model.specs.DeclaredPlans.{IsPair, SizesFit};
ghost use Rattle.pair_model.specs.Plans.{side_plan as side_plan_of};
ghost use Rattle.pair_model.specs.Sizes.{layout_to};
ghost use Rattle.ring_geometry.specs.Geometry.{max_payload_of};
ghost use Rattle.step_kinds.specs.Limits.{most_frame_bytes};
ghost use Rattle.frame_ring.specs.declared.RingLook.TheVariants.{Ready};

use crate::RingLook;
use crate::posting::{clear_flags, post_index, post_write};
use crate::promises::count_writes;
use crate::reading::{followers, free_by, has_index_word, header, index_word, slot_at, tail};
use crate::receiving::Receiver;
use crate::rings::{QueueRings, slot_in};
use crate::sending::{Sender, has_numbers};
use bridge_pair::Pair;
use lane_model::Phase;
use plan_numbers::pieces_in;
use std::alloc::{AllocError, Global};
use std::marker::Model;
use step_kinds::{Begun, Frame, Label, LaneCopy, PairPlan, Side};

/// One queue of one side of a pair: the ring that it sends to in the peer's memory, and the ring that it receives in in
/// its own. It knows how far it is with both, and contracts see that as a record.
///
/// Every call that takes a pair has to be given one of the port's plan. What a begin, a going down or a look promised,
/// and the port hasn't used yet, has to be there when it is used. That is room for its writes among those that the side
/// has promised, and the pages that they write to. Other calls on the pair leave both, if they use and give back only
/// what they promised themselves.
///
/// To begin, to look or find, and to ask what these answer, each side's `size` has to be at most the peer's `cap`.
/// Unless the pair is raw, both sides also need as many queues and as many windows.
#[derive(Drop)]
pub struct Port {
    rings: QueueRings,
    sender: Sender,
    receiver: Receiver,
}

impl Port {
    ghost use Rattle.frame_ring.specs.Calls.{PortBeginsFrame, down_begun, port_frame_begun, room_answer, port_begin_answer, port_down_answer, free_answer, port_look_answer, port_refuses_answer};
    ghost use Rattle.frame_ring.specs.Port.{fresh_port, is_port_busy, unused_of, with_receiving, writes_left};
    ghost use Rattle.frame_ring.specs.PortCalls.{HasAcknowledged, HasBegun, HasBegunUnrefused, HasCleared, HasCopied, HasFound, HasGoneDown, HasLooked, HasPosted, HasPromised, HasPromisedBoth, HasReset, IsDue};
    ghost use Rattle.frame_ring.specs.PortView.{FitsRings, HasPagesIn, HasRoomIn, TouchesLeft, TouchesWrite};
    ghost use Rattle.frame_ring.specs.Same.{IsSamePort};

    /// Returns the port of one of a side's queues, with nothing sent and nothing received. The plan has to be one that
    /// a script can declare, and the port has a copy of it. It takes no memory yet.
    pub fn new(alloc: Global, plan: &PairPlan, side: Side, queue: u32) -> Port
        requires declared { IsPair plan.now }
        requires among { queue < (side_plan_of plan.now side).queues }
        ensures { result ≡ fresh_port plan.now side queue }
    {
        let rings = QueueRings::new(plan, side, queue);
        let largest = rings.out().max_payload();
        Port {
            rings,
            sender: Sender::new(queue, largest),
            receiver: Receiver::new(alloc),
        }
    }

    /// Starts sending a frame of at least one byte: one ring entry, or on version 5 as many as it needs. Room for all
    /// its writes is promised, and the pages that they write to.
    ///
    /// It is refused for one of three reasons, tested in this order. A refusal changes nothing and drops the frame.
    ///
    /// - [`Begun::TooLong`] comes where the frame is longer than any may be.
    /// - [`Begun::Busy`] comes where writes of the frame or link-down entry begun before are left to post.
    /// - [`Begun::NoRoom`] comes where the ring has fewer entries free than the frame takes, by the index word in the
    ///   side's memory. An index word that names no slot of the ring counts as no room.
    ///
    /// # Errors
    ///
    /// [`AllocError`] from out of memory, or where the session would have more than 2^62 entries. It comes only if the
    /// frame was to be begun and is not refused. The port is as it was, and of the pair nothing but pages that this
    /// frame needs may have become promised.
    pub fn begin(&mut self, pair: &mut Pair, frame: Frame) -> Result<Begun, AllocError>
        requires some { 0 < length frame }
        requires plan { pair.old.plan ≡ self.old.plan }
        requires fits { FitsRings self.old.plan }
        ensures { HasBegun self.old self.new pair.old pair.new frame result }
    {
        match self.begin_answer(pair, frame.len()) {
            Begun::Ok { .. } => {
                let number = self.begin_unrefused(pair, frame)?;
                Ok(Begun::Ok { number })
            }
            refusal => Ok(refusal),
        }
    }

    /// Begins a frame to which [`Port::begin_answer`] answers [`Begun::Ok`], as [`Port::begin`] does, and returns its
    /// number. Nothing is tested again.
    ///
    /// # Errors
    ///
    /// [`AllocError`] from out of memory, or where the session would have more than 2^62 entries. The port is as it
    /// was, and of the pair nothing but pages that this frame needs may have become promised.
    pub fn begin_unrefused(&mut self, pair: &mut Pair, frame: Frame) -> Result<u64, AllocError>
        requires some { 0 < length frame }
        requires plan { pair.old.plan ≡ self.old.plan }
        requires fits { FitsRings self.old.plan }
        requires begins { PortBeginsFrame self.old pair.old (length frame) }
        ensures { HasBegunUnrefused self.old self.new pair.old pair.new frame result }
    {
        let number = self.sender.told();
        self.begin_frame(pair, frame)?;
        Ok(number)
    }

    /// Begins a link-down entry, which tells the peer that this end of the queue goes down. [`Begun::Busy`] and
    /// [`Begun::NoRoom`] come as from [`Port::begin`], and change nothing.
    ///
    /// # Errors
    ///
    /// [`AllocError`] from out of memory, or where the session would have more than 2^62 entries. It comes only if the
    /// entry was to be begun and is not refused. The port is as it was, and of the pair nothing but pages that this
    /// entry needs may have become promised.
    pub fn down(&mut self, pair: &mut Pair) -> Result<Begun, AllocError>
        requires plan { pair.old.plan ≡ self.old.plan }
        requires fits { FitsRings self.old.plan }
        ensures { HasGoneDown self.old self.new pair.old pair.new result }
    {
        match self.down_answer(pair) {
            Begun::Ok { number } => {
                self.begin_down(pair)?;
                Ok(Begun::Ok { number })
            }
            refusal => Ok(refusal),
        }
    }

    /// Posts the next write that is left, and returns its label; `None` if and only if none is left. If the link isn't
    /// up the write is lost, and so is one through a window that the peer lacks, which only a raw pair can have. It
    /// takes no memory.
    pub fn post(&mut self, pair: &mut Pair) -> Option<Label>
        requires plan { pair.old.plan ≡ self.old.plan }
        requires room { HasRoomIn self.old pair.old }
        requires pages { HasPagesIn self.old pair.old }
        ensures { HasPosted self.old self.new pair.old pair.new result }
    {
        self.sender.advance();
        let label = self.sender.label();
        match label {
            Some(label) => post_write(&self.rings, &self.sender, pair, label),
            None => {}
        }
        self.sender.posted();
        label
    }

    /// Looks for the next entry, by the header of its slot in the side's memory. Where it is [`RingLook::Ready`], room
    /// for its bytes and for the index write that gives it back is promised, and the pages of that write and of its
    /// flags.
    ///
    /// [`RingLook::OutOfTurn`] comes where another entry is at hand, then [`RingLook::Empty`], [`RingLook::PeerDown`],
    /// [`RingLook::VerDiffers`] and [`RingLook::Long`] by the header, in this order. All these change nothing.
    ///
    /// # Errors
    ///
    /// [`AllocError`] from out of memory, or where the session has 2^62 entries before this one. It comes only if an
    /// entry was found. The port is as it was, and of the pair nothing but pages that this entry needs may have become
    /// promised.
    pub fn look(&mut self, pair: &mut Pair) -> Result<RingLook, AllocError>
        requires plan { pair.old.plan ≡ self.old.plan }
        requires fits { FitsRings self.old.plan }
        ensures { HasLooked self.old self.new pair.old pair.new result }
    {
        let Phase::Idle = self.receiver.phase() else {
            return Ok(RingLook::OutOfTurn);
        };
        let header = header(&self.rings, pair, self.receiver.got());
        match self.receiver.sight(&self.rings, &header) {
            RingLook::Ready { number, len } => {
                self.stand_at(pair, len, header.left)?;
                Ok(RingLook::Ready { number, len })
            }
            other => Ok(other),
        }
    }

    /// Finds the next entry where [`Port::look_answer`] answers [`RingLook::Ready`] with this length, as [`Port::look`]
    /// does. Nothing is tested again.
    ///
    /// # Errors
    ///
    /// [`AllocError`] from out of memory, or where the session has 2^62 entries before this one. The port is as it was,
    /// and of the pair nothing but pages that this entry needs may have become promised.
    pub fn find(&mut self, pair: &mut Pair, len: u32) -> Result<(), AllocError>
        requires plan { pair.old.plan ≡ self.old.plan }
        requires fits { FitsRings self.old.plan }
        requires found { port_look_answer self.old pair.old ≡ Ready self.old.receiving.got len }
        ensures { HasFound self.old self.new pair.old pair.new result }
    {
        let left = followers(&self.rings, pair, self.receiver.got());
        self.rings.received_frames_are_short();
        self.stand_at(pair, len, left)
    }

    /// Copies the next part of the entry at hand, as it is in the side's memory: 128 bytes, or the rest. With the last
    /// part of a frame's last entry the whole frame is delivered; an entry without bytes takes one copy. It takes no
    /// memory.
    ///
    /// [`LaneCopy::OutOfTurn`] is returned if and only if no entry is being copied, and changes nothing.
    pub fn copy(&mut self, pair: &Pair) -> LaneCopy
        requires { pair.now.plan ≡ self.old.plan }
        ensures { HasCopied self.old self.new pair.now result }
    {
        let Phase::Copying = self.receiver.phase() else {
            return LaneCopy::OutOfTurn;
        };
        pair.law();
        let side = self.rings.side();
        let at = slot_at(&self.rings, self.receiver.got()) + self.receiver.part_offset();
        self.receiver.copy(pair, side, at)
    }

    /// Returns the frame that the next [`Port::copy`] delivers, if it delivers one: a frame of its own, which leaves
    /// the port as it is.
    ///
    /// # Errors
    ///
    /// [`AllocError`] if memory runs out, and only if there is such a frame.
    pub fn frame_due(&self, alloc: Global, pair: &Pair) -> Result<Option<Frame>, AllocError>
        requires { pair.now.plan ≡ self.now.plan }
        ensures { IsDue self.now pair.now result }
    {
        let Phase::Copying = self.receiver.phase() else {
            return Ok(None);
        };
        pair.law();
        let side = self.rings.side();
        let at = slot_at(&self.rings, self.receiver.got()) + self.receiver.part_offset();
        self.receiver.frame_due(alloc, pair, side, at)
    }

    /// Zeroes the flags of the entry that was copied, in the side's own memory, and returns its number; `None` if and
    /// only if none was. It takes no memory.
    pub fn clear(&mut self, pair: &mut Pair) -> Option<u64>
        requires plan { pair.old.plan ≡ self.old.plan }
        requires pages { HasPagesIn self.old pair.old }
        ensures { HasCleared self.old self.new pair.old pair.new result }
    {
        let Phase::Copied = self.receiver.phase() else {
            return None;
        };
        let number = self.receiver.last_got();
        clear_flags(&self.rings, pair, number);
        self.receiver.cleared();
        Some(number)
    }

    /// Gives the entry that was cleared back: posts the index write that names its slot, and returns its number; `None`
    /// if and only if none was cleared. It takes no memory.
    pub fn ack(&mut self, pair: &mut Pair) -> Option<u64>
        requires plan { pair.old.plan ≡ self.old.plan }
        requires room { HasRoomIn self.old pair.old }
        requires pages { HasPagesIn self.old pair.old }
        ensures { HasAcknowledged self.old self.new pair.old pair.new result }
    {
        let Phase::Cleared = self.receiver.phase() else {
            return None;
        };
        let number = self.receiver.last_got();
        post_index(&self.rings, pair, number);
        self.receiver.given_back();
        Some(number)
    }

    /// Returns the side whose queue this is.
    pub fn side(&self) -> Side
        ensures { result ≡ self.now.side }
    {
        self.rings.side()
    }

    /// Returns the queue's number, from 0, which is one of the side's.
    pub fn queue(&self) -> u32
        ensures value { result ≡ self.now.queue }
        ensures few { result < 16 }
    {
        self.rings.queue()
    }

    /// Returns whether two ports of one queue are in the same state, so that no later call tells them apart. Compared
    /// are the counts, all that is left to post with the entries that it is of, and where the receiver stands with the
    /// bytes copied so far. Of a frame that was posted whole nothing is compared. Both have to be of one plan, side and
    /// queue. It takes no memory.
    pub fn is_same(&self, other: &Port) -> bool
        requires plan { self.now.plan ≡ other.now.plan }
        requires side { self.now.side ≡ other.now.side }
        requires queue { self.now.queue ≡ other.now.queue }
        ensures { IsTrue result ↔ IsSamePort self.now other.now }
    {
        self.sender.is_same(&other.sender) && self.receiver.is_same(&other.receiver)
    }

    /// Returns a port in the same state.
    ///
    /// # Errors
    ///
    /// [`AllocError`] if memory runs out.
    pub fn copy_of(&self, alloc: Global) -> Result<Port, AllocError>
        ensures { IfOk result (λ copy. copy ≡ self.now) }
    {
        Ok(Port {
            rings: self.rings.copy_of(),
            sender: self.sender.copy_of(alloc)?,
            receiver: self.receiver.copy_of(alloc)?,
        })
    }

    /// Returns what [`Port::begin`] answers for a frame of `len` bytes, at most 65,536, unless out of memory. It takes
    /// no memory.
    pub fn begin_answer(&self, pair: &Pair, len: u32) -> Begun
        requires plan { pair.now.plan ≡ self.now.plan }
        requires fits { FitsRings self.now.plan }
        requires few { len ≤ most_frame_bytes }
        ensures { result ≡ port_begin_answer self.now pair.now len }
    {
        let max = self.rings.most_sent();
        if max < len {
            return Begun::TooLong { len, max };
        }
        if self.sender.is_busy() {
            return Begun::Busy;
        }
        let largest = self.rings.out().max_payload();
        self.room_answer(pair, pieces_in(largest, len))
    }

    /// Returns what [`Port::look`] answers, unless out of memory. It takes no memory.
    pub fn look_answer(&self, pair: &Pair) -> RingLook
        requires plan { pair.now.plan ≡ self.now.plan }
        requires fits { FitsRings self.now.plan }
        ensures { result ≡ port_look_answer self.now pair.now }
    {
        let Phase::Idle = self.receiver.phase() else {
            return RingLook::OutOfTurn;
        };
        let words = header(&self.rings, pair, self.receiver.got());
        self.receiver.sight(&self.rings, &words)
    }

    /// Returns whether [`Port::begin`] would answer [`Begun::TooLong`] or [`Begun::Busy`] for a frame of `len` bytes, 1
    /// to 65,536, whatever room there is. It takes no memory.
    pub fn refuses(&self, len: u32) -> bool
        requires some { 0 < len }
        requires most { len ≤ most_frame_bytes }
        ensures { result ≡ port_refuses_answer self.now len }
    {
        self.rings.most_sent() < len || self.sender.is_busy()
    }

    /// Returns the free entries of the ring that the port sends to, by the index word in the side's memory. There are 0
    /// where that word names no slot of the ring, and where it doesn't lie wholly in the memory. It takes no memory.
    pub fn free(&self, pair: &Pair) -> u32
        requires { pair.now.plan ≡ self.now.plan }
        ensures { result ≡ free_answer self.now pair.now }
    {
        if !has_index_word(&self.rings) {
            return 0;
        }
        let head = slot_in(self.rings.out(), self.sender.begun());
        free_by(&self.rings, head, index_word(&self.rings, pair))
    }

    /// Forgets all that was sent and received, as a side does between two sessions, and gives back the promises of room
    /// that weren't used. It takes no memory.
    pub fn reset(&mut self, pair: &mut Pair)
        requires plan { pair.old.plan ≡ self.old.plan }
        requires room { HasRoomIn self.old pair.old }
        ensures { HasReset self.old self.new pair.old pair.new }
    {
        let unused = self.unused();
        pair.give_back(self.rings.side(), unused);
        let largest = self.rings.out().max_payload();
        self.sender = Sender::new(self.rings.queue(), largest);
        self.receiver.reset();
    }

    // Returns how many promises of room are unused.
    fn unused(&self) -> usize
        ensures { result ≡ unused_of self.now }
    {
        let found = match self.receiver.phase() {
            Phase::Idle => 0,
            _ => 1,
        };
        self.sender.left() + found
    }

    // Returns what a going down answers, unless out of memory.
    fn down_answer(&self, pair: &Pair) -> Begun
        requires plan { pair.now.plan ≡ self.now.plan }
        requires fit { SizesFit self.now.plan }
        ensures { result ≡ port_down_answer self.now pair.now }
    {
        if self.sender.is_busy() {
            return Begun::Busy;
        }
        self.room_answer(pair, 1)
    }

    // Returns what is answered where this many entries are wanted.
    fn room_answer(&self, pair: &Pair, needed: u32) -> Begun
        requires plan { pair.now.plan ≡ self.now.plan }
        requires fit { SizesFit self.now.plan }
        ensures { result ≡ room_answer self.now pair.now needed }
    {
        let head = slot_in(self.rings.out(), self.sender.begun());
        let tail = tail(&self.rings, pair);
        if free_by(&self.rings, head, tail) < needed {
            Begun::NoRoom { head, tail }
        } else {
            Begun::Ok {
                number: self.sender.told(),
            }
        }
    }

    // Promises what a frame needs, and begins it.
    fn begin_frame(&mut self, pair: &mut Pair, frame: Frame) -> Result<(), AllocError>
        requires plan { pair.old.plan ≡ self.old.plan }
        requires fit { SizesFit self.old.plan }
        requires idle { is_port_busy self.old.sending ≡ false }
        ensures after { OnOk result (self.new ≡ port_frame_begun self.old frame) }
        ensures err { OnErr result (self.new ≡ self.old) }
        ensures promises { HasPromised (TouchesLeft self.old.plan self.old.side (writes_left (port_frame_begun self.old frame))) self.old self.new pair.old pair.new result }
    {
        let largest = self.rings.out().max_payload();
        let from = self.sender.begun();
        let pieces = pieces_in(largest, frame.len());
        if !has_numbers(from, pieces, self.sender.told()) {
            return Err(AllocError);
        }
        let count = count_writes(&frame, largest);
        self.rings.promise_frame(pair, from, &frame)?;
        pair.promise(self.rings.side(), count)?;
        self.sender.begin(frame, count);
        Ok(())
    }

    // Promises what a link-down entry needs, and begins it.
    fn begin_down(&mut self, pair: &mut Pair) -> Result<(), AllocError>
        requires plan { pair.old.plan ≡ self.old.plan }
        requires fit { SizesFit self.old.plan }
        requires idle { is_port_busy self.old.sending ≡ false }
        ensures after { OnOk result (self.new ≡ down_begun self.old) }
        ensures err { OnErr result (self.new ≡ self.old) }
        ensures promises { HasPromised (TouchesLeft self.old.plan self.old.side (writes_left (down_begun self.old))) self.old self.new pair.old pair.new result }
    {
        let from = self.sender.begun();
        if !has_numbers(from, 1, 0) {
            return Err(AllocError);
        }
        self.rings.promise_entry(pair, from, 0)?;
        pair.promise(self.rings.side(), 4)?;
        self.sender.down();
        Ok(())
    }

    // Promises what an entry of `len` bytes needs to be taken and given back, and stands at it.
    fn stand_at(&mut self, pair: &mut Pair, len: u32, left: u32) -> Result<(), AllocError>
        requires plan { pair.old.plan ≡ self.old.plan }
        requires fit { SizesFit self.old.plan }
        requires idle { is_idle self.old.receiving.phase ≡ true }
        requires short { len ≤ max_payload_of (layout_to self.old.plan self.old.side self.old.queue) }
        requires fits { length self.old.receiving.gathered + len ≤ most_frame_bytes }
        ensures after { OnOk result (self.new ≡ with_receiving self.old (record self.old.receiving { phase = Copying; part = 0; len = len; left = left })) }
        ensures err { OnErr result (self.new ≡ self.old) }
        ensures promises { HasPromisedBoth (TouchesWrite self.old.plan self.old.side (index_write self.old.plan self.old.side self.old.queue self.old.receiving.got)) (Touches (own_header self.old.plan self.old.side self.old.queue self.old.receiving.got + flags_offset self.old.plan) 4) self.old self.new pair.old pair.new result }
    {
        let got = self.receiver.got();
        if !has_numbers(got, 1, 0) {
            return Err(AllocError);
        }
        self.rings.promise_index_word(pair)?;
        self.rings.promise_flags(pair, got)?;
        self.receiver.find(pair, self.rings.side(), len, left)
    }
}

impl Model for Port {
    ghost use Rattle.frame_ring.specs.Port.{PortState};
    ghost use Rattle.frame_ring.specs.Ports.{IsPort, port_seen};

    ghost Value = { PortState };

    ghost view = { port_seen };

    ghost invariant = { IsPort };
}
