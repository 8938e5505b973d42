//! Queue pairs and doorbell interrupts.

ghost use Rattle.std.specs.Prelude.{◌≡◌, ◌↔◌, ◌<◌, ◌≤◌, false, true, IfOk, IsTrue, length};
ghost use Rattle.pair_model.specs.DeclaredPlans.{IsPair};
ghost use Rattle.pair_model.specs.Plans.{side_plan as side_plan_of};
ghost use Rattle.queue_pair.specs.Gates.{after_irq, answer_of_begun as begun_answer, answer_of_look as answer_of_ring, irq_bits};
ghost use Rattle.queue_pair.specs.declared.LookAnswer.TheVariants.{Ready};
ghost use Rattle.step_kinds.specs.Limits.{most_frame_bytes};

use crate::{BeginAnswer, LookAnswer};
use bridge_pair::Pair;
use frame_ring::{Begun, Port, RingLook};
use link_state::LinkState;
use std::alloc::{AllocError, Global};
use std::marker::Model;
use step_kinds::{Frame, Label, LaneCopy, PairPlan, Side};

/// One queue pair of one side: its port, and whether the queue is closed on this side. Contracts see both. Every call
/// that takes a pair has the conditions of the port's call: the pair is one of the queue's plan, and what the port was
/// promised is there. The sides have to fit each other, as [`Port`] says, only if the queue is joined on this side.
#[derive(Drop)]
pub struct QueuePair {
    port: Port,
    closed: bool,
}

impl QueuePair {
    ghost use Rattle.frame_ring.specs.Calls.{free_answer};
    ghost use Rattle.frame_ring.specs.PortCalls.{HasAcknowledged, HasCleared, HasCopied, HasPosted, HasReset, IsDue};
    ghost use Rattle.frame_ring.specs.PortView.{FitsRings, HasPagesIn, HasRoomIn};
    ghost use Rattle.queue_pair.specs.Calls.{HasBegunOnQueue, HasBegunUnrefusedOnQueue, HasFoundOnQueue, HasGoneDownOnQueue, HasLookedOnQueue};
    ghost use Rattle.queue_pair.specs.Gates.{BeginsFrame, begin_answer, is_joined, look_answer, refuses_answer, sender_refusal};
    ghost use Rattle.queue_pair.specs.Queue.{fresh_queue, with_port};
    ghost use Rattle.queue_pair.specs.Same.{IsSameQueue};

    /// Returns the queue pair of one of a side's queues, open, with nothing sent and nothing received. The plan has to
    /// be one that a script can declare. It takes no memory yet.
    pub fn new(alloc: Global, plan: &PairPlan, side: Side, queue: u32) -> QueuePair
        requires among { queue < (side_plan_of plan.now side).queues }
        requires declared { IsPair plan.now }
        ensures { result ≡ fresh_queue plan.now side queue }
    {
        QueuePair {
            port: Port::new(alloc, plan, side, queue),
            closed: false,
        }
    }

    /// Begins a frame, of one byte at least, as [`Port::begin`] does.
    ///
    /// [`BeginAnswer::LinkDown`] comes where the link isn't up, then [`BeginAnswer::NotReady`] where the queue isn't
    /// joined on this side, then [`BeginAnswer::Closed`] where it is closed here, then the refusals of the port. A
    /// refusal changes nothing and drops the frame.
    ///
    /// # Errors
    ///
    /// [`AllocError`] as from [`Port::begin`], if the frame is not refused.
    pub fn begin(&mut self, pair: &mut Pair, frame: Frame) -> Result<BeginAnswer, AllocError>
        requires some { 0 < length frame }
        requires plan { pair.old.plan ≡ self.old.port.plan }
        requires fits { is_joined self.old pair.old ≡ true → FitsRings self.old.port.plan }
        ensures { HasBegunOnQueue self.old self.new pair.old pair.new frame result }
    {
        if let Some(refusal) = self.sender_refusal(pair) {
            return Ok(refusal);
        }
        let begun = self.port.begin(pair, frame)?;
        Ok(answer_of_begun(begun))
    }

    /// Begins a frame to which [`QueuePair::begin_answer`] answers [`BeginAnswer::Ok`], as [`QueuePair::begin`] does,
    /// and returns its number. Nothing is tested again.
    ///
    /// # Errors
    ///
    /// [`AllocError`] as from [`Port::begin_unrefused`].
    pub fn begin_unrefused(&mut self, pair: &mut Pair, frame: Frame) -> Result<u64, AllocError>
        requires some { 0 < length frame }
        requires plan { pair.old.plan ≡ self.old.port.plan }
        requires fits { is_joined self.old pair.old ≡ true → FitsRings self.old.port.plan }
        requires begins { BeginsFrame self.old pair.old (length frame) }
        ensures { HasBegunUnrefusedOnQueue self.old self.new pair.old pair.new frame result }
    {
        self.port.begin_unrefused(pair, frame)
    }

    /// Begins a link-down entry, as [`Port::down`] does, and closes the queue on this side. The refusals are those of
    /// [`QueuePair::begin`] without [`BeginAnswer::TooLong`], and change nothing.
    ///
    /// # Errors
    ///
    /// [`AllocError`] as from [`Port::down`], if the entry is not refused.
    pub fn qpdown(&mut self, pair: &mut Pair) -> Result<BeginAnswer, AllocError>
        requires plan { pair.old.plan ≡ self.old.port.plan }
        requires fits { is_joined self.old pair.old ≡ true → FitsRings self.old.port.plan }
        ensures { HasGoneDownOnQueue self.old self.new pair.old pair.new result }
    {
        if let Some(refusal) = self.sender_refusal(pair) {
            return Ok(refusal);
        }
        let begun = self.port.down(pair)?;
        if let Begun::Ok { .. } = begun {
            self.closed = true;
        }
        Ok(answer_of_begun(begun))
    }

    /// Posts the next write that is left, as [`Port::post`], whatever the link's state is and whether or not the queue
    /// is closed. It takes no memory.
    pub fn post(&mut self, pair: &mut Pair) -> Option<Label>
        requires plan { pair.old.plan ≡ self.old.port.plan }
        requires room { HasRoomIn self.old.port pair.old }
        requires pages { HasPagesIn self.old.port pair.old }
        ensures port { HasPosted self.old.port self.new.port pair.old pair.new result }
        ensures rest { self.new ≡ with_port self.old self.new.port }
    {
        self.port.post(pair)
    }

    /// Looks for the next entry, as [`Port::look`] does. [`LookAnswer::NotReady`] comes where the queue isn't joined on
    /// this side, then [`LookAnswer::Closed`] where it is closed here; where a link-down entry stands there, the queue
    /// is closed on this side. It doesn't depend on the link's state.
    ///
    /// # Errors
    ///
    /// [`AllocError`] as from [`Port::look`], if an entry was found.
    pub fn look(&mut self, pair: &mut Pair) -> Result<LookAnswer, AllocError>
        requires plan { pair.old.plan ≡ self.old.port.plan }
        requires fits { is_joined self.old pair.old ≡ true → FitsRings self.old.port.plan }
        ensures { HasLookedOnQueue self.old self.new pair.old pair.new result }
    {
        if !self.is_joined(pair) {
            return Ok(LookAnswer::NotReady);
        }
        if self.closed {
            return Ok(LookAnswer::Closed);
        }
        let look = self.port.look(pair)?;
        if let RingLook::PeerDown = look {
            self.closed = true;
        }
        Ok(answer_of_look(look))
    }

    /// Finds the next entry where [`QueuePair::look_answer`] answers [`LookAnswer::Ready`] with this length, as
    /// [`QueuePair::look`] does. Nothing is tested again.
    ///
    /// # Errors
    ///
    /// [`AllocError`] as from [`Port::find`].
    pub fn find(&mut self, pair: &mut Pair, len: u32) -> Result<(), AllocError>
        requires plan { pair.old.plan ≡ self.old.port.plan }
        requires fits { is_joined self.old pair.old ≡ true → FitsRings self.old.port.plan }
        requires found { look_answer self.old pair.old ≡ Ready self.old.port.receiving.got len }
        ensures { HasFoundOnQueue self.old self.new pair.old pair.new result }
    {
        self.port.find(pair, len)
    }

    /// Copies the next part of the entry at hand, as [`Port::copy`]. It takes no memory.
    pub fn copy(&mut self, pair: &Pair) -> LaneCopy
        requires { pair.now.plan ≡ self.old.port.plan }
        ensures port { HasCopied self.old.port self.new.port pair.now result }
        ensures rest { self.new ≡ with_port self.old self.new.port }
    {
        self.port.copy(pair)
    }

    /// Returns the frame that the next [`QueuePair::copy`] delivers, as [`Port::frame_due`].
    ///
    /// # Errors
    ///
    /// [`AllocError`] as from [`Port::frame_due`].
    pub fn frame_due(&self, alloc: Global, pair: &Pair) -> Result<Option<Frame>, AllocError>
        requires { pair.now.plan ≡ self.now.port.plan }
        ensures { IsDue self.now.port pair.now result }
    {
        self.port.frame_due(alloc, pair)
    }

    /// Zeroes the flags of the entry that was copied, as [`Port::clear`]. It takes no memory.
    pub fn clear(&mut self, pair: &mut Pair) -> Option<u64>
        requires plan { pair.old.plan ≡ self.old.port.plan }
        requires pages { HasPagesIn self.old.port pair.old }
        ensures port { HasCleared self.old.port self.new.port pair.old pair.new result }
        ensures rest { self.new ≡ with_port self.old self.new.port }
    {
        self.port.clear(pair)
    }

    /// Gives the entry that was cleared back, as [`Port::ack`]. It takes no memory.
    pub fn ack(&mut self, pair: &mut Pair) -> Option<u64>
        requires plan { pair.old.plan ≡ self.old.port.plan }
        requires room { HasRoomIn self.old.port pair.old }
        requires pages { HasPagesIn self.old.port pair.old }
        ensures port { HasAcknowledged self.old.port self.new.port pair.old pair.new result }
        ensures rest { self.new ≡ with_port self.old self.new.port }
    {
        self.port.ack(pair)
    }

    /// Returns whether two queue pairs of one queue are in the same state, so that no later call tells them apart:
    /// whether they are closed, and their ports, as [`Port::is_same`]. Both have to be of one plan, side and queue. It
    /// takes no memory.
    pub fn is_same(&self, other: &QueuePair) -> bool
        requires plan { self.now.port.plan ≡ other.now.port.plan }
        requires side { self.now.port.side ≡ other.now.port.side }
        requires queue { self.now.port.queue ≡ other.now.port.queue }
        ensures { IsTrue result ↔ IsSameQueue self.now other.now }
    {
        self.closed == other.closed && self.port.is_same(&other.port)
    }

    /// Returns a queue pair in the same state.
    ///
    /// # Errors
    ///
    /// [`AllocError`] as from [`Port::copy_of`].
    pub fn copy_of(&self, alloc: Global) -> Result<QueuePair, AllocError>
        ensures { IfOk result (λ copy. copy ≡ self.now) }
    {
        Ok(QueuePair {
            port: self.port.copy_of(alloc)?,
            closed: self.closed,
        })
    }

    /// Returns what [`QueuePair::begin`] answers for a frame of `len` bytes, at most 65,536, unless out of memory. It
    /// takes no memory.
    pub fn begin_answer(&self, pair: &Pair, len: u32) -> BeginAnswer
        requires plan { pair.now.plan ≡ self.now.port.plan }
        requires fits { is_joined self.now pair.now ≡ true → FitsRings self.now.port.plan }
        requires few { len ≤ most_frame_bytes }
        ensures { result ≡ begin_answer self.now pair.now len }
    {
        if let Some(refusal) = self.sender_refusal(pair) {
            return refusal;
        }
        answer_of_begun(self.port.begin_answer(pair, len))
    }

    /// Returns what [`QueuePair::look`] answers, unless out of memory. It takes no memory.
    pub fn look_answer(&self, pair: &Pair) -> LookAnswer
        requires plan { pair.now.plan ≡ self.now.port.plan }
        requires fits { is_joined self.now pair.now ≡ true → FitsRings self.now.port.plan }
        ensures { result ≡ look_answer self.now pair.now }
    {
        if !self.is_joined(pair) {
            LookAnswer::NotReady
        } else if self.closed {
            LookAnswer::Closed
        } else {
            answer_of_look(self.port.look_answer(pair))
        }
    }

    /// Returns whether [`QueuePair::begin`] would be refused for a frame of `len` bytes, 1 to 65,536, whatever room the
    /// ring has: with `LinkDown`, `NotReady`, `Closed`, `TooLong` or `Busy`. It takes no memory.
    pub fn refuses(&self, pair: &Pair, len: u32) -> bool
        requires some { 0 < len }
        requires most { len ≤ most_frame_bytes }
        requires plan { pair.now.plan ≡ self.now.port.plan }
        ensures { result ≡ refuses_answer self.now pair.now len }
    {
        self.sender_refusal(pair).is_some() || self.port.refuses(len)
    }

    /// Returns the free entries of the ring that the side sends to on the queue, as [`Port::free`]. It takes no memory.
    pub fn free(&self, pair: &Pair) -> u32
        requires { pair.now.plan ≡ self.now.port.plan }
        ensures { result ≡ free_answer self.now.port pair.now }
    {
        self.port.free(pair)
    }

    /// Opens the queue and forgets all that was sent and received, as its side does at a clean, and gives back the
    /// promises of room that weren't used. It takes no memory.
    pub fn reset(&mut self, pair: &mut Pair)
        requires plan { pair.old.plan ≡ self.old.port.plan }
        requires room { HasRoomIn self.old.port pair.old }
        ensures port { HasReset self.old.port self.new.port pair.old pair.new }
        ensures opened { self.new.closed ≡ false }
    {
        self.port.reset(pair);
        self.closed = false;
    }

    // Returns whether the queue is joined on this side.
    fn is_joined(&self, pair: &Pair) -> bool
        ensures { result ≡ is_joined self.now pair.now }
    {
        (pair.book(self.port.side()).joined >> self.port.queue()) % 2 == 1
    }

    // Why the side may not begin anything on the queue.
    fn sender_refusal(&self, pair: &Pair) -> Option<BeginAnswer>
        ensures { result ≡ sender_refusal self.now pair.now }
    {
        if pair.link().state() != LinkState::Up {
            Some(BeginAnswer::LinkDown)
        } else if !self.is_joined(pair) {
            Some(BeginAnswer::NotReady)
        } else if self.closed {
            Some(BeginAnswer::Closed)
        } else {
            None
        }
    }
}

impl Model for QueuePair {
    ghost use Rattle.queue_pair.specs.Queue.{QueueState};

    ghost Value = { QueueState };

    ghost view = { λ queue. record { port = queue.port; closed = queue.closed } };
}

// Returns what the port's beginning is for the queue.
fn answer_of_begun(begun: Begun) -> BeginAnswer
    ensures { result ≡ begun_answer begun }
{
    match begun {
        Begun::Ok { number } => BeginAnswer::Ok { number },
        Begun::TooLong { len, max } => BeginAnswer::TooLong { len, max },
        Begun::Busy => BeginAnswer::Busy,
        Begun::NoRoom { head, tail } => BeginAnswer::NoRoom { head, tail },
    }
}

// Returns what the port's look is for the queue.
fn answer_of_look(look: RingLook) -> LookAnswer
    ensures { result ≡ answer_of_ring look }
{
    match look {
        RingLook::OutOfTurn => LookAnswer::OutOfTurn,
        RingLook::Ready { number, len } => LookAnswer::Ready { number, len },
        RingLook::Empty => LookAnswer::Empty,
        RingLook::PeerDown => LookAnswer::PeerDown,
        RingLook::VerDiffers { seen, own } => LookAnswer::VerDiffers { seen, own },
        RingLook::Long { len, max } => LookAnswer::Long { len, max },
    }
}

/// A side takes its pending doorbell bits that aren't masked (`ntb_db_read`, `ntb_db_clear`): they are answered and no
/// longer pending. It takes no memory.
pub fn irq(pair: &mut Pair, side: Side) -> u32
    ensures bits { result ≡ irq_bits pair.old side }
    ensures after { pair.new ≡ after_irq pair.old side }
{
    pair.bells(side).take()
}
