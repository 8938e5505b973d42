//! One queue of one side, with what is counted of it.

ghost use Rattle.std.specs.Prelude.{IfOk, IsTrue, OnErr, OnOk, length, true, ◌<◌, ◌↔◌, ◌≡◌, ◌≤◌};
ghost use Rattle.fabric_core.specs.Numbers.{HasRoomToSend};
ghost use Rattle.fabric_core.specs.Parts.{CanTurnQueue, fresh_part};
ghost use Rattle.fabric_core.specs.QueueCalls.{CanBegin, CanPost, HasTurned, HasTurnedUnlessWanting, IsBegun, IsBegunOrUncounted, IsFound, counted_begun, refused_once};
ghost use Rattle.fabric_core.specs.Same.{AreOfOnePlace, IsSamePart};
ghost use Rattle.fabric_core.specs.StepCalls.{HasMadeOnQueue};
ghost use Rattle.pair_model.specs.Ethernet.{ethernet_frame};
ghost use Rattle.fabric_rule.specs.Parts.{count_in};
ghost use Rattle.frame_ring.specs.Calls.{free_answer, reset_by};
ghost use Rattle.frame_ring.specs.PortCalls.{IsDue};
ghost use Rattle.frame_ring.specs.PortView.{FitsRings, HasPagesIn, HasRoomIn};
ghost use Rattle.pair_model.specs.DeclaredPlans.{IsPair, IsPayload};
ghost use Rattle.pair_model.specs.Plans.{side_plan as side_plan_of};
ghost use Rattle.queue_pair.specs.Gates.{is_joined, look_answer as queue_look_answer};
ghost use Rattle.queue_pair.specs.declared.LookAnswer.TheVariants.{Ready as QueueReady};
ghost use Rattle.step_kinds.specs.Limits.{most_count, most_frame_bytes};
ghost use Rattle.fabric_rule.specs.Turns.{ack_turn, begin_turn, clear_turn, copy_turn, device_frame_answer, frame_turn, look_turn, post_turn, qpdown_turn, wake_turn};
ghost use Rattle.fabric_rule.specs.Moves.{forgotten_queue};

use crate::answers::{
    ack_answer, begin_answer, clear_answer, copy_answer, look_answer, post_answer, xbegin_answer,
};
use crate::counting::{accepted, can_deliver, can_refuse, can_send, delivered, no_counts, refused};
use crate::counts::SessionCounts;
use bridge_pair::Pair;
use net_dev::{Flow, HEADER_BYTES, Header, encode};
use queue_pair::{BeginAnswer, LookAnswer, QueuePair};
use std::alloc::{AllocError, Global};
use std::marker::Model;
use step_kinds::{Answer, Counters, DevPlan, Frame, LaneCopy, PairPlan, QueueStep, Side};

/// One queue of one side: its queue pair, the flow of the device on it, and what is counted. Contracts see them as a
/// record.
#[derive(Drop)]
pub struct QueueBox {
    queue: QueuePair,
    flow: Flow,
    counters: Counters,
    accepted: SessionCounts,
    delivered: SessionCounts,
}

impl QueueBox {
    /// Returns a queue before any step, with the limits of the device on it. It takes no memory yet.
    pub fn new(
        alloc: Global,
        plan: &PairPlan,
        side: Side,
        queue: u32,
        stop: u32,
        start: u32,
    ) -> QueueBox
        requires declared { IsPair plan.now }
        requires among { queue < (side_plan_of plan.now side).queues }
        ensures { result ≡ fresh_part plan.now side queue stop start }
    {
        QueueBox {
            queue: QueuePair::new(alloc, plan, side, queue),
            flow: Flow::new(stop, start),
            counters: no_counts(),
            accepted: SessionCounts::new(alloc),
            delivered: SessionCounts::new(alloc),
        }
    }

    /// Makes a step on the queue and returns its answer.
    ///
    /// # Errors
    ///
    /// [`AllocError`] from out of memory, or where a count would pass 2^62. Further pages of the pair may then be
    /// promised, and nothing else changes.
    #[inline(always)]
    pub fn make(
        &mut self,
        pair: &mut Pair,
        alloc: Global,
        devs: &[DevPlan],
        step: QueueStep,
    ) -> Result<Answer, AllocError>
        requires plan { pair.old.plan ≡ self.old.queue.port.plan }
        requires fits { is_joined self.old.queue pair.old ≡ true → FitsRings self.old.queue.port.plan }
        requires room { HasRoomIn self.old.queue.port pair.old }
        requires pages { HasPagesIn self.old.queue.port pair.old }
        requires step { CanTurnQueue devs.now step }
        ensures { HasMadeOnQueue devs.now step.entry self.old self.new pair.old pair.new result }
    {
        match step {
            QueueStep::Begin { frame } => self.begin(pair, alloc, frame),
            QueueStep::QpDown => self.qpdown(pair),
            QueueStep::Xbegin {
                dev,
                dst,
                kind,
                payload,
            } => {
                let src = devs[dev as usize].address;
                let header = Header {
                    dst: *dst,
                    src,
                    kind,
                };
                self.xbegin(pair, alloc, header, payload)
            }
            QueueStep::Post => Ok(self.post(pair)),
            QueueStep::Look => self.look(pair),
            QueueStep::Copy => Ok(self.copy(pair)),
            QueueStep::Clear => Ok(self.clear(pair)),
            QueueStep::Ack => Ok(self.ack(pair)),
            QueueStep::Wake { .. } => Ok(self.wake(pair)),
        }
    }

    // Begins a frame, if it isn't refused.
    fn begin(&mut self, pair: &mut Pair, alloc: Global, frame: &Frame) -> Result<Answer, AllocError>
        requires some { 0 < length frame.now }
        requires ready { CanBegin self.old.queue pair.old }
        ensures { HasTurnedUnlessWanting IsBegun (begin_turn self.old pair.old frame.now) result self.old self.new pair.old pair.new }
    {
        let begun = self.queue.begin_answer(pair, frame.len());
        if let BeginAnswer::Ok { .. } = begun {
            let frame = frame.copy_of(alloc)?;
            return self.begin_frame(pair, frame);
        }
        Ok(begin_answer(begun))
    }

    // Begins a frame that isn't refused, and counts it.
    fn begin_frame(&mut self, pair: &mut Pair, frame: Frame) -> Result<Answer, AllocError>
        requires some { 0 < length frame }
        requires ready { CanBegin self.old.queue pair.old }
        requires begins { IsBegun (begin_turn self.old pair.old frame).answer }
        ensures { HasTurnedUnlessWanting IsBegun (begin_turn self.old pair.old frame) result self.old self.new pair.old pair.new }
    {
        self.accepted.make_room()?;
        let number = self.queue.begin_unrefused(pair, frame)?;
        self.accepted.one_more(pair.link().session());
        Ok(Answer::OkNumber { number })
    }

    // Begins a device's frame, if it isn't refused, or counts the refusal.
    fn xbegin(
        &mut self,
        pair: &mut Pair,
        alloc: Global,
        header: Header,
        payload: &Frame,
    ) -> Result<Answer, AllocError>
        requires payload { IsPayload header.dst header.kind payload.now }
        requires address { length header.src ≡ 6 }
        requires ready { CanBegin self.old.queue pair.old }
        ensures { HasTurnedUnlessWanting (IsBegunOrUncounted self.old.counters) (frame_turn self.old pair.old (ethernet_frame header.dst header.src header.kind payload.now)) result self.old self.new pair.old pair.new }
    {
        let answer = self.frame_answer(pair, HEADER_BYTES + payload.len());
        if let Answer::OkNumber { .. } = answer {
            return self.begin_encoded(pair, alloc, header, payload);
        }
        self.refuse(answer)
    }

    // Returns what a device's frame of this many bytes is answered. It takes no memory.
    fn frame_answer(&self, pair: &Pair, len: u32) -> Answer
        requires ready { CanBegin self.now.queue pair.now }
        requires few { len ≤ most_frame_bytes }
        ensures { result ≡ device_frame_answer self.now pair.now len }
    {
        xbegin_answer(self.flow.stopped(), self.queue.begin_answer(pair, len))
    }

    // Begins a device's frame that isn't refused, once it has its header before its payload.
    fn begin_encoded(
        &mut self,
        pair: &mut Pair,
        alloc: Global,
        header: Header,
        payload: &Frame,
    ) -> Result<Answer, AllocError>
        requires payload { IsPayload header.dst header.kind payload.now }
        requires ready { CanBegin self.old.queue pair.old }
        requires begins { IsBegun (frame_turn self.old pair.old (ethernet_frame header.dst header.src header.kind payload.now)).answer }
        ensures { HasTurnedUnlessWanting IsBegun (frame_turn self.old pair.old (ethernet_frame header.dst header.src header.kind payload.now)) result self.old self.new pair.old pair.new }
    {
        let frame = encode(alloc, header.dst, header.src, header.kind, payload.bytes())?;
        self.begin_counted(pair, frame)
    }

    // Counts a refusal of the device.
    fn refuse(&mut self, answer: Answer) -> Result<Answer, AllocError>
        ensures answer { IfOk result (λ given. given ≡ answer) }
        ensures after { OnOk result (self.new ≡ refused_once self.old) }
        ensures err { OnErr result (self.new ≡ self.old) }
        ensures wants { OnErr result (most_count ≤ self.old.counters.refused) }
    {
        if !can_refuse(self.counters) {
            return Err(AllocError);
        }
        self.counters = refused(self.counters);
        Ok(answer)
    }

    // Begins a device's frame that isn't refused, counts it, and stops the device where it leaves too few entries free.
    fn begin_counted(&mut self, pair: &mut Pair, frame: Frame) -> Result<Answer, AllocError>
        requires some { 0 < length frame }
        requires ready { CanBegin self.old.queue pair.old }
        requires begins { IsBegun (frame_turn self.old pair.old frame).answer }
        ensures { HasTurnedUnlessWanting IsBegun (frame_turn self.old pair.old frame) result self.old self.new pair.old pair.new }
    {
        if !can_send(self.counters) {
            return Err(AllocError);
        }
        let len = frame.len();
        let answer = self.begin_frame(pair, frame)?;
        self.count_begun(pair, len);
        Ok(answer)
    }

    // Posts the next write.
    fn post(&mut self, pair: &mut Pair) -> Answer
        requires { CanPost self.old.queue.port pair.old }
        ensures { HasTurned (post_turn self.old pair.old) result self.old self.new pair.old pair.new }
    {
        post_answer(self.queue.post(pair))
    }

    // Begins a link-down entry.
    fn qpdown(&mut self, pair: &mut Pair) -> Result<Answer, AllocError>
        requires { CanBegin self.old.queue pair.old }
        ensures { HasTurnedUnlessWanting IsBegun (qpdown_turn self.old pair.old) result self.old self.new pair.old pair.new }
    {
        let begun = self.queue.qpdown(pair)?;
        Ok(begin_answer(begun))
    }

    // Looks for the next entry.
    fn look(&mut self, pair: &mut Pair) -> Result<Answer, AllocError>
        requires { CanBegin self.old.queue pair.old }
        ensures { HasTurnedUnlessWanting IsFound (look_turn self.old pair.old) result self.old self.new pair.old pair.new }
    {
        if let LookAnswer::Ready { number, len } = self.queue.look_answer(pair) {
            return self.find(pair, number, len);
        }
        let look = self.queue.look(pair)?;
        Ok(look_answer(look))
    }

    // Finds the next entry, which is there, so that the frame that it may be the last of can be counted.
    fn find(&mut self, pair: &mut Pair, number: u64, len: u32) -> Result<Answer, AllocError>
        requires ready { CanBegin self.old.queue pair.old }
        requires found { queue_look_answer self.old.queue pair.old ≡ QueueReady number len }
        ensures { HasTurnedUnlessWanting IsFound (look_turn self.old pair.old) result self.old self.new pair.old pair.new }
    {
        if !can_deliver(self.counters) {
            return Err(AllocError);
        }
        self.delivered.make_room()?;
        self.queue.find(pair, len)?;
        Ok(Answer::ReadyFrame { number, len })
    }

    // Copies the next part of the entry at hand, and counts a frame that is delivered with it.
    fn copy(&mut self, pair: &Pair) -> Answer
        requires plan { pair.now.plan ≡ self.old.queue.port.plan }
        requires pages { HasPagesIn self.old.queue.port pair.now }
        ensures { HasTurned (copy_turn self.old pair.now) result self.old self.new pair.now pair.now }
    {
        let copy = self.queue.copy(pair);
        if let LaneCopy::Whole { frame, .. } = &copy {
            self.counters = delivered(self.counters, frame.len());
            self.delivered.one_more(pair.link().session());
        }
        copy_answer(copy)
    }

    /// Returns the frame that the next copy delivers, if it delivers one: a frame of its own.
    ///
    /// # Errors
    ///
    /// [`AllocError`] if memory runs out, and only if there is such a frame.
    pub fn frame_due(&self, alloc: Global, pair: &Pair) -> Result<Option<Frame>, AllocError>
        requires { pair.now.plan ≡ self.now.queue.port.plan }
        ensures { IsDue self.now.queue.port pair.now result }
    {
        self.queue.frame_due(alloc, pair)
    }

    // Zeroes the flags of the entry that was copied.
    fn clear(&mut self, pair: &mut Pair) -> Answer
        requires plan { pair.old.plan ≡ self.old.queue.port.plan }
        requires pages { HasPagesIn self.old.queue.port pair.old }
        ensures { HasTurned (clear_turn self.old pair.old) result self.old self.new pair.old pair.new }
    {
        clear_answer(self.queue.clear(pair))
    }

    // Gives the entry back.
    fn ack(&mut self, pair: &mut Pair) -> Answer
        requires { CanPost self.old.queue.port pair.old }
        ensures { HasTurned (ack_turn self.old pair.old) result self.old self.new pair.old pair.new }
    {
        ack_answer(self.queue.ack(pair))
    }

    // The device on the queue tries to go on.
    fn wake(&mut self, pair: &Pair) -> Answer
        requires plan { pair.now.plan ≡ self.old.queue.port.plan }
        ensures answer { result ≡ (wake_turn self.old pair.now).answer }
        ensures after { self.new ≡ (wake_turn self.old pair.now).part }
    {
        let free = self.queue.free(pair);
        if self.flow.try_wake(free) {
            Answer::Awake
        } else {
            Answer::Stopped
        }
    }

    // A device's frame was begun: it is counted, and the device stops where it leaves too few entries free.
    fn count_begun(&mut self, pair: &Pair, len: u32)
        requires plan { pair.now.plan ≡ self.old.queue.port.plan }
        requires room { HasRoomToSend self.old.counters }
        ensures { self.new ≡ counted_begun self.old (free_answer self.old.queue.port pair.now) len }
    {
        let free = self.queue.free(pair);
        self.flow.after_send(free);
        self.counters = accepted(self.counters, len);
    }

    /// Forgets the session, as the queue's side does at a clean: nothing is sent or received, and the device isn't
    /// stopped.
    pub fn forget(&mut self, pair: &mut Pair)
        requires plan { pair.old.plan ≡ self.old.queue.port.plan }
        requires room { HasRoomIn self.old.queue.port pair.old }
        ensures after { self.new ≡ forgotten_queue self.old }
        ensures bridge { pair.new ≡ reset_by self.old.queue.port pair.old }
    {
        self.queue.reset(pair);
        self.flow.reset();
    }

    /// Returns how many frames of a session were accepted on the lane that the side sends on the queue.
    pub fn accepted_in(&self, session: u32) -> u64
        ensures { result ≡ count_in self.now.accepted session }
    {
        self.accepted.count_in(session)
    }

    /// Returns how many frames of a session were delivered on the lane that the side receives on the queue.
    pub fn delivered_in(&self, session: u32) -> u64
        ensures { result ≡ count_in self.now.delivered session }
    {
        self.delivered.count_in(session)
    }

    /// Returns what is counted of the device on the queue.
    pub fn counters(&self) -> Counters
        ensures { result ≡ self.now.counters }
    {
        self.counters
    }
}

impl QueueBox {
    /// Returns whether no step can tell two queues apart, which have to be of one plan, side and number. Their queue
    /// pairs are compared, whether a device is stopped, its counters, and the frames of each session. It takes no
    /// memory.
    pub fn is_same(&self, other: &QueueBox) -> bool
        requires { AreOfOnePlace self.now other.now }
        ensures { IsTrue result ↔ IsSamePart self.now other.now }
    {
        self.queue.is_same(&other.queue)
            && self.flow.stopped() == other.flow.stopped()
            && self.counters == other.counters
            && self.accepted.is_same(&other.accepted)
            && self.delivered.is_same(&other.delivered)
    }

    /// Returns a queue in the same state, with as much room for the frames that it counts.
    ///
    /// # Errors
    ///
    /// [`AllocError`] if memory runs out.
    pub fn copy_of(&self, alloc: Global) -> Result<QueueBox, AllocError>
        ensures { IfOk result (λ copy. copy ≡ self.now) }
    {
        Ok(QueueBox {
            queue: self.queue.copy_of(alloc)?,
            flow: self.flow,
            counters: self.counters,
            accepted: self.accepted.copy_of(alloc)?,
            delivered: self.delivered.copy_of(alloc)?,
        })
    }
}

impl Model for QueueBox {
    ghost use Rattle.fabric_rule.specs.Parts.{QueuePart};

    ghost Value = { QueuePart };

    ghost use Rattle.fabric_core.specs.QueueBoxes.{IsQueueBox, part_seen};

    ghost view = { part_seen };

    ghost invariant = { IsQueueBox };
}
