//! A pair with its queues.

ghost use Rattle.std.specs.Prelude.{IfOk, IsTrue, List, OnErr, OnOk, length, map, slice_index_or, slice_set, true, ◌++◌, ◌<◌, ◌↔◌, ◌≡◌};
ghost use Rattle.bridge_pair.specs.Bridge.{flight_of, pages_of};
ghost use Rattle.fabric_core.specs.InFlight.{pair_key, pair_key_without};
ghost use Rattle.fabric_core.specs.Parts.{BridgeAgrees, AreAlone, AreFreshQueues, AreLimitsOn, CanForget, CanMake, CanTurnQueue, HasOtherRoom};
ghost use Rattle.fabric_core.specs.Promises.{CanTurn};
ghost use Rattle.fabric_core.specs.StepCalls.{HasMadeAt, HasMadeOnQueue, HasMadeStep};
ghost use Rattle.fabric_core.specs.Same.{AreOfOneSide, AreSameParts, HasSameQueues, IsSamePair, LandsAsPair};
ghost use Rattle.fabric_rule.specs.Laws.{IsFreshPair};
ghost use Rattle.fabric_rule.specs.Parts.{no_queue, plain_pair, queue_of};
ghost use Rattle.frame_ring.specs.PortCalls.{IsDue};
ghost use Rattle.frame_ring.specs.PortView.{FitsRings, HasPagesIn, HasRoomIn};
ghost use Rattle.pair_model.specs.DeclaredPlans.{IsPair};
ghost use Rattle.pair_model.specs.Plans.{side_plan as side_plan_of};
ghost use Rattle.queue_pair.specs.Gates.{is_joined};
ghost use Rattle.step_kinds.specs.declared.names.Side.TheVariants.{A, B};
ghost use Rattle.step_kinds.specs.declared.places.StepPlace.TheVariants.{OnBridge, OnQueue};
ghost use Rattle.step_kinds.specs.declared.plan.DevPlan.{DevPlan as DevPlanValue};
ghost use Rattle.fabric_rule.specs.Moves.{clean_move, forgotten_queue};

use crate::answers::refusal_answer;
use crate::bridge_steps::bridge_step;
use crate::keys::{push_flight, push_flight_without};
use crate::queues::QueueBox;
use bridge_pair::Pair;
use plan_numbers::side_plan;
use std::alloc::{AllocError, Global};
use std::marker::Model;
use step_kinds::{
    Answer, BridgeStep, DevPlan, Frame, PairPlan, QueueStep, Side, SideStep, Step, StepPlace,
};

/// A pair in bytes with the queues of its two sides. Contracts see both.
#[derive(Drop)]
pub struct PairBox {
    pair: Pair,
    queues_a: Vec<QueueBox>,
    queues_b: Vec<QueueBox>,
    alloc: Global,
}

impl PairBox {
    /// Returns a pair before any step, with the limits of the devices on its queues. No two devices are on one queue.
    ///
    /// # Errors
    ///
    /// [`AllocError`] if memory runs out.
    pub fn new(
        alloc: Global,
        devs: &[DevPlan],
        plan: &PairPlan,
        k: u32,
    ) -> Result<PairBox, AllocError>
        requires declared { IsPair plan.now }
        requires alone { AreAlone devs.now k }
        ensures { IfOk result (λ kept. IsFreshPair devs.now plan.now k (record { a = pages_of kept.bridge A; b = pages_of kept.bridge B }) kept) }
    {
        Ok(PairBox {
            queues_a: fresh_queues(alloc, devs, plan, k, Side::A)?,
            queues_b: fresh_queues(alloc, devs, plan, k, Side::B)?,
            pair: Pair::new(alloc, plan)?,
            alloc,
        })
    }

    /// Makes a step on the pair and returns its answer.
    ///
    /// # Errors
    ///
    /// [`AllocError`] from out of memory, or where a count would pass 2^62. Further pages may then be promised, and
    /// nothing else changes.
    #[inline(always)]
    pub fn make(&mut self, devs: &[DevPlan], step: &Step) -> Result<Answer, AllocError>
        requires agrees { BridgeAgrees self.old.bridge }
        requires can { CanMake devs.now self.old.bridge step.now }
        ensures { HasMadeStep devs.now step.now self.old self.new result }
    {
        match step.place() {
            StepPlace::OnQueue { side, queue, step } => self.queue_step(side, queue, devs, step),
            StepPlace::OnSide {
                side,
                step: SideStep::Clean,
            } => Ok(self.clean(side)),
            StepPlace::OnBridge { step } => self.step_aside(step),
            StepPlace::OnSwitch { .. } => Ok(Answer::Ok),
        }
    }

    // Makes a step on the bridge alone.
    #[inline(always)]
    fn step_aside(&mut self, step: BridgeStep) -> Result<Answer, AllocError>
        requires { CanTurn self.old.bridge step }
        ensures { (devs : List DevPlanValue) → HasMadeAt devs (OnBridge step.entry) self.old self.new result }
    {
        let alloc = self.alloc;
        bridge_step(&mut self.pair, alloc, step)
    }

    // Makes a step on one of a side's queues.
    #[inline(always)]
    fn queue_step(
        &mut self,
        side: Side,
        queue: u32,
        devs: &[DevPlan],
        step: QueueStep,
    ) -> Result<Answer, AllocError>
        requires agrees { BridgeAgrees self.old.bridge }
        requires among { queue < (side_plan_of self.old.bridge.plan side).queues }
        requires can { CanTurnQueue devs.now step }
        ensures { HasMadeAt devs.now (OnQueue side queue step.entry) self.old self.new result }
    {
        let alloc = self.alloc;
        match side {
            Side::A => make_at(&mut self.pair, &mut self.queues_a, alloc, queue, devs, step),
            Side::B => make_at(&mut self.pair, &mut self.queues_b, alloc, queue, devs, step),
        }
    }

    // Returns a side forgets the session that was lost, and its queues with it.
    fn clean(&mut self, side: Side) -> Answer
        ensures answer { result ≡ (clean_move self.old side).answer }
        ensures after { plain_pair self.new ≡ plain_pair (clean_move self.old side).after }
    {
        match self.pair.clean(side) {
            Ok(()) => {
                match side {
                    Side::A => forget_all(&mut self.pair, &mut self.queues_a, Side::A),
                    Side::B => forget_all(&mut self.pair, &mut self.queues_b, Side::B),
                }
                Answer::Ok
            }
            Err(refusal) => refusal_answer(refusal),
        }
    }

    /// Returns the number of the pair's session, 0 before the first.
    pub fn session(&self) -> u32
        ensures { result ≡ self.now.bridge.link.session }
    {
        self.pair.link().session()
    }

    /// One of a side's queues.
    pub fn queue(&self, side: Side, queue: u32) -> &QueueBox
        requires { queue < (side_plan_of self.now.bridge.plan side).queues }
        ensures { result.now ≡ queue_of self.now side queue }
    {
        match side {
            Side::A => &self.queues_a[queue as usize],
            Side::B => &self.queues_b[queue as usize],
        }
    }
}

impl PairBox {
    /// Returns the frame that the next copy on one of a side's queues delivers, if it delivers one: a frame of its own.
    ///
    /// # Errors
    ///
    /// [`AllocError`] if memory runs out, and only if there is such a frame.
    pub fn frame_due(&self, side: Side, queue: u32) -> Result<Option<Frame>, AllocError>
        requires { queue < (side_plan_of self.now.bridge.plan side).queues }
        ensures { IsDue (queue_of self.now side queue).queue.port self.now.bridge result }
    {
        self.queue(side, queue).frame_due(self.alloc, &self.pair)
    }
}

impl PairBox {
    /// Returns whether no step can tell two pairs of one plan apart, by their bridges and all queues. It takes no
    /// memory.
    pub fn is_same(&self, other: &PairBox) -> bool
        requires { self.now.bridge.plan ≡ other.now.bridge.plan }
        ensures { IsTrue result ↔ IsSamePair self.now other.now }
    {
        self.pair.is_same(&other.pair) && self.has_same_queues(other)
    }

    /// Returns whether the write at this place of those that a side has in flight may land, and no step can then tell
    /// the pair apart from another of its plan. It is found out without landing the write, and takes no memory.
    pub fn lands_as(&self, side: Side, place: usize, other: &PairBox) -> bool
        requires { self.now.bridge.plan ≡ other.now.bridge.plan }
        ensures { IsTrue result ↔ LandsAsPair self.now side place other.now }
    {
        self.pair.lands_as(side, place, &other.pair) && self.has_same_queues(other)
    }

    // Returns whether no step can tell the queues of both sides apart.
    fn has_same_queues(&self, other: &PairBox) -> bool
        requires { self.now.bridge.plan ≡ other.now.bridge.plan }
        ensures { IsTrue result ↔ HasSameQueues self.now other.now }
    {
        are_same_queues(&self.queues_a, &other.queues_a)
            && are_same_queues(&self.queues_b, &other.queues_b)
    }

    /// Returns a pair in the same state, with the same promises.
    ///
    /// # Errors
    ///
    /// [`AllocError`] if memory runs out.
    pub fn copy_of(&self, alloc: Global) -> Result<PairBox, AllocError>
        ensures { IfOk result (λ copy. copy ≡ self.now) }
    {
        Ok(PairBox {
            queues_a: queue_copies(alloc, &self.queues_a)?,
            queues_b: queue_copies(alloc, &self.queues_b)?,
            pair: self.pair.copy_of(alloc)?,
            alloc,
        })
    }

    /// Returns how many writes a side has in flight.
    pub fn in_flight(&self, side: Side) -> usize
        ensures { result ≡ length (flight_of self.now.bridge side).writes }
    {
        self.pair.in_flight(side)
    }

    /// Adds the key of what both sides have in flight.
    ///
    /// # Errors
    ///
    /// [`AllocError`] if memory runs out. A part of the key may then be there.
    pub fn push_key(&self, key: &mut Vec<u8>) -> Result<(), AllocError>
        ensures { OnOk result (key.new.items ≡ key.old.items ++ pair_key self.now) }
    {
        push_flight(key, &self.pair, Side::A)?;
        push_flight(key, &self.pair, Side::B)
    }

    /// Adds the key of what both sides have in flight without the write at a place of one of them.
    ///
    /// # Errors
    ///
    /// [`AllocError`] if memory runs out. A part of the key may then be there.
    pub fn push_key_without(
        &self,
        side: Side,
        place: usize,
        key: &mut Vec<u8>,
    ) -> Result<(), AllocError>
        ensures { OnOk result (key.new.items ≡ key.old.items ++ pair_key_without self.now side place) }
    {
        match side {
            Side::A => {
                push_flight_without(key, &self.pair, Side::A, place)?;
                push_flight(key, &self.pair, Side::B)
            }
            Side::B => {
                push_flight(key, &self.pair, Side::A)?;
                push_flight_without(key, &self.pair, Side::B, place)
            }
        }
    }
}

impl Model for PairBox {
    ghost use Rattle.fabric_rule.specs.Parts.{PairState};

    ghost Value = { PairState };

    ghost use Rattle.fabric_core.specs.PairBoxes.{IsPairBox, pair_seen};

    ghost view = { pair_seen };

    ghost invariant = { IsPairBox };
}

// Makes a step on one of these queues, which are those of one side.
#[inline(always)]
fn make_at(
    pair: &mut Pair,
    queues: &mut Vec<QueueBox>,
    alloc: Global,
    queue: u32,
    devs: &[DevPlan],
    step: QueueStep,
) -> Result<Answer, AllocError>
    requires among { queue < length queues.old.items }
    requires plan { pair.old.plan ≡ (slice_index_or queues.old.items queue no_queue).queue.port.plan }
    requires fits { is_joined (slice_index_or queues.old.items queue no_queue).queue pair.old ≡ true → FitsRings (slice_index_or queues.old.items queue no_queue).queue.port.plan }
    requires room { HasRoomIn (slice_index_or queues.old.items queue no_queue).queue.port pair.old }
    requires pages { HasPagesIn (slice_index_or queues.old.items queue no_queue).queue.port pair.old }
    requires step { CanTurnQueue devs.now step }
    ensures made { HasMadeOnQueue devs.now step.entry (slice_index_or queues.old.items queue no_queue) (slice_index_or queues.new.items queue no_queue) pair.old pair.new result }
    ensures queues { queues.new.items ≡ slice_set queues.old.items queue (slice_index_or queues.new.items queue no_queue) }
    ensures err { OnErr result (queues.new.items ≡ queues.old.items) }
{
    let part = &mut queues[queue as usize];
    part.make(pair, alloc, devs, step)
}

// Returns whether no step can tell the queues of two sides apart, which are of one plan and side.
fn are_same_queues(queues: &[QueueBox], others: &[QueueBox]) -> bool
    requires { AreOfOneSide queues.now others.now }
    ensures { IsTrue result ↔ AreSameParts queues.now others.now }
{
    for number in 0..queues.len() {
        if !queues[number].is_same(&others[number]) {
            return false;
        }
    }
    true
}

// Returns the same queues.
fn queue_copies(alloc: Global, queues: &[QueueBox]) -> Result<Vec<QueueBox>, AllocError>
    ensures { IfOk result (λ copies. copies.items ≡ queues.now) }
{
    let mut copies = Vec::with_capacity(alloc, queues.len())?;
    for queue in queues {
        copies.push_reserved(queue.copy_of(alloc)?);
    }
    Ok(copies)
}

// All queues of a side forget the session, and give back all room that they were promised.
fn forget_all(pair: &mut Pair, queues: &mut Vec<QueueBox>, side: Side)
    requires { CanForget pair.old side queues.old.items }
    ensures queues { queues.new.items ≡ map forgotten_queue queues.old.items }
    ensures bridge { HasOtherRoom pair.old side pair.new }
    ensures room { (flight_of pair.new side).spare ≡ 0 }
{
    for number in 0..queues.len() {
        let queue = &mut queues[number];
        queue.forget(pair);
    }
}

// Returns the queues of a side before any step.
fn fresh_queues(
    alloc: Global,
    devs: &[DevPlan],
    plan: &PairPlan,
    k: u32,
    side: Side,
) -> Result<Vec<QueueBox>, AllocError>
    requires declared { IsPair plan.now }
    requires alone { AreAlone devs.now k }
    ensures { IfOk result (λ queues. AreFreshQueues devs.now plan.now k side queues.items) }
{
    let mut queues = Vec::new(alloc);
    for queue in 0..side_plan(plan, side).queues {
        let (stop, start) = limits_on(devs, k, side, queue);
        queues.push(QueueBox::new(alloc, plan, side, queue, stop, start))?;
    }
    Ok(queues)
}

// Returns the limits of the device on a queue, if there is one.
fn limits_on(devs: &[DevPlan], k: u32, side: Side, queue: u32) -> (u32, u32)
    requires { AreAlone devs.now k }
    ensures { AreLimitsOn devs.now k side queue result.0 result.1 }
{
    for dev in devs {
        if dev.pair == k && dev.side == side && dev.queue == queue {
            return (dev.stop, dev.start);
        }
    }
    (0, 0)
}
