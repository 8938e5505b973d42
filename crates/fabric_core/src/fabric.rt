//! The fabric.

ghost use Rattle.std.specs.Prelude.{IfOk, IsErr, IsSome, IsTrue, List, OnErr, OnOk, [], length, map, true, ◌++◌, ◌↔◌, ◌<◌, ◌∷◌, ◌≡◌};
ghost use Rattle.std.specs.List.{flat_map};
ghost use Rattle.bridge_pair.specs.Bridge.{flight_of};
ghost use Rattle.fabric_core.specs.Fabric.{StandsFor, bare_plan, may_want_memory, pair_of, plain, plan_kept};
ghost use Rattle.fabric_core.specs.InFlight.{LandsNoneFrom, fabric_key, fabric_key_without, pair_key};
ghost use Rattle.fabric_core.specs.LogClauses.{AreCounters, HasMade, IsAccepted, IsAnswered, IsDelivered, IsSession};
ghost use Rattle.fabric_core.specs.FabricStep.{HasStepped};
ghost use Rattle.fabric_core.specs.FrameDue.{frame_due};
ghost use Rattle.fabric_core.specs.Same.{AreSameBut, AreSamePairs, plan_at};
ghost use Rattle.fabric_rule.specs.Parts.{queue_of};
ghost use Rattle.pair_model.specs.DeclaredPlans.{IsDeclared, IsPairOf, IsPermitted, IsQueueOf};
ghost use Rattle.step_kinds.specs.Sides.{other_side};
ghost use Rattle.step_kinds.specs.declared.plan.Plan.{Plan as DeclaredPlan};
ghost use Rattle.step_kinds.specs.declared.steps.Answer.TheVariants.{Landed};
ghost use Rattle.step_kinds.specs.declared.steps.Label.{Label as LabelValue};
ghost use Rattle.step_kinds.specs.declared.steps.Step.{Step as MadeStep};
ghost use Rattle.step_kinds.specs.declared.steps.Step.TheVariants.{Land};

use crate::pairs::PairBox;
use crate::queues::QueueBox;
use std::alloc::{AllocError, Global};
use std::marker::Model;
use step_kinds::{Answer, Counters, DevPlan, Frame, LaneName, Name, Plan, Side, Step};

/// A cluster in bytes: its pairs and its devices. Contracts see both.
#[derive(Drop)]
pub struct Fabric {
    devs: Vec<DevPlan>,
    pairs: Vec<PairBox>,
}

impl Fabric {
    /// Returns the fabric of a plan before any step. The plan's pairs and devices are ones that a script can declare.
    ///
    /// # Errors
    ///
    /// [`AllocError`] if memory runs out.
    pub fn new(alloc: Global, plan: &Plan) -> Result<Fabric, AllocError>
        requires { IsDeclared plan.now }
        ensures stands { IfOk result (λ fabric. StandsFor plan.now [] fabric) }
        ensures plan { IfOk result (λ fabric. plan_kept fabric ≡ bare_plan plan.now) }
    {
        let devs = copies(alloc, plan.devs.as_slice())?;
        let mut pairs = Vec::new(alloc);
        for (k, pair) in plan.pairs.as_slice().iter().enumerate() {
            let kept = PairBox::new(alloc, &devs, pair, k as u32)?;
            pairs.push(kept)?;
        }
        Ok(Fabric { devs, pairs })
    }

    /// Makes a step, which has to be one that a script of the fabric's plan may make, and returns its answer. Whatever
    /// steps the fabric represents, the answer is the log's of those steps and this one, and then it represents them
    /// and this one.
    ///
    /// So the answer says what the log of those steps says. `linkdown`, `notready`, `closed`, `toolong` and `busy` come
    /// if and only if the log says so. So do `stopped`, `again`, `empty` and `peerdown` on ordinary pairs, that is, on
    /// pairs that aren't declared `raw`. On these `up` comes only if all of the peer's numbers have landed in the
    /// session and agree, and neither `verdiffers` nor `long` comes.
    ///
    /// A refusal leaves the fabric as it was, promised room and pages aside. Two things change all the same: a device's
    /// refusal is counted, and a port that answers `idle` lets go of the entry that it has posted.
    ///
    /// Of the steps made the laws of every log hold. On ordinary pairs frames come in order and once, and a quiet queue
    /// has delivered all. What is in flight there is what was posted while the link was up and has neither landed nor
    /// been dropped. There rings keep their law, and sides that are up agree. On every pair counts are the log's, what
    /// was posted are the entries' writes, and nothing is in flight while the link is down. A lane's part of what is in
    /// flight lands by its own order, and the steps on other pairs change no answer.
    ///
    /// # Errors
    ///
    /// [`AllocError`] from out of memory, or where a count would pass 2^62. That is one of a lane's entries in the
    /// session, of its frames in all sessions, or of what a device's counters count. It comes only of a step that
    /// promises room or pages or shows memory, and that the log doesn't refuse. The fabric represents the same steps as
    /// before then, and nothing but promised room and pages has changed. Also returned when a device's refusal counter
    /// would pass 2^62.
    #[inline(always)]
    pub fn step(&mut self, step: &Step) -> Result<Answer, AllocError>
        requires { IsPermitted (plan_kept self.old) step.now }
        ensures { HasStepped self.old self.new step.now result }
    {
        let k = step.subject() as usize;
        let pair = &mut self.pairs[k];
        pair.make(&self.devs, step)
    }

    /// Returns the frame that the next copy on a side and a queue delivers, if it delivers one: a frame of its own, and
    /// the fabric stays as it is. Side and queue are named as the lane on which the side sends there. The pair has to
    /// be one of the fabric's, and the queue one of the side.
    ///
    /// # Errors
    ///
    /// [`AllocError`] if memory runs out, and only if there is such a frame.
    pub fn frame_due(&self, own: LaneName) -> Result<Option<Frame>, AllocError>
        requires { IsQueueOf (plan_kept self.now) own.pair own.from own.queue }
        ensures value { IfOk result (λ due. due ≡ frame_due self.now own) }
        ensures wants { OnErr result (IsSome (frame_due self.now own)) }
    {
        self.pair(own.pair).frame_due(own.from, own.queue)
    }

    /// Returns how many frames of a lane were accepted and how many delivered in a session, both 0 in a session that
    /// wasn't. The lane's pair has to be one of the fabric's, and its queue one of both sides.
    pub fn ledger(&self, lane: LaneName, session: u32) -> (u64, u64)
        requires sent { IsQueueOf (plan_kept self.now) lane.pair lane.from lane.queue }
        requires received { IsQueueOf (plan_kept self.now) lane.pair (other_side lane.from) lane.queue }
        ensures accepted { IsAccepted self.now lane session result.0 }
        ensures delivered { IsDelivered self.now lane session result.1 }
    {
        let sent = self.queue(lane.pair, lane.from, lane.queue);
        let received = self.queue(lane.pair, lane.from.other(), lane.queue);
        (sent.accepted_in(session), received.delivered_in(session))
    }

    /// The number of the session that a pair is in, or was in last; 0 before the first. The pair has to be one of the
    /// fabric's.
    pub fn sessions(&self, pair: u32) -> u32
        requires { IsPairOf (plan_kept self.now) pair }
        ensures { IsSession self.now pair result }
    {
        self.pair(pair).session()
    }

    /// Returns what is counted of a device, which has to be one of the fabric's.
    pub fn counters(&self, dev: u32) -> Counters
        requires { dev < length (plan_kept self.now).devs }
        ensures { AreCounters self.now dev result }
    {
        let device = &self.devs[dev as usize];
        self.queue(device.pair, device.side, device.queue)
            .counters()
    }

    /// Returns the devices, in the order of the plan.
    pub fn devices(&self) -> &[DevPlan]
        ensures { result.now ≡ self.now.devs }
    {
        &self.devs
    }

    // One of the pairs.
    fn pair(&self, pair: u32) -> &PairBox
        requires { IsPairOf (plan_kept self.now) pair }
        ensures { result.now ≡ pair_of self.now pair }
    {
        &self.pairs[pair as usize]
    }

    // One of the queues of a side of a pair.
    fn queue(&self, pair: u32, side: Side, queue: u32) -> &QueueBox
        requires { IsQueueOf (plan_kept self.now) pair side queue }
        ensures { result.now ≡ queue_of (pair_of self.now pair) side queue }
    {
        self.pair(pair).queue(side, queue)
    }
}

impl Fabric {
    /// Returns whether no step can tell two fabrics apart, which have to be of the same pairs and devices. Left out are
    /// promised room and pages, and what a queue keeps of a frame that it has posted whole.
    ///
    /// If the answer is `true`, whatever steps the one represents, so does the other. If both represent one list of
    /// steps, it is `true`. It takes no memory.
    pub fn is_same(&self, other: &Fabric) -> bool
        requires { plan_kept self.now ≡ plan_kept other.now }
        ensures merges { result ≡ true → (plan : DeclaredPlan) (steps : List MadeStep) → HasMade plan steps self.now → HasMade plan steps other.now }
        ensures apart { (plan : DeclaredPlan) (steps : List MadeStep) → HasMade plan steps self.now → HasMade plan steps other.now → result ≡ true }
    {
        are_same_pairs(&self.pairs, &other.pairs)
    }

    /// Returns whether the write that a side of a pair has in flight at this place may land, and no step can then tell
    /// the fabric apart from another. [`Fabric::is_same`] says what no step can tell apart. The pair has to be one of
    /// the fabric's, and both fabrics have to be of the same pairs and devices.
    ///
    /// If the answer is `true`, the other represents whatever steps this one represents and the landing after them. If
    /// it represents such a list, and the landing is answered `landed`, the answer is `true`. It is found out without
    /// landing the write, and takes no memory.
    pub fn lands_as(&self, pair: u32, side: Side, place: usize, other: &Fabric) -> bool
        requires plans { plan_kept self.now ≡ plan_kept other.now }
        requires pair { IsPairOf (plan_kept self.now) pair }
        ensures merges { result ≡ true → (plan : DeclaredPlan) (steps : List MadeStep) → HasMade plan steps self.now → HasMade plan (steps ++ Land pair side place ∷ []) other.now }
        ensures apart { (plan : DeclaredPlan) (steps : List MadeStep) (label : LabelValue) → HasMade plan steps self.now → IsAnswered plan steps (Land pair side place) (Landed label) → HasMade plan (steps ++ Land pair side place ∷ []) other.now → result ≡ true }
    {
        self.pair(pair).lands_as(side, place, other.pair(pair))
            && are_same_but(&self.pairs, &other.pairs, pair as usize)
    }

    /// Returns a fabric in the same state, with the same promises. It represents whatever steps this one represents.
    ///
    /// # Errors
    ///
    /// [`AllocError`] if memory runs out.
    pub fn copy_of(&self, alloc: Global) -> Result<Fabric, AllocError>
        ensures { IfOk result (λ copy. copy ≡ self.now) }
    {
        Ok(Fabric {
            devs: copies(alloc, &self.devs)?,
            pairs: pair_copies(alloc, &self.pairs)?,
        })
    }

    /// Returns how many writes a side of a pair has in flight. The pair has to be one of the fabric's. A `land` of that
    /// side at this place, or at a later one, is answered `nothing`.
    pub fn in_flight(&self, pair: u32, side: Side) -> usize
        requires { IsPairOf (plan_kept self.now) pair }
        ensures count { result ≡ length (flight_of (pair_of self.now pair).bridge side).writes }
        ensures beyond { LandsNoneFrom self.now pair side result }
    {
        self.pair(pair).in_flight(side)
    }

    /// Adds the key of all that is in flight, by which fabrics that may be the same are found among others. Those that
    /// represent one list of steps have the same key.
    ///
    /// # Errors
    ///
    /// [`AllocError`] if memory runs out. A part of the key may then be there.
    pub fn push_key(&self, key: &mut Vec<u8>) -> Result<(), AllocError>
        ensures { OnOk result (key.new.items ≡ key.old.items ++ fabric_key self.now) }
    {
        push_keys(key, &self.pairs)
    }

    /// Adds the key without the write at a place of those that a side of a pair has in flight, if there is one. Once
    /// that write has landed, this is the key. The pair has to be one of the fabric's.
    ///
    /// # Errors
    ///
    /// [`AllocError`] if memory runs out. A part of the key may then be there.
    pub fn push_key_without(
        &self,
        pair: u32,
        side: Side,
        place: usize,
        key: &mut Vec<u8>,
    ) -> Result<(), AllocError>
        requires { IsPairOf (plan_kept self.now) pair }
        ensures { OnOk result (key.new.items ≡ key.old.items ++ fabric_key_without self.now pair side place) }
    {
        let k = pair as usize;
        push_keys(key, &self.pairs[..k])?;
        self.pair(pair).push_key_without(side, place, key)?;
        push_keys(key, &self.pairs[k + 1..])
    }
}

impl Model for Fabric {
    ghost use Rattle.fabric_core.specs.Fabric.{FabricState};

    ghost Value = { FabricState };

    ghost use Rattle.fabric_core.specs.Fabrics.{IsFabric, fabric_seen};

    ghost view = { fabric_seen };

    ghost invariant = { IsFabric };
}

// Returns whether no step can tell pairs apart, which are of the same plans.
fn are_same_pairs(pairs: &[PairBox], others: &[PairBox]) -> bool
    requires { map plan_at pairs.now ≡ map plan_at others.now }
    ensures { IsTrue result ↔ AreSamePairs pairs.now others.now }
{
    for k in 0..pairs.len() {
        if !pairs[k].is_same(&others[k]) {
            return false;
        }
    }
    true
}

// Returns whether no step can tell pairs apart, which are of the same plans, but for one of them.
fn are_same_but(pairs: &[PairBox], others: &[PairBox], but: usize) -> bool
    requires { map plan_at pairs.now ≡ map plan_at others.now }
    ensures { IsTrue result ↔ AreSameBut pairs.now others.now but }
{
    for k in 0..pairs.len() {
        if k != but && !pairs[k].is_same(&others[k]) {
            return false;
        }
    }
    true
}

// Adds the keys of pairs.
fn push_keys(key: &mut Vec<u8>, pairs: &[PairBox]) -> Result<(), AllocError>
    ensures { OnOk result (key.new.items ≡ key.old.items ++ flat_map pair_key pairs.now) }
{
    for pair in pairs {
        pair.push_key(key)?;
    }
    Ok(())
}

// Returns the same pairs.
fn pair_copies(alloc: Global, pairs: &[PairBox]) -> Result<Vec<PairBox>, AllocError>
    ensures { IfOk result (λ copies. copies.items ≡ pairs.now) }
{
    let mut copies = Vec::with_capacity(alloc, pairs.len())?;
    for pair in pairs {
        copies.push_reserved(pair.copy_of(alloc)?);
    }
    Ok(copies)
}

// Returns the same devices.
fn copies(alloc: Global, devs: &[DevPlan]) -> Result<Vec<DevPlan>, AllocError>
    ensures { IfOk result (λ copies. copies.items ≡ devs.now) }
{
    let mut copies = Vec::with_capacity(alloc, devs.len())?;
    for dev in devs {
        copies.push_reserved(copy_of(dev));
    }
    Ok(copies)
}

// Returns the same device.
fn copy_of(dev: &DevPlan) -> DevPlan
    ensures { result ≡ dev.now }
{
    DevPlan {
        name: Name::of_bytes(dev.name.bytes()),
        ..*dev
    }
}
