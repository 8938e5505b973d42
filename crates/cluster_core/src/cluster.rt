//! The cluster.

ghost use Rattle.std.specs.Prelude.{◌≡◌, ◌++◌, ◌↔◌, ◌<◌, ◌≤◌, ◌∷◌, ℕ, [], IfOk, IfSome, IsTrue, List, OnErr, OnOk, Some, length, true};
ghost use Rattle.pair_model.specs.PlanParts.{declared_part};
ghost use Rattle.step_kinds.specs.Limits.{most_frame_bytes};
ghost use Rattle.step_kinds.specs.Sides.{other_side};
ghost use Rattle.step_kinds.specs.declared.plan.Plan.{Plan as PlanValue};
ghost use Rattle.step_kinds.specs.declared.steps.Answer.TheVariants.{Landed};
ghost use Rattle.step_kinds.specs.declared.steps.Label.{Label as LabelValue};
ghost use Rattle.step_kinds.specs.declared.steps.Step.{Step as MadeStep};
ghost use Rattle.step_kinds.specs.declared.steps.Step.TheVariants.{Copy, Land, Xnext};
ghost use Rattle.pair_model.specs.DeclaredPlans.{IsDeclared, IsPairOf, IsQueueOf};
ghost use Rattle.pair_model.specs.Switches.{AreSwitches, IsMakeable};
ghost use Rattle.bridge_pair.specs.Bridge.{flight_of};
ghost use Rattle.fabric_core.specs.Fabric.{pair_of};
ghost use Rattle.fabric_core.specs.FrameDue.{frame_due};
ghost use Rattle.cluster_core.specs.Cluster.{plan_held};
ghost use Rattle.cluster_core.specs.ClusterStep.{HasClusterStepped};
ghost use Rattle.cluster_core.specs.InFlight.{ClusterLandsNoneFrom, cluster_key_of, key_without};
ghost use Rattle.ledger_model.specs.Memory.{memory_of};
ghost use Rattle.ledger_model.specs.NetworkLog.{answer_after};
ghost use Rattle.cluster_core.specs.LogClauses.{AreClusterCounters, HasClusterMade, IsClusterAccepted, IsClusterDelivered, IsClusterSession};
ghost use Rattle.cluster_core.specs.Moves.{BringsFrame, CanBeSent, HasWaiting, arrived_in, brought_in, does_send, relay_answer_in, relay_goes_on, relayed_in, sending_in, sends_next, cluster_taken_in};
ghost use Rattle.cluster_core.specs.Parts.{HasDeviceOn, IsPortAmong, cluster_port_seen};

use crate::parts::{StepPart, part_of};
use crate::plans::{copies, new_switches};
use crate::ports::{PortPlace, port_on};
use crate::relays::relay_answer;
use fabric_core::Fabric;
use learn_switch::Switch;
use std::alloc::{AllocError, Global};
use std::marker::Model;
use step_kinds::{Answer, Counters, Frame, LaneName, Plan, Side, Step, SwitchPlan};

/// A cluster in bytes: its bridges, and the switches that its plan declares. Contracts see the fabric of the bridges,
/// the declarations of the switches, and the switches.
#[derive(Drop)]
pub struct Cluster {
    alloc: Global,
    fabric: Fabric,
    plans: Vec<SwitchPlan>,
    switches: Vec<Switch>,
}

impl Cluster {
    /// Returns the cluster of a plan before any step. The plan is one that a script can declare. The cluster has made
    /// no step of any plan that declares the same pairs, devices and switches.
    ///
    /// # Errors
    ///
    /// [`AllocError`] if memory runs out.
    pub fn new(alloc: Global, plan: &Plan) -> Result<Cluster, AllocError>
        requires declared { IsDeclared plan.now }
        requires switches { AreSwitches plan.now }
        ensures made { IfOk result (λ cluster. (other : PlanValue) → declared_part other ≡ declared_part plan.now → HasClusterMade other [] cluster) }
        ensures plan { IfOk result (λ cluster. plan_held cluster ≡ declared_part plan.now) }
    {
        Ok(Cluster {
            alloc,
            fabric: Fabric::new(alloc, plan)?,
            plans: copies(alloc, plan.switches.as_slice())?,
            switches: new_switches(alloc, plan.switches.as_slice())?,
        })
    }

    /// Makes a step, which has to be one that a script of the cluster's plan may make, and returns its answer. Whatever
    /// steps the cluster has made, the answer is that of the log of those steps and this one, and then it has made them
    /// and this one. After a landing that lands nothing it has made also the steps without it. The cluster's plan
    /// stays, whatever comes of the step.
    ///
    /// - A `relay` is answered by the switch: `nothing`, `short`, `filtered`, `to` or `flood`.
    /// - An `xnext` is answered `nothing` where no frame waits at the device's port. Else it is a `begin` with the
    ///   first waiting frame, which is taken out where that is answered `ok`.
    /// - Each other step is made on the bridges alone. A frame that a copy delivers on a port's queue arrives at the
    ///   port.
    ///
    /// A refusal leaves the cluster as it was, but for what [`Fabric::step`] names.
    ///
    /// # Errors
    ///
    /// [`AllocError`] from out of memory, or where a count would pass 2^62, as from [`Fabric::step`]. The cluster has
    /// made the same steps as before then, and the step can be made again: nothing but promised room and pages has
    /// changed. It comes of few steps alone. On bridges they are those that [`Fabric::step`] names, and a copy that
    /// delivers a frame to a port. They are a relay whose frame is to wait at another port, and an `xnext` where a
    /// frame waits. But for an `xnext` the log doesn't refuse the step then, or it is a device's frame whose refusal
    /// can't be counted.
    #[inline(always)]
    pub fn step(&mut self, step: &Step) -> Result<Answer, AllocError>
        requires { IsMakeable (plan_held self.old) step.now }
        ensures { HasClusterStepped self.old self.new step.now result }
    {
        match part_of(step) {
            StepPart::Relays { switch, port } => self.relay(switch, port),
            StepPart::Sends { own } => self.send_next(own),
            StepPart::Copies { own } => self.copy(own),
            StepPart::OnBridges => self.fabric.step(step),
        }
    }

    // A switch relays the first frame that arrived on one of its ports.
    fn relay(&mut self, switch: u32, port: u32) -> Result<Answer, AllocError>
        requires { IsPortAmong self.old.plans switch port }
        ensures answer { IfOk result (λ answer. answer ≡ relay_answer_in self.old (record { switch = switch; place = port })) }
        ensures after { OnOk result (self.new ≡ relayed_in self.old (record { switch = switch; place = port })) }
        ensures err { OnErr result (self.new ≡ self.old) }
        ensures wants { OnErr result (relay_goes_on self.old (record { switch = switch; place = port }) ≡ true) }
    {
        let relayed = self.switches[switch as usize].relay(port)?;
        Ok(relay_answer(relayed))
    }

    // The first frame that waits at the port on a side and a queue is begun there, and taken out where it was accepted.
    fn send_next(&mut self, own: LaneName) -> Result<Answer, AllocError>
        requires { HasDeviceOn (plan_held self.old) own }
        ensures { (dev : ℕ) → HasClusterStepped self.old self.new (Xnext own.pair own.from own.queue dev) result }
    {
        match self.next_frame(own)? {
            None => Ok(Answer::Nothing),
            Some(next) => self.begin(own, next),
        }
    }

    // A frame that waits is begun, and taken out where it was accepted.
    fn begin(&mut self, own: LaneName, next: NextFrame) -> Result<Answer, AllocError>
        requires device { HasDeviceOn (plan_held self.old) own }
        requires fits { CanBeSent self.old next }
        requires first { sends_next own (Some next) ≡ sending_in self.old own }
        ensures { (dev : ℕ) → HasClusterStepped self.old self.new (Xnext own.pair own.from own.queue dev) result }
    {
        let place = next.place;
        let step = Step::Begin {
            pair: own.pair,
            side: own.from,
            queue: own.queue,
            frame: next.frame,
        };
        let answer = self.fabric.step(&step)?;
        self.take_out(place, &answer);
        Ok(answer)
    }

    // The first frame that waits at a port is taken out, if its begin was answered `ok`.
    fn take_out(&mut self, place: PortPlace, answer: &Answer)
        requires place { IsPortAmong self.old.plans place.switch place.port }
        requires waits { HasWaiting self.old place }
        ensures { self.new ≡ cluster_taken_in self.old place answer.now }
    {
        if let Answer::OkNumber { .. } = answer {
            self.switches[place.switch as usize].sent(place.port);
        }
    }

    // Returns a copy of the first frame that waits at the port on a side and a queue, if one waits.
    fn next_frame(&self, own: LaneName) -> Result<Option<NextFrame>, AllocError>
        ensures value { IfOk result (λ next. sends_next own next ≡ sending_in self.now own) }
        ensures fits { IfOk result (λ next. IfSome next (CanBeSent self.now)) }
        ensures wants { OnErr result (does_send (sending_in self.now own) ≡ true) }
    {
        let Some(place) = port_on(self.fabric.devices(), &self.plans, own) else {
            return Ok(None);
        };
        let Some(frame) = self.switches[place.switch as usize].first(place.port) else {
            return Ok(None);
        };
        frame_is_short(frame);
        Ok(Some(NextFrame {
            place,
            frame: frame.copy_of(self.alloc)?,
        }))
    }

    // The next part of a frame is copied on a side and a queue. A frame that is delivered with it has arrived at the
    // port there before, so that nothing is left to be done after the copy.
    fn copy(&mut self, own: LaneName) -> Result<Answer, AllocError>
        requires { IsQueueOf (plan_held self.old) own.pair own.from own.queue }
        ensures { HasClusterStepped self.old self.new (Copy own.pair own.from own.queue) result }
    {
        let step = Step::Copy {
            pair: own.pair,
            side: own.from,
            queue: own.queue,
        };
        self.take_in(own)?;
        self.fabric.step(&step)
    }

    // The frame that the next copy on a side and a queue delivers arrives at the port there, if there are both.
    #[inline(always)]
    fn take_in(&mut self, own: LaneName) -> Result<(), AllocError>
        requires { IsQueueOf (plan_held self.old) own.pair own.from own.queue }
        ensures ok { OnOk result (self.new ≡ brought_in self.old own (frame_due self.old.fabric own)) }
        ensures err { OnErr result (self.new ≡ self.old) }
        ensures wants { OnErr result (BringsFrame self.old own) }
    {
        let Some(place) = port_on(self.fabric.devices(), &self.plans, own) else {
            return Ok(());
        };
        let Some(frame) = self.fabric.frame_due(own)? else {
            return Ok(());
        };
        self.arrive(place, frame)
    }

    // A frame arrives at a port.
    fn arrive(&mut self, place: PortPlace, frame: Frame) -> Result<(), AllocError>
        requires { IsPortAmong self.old.plans place.switch place.port }
        ensures ok { OnOk result (self.new ≡ arrived_in self.old (cluster_port_seen place) frame) }
        ensures err { OnErr result (self.new ≡ self.old) }
    {
        self.switches[place.switch as usize].arrive(place.port, frame)
    }

    /// Returns how many frames of a lane were accepted and how many delivered in a session, both 0 in a session that
    /// wasn't. The lane's pair has to be one of the cluster's, and its queue one of both sides.
    pub fn ledger(&self, lane: LaneName, session: u32) -> (u64, u64)
        requires sent { IsQueueOf (plan_held self.now) lane.pair lane.from lane.queue }
        requires received { IsQueueOf (plan_held self.now) lane.pair (other_side lane.from) lane.queue }
        ensures accepted { IsClusterAccepted self.now lane session result.0 }
        ensures delivered { IsClusterDelivered self.now lane session result.1 }
    {
        self.fabric.ledger(lane, session)
    }

    /// The number of the session that a pair is in, or was in last; 0 before the first. The pair has to be one of the
    /// cluster's.
    pub fn sessions(&self, pair: u32) -> u32
        requires { IsPairOf (plan_held self.now) pair }
        ensures { IsClusterSession self.now pair result }
    {
        self.fabric.sessions(pair)
    }

    /// Returns what is counted of a device, which has to be one of the cluster's. What an `xnext` sends isn't.
    pub fn counters(&self, dev: u32) -> Counters
        requires { dev < length (plan_held self.now).devs }
        ensures { AreClusterCounters self.now dev result }
    {
        self.fabric.counters(dev)
    }
}

impl Cluster {
    /// Returns whether no step can tell two clusters apart, which have to be of the same pairs, devices and switches.
    /// Left out are promised room and pages, and what a queue keeps of an entry that it has posted whole.
    ///
    /// If the answer is `true`, whatever steps the one has made, the other has made too. If both have made one list of
    /// steps, it is `true`. It takes no memory.
    pub fn is_same(&self, other: &Cluster) -> bool
        requires { plan_held self.now ≡ plan_held other.now }
        ensures merges { result ≡ true → (plan : PlanValue) (steps : List MadeStep) → HasClusterMade plan steps self.now → HasClusterMade plan steps other.now }
        ensures apart { (plan : PlanValue) (steps : List MadeStep) → HasClusterMade plan steps self.now → HasClusterMade plan steps other.now → result ≡ true }
    {
        self.fabric.is_same(&other.fabric) && are_same_switches(&self.switches, &other.switches)
    }

    /// Returns whether the write that a side of a pair has in flight at this place may land, and no step can then tell
    /// the cluster apart from another. [`Cluster::is_same`] says what no step can tell apart. The pair has to be one of
    /// the cluster's, and both clusters have to be of the same pairs, devices and switches.
    ///
    /// If the answer is `true`, the other has made whatever steps this one has made and the landing after them. If it
    /// has made such a list, and the landing is answered `landed`, the answer is `true`. It is found out without
    /// landing the write, and takes no memory.
    pub fn lands_as(&self, pair: u32, side: Side, place: usize, other: &Cluster) -> bool
        requires plans { plan_held self.now ≡ plan_held other.now }
        requires pair { IsPairOf (plan_held self.now) pair }
        ensures merges { result ≡ true → (plan : PlanValue) (steps : List MadeStep) → HasClusterMade plan steps self.now → HasClusterMade plan (steps ++ Land pair side place ∷ []) other.now }
        ensures apart { (plan : PlanValue) (steps : List MadeStep) (label : LabelValue) → HasClusterMade plan steps self.now → answer_after plan (memory_of plan) steps (Land pair side place) ≡ Landed label → HasClusterMade plan (steps ++ Land pair side place ∷ []) other.now → result ≡ true }
    {
        self.fabric.lands_as(pair, side, place, &other.fabric)
            && are_same_switches(&self.switches, &other.switches)
    }

    /// Returns a cluster in the same state, with the same promises. It has made whatever steps this one has made.
    ///
    /// # Errors
    ///
    /// [`AllocError`] if memory runs out.
    pub fn copy_of(&self, alloc: Global) -> Result<Cluster, AllocError>
        ensures { IfOk result (λ copy. copy ≡ self.now) }
    {
        Ok(Cluster {
            alloc,
            fabric: self.fabric.copy_of(alloc)?,
            plans: copies(alloc, &self.plans)?,
            switches: switch_copies(alloc, &self.switches)?,
        })
    }

    /// Returns how many writes a side of a pair has in flight. The pair has to be one of the cluster's. Whatever steps
    /// the cluster has made, a `land` of that side at this place, or at a later one, is answered `nothing` after them.
    pub fn in_flight(&self, pair: u32, side: Side) -> usize
        requires { IsPairOf (plan_held self.now) pair }
        ensures count { result ≡ length (flight_of (pair_of self.now.fabric pair).bridge side).writes }
        ensures beyond { ClusterLandsNoneFrom self.now pair side result }
    {
        self.fabric.in_flight(pair, side)
    }

    /// Adds the key of all that is in flight, by which clusters that may be the same are found among others. Those that
    /// have made one list of steps have the same key.
    ///
    /// # Errors
    ///
    /// [`AllocError`] if memory runs out. A part of the key may then be there.
    pub fn push_key(&self, key: &mut Vec<u8>) -> Result<(), AllocError>
        ensures { OnOk result (key.new.items ≡ key.old.items ++ cluster_key_of self.now) }
    {
        self.fabric.push_key(key)
    }

    /// Adds the key without the write at a place of those that a side of a pair has in flight, if there is one. Once
    /// that write has landed, this is the key. The pair has to be one of the cluster's.
    ///
    /// # Errors
    ///
    /// [`AllocError`] if memory runs out. A part of the key may then be there.
    pub fn push_key_without(
        &self,
        pair: u32,
        side: Side,
        place: usize,
        key: &mut Vec<u8>,
    ) -> Result<(), AllocError>
        requires { IsPairOf (plan_held self.now) pair }
        ensures { OnOk result (key.new.items ≡ key.old.items ++ key_without self.now pair side place) }
    {
        self.fabric.push_key_without(pair, side, place, key)
    }
}

impl Model for Cluster {
    ghost use Rattle.cluster_core.specs.Cluster.{ClusterState};

    ghost Value = { ClusterState };

    ghost use Rattle.cluster_core.specs.Clusters.{IsCluster, cluster_seen};

    ghost view = { cluster_seen };

    ghost invariant = { IsCluster };
}

// A frame that is to be sent, and the port at which it waits.
#[derive(Drop)]
struct NextFrame {
    place: PortPlace,
    frame: Frame,
}

// A frame is no longer than a frame may be. It does nothing: its clause is the law.
#[inline(always)]
fn frame_is_short(frame: &Frame)
    ensures { length frame.now ≤ most_frame_bytes }
{
    let _len = frame.len();
}

// Returns whether switches are the same, one after the other.
fn are_same_switches(switches: &[Switch], others: &[Switch]) -> bool
    ensures { IsTrue result ↔ (switches.now ≡ others.now) }
{
    if switches.len() != others.len() {
        return false;
    }
    for number in 0..switches.len() {
        if !switches[number].is_same(&others[number]) {
            return false;
        }
    }
    true
}

// Returns the same switches.
fn switch_copies(alloc: Global, switches: &[Switch]) -> Result<Vec<Switch>, AllocError>
    ensures { IfOk result (λ copies. copies.items ≡ switches.now) }
{
    let mut copies = Vec::with_capacity(alloc, switches.len())?;
    for switch in switches {
        copies.push_reserved(switch.copy_of(alloc)?);
    }
    Ok(copies)
}
