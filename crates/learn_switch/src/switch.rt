//! A switch.

ghost use Rattle.std.specs.Prelude.{◌≡◌, ◌↔◌, ◌<◌, ◌≤◌, [], length, IfErr, IfOk, IfSome, IsTrue, OnErr, OnOk, option_copied, true};
ghost use Rattle.pair_model.specs.Ethernet.{ethernet_header};
ghost use Rattle.pair_model.specs.Switch.{arrived, first, forward_answer, forwarded, list_of, new_switch, sent};
ghost use Rattle.pair_model.specs.Fdb.{AreBelow, destination, learned_source, lookup, source};
ghost use Rattle.learn_switch.specs.Frames.{GoesBelow, HasHeader, AllHaveHeaders, bytes_after_relay, bytes_relay_answer, goes_on};

use crate::fdb::{Fdb, is_multicast};
use crate::frame_queue::{FrameQueue, copies, empty_queues, push_to_others};
use net_dev::{Header, Short, decode};
use pair_model::RelayAnswer;
use std::alloc::{AllocError, Global};
use std::marker::Model;
use step_kinds::Frame;

/// A learning switch with 2 to 16 ports, numbered from 0.
///
/// A frame that arrives on a port joins the port's inbox. A relay takes it from there and learns on which port its
/// source is. It puts the frame where its destination is: into the waiting frames of one port, or of all others.
#[derive(Drop)]
pub struct Switch {
    alloc: Global,
    inboxes: Vec<FrameQueue>,
    waiting: Vec<FrameQueue>,
    fdb: Fdb,
}

impl Switch {
    /// Returns a switch with this many ports, 2 to 16. It has no frame and knows no station.
    ///
    /// # Errors
    ///
    /// [`AllocError`] if memory runs out.
    pub fn new(alloc: Global, ports: u32) -> Result<Switch, AllocError>
        requires two { 2 ≤ ports }
        requires few { ports ≤ 16 }
        ensures { IfOk result (λ switch. switch ≡ new_switch ports) }
    {
        Ok(Switch {
            alloc,
            inboxes: empty_queues(alloc, ports)?,
            waiting: empty_queues(alloc, ports)?,
            fdb: Fdb::new(alloc)?,
        })
    }

    /// The frame joins the inbox of a port, as its last one. The port is below the number of ports.
    ///
    /// # Errors
    ///
    /// [`AllocError`] if memory runs out, and then nothing changes.
    pub fn arrive(&mut self, port: u32, frame: Frame) -> Result<(), AllocError>
        requires { port < length self.old.inboxes }
        ensures ok { OnOk result (self.new ≡ arrived self.old port frame) }
        ensures err { OnErr result (self.new ≡ self.old) }
    {
        self.inboxes[port as usize].push(frame)
    }

    /// Relays the first frame of a port's inbox. The port is below the number of ports.
    ///
    /// [`RelayAnswer::Nothing`] if and only if the inbox is empty, and then nothing changes. Else the frame leaves the
    /// inbox, and these are tested in this order:
    ///
    /// 1. It has fewer than 14 bytes: [`RelayAnswer::Short`], and it is dropped.
    /// 2. Its source, unless the address's first byte is odd, is learned with this port. By that a known station gets
    ///    the port, and a new one is added where fewer than 256 are known.
    /// 3. Its destination has an odd first byte or isn't known: [`RelayAnswer::Flood`], and it joins the waiting frames
    ///    of all other ports.
    /// 4. Its destination is on this port: [`RelayAnswer::Filtered`], and it is dropped.
    /// 5. Else [`RelayAnswer::To`], and it joins the waiting frames of that port.
    ///
    /// # Errors
    ///
    /// [`AllocError`] if memory runs out, and only if the frame is to wait at another port. Then nothing changes: the
    /// frame stays in the inbox.
    pub fn relay(&mut self, port: u32) -> Result<RelayAnswer, AllocError>
        requires { port < length self.old.inboxes }
        ensures answer { IfOk result (λ answer. answer ≡ bytes_relay_answer self.old port) }
        ensures after { OnOk result (self.new ≡ bytes_after_relay self.old port) }
        ensures err { OnErr result (self.new ≡ self.old) }
        ensures wants { OnErr result (goes_on (bytes_relay_answer self.old port) ≡ true) }
    {
        let place = port as usize;
        let Some(frame) = self.inboxes[place].first() else {
            return Ok(RelayAnswer::Nothing);
        };
        let header = match header_of(frame) {
            Ok(header) => header,
            Err(short) => {
                self.inboxes[place].drop_first();
                return Ok(RelayAnswer::Short { len: short.len });
            }
        };
        let answer = route(&self.fdb, self.waiting.len() as u32, port, &header);
        forward(&mut self.waiting, self.alloc, port, frame, answer)?;
        self.fdb.learn_source(&header.src, port);
        self.inboxes[place].drop_first();
        Ok(answer)
    }

    /// Returns the first frame that waits on a port, and `None` if and only if none waits. It has 14 bytes at least.
    /// The port is below the number of ports.
    pub fn first(&self, port: u32) -> Option<&Frame>
        requires { port < length self.now.waiting }
        ensures value { option_copied result ≡ first self.now port }
        ensures header { IfSome result (λ frame. HasHeader frame.now) }
    {
        self.waiting[port as usize].first()
    }

    /// The first frame that waits on a port was sent, and is dropped. One waits there, and the port is below the number
    /// of ports. It takes no memory.
    pub fn sent(&mut self, port: u32)
        requires below { port < length self.old.waiting }
        requires waits { 0 < length (list_of self.old.waiting port) }
        ensures { self.new ≡ sent self.old port }
    {
        self.waiting[port as usize].drop_first();
    }

    /// Returns whether two switches are in the same state: of each port the frames that arrived and those that wait,
    /// and the stations in the order in which they were learned. It takes no memory.
    pub fn is_same(&self, other: &Switch) -> bool
        ensures { IsTrue result ↔ (self.now ≡ other.now) }
    {
        self.fdb.is_same(&other.fdb)
            && are_same_queues(&self.inboxes, &other.inboxes)
            && are_same_queues(&self.waiting, &other.waiting)
    }

    /// Returns a switch in the same state.
    ///
    /// # Errors
    ///
    /// [`AllocError`] if memory runs out.
    pub fn copy_of(&self, alloc: Global) -> Result<Switch, AllocError>
        ensures { IfOk result (λ copy. copy ≡ self.now) }
    {
        Ok(Switch {
            alloc,
            inboxes: copies(alloc, &self.inboxes)?,
            waiting: copies(alloc, &self.waiting)?,
            fdb: self.fdb.copy_of(alloc)?,
        })
    }

    /// Returns the port on which a station was seen last, and `None` if and only if it isn't known.
    pub fn lookup(&self, address: [u8; 6]) -> Option<u32>
        ensures { result ≡ lookup self.now.fdb address }
    {
        self.fdb.lookup(&address)
    }
}

impl Model for Switch {
    ghost use Rattle.learn_switch.specs.Frames.{SwitchBytes, IsLearnSwitch};

    ghost Value = { SwitchBytes };

    ghost view = { λ switch. record { inboxes = switch.inboxes.items; waiting = switch.waiting.items; fdb = switch.fdb } };

    ghost invariant = { λ switch. IsLearnSwitch switch.inboxes.items switch.waiting.items switch.fdb };
}

// Returns whether two lists have the same queues, in one order.
fn are_same_queues(queues: &[FrameQueue], others: &[FrameQueue]) -> bool
    ensures { IsTrue result ↔ (queues.now ≡ others.now) }
{
    if queues.len() != others.len() {
        return false;
    }
    for place in 0..queues.len() {
        if !queues[place].is_same(&others[place]) {
            return false;
        }
    }
    true
}

// Returns the addresses of a frame, if it has an Ethernet header.
fn header_of(frame: &Frame) -> Result<Header, Short>
    ensures short { IfErr result (λ short. (length frame.now < ethernet_header) × (short.len ≡ length frame.now)) }
    ensures header { IfOk result (λ header. (ethernet_header ≤ length frame.now) × (header.dst ≡ destination frame.now) × (header.src ≡ source frame.now)) }
{
    let header = decode(frame.bytes())?;
    Ok(header)
}

// Where a frame from a port goes, in a switch with this many ports, once its source is learned.
fn route(fdb: &Fdb, ports: u32, port: u32, header: &Header) -> RelayAnswer
    requires some { 0 < ports }
    requires port { port < ports }
    requires stations { AreBelow ports fdb.now }
    ensures answer { result ≡ forward_answer ports (learned_source fdb.now port header.now.src) port header.now.dst }
    ensures below { GoesBelow ports result }
{
    let everywhere = RelayAnswer::Flood { count: ports - 1 };
    if is_multicast(&header.dst) {
        return everywhere;
    }
    match fdb.lookup_with(&header.src, port, &header.dst) {
        None => everywhere,
        Some(target) if target == port => RelayAnswer::Filtered,
        Some(target) => RelayAnswer::To { port: target },
    }
}

// A copy of a frame from a port joins the waiting frames of the ports that the answer says. If it is out of memory, it
// joins none.
fn forward(
    waiting: &mut Vec<FrameQueue>,
    alloc: Global,
    port: u32,
    frame: &Frame,
    answer: RelayAnswer,
) -> Result<(), AllocError>
    requires { GoesBelow (length waiting.old.items) answer }
    ensures ok { OnOk result (waiting.new.items ≡ forwarded waiting.old.items port frame.now answer) }
    ensures err { OnErr result (waiting.new.items ≡ waiting.old.items) }
    ensures wants { OnErr result (goes_on answer ≡ true) }
    ensures ports { length waiting.new.items ≡ length waiting.old.items }
{
    match answer {
        RelayAnswer::Nothing | RelayAnswer::Short { .. } | RelayAnswer::Filtered => Ok(()),
        RelayAnswer::To { port: target } => waiting[target as usize].push_copy(alloc, frame),
        RelayAnswer::Flood { .. } => {
            push_to_others(waiting.as_mut_slice(), alloc, port as usize, frame)
        }
    }
}
