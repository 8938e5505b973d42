//! What a script declares: hosts in pairs, devices, switches, the steps of a replay and the traffic of a threaded run.

use crate::frame::Frame;
use crate::items::Items;
use crate::names::{LaneName, Name, Side};
use crate::steps::{Answer, Step};

/// One side of a pair, as it is declared.
#[derive(Clone, Copy, Debug, PartialEq, Eq)]
pub struct SidePlan {
    /// The version of the transport that the side speaks, 3 to 5. Version 3 represents a peer that is refused, 4 has
    /// headers of 12 bytes, and 5, which a pair speaks where both sides declare it, headers of 16 bytes.
    pub version: u32,
    /// The number of queues, 1 to 16.
    pub queues: u32,
    /// The number of translation windows that the side sends through, 1 to 4.
    pub windows: u32,
    /// The size in bytes of each window that the side sends through: 4,096 to 268,435,456, a multiple of 4,096. The
    /// window lies in the peer's memory.
    pub size: u64,
    /// The size in bytes of the largest window that the side's own memory gives, in the same range. The side's memory
    /// has `windows` times `cap` bytes.
    pub cap: u64,
}

/// A pair: two hosts joined by one bridge.
#[derive(Drop)]
pub struct PairPlan {
    /// The pair's name.
    pub name: Name,
    /// Side A, of the first host.
    pub a: SidePlan,
    /// Side B, of the second host.
    pub b: SidePlan,
    /// The largest transfer unit in bytes, 16 to 65,536, and 20 at least where a side has version 5: no entry of a ring
    /// is longer.
    pub mtu: u32,
    /// Whether the pair starts with its link up, as after a whole handshake.
    pub up: bool,
    /// Whether all its posted writes are strict.
    pub strict: bool,
    /// Whether bytes and scratchpads may be written past the transport.
    pub raw: bool,
    /// The traffic class, 0 to 7, of the writes that side A posts for each queue, its index writes among them. No order
    /// holds between posted writes of different classes (PCI Express Base 4.0, section 2.4). Writes of scratchpads and
    /// writes past the transport have class 0.
    pub class_a: [u32; 16],
    /// The same for the writes that side B posts.
    pub class_b: [u32; 16],
}

/// A network device on one queue of one side.
#[derive(Drop)]
pub struct DevPlan {
    /// The device's name.
    pub name: Name,
    /// The number of its pair.
    pub pair: u32,
    /// Its side of the pair.
    pub side: Side,
    /// Its queue.
    pub queue: u32,
    /// Its Ethernet address, the six bytes as they are sent.
    pub address: [u8; 6],
    /// The device stops after a frame of its own that leaves fewer entries of its ring free than these: 0 to 65,535.
    pub stop: u32,
    /// The device can wake where at least these entries are free: at least `stop`, at most 65,535.
    pub start: u32,
}

/// A learning switch of one host: network devices of the host are its ports.
#[derive(Drop)]
pub struct SwitchPlan {
    /// The switch's name.
    pub name: Name,
    /// The numbers of the devices that are its ports, 2 to 16 of them. The ports are numbered from 0 in their order
    /// here.
    pub ports: Items<u32>,
}

/// A step and the line of the script that it comes from, counted from 1.
#[derive(Drop)]
pub struct Line {
    /// The line's number.
    pub line: u32,
    /// The step.
    pub step: Step,
}

/// The answer to a step and the line of the script that the step comes from, counted from 1.
#[derive(Drop)]
pub struct LineAnswer {
    /// The line's number.
    pub line: u32,
    /// The answer.
    pub answer: Answer,
}

/// One item of the traffic of a threaded run.
#[derive(Drop)]
pub enum Traffic {
    /// A frame to be sent on a lane.
    Send {
        /// The lane.
        lane: LaneName,
        /// The frame, of at least one byte and at most the payload of one entry.
        frame: Frame,
    },
    /// One loss of a pair's link.
    Break {
        /// The number of the pair.
        pair: u32,
    },
}

/// What a script declares. Pairs, devices and switches are numbered from 0 in their order here.
#[derive(Drop)]
pub struct Plan {
    /// The pairs.
    pub pairs: Items<PairPlan>,
    /// The network devices.
    pub devs: Items<DevPlan>,
    /// The switches. No device is a port twice.
    pub switches: Items<SwitchPlan>,
    /// The steps of a replay, macros replaced by their steps.
    pub steps: Items<Line>,
    /// The traffic of a threaded run.
    pub traffic: Items<Traffic>,
}

/// The counters of a network device (`ntb_netdev` keeps the same in its statistics).
#[derive(Clone, Copy, Debug, PartialEq, Eq)]
pub struct Counters {
    /// The device's own frames that were taken to be sent: those of [`Step::Xnext`] aren't counted.
    pub tx: u64,
    /// The bytes of these frames.
    pub tx_bytes: u64,
    /// The device's own frames that were refused.
    pub refused: u64,
    /// Frames of at least 14 bytes that were delivered.
    pub rx: u64,
    /// The bytes of these frames.
    pub rx_bytes: u64,
    /// Shorter frames that were delivered.
    pub short: u64,
}

/// What a lane accepted and delivered in a link session, in frames.
#[derive(Clone, Copy, Debug, PartialEq, Eq)]
pub struct LaneCount {
    /// The lane.
    pub name: LaneName,
    /// The link session, from 1.
    pub session: u32,
    /// The frames that were accepted.
    pub accepted: u64,
    /// The frames that were delivered.
    pub delivered: u64,
}
