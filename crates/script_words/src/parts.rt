//! The parts of a script, and the sides and queues that its lines name.

use step_kinds::{Name, Side};

/// The part of a script that a line stands in.
#[derive(Clone, Copy, Debug, PartialEq, Eq)]
pub enum Part {
    /// Hosts, pairs, devices, classes and switches.
    Declarations,
    /// Steps and macros.
    Steps,
    /// The traffic of a threaded run.
    Traffic,
}

/// A side of a pair.
#[derive(Clone, Copy, Debug, PartialEq, Eq)]
pub struct SideName {
    /// The number of the pair.
    pub pair: u32,
    /// The side.
    pub side: Side,
}

/// A queue of one side of a pair.
#[derive(Clone, Copy, Debug, PartialEq, Eq)]
pub struct QueueName {
    /// The number of the pair.
    pub pair: u32,
    /// The side.
    pub side: Side,
    /// The queue's number.
    pub queue: u32,
}

/// The hosts of a pair, by their names. Network devices of one host can be ports of one switch.
#[derive(Drop)]
pub struct PairHosts {
    /// The host of side A.
    pub a: Name,
    /// The host of side B.
    pub b: Name,
}
