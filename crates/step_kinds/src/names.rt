//! Sides of a pair, names of hosts, pairs, devices and switches, and names of lanes.

ghost use Rattle.std.specs.Prelude.{◌≡◌, ◌≤◌, length};
ghost use Rattle.step_kinds.specs.Sides.{other_side, same_lane, same_side};

use crate::in_place::InPlace;
use std::marker::Model;

/// One of the two sides of a pair, which are joined by one bridge.
#[derive(Clone, Copy, Debug, PartialEq, Eq)]
pub enum Side {
    /// The side of the first host that the pair names.
    A,
    /// The side of the second host that the pair names.
    B,
}

impl Side {
    /// Returns the other side of the pair: the side's peer.
    pub fn other(self) -> Side
        ensures { result ≡ other_side self }
    {
        match self {
            Side::A => Side::B,
            Side::B => Side::A,
        }
    }

    /// Returns whether this is that side.
    pub fn is(self, other: Side) -> bool
        ensures { result ≡ same_side self other }
    {
        match (self, other) {
            (Side::A, Side::A) | (Side::B, Side::B) => true,
            (Side::A, Side::B) | (Side::B, Side::A) => false,
        }
    }
}

/// A lane: the way of frames from one side of a pair to the other through one queue (a queue pair of
/// `Documentation/driver-api/ntb.rst` has one lane in each direction).
#[derive(Clone, Copy, Debug, PartialEq, Eq)]
pub struct LaneName {
    /// The number of the pair, in order of declaration from 0.
    pub pair: u32,
    /// The side that sends.
    pub from: Side,
    /// The number of the queue, from 0.
    pub queue: u32,
}

impl LaneName {
    /// Returns whether this is that lane.
    pub fn is(self, other: LaneName) -> bool
        ensures { result ≡ same_lane self other }
    {
        self.pair == other.pair && self.from.is(other.from) && self.queue == other.queue
    }
}

/// A name of 1 to 16 bytes, kept in place. Contracts see its list of bytes.
#[derive(Drop)]
pub struct Name {
    kept: InPlace<16>,
}

impl Name {
    /// Returns the name of these 1 to 16 bytes.
    pub fn of_bytes(bytes: &[u8]) -> Name
        requires some { 1 ≤ length bytes.now }
        requires fits { length bytes.now ≤ 16 }
        ensures { result ≡ bytes.now }
    {
        Name {
            kept: InPlace::of_slice(bytes),
        }
    }

    /// Returns the 1 to 16 bytes of the name.
    pub fn bytes(&self) -> &[u8]
        ensures value { result.now ≡ self.now }
        ensures some { 1 ≤ length result.now }
        ensures fits { length result.now ≤ 16 }
    {
        self.kept.as_slice()
    }
}

impl Model for Name {
    ghost use Rattle.std.specs.Prelude.{ℕ, List};

    ghost Value = { List ℕ };

    ghost view = { λ name. name.kept };
}
