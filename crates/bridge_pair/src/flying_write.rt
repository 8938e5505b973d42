//! Posted writes in flight.

ghost use Rattle.std.specs.Prelude.{◌≡◌, ◌↔◌, ◌<◌, IfOk, IsTrue};
ghost use Rattle.pair_model.specs.DeclaredPlans.{IsPair};
ghost use Rattle.pair_model.specs.Orders.{order_of};

use crate::flying_bytes::FlyingBytes;
use plan_numbers::{class_among, classes_of, kind_of};
use posted_queue::Ordered;
use std::alloc::{AllocError, Global};
use std::marker::Model;
use step_kinds::{Label, PairPlan, Side};

/// Where a write in flight arrives.
#[derive(Drop)]
pub enum Arrival {
    /// In the peer's memory, from an address on.
    AtAddress { at: u64, bytes: FlyingBytes },
    /// At a scratchpad of the peer.
    AtPad { index: u32, value: u32 },
    /// At a bit of the peer's doorbell.
    AtBell { bit: u32 },
}

impl Arrival {
    /// Returns the same arrival. Returns an error if memory runs out.
    pub fn copy_of(&self, alloc: Global) -> Result<Arrival, AllocError>
        ensures { IfOk result (λ copy. copy ≡ self.now) }
    {
        match self {
            Arrival::AtAddress { at, bytes } => Ok(Arrival::AtAddress {
                at: *at,
                bytes: bytes.copy_of(alloc)?,
            }),
            Arrival::AtPad { index, value } => Ok(Arrival::AtPad {
                index: *index,
                value: *value,
            }),
            Arrival::AtBell { bit } => Ok(Arrival::AtBell { bit: *bit }),
        }
    }

    /// Returns whether two writes arrive at the same place, with the same bytes or value.
    pub fn is_same(&self, other: &Arrival) -> bool
        ensures { IsTrue result ↔ (self.now ≡ other.now) }
    {
        match (self, other) {
            (
                Arrival::AtAddress { at, bytes },
                Arrival::AtAddress {
                    at: place,
                    bytes: others,
                },
            ) => { at == place && bytes.as_slice() == others.as_slice() }
            (
                Arrival::AtPad { index, value },
                Arrival::AtPad {
                    index: pad,
                    value: word,
                },
            ) => { index == pad && value == word }
            (Arrival::AtBell { bit }, Arrival::AtBell { bit: rung }) => bit == rung,
            (Arrival::AtAddress { .. }, Arrival::AtPad { .. } | Arrival::AtBell { .. })
            | (Arrival::AtPad { .. }, Arrival::AtAddress { .. } | Arrival::AtBell { .. })
            | (Arrival::AtBell { .. }, Arrival::AtAddress { .. } | Arrival::AtPad { .. }) => false,
        }
    }
}

/// A write in flight: its label, how bridges order it, and where it arrives.
#[derive(Drop)]
pub struct FlyingWrite {
    pub label: Label,
    kind: u32,
    class: u32,
    pub arrival: Arrival,
}

impl Ordered for FlyingWrite {
    ghost use Rattle.bridge_pair.specs.Flights.{flying_order};

    ghost order = { flying_order };

    #[inline]
    fn kind(&self) -> usize {
        self.kind as usize
    }

    #[inline]
    fn class(&self) -> u32 {
        self.class
    }
}

impl FlyingWrite {
    /// Returns a side's write with this label, which arrives there at its peer.
    #[inline]
    pub fn new(plan: &PairPlan, side: Side, label: Label, arrival: Arrival) -> FlyingWrite
        requires { IsPair plan.now }
        ensures { result ≡ record { label = label; order = order_of plan.now side label; arrival = arrival } }
    {
        FlyingWrite {
            label,
            kind: kind_of(plan.strict, label) as u32,
            class: class_among(classes_of(plan, side), label),
            arrival,
        }
    }

    /// Returns a write with the same label and order, which arrives alike. Returns an error if memory runs out.
    pub fn copy_of(&self, alloc: Global) -> Result<FlyingWrite, AllocError>
        ensures { IfOk result (λ copy. copy ≡ self.now) }
    {
        Ok(FlyingWrite {
            label: self.label,
            kind: self.kind,
            class: self.class,
            arrival: self.arrival.copy_of(alloc)?,
        })
    }

    /// Returns whether two writes have the same label and order, and arrive alike.
    pub fn is_same(&self, other: &FlyingWrite) -> bool
        ensures { IsTrue result ↔ (self.now ≡ other.now) }
    {
        self.label == other.label
            && self.kind == other.kind
            && self.class == other.class
            && self.arrival.is_same(&other.arrival)
    }
}

impl Model for FlyingWrite {
    ghost use Rattle.std.specs.Prelude.{◌<◌};
    ghost use Rattle.bridge_pair.specs.Flights.{Flying};

    ghost Value = { Flying };

    ghost view = { λ write. record { label = write.label; order = record { kind = write.kind; class = write.class }; arrival = write.arrival } };

    ghost invariant = { λ write. (write.kind < 2) × (write.class < 8) };
}
