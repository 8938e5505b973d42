//! The numbers of the writes in flight.

ghost use Rattle.std.specs.Prelude.{◌≡◌, IfOk, OnOk, length};
ghost use Rattle.pair_model.specs.Both.{at_side, with_side};
ghost use Rattle.pair_model.specs.Plans.{no_pair};
ghost use Rattle.trace_command.specs.Writes.{
  no_writes,
  pair_after,
  pair_in,
  pair_start,
  stopped_by,
  with_dropped,
  trace_with_landed,
  trace_with_posted,
  write_at,
  writes_after,
  writes_start,
};

use crate::changes::Change;
use crate::steps::change_in;
use order_rules::RELAXED;
use posted_queue::{Ordered, Queue};
use std::alloc::{AllocError, Global};
use std::marker::Model;
use step_kinds::{Answer, PairPlan, Side, Step};

/// A write in flight: its number, and its traffic class.
#[derive(Clone, Copy)]
pub struct FlyingWrite {
    /// How many writes with a number its side posted before it, over the whole run.
    pub number: u64,
    /// Its traffic class.
    pub class: u32,
}

// A trace asks the queue for its order and for the quick removal of a write alone. Whether a write may land is the
// replay's to say, so here each write may pass all others.
impl Ordered for FlyingWrite {
    ghost order = { λ write. record { kind = 0; class = 0 } };

    fn kind(&self) -> usize {
        RELAXED
    }

    fn class(&self) -> u32 {
        0
    }
}

/// The writes of one side of a pair that weren't lost as they were posted: how many there were, and those in flight
/// with their numbers. Contracts see both.
#[derive(Drop)]
pub struct SideNumbers {
    posted: u64,
    flight: Queue<FlyingWrite>,
}

impl SideNumbers {
    /// No write was posted. It takes no memory yet.
    pub fn new(alloc: Global) -> SideNumbers
        ensures { result ≡ no_writes }
    {
        SideNumbers {
            posted: 0,
            flight: Queue::new(alloc),
        }
    }

    /// Returns how many writes with a number the side posted: the number of the next one.
    pub fn posted(&self) -> u64
        ensures { result ≡ self.now.posted }
    {
        self.posted
    }

    /// Returns how many writes are in flight.
    pub fn in_flight(&self) -> usize
        ensures { result ≡ length self.now.flight }
    {
        self.flight.len()
    }

    /// Returns the write at a place in flight, 0 for the one that was posted first. If none is, its number and its
    /// class are 0.
    pub fn write_at(&self, place: usize) -> FlyingWrite
        ensures { result ≡ write_at self.now.flight place }
    {
        let none = FlyingWrite {
            number: 0,
            class: 0,
        };
        self.flight.label_at(place).copied().unwrap_or(none)
    }

    /// Returns the number of the write that stops the one at a place: the last before it of the same traffic class. It
    /// is 0 where none before it has that class.
    pub fn stopped_by(&self, place: usize) -> u64
        ensures { result ≡ stopped_by self.now.flight place }
    {
        let class = self.write_at(place).class;
        for before in (0..place.min(self.in_flight())).rev() {
            let write = self.write_at(before);
            if write.class == class {
                return write.number;
            }
        }
        0
    }

    // One write more is posted, and is in flight. Out of memory is also the answer where the side has posted 2^64 - 1
    // writes.
    fn post(&mut self, class: u32) -> Result<(), AllocError>
        ensures { OnOk result (self.new ≡ trace_with_posted self.old class) }
    {
        let posted = self.posted.checked_add(1).ok_or(AllocError)?;
        self.flight.promise(1)?;
        self.flight.push(FlyingWrite {
            number: self.posted,
            class,
        });
        self.posted = posted;
        Ok(())
    }

    // The write at a place is no longer in flight.
    fn land(&mut self, place: u32)
        ensures { self.new ≡ trace_with_landed self.old place }
    {
        let _ = self.flight.land(place as usize);
    }

    // No write is in flight any more.
    fn discard(&mut self)
        ensures { self.new ≡ with_dropped self.old }
    {
        self.flight.discard();
    }
}

impl Model for SideNumbers {
    ghost use Rattle.trace_command.specs.Writes.{SideWrites};

    ghost Value = { SideWrites };

    ghost view = { λ side. record { posted = side.posted; flight = side.flight.writes } };
}

/// The link of a pair, and the writes of its two sides. Contracts see whether the link is up, the session, and the
/// writes by their sides.
#[derive(Drop)]
pub struct PairNumbers {
    up: bool,
    session: u32,
    a: SideNumbers,
    b: SideNumbers,
}

impl PairNumbers {
    /// Returns a pair before any step, if its link is declared up or isn't: one that is up is in session 1. It takes no
    /// memory yet.
    pub fn new(alloc: Global, up: bool) -> PairNumbers
        ensures { result ≡ pair_start (record no_pair { up = up }) }
    {
        PairNumbers {
            up,
            session: u32::from(up),
            a: SideNumbers::new(alloc),
            b: SideNumbers::new(alloc),
        }
    }

    /// Returns whether the link is up.
    pub fn up(&self) -> bool
        ensures { result ≡ self.now.up }
    {
        self.up
    }

    /// Returns the session that the pair is in or was in last. It is 0 before the first.
    pub fn session(&self) -> u32
        ensures { result ≡ self.now.session }
    {
        self.session
    }

    /// The writes of a side.
    pub fn side(&self, side: Side) -> &SideNumbers
        ensures { result.now ≡ at_side self.now.sides side }
    {
        match side {
            Side::A => &self.a,
            Side::B => &self.b,
        }
    }

    // One write more is posted by a side, and is in flight.
    fn post(&mut self, side: Side, class: u32) -> Result<(), AllocError>
        ensures { OnOk result (self.new ≡ record self.old { sides = with_side self.old.sides side (trace_with_posted (at_side self.old.sides side) class) }) }
    {
        match side {
            Side::A => self.a.post(class),
            Side::B => self.b.post(class),
        }
    }

    // The write at a place of a side is no longer in flight.
    fn land(&mut self, side: Side, place: u32)
        ensures { self.new ≡ record self.old { sides = with_side self.old.sides side (trace_with_landed (at_side self.old.sides side) place) } }
    {
        match side {
            Side::A => self.a.land(place),
            Side::B => self.b.land(place),
        }
    }

    // The pair after a change. Returns an error if memory runs out or the side has posted 2^64 - 1 writes.
    fn follow(&mut self, change: Change) -> Result<(), AllocError>
        ensures { OnOk result (self.new ≡ pair_after self.old change) }
    {
        match change {
            Change::Trains { session } => {
                self.up = true;
                self.session = session;
            }
            Change::Breaks => self.up = false,
            Change::Drops => {
                self.up = false;
                self.a.discard();
                self.b.discard();
            }
            Change::Posts { side, class } => {
                if self.up {
                    self.post(side, class)?;
                }
            }
            Change::Lands { side, place } => self.land(side, place),
            Change::Loses | Change::Waits { .. } | Change::Nothing => {}
        }
        Ok(())
    }
}

impl Model for PairNumbers {
    ghost use Rattle.trace_command.specs.Writes.{PairWrites};

    ghost Value = { PairWrites };

    ghost view = { λ pair. record { up = pair.up; session = pair.session; sides = record { a = pair.a; b = pair.b } } };
}

/// The writes of all pairs of a plan, with their numbers. Contracts see a list, with the links and the writes of each
/// pair.
#[derive(Drop)]
pub struct WriteNumbers {
    pairs: Vec<PairNumbers>,
    // What represents a pair that isn't there: its link is down, and no write was posted.
    none: PairNumbers,
}

impl WriteNumbers {
    /// No write was posted, and each pair's link is as it is declared. Returns an error if memory runs out.
    pub fn new(alloc: Global, pairs: &[PairPlan]) -> Result<WriteNumbers, AllocError>
        ensures { IfOk result (λ writes. writes ≡ writes_start pairs.now) }
    {
        let mut numbers = Vec::new(alloc);
        for plan in pairs {
            numbers.push(PairNumbers::new(alloc, plan.up))?;
        }
        Ok(WriteNumbers {
            pairs: numbers,
            none: PairNumbers::new(alloc, false),
        })
    }

    /// Returns the pair of this number. If there is none, it is one whose link is down and that posted no write.
    pub fn pair(&self, number: u32) -> &PairNumbers
        ensures { result.now ≡ pair_in self.now number }
    {
        match self.pairs.get(number as usize) {
            Some(pair) => pair,
            None => &self.none,
        }
    }

    /// What a step of a script on these pairs changes, if it was answered so: a write more, a write less, no writes, a
    /// link that is up or isn't. A step on a pair that isn't there changes nothing. Returns an error if memory runs
    /// out, which is also the answer where a side has posted 2^64 - 1 writes.
    pub fn follow(
        &mut self,
        pairs: &[PairPlan],
        step: &Step,
        answer: &Answer,
    ) -> Result<(), AllocError>
        ensures { OnOk result (self.new ≡ writes_after pairs.now self.old step.now answer.now) }
    {
        match self.pairs.get_mut(step.subject() as usize) {
            Some(pair) => pair.follow(change_in(pairs, step, answer)),
            None => Ok(()),
        }
    }
}

impl Model for WriteNumbers {
    ghost use Rattle.std.specs.Prelude.{◌≡◌, List};
    ghost use Rattle.pair_model.specs.Plans.{no_pair};
    ghost use Rattle.trace_command.specs.Writes.{PairWrites, pair_start};

    ghost Value = { List PairWrites };

    ghost view = { λ writes. writes.pairs.items };

    ghost invariant = { λ writes. writes.none ≡ pair_start no_pair };
}
