//! The posted writes of one direction of a bridge that are in flight: which of them may land, and what then stays.
//!
//! A posted write gets no answer, so a bridge may let some of them overtake others. PCI Express Base 4.0, section 2.4,
//! says which. A write with relaxed ordering may pass each earlier write, a strict one passes none of its own traffic
//! class, and between different traffic classes no order holds.
//!
//! Room for a write is promised before it is posted, so that posting, landing and discarding take no memory.
#![tactic(auto)]

ghost use Rattle.std.specs.Prelude.{◌≡◌, ◌<◌, ◌≤◌, ◌↔◌, ◌==◌, length, map, IsSome, IsOk, OnOk, OnErr, option_copied, slice_get};
ghost use Rattle.order_rules.specs.Order.{Order};

use crate::block_queue::BlockQueue;
use crate::ticket::Ticket;
use slab::Slab;
use std::alloc::{AllocError, Global};
use std::marker::Model;

mod block;
mod block_queue;
mod blocks;
pub mod laws;
mod level;
mod part;
mod part_counts;
mod row;
mod ticket;

/// A posted write that has a kind and a traffic class, by which bridges order it.
pub trait Ordered {
    ghost order: { Self → Order };

    /// Returns the write's kind: [`order_rules::RELAXED`] or [`order_rules::STRICT`].
    fn kind(&self) -> usize
        ensures value { result ≡ (order self.now).kind }
        ensures small { result < 2 };

    /// Returns the write's traffic class, below 8. A write of which nothing is said has class 0.
    fn class(&self) -> u32
        ensures value { result ≡ (order self.now).class }
        ensures small { result < 8 };
}

/// What came of an attempt to land a write.
#[derive(Debug, PartialEq, Eq, Drop)]
pub enum LandAnswer<W> {
    /// This write landed, and is no longer in flight.
    Landed(W),
    /// The write may not pass one of those before it, and stays where it is.
    Blocked,
    /// No write is at that place.
    Nothing,
}

/// The posted writes in flight, in the order in which they were posted, and the room that is promised for more.
///
/// The writes stay where they were put when they were posted, and only their tickets move.
#[derive(Drop)]
pub struct Queue<W: Ordered> {
    tickets: BlockQueue<Ticket>,
    writes: Slab<W>,
}

impl<W: Ordered> Queue<W> {
    ghost use Rattle.order_rules.specs.Order.{may_land};
    ghost use Rattle.posted_queue.specs.Flight.{nothing_in_flight, promised, given_back, posted, discarded};
    ghost use Rattle.posted_queue.specs.Landing.{land_answer, flight_after_landing};

    /// Returns a queue with nothing in flight and no room promised. It takes no memory yet.
    pub fn new(alloc: Global) -> Self
        ensures { result ≡ nothing_in_flight }
    {
        Queue {
            tickets: BlockQueue::new(alloc),
            writes: Slab::new(alloc),
        }
    }

    /// Returns how many writes are in flight.
    #[inline]
    pub fn len(&self) -> usize
        ensures { result ≡ length self.now.writes }
    {
        self.tickets.len()
    }

    /// Returns whether no write is in flight.
    pub fn is_empty(&self) -> bool
        ensures { result ≡ (length self.now.writes == 0) }
    {
        self.len() == 0
    }

    /// Returns how many more writes are promised.
    #[inline]
    pub fn spare(&self) -> usize
        ensures { result ≡ self.now.spare }
    {
        self.tickets.spare()
    }

    /// Returns the write at this place in flight, counted from 0 for the one that was posted first. `None` where no
    /// more than `place` writes are in flight.
    pub fn label_at(&self, place: usize) -> Option<&W>
        ensures write { option_copied result ≡ slice_get self.now.writes place }
        ensures within { IsSome result ↔ (place < length self.now.writes) }
    {
        self.write_at(place)
    }

    /// Returns whether [`Queue::land`] would land the write at this place in flight: it is there, and may pass each
    /// write before it (PCI Express Base 4.0, section 2.4).
    pub fn may_land(&self, place: usize) -> bool
        ensures { result ≡ may_land (map W.order self.now.writes) place }
    {
        self.tickets.may_land(place)
    }

    /// Promises room for `more` writes, on top of those that are promised already.
    ///
    /// Returns an error if memory runs out, never to a promise of 0 writes, and leaves the queue as it was. It comes
    /// also where the queue's blocks can't take that many: they take 67,109,120 writes at most, and fewer where
    /// landings out of order left most of each block empty. If they can, and the machine gives the memory, it never
    /// comes.
    #[inline]
    pub fn promise(&mut self, more: usize) -> Result<(), AllocError>
        ensures ok { OnOk result (self.new ≡ promised self.old more) }
        ensures err { OnErr result (self.new ≡ self.old) }
        ensures had { more ≡ 0 → IsOk result }
    {
        let spare = self.tickets.spare().checked_add(more).ok_or(AllocError)?;
        self.writes.reserve(spare)?;
        self.tickets.promise(more)
    }

    /// Gives back the promise of `count` writes, which are not posted after all. This many must be promised.
    #[inline]
    pub fn give_back(&mut self, count: usize)
        requires { count ≤ self.old.spare }
        ensures { self.new ≡ given_back self.old count }
    {
        self.tickets.give_back(count);
    }

    /// Posts a write after all others, into room that was promised for at least one more. It takes no memory.
    #[inline]
    pub fn push(&mut self, write: W)
        requires { 0 < self.old.spare }
        ensures { self.new ≡ posted self.old write }
    {
        let (kind, class) = (write.kind(), write.class());
        let key = self.writes.insert_reserved(write);
        self.tickets.push(Ticket::new(key, kind, class));
    }

    /// Lands the write at this place in flight, counted from 0 for the one that was posted first. It is taken out and
    /// returned if it may pass each write before it, as one at the front always may. A relaxed write may, and a strict
    /// one may where no write before it has its traffic class (PCI Express Base 4.0, section 2.4).
    ///
    /// [`LandAnswer::Blocked`] comes where it may not, and [`LandAnswer::Nothing`] where no more than `place` writes
    /// are in flight. Both leave the queue as it was. What was promised stays promised.
    ///
    /// It takes a few hundred turns of loops at most, whatever the place and however many writes are in flight, and a
    /// few at the front.
    #[inline]
    pub fn land(&mut self, place: usize) -> LandAnswer<W>
        ensures answer { result ≡ land_answer W.order self.old place }
        ensures after { self.new ≡ flight_after_landing W.order self.old place }
    {
        let ticket = match self.tickets.land(place) {
            LandAnswer::Landed(ticket) => ticket,
            LandAnswer::Blocked => return LandAnswer::Blocked,
            LandAnswer::Nothing => return LandAnswer::Nothing,
        };
        LandAnswer::Landed(self.writes.remove(ticket.key))
    }

    /// Drops all writes in flight. What was promised stays promised.
    pub fn discard(&mut self)
    where
        W: Drop,
        ensures { self.new ≡ discarded self.old }
    {
        self.tickets.discard();
        self.writes.clear();
    }

    // Returns the write that the ticket at this place represents.
    fn write_at(&self, place: usize) -> Option<&W>
        ensures { option_copied result ≡ slice_get self.now.writes place }
    {
        match self.tickets.label_at(place) {
            Some(ticket) => self.writes.get(ticket.key),
            None => None,
        }
    }
}

impl<W: Ordered> Model for Queue<W> {
    ghost use Rattle.posted_queue.specs.Flight.{Flight};
    ghost use Rattle.posted_queue.specs.Tickets.{ticket_flight_of, AreTicketsKept};
    ghost use Rattle.slab.specs.Slab.{HasRoomFor};

    ghost Value = { Flight W };

    ghost view = { λ queue. ticket_flight_of queue.writes.slots queue.tickets };

    ghost invariant = { λ queue. AreTicketsKept W.order queue.writes.slots queue.tickets.writes × HasRoomFor queue.writes queue.tickets.spare };
}
