//! The order in which writes are in flight, kept in blocks.

ghost use Rattle.std.specs.Prelude.{◌≡◌, ◌<◌, ◌≤◌, ◌↔◌, not, map, take, length, IsSome, IfSome, IsOk, OnOk, OnErr, option_copied, slice_get};
ghost use Rattle.order_rules.specs.Order.{may_land};
ghost use Rattle.posted_queue.specs.Rows.{is_held_back};
ghost use Rattle.posted_queue.specs.Waiting.{class_awaited as awaited};

use crate::blocks::Blocks;
use crate::{LandAnswer, Ordered};
use order_rules::{STRICT, posted_table};
use std::alloc::{AllocError, Global};
use std::marker::Model;

/// Writes in the order in which they were posted, and the room that is promised for more.
#[derive(Drop)]
pub struct BlockQueue<W: Ordered> {
    blocks: Blocks<W>,
    spare: usize,
}

impl<W: Ordered> BlockQueue<W> {
    ghost use Rattle.posted_queue.specs.Flight.{nothing_in_flight, promised, given_back, posted, discarded};
    ghost use Rattle.posted_queue.specs.Landing.{land_answer, flight_after_landing};

    /// Returns a queue with nothing in flight and no room promised. It takes no memory yet.
    pub fn new(alloc: Global) -> Self
        ensures { result ≡ nothing_in_flight }
    {
        BlockQueue {
            blocks: Blocks::empty(alloc),
            spare: 0,
        }
    }

    /// Returns how many writes are in flight.
    #[inline]
    pub fn len(&self) -> usize
        ensures { result ≡ length self.now.writes }
    {
        self.blocks.len()
    }

    /// Returns how many more writes are promised.
    #[inline]
    pub fn spare(&self) -> usize
        ensures { result ≡ self.now.spare }
    {
        self.spare
    }

    /// Returns the write at this place in flight, counted from 0 for the one that was posted first. `None` where no
    /// more than `place` writes are in flight.
    pub fn label_at(&self, place: usize) -> Option<&W>
        ensures write { option_copied result ≡ slice_get self.now.writes place }
        ensures within { IsSome result ↔ (place < length self.now.writes) }
    {
        self.blocks.get(place)
    }

    /// Returns whether the write at this place in flight may land: it is there, and may pass each write before it.
    pub fn may_land(&self, place: usize) -> bool
        ensures { result ≡ may_land (map W.order self.now.writes) place }
    {
        if place >= self.blocks.len() {
            return false;
        }
        let waits_for = class_awaited_at(&self.blocks, place);
        !self.blocks.is_blocked(place, waits_for)
    }

    /// Promises room for `more` writes, on top of those that are promised already.
    ///
    /// Returns an error if memory runs out, never to a promise of 0 writes, and leaves the queue as it was. It comes
    /// also where the blocks can't take that many: they take 67,109,120 writes at most, and fewer where landings out of
    /// order left most of each block empty. If they can, and the machine gives the memory, it never comes.
    #[inline]
    pub fn promise(&mut self, more: usize) -> Result<(), AllocError>
        ensures ok { OnOk result (self.new ≡ promised self.old more) }
        ensures err { OnErr result (self.new ≡ self.old) }
        ensures had { more ≡ 0 → IsOk result }
    {
        let spare = self.spare.checked_add(more).ok_or(AllocError)?;
        self.blocks.len().checked_add(spare).ok_or(AllocError)?;
        if !self.blocks.has_room(spare) {
            make_room(&mut self.blocks, spare)?;
        }
        self.spare = spare;
        Ok(())
    }

    /// Gives back the promise of `count` writes, which are not posted after all. This many must be promised.
    #[inline]
    pub fn give_back(&mut self, count: usize)
        requires { count ≤ self.old.spare }
        ensures { self.new ≡ given_back self.old count }
    {
        self.spare -= count;
    }

    /// Posts a write after all others, into room that was promised for at least one more. It takes no memory.
    #[inline]
    pub fn push(&mut self, write: W)
        requires { 0 < self.old.spare }
        ensures { self.new ≡ posted self.old write }
    {
        self.blocks.push(write);
        self.spare -= 1;
    }

    /// Lands the write at this place in flight, counted from 0 for the one that was posted first. It is taken out and
    /// returned if it may pass each write before it, as one at the front always may. A relaxed write may, and a strict
    /// one may where no write before it has its traffic class (PCI Express Base 4.0, section 2.4).
    ///
    /// [`LandAnswer::Blocked`] comes where it may not, and [`LandAnswer::Nothing`] where no more than `place` writes
    /// are in flight. Both leave the queue as it was. What was promised stays promised.
    ///
    /// It takes a few hundred turns of loops at most, whatever the place and however many writes are in flight, and a
    /// few at the front.
    #[inline]
    pub fn land(&mut self, place: usize) -> LandAnswer<W>
        ensures answer { result ≡ land_answer W.order self.old place }
        ensures after { self.new ≡ flight_after_landing W.order self.old place }
    {
        if place >= self.blocks.len() {
            return LandAnswer::Nothing;
        }
        if place == 0 {
            return LandAnswer::Landed(self.blocks.take_first());
        }
        self.land_behind(place)
    }

    /// Drops all writes in flight. What was promised stays promised.
    pub fn discard(&mut self)
    where
        W: Drop,
        ensures { self.new ≡ discarded self.old }
    {
        while self.blocks.len() > 0 {
            let _write = self.blocks.take_first();
        }
    }

    // Lands a write that may have others before it, which it has to pass.
    #[inline(never)]
    fn land_behind(&mut self, place: usize) -> LandAnswer<W>
        requires { place < length self.old.writes }
        ensures answer { result ≡ land_answer W.order self.old place }
        ensures after { self.new ≡ flight_after_landing W.order self.old place }
    {
        let waits_for = class_awaited_at(&self.blocks, place);
        let Some(write) = self.blocks.take(place, waits_for) else {
            return LandAnswer::Blocked;
        };
        LandAnswer::Landed(write)
    }
}

impl<W: Ordered> Model for BlockQueue<W> {
    ghost use Rattle.std.specs.Prelude.{◌+◌, ◌≤◌, ◌<◌, ◌^◌, length};
    ghost use Rattle.posted_queue.specs.Flight.{Flight};

    ghost Value = { Flight W };

    ghost view = { λ queue. record { writes = queue.blocks.writes; spare = queue.spare } };

    ghost invariant = { λ queue. (queue.spare ≤ queue.blocks.spare) × (length queue.blocks.writes + queue.spare < 2 ^ 64) };
}

// Makes room for this many writes, or answers the error that it answers when out of memory.
#[inline(never)]
fn make_room<W: Ordered>(blocks: &mut Blocks<W>, count: usize) -> Result<(), AllocError>
    ensures writes { blocks.new.writes ≡ blocks.old.writes }
    ensures room { blocks.old.spare ≤ blocks.new.spare }
    ensures ok { OnOk result (count ≤ blocks.new.spare) }
{
    blocks.reserve(count)?;
    if !blocks.has_room(count) {
        return Err(AllocError);
    }
    Ok(())
}

// Returns the class of which the write at this place passes no earlier one: none where it passes all.
fn class_awaited_at<W: Ordered>(blocks: &Blocks<W>, place: usize) -> Option<usize>
    requires { place < length blocks.now.writes }
    ensures lands { not (is_held_back W.order result (take place blocks.now.writes)) ≡ may_land (map W.order blocks.now.writes) place }
    ensures small { IfSome result (λ class. class < 8) }
{
    match blocks.get(place) {
        Some(write) => class_awaited(write),
        None => None,
    }
}

// Returns the class of which this write passes no earlier one: none where it may pass a strict one, and so any.
fn class_awaited<W: Ordered>(write: &W) -> Option<usize>
    ensures class { result ≡ awaited (W.order write.now) }
    ensures small { IfSome result (λ class. class < 8) }
{
    if posted_table().may_pass(write.kind(), STRICT) {
        return None;
    }
    Some(write.class() as usize)
}
