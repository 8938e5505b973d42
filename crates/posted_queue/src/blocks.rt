//! The blocks of a queue: one at its front, and levels of them after it. A class that a write waits for is below 8, and
//! fewer than 2^64 writes are ever in them.

ghost use Rattle.std.specs.Prelude.{◌≡◌, [], ◌∷◌, ◌++◌, ◌+◌, ◌<◌, ◌≤◌, ◌^◌, length, take, remove, slice_get, min, IsTrue, ◌↔◌, OnOk, IfNone, IfSome, OnSome, is_none, option_copied};
ghost use Rattle.std.specs.Option.{ForSome};
ghost use Rattle.posted_queue.specs.Rows.{is_held_back};

use crate::Ordered;
use crate::block::Block;
use crate::level::Level;
use crate::part_counts::Counted;
use std::alloc::{AllocError, Global};
use std::marker::Model;

// Three levels of up to 64 parts over blocks of up to 256 writes: some 67 million writes.
type Levels<W> = Level<W, Level<W, Level<W, Block<W>>>>;

/// Writes in the order in which they were posted. While there are few, all of them stand in the front block, and no
/// level counts them.
#[derive(Drop)]
pub struct Blocks<W: Ordered> {
    front: Counted<W, Block<W>>,
    rest: Counted<W, Levels<W>>,
}

impl<W: Ordered> Blocks<W> {
    /// Blocks with no write. They take no memory yet.
    pub fn empty(alloc: Global) -> Self
        ensures { result.writes ≡ [] }
    {
        Blocks {
            front: Counted::empty(alloc),
            rest: Counted::empty(alloc),
        }
    }

    /// Returns how many writes they have.
    #[inline]
    pub fn len(&self) -> usize
        ensures { result ≡ length self.now.writes }
    {
        self.front.len() + self.rest.len()
    }

    /// Returns whether this many writes can be pushed with no further memory.
    #[inline]
    pub fn has_room(&self, count: usize) -> bool
        ensures { IsTrue result ↔ (count ≤ self.now.spare) }
    {
        if self.rest.len() > 0 {
            return count <= self.rest.room();
        }
        let front = self.front.room();
        count <= front || count - front <= self.rest.room()
    }

    /// Returns the write at this place, or `None` past the last.
    #[inline]
    pub fn get(&self, place: usize) -> Option<&W>
        ensures { option_copied result ≡ slice_get self.now.writes place }
    {
        let front = self.front.len();
        if place < front {
            return self.front.get(place);
        }
        self.rest.get(place - front)
    }

    /// Returns whether a write before this place has the class that is waited for.
    pub fn is_blocked(&self, place: usize, waits_for: Option<usize>) -> bool
        requires there { place < length self.now.writes }
        requires class { ForSome waits_for (λ class. class < 8) }
        ensures { result ≡ is_held_back W.order waits_for (take place self.now.writes) }
    {
        let front = self.front.len();
        if place < front {
            return self.front.is_blocked(place, waits_for);
        }
        if self.front.holds_back(waits_for) {
            return true;
        }
        self.rest.is_blocked(place - front, waits_for)
    }

    /// Puts a write after all others, into the room that there is.
    #[inline]
    pub fn push(&mut self, write: W)
        requires room { 0 < self.old.spare }
        requires countable { length self.old.writes + 1 < 2 ^ 64 }
        ensures writes { self.new.writes ≡ self.old.writes ++ write ∷ [] }
        ensures room { self.new.spare + 1 ≡ self.old.spare }
    {
        if self.rest.len() == 0 && self.front.room() > 0 {
            self.front.push(write);
        } else {
            self.rest.push(write);
        }
    }

    /// Takes out the first write.
    #[inline]
    pub fn take_first(&mut self) -> W
        requires { 0 < length self.old.writes }
        ensures writes { self.old.writes ≡ result ∷ self.new.writes }
        ensures room { self.old.spare ≤ self.new.spare }
    {
        if self.front.len() > 0 {
            return self.front.take_first();
        }
        take_first_behind(&mut self.rest)
    }

    /// Takes out the write at this place, unless it waits for a class and a write of that class stands before it.
    #[inline]
    pub fn take(&mut self, place: usize, waits_for: Option<usize>) -> Option<W>
        requires there { place < length self.old.writes }
        requires class { ForSome waits_for (λ class. class < 8) }
        ensures held_back { is_none result ≡ is_held_back W.order waits_for (take place self.old.writes) }
        ensures rests { IfNone result (self.new ≡ self.old) }
        ensures write { IfSome result (λ write. slice_get self.old.writes place ≡ Some write) }
        ensures writes { OnSome result (self.new.writes ≡ remove self.old.writes place) }
        ensures room { self.old.spare ≤ self.new.spare }
    {
        let front = self.front.len();
        if place < front {
            return self.front.take(place, waits_for);
        }
        if self.front.holds_back(waits_for) {
            return None;
        }
        self.rest.take(place - front, waits_for)
    }

    /// Makes room for `more` writes, or for as many as the blocks can take where they are fewer. Returns an error if
    /// memory runs out.
    pub fn reserve(&mut self, more: usize) -> Result<(), AllocError>
        ensures writes { self.new.writes ≡ self.old.writes }
        ensures room { self.old.spare ≤ self.new.spare }
        ensures left { self.new.left ≡ self.old.left }
        ensures ok { OnOk result (min more self.new.left ≤ self.new.spare) }
    {
        if self.rest.len() > 0 {
            return self.rest.reserve(more);
        }
        self.front.reserve(more)?;
        let room = self.front.room();
        if room >= more {
            return Ok(());
        }
        self.rest.reserve(more - room)
    }
}

impl<W: Ordered> Model for Blocks<W> {
    ghost use Rattle.std.specs.Prelude.{◌++◌, ◌<◌, ◌^◌, length};
    ghost use Rattle.posted_queue.specs.Rows.{PartState, queue_joined};

    ghost Value = { PartState W };

    ghost view = { λ blocks. queue_joined blocks.front blocks.rest };

    ghost invariant = { λ blocks. length (blocks.front.writes ++ blocks.rest.writes) < 2 ^ 64 };
}

// Takes the first write out of the levels, apart from the few steps that it takes to take one out of the front block.
#[inline(never)]
fn take_first_behind<W: Ordered>(rest: &mut Counted<W, Levels<W>>) -> W
    requires { 0 < length rest.old.writes }
    ensures writes { rest.old.writes ≡ result ∷ rest.new.writes }
    ensures room { rest.old.spare ≤ rest.new.spare }
{
    rest.take_first()
}
