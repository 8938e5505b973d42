//! A part of a queue that knows how many writes it has, in all and of each class. A class that a write waits for is
//! below 8, and fewer than 2^64 writes are ever in a part.

ghost use Rattle.std.specs.Prelude.{◌≡◌, [], ◌∷◌, ◌++◌, ◌+◌, ◌<◌, ◌≤◌, ◌^◌, length, take, remove, slice_get, min, OnOk, IfNone, IfSome, OnSome, is_none, option_copied};
ghost use Rattle.std.specs.Option.{ForSome};
ghost use Rattle.posted_queue.specs.Rows.{is_held_back};

use crate::Ordered;
use crate::part::Part;
use std::alloc::{AllocError, Global};
use std::marker::{Model, PhantomData};

/// A part with its counts.
#[derive(Drop)]
pub struct Counted<W: Ordered, P: Part<W>> {
    part: P,
    len: usize,
    tally: [usize; 8],
    writes: PhantomData<W>,
}

impl<W: Ordered, P: Part<W>> Counted<W, P> {
    /// Returns a part with no write. It takes no memory yet.
    pub fn empty(alloc: Global) -> Self
        ensures writes { result.writes ≡ [] }
        ensures left { result.left ≡ P.most }
    {
        Counted {
            part: P::empty(alloc),
            len: 0,
            tally: [0; 8],
            writes: PhantomData,
        }
    }

    /// Returns how many writes it has.
    #[inline]
    pub fn len(&self) -> usize
        ensures { result ≡ length self.now.writes }
    {
        self.len
    }

    /// Returns how many writes can be pushed with no further memory.
    #[inline]
    pub fn room(&self) -> usize
        ensures { result ≡ self.now.spare }
    {
        self.part.room()
    }

    /// Returns whether one of its writes has the class that is waited for.
    #[inline]
    pub fn holds_back(&self, waits_for: Option<usize>) -> bool
        requires { ForSome waits_for (λ class. class < 8) }
        ensures { result ≡ is_held_back W.order waits_for self.now.writes }
    {
        match waits_for {
            Some(class) => self.tally[class] > 0,
            None => false,
        }
    }

    /// Returns the write at this place, or `None` past the last.
    #[inline]
    pub fn get(&self, place: usize) -> Option<&W>
        ensures { option_copied result ≡ slice_get self.now.writes place }
    {
        self.part.get(place)
    }

    /// Returns whether a write before this place has the class that is waited for.
    pub fn is_blocked(&self, place: usize, waits_for: Option<usize>) -> bool
        requires there { place < length self.now.writes }
        requires class { ForSome waits_for (λ class. class < 8) }
        ensures { result ≡ is_held_back W.order waits_for (take place self.now.writes) }
    {
        self.part.is_blocked(place, waits_for)
    }

    /// Puts a write after all others, into the room that there is.
    #[inline]
    pub fn push(&mut self, write: W)
        requires room { 0 < self.old.spare }
        requires countable { length self.old.writes + 1 < 2 ^ 64 }
        ensures writes { self.new.writes ≡ self.old.writes ++ write ∷ [] }
        ensures room { self.new.spare + 1 ≡ self.old.spare }
    {
        self.len += 1;
        let class = write.class() as usize;
        self.tally[class] += 1;
        self.part.push(write);
    }

    /// Takes out the first write.
    #[inline]
    pub fn take_first(&mut self) -> W
        requires { 0 < length self.old.writes }
        ensures writes { self.old.writes ≡ result ∷ self.new.writes }
        ensures room { self.old.spare ≤ self.new.spare }
    {
        let write = self.part.take_first();
        self.len -= 1;
        let class = write.class() as usize;
        self.tally[class] -= 1;
        write
    }

    /// Takes out the write at this place, unless it waits for a class and a write of that class stands before it.
    #[inline]
    pub fn take(&mut self, place: usize, waits_for: Option<usize>) -> Option<W>
        requires there { place < length self.old.writes }
        requires class { ForSome waits_for (λ class. class < 8) }
        ensures held_back { is_none result ≡ is_held_back W.order waits_for (take place self.old.writes) }
        ensures rests { IfNone result (self.new ≡ self.old) }
        ensures write { IfSome result (λ write. slice_get self.old.writes place ≡ Some write) }
        ensures writes { OnSome result (self.new.writes ≡ remove self.old.writes place) }
        ensures room { self.old.spare ≤ self.new.spare }
    {
        let write = self.part.take(place, waits_for)?;
        self.len -= 1;
        let class = write.class() as usize;
        self.tally[class] -= 1;
        Some(write)
    }

    /// Makes room for `more` writes, or for as many as the part can take where they are fewer. Returns an error if
    /// memory runs out.
    pub fn reserve(&mut self, more: usize) -> Result<(), AllocError>
        ensures writes { self.new.writes ≡ self.old.writes }
        ensures room { self.old.spare ≤ self.new.spare }
        ensures left { self.new.left ≡ self.old.left }
        ensures ok { OnOk result (min more self.new.left ≤ self.new.spare) }
    {
        self.part.reserve(more)
    }
}

impl<W: Ordered, P: Part<W>> Model for Counted<W, P> {
    ghost use Rattle.posted_queue.specs.Rows.{PartState};
    ghost use Rattle.posted_queue.specs.Counts.{IsCounted};

    ghost Value = { PartState W };

    ghost view = { λ counted. P.state counted.part };

    ghost invariant = { λ counted. IsCounted W.order (P.state counted.part).writes counted.len counted.tally };
}
