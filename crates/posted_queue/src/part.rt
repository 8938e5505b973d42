//! What a queue is made of: writes that stand in a row, and room after them for more. A class that a write waits for is
//! below 8, and fewer than 2^64 writes are ever in a part.

ghost use Rattle.std.specs.Prelude.{◌≡◌, ℕ, [], ◌∷◌, ◌++◌, ◌+◌, ◌<◌, ◌≤◌, ◌^◌, length, take, remove, slice_get, min, OnOk, IfNone, IfSome, OnSome, is_none, option_copied};
ghost use Rattle.std.specs.Option.{ForSome};
ghost use Rattle.posted_queue.specs.Rows.{PartState, is_held_back};

use crate::Ordered;
use std::alloc::{AllocError, Global};

/// Writes that stand in a row, and the room after them for more.
pub trait Part<W: Ordered>: Sized {
    ghost state: { Self → PartState W };

    // How many writes an empty part can take.
    ghost most: { ℕ };

    /// Returns a part with no write. It takes no memory yet.
    fn empty(alloc: Global) -> Self
        ensures writes { (state result).writes ≡ [] }
        ensures left { (state result).left ≡ most };

    /// Returns how many writes can be pushed with no further memory.
    fn room(&self) -> usize
        ensures { result ≡ (state self.now).spare };

    /// Returns the write at this place, or `None` past the last.
    fn get(&self, place: usize) -> Option<&W>
        ensures { option_copied result ≡ slice_get (state self.now).writes place };

    /// Returns whether a write before this place has the class that is waited for.
    fn is_blocked(&self, place: usize, waits_for: Option<usize>) -> bool
        requires there { place < length (state self.now).writes }
        requires class { ForSome waits_for (λ class. class < 8) }
        ensures { result ≡ is_held_back W.order waits_for (take place (state self.now).writes) };

    /// Puts a write after all others, into the room that there is.
    fn push(&mut self, write: W)
        requires room { 0 < (state self.old).spare }
        requires countable { length (state self.old).writes + 1 < 2 ^ 64 }
        ensures writes { (state self.new).writes ≡ (state self.old).writes ++ write ∷ [] }
        ensures room { (state self.new).spare + 1 ≡ (state self.old).spare };

    /// Takes out the first write.
    fn take_first(&mut self) -> W
        requires { 0 < length (state self.old).writes }
        ensures writes { (state self.old).writes ≡ result ∷ (state self.new).writes }
        ensures room { (state self.old).spare ≤ (state self.new).spare };

    /// Takes out the write at this place, unless it waits for a class and a write of that class stands before it.
    fn take(&mut self, place: usize, waits_for: Option<usize>) -> Option<W>
        requires there { place < length (state self.old).writes }
        requires class { ForSome waits_for (λ class. class < 8) }
        ensures held_back { is_none result ≡ is_held_back W.order waits_for (take place (state self.old).writes) }
        ensures rests { IfNone result (state self.new ≡ state self.old) }
        ensures write { IfSome result (λ write. slice_get (state self.old).writes place ≡ Some write) }
        ensures writes { OnSome result ((state self.new).writes ≡ remove (state self.old).writes place) }
        ensures room { (state self.old).spare ≤ (state self.new).spare };

    /// Makes room for `more` writes, or for as many as the part can take where they are fewer. Returns an error if
    /// memory runs out.
    fn reserve(&mut self, more: usize) -> Result<(), AllocError>
        ensures writes { (state self.new).writes ≡ (state self.old).writes }
        ensures room { (state self.old).spare ≤ (state self.new).spare }
        ensures left { (state self.new).left ≡ (state self.old).left }
        ensures ok { OnOk result (min more (state self.new).left ≤ (state self.new).spare) };
}
