//! The lowest part of a queue: up to 256 writes in one ring of memory.

ghost use Rattle.std.specs.Prelude.{◌≡◌, ◌≤◌, length, take};
ghost use Rattle.posted_queue.specs.Rows.{is_held_back};

use crate::Ordered;
use crate::part::Part;
use std::alloc::{AllocError, Global};
use std::collections::VecDeque;
use std::marker::Model;

/// How many writes a block holds at most.
pub const BLOCK_MOST: usize = 256;

/// Up to [`BLOCK_MOST`] writes.
#[derive(Drop)]
pub struct Block<W: Ordered> {
    writes: VecDeque<W>,
}

impl<W: Ordered> Model for Block<W> {
    ghost use Rattle.std.specs.Prelude.{◌-◌, ◌≤◌, min};
    ghost use Rattle.std.specs.VecDeque.{deque_len, deque_capacity};
    ghost use Rattle.posted_queue.specs.Rows.{PartState};

    ghost Value = { PartState W };

    ghost view = { λ block. record {
      writes = block.writes.items;
      spare = min 256 (deque_capacity block.writes) - deque_len block.writes;
      left = 256 - deque_len block.writes;
    } };

    ghost invariant = { λ block. deque_len block.writes ≤ 256 };
}

impl<W: Ordered> Part<W> for Block<W> {
    ghost state = { λ block. block };

    ghost most = { 256 };

    fn empty(alloc: Global) -> Self {
        Block {
            writes: VecDeque::new(alloc),
        }
    }

    #[inline]
    fn room(&self) -> usize {
        self.writes.capacity().min(BLOCK_MOST) - self.writes.len()
    }

    #[inline]
    fn get(&self, place: usize) -> Option<&W> {
        self.writes.get(place)
    }

    fn is_blocked(&self, place: usize, waits_for: Option<usize>) -> bool {
        has_class_before(&self.writes, place, waits_for)
    }

    #[inline]
    fn push(&mut self, write: W) {
        self.writes.push_back_reserved(write);
    }

    #[inline]
    fn take_first(&mut self) -> W {
        match self.writes.pop_front() {
            Some(write) => write,
            None => unreachable!(),
        }
    }

    #[inline]
    fn take(&mut self, place: usize, waits_for: Option<usize>) -> Option<W> {
        if has_class_before(&self.writes, place, waits_for) {
            return None;
        }
        self.writes.remove(place)
    }

    fn reserve(&mut self, more: usize) -> Result<(), AllocError> {
        self.writes
            .reserve(more.min(BLOCK_MOST - self.writes.len()))
    }
}

// Returns whether one of the writes before this place has the class that is waited for.
fn has_class_before<W: Ordered>(
    writes: &VecDeque<W>,
    place: usize,
    waits_for: Option<usize>,
) -> bool
    requires { place ≤ length writes.now.items }
    ensures { result ≡ is_held_back W.order waits_for (take place writes.now.items) }
{
    let Some(class) = waits_for else {
        return false;
    };
    for index in 0..place {
        if writes[index].class() as usize == class {
            return true;
        }
    }
    false
}
