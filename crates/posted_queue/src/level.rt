//! A part of a queue that is made of parts.

use crate::Ordered;
use crate::part::Part;
use crate::part_counts::Counted;
use crate::row::{
    Taken, find_spot, first_with_room, move_last, push_at, reserve_from, room_from,
    take_first_from, take_from,
};
use std::alloc::{AllocError, Global};
use std::marker::Model;

/// A row of up to [`ROW_MOST`](crate::row::ROW_MOST) parts.
#[derive(Drop)]
pub struct Level<W: Ordered, P: Part<W>> {
    row: Vec<Counted<W, P>>,
    last: usize,
    room: usize,
}

impl<W: Ordered, P: Part<W>> Level<W, P> {
    ghost use Rattle.std.specs.Prelude.{◌≡◌, ◌≤◌};

    // Moves a part that has no write any more after all others, if it is given before the last one in use.
    #[inline]
    fn move_emptied(&mut self, part: usize)
        ensures writes { self.new.writes ≡ self.old.writes }
        ensures room { self.old.spare ≤ self.new.spare }
    {
        if part < self.last && self.row[part].len() == 0 {
            let room = move_last(&mut self.row, part);
            self.room = self.room.saturating_add(room);
            self.last -= 1;
        }
    }
}

impl<W: Ordered, P: Part<W>> Model for Level<W, P> {
    ghost use Rattle.std.specs.Prelude.{◌-◌, drop};
    ghost use Rattle.posted_queue.specs.Rows.{PartState, row_writes_in, left_in};
    ghost use Rattle.posted_queue.specs.Levels.{IsLevel};

    ghost Value = { PartState W };

    ghost view = { λ level. record {
      writes = row_writes_in level.row.items;
      spare = level.room;
      left = left_in P.most (64 - level.last) (drop level.last level.row.items);
    } };

    ghost invariant = { λ level. IsLevel level.row.items level.last level.room };
}

impl<W: Ordered, P: Part<W>> Part<W> for Level<W, P> {
    ghost use Rattle.std.specs.Prelude.{[]};
    ghost use Rattle.posted_queue.specs.Rows.{left_in};

    ghost state = { λ level. level };

    ghost most = { left_in {W = W} P.most 64 [] };

    fn empty(alloc: Global) -> Self {
        Level {
            row: Vec::new(alloc),
            last: 0,
            room: 0,
        }
    }

    #[inline]
    fn room(&self) -> usize {
        self.room
    }

    #[inline]
    fn get(&self, place: usize) -> Option<&W> {
        let spot = find_spot(&self.row, place, None)?;
        self.row[spot.part].get(spot.place)
    }

    fn is_blocked(&self, place: usize, waits_for: Option<usize>) -> bool {
        match find_spot(&self.row, place, waits_for) {
            Some(spot) => self.row[spot.part].is_blocked(spot.place, waits_for),
            None => true,
        }
    }

    #[inline]
    fn push(&mut self, write: W) {
        self.last = first_with_room(&self.row, self.last);
        push_at(&mut self.row, self.last, write);
        self.room -= 1;
    }

    #[inline]
    fn take_first(&mut self) -> W {
        let Taken { write, part } = take_first_from(&mut self.row);
        self.move_emptied(part);
        write
    }

    #[inline]
    fn take(&mut self, place: usize, waits_for: Option<usize>) -> Option<W> {
        let Taken { write, part } = take_from(&mut self.row, place, waits_for)?;
        self.move_emptied(part);
        Some(write)
    }

    fn reserve(&mut self, more: usize) -> Result<(), AllocError> {
        let outcome = reserve_from(&mut self.row, self.last, more);
        self.room = room_from(&self.row, self.last);
        outcome
    }
}
