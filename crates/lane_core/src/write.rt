//! Posted writes of a lane and the order in which they may land.

ghost use Rattle.std.specs.Prelude.{◌≡◌, ◌+◌, ◌-◌, ◌<◌, ◌≤◌, [], ◌∷◌, ◌++◌, length, if◌then◌else◌};
ghost use Rattle.std.specs.VecDeque.{deque_len, deque_capacity};
ghost use Rattle.lane_model.specs.Lane.{bytes_of, chunks_in, writes_of};
ghost use Rattle.lane_core.specs.Parts.{entry_seen, core_flags_landed};

use crate::entry::Entry;
use lane_model::{Field, Write};
use order_rules::{RELAXED, STRICT};
use posted_queue::{Ordered, Queue};
use std::collections::VecDeque;

/// A write in flight towards the receiver.
#[derive(Clone, Copy)]
pub struct PostedWrite {
    pub mark: Write,
    pub strict: bool,
}

impl Ordered for PostedWrite {
    ghost use Rattle.lane_core.specs.Calls.{order_of_mark};

    ghost order = { λ write. order_of_mark write.strict write.mark };

    fn kind(&self) -> usize {
        match self.mark {
            Write::Data { .. } if !self.strict => RELAXED,
            _ => STRICT,
        }
    }

    fn class(&self) -> u32 {
        0
    }
}

/// An index write in flight back to the sender: the number of the entry that it gives back.
#[derive(Clone, Copy)]
pub struct IndexWrite {
    pub number: u64,
}

impl Ordered for IndexWrite {
    ghost use Rattle.lane_core.specs.Calls.{index_order};

    ghost order = { λ _. index_order };

    fn kind(&self) -> usize {
        STRICT
    }

    fn class(&self) -> u32 {
        0
    }
}

/// Posts a write in room that was promised for it, or loses it where the link is not `up`.
pub fn post<W: Ordered + Drop>(flight: &mut Queue<W>, up: bool, write: W)
    requires { 0 < flight.old.spare }
    ensures writes { flight.new.writes ≡ (if up then flight.old.writes ++ write ∷ [] else flight.old.writes) }
    ensures spare { flight.new.spare ≡ flight.old.spare - 1 }
{
    if up {
        flight.push(write);
    } else {
        flight.give_back(1);
    }
}

/// Puts the writes of an entry after those that are left to post, in room that was reserved.
pub fn fill_todo(todo: &mut VecDeque<Write>, number: u64, entry: &Entry)
    requires { deque_len todo.old + chunks_in (length (bytes_of (entry_seen entry.now))) + 4 ≤ deque_capacity todo.old }
    ensures { todo.new.items ≡ todo.old.items ++ writes_of number (entry_seen entry.now) }
{
    for part in 0..entry.chunks() {
        todo.push_back_reserved(Write::Data {
            number,
            field: Field::Chunk { part },
        });
    }
    todo.push_back_reserved(Write::Data {
        number,
        field: Field::Length,
    });
    todo.push_back_reserved(Write::Data {
        number,
        field: Field::Version,
    });
    todo.push_back_reserved(Write::Flag { number });
    todo.push_back_reserved(Write::Bell);
}

/// Returns how many entries have their flags landed by this write: one, if it is an entry's flags.
pub fn landed_flags(mark: Write) -> u64
    ensures { result ≡ core_flags_landed mark }
{
    match mark {
        Write::Flag { .. } => 1,
        _ => 0,
    }
}
