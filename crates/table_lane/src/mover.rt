//! The mover's end.
ghost use Rattle.std.specs.Prelude.{◌≡◌, ◌+◌, ◌%◌, ◌<◌, ◌==◌, true, false, List, [], ℕ, length, slice_get, slice_index, slice_index_or, MatchBool, Some};
ghost use Rattle.table_lane.specs.Words.{table_header_of};
ghost use Rattle.table_lane.specs.Knowledge.{table_taken, posted_loaded, frame_taken, header_stored, flag_stored};
ghost use Rattle.table_lane.specs.MoveChoice.{waiting, open_moves, Makes, Moves};
ghost use Rattle.table_lane.specs.declared.mover.MoveAnswer.{MoveAnswer};

use crate::board::{Standing, header_of, position_after};
use crate::steps::{load_posted, store_flag, store_header};
use std::collections::VecDeque;
use std::marker::Model;

/// The end that moves frames: it takes them, stores their headers in any order, and their flags in order, each after
/// its header. It never waits and takes no memory.
///
/// A contract sees its table, and what it knows: the entries that it holds, and its loads.
#[derive(Drop)]
pub struct MoveEnd {
    pub(crate) at: Standing,
    /// The first entry that it holds, and the next one that it takes.
    pub(crate) flagged: u64,
    pub(crate) taken: u64,
    /// Their positions.
    pub(crate) first_position: u64,
    pub(crate) next_position: u64,
    /// The entries that wait for their header, by rising number.
    pub(crate) waiting: VecDeque<u64>,
}

/// Which move the mover made.
#[derive(Clone, Copy, Debug, PartialEq, Eq, Drop)]
pub enum MoveAnswer {
    /// The entry with this number was taken: its slot is with the mover.
    Took { number: u64 },
    /// The header of the entry with this number was stored.
    Header { number: u64 },
    /// The flag of the entry with this number was stored, and its slot is at home with the frame.
    Flag { number: u64 },
    /// Nothing is held, and the posted header that this call loaded was not new.
    Idle,
}

// Returns the choice modulo a count, which it mostly is below.
fn reduced(choice: u64, count: u64) -> u64
    requires { 0 < count }
    ensures { result ≡ choice % count }
{
    if choice < count {
        return choice;
    }
    choice % count
}

impl MoveEnd {
    // Returns how many entries wait for their header.
    fn waiting_count(&self) -> usize
        ensures value { result ≡ length (waiting self.now.part.flagged self.now.part.stored) }
    {
        self.waiting.len()
    }

    // Returns whether an entry is held and the header of the first one is stored.
    fn is_flag_open(&self) -> bool
        ensures { result ≡ slice_index_or self.now.part.stored 0 false }
    {
        match self.waiting.front() {
            Some(first) => *first != self.flagged,
            None => self.flagged < self.taken,
        }
    }

    // Stores the header of the k-th entry that waits for it.
    fn store_waiting(&mut self, k: usize) -> u64
        requires { k < length (waiting self.old.part.flagged self.old.part.stored) }
        ensures lane { self.new.lane ≡ self.old.lane }
        ensures number { result ≡ slice_index (waiting self.old.part.flagged self.old.part.stored) k }
        ensures knows { self.new.part ≡ header_stored self.old.part result }
    {
        let number = self.waiting.remove(k).unwrap();
        let position = position_after(self.at.entries, self.first_position, number - self.flagged);
        let board = &self.at.table.shared;
        store_header(board, &mut self.at.seat, self.at.entries, number, position);
        number
    }

    // Stores the flag of the first held entry, whose header is stored.
    fn store_first(&mut self) -> u64
        requires { slice_index_or self.old.part.stored 0 false ≡ true }
        ensures lane { self.new.lane ≡ self.old.lane }
        ensures number { result ≡ self.old.part.flagged }
        ensures knows { self.new.part ≡ flag_stored self.old.part }
    {
        let number = self.flagged;
        let position = self.first_position;
        let board = &self.at.table.shared;
        store_flag(board, &mut self.at.seat, self.at.entries, position);
        self.flagged = number + 1;
        self.first_position = position_after(self.at.entries, position, 1);
        number
    }

    // Loads the posted header of the next entry, and takes the entry where it is new.
    fn take_posted(&mut self) -> bool
        ensures lane { self.new.lane ≡ self.old.lane }
        ensures found { result ≡ (self.new.part.posted == table_header_of (table_taken self.old.part)) }
        ensures knows { let seen = posted_loaded self.old.part self.new.part.posted in MatchBool result ((frame : List ℕ) × (self.new.part ≡ frame_taken seen frame)) (self.new.part ≡ seen) }
    {
        let number = self.taken;
        let position = self.next_position;
        let board = &self.at.table.shared;
        if load_posted(board, &mut self.at.seat, self.at.entries, position) != header_of(number) {
            return false;
        }
        self.at.seat.turn();
        self.waiting.push_back_reserved(number);
        self.taken = number + 1;
        self.next_position = position_after(self.at.entries, position, 1);
        true
    }

    // Makes the k-th open move.
    fn make(&mut self, k: usize) -> MoveAnswer
        requires { k < length (open_moves self.old.part) }
        ensures lane { self.new.lane ≡ self.old.lane }
        ensures makes { (move : MoveAnswer) → slice_get (open_moves self.old.part) k ≡ Some move → Makes self.old.part move result self.new.part }
    {
        if k < self.waiting_count() {
            let number = self.store_waiting(k);
            return MoveAnswer::Header { number };
        }
        let number = self.store_first();
        MoveAnswer::Flag { number }
    }

    // Stores the flag of the first held entry, and its header before where it waits for it. False where nothing is
    // held.
    fn settle_first(&mut self) -> bool
        ensures lane { self.new.lane ≡ self.old.lane }
        ensures cases { MatchBool result (length self.new.part.held + 1 ≡ length self.old.part.held) ((self.new ≡ self.old) × (self.old.part.held ≡ [])) }
    {
        if self.flagged == self.taken {
            return false;
        }
        if !self.is_flag_open() {
            self.store_waiting(0);
        }
        self.store_first();
        true
    }

    // Stores the headers and the flags of all held entries.
    pub(crate) fn settle(&mut self)
        ensures lane { self.new.lane ≡ self.old.lane }
        ensures nothing_held { self.new.part.held ≡ [] }
    {
        while self.settle_first() {}
    }

    /// Makes one move. The first open moves are the header of each held entry that waits for it, by rising number. The
    /// last one is the flag of the first held entry, if its header is stored. Of these and a load of the next posted
    /// header, the one whose number is `choice` modulo their count is made. If that load shows a new header, the entry
    /// is taken; else the first open move is made, and where there is none the answer is `Idle`.
    pub fn step(&mut self, choice: u64) -> MoveAnswer
        ensures lane { self.new.lane ≡ self.old.lane }
        ensures moves { Moves self.old.part choice result self.new.part }
    {
        let open = self.waiting_count() + usize::from(self.is_flag_open());
        let chosen = reduced(choice, open as u64 + 1) as usize;
        if chosen < open {
            return self.make(chosen);
        }
        let number = self.taken;
        if self.take_posted() {
            return MoveAnswer::Took { number };
        }
        if open == 0 {
            return MoveAnswer::Idle;
        }
        self.make(0)
    }
}

impl Model for MoveEnd {
    ghost use Rattle.table_lane.specs.Ends.{Mover};

    ghost Value = { Mover };

    ghost use Rattle.table_lane.specs.EndFields.{mover_of, IsMoveEnd};

    ghost view = { mover_of };

    ghost invariant = { IsMoveEnd };
}
