//! The way back, and the cut.
ghost use Rattle.std.specs.Prelude.{◌≡◌, ◌≢◌, ◌+◌, ◌≤◌, ◌<◌, ◌^◌};
ghost use Rattle.step_kinds.specs.Limits.{most_traffic_entries};
ghost use Rattle.table_lane.specs.ShownLane.{number_at, most_lane_frames};
ghost use Rattle.table_lane.specs.LaneNames.{tail_of};
ghost use Rattle.table_lane.specs.Knowledge.{link_cut};
ghost use Rattle.table_lane.specs.RecvAnswers.{GivesBack};

use crate::board::Standing;
use crate::steps::{cut_link, load_index_out, store_index};
use std::marker::Model;

/// The end that brings indices back to the sender. It never waits and takes no memory.
///
/// A contract sees its table, and what it knows: how many entries were given back, and its loads.
#[derive(Drop)]
pub struct BackEnd {
    pub(crate) at: Standing,
    pub(crate) freed: u64,
    /// The position of the last entry that was given back.
    pub(crate) last: u64,
}

/// The end that cuts the link.
///
/// A contract sees its table, and whether the link was cut.
#[derive(Drop)]
pub struct CutEnd {
    pub(crate) at: Standing,
}

/// What came of a step of the way back.
#[derive(Clone, Copy, Debug, PartialEq, Eq, Drop)]
pub enum BackAnswer {
    /// The index word was stored: the entries up to the one with this number are given back to the sender.
    Index { number: u64 },
    /// The index out that this call loaded was not new.
    Idle,
}

// Returns the number of the entry from `freed` on at this position, which isn't that of the last entry that was given
// back.
fn number_at(entries: u64, freed: u64, last: u64, position: u64) -> u64
    requires ring { (2 ≤ entries) × (entries ≤ most_traffic_entries) × (freed ≤ most_lane_frames) }
    requires new { (position < entries) × (position ≢ last) × (last ≡ tail_of entries freed) }
    ensures value { result ≡ number_at entries freed position }
    ensures small { result < 2 ^ 63 }
    ensures newest { position ≡ tail_of entries (result + 1) }
{
    if position > last {
        freed + (position - last) - 1
    } else {
        freed + (position + entries - last) - 1
    }
}

impl BackEnd {
    /// Loads index out, and stores it in the index word where it is new: the sender then has the entries up to the
    /// one that it names.
    pub fn step(&mut self) -> BackAnswer
        ensures lane { self.new.lane ≡ self.old.lane }
        ensures gives_back { GivesBack self.old.part result self.new.part }
    {
        let board = &self.at.table.shared;
        let index = load_index_out(board, &mut self.at.seat, self.at.entries);
        if index == self.last {
            return BackAnswer::Idle;
        }
        let number = number_at(self.at.entries, self.freed, self.last, index);
        store_index(board, &mut self.at.seat, self.at.entries, index);
        self.freed = number + 1;
        self.last = index;
        BackAnswer::Index { number }
    }
}

impl Model for BackEnd {
    ghost use Rattle.table_lane.specs.Ends.{WayBack};

    ghost Value = { WayBack };

    ghost use Rattle.table_lane.specs.EndFields.{way_back_of, IsBackEnd};

    ghost view = { way_back_of };

    ghost invariant = { IsBackEnd };
}

impl CutEnd {
    /// Cuts the link for good: later loads of the link word show it, and later frames are refused. All else goes on.
    pub fn cut(&mut self)
        ensures lane { self.new.lane ≡ self.old.lane }
        ensures cuts { self.new.part ≡ link_cut self.old.part }
    {
        cut_link(&self.at.table.shared, &mut self.at.seat, self.at.entries);
    }
}

impl Model for CutEnd {
    ghost use Rattle.table_lane.specs.Ends.{Cutter};

    ghost Value = { Cutter };

    ghost use Rattle.table_lane.specs.EndFields.{cutter_of, IsCutEnd};

    ghost view = { cutter_of };

    ghost invariant = { IsCutEnd };
}
