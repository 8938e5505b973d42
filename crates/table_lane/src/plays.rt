//! The kinds of step on a lane's table: what each atomic step tells its caller.

use crate::parts::{LaneView, Part};
use atomic_table::{Join, Play, Split};
use std::marker::PhantomData;
use step_kinds::Frame;

/// The sender loads the link word.
pub struct SeesLink;

impl Play<Option<Frame>, LaneView> for SeesLink {
    ghost use Rattle.table_lane.specs.Plays.{sees_link};

    ghost then = { λ _. sees_link };
}

/// The sender loads the index word, and takes the slot of the next entry where there is room.
pub struct SeesIndex;

impl Play<Option<Frame>, LaneView> for SeesIndex {
    ghost use Rattle.table_lane.specs.Plays.{sees_index};

    ghost then = { λ _. sees_index };
}

/// The sender stores a posted header, and its slot is at home with the frame.
pub struct StoresPosted;

impl Play<Option<Frame>, LaneView> for StoresPosted {
    ghost use Rattle.table_lane.specs.Plays.{stores_posted};

    ghost then = { λ _. stores_posted };
}

/// The mover loads a posted header, and takes the slot where it is new.
pub struct SeesPosted;

impl Play<Option<Frame>, LaneView> for SeesPosted {
    ghost use Rattle.table_lane.specs.Plays.{sees_posted};

    ghost then = { λ _. sees_posted };
}

/// The mover stores a header.
pub struct StoresHeader;

impl Play<Option<Frame>, LaneView> for StoresHeader {
    ghost use Rattle.table_lane.specs.Plays.{stores_header};

    ghost then = { λ step. stores_header step.word };
}

/// The mover stores a flag, and the slot is at home.
pub struct StoresFlag;

impl Play<Option<Frame>, LaneView> for StoresFlag {
    ghost use Rattle.table_lane.specs.Plays.{stores_flag};

    ghost then = { λ _. stores_flag };
}

/// The receiver loads a flag, and takes the slot where it is up.
pub struct SeesFlag;

impl Play<Option<Frame>, LaneView> for SeesFlag {
    ghost use Rattle.table_lane.specs.Plays.{sees_flag};

    ghost then = { λ _. sees_flag };
}

/// The receiver loads a header, and has the frame.
pub struct CopiesFrame;

impl Play<Option<Frame>, LaneView> for CopiesFrame {
    ghost use Rattle.table_lane.specs.Plays.{copies_frame};

    ghost then = { λ _. copies_frame };
}

/// The receiver clears a flag, and the slot is at home and empty.
pub struct ClearsFlag;

impl Play<Option<Frame>, LaneView> for ClearsFlag {
    ghost use Rattle.table_lane.specs.Plays.{clears_flag};

    ghost then = { λ _. clears_flag };
}

/// The receiver stores index out.
pub struct StoresIndexOut;

impl Play<Option<Frame>, LaneView> for StoresIndexOut {
    ghost use Rattle.table_lane.specs.Plays.{stores_index_out};

    ghost then = { λ _. stores_index_out };
}

/// The way back loads index out.
pub struct SeesIndexOut;

impl Play<Option<Frame>, LaneView> for SeesIndexOut {
    ghost use Rattle.table_lane.specs.Plays.{sees_index_out};

    ghost then = { λ _. sees_index_out };
}

/// The way back stores the index word.
pub struct StoresIndex;

impl Play<Option<Frame>, LaneView> for StoresIndex {
    ghost use Rattle.table_lane.specs.Plays.{stores_index};

    ghost then = { λ _. stores_index };
}

/// The cut stores the link word.
pub struct CutsLink;

impl Play<Option<Frame>, LaneView> for CutsLink {
    ghost use Rattle.table_lane.specs.Plays.{cuts_link};

    ghost then = { λ _. cuts_link };
}

/// A new seat gets one part, of this kind, and the other parts stay.
pub struct SplitsOff<P> {
    part: PhantomData<P>,
}

impl<P: Part> Split<LaneView> for SplitsOff<P> {
    ghost use Rattle.table_lane.specs.Views.{without, alone};

    ghost left = { without P.kind };

    ghost right = { alone P.kind };
}

/// Two seats become one, which has the parts of both.
pub struct JoinsSeats;

impl Join<LaneView> for JoinsSeats {
    ghost use Rattle.table_lane.specs.Views.{table_joined, no_parts};

    ghost both = { table_joined };

    ghost spent = { no_parts };
}
