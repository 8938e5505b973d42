//! Rows of the lane that holds its ring's slots.

ghost use Rattle.std.specs.Prelude.{◌≡◌, ◌<◌, ◌^◌, length, IfOk};
ghost use Rattle.lane_laws.specs.Laws.{IsOpen};

use lane_core::{Begun, Lane, LaneCopy, LaneLand, LaneLook};
use std::alloc::{AllocError, Global};
use step_kinds::{Frame, Label};

// Returns a frame of the byte `a`.
fn one_byte(alloc: Global) -> Result<Frame, AllocError>
    ensures { IfOk result (λ frame. length frame ≡ 1) }
{
    Ok(Frame::of_vec(vec![in alloc; b'a']?))
}

// Posts this many writes, and lands them in order.
fn post_and_land(lane: &mut Lane, writes: u32) {
    for _ in 0..writes {
        lane.post();
    }
    for _ in 0..writes {
        lane.land(0);
    }
}

/// What a lane shows.
#[derive(Clone, Copy)]
pub enum LaneRow {
    /// A frame of one byte, which has five writes, comes whole, and its entry is given back.
    FrameComesWhole,
    /// A link-down entry, which has four writes, is seen at each look.
    LinkDownEntryStays,
    /// A write that is posted on a lost link has its label and never lands.
    LostWriteNeverLands,
}

/// Returns whether a strict lane with a ring of two entries shows what the row says. It may be out of memory.
pub fn is_shown(alloc: Global, row: LaneRow) -> Result<bool, AllocError> {
    let mut lane = Lane::new(alloc, 0, 2, 1011, true)?;
    shows(alloc, &mut lane, row)
}

// Returns whether a lane on which nothing was begun shows it.
fn shows(alloc: Global, lane: &mut Lane, row: LaneRow) -> Result<bool, AllocError>
    requires open { IsOpen lane.old.lane }
    requires few { length lane.old.lane.sent < 2 ^ 46 }
{
    match row {
        LaneRow::FrameComesWhole => goes_round(alloc, lane),
        LaneRow::LinkDownEntryStays => goes_down(lane),
        LaneRow::LostWriteNeverLands => posts_in_vain(alloc, lane),
    }
}

// Returns whether the first frame of a lane is begun, comes whole, and its entry is given back.
fn goes_round(alloc: Global, lane: &mut Lane) -> Result<bool, AllocError>
    requires open { IsOpen lane.old.lane }
    requires few { length lane.old.lane.sent < 2 ^ 46 }
{
    let frame = one_byte(alloc)?;
    let begun = lane.begin(frame)?;
    post_and_land(lane, 5);
    let is_received = receives_it(lane)?;
    Ok(begun == Begun::Ok { number: 0 } && is_received && gives_its_entry_back(lane))
}

// Returns whether the first frame is there, and is copied whole.
fn receives_it(lane: &mut Lane) -> Result<bool, AllocError> {
    let looked = lane.look()?;
    Ok(looked == LaneLook::Ready { number: 0, len: 1 } && is_whole(&lane.copy()))
}

// Returns whether the first frame's flags are cleared, and the index write that gives its entry back is posted and
// lands.
fn gives_its_entry_back(lane: &mut Lane) -> bool {
    let index = Label::Index {
        queue: 0,
        number: 0,
    };
    lane.clear() == Some(0)
        && lane.ack() == Some(0)
        && lane.land_index(0) == LaneLand::Landed(index)
}

fn is_whole(copied: &LaneCopy) -> bool {
    match copied {
        LaneCopy::Whole { number, frame } => *number == 0 && frame.bytes() == b"a".as_slice(),
        LaneCopy::Part { .. } | LaneCopy::OutOfTurn => false,
    }
}

// Returns whether the first entry of a lane is a link-down entry, which is seen twice.
fn goes_down(lane: &mut Lane) -> Result<bool, AllocError>
    requires open { IsOpen lane.old.lane }
    requires few { length lane.old.lane.sent < 2 ^ 46 }
{
    let begun = lane.down()?;
    post_and_land(lane, 4);
    Ok(
        begun == Begun::Ok { number: 0 }
            && lane.look()? == LaneLook::PeerDown
            && lane.look()? == LaneLook::PeerDown,
    )
}

// Returns whether the second write of a lane's first frame is lost with the link.
fn posts_in_vain(alloc: Global, lane: &mut Lane) -> Result<bool, AllocError>
    requires open { IsOpen lane.old.lane }
    requires few { length lane.old.lane.sent < 2 ^ 46 }
{
    let frame = one_byte(alloc)?;
    lane.begin(frame)?;
    lane.post();
    lane.cut();
    lane.drop_all();
    let label = Label::Len {
        queue: 0,
        number: 0,
    };
    Ok(lane.post() == Some(label) && lane.land(0) == LaneLand::Nothing)
}
