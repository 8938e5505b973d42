//! A lane is made: one table, and an end for each part.
ghost use Rattle.std.specs.Prelude.{◌≡◌, ◌≤◌, ◌<◌, [], IfOk};
ghost use Rattle.std.specs.Arc.{arc_value};
ghost use Rattle.step_kinds.specs.Limits.{most_traffic_entries};
ghost use Rattle.table_lane.specs.Views.{all_parts, OfMover, OfReceiver, OfWayBack, OfCut, without, alone};
ghost use Rattle.table_lane.specs.Words.{first_words, table_words_of};
ghost use Rattle.table_lane.specs.NewEnds.{AreNew};
ghost use Rattle.table_lane.specs.Table.{IsTableOf};

use crate::back::{BackEnd, CutEnd};
use crate::board::{Board, LaneSeat, LaneTable, Standing, index_out_word, index_word, words_in};
use crate::mover::MoveEnd;
use crate::parts::{BackPart, CutPart, MovePart, RecvPart};
use crate::plays::SplitsOff;
use crate::recv::RecvEnd;
use crate::send::SendEnd;
use std::alloc::{AllocError, Global};
use std::collections::VecDeque;
use std::sync::Arc;
use step_kinds::FrameList;

// A table, shared by four ends.
type FourTables = (
    Arc<LaneTable, Global>,
    Arc<LaneTable, Global>,
    Arc<LaneTable, Global>,
    Arc<LaneTable, Global>,
);

// Returns the words of a new table: all 0, but both indices name the last position.
fn start_words(alloc: Global, entries: u64) -> Result<Vec<u64>, AllocError>
    requires { (2 ≤ entries) × (entries ≤ most_traffic_entries) }
    ensures { IfOk result (λ words. words.items ≡ table_words_of (first_words entries)) }
{
    let mut words = vec![in alloc; 0; words_in(entries)]?;
    words[index_out_word(entries)] = entries - 1;
    words[index_word(entries)] = entries - 1;
    Ok(words)
}

// Returns a table that shows a new lane, and the seat with all its parts.
fn new_table(alloc: Global, entries: u64) -> Result<(LaneTable, LaneSeat), AllocError>
    requires { (2 ≤ entries) × (entries ≤ most_traffic_entries) }
    ensures { IfOk result (λ t. IsTableOf entries t.0.shared.table_id t.0.shared.key × (t.1.table_id ≡ t.0.shared.table_id) × (t.1.me ≡ (all_parts entries, []))) }
{
    let words = start_words(alloc, entries)?;
    LaneTable::vacant(alloc, &words, entries as usize, &entries)
}

// Returns an empty list with room for this many frames.
fn room_for(alloc: Global, entries: u64) -> Result<FrameList, AllocError>
    requires { entries ≤ most_traffic_entries }
    ensures { IfOk result (λ list. (list.frames ≡ []) × (list.spare ≡ entries)) }
{
    let mut list = FrameList::new(alloc);
    list.promise(entries as usize)?;
    Ok(list)
}

// Returns what four more ends share of a table.
fn four_more(table: &Arc<LaneTable, Global>) -> Result<FourTables, AllocError>
    ensures { IfOk result (λ more. (arc_value more.0 ≡ arc_value table.now) × (arc_value more.1 ≡ arc_value table.now) × (arc_value more.2 ≡ arc_value table.now) × (arc_value more.3 ≡ arc_value table.now)) }
{
    let first = Arc::try_clone(table)?;
    let second = Arc::try_clone(table)?;
    let third = Arc::try_clone(table)?;
    let fourth = Arc::try_clone(table)?;
    Ok((first, second, third, fourth))
}

// Returns the seats of the mover, the receiver, the way back and the cut, split off that of the sender.
fn split_off(board: &Board, send: &mut LaneSeat) -> (LaneSeat, LaneSeat, LaneSeat, LaneSeat)
    requires table { (send.old.table_id ≡ board.now.table_id) × (0 < board.now.table_id.words) }
    ensures table { (send.new.table_id ≡ board.now.table_id) × (result.0.table_id ≡ board.now.table_id) × (result.1.table_id ≡ board.now.table_id) × (result.2.table_id ≡ board.now.table_id) × (result.3.table_id ≡ board.now.table_id) }
    ensures mover { result.0.me ≡ (alone OfMover send.old.me.0, []) }
    ensures recv { result.1.me ≡ (alone OfReceiver (without OfMover send.old.me.0), []) }
    ensures back { result.2.me ≡ (alone OfWayBack (without OfReceiver (without OfMover send.old.me.0)), []) }
    ensures cut { result.3.me ≡ (alone OfCut (without OfWayBack (without OfReceiver (without OfMover send.old.me.0))), []) }
    ensures send { send.new.me ≡ (without OfCut (without OfWayBack (without OfReceiver (without OfMover send.old.me.0))), send.old.me.1) }
{
    let mover = board.split_seat::<SplitsOff<MovePart>>(send);
    let recv = board.split_seat::<SplitsOff<RecvPart>>(send);
    let back = board.split_seat::<SplitsOff<BackPart>>(send);
    let cut = board.split_seat::<SplitsOff<CutPart>>(send);
    (mover, recv, back, cut)
}

/// Makes a lane with a ring of `entries` entries, from 2 to 65,535, of which one always stays free. Its five ends may
/// go to any threads. Returns an error if memory runs out; no other call of the ends takes any.
pub fn make(
    alloc: Global,
    entries: u32,
) -> Result<(SendEnd, MoveEnd, RecvEnd, BackEnd, CutEnd), AllocError>
    requires { (2 ≤ entries) × (entries ≤ most_traffic_entries) }
    ensures { IfOk result (λ ends. AreNew entries ends.0 ends.1 ends.2 ends.3 ends.4) }
{
    let entries = u64::from(entries);
    let waiting = VecDeque::with_capacity(alloc, entries as usize)?;
    let left = room_for(alloc, entries)?;
    let (table, mut seat) = new_table(alloc, entries)?;
    let table = Arc::new(alloc, table)?;
    let (of_mover, of_recv, of_back, of_cut) = four_more(&table)?;
    let (mover, recv, back, cut) = split_off(&table.shared, &mut seat);
    let mover = MoveEnd {
        at: Standing::new(of_mover, mover, entries),
        flagged: 0,
        taken: 0,
        first_position: 0,
        next_position: 0,
        waiting,
    };
    let recv = RecvEnd {
        at: Standing::new(of_recv, recv, entries),
        got: 0,
        position: 0,
        left,
    };
    let back = BackEnd {
        at: Standing::new(of_back, back, entries),
        freed: 0,
        last: entries - 1,
    };
    let cut = CutEnd {
        at: Standing::new(of_cut, cut, entries),
    };
    let at = Standing::new(table, seat, entries);
    let send = SendEnd {
        at,
        sent: 0,
        head: 0,
    };
    Ok((send, mover, recv, back, cut))
}
