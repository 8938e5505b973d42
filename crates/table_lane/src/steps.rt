//! The atomic steps, each over the shared table and a seat that has the part which the step needs, whatever other
//! parts it has.
ghost use Rattle.std.specs.Prelude.{◌≡◌, ◌≢◌, ℕ, ◌+◌, ◌-◌, ◌%◌, ◌≤◌, ◌<◌, List, [], ◌∷◌, false, true, length, slice_index_or, Some, None, drop};
ghost use Rattle.atomic_table.specs.Table.{rest};
ghost use Rattle.step_kinds.specs.Limits.{most_frame_bytes};
ghost use Rattle.table_lane.specs.LaneNames.{Idle, Copying, Copied, Cleared, tail_of};
ghost use Rattle.table_lane.specs.Views.{TableBytes, HasSend, HasMove, HasRecv, HasBack, HasCut, the_send, the_move, the_recv, the_back, the_cut, with_send, with_move};
ghost use Rattle.table_lane.specs.Knowledge.{frame_sent, header_stored, table_taken};
ghost use Rattle.table_lane.specs.Rule.{Content};
ghost use Rattle.table_lane.specs.Plays.{sees_link, sees_index, stores_posted, sees_posted, stores_flag, sees_flag, copies_frame, clears_flag, stores_index_out, sees_index_out, stores_index, cuts_link};
ghost use Rattle.table_lane.specs.Words.{cut_word};
ghost use Rattle.table_lane.specs.ShownLane.{most_lane_frames};
ghost use Rattle.table_lane.specs.Table.{IsTableOf, StepTells};

use crate::board::{
    Board, CUT, DONE, LaneSeat, flag_word, header_of, header_word, index_out_word, index_word,
    link_word, posted_word,
};
use crate::plays::{
    ClearsFlag, CopiesFrame, CutsLink, SeesFlag, SeesIndex, SeesIndexOut, SeesLink, SeesPosted,
    StoresFlag, StoresHeader, StoresIndex, StoresIndexOut, StoresPosted,
};
use step_kinds::Frame;

// Returns the sender loads the link word.
pub(crate) fn load_link(table: &Board, seat: &mut LaneSeat, entries: u64) -> u64
    requires table { (seat.old.table_id ≡ table.now.table_id) × IsTableOf entries table.now.table_id table.now.key }
    requires part { HasSend seat.old.me.0 }
    ensures { StepTells sees_link seat.old result seat.new }
{
    table.load::<SeesLink>(seat, link_word(entries))
}

// The sender loads the index word, and takes the slot of the next entry where it shows room.
pub(crate) fn load_index(table: &Board, seat: &mut LaneSeat, entries: u64) -> u64
    requires table { (seat.old.table_id ≡ table.now.table_id) × IsTableOf entries table.now.table_id table.now.key }
    requires part { HasSend seat.old.me.0 × ((the_send seat.old.me.0).claims ≡ false) }
    ensures { StepTells sees_index seat.old result seat.new }
{
    table.load::<SeesIndex>(seat, index_word(entries))
}

// The sender puts a frame into the slot that it has, and stores the posted header of entry `n`.
pub(crate) fn post_frame(
    table: &Board,
    seat: &mut LaneSeat,
    entries: u64,
    n: u64,
    position: u64,
    frame: Frame,
)
    requires table { (seat.old.table_id ≡ table.now.table_id) × IsTableOf entries table.now.table_id table.now.key }
    requires part { HasSend seat.old.me.0 × ((the_send seat.old.me.0).claims ≡ true) × (n ≡ length (the_send seat.old.me.0).sent) × (n < most_lane_frames) }
    requires slot { (position ≡ n % entries) × (seat.old.me.1 ≡ (position, None) ∷ rest seat.old.me.1) }
    requires frame { length frame ≤ most_frame_bytes }
    ensures table { seat.new.table_id ≡ seat.old.table_id }
    ensures knows { seat.new.me ≡ (with_send seat.old.me.0 (frame_sent (the_send seat.old.me.0) frame), rest seat.old.me.1) }
{
    let slot = posted_word(entries, position);
    let _empty = table.exchange(seat, slot, Some(frame));
    table.store::<StoresPosted>(seat, slot, header_of(n));
}

// The mover loads the posted header of the next entry, and takes its slot where it is new.
pub(crate) fn load_posted(table: &Board, seat: &mut LaneSeat, entries: u64, position: u64) -> u64
    requires table { (seat.old.table_id ≡ table.now.table_id) × IsTableOf entries table.now.table_id table.now.key }
    requires part { HasMove seat.old.me.0 × (position ≡ table_taken (the_move seat.old.me.0) % entries) }
    ensures { StepTells sees_posted seat.old result seat.new }
{
    table.load::<SeesPosted>(seat, posted_word(entries, position))
}

// The mover stores the header of entry `n`, which it holds.
pub(crate) fn store_header(table: &Board, seat: &mut LaneSeat, entries: u64, n: u64, position: u64)
    requires table { (seat.old.table_id ≡ table.now.table_id) × IsTableOf entries table.now.table_id table.now.key }
    requires part { HasMove seat.old.me.0 × ((the_move seat.old.me.0).entries ≡ entries) × (position ≡ n % entries) }
    requires held { ((the_move seat.old.me.0).flagged ≤ n) × (n < table_taken (the_move seat.old.me.0)) × (length (the_move seat.old.me.0).held ≤ entries) × (slice_index_or (the_move seat.old.me.0).stored (n - (the_move seat.old.me.0).flagged) false ≡ false) }
    ensures table { seat.new.table_id ≡ seat.old.table_id }
    ensures knows { seat.new.me ≡ (with_move seat.old.me.0 (header_stored (the_move seat.old.me.0) n), seat.old.me.1) }
{
    table.store::<StoresHeader>(seat, header_word(entries, position), header_of(n));
}

// The mover stores the flag of the first entry that it holds, whose header is stored; its slot is then at home.
pub(crate) fn store_flag(table: &Board, seat: &mut LaneSeat, entries: u64, position: u64)
    requires table { (seat.old.table_id ≡ table.now.table_id) × IsTableOf entries table.now.table_id table.now.key }
    requires part { HasMove seat.old.me.0 × (position ≡ (the_move seat.old.me.0).flagged % entries) }
    requires held { (frame : TableBytes) × (seat.old.me.1 ≡ (position, Some frame) ∷ rest seat.old.me.1) × ((the_move seat.old.me.0).held ≡ frame ∷ drop 1 (the_move seat.old.me.0).held) × ((the_move seat.old.me.0).stored ≡ true ∷ drop 1 (the_move seat.old.me.0).stored) }
    ensures { StepTells stores_flag seat.old 1 seat.new }
{
    table.store::<StoresFlag>(seat, flag_word(entries, position), DONE);
}

// The receiver loads the flag of the next entry, and takes its slot where the flag is up.
pub(crate) fn load_flag(table: &Board, seat: &mut LaneSeat, entries: u64, position: u64) -> u64
    requires table { (seat.old.table_id ≡ table.now.table_id) × IsTableOf entries table.now.table_id table.now.key }
    requires part { HasRecv seat.old.me.0 × ((the_recv seat.old.me.0).phase ≡ Idle) × (position ≡ length (the_recv seat.old.me.0).got % entries) }
    ensures { StepTells sees_flag seat.old result seat.new }
{
    table.load::<SeesFlag>(seat, flag_word(entries, position))
}

// The receiver loads the header of the entry that it looks at, and has its frame.
pub(crate) fn load_header(table: &Board, seat: &mut LaneSeat, entries: u64, position: u64) -> u64
    requires table { (seat.old.table_id ≡ table.now.table_id) × IsTableOf entries table.now.table_id table.now.key }
    requires part { HasRecv seat.old.me.0 × ((the_recv seat.old.me.0).phase ≡ Copying) × (position ≡ length (the_recv seat.old.me.0).got % entries) }
    ensures { StepTells copies_frame seat.old result seat.new }
{
    table.load::<CopiesFrame>(seat, header_word(entries, position))
}

// The receiver takes the frame out of its slot, and clears the flag; the slot is then at home and empty.
pub(crate) fn clear_flag(
    table: &Board,
    seat: &mut LaneSeat,
    entries: u64,
    position: u64,
) -> Option<Frame>
    requires table { (seat.old.table_id ≡ table.now.table_id) × IsTableOf entries table.now.table_id table.now.key }
    requires part { HasRecv seat.old.me.0 × ((the_recv seat.old.me.0).phase ≡ Copied) }
    requires position { (n : ℕ) × (n + 1 ≡ length (the_recv seat.old.me.0).got) × (position ≡ n % entries) }
    requires slot { (content : Content) × (seat.old.me.1 ≡ (position, content) ∷ rest seat.old.me.1) }
    ensures table { seat.new.table_id ≡ seat.old.table_id }
    ensures frame { seat.old.me.1 ≡ (position, result) ∷ rest seat.old.me.1 }
    ensures tells { clears_flag seat.old.me 0 seat.new.me }
{
    let frame = table.exchange(seat, posted_word(entries, position), None);
    table.store::<ClearsFlag>(seat, flag_word(entries, position), 0);
    frame
}

// The receiver stores in index out that the entry is given back whose flag it cleared.
pub(crate) fn acknowledge(table: &Board, seat: &mut LaneSeat, entries: u64, position: u64)
    requires table { (seat.old.table_id ≡ table.now.table_id) × IsTableOf entries table.now.table_id table.now.key }
    requires part { HasRecv seat.old.me.0 × ((the_recv seat.old.me.0).phase ≡ Cleared) }
    requires position { (n : ℕ) × (n + 1 ≡ length (the_recv seat.old.me.0).got) × (position ≡ n % entries) }
    ensures { StepTells stores_index_out seat.old 0 seat.new }
{
    table.store::<StoresIndexOut>(seat, index_out_word(entries), position);
}

// Returns the way back loads index out.
pub(crate) fn load_index_out(table: &Board, seat: &mut LaneSeat, entries: u64) -> u64
    requires table { (seat.old.table_id ≡ table.now.table_id) × IsTableOf entries table.now.table_id table.now.key }
    requires part { HasBack seat.old.me.0 }
    ensures { StepTells sees_index_out seat.old result seat.new }
{
    table.load::<SeesIndexOut>(seat, index_out_word(entries))
}

// The way back stores the index that it loaded, which is new.
pub(crate) fn store_index(table: &Board, seat: &mut LaneSeat, entries: u64, index: u64)
    requires table { (seat.old.table_id ≡ table.now.table_id) × IsTableOf entries table.now.table_id table.now.key }
    requires part { HasBack seat.old.me.0 × ((the_back seat.old.me.0).entries ≡ entries) × (index ≡ (the_back seat.old.me.0).index) × (index ≢ tail_of entries (the_back seat.old.me.0).freed) }
    ensures { StepTells stores_index seat.old 0 seat.new }
{
    table.store::<StoresIndex>(seat, index_word(entries), index);
}

// The cut stores the link word.
pub(crate) fn cut_link(table: &Board, seat: &mut LaneSeat, entries: u64)
    requires table { (seat.old.table_id ≡ table.now.table_id) × IsTableOf entries table.now.table_id table.now.key }
    requires part { HasCut seat.old.me.0 }
    ensures { StepTells cuts_link seat.old 1 seat.new }
{
    table.store::<CutsLink>(seat, link_word(entries), CUT);
}
