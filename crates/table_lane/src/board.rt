//! The table of a lane, and the numbers of its words.
ghost use Rattle.std.specs.Prelude.{◌≡◌, ◌+◌, ◌*◌, ◌%◌, ◌≤◌, ◌<◌, ℕ, IfOk};
ghost use Rattle.std.specs.Arc.{arc_value};
ghost use Rattle.step_kinds.specs.Limits.{most_traffic_entries};
ghost use Rattle.table_lane.specs.Words.{spacing, index_out_word, index_word, link_word, words_in, table_header_of};

use crate::parts::LaneView;
use crate::rule::LaneRule;
use atomic_table::{Seat, Shared, Table};
use std::alloc::{AllocError, Global};
use std::sync::Arc;
use step_kinds::Frame;

/// The table of a lane: its words, its slots, and the rule over both.
pub(crate) type LaneTable = Table<Option<Frame>, LaneView, u64, LaneRule, Global>;

/// What the ends of a lane share of its table.
pub(crate) type Board = Shared<Option<Frame>, LaneView, u64, LaneRule>;

/// What an end steps with.
pub(crate) type LaneSeat = Seat<Option<Frame>, LaneView>;

/// Where an end stands: at the table of its lane, with a seat, and how many entries the ring has.
#[derive(Drop)]
pub(crate) struct Standing {
    pub(crate) table: Arc<LaneTable, Global>,
    pub(crate) seat: LaneSeat,
    pub(crate) entries: u64,
}

impl Standing {
    /// At a table, with a seat.
    pub(crate) fn new(table: Arc<LaneTable, Global>, seat: LaneSeat, entries: u64) -> Standing
        ensures { (result.table ≡ table) × (result.seat ≡ seat) × (result.entries ≡ entries) }
    {
        Standing {
            table,
            seat,
            entries,
        }
    }
}

/// A flag word of an entry that stands whole.
pub(crate) const DONE: u64 = lane_model::DONE as u64;

/// The link word once the link is cut.
pub(crate) const CUT: u64 = 1;

/// How many words that nobody reads follow each list of words, and each single word.
const SPACING: u64 = 15;

/// Returns the header of entry `n`.
pub(crate) fn header_of(n: u64) -> u64
    ensures { result ≡ table_header_of n }
{
    (1 << 32) + n % (1 << 32)
}

/// Returns the position of entry `n`.
pub(crate) fn position_of(entries: u64, n: u64) -> u64
    requires { 2 ≤ entries }
    ensures { result ≡ n % entries }
{
    n % entries
}

/// The position of the entry that comes this many entries, fewer than the ring has, after one at this position.
pub(crate) fn position_after(entries: u64, position: u64, more: u64) -> u64
    requires { (position < entries) × (more < entries) × (entries ≤ most_traffic_entries) }
    ensures { (n : ℕ) → position ≡ n % entries → result ≡ (n + more) % entries }
{
    let further = position + more;
    if further < entries {
        further
    } else {
        further - entries
    }
}

/// Returns the word that the sender stores for the entry at this position.
pub(crate) fn posted_word(entries: u64, position: u64) -> usize
    requires { position < entries }
    ensures { result ≡ position }
{
    position as usize
}

/// Returns the word that the mover stores for the entry at this position.
pub(crate) fn header_word(entries: u64, position: u64) -> usize
    requires { (position < entries) × (entries ≤ most_traffic_entries) }
    ensures { result ≡ entries + spacing + position }
{
    (entries + SPACING + position) as usize
}

/// Returns the word of the flag of the entry at this position.
pub(crate) fn flag_word(entries: u64, position: u64) -> usize
    requires { (position < entries) × (entries ≤ most_traffic_entries) }
    ensures { result ≡ 2 * (entries + spacing) + position }
{
    (2 * (entries + SPACING) + position) as usize
}

/// Returns the word in which the receiver says how far it has given back.
pub(crate) fn index_out_word(entries: u64) -> usize
    requires { entries ≤ most_traffic_entries }
    ensures { result ≡ index_out_word entries }
{
    (3 * (entries + SPACING)) as usize
}

/// Returns the word in which the sender reads how far the receiver has given back.
pub(crate) fn index_word(entries: u64) -> usize
    requires { entries ≤ most_traffic_entries }
    ensures { result ≡ index_word entries }
{
    index_out_word(entries) + (1 + SPACING) as usize
}

/// Returns the word that says whether the link is cut.
pub(crate) fn link_word(entries: u64) -> usize
    requires { entries ≤ most_traffic_entries }
    ensures { result ≡ link_word entries }
{
    index_word(entries) + (1 + SPACING) as usize
}

/// Returns how many words there are.
pub(crate) fn words_in(entries: u64) -> usize
    requires { entries ≤ most_traffic_entries }
    ensures { result ≡ words_in entries }
{
    link_word(entries) + (1 + SPACING) as usize
}
