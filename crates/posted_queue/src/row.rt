//! A row of counted parts: those in use, and after them emptied ones that are kept for later. A class that a write
//! waits for is below 8, and fewer than 2^64 writes are ever in a row.

ghost use Rattle.std.specs.Prelude.{◌≡◌, ◌+◌, ◌-◌, ◌<◌, ◌≤◌, ◌^◌, ◌⊎◌, suc, true, false, [], ◌∷◌, ◌++◌, length, min, take, drop, remove, slice_get, slice_index_or, IfNone, IfSome, OnSome, MatchOption, is_none, vec_len, vec_capacity, OnOk, IfOk};
ghost use Rattle.std.specs.Option.{ForSome};
ghost use Rattle.posted_queue.specs.Rows.{is_held_back, row_writes_in, row_room_in, left_in, part_at, IsRowSpot, KeepsWrites, TakesOut, MovesLast};

use crate::Ordered;
use crate::block::BLOCK_MOST;
use crate::part::Part;
use crate::part_counts::Counted;
use std::alloc::AllocError;

/// How many parts a row has at most.
pub const ROW_MOST: usize = 64;

/// Where a write stands in a row: the number of its part, and its place within that part.
#[derive(Clone, Copy)]
pub struct Spot {
    pub part: usize,
    pub place: usize,
}

/// Where the write at this place stands. `None` past the last write, and where one of the parts before has a write
/// of the class that is waited for.
#[inline]
pub fn find_spot<W: Ordered, P: Part<W>>(
    row: &[Counted<W, P>],
    place: usize,
    waits_for: Option<usize>,
) -> Option<Spot>
    requires { ForSome waits_for (λ class. class < 8) }
    ensures spot { IfSome result (IsRowSpot row.now place) }
    ensures free { IfSome result (λ spot. is_held_back W.order waits_for (row_writes_in (take spot.part row.now)) ≡ false) }
    ensures none { IfNone result ((length (row_writes_in row.now) ≤ place) ⊎ (is_held_back W.order waits_for (take place (row_writes_in row.now)) ≡ true)) }
{
    let mut left = place;
    for (index, part) in row.iter().enumerate() {
        if left < part.len() {
            return Some(Spot {
                part: index,
                place: left,
            });
        }
        if part.holds_back(waits_for) {
            return None;
        }
        left -= part.len();
    }
    None
}

/// Returns the first part that has a write, of a row that has one.
#[inline]
pub fn first_with_write<W: Ordered, P: Part<W>>(row: &[Counted<W, P>]) -> usize
    requires { 0 < length (row_writes_in row.now) }
    ensures { IsRowSpot row.now 0 (record { part = result; place = 0 }) }
{
    let mut index = 0;
    while row[index].len() == 0 {
        index += 1;
    }
    index
}

/// Returns the first part from this one on that has room, if some of these has.
#[inline]
pub fn first_with_room<W: Ordered, P: Part<W>>(row: &[Counted<W, P>], from: usize) -> usize
    requires { 0 < row_room_in (drop from row.now) }
    ensures low { from ≤ result }
    ensures high { result < length row.now }
    ensures room { 0 < (part_at row.now result).spare }
    ensures all { row_room_in (drop result row.now) ≡ row_room_in (drop from row.now) }
{
    let mut index = from;
    while row[index].room() == 0 {
        index += 1;
    }
    index
}

/// How much room the parts from this one on have, or the largest number where they have more.
pub fn room_from<W: Ordered, P: Part<W>>(row: &[Counted<W, P>], from: usize) -> usize
    ensures { result ≡ min usize.MAX (row_room_in (drop from row.now)) }
{
    let mut room: usize = 0;
    for index in from..row.len() {
        room = room.saturating_add(row[index].room());
    }
    room
}

/// Puts a write after those of a part that has room, if the parts after that have no write.
#[inline]
pub fn push_at<W: Ordered, P: Part<W>>(row: &mut Vec<Counted<W, P>>, number: usize, write: W)
    requires there { number < length row.old.items }
    requires room { 0 < (part_at row.old.items number).spare }
    requires behind { row_writes_in (drop (suc number) row.old.items) ≡ [] }
    requires countable { length (row_writes_in row.old.items) + 1 < 2 ^ 64 }
    ensures writes { row_writes_in row.new.items ≡ row_writes_in row.old.items ++ write ∷ [] }
    ensures room { row_room_in (drop number row.new.items) + 1 ≡ row_room_in (drop number row.old.items) }
    ensures behind { row_writes_in (drop (suc number) row.new.items) ≡ [] }
    ensures len { length row.new.items ≡ length row.old.items }
{
    let part = &mut row[number];
    part.push(write);
}

/// A write that was taken out of a row, and the number of the part that it stood in.
pub struct Taken<W> {
    pub write: W,
    pub part: usize,
}

/// Takes out the first write.
#[inline]
pub fn take_first_from<W: Ordered, P: Part<W>>(row: &mut Vec<Counted<W, P>>) -> Taken<W>
    requires { 0 < length (row_writes_in row.old.items) }
    ensures write { slice_get (row_writes_in row.old.items) 0 ≡ Some result.write }
    ensures taken { TakesOut row.old.items row.new.items 0 result.part }
{
    let number = first_with_write(row);
    let part = &mut row[number];
    let write = part.take_first();
    Taken {
        write,
        part: number,
    }
}

/// Takes out the write at this place, unless it waits for a class and a write of that class stands before it.
#[inline]
pub fn take_from<W: Ordered, P: Part<W>>(
    row: &mut Vec<Counted<W, P>>,
    place: usize,
    waits_for: Option<usize>,
) -> Option<Taken<W>>
    requires there { place < length (row_writes_in row.old.items) }
    requires class { ForSome waits_for (λ class. class < 8) }
    ensures held_back { is_none result ≡ is_held_back W.order waits_for (take place (row_writes_in row.old.items)) }
    ensures rests { IfNone result (row.new.items ≡ row.old.items) }
    ensures write { IfSome result (λ taken. slice_get (row_writes_in row.old.items) place ≡ Some taken.write) }
    ensures taken { IfSome result (λ taken. TakesOut row.old.items row.new.items place taken.part) }
{
    let spot = find_spot(row, place, waits_for)?;
    let part = &mut row[spot.part];
    let write = part.take(spot.place, waits_for)?;
    Some(Taken {
        write,
        part: spot.part,
    })
}

/// Makes room for `more` writes in the parts from this one on, or for as many as the row can take there where they are
/// fewer. Parts are added where need be. Returns an error if memory runs out.
pub fn reserve_from<W: Ordered, P: Part<W>>(
    row: &mut Vec<Counted<W, P>>,
    from: usize,
    more: usize,
) -> Result<(), AllocError>
    requires { from ≤ length row.old.items }
    ensures kept { KeepsWrites P.most row.old.items row.new.items }
    ensures ok { OnOk result (min more (left_in P.most (64 - from) (drop from row.new.items)) ≤ row_room_in (drop from row.new.items)) }
{
    let mut room: usize = 0;
    for number in from..ROW_MOST {
        if room >= more {
            return Ok(());
        }
        room = room.saturating_add(reserve_at(row, number, more - room)?);
    }
    Ok(())
}

// Makes room for `more` writes in this part, or for as many as it can take, and says how much room it has. It is added
// where it isn't there. No block is made smaller than it can be.
fn reserve_at<W: Ordered, P: Part<W>>(
    row: &mut Vec<Counted<W, P>>,
    number: usize,
    more: usize,
) -> Result<usize, AllocError>
    requires { number ≤ length row.old.items }
    ensures kept { KeepsWrites P.most row.old.items row.new.items }
    ensures there { OnOk result (number < length row.new.items) }
    ensures room { IfOk result (λ room. room ≡ (part_at row.new.items number).spare) }
    ensures enough { IfOk result (λ room. min more (part_at row.new.items number).left ≤ room) }
{
    add_missing_part(row, number)?;
    let part = &mut row[number];
    part.reserve(more.max(BLOCK_MOST))?;
    Ok(part.room())
}

// Adds an empty part where this one isn't there.
fn add_missing_part<W: Ordered, P: Part<W>>(
    row: &mut Vec<Counted<W, P>>,
    number: usize,
) -> Result<(), AllocError>
    requires { number ≤ length row.old.items }
    ensures kept { KeepsWrites P.most row.old.items row.new.items }
    ensures there { OnOk result (number < length row.new.items) }
{
    if number < row.len() {
        return Ok(());
    }
    row.reserve(1)?;
    let part = Counted::empty(*row.allocator());
    row.push_reserved(part);
    Ok(())
}

/// Moves a part with no write after all others, and says how much room it has.
#[inline(never)]
pub fn move_last<W: Ordered, P: Part<W>>(row: &mut Vec<Counted<W, P>>, number: usize) -> usize
    requires there { number < length row.old.items }
    requires none { (part_at row.old.items number).writes ≡ [] }
    ensures { MovesLast row.old.items row.new.items number result }
{
    let part = row.remove(number);
    let room = part.room();
    row.push_reserved(part);
    room
}
