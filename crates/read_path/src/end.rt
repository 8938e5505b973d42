//! One side of a path: its memory, what it has in flight to its peer, and how many reads it made.

ghost use Rattle.std.specs.Prelude.{◌≡◌, ◌+◌, ◌≤◌, length, IfOk, OnOk, OnErr, slice_get};
ghost use Rattle.step_kinds.specs.Limits.{most_write_bytes};
ghost use Rattle.host_memory.specs.Memory.{bytes_at};
ghost use Rattle.read_path.specs.InFlight.{path_may_land};
ghost use Rattle.read_path.specs.Path.{path_answer_for, landing_of, memory_bytes, most_read_bytes};
ghost use Rattle.read_path.specs.Flights.{path_flying_of};
ghost use Rattle.read_path.specs.Ends.{AreEnds, IsPathEnd, IsPathInRange, asks, brings, completions_due, completions_of, path_end_seen, path_fresh_end, from_after, path_posts, promises, reached, stores, to_after};

use crate::PathLand;
use crate::flight::{Flight, InFlight};
use crate::limits::{COMPLETION_BYTES, MEMORY_BYTES};
use host_memory::Memory;
use std::alloc::{AllocError, Global};
use step_kinds::{Frame, InPlace, Items};

/// One side of a path.
#[derive(Drop)]
pub struct End {
    pub memory: Memory,
    pub flight: Flight,
    pub reads: u64,
}

impl End {
    /// Returns a side whose bytes are all 0, with nothing in flight and no read made. Returns an error if memory runs
    /// out.
    pub fn new(alloc: Global) -> Result<End, AllocError>
        ensures fresh { IfOk result (λ end. path_end_seen end ≡ path_fresh_end) }
        ensures whole { IfOk result (λ end. IsPathEnd end) }
    {
        let mut memory = Memory::new(alloc, MEMORY_BYTES)?;
        memory.promise(0, MEMORY_BYTES)?;
        Ok(End {
            memory,
            flight: Flight::new(alloc),
            reads: 0,
        })
    }

    /// Posts a write of 1 to 128 bytes to the address `at` of the peer. Returns an error if memory runs out, and then
    /// nothing changes.
    pub fn post(&mut self, at: u32, bytes: &[u8], relaxed: bool) -> Result<(), AllocError>
        requires some { 1 ≤ length bytes.now }
        requires fits { length bytes.now ≤ most_write_bytes }
        ensures ok { OnOk result (self.new ≡ path_posts self.old at bytes.now relaxed) }
        ensures err { OnErr result (self.new ≡ self.old) }
    {
        self.flight.promise(1)?;
        self.flight.push(InFlight::Write {
            at,
            bytes: InPlace::of_slice(bytes),
            relaxed,
        });
        Ok(())
    }

    /// The bytes from an address on, read into the whole of `out`. All of them lie in the memory, which is whole
    /// (`IsEnd`).
    pub fn read(&self, at: u32, out: &mut [u8])
        requires whole { IsPathEnd self.now }
        requires within { at + length out.old ≤ memory_bytes }
        ensures { out.new ≡ bytes_at at (length out.old) self.now.memory.bytes }
    {
        self.memory.read(u64::from(at), out);
    }

    /// Stores the bytes of a write of the peer.
    fn store(&mut self, at: u32, bytes: &[u8])
        requires whole { IsPathEnd self.old }
        requires within { at + length bytes.now ≤ memory_bytes }
        ensures { self.new ≡ stores self.old at bytes.now }
    {
        self.memory.write(u64::from(at), bytes);
    }

    /// Reads what a request of the peer asks for, and posts the completions, for which room was promised. They are lost
    /// where the link isn't up.
    fn answer(&mut self, number: u64, at: u32, room: Items<u8>, up: bool)
        requires whole { IsPathEnd self.old }
        requires some { 1 ≤ length room }
        requires few { length room ≤ most_read_bytes }
        requires within { at + length room ≤ memory_bytes }
        requires spare { completions_of (length room) ≤ self.old.flight.spare }
        ensures { self.new ≡ brings self.old number at (length room) up }
    {
        let mut bytes = room.into_vec();
        let parts = (bytes.len() - 1) / COMPLETION_BYTES;
        if !up {
            self.flight.give_back(parts + 1);
            return;
        }
        self.read(at, &mut bytes);
        self.flight.push_parts(number, parts);
        self.flight.push(InFlight::Last {
            number,
            frame: Frame::of_vec(bytes),
        });
    }
}

/// One side asks for 1 to 512 bytes of its peer's memory from the address `at` on, and this is the number of its read.
/// Room is taken for the request, for its completions and for the bytes. The error is running out of memory, or the
/// side's 2^64th read, and then nothing changes.
pub fn ask(
    alloc: Global,
    from: &mut End,
    to: &mut End,
    at: u32,
    len: u32,
) -> Result<u64, AllocError>
    requires some { 1 ≤ len }
    requires few { len ≤ most_read_bytes }
    ensures number { IfOk result (λ number. number ≡ from.old.reads) }
    ensures asked { OnOk result (from.new ≡ asks from.old at len) }
    ensures promised { OnOk result (to.new ≡ promises to.old len) }
    ensures err { OnErr result (from.new ≡ from.old) }
    ensures err_peer { OnErr result (to.new ≡ to.old) }
{
    let number = from.reads;
    let next = number.checked_add(1).ok_or(AllocError)?;
    let room = vec![in alloc; 0; len as usize]?;
    let due = (len as usize - 1) / COMPLETION_BYTES + 1;
    to.flight.promise(due)?;
    if from.flight.promise(1).is_err() {
        to.flight.give_back(due);
        return Err(AllocError);
    }
    from.flight.push(InFlight::Request {
        number,
        at,
        room: Items::of_vec(room),
    });
    from.reads = next;
    Ok(number)
}

/// Lands at one side what its peer has in flight at this place. They are the sides of a path (`AreEnds`). It takes no
/// memory.
pub fn land_between(from: &mut End, to: &mut End, up: bool, place: usize) -> PathLand
    requires { AreEnds from.old to.old }
    ensures answer { result ≡ path_answer_for (slice_get from.old.flight.flying place) (path_may_land from.old.flight.flying place) }
    ensures from { from.new ≡ from_after from.old place }
    ensures to { to.new ≡ to_after up from.old to.old place }
    ensures whole { AreEnds from.new to.new }
{
    if place >= from.flight.len() {
        return PathLand::Nothing;
    }
    if !from.flight.may_land(place) {
        return PathLand::Blocked;
    }
    match from.flight.take(place) {
        None => PathLand::Nothing,
        Some(item) => arrive(to, up, item),
    }
}

/// What came off a side's list reaches the peer.
fn arrive(to: &mut End, up: bool, item: InFlight) -> PathLand
    requires whole { IsPathEnd to.old }
    requires in_range { IsPathInRange (path_flying_of item) }
    requires spare { completions_due (path_flying_of item) ≤ to.old.flight.spare }
    ensures answer { result ≡ landing_of (path_flying_of item) }
    ensures to { to.new ≡ reached up to.old (path_flying_of item) }
{
    match item {
        InFlight::Write { at, bytes, .. } => {
            let len = bytes.as_slice().len() as u32;
            to.store(at, bytes.as_slice());
            PathLand::Write { at, len }
        }
        InFlight::Request { number, at, room } => {
            to.answer(number, at, room, up);
            PathLand::Request { number }
        }
        InFlight::Part { number, part } => PathLand::Part { number, part },
        InFlight::Last { number, frame } => PathLand::Whole { number, frame },
    }
}
