//! Whether memories have the same bytes, and queues the same writes in flight: as they are, or once one write has
//! landed.

ghost use Rattle.std.specs.Prelude.{◌≡◌, ◌↔◌, ℕ, ◌+◌, ◌<◌, ◌≤◌, ◌^◌, IsTrue, length, remove, slice_get};
ghost use Rattle.step_kinds.specs.Limits.{most_write_bytes};
ghost use Rattle.host_memory.specs.Memory.{bytes_at, written};

use crate::flying_write::FlyingWrite;
use host_memory::Memory;
use posted_queue::Queue;
use step_kinds::limits::MOST_WRITE_BYTES;

/// Returns whether two queues have the same writes in flight, in one order.
pub fn have_same_writes(one: &Queue<FlyingWrite>, other: &Queue<FlyingWrite>) -> bool
    ensures { IsTrue result ↔ (one.now.writes ≡ other.now.writes) }
{
    one.len() == other.len() && have_same_run(one, 0, other, 0, one.len())
}

/// Returns whether a queue's writes in flight without the one at a place are those of another, in one order.
pub fn have_same_writes_without(
    one: &Queue<FlyingWrite>,
    place: usize,
    other: &Queue<FlyingWrite>,
) -> bool
    requires { place < length one.now.writes }
    ensures { IsTrue result ↔ (remove one.now.writes place ≡ other.now.writes) }
{
    if other.len() != one.len() - 1 || !have_same_run(one, 0, other, 0, place) {
        return false;
    }
    have_same_run(one, place + 1, other, place, other.len() - place)
}

// Returns whether this many writes are the same, from one place on in the one and from another in the other.
fn have_same_run(
    one: &Queue<FlyingWrite>,
    from: usize,
    other: &Queue<FlyingWrite>,
    at: usize,
    count: usize,
) -> bool
    requires from { from + count < 2 ^ 64 }
    requires at { at + count < 2 ^ 64 }
    ensures { IsTrue result ↔ ((k : ℕ) → k < count → slice_get one.now.writes (from + k) ≡ slice_get other.now.writes (at + k)) }
{
    for k in 0..count {
        if !is_same_at(one, from + k, other, at + k) {
            return false;
        }
    }
    true
}

// Returns whether the same write stands at these places of two queues, or none at both.
fn is_same_at(one: &Queue<FlyingWrite>, from: usize, other: &Queue<FlyingWrite>, at: usize) -> bool
    ensures { IsTrue result ↔ (slice_get one.now.writes from ≡ slice_get other.now.writes at) }
{
    match (one.label_at(from), other.label_at(at)) {
        (Some(write), Some(against)) => write.is_same(against),
        (None, None) => true,
        (Some(_), None) | (None, Some(_)) => false,
    }
}

/// Returns whether two memories have the same bytes.
pub fn have_same_bytes(one: &Memory, other: &Memory) -> bool
    ensures { IsTrue result ↔ (one.now.bytes ≡ other.now.bytes) }
{
    one.len() == other.len() && one.has_same_between(other, 0, one.len())
}

/// Returns whether one memory has the bytes of another once these, at most 128, are written to it from an address on.
/// They have to lie in it.
pub fn have_same_bytes_after(one: &Memory, at: u64, bytes: &[u8], other: &Memory) -> bool
    requires within { at + length bytes.now ≤ length one.now.bytes }
    requires few { length bytes.now ≤ most_write_bytes }
    ensures { IsTrue result ↔ (written at bytes.now one.now.bytes ≡ other.now.bytes) }
{
    if one.len() != other.len() || !has_bytes(other, at, bytes) {
        return false;
    }
    prove!(at <= one.len() - bytes.len() as u64);
    one.has_same_between(other, 0, at)
        && one.has_same_between(other, at + bytes.len() as u64, one.len())
}

// Returns whether a memory has these bytes, at most 128, from an address on.
fn has_bytes(memory: &Memory, at: u64, bytes: &[u8]) -> bool
    requires within { at + length bytes.now ≤ length memory.now.bytes }
    requires few { length bytes.now ≤ most_write_bytes }
    ensures { IsTrue result ↔ (bytes_at at (length bytes.now) memory.now.bytes ≡ bytes.now) }
{
    let mut room = [0u8; MOST_WRITE_BYTES];
    let read = &mut room[..bytes.len()];
    memory.read(at, read);
    &*read == bytes
}
