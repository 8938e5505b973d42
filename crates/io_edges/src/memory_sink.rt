//! A sink in memory with a fixed room, which takes small pieces and fails where it is told to.
ghost use Rattle.std.specs.Prelude.{◌≡◌, ◌+◌, ◌<◌, ◌≤◌, [], length, IfOk, Some};
ghost use Rattle.io_edges.specs.Causes.{HasCause};
ghost use Rattle.io_edges.specs.Streams.{Writes};
ghost use Rattle.io_edges.specs.MemorySink.{WritesExactly};

use crate::plan::FaultPlan;
use crate::{Failed, Sink};
use std::alloc::{AllocError, Global};
use std::marker::Model;

/// A sink in memory that holds at most this many bytes and takes at most this many at a write. It fails at the writes
/// with these numbers, and where it can take nothing of a piece that isn't empty.
#[derive(Drop)]
pub struct MemorySink {
    bytes: Vec<u8>,
    room: usize,
    piece: usize,
    plan: FaultPlan,
}

impl MemorySink {
    /// Returns an empty sink for `room` bytes, which are reserved here. `piece` is the most bytes that a write takes,
    /// and `fails` has the numbers of the writes that fail, if the first is 0. Each of them raises the count of faults,
    /// and so does a write that can take nothing of a piece that isn't empty.
    ///
    /// # Errors
    ///
    /// Where there is no memory for `room` bytes.
    pub fn new(
        alloc: Global,
        room: usize,
        piece: usize,
        fails: Vec<u64>,
    ) -> Result<MemorySink, AllocError>
        ensures { IfOk result (λ sink. sink ≡ record {
          held = [];
          room = room;
          piece = piece;
          plan = record { fails = fails.items; calls = 0; faults = 0 };
        }) }
    {
        Ok(MemorySink {
            bytes: Vec::with_capacity(alloc, room)?,
            room,
            piece,
            plan: FaultPlan::new(fails),
        })
    }

    /// Returns the bytes that writes have put into it.
    pub fn held(&self) -> &[u8]
        ensures { result.now ≡ self.now.held }
    {
        &self.bytes
    }
}

impl Model for MemorySink {
    ghost use Rattle.std.specs.Prelude.{◌≤◌, vec_len};
    ghost use Rattle.std.specs.Vec.{vec_capacity};
    ghost use Rattle.io_edges.specs.MemorySink.{SinkState};

    ghost Value = { SinkState };

    ghost view = { λ sink. record {
      held = sink.bytes.items;
      room = sink.room;
      piece = sink.piece;
      plan = sink.plan;
    } };

    ghost invariant = { λ sink. (vec_len sink.bytes ≤ sink.room) × (sink.room ≤ vec_capacity sink.bytes) };
}

impl Sink for MemorySink {
    ghost held = { λ sink. Some sink.held };

    ghost faults = { λ sink. sink.plan.faults };

    ghost writes = { λ sink. sink.plan.calls };

    /// Takes no memory: the room was reserved by `new`.
    fn write(&mut self, bytes: &[u8]) -> Result<usize, Failed>
        ensures bound { IfOk result (λ count. count ≤ length bytes.now) }
        ensures some { IfOk result (λ count. 0 < length bytes.now → 0 < count) }
        ensures bytes { Writes (Some self.old.held) (Some self.new.held) result bytes.now }
        ensures cause { HasCause self.old.plan.faults self.new.plan.faults result }
        ensures writes { self.new.plan.calls ≤ self.old.plan.calls + 1 }
        ensures exact { WritesExactly self.old self.new bytes.now result }
    {
        let count = bytes
            .len()
            .min(self.piece)
            .min(self.room - self.bytes.len());
        if self.plan.is_due() || (!bytes.is_empty() && count == 0) {
            self.plan.count_fault();
            return Err(Failed);
        }
        self.bytes.extend_from_slice(&bytes[..count]).unwrap();
        self.plan.count_call();
        Ok(count)
    }
}
