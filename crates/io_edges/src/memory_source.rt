//! A source in memory that gives small pieces, and fails where it is told to.
ghost use Rattle.std.specs.Prelude.{◌≡◌, ◌+◌, ◌<◌, ◌≤◌, length, IfOk, Some};
ghost use Rattle.io_edges.specs.Causes.{HasCause};
ghost use Rattle.io_edges.specs.Streams.{Reads};
ghost use Rattle.io_edges.specs.MemorySource.{ReadsExactly};

use crate::plan::FaultPlan;
use crate::{Failed, Source};
use std::marker::Model;

/// A source in memory that gives at most this many bytes at a read, and fails at the reads with these numbers.
#[derive(Drop)]
pub struct MemorySource {
    bytes: Vec<u8>,
    at: usize,
    piece: usize,
    plan: FaultPlan,
}

impl MemorySource {
    /// Returns a source of these bytes. `piece` is the most bytes that a read gives, 1 at least, and `fails` has the
    /// numbers of the reads that fail, if the first is 0. Each of them raises the count of faults.
    pub fn new(bytes: Vec<u8>, piece: usize, fails: Vec<u64>) -> MemorySource
        requires { 1 ≤ piece }
        ensures { result ≡ record {
          left = bytes.items;
          piece = piece;
          plan = record { fails = fails.items; calls = 0; faults = 0 };
        } }
    {
        MemorySource {
            bytes,
            at: 0,
            piece,
            plan: FaultPlan::new(fails),
        }
    }
}

impl Model for MemorySource {
    ghost use Rattle.std.specs.Prelude.{◌≤◌, drop, vec_len};
    ghost use Rattle.io_edges.specs.MemorySource.{SourceState};

    ghost Value = { SourceState };

    ghost view = { λ source. record {
      left = drop source.at source.bytes.items;
      piece = source.piece;
      plan = source.plan;
    } };

    ghost invariant = { λ source. (source.at ≤ vec_len source.bytes) × (1 ≤ source.piece) };
}

impl Source for MemorySource {
    ghost left = { λ source. Some source.left };

    ghost faults = { λ source. source.plan.faults };

    ghost reads = { λ source. source.plan.calls };

    fn read(&mut self, out: &mut [u8]) -> Result<usize, Failed>
        ensures bound { IfOk result (λ count. count ≤ length out.new) }
        ensures bytes { Reads (Some self.old.left) (Some self.new.left) result out.new }
        ensures cause { HasCause self.old.plan.faults self.new.plan.faults result }
        ensures reads { self.new.plan.calls ≤ self.old.plan.calls + 1 }
        ensures exact { ReadsExactly self.old self.new out.old out.new result }
    {
        if self.plan.is_due() {
            self.plan.count_fault();
            return Err(Failed);
        }
        let count = out.len().min(self.piece).min(self.bytes.len() - self.at);
        out[..count].copy_from_slice(&self.bytes[self.at..self.at + count]);
        self.at += count;
        self.plan.count_call();
        Ok(count)
    }
}
