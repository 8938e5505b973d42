//! A source in memory that never fails.
ghost use Rattle.std.specs.Prelude.{◌≡◌, ◌<◌, ◌≤◌, ◌++◌, ℕ, min, length, take, drop, IfOk, Ok, Some};
ghost use Rattle.io_edges.specs.Causes.{HasCause};
ghost use Rattle.io_edges.specs.Streams.{Reads};

use crate::{Failed, Source};
use std::marker::Model;

/// A source in memory that never fails. A clause sees it as the list of the bytes that are left.
#[derive(Drop)]
pub struct PlainSource {
    bytes: Vec<u8>,
    at: usize,
}

impl PlainSource {
    /// Returns a source of these bytes.
    pub fn new(bytes: Vec<u8>) -> PlainSource
        ensures { result ≡ bytes.items }
    {
        PlainSource { bytes, at: 0 }
    }
}

impl Model for PlainSource {
    ghost use Rattle.std.specs.Prelude.{ℕ, List, ◌≤◌, drop, vec_len};

    ghost Value = { List ℕ };

    ghost view = { λ source. drop source.at source.bytes.items };

    ghost invariant = { λ source. source.at ≤ vec_len source.bytes };
}

impl Source for PlainSource {
    ghost left = { λ source. Some source };

    ghost faults = { λ _. 0 };

    /// Gives as many bytes as there is room for, or as are left.
    fn read(&mut self, out: &mut [u8]) -> Result<usize, Failed>
        ensures bound { IfOk result (λ count. count ≤ length out.new) }
        ensures bytes { Reads (Some self.old) (Some self.new) result out.new }
        ensures cause { HasCause 0 0 result }
        ensures answer { result ≡ Ok (min (length out.old) (length self.old)) }
        ensures left { self.new ≡ drop (length out.old) self.old }
        ensures filled { out.new ≡ take (length out.old) self.old ++ drop (length self.old) out.old }
    {
        let count = out.len().min(self.bytes.len() - self.at);
        out[..count].copy_from_slice(&self.bytes[self.at..self.at + count]);
        self.at += count;
        Ok(count)
    }
}
