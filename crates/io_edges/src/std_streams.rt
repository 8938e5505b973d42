//! The standard library's readers and writers as sources and sinks.
ghost use Rattle.std.specs.Prelude.{◌≡◌, ◌<◌, ◌≤◌, length, IfOk, None};
ghost use Rattle.std.specs.Io.KnownBytes.{ReadConsumes, WriteAppends};
ghost use Rattle.io_edges.specs.Causes.{HasCause};
ghost use Rattle.io_edges.specs.Streams.{Reads, Writes};

use crate::{Failed, Sink, Source};
use std::io::{Read, Write};

/// A reader or a writer of the standard library, with the faults that were counted of it. It keeps no buffer of its
/// own.
#[derive(Drop)]
pub struct StdStream<T> {
    inner: T,
    faults: u64,
}

/// A reader, as a source of bytes.
pub type StdSource<R> = StdStream<R>;

/// A writer, as a sink of bytes.
pub type StdSink<W> = StdStream<W>;

impl<T> StdStream<T> {
    ghost use Rattle.io_edges.specs.Std.{faults_of, inner_of};

    /// This reader or writer, with no fault yet.
    pub fn new(inner: T) -> StdStream<T>
        ensures inner { inner_of result ≡ inner }
        ensures faults { faults_of result ≡ 0 }
    {
        StdStream { inner, faults: 0 }
    }
}

/// A reader as a source. What a standard stream has left is not told. Each error of the reader is a fault, an
/// interrupted call too.
impl<R: Read> Source for StdStream<R> {
    ghost use Rattle.io_edges.specs.Std.{faults_of, inner_of, CountsErrors};

    ghost left = { λ _. None };

    ghost faults = { faults_of };

    fn read(&mut self, out: &mut [u8]) -> Result<usize, Failed>
        ensures bound { IfOk result (λ count. count ≤ length out.new) }
        ensures bytes { Reads None None result out.new }
        ensures cause { HasCause (faults_of self.old) (faults_of self.new) result }

        // What the reader itself has left, if that is known.
        ensures reader { ReadConsumes (R.remaining (inner_of self.old)) (R.remaining (inner_of self.new)) result out.new }
        ensures count { CountsErrors (faults_of self.old) (faults_of self.new) result }
    {
        match self.inner.read(out) {
            Ok(count) => Ok(count),
            Err(_) => {
                self.faults = self.faults.saturating_add(1);
                Err(Failed)
            }
        }
    }
}

/// A writer as a sink. What a standard stream holds is not told. Each error of the writer is a fault, an interrupted
/// call too, and so is a write that takes nothing of a piece that isn't empty.
impl<W: Write> Sink for StdStream<W> {
    ghost use Rattle.io_edges.specs.Std.{faults_of, inner_of, CountsErrors};

    ghost held = { λ _. None };

    ghost faults = { faults_of };

    fn write(&mut self, bytes: &[u8]) -> Result<usize, Failed>
        ensures bound { IfOk result (λ count. count ≤ length bytes.now) }
        ensures some { IfOk result (λ count. 0 < length bytes.now → 0 < count) }
        ensures bytes { Writes None None result bytes.now }
        ensures cause { HasCause (faults_of self.old) (faults_of self.new) result }

        // What the writer itself holds, if that is known.
        ensures writer { WriteAppends (W.contents (inner_of self.old)) (W.contents (inner_of self.new)) result bytes.now }
        ensures count { CountsErrors (faults_of self.old) (faults_of self.new) result }
    {
        match self.inner.write(bytes) {
            Ok(count) if count > 0 || bytes.is_empty() => Ok(count),
            _ => {
                self.faults = self.faults.saturating_add(1);
                Err(Failed)
            }
        }
    }
}
