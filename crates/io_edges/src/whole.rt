//! Reading all of a source, and writing all of a slice.
ghost use Rattle.std.specs.Prelude.{◌≡◌, ◌+◌, ◌-◌, ◌^◌, ◌<◌, ◌≤◌, [], length, drop, vec_len, IfOk, OnOk, OnErr, IfSome, IsErrOf};
ghost use Rattle.io_edges.specs.Causes.{HasCause, Rose};
ghost use Rattle.io_edges.specs.Streams.{Writes};
ghost use Rattle.io_edges.specs.declared.whole.ReadError.TheVariants.{ReadFault, OutOfMemory};
ghost use Rattle.io_edges.specs.Whole.{HasGivenAtMost, HasGivenAtReads, AddsPiece, HoldsAll, HoldsPart, HoldsPartAtWrites};

use crate::{Failed, Sink, Source};
use std::alloc::{AllocError, Global};
use thiserror::Error;

/// Why a source was not read to its end.
#[derive(Clone, Copy, Debug, PartialEq, Eq, Error)]
pub enum ReadError {
    /// The source failed.
    #[error("the input can't be read")]
    ReadFault,
    /// The source has more bytes than the limit.
    #[error("the input is too long")]
    TooLong,
    /// There was no memory for the bytes.
    #[error("out of memory")]
    OutOfMemory,
}

impl From<Failed> for ReadError {
    ghost from_gives = { λ _ error. error ≡ ReadFault };

    fn from(_: Failed) -> ReadError {
        ReadError::ReadFault
    }
}

impl From<AllocError> for ReadError {
    ghost from_gives = { λ _ error. error ≡ OutOfMemory };

    fn from(_: AllocError) -> ReadError {
        ReadError::OutOfMemory
    }
}

/// The sink failed before it had taken all.
#[derive(Clone, Copy, Debug, PartialEq, Eq, Error)]
#[error("the output can't be written")]
pub struct WriteFault;

impl From<Failed> for WriteFault {
    ghost from_gives = { λ _ error. error ≡ record {} };

    fn from(_: Failed) -> WriteFault {
        WriteFault
    }
}

/// The most bytes that one read asks for.
const PIECE: usize = 65_536;

/// Reads all the bytes of a source, which may be `limit` bytes at most; `limit` is below 2^32 - 1. It takes `limit +
/// 1` bytes at most. Each read but the last one gives a byte: nothing is read after the end, after a fault or
/// after a byte too many.
///
/// If the source tells its bytes, `Ok` has all of them, and none is left.
///
/// # Errors
///
/// [`ReadError::TooLong`] if more than `limit` bytes were taken, which are then `limit + 1`. [`ReadError::ReadFault`]
/// only if a read failed, and [`ReadError::OutOfMemory`] if memory runs out: at most `limit` bytes from the front of
/// the source are taken then. In every case but `ReadFault` the source's count of faults stays.
pub fn read_all<S: Source>(
    alloc: Global,
    source: &mut S,
    limit: usize,
) -> Result<Vec<u8>, ReadError>
    requires { limit < 2 ^ 32 - 1 }

    ensures at_most { IfOk result (λ bytes. vec_len bytes ≤ limit) }
    ensures all { IfSome (S.left source.old) (λ content. IfOk result (λ bytes. bytes.items ≡ content)) }
    ensures at_end { IfSome (S.left source.old) (λ _. OnOk result (S.left source.new ≡ Some [])) }

    ensures too_long { IfSome (S.left source.old) (λ content. IsErrOf result ReadError.TooLong → limit < length content) }
    ensures taken { IfSome (S.left source.old) (λ content.
        IsErrOf result ReadError.TooLong → S.left source.new ≡ Some (drop (limit + 1) content)) }
    ensures only { (IsErrOf result ReadError.TooLong → ⊥) → HasGivenAtMost limit (S.left source.old) (S.left source.new) }

    ensures fault { IsErrOf result ReadError.ReadFault → Rose (S.faults source.old) (S.faults source.new) }
    ensures later { S.faults source.old ≤ S.faults source.new }
    ensures calm { (IsErrOf result ReadError.ReadFault → ⊥) → S.faults source.new ≡ S.faults source.old }

    // In every outcome.
    ensures rest { HasGivenAtMost (limit + 1) (S.left source.old) (S.left source.new) }
    ensures reads { HasGivenAtReads (limit + 1) (S.left source.old) (S.left source.new) (S.reads source.old) (S.reads source.new) }
    ensures reads_ok { IfOk result (λ bytes. S.reads source.new ≤ S.reads source.old + length bytes.items + 1) }
    ensures reads_long { IsErrOf result ReadError.TooLong → S.reads source.new ≤ S.reads source.old + limit + 1 }
{
    let mut buffer = zeros(alloc, PIECE.min(limit + 1))?;
    let mut bytes = Vec::new(alloc);
    while bytes.len() <= limit {
        let room = buffer.len().min(limit + 1 - bytes.len());
        let count = read_piece(source, &mut buffer[..room], &mut bytes)?;
        if count == 0 {
            return Ok(bytes);
        }
    }
    Err(ReadError::TooLong)
}

/// Returns a buffer of this many bytes.
fn zeros(alloc: Global, len: usize) -> Result<Vec<u8>, AllocError>
    ensures { IfOk result (λ buffer. vec_len buffer ≡ len) }
{
    vec![in alloc; 0; len]
}

/// Reads once through the buffer, and puts what came after the bytes. Returns how many came. Room for them is made
/// before the read, so that an error takes nothing from the source.
fn read_piece<S: Source>(
    source: &mut S,
    buffer: &mut [u8],
    bytes: &mut Vec<u8>,
) -> Result<usize, ReadError>
    ensures bound { IfOk result (λ count. count ≤ length buffer.old) }
    ensures len { IfOk result (λ count. vec_len bytes.new ≡ vec_len bytes.old + count) }
    ensures given { OnOk result (AddsPiece (S.left source.old) (S.left source.new) bytes.old.items bytes.new.items) }
    ensures none { OnErr result (S.left source.new ≡ S.left source.old) }

    ensures at_end { IfOk result (λ count. count ≡ 0 → 0 < length buffer.old →
        IfSome (S.left source.old) (λ content. content ≡ [])) }

    ensures fault { IsErrOf result ReadError.ReadFault → Rose (S.faults source.old) (S.faults source.new) }
    ensures not_long { IsErrOf result ReadError.TooLong → ⊥ }
    ensures later { S.faults source.old ≤ S.faults source.new }
    ensures calm { (IsErrOf result ReadError.ReadFault → ⊥) → S.faults source.new ≡ S.faults source.old }
    ensures reads { S.reads source.new ≤ S.reads source.old + 1 }
{
    bytes.reserve(buffer.len())?;
    let count = source.read(buffer)?;
    bytes.extend_from_slice(&buffer[..count]).unwrap();
    Ok(count)
}

/// Writes all the bytes to a sink. It takes no memory. Each write is of bytes that are left, and after a failed one no
/// other is made: each write but a failed last one took a byte.
///
/// After `Ok` the sink's count of faults is as it was.
///
/// # Errors
///
/// `WriteFault` where a write failed: a part from the front of the bytes, but not all, may have gone out then.
pub fn write_all<K: Sink>(sink: &mut K, bytes: &[u8]) -> Result<(), WriteFault>
    ensures all { OnOk result (HoldsAll (K.held sink.old) (K.held sink.new) bytes.now) }
    ensures part { OnErr result (HoldsPart (K.held sink.old) (K.held sink.new) bytes.now) }
    ensures fault { OnErr result (Rose (K.faults sink.old) (K.faults sink.new)) }
    ensures later { K.faults sink.old ≤ K.faults sink.new }
    ensures calm { OnOk result (K.faults sink.new ≡ K.faults sink.old) }

    ensures writes { OnOk result (K.writes sink.new ≤ K.writes sink.old + length bytes.now) }
    ensures last_write { OnErr result (HoldsPartAtWrites (K.held sink.old) (K.held sink.new) bytes.now (K.writes sink.old) (K.writes sink.new)) }
{
    let mut rest = bytes;
    while !rest.is_empty() {
        let count = write_piece(sink, rest)?;
        rest = &rest[count..];
    }
    Ok(())
}

/// Writes once, some bytes from the front of the rest. Returns how many were taken.
fn write_piece<K: Sink>(sink: &mut K, rest: &[u8]) -> Result<usize, WriteFault>
    ensures bound { IfOk result (λ count. count ≤ length rest.now) }
    ensures some { IfOk result (λ count. 0 < length rest.now → 0 < count) }
    ensures bytes { Writes (K.held sink.old) (K.held sink.new) result rest.now }
    ensures cause { HasCause (K.faults sink.old) (K.faults sink.new) result }
    ensures writes { K.writes sink.new ≤ K.writes sink.old + 1 }
{
    Ok(sink.write(rest)?)
}
