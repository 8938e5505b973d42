//! What a command reads.

ghost use Rattle.std.specs.Prelude.{◌≡◌};
ghost use Rattle.ntb_top.specs.Inputs.{HasInput};

use io_edges::{ReadError, Source, read_all};
use std::alloc::{AllocError, Global};
use step_kinds::limits::MOST_SCRIPT_BYTES;

/// What a source has for a command.
#[derive(Drop)]
pub enum Input {
    /// All its bytes, at most as many as a script may have; none for a command that doesn't read.
    Whole(Vec<u8>),
    /// More bytes than a script may have.
    TooLong,
}

/// Why a run has no reply.
#[derive(Clone, Copy, Debug, PartialEq, Eq)]
pub enum Stop {
    /// The source failed.
    SourceFailed,
    /// Out of memory.
    OutOfMemory,
}

impl From<AllocError> for Stop {
    ghost use Rattle.ntb_top.specs.declared.input.Stop.TheVariants.{OutOfMemory};

    ghost from_gives = { λ _ stop. stop ≡ OutOfMemory };

    fn from(_: AllocError) -> Stop {
        Stop::OutOfMemory
    }
}

/// Reads what a command is to read: all that the source has, up to one byte more than a script may have, or nothing.
/// Each read but the last gives a byte, and a command that doesn't read makes none.
///
/// [`Stop::SourceFailed`] comes only if the source failed, to a command that reads, and else the source's count of
/// faults stays. The error is [`Stop::OutOfMemory`] if memory runs out.
pub fn read_input<S: Source>(alloc: Global, reads: bool, source: &mut S) -> Result<Input, Stop>
    ensures { HasInput reads (record { left = S.left source.old; faults = S.faults source.old; reads = S.reads source.old })
        (record { left = S.left source.new; faults = S.faults source.new; reads = S.reads source.new }) result }
{
    if !reads {
        return Ok(Input::Whole(Vec::new(alloc)));
    }
    match read_all(alloc, source, MOST_SCRIPT_BYTES) {
        Ok(bytes) => Ok(Input::Whole(bytes)),
        Err(ReadError::TooLong) => Ok(Input::TooLong),
        Err(ReadError::ReadFault) => Err(Stop::SourceFailed),
        Err(ReadError::OutOfMemory) => Err(Stop::OutOfMemory),
    }
}
