//! Why a script gives no plan.

use script_words::ScriptFault;
use std::alloc::AllocError;
use thiserror::Error;

/// Why a script gives no plan.
#[derive(Clone, Copy, Debug, PartialEq, Eq, Error)]
pub enum ParseError {
    /// The script has a fault.
    #[error("the script has a fault")]
    Fault(ScriptFault),
    /// There is no memory for the plan. Nothing is said of the script.
    #[error("out of memory")]
    OutOfMemory,
}

impl From<AllocError> for ParseError {
    ghost use Rattle.std.specs.Prelude.{◌≡◌};
    ghost use Rattle.script_text.specs.declared.error.ParseError.TheVariants.{OutOfMemory};

    ghost from_gives = { λ _ error. error ≡ OutOfMemory };

    fn from(_: AllocError) -> ParseError {
        ParseError::OutOfMemory
    }
}
