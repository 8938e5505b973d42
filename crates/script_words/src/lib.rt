//! The words of a script: how names, sides, numbers, bytes and options are spelled, which steps a first word
//! represents, and what one line gives.
#![tactic(auto)]

/// The value that stands beside a word in a table of words and values: `Some` of it, or `None` where the word isn't
/// there.
macro_rules! value_of {
    ($word:ident:) => { None };
    ($word:ident: $text:literal => $value:expr, $($rest:tt)*) => {
        if $word == $text.as_slice() { Some($value) } else { value_of!($word: $($rest)*) }
    };
}

mod fault;
pub mod laws;
mod line_gives;
pub mod options;
mod parts;
pub mod settings;
pub mod step_words;
pub mod words;

pub use fault::{Cause, LineError, LineFault, ReadError, ScriptFault, at, unknown_line, within};
pub use line_gives::Given;
pub use pair_settings::Range;
pub use parts::{PairHosts, Part, QueueName, SideName};
