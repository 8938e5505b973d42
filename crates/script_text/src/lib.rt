//! The grammar of scripts: what plan some bytes declare, or which line is the first with a fault and which fault it is.
#![tactic(auto)]

mod declarations;
mod error;
pub mod laws;
pub mod lines;
mod lookups;
mod script;
mod step_lines;
mod switch_lines;
mod traffic_lines;

pub use error::ParseError;
pub use script::{parse, read_declared, read_script};
pub use script_plan::{Reader, Script};
pub use script_words::{Cause, LineFault, Range, ScriptFault};
