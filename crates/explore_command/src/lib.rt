//! The command `explore`: the outcomes of all schedules of a script, and the text that shows them.
#![tactic(auto)]

mod command;
pub mod laws;
mod machine;
mod text;

pub use command::explore_reply;
pub use text::explored_text;
