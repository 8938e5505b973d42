//! The top call of ntbsim: it takes the words of a command line, a source and a sink, and does all that the program
//! does. It answers the exit status, with the record and the proofs of a threaded run or of streams.
#![tactic(auto)]

mod arguments;
mod check;
mod command;
mod ended;
mod input;
pub mod laws;
mod plain;
mod program;
mod streams;

pub use arguments::run_arguments;
pub use ended::Ended;
pub use plain::plain_program;
pub use program::run_program;
