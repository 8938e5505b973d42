//! The texts of answers, of the report of a replay, and of the records of threaded runs: exact bytes, appended to one
//! buffer. Numbers are decimal, bytes lower-case hexadecimal, and each line ends with a line feed.
#![tactic(auto)]

mod answer_lines;
mod answers;
pub mod append;
mod line;
mod run;
mod stream;
mod whole;

pub use answer_lines::{AnswerLines, push_answer_line};
pub use answers::{push_answer, text_of};
pub use run::record_text;
pub use stream::push_stream;
pub use whole::{push_ending, report};
