//! The commands `run` and `stream`: a script's traffic sent by threads, and the text of what became of it.
#![tactic(auto)]

mod reply;
mod run;
mod stream;
mod text;

pub use reply::TrafficReply;
pub use run::run_reply;
pub use stream::stream_reply;
