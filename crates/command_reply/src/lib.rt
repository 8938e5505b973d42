//! What a command of the program answers: an exit status and a text.
#![tactic(auto)]

mod reply;
mod status;

pub use reply::Reply;
pub use status::Status;
