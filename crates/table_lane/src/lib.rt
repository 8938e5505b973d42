//! One lane between threads, without a lock: five ends on words and slots, and the rule of the table that they share.
//!
//! The rule says what the lane's words, its slots and the knowledge of its seats show at each moment, and each atomic
//! step keeps it. The table shows one lane of the model, with the law of its ring. So what is proved of every lane
//! holds of frames that threads hand to one another.
#![tactic(auto)]

mod back;
mod board;
mod ends;
mod lane_end;
pub mod laws;
mod mover;
pub mod parts;
pub mod plays;
mod recv;
pub mod rule;
pub mod rule_laws;
mod send;
mod steps;

pub use back::{BackAnswer, BackEnd, CutEnd};
pub use ends::make;
pub use lane_end::{LaneEnd, LaneProof, finish};
pub use mover::{MoveAnswer, MoveEnd};
pub use recv::{RecvAnswer, RecvEnd};
pub use send::{SendAnswer, SendEnd};
