//! The passes of a lane's workers: each makes turns of one end, or of the mover and the way back together.
//!
//! A pass makes at least one turn and at most as many as it is given, and returns how many. Before each turn it passes
//! a [`TurnGate`]. It may end before its last turn: if nothing is left to do, or after [`IDLE_TURNS`] turns in a row
//! that did nothing. Its caller can let other threads run then. It takes no memory and never waits for another worker.
#![tactic(auto)]

mod aim;
mod choices;
mod cut;
mod idling;
mod in_threads;
mod in_turn;
mod moving;
mod progress;
mod receiving;
mod rounds;
mod sending;
mod team;
mod turn_gate;
pub mod workers;

pub use aim::Aim;
pub use cut::cut_pass;
pub use idling::IDLE_TURNS;
pub use moving::move_pass;
pub use receiving::recv_pass;
pub use rounds::Way;
pub use sending::send_pass;
pub use team::Team;
pub use turn_gate::TurnGate;
