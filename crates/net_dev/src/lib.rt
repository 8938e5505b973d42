//! A network device on one queue of a pair, after the way in which Linux `ntb_netdev` works. Ethernet frames are
//! written and read here, and a device's flow is kept: the device stops where its ring runs full, and goes on where
//! there is room.
#![tactic(auto)]

mod ethernet;
mod flow;
pub mod laws;

pub use ethernet::{HEADER_BYTES, Header, Short, decode, encode};
pub use flow::Flow;
pub use step_kinds::Counters;
