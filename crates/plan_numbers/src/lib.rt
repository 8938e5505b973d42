//! The numbers of a plan: what it says to one side of its pair, the rings of a side's queues, the writes of a frame.
//!
//! Each function answers by the plan alone. None keeps anything, and none takes memory.
#![tactic(auto)]

mod rings;
mod sides;
mod writes;

pub use rings::{index_word_at, receiving_ring, sending_ring};
pub use sides::{
    class_among, classes_of, copy_of, header_bytes, high_half, kind_of, low_half, memory_bytes,
    own_address, side_plan, speaks_five,
};
pub use writes::{chunks_in, pieces_in, posts_in, writes_in};
