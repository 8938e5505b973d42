//! The chunks, writes and entries of a frame.

ghost use Rattle.std.specs.Prelude.{◌≡◌, ◌<◌, ◌≤◌, ◌+◌, ◌^◌};
ghost use Rattle.step_kinds.specs.Limits.{most_frame_bytes};
ghost use Rattle.lane_model.specs.Lane.{chunks_in};
ghost use Rattle.pair_model.specs.DeclaredPlans.{IsPair};
ghost use Rattle.pair_model.specs.Macros.{posts_in};
ghost use Rattle.pair_model.specs.Plans.{side_plan};
ghost use Rattle.pair_model.specs.Sizes.{pieces_in};

use crate::rings::sending_ring;
use crate::sides::speaks_five;
use lane_model::CHUNK_SIZE;
use step_kinds::{PairPlan, Side};

/// Returns how many chunks this many bytes are, at most 65,536.
pub fn chunks_in(len: u32) -> u32
    requires { len ≤ most_frame_bytes }
    ensures value { result ≡ chunks_in len }
    ensures few { result ≤ 512 }
{
    len.div_ceil(CHUNK_SIZE)
}

/// Returns how many writes the chunks, length, version, flags and doorbell of an entry of this many bytes, at most
/// 65,536, are.
pub fn writes_in(len: u32) -> u32
    requires { len ≤ most_frame_bytes }
    ensures value { result ≡ chunks_in len + 4 }
    ensures few { result ≤ 516 }
{
    chunks_in(len) + 4
}

/// Returns how many entries of this many bytes, 1 to 65,536, a frame of at most 65,536 bytes takes: one at least.
pub fn pieces_in(largest: u32, len: u32) -> u32
    requires some { 0 < largest }
    requires small { largest ≤ most_frame_bytes }
    requires len { len ≤ most_frame_bytes }
    ensures value { result ≡ pieces_in largest len }
    ensures few { result ≤ most_frame_bytes }
{
    ((len + largest - 1) / largest).max(1)
}

/// Returns how many writes a frame of this many bytes, at most 65,536, has that a side of a declared pair sends on a
/// queue. The queue has to be one of the side's.
pub fn posts_in(pair: &PairPlan, side: Side, queue: u32, len: u32) -> u32
    requires declared { IsPair pair.now }
    requires among { queue < (side_plan pair.now side).queues }
    requires len { len ≤ most_frame_bytes }
    ensures value { result ≡ posts_in pair.now side queue len }
    ensures few { result ≤ 2 ^ 28 }
{
    if !speaks_five(pair) {
        return writes_in(len);
    }
    let largest = sending_ring(pair, side, queue).max_payload();
    let mut posts = 0;
    for piece in 0..pieces_in(largest, len) {
        posts += writes_in(largest.min(len.saturating_sub(largest * piece)));
    }
    posts
}
