//! Counting the frames of a device. If a count is [`MOST_COUNT`], out of memory is answered before it grows.

ghost use Rattle.std.specs.Prelude.{IsTrue, ◌<◌, ◌↔◌, ◌≡◌, ◌≤◌};
ghost use Rattle.step_kinds.specs.Limits.{most_count};
ghost use Rattle.fabric_core.specs.Numbers.{HasRoomToDeliver, HasRoomToSend};
ghost use Rattle.pair_model.specs.Device.{count_accepted, count_delivered, count_refused, no_counts as nothing_counted};

use net_dev::HEADER_BYTES;
use step_kinds::Counters;
use step_kinds::limits::MOST_COUNT;

/// No frame was counted.
pub fn no_counts() -> Counters
    ensures { result ≡ nothing_counted }
{
    Counters {
        tx: 0,
        tx_bytes: 0,
        refused: 0,
        rx: 0,
        rx_bytes: 0,
        short: 0,
    }
}

/// Returns whether one more frame can be counted as sent or refused.
pub fn can_send(counters: Counters) -> bool
    ensures { IsTrue result ↔ HasRoomToSend counters }
{
    counters.tx < MOST_COUNT && counters.tx_bytes < MOST_COUNT && counters.refused < MOST_COUNT
}

/// Returns whether one more frame can be counted as refused.
pub fn can_refuse(counters: Counters) -> bool
    ensures { IsTrue result ↔ (counters.refused < most_count) }
{
    counters.refused < MOST_COUNT
}

/// Returns whether one more frame can be counted as delivered.
pub fn can_deliver(counters: Counters) -> bool
    ensures { IsTrue result ↔ HasRoomToDeliver counters }
{
    counters.rx < MOST_COUNT && counters.rx_bytes < MOST_COUNT && counters.short < MOST_COUNT
}

/// One frame more, of this many bytes, was accepted.
pub fn accepted(counters: Counters, len: u32) -> Counters
    requires { HasRoomToSend counters }
    ensures { result ≡ count_accepted counters len }
{
    Counters {
        tx: counters.tx + 1,
        tx_bytes: counters.tx_bytes + u64::from(len),
        ..counters
    }
}

/// One frame more was refused.
pub fn refused(counters: Counters) -> Counters
    requires { counters.refused < most_count }
    ensures { result ≡ count_refused counters }
{
    Counters {
        refused: counters.refused + 1,
        ..counters
    }
}

/// One frame more, of this many bytes, was delivered.
pub fn delivered(counters: Counters, len: u32) -> Counters
    requires { HasRoomToDeliver counters }
    ensures { result ≡ count_delivered counters len }
{
    if len < HEADER_BYTES {
        return Counters {
            short: counters.short + 1,
            ..counters
        };
    }
    Counters {
        rx: counters.rx + 1,
        rx_bytes: counters.rx_bytes + u64::from(len),
        ..counters
    }
}
