//! When a device stops and when it goes on.

ghost use Rattle.std.specs.Prelude.{false, not, ◌≡◌};

use std::marker::Model;

/// The flow of a device: whether it is stopped, and the limits at which it stops and goes on, in free entries of its
/// ring. The transmit queue of `ntb_netdev` stops below one limit and starts again at another. Limits are 0 to 65,535
/// in a script, and `start` is at least `stop` there; here each number is taken as it is.
#[derive(Clone, Copy, Debug, PartialEq, Eq)]
pub struct Flow {
    stop: u32,
    start: u32,
    stopped: bool,
}

impl Flow {
    ghost use Rattle.pair_model.specs.Device.{stays_stopped, stopped_after_send};
    ghost use Rattle.net_dev.specs.Flow.{going_on, with_stopped};

    /// Returns a device that goes on. It stops where fewer than `stop` entries are free, and then goes on where at
    /// least `start` are.
    pub fn new(stop: u32, start: u32) -> Flow
        ensures { result ≡ going_on stop start }
    {
        Flow {
            stop,
            start,
            stopped: false,
        }
    }

    /// Returns whether the device is stopped.
    pub fn stopped(&self) -> bool
        ensures { result ≡ self.now.stopped }
    {
        self.stopped
    }

    /// A frame was sent and left `free` entries: the device stops where these are fewer than `stop`, and else stays as
    /// it is, stopped or not.
    pub fn after_send(&mut self, free: u32)
        ensures { self.new ≡ with_stopped self.old (stopped_after_send self.old free) }
    {
        if free < self.stop {
            self.stopped = true;
        }
    }

    /// Lets the device go on, unless it is stopped and fewer than `start` entries are free. Returns `true` if and only
    /// if the device isn't stopped afterwards.
    pub fn try_wake(&mut self, free: u32) -> bool
        ensures answer { result ≡ not (stays_stopped self.old free) }
        ensures after { self.new ≡ with_stopped self.old (stays_stopped self.old free) }
    {
        if self.stopped && free < self.start {
            return false;
        }
        self.stopped = false;
        true
    }

    /// The device goes on, as at the clean of its side after its link was lost.
    pub fn reset(&mut self)
        ensures { self.new ≡ with_stopped self.old false }
    {
        self.stopped = false;
    }
}

impl Model for Flow {
    ghost use Rattle.pair_model.specs.Device.{Flow as DeviceFlow};

    ghost Value = { DeviceFlow };

    ghost view = { λ flow. record { stop = flow.stop; start = flow.start; stopped = flow.stopped } };

    ghost inverse = { λ flow. record { stop = flow.stop; start = flow.start; stopped = flow.stopped } };
}
