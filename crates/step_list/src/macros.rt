//! The steps of a line, kept short until their number is tested.

ghost use Rattle.std.specs.Prelude.{◌≡◌, ◌^◌, ◌≤◌, length};
ghost use Rattle.step_list.specs.Compact.{step_again, line_steps_of};

use step_kinds::{Side, Step};

/// A step of few numbers, which a line may repeat.
#[derive(Clone, Copy, Debug, PartialEq, Eq)]
pub enum Repeated {
    /// One write is posted.
    Post { pair: u32, side: Side, queue: u32 },
    /// The write at this place in flight lands.
    Land { pair: u32, side: Side, place: u32 },
    /// The next entry is looked for.
    Look { pair: u32, side: Side, queue: u32 },
    /// One part of a frame is copied.
    Copy { pair: u32, side: Side, queue: u32 },
    /// The flags of the entry that was copied are cleared.
    Clear { pair: u32, side: Side, queue: u32 },
    /// The entry that was cleared is given back.
    Ack { pair: u32, side: Side, queue: u32 },
    /// One number of the side's offer is posted.
    Offer { pair: u32, side: Side },
}

/// The steps of one line.
#[derive(Drop)]
pub enum Macro {
    /// A step of its own.
    One {
        step: Step,
    },
    /// A frame is begun, and all its writes are posted.
    Posted {
        begin: Step,
        repeated: Repeated,
        count: u32,
    },
    /// One step, this many times.
    Again {
        repeated: Repeated,
        count: u32,
    },
    /// A frame is looked for, copied, cleared and given back.
    Received {
        pair: u32,
        side: Side,
        queue: u32,
        copies: u32,
    },
}

impl Repeated {
    /// Returns the step that is repeated.
    pub fn step(self) -> Step
        ensures { result ≡ step_again self }
    {
        match self {
            Repeated::Post { pair, side, queue } => Step::Post { pair, side, queue },
            Repeated::Land { pair, side, place } => Step::Land { pair, side, place },
            Repeated::Look { pair, side, queue } => Step::Look { pair, side, queue },
            Repeated::Copy { pair, side, queue } => Step::Copy { pair, side, queue },
            Repeated::Clear { pair, side, queue } => Step::Clear { pair, side, queue },
            Repeated::Ack { pair, side, queue } => Step::Ack { pair, side, queue },
            Repeated::Offer { pair, side } => Step::Offer { pair, side },
        }
    }
}

impl Macro {
    /// Returns how many steps the line has: at most 2^33.
    pub fn count(&self) -> u64
        ensures value { result ≡ length (line_steps_of self.now) }
        ensures few { result ≤ 2 ^ 33 }
    {
        match self {
            Macro::One { .. } => 1,
            Macro::Posted { count, .. } => *count as u64 + 1,
            Macro::Again { count, .. } => *count as u64,
            Macro::Received { copies, .. } => *copies as u64 + 3,
        }
    }
}
