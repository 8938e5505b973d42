//! Outcomes of schedules.

ghost use Rattle.std.specs.Prelude.{◌≡◌};
ghost use Rattle.explore_model.specs.Schedules.{landing_step};

use step_kinds::{Items, Side, Step};

/// A landing that is no step of the script.
#[derive(Clone, Copy, Debug, PartialEq, Eq)]
pub struct Landing {
    /// How many steps of the script were made before it.
    pub at: usize,
    /// The number of the pair, from 0.
    pub pair: u32,
    /// The side that posted the write.
    pub side: Side,
    /// Where the write stands among the side's writes in flight: 0 for the one that was posted first.
    pub place: u32,
}

impl Landing {
    /// Returns the step by which the landing is made.
    pub fn as_step(self) -> Step
        ensures { result ≡ landing_step self }
    {
        Step::Land {
            pair: self.pair,
            side: self.side,
            place: self.place,
        }
    }
}

/// What the schedules of a script come to that answer alike, and one of them.
#[derive(Drop)]
pub struct Outcome {
    /// The text of the answer to each step of the script, without the number of its line and without a line feed.
    pub answers: Items<Items<u8>>,
    /// The further landings of a schedule with these answers, in the order in which they are made.
    pub landings: Items<Landing>,
}
