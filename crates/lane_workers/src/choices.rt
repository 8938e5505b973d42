//! Which moves the mover makes, so that headers overtake one another.
ghost use Rattle.std.specs.Prelude.{◌≡◌};
ghost use Rattle.lane_workers.specs.Choices.{first_choices, choice_of, chosen, noted};

use rand_xoshiro::SplitMix64;
use rand_xoshiro::rand_core::SeedableRng;
use rand_xoshiro::rand_core::utils::NextWord;
use std::marker::Model;
use table_lane::MoveAnswer;

/// The most entries that the mover holds before it stores their headers.
const MOST_HELD: u32 = 8;

/// What the mover does with the entries that it holds.
#[derive(Clone, Copy, Debug, Drop)]
enum Stage {
    /// It takes more of them.
    Taking,
    /// It stores their headers, in an order that the words choose.
    StoringHeaders,
    /// It stores their flags, in order. Entries that an earlier pass left get their headers before.
    StoringFlags,
}

/// The choices of a pass: some entries are taken, then their headers are stored in any order, then their flags.
/// Contracts see the state of the generator, the stage, and the two counts.
#[derive(Drop)]
pub(crate) struct Choices {
    words: SplitMix64,
    stage: Stage,
    held: u32,
    waiting: u32,
}

impl Choices {
    /// Returns the choices by the words of the generator SplitMix64 with this seed.
    pub(crate) fn new(seed: u64) -> Choices
        ensures { result ≡ first_choices seed }
    {
        Choices {
            words: SplitMix64::seed_from_u64(seed),
            stage: Stage::StoringFlags,
            held: 0,
            waiting: 0,
        }
    }

    /// Returns the choice of the next turn. While entries are taken, each that is held is an open move, and the number
    /// after these is the look for the next entry.
    pub(crate) fn choice(&mut self) -> u64
        ensures choice { result ≡ choice_of self.old }
        ensures goes_on { self.new ≡ chosen self.old }
    {
        match self.stage {
            Stage::Taking => u64::from(self.held),
            Stage::StoringHeaders => {
                // a number below the count of those that wait
                let word = self.words.next_word() >> 32;
                (word * u64::from(self.waiting)) >> 32
            }
            Stage::StoringFlags => 0,
        }
    }

    /// Goes on by what came of the turn.
    pub(crate) fn note(&mut self, answer: MoveAnswer)
        ensures { self.new ≡ noted self.old answer }
    {
        match answer {
            MoveAnswer::Took { .. } => {
                self.stage = if self.held + 1 < MOST_HELD {
                    Stage::Taking
                } else {
                    Stage::StoringHeaders
                };
                self.held = (self.held + 1).min(MOST_HELD);
                self.waiting = (self.waiting + 1).min(MOST_HELD);
            }
            MoveAnswer::Header { .. } => {
                self.waiting = self.waiting.saturating_sub(1);
                self.stage = if self.waiting > 0 {
                    Stage::StoringHeaders
                } else {
                    Stage::StoringFlags
                };
            }
            MoveAnswer::Flag { .. } => {
                self.held = self.held.saturating_sub(1);
                self.stage = if self.held > 0 {
                    Stage::StoringFlags
                } else {
                    Stage::Taking
                };
            }
            MoveAnswer::Idle => {
                self.held = 0;
                self.waiting = 0;
                self.stage = Stage::Taking;
            }
        }
    }
}

impl Model for Choices {
    ghost use Rattle.std.specs.Prelude.{◌≤◌};
    ghost use Rattle.lane_workers.specs.Choices.{Choosing, most_held};

    ghost Value = { Choosing };

    ghost view = { λ c. record { state = c.words; stage = c.stage; held = c.held; waiting = c.waiting } };

    ghost invariant = { λ c. (c.held ≤ most_held) × (c.waiting ≤ most_held) };
}
