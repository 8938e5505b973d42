//! The first words of steps, by their arguments.

ghost use Rattle.std.specs.Prelude.{◌≡◌, ◌≤◌, ◌∷◌, []};
ghost use Rattle.std.specs.Option.{option_map};
ghost use Rattle.step_list.specs.Compact.{step_again, line_steps_of};
ghost use Rattle.script_words.specs.StepLines.{pair_step, side_steps, queue_steps, numbered_steps, frame_steps};
ghost use Rattle.script_words.specs.StepWords.{pair_step_of, side_steps_of, side_steps_with, queue_steps_of, numbered_of, frame_steps_of};

use step_kinds::limits::MOST_STEPS;
use step_kinds::{Side, Step};
use step_list::{Macro, Repeated};

/// The first word of a line that has a pair: `train`, `break`, `drop`.
#[derive(Clone, Copy, Debug, PartialEq, Eq)]
pub enum PairWord {
    Train,
    Break,
    Drop,
}

/// The first word of a line that has a pair and a side: `enable`, `clean`, `offer`, `check`, `irq`, `offerall`.
#[derive(Clone, Copy, Debug, PartialEq, Eq)]
pub enum SideWord {
    Enable,
    Clean,
    Offer,
    Check,
    Irq,
    OfferAll,
}

/// The first word of a line that has a pair, a side and a queue: `ready`, `join`, `qpdown`, `post`, `look`, `copy`,
/// `clear`, `ack`, `recv`.
#[derive(Clone, Copy, Debug, PartialEq, Eq)]
pub enum QueueWord {
    Ready,
    Join,
    QpDown,
    Post,
    Look,
    Copy,
    Clear,
    Ack,
    Recv,
}

/// The first word of a line that has a pair, a side and a number: `land`, `landall`, `mask`, `unmask`, `showq`,
/// `showspad`.
#[derive(Clone, Copy, Debug, PartialEq, Eq)]
pub enum NumberWord {
    Land,
    LandAll,
    Mask,
    Unmask,
    ShowQueue,
    ShowPad,
}

/// The first word of a line that has a pair, a side, a queue and bytes: `begin`, `send`.
#[derive(Clone, Copy, Debug, PartialEq, Eq)]
pub enum FrameWord {
    Begin,
    Send,
}

/// Returns the first word of a line that has a pair, if it is one.
pub fn pair_word_of(word: &[u8]) -> Option<PairWord>
    ensures { option_map pair_step_of result ≡ pair_step word.now }
{
    value_of! { word:
        b"train" => PairWord::Train,
        b"break" => PairWord::Break,
        b"drop" => PairWord::Drop,
    }
}

/// Returns the first word of a line that has a pair and a side, if it is one.
pub fn side_word_of(word: &[u8]) -> Option<SideWord>
    ensures { option_map side_steps_of result ≡ side_steps word.now }
{
    value_of! { word:
        b"enable" => SideWord::Enable,
        b"clean" => SideWord::Clean,
        b"offer" => SideWord::Offer,
        b"check" => SideWord::Check,
        b"irq" => SideWord::Irq,
        b"offerall" => SideWord::OfferAll,
    }
}

/// Returns the first word of a line that has a pair, a side and a queue, if it is one.
pub fn queue_word_of(word: &[u8]) -> Option<QueueWord>
    ensures { option_map queue_steps_of result ≡ queue_steps word.now }
{
    value_of! { word:
        b"ready" => QueueWord::Ready,
        b"join" => QueueWord::Join,
        b"qpdown" => QueueWord::QpDown,
        b"post" => QueueWord::Post,
        b"look" => QueueWord::Look,
        b"copy" => QueueWord::Copy,
        b"clear" => QueueWord::Clear,
        b"ack" => QueueWord::Ack,
        b"recv" => QueueWord::Recv,
    }
}

/// Returns the first word of a line that has a pair, a side and a number, if it is one.
pub fn number_word_of(word: &[u8]) -> Option<NumberWord>
    ensures { option_map numbered_of result ≡ numbered_steps word.now }
{
    value_of! { word:
        b"land" => NumberWord::Land,
        b"landall" => NumberWord::LandAll,
        b"mask" => NumberWord::Mask,
        b"unmask" => NumberWord::Unmask,
        b"showq" => NumberWord::ShowQueue,
        b"showspad" => NumberWord::ShowPad,
    }
}

/// Returns the first word of a line that has a pair, a side, a queue and bytes, if it is one.
pub fn frame_word_of(word: &[u8]) -> Option<FrameWord>
    ensures { option_map frame_steps_of result ≡ frame_steps word.now }
{
    value_of! { word:
        b"begin" => FrameWord::Begin,
        b"send" => FrameWord::Send,
    }
}

impl PairWord {
    /// Returns the step of the word on a pair.
    pub fn step(self, pair: u32) -> Step
        ensures { result ≡ pair_step_of self pair }
    {
        match self {
            PairWord::Train => Step::Train { pair },
            PairWord::Break => Step::Break { pair },
            PairWord::Drop => Step::DropDone { pair },
        }
    }
}

impl SideWord {
    /// Returns the steps of the word on a side with this many windows, at most 4.
    pub fn steps(self, windows: u32, pair: u32, side: Side) -> Macro
        requires { windows ≤ 4 }
        ensures { line_steps_of result ≡ side_steps_with self windows pair side }
    {
        let step = match self {
            SideWord::Enable => Step::Enable { pair, side },
            SideWord::Clean => Step::Clean { pair, side },
            SideWord::Offer => return once(Repeated::Offer { pair, side }),
            SideWord::Check => Step::Check { pair, side },
            SideWord::Irq => Step::Irq { pair, side },
            SideWord::OfferAll => {
                return Macro::Again {
                    repeated: Repeated::Offer { pair, side },
                    count: 2 * windows + 3,
                };
            }
        };
        Macro::One { step }
    }
}

impl QueueWord {
    /// Returns the steps of the word on a queue.
    #[inline]
    pub fn steps(self, pair: u32, side: Side, queue: u32) -> Macro
        ensures { line_steps_of result ≡ queue_steps_of self pair side queue }
    {
        match self {
            QueueWord::Ready => one(Step::Ready { pair, side, queue }),
            QueueWord::Join => one(Step::Join { pair, side, queue }),
            QueueWord::QpDown => one(Step::QpDown { pair, side, queue }),
            QueueWord::Post => once(Repeated::Post { pair, side, queue }),
            QueueWord::Look => once(Repeated::Look { pair, side, queue }),
            QueueWord::Copy => once(Repeated::Copy { pair, side, queue }),
            QueueWord::Clear => once(Repeated::Clear { pair, side, queue }),
            QueueWord::Ack => once(Repeated::Ack { pair, side, queue }),
            QueueWord::Recv => Macro::Received {
                pair,
                side,
                queue,
                copies: 1,
            },
        }
    }
}

impl NumberWord {
    /// Returns the least number that the step takes.
    pub fn least(self) -> u32
        ensures { result ≡ (numbered_of self).least }
    {
        match self {
            NumberWord::LandAll => 1,
            _ => 0,
        }
    }

    /// Returns the largest number that the step takes.
    pub fn most(self) -> u32
        ensures { result ≡ (numbered_of self).most }
    {
        match self {
            NumberWord::LandAll => MOST_STEPS as u32,
            NumberWord::ShowPad => 15,
            _ => u32::MAX,
        }
    }

    /// Returns the steps of the word on a side, with the number.
    #[inline]
    pub fn steps(self, pair: u32, side: Side, number: u32) -> Macro
        ensures { line_steps_of result ≡ (numbered_of self).steps pair side number }
    {
        let (place, bits, index) = (number, number, number);
        match self {
            NumberWord::Land => once(Repeated::Land { pair, side, place }),
            NumberWord::LandAll => Macro::Again {
                repeated: Repeated::Land {
                    pair,
                    side,
                    place: 0,
                },
                count: number,
            },
            NumberWord::Mask => one(Step::Mask { pair, side, bits }),
            NumberWord::Unmask => one(Step::Unmask { pair, side, bits }),
            NumberWord::ShowQueue => one(Step::ShowQueue { pair, side, place }),
            NumberWord::ShowPad => one(Step::ShowPad { pair, side, index }),
        }
    }
}

// Returns a step of its own.
fn one(step: Step) -> Macro
    ensures { line_steps_of result ≡ step ∷ [] }
{
    Macro::One { step }
}

// Returns a step of few numbers that stands once.
fn once(repeated: Repeated) -> Macro
    ensures { line_steps_of result ≡ step_again repeated ∷ [] }
{
    Macro::Again { repeated, count: 1 }
}
