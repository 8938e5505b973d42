//! The options of a pair: which are the same, and their ranges.

ghost use Rattle.std.specs.Prelude.{◌≡◌};
ghost use Rattle.pair_settings.specs.Settings as rules;

use step_kinds::Side;
use step_kinds::limits::{
    LEAST_MTU, LEAST_SIZE, MOST_MTU, MOST_QUEUES, MOST_SIZE, MOST_WINDOWS, SIZE_STEP,
};

/// A range of numbers, both ends included: those that an option may have, or that a word may spell.
#[derive(Clone, Copy, Debug, PartialEq, Eq)]
pub struct Range {
    /// The least of them.
    pub least: u32,
    /// The largest of them.
    pub most: u32,
}

/// A number that each side of a pair has.
#[derive(Clone, Copy, Debug, PartialEq, Eq)]
pub enum SideKey {
    /// The bytes of each window that the side sends through.
    Size,
    /// The bytes of the largest window that the side's memory gives.
    Cap,
    /// The translation windows that the side sends through.
    Windows,
    /// The queues.
    Queues,
    /// The version of the transport.
    Version,
}

/// One option of a pair.
#[derive(Clone, Copy, Debug, PartialEq, Eq)]
pub enum Setting {
    /// `up`: the pair starts up.
    Up,
    /// `strict`: all its writes are strict.
    Strict,
    /// `raw`: bytes and scratchpads may be written past the transport.
    Raw,
    /// `mtu=NUMBER`: the most bytes of an entry with its header.
    Mtu {
        number: u32,
    },
    /// `KEY=NUMBER`: a number of both sides, or of one where `A` or `B` stands after the key.
    OfSide {
        key: SideKey,
        side: Option<Side>,
        number: u32,
    },
}

impl SideKey {
    /// Returns the key as it is written.
    pub fn text(self) -> &'static [u8]
        ensures { result.now ≡ rules.key_text self }
    {
        match self {
            SideKey::Size => b"size",
            SideKey::Cap => b"cap",
            SideKey::Windows => b"windows",
            SideKey::Queues => b"queues",
            SideKey::Version => b"version",
        }
    }

    /// Returns the range of a number of this key.
    pub fn range(self) -> Range
        ensures { result ≡ rules.key_range self }
    {
        match self {
            SideKey::Size | SideKey::Cap => Range {
                least: LEAST_SIZE as u32,
                most: MOST_SIZE as u32,
            },
            SideKey::Windows => Range {
                least: 1,
                most: MOST_WINDOWS,
            },
            SideKey::Queues => Range {
                least: 1,
                most: MOST_QUEUES,
            },
            SideKey::Version => Range { least: 3, most: 5 },
        }
    }

    /// Returns whether a number of bytes is a whole number of steps, if the key's is one of bytes.
    fn is_stepped(self, number: u32) -> bool
        ensures { result ≡ rules.is_stepped self number }
    {
        match self {
            SideKey::Size | SideKey::Cap => number % SIZE_STEP as u32 == 0,
            SideKey::Windows | SideKey::Queues | SideKey::Version => true,
        }
    }

    /// Returns whether this is the same key.
    pub fn is_same(self, other: SideKey) -> bool
        ensures { result ≡ rules.same_key self other }
    {
        self.text() == other.text()
    }
}

impl Setting {
    /// Returns whether this is the same option, whatever its number is.
    pub fn is_same(&self, other: &Setting) -> bool
        ensures { result ≡ rules.same_setting self.now other.now }
    {
        match (*self, *other) {
            (Setting::Up, Setting::Up) => true,
            (Setting::Strict, Setting::Strict) => true,
            (Setting::Raw, Setting::Raw) => true,
            (Setting::Mtu { .. }, Setting::Mtu { .. }) => true,
            (
                Setting::OfSide { key, side, .. },
                Setting::OfSide {
                    key: other,
                    side: scope,
                    ..
                },
            ) => { key.is_same(other) && is_same_scope(side, scope) }
            _ => false,
        }
    }

    /// Returns the range of the option's number, if it has one.
    pub fn range(&self) -> Option<Range>
        ensures { result ≡ rules.range_of self.now }
    {
        match *self {
            Setting::Up | Setting::Strict | Setting::Raw => None,
            Setting::Mtu { .. } => Some(mtu_range()),
            Setting::OfSide { key, .. } => Some(key.range()),
        }
    }

    /// Returns whether the option's number, taken by itself, is one that it may have. It lies in [`Setting::range`],
    /// and a size or a cap is a multiple of 4,096. An option without a number is always in range.
    pub fn is_in_range(&self) -> bool
        ensures { result ≡ rules.in_range self.now }
    {
        match *self {
            Setting::Up | Setting::Strict | Setting::Raw => true,
            Setting::Mtu { number } => is_within(mtu_range(), number),
            Setting::OfSide { key, number, .. } => {
                is_within(key.range(), number) && key.is_stepped(number)
            }
        }
    }
}

/// Returns whether two options of a key are for the same sides.
pub fn is_same_scope(side: Option<Side>, other: Option<Side>) -> bool
    ensures { result ≡ rules.same_scope side other }
{
    match (side, other) {
        (None, None) => true,
        (Some(side), Some(other)) => side.is(other),
        (Some(_), None) | (None, Some(_)) => false,
    }
}

/// Returns the range of the largest transfer unit.
fn mtu_range() -> Range
    ensures { result ≡ rules.mtu_range }
{
    Range {
        least: LEAST_MTU,
        most: MOST_MTU,
    }
}

/// Returns whether a number is one of the range.
fn is_within(range: Range, number: u32) -> bool
    ensures { result ≡ rules.is_within range number }
{
    range.least <= number && number <= range.most
}
