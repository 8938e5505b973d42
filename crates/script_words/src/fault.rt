//! Why a script is refused.

ghost use Rattle.std.specs.Prelude.{◌≡◌};
ghost use Rattle.script_words.specs.Causes.{cause_number, cause_text};
ghost use Rattle.script_words.specs.Tests as tests;

use pair_settings::Range;
use std::alloc::AllocError;

/// Why a line of a script is refused. Within a line the first cause in the order of the tests is the one that is named.
/// The tests come in this order:
///
/// 1. whether the bytes are text,
/// 2. the header,
/// 3. the first word and the number of words,
/// 4. the other words from left to right, each one's spelling before what it names and its range,
/// 5. the line as a whole.
///
/// Each cause has a [word](Cause::word) and a [number](Cause::number). In the order in which they stand here, the
/// numbers are 1 to 10, 12 and 13.
#[derive(Clone, Copy, Debug, PartialEq, Eq)]
pub enum Cause {
    /// A byte of the line is neither a printed character nor a space.
    NotText,
    /// Line 1 isn't `ntb 1`, or there is no byte at all.
    BadHeader,
    /// The first word may not stand in this part of the script, or the number of words isn't one that it takes. Or an
    /// option isn't known, or another word stands where `stop=` or `start=` has to.
    UnknownWord,
    /// A number is misspelled. Or it is outside its argument's range, and isn't that of an option or of a threshold.
    BadNumber,
    /// A name or a side is misspelled.
    BadName,
    /// A name of its kind, an option or a key stands twice, or a pair names one host twice. Or a queue has a second
    /// device or a second class, or a device is a port already.
    Repeated,
    /// A host, a pair, a device or a switch isn't declared, a queue isn't one of the side's, or a window isn't one of
    /// both sides'. Or a port isn't one of the switch's, or a device is no port.
    UnknownName,
    /// Bytes, an address or a kind are misspelled.
    BadHex,
    /// The number of an option or of a device's threshold isn't one that it may have. Or the numbers of a pair, of a
    /// device or of traffic don't go together.
    BadGeometry,
    /// A limit on hosts, pairs, devices, switches, steps, bytes of a frame or of a poke, or traffic is passed by this
    /// line.
    TooMany,
    /// A poke, or a write of a scratchpad that the transport uses, on a pair that isn't raw; or traffic on a pair that
    /// may have none.
    BadPair,
    /// The devices of a switch aren't all on sides of one host.
    BadSwitch,
}

impl Cause {
    /// Returns the word of the cause, as it is in the answer to a script that is refused.
    pub fn word(self) -> &'static str
        ensures { result.now ≡ cause_text self }
    {
        match self {
            Cause::NotText => "nottext",
            Cause::BadHeader => "badheader",
            Cause::UnknownWord => "unknownword",
            Cause::BadNumber => "badnumber",
            Cause::BadName => "badname",
            Cause::Repeated => "repeated",
            Cause::UnknownName => "unknownname",
            Cause::BadHex => "badhex",
            Cause::BadGeometry => "badgeometry",
            Cause::TooMany => "toomany",
            Cause::BadPair => "badpair",
            Cause::BadSwitch => "badswitch",
        }
    }

    /// Returns the number of the cause: 1 to 10, 12 or 13, since no cause has the number 11.
    pub fn number(self) -> u8
        ensures { result ≡ cause_number self }
    {
        match self {
            Cause::NotText => 1,
            Cause::BadHeader => 2,
            Cause::UnknownWord => 3,
            Cause::BadNumber => 4,
            Cause::BadName => 5,
            Cause::Repeated => 6,
            Cause::UnknownName => 7,
            Cause::BadHex => 8,
            Cause::BadGeometry => 9,
            Cause::TooMany => 10,
            Cause::BadPair => 12,
            Cause::BadSwitch => 13,
        }
    }

    /// Returns the fault at a word of the line, the first of which is word 1.
    #[inline]
    pub fn at(self, word: u32) -> LineFault
        ensures { result ≡ tests.fault_at word self }
    {
        LineFault {
            word,
            cause: self,
            range: None,
        }
    }

    /// Returns the fault of the line as a whole.
    #[inline]
    pub fn of_line(self) -> LineFault
        ensures { result ≡ tests.whole self }
    {
        self.at(0)
    }

    /// Returns the fault at a word that should spell a number of a range.
    #[inline]
    pub fn outside(self, word: u32, range: Range) -> LineFault
        ensures { result ≡ tests.outside word range.least range.most self }
    {
        LineFault {
            word,
            cause: self,
            range: Some(range),
        }
    }
}

/// Why a line is refused, and where.
#[derive(Clone, Copy, Debug, PartialEq, Eq)]
pub struct LineFault {
    /// The word at which the fault was found, from 1; 0 for the line as a whole.
    pub word: u32,
    /// Why the line is refused.
    pub cause: Cause,
    /// The range of the number that the word should spell, if it has one by itself and the number isn't of it. Of an
    /// option it stands with [`Cause::BadGeometry`] alone.
    pub range: Option<Range>,
}

/// Returns the fault of a line whose first word isn't known in its part of the script, or whose words are too few or
/// too many.
#[inline]
pub fn unknown_line() -> LineFault
    ensures { result ≡ tests.unknown_line }
{
    Cause::UnknownWord.at(1)
}

/// Returns what a word gives, or the fault at that word.
///
/// # Errors
///
/// The fault of the cause at the word, if and only if `given` is a cause.
#[inline(always)]
pub fn at<T>(word: u32, given: Result<T, Cause>) -> Result<T, LineFault>
    ensures { result ≡ tests.at word given }
{
    match given {
        Ok(value) => Ok(value),
        Err(cause) => Err(cause.at(word)),
    }
}

/// Returns what a word gives that should spell a number of a range, or the fault at that word.
///
/// # Errors
///
/// The fault of the cause at the word, with the range, if and only if `given` is a cause.
#[inline(always)]
pub fn within<T>(word: u32, range: Range, given: Result<T, Cause>) -> Result<T, LineFault>
    ensures { result ≡ tests.within word range.least range.most given }
{
    match given {
        Ok(value) => Ok(value),
        Err(cause) => Err(cause.outside(word, range)),
    }
}

/// The first line of a script that has a fault, and its first fault.
#[derive(Clone, Copy, Debug, PartialEq, Eq)]
pub struct ScriptFault {
    /// The line's number, from 1.
    pub line: u32,
    /// Why the line is refused, and where.
    pub fault: LineFault,
}

/// Why a reader gives nothing.
#[derive(Clone, Copy, Debug, PartialEq, Eq)]
pub enum ReadError {
    /// What it reads has a fault.
    Fault(Cause),
    /// There is no memory for what it gives.
    OutOfMemory,
}

impl From<Cause> for ReadError {
    ghost use Rattle.script_words.specs.declared.fault.ReadError.TheVariants.{Fault};

    ghost from_gives = { λ cause error. error ≡ Fault cause };

    fn from(cause: Cause) -> ReadError {
        ReadError::Fault(cause)
    }
}

impl From<AllocError> for ReadError {
    ghost use Rattle.script_words.specs.declared.fault.ReadError.TheVariants.{OutOfMemory};

    ghost from_gives = { λ _ error. error ≡ OutOfMemory };

    fn from(_error: AllocError) -> ReadError {
        ReadError::OutOfMemory
    }
}

/// Why a line gives nothing.
#[derive(Clone, Copy, Debug, PartialEq, Eq)]
pub enum LineError {
    /// The line has a fault.
    Fault(LineFault),
    /// There is no memory for what the line gives.
    OutOfMemory,
}

impl From<LineFault> for LineError {
    ghost use Rattle.script_words.specs.declared.fault.LineError.TheVariants.{Fault};

    ghost from_gives = { λ fault error. error ≡ Fault fault };

    fn from(fault: LineFault) -> LineError {
        LineError::Fault(fault)
    }
}

impl From<AllocError> for LineError {
    ghost use Rattle.script_words.specs.declared.fault.LineError.TheVariants.{OutOfMemory};

    ghost from_gives = { λ _ error. error ≡ OutOfMemory };

    fn from(_error: AllocError) -> LineError {
        LineError::OutOfMemory
    }
}
