//! The words of a command line.

ghost use Rattle.std.specs.Prelude.{◌≡◌, ◌&&◌, ◌^◌, Some, None, IfSome, if◌then◌else◌, map, nat_lt, option_map};
ghost use Rattle.std.specs.List.{list_all};
ghost use Rattle.std.specs.String.{string_bytes};
ghost use Rattle.script_words.specs.Words.{is_digit, value_from};
ghost use Rattle.ntb_top.specs.Commands.{IsInRange, command_of as command_by_words, command_reads, load_command, lone_command as lone_command_by_word, number_below, plain_part};
ghost use Rattle.ntb_top.specs.declared.command.Command.TheVariants.{Plain};

use script_words::words::read_number;
use traffic_plan::MOST_LOAD_FRAMES;

/// What the program is asked to do.
#[derive(Clone, Copy, Debug, PartialEq, Eq)]
pub enum Command {
    /// One that takes no thread.
    Plain(PlainCommand),
    /// One that threads do.
    Threaded(ThreadedCommand),
}

/// What the program is asked to do without threads.
#[derive(Clone, Copy, Debug, PartialEq, Eq)]
pub enum PlainCommand {
    /// To read a script, make its steps and write the report.
    Replay,
    /// To replay a generated plan and write one line of summary.
    Load {
        /// The generator's seed.
        seed: u64,
        /// How many frames are sent, 1 to 30,000.
        frames: u32,
    },
    /// To read a text of writes and reads across a bridge, make its steps and write their answers.
    Reads,
    /// To read a script, make its steps and write a line of JSON for each, with the writes that it concerns.
    Trace,
    /// To read a script and write how much it declares, or where and why it is refused.
    Check,
    /// To read a script, make its steps with every choice of further landings, and write all outcomes.
    Explore,
}

impl PlainCommand {
    /// Returns whether the command reads its source.
    pub fn reads(self) -> bool
        ensures { result ≡ command_reads (Plain self) }
    {
        match self {
            PlainCommand::Replay
            | PlainCommand::Reads
            | PlainCommand::Trace
            | PlainCommand::Check
            | PlainCommand::Explore => true,
            PlainCommand::Load { .. } => false,
        }
    }
}

/// What the program is asked to do by threads.
#[derive(Clone, Copy, Debug, PartialEq, Eq)]
pub enum ThreadedCommand {
    /// To read a script, send its traffic by threads and write what became of it.
    Run,
    /// To read a script, send its traffic by threads as resumable streams and write what they brought.
    Stream,
}

/// Returns the command that the words of a command line are: `replay`, `trace`, `check`, `explore`, `run`, `stream`,
/// `reads`, or `load SEED FRAMES`.
pub fn command_of(words: &[String]) -> Option<Command>
    ensures words { result ≡ command_by_words (map string_bytes words.now) }
    ensures range { IfSome result IsInRange }
{
    match words {
        [word] => lone_command(word.as_bytes()),
        [word, seed, frames] if word.as_bytes() == b"load".as_slice() => {
            load_of(seed.as_bytes(), frames.as_bytes())
        }
        _ => None,
    }
}

/// Returns the command without threads that the words of a command line are, if they are one.
pub fn plain_of(words: &[String]) -> Option<PlainCommand>
    ensures words { result ≡ plain_part (command_by_words (map string_bytes words.now)) }
    ensures range { IfSome (option_map Plain result) IsInRange }
{
    match command_of(words)? {
        Command::Plain(command) => Some(command),
        Command::Threaded(_) => None,
    }
}

// Returns the command of one word that a word is.
fn lone_command(word: &[u8]) -> Option<Command>
    ensures words { result ≡ lone_command_by_word word.now }
    ensures range { IfSome result IsInRange }
{
    if word == b"replay".as_slice() {
        Some(Command::Plain(PlainCommand::Replay))
    } else if word == b"run".as_slice() {
        Some(Command::Threaded(ThreadedCommand::Run))
    } else if word == b"stream".as_slice() {
        Some(Command::Threaded(ThreadedCommand::Stream))
    } else if word == b"reads".as_slice() {
        Some(Command::Plain(PlainCommand::Reads))
    } else if word == b"trace".as_slice() {
        Some(Command::Plain(PlainCommand::Trace))
    } else if word == b"check".as_slice() {
        Some(Command::Plain(PlainCommand::Check))
    } else if word == b"explore".as_slice() {
        Some(Command::Plain(PlainCommand::Explore))
    } else {
        None
    }
}

// Returns the load that a seed and a number of frames say.
fn load_of(seed: &[u8], frames: &[u8]) -> Option<Command>
    ensures words { result ≡ load_command (number_below (2 ^ 64) seed.now) (number_below (2 ^ 32) frames.now) }
    ensures range { IfSome result IsInRange }
{
    let seed = seed_of(seed)?;
    let frames = read_number(frames).ok()?;
    if frames > 0 && frames <= MOST_LOAD_FRAMES {
        Some(Command::Plain(PlainCommand::Load { seed, frames }))
    } else {
        None
    }
}

// Returns the number below 2^64 that a word spells: decimal digits without a leading zero but for zero itself.
fn seed_of(word: &[u8]) -> Option<u64>
    ensures { result ≡ number_below (2 ^ 64) word.now }
{
    match word {
        [] | [b'0', _, ..] => None,
        _ => digits_of(word),
    }
}

// Returns the value of decimal digits, below 2^64.
fn digits_of(digits: &[u8]) -> Option<u64>
    ensures { result ≡ (if list_all is_digit digits.now && nat_lt (value_from 0 digits.now) (2 ^ 64) then Some (value_from 0 digits.now) else None) }
{
    let mut value = 0u64;
    for digit in digits {
        if !digit.is_ascii_digit() {
            return None;
        }
        value = value
            .checked_mul(10)?
            .checked_add(u64::from(*digit - b'0'))?;
    }
    Some(value)
}
