//! The exit statuses of the program.

ghost use Rattle.std.specs.Prelude.{◌≡◌};
ghost use Rattle.command_reply.specs.Statuses.{number_of};

/// How a run of the program ends. Its number is the process's exit status.
#[derive(Clone, Copy, Debug, PartialEq, Eq)]
pub enum Status {
    /// Nothing went wrong: 0.
    Done,
    /// The words of the command line are no command: 2.
    Usage,
    /// A line of the input has a fault: 3.
    Refused,
    /// The source failed: 4.
    SourceFailed,
    /// The sink failed: 5.
    SinkFailed,
    /// Out of memory: 6.
    OutOfMemory,
    /// The input has more bytes than a script may have: 7.
    TooLong,
    /// An exploration would reach more states than it may: 8.
    TooManyStates,
}

impl Status {
    /// Returns the exit status that it is, 0 or 2 to 8.
    pub fn number(self) -> u8
        ensures { result ≡ number_of self }
    {
        match self {
            Status::Done => 0,
            Status::Usage => 2,
            Status::Refused => 3,
            Status::SourceFailed => 4,
            Status::SinkFailed => 5,
            Status::OutOfMemory => 6,
            Status::TooLong => 7,
            Status::TooManyStates => 8,
        }
    }
}
