//! A reply: the exit status and the text that a command answers.

ghost use Rattle.std.specs.Prelude.{◌≡◌, ◌<◌, ◌≤◌, length};
ghost use Rattle.command_reply.specs.Output.{reply_done, one_line, refused, refused_at, too_long, too_many_states, usage};

use crate::Status;
use arrayvec::ArrayString;
use itoa::Buffer;
use script_words::ScriptFault;
use std::marker::Model;

/// The most bytes of a line that a reply keeps in place, its line feed counted.
const MOST_LINE_BYTES: usize = 96;

// A text: one short line, which takes no memory, or bytes that were put together.
#[derive(Drop)]
enum ReplyText {
    Line(ArrayString<MOST_LINE_BYTES>),
    Built(Vec<u8>),
}

/// What a command answers: an exit status, and the text that is to be written. Contracts see it as an `Output`.
///
/// Each reply but one that is done takes no memory.
#[derive(Drop)]
pub struct Reply {
    status: Status,
    text: ReplyText,
}

impl Model for Reply {
    ghost use Rattle.command_reply.specs.Output.{Output};
    ghost use Rattle.command_reply.specs.Statuses.{number_of};
    ghost use Rattle.command_reply.specs.Texts.{reply_bytes_of};

    ghost Value = { Output };

    ghost view = { λ reply. record { status = number_of reply.status; text = reply_bytes_of reply.text } };
}

impl Reply {
    /// Returns the reply of a command that is done: status 0, and this text.
    pub fn done(text: Vec<u8>) -> Reply
        ensures { result ≡ reply_done text.items }
    {
        Reply {
            status: Status::Done,
            text: ReplyText::Built(text),
        }
    }

    /// Returns a reply of one line, kept in place: a text of less than 96 bytes, and a line feed.
    pub fn line(status: Status, text: &str) -> Reply
        requires { length text.now < 96 }
        ensures { result ≡ one_line status text.now }
    {
        let mut line = ArrayString::new();
        line.push_str(text);
        line.push_str("\n");
        Reply {
            status,
            text: ReplyText::Line(line),
        }
    }

    /// Returns the reply to words that are no command: status 2, and `usage`.
    pub fn usage() -> Reply
        ensures { result ≡ usage }
    {
        Reply::line(Status::Usage, "usage")
    }

    /// The reply to an input of more bytes than a script may have: status 7, and `too long`.
    pub fn too_long() -> Reply
        ensures { result ≡ too_long }
    {
        Reply::line(Status::TooLong, "too long")
    }

    /// Returns the reply to an exploration that would reach more states than it may: status 8, and `too many states`.
    pub fn too_many_states() -> Reply
        ensures { result ≡ too_many_states }
    {
        Reply::line(Status::TooManyStates, "too many states")
    }

    /// Returns the reply to an input that is refused at a line, by a cause of at most 64 bytes: status 3, and
    /// `refused line L CAUSE`.
    pub fn refused_at(line: u32, cause: &str) -> Reply
        requires { length cause.now ≤ 64 }
        ensures { result ≡ refused_at line cause.now }
    {
        let mut number = Buffer::new();
        let mut text = ArrayString::new();
        text.push_str("refused line ");
        text.push_str(number.format(line));
        text.push_str(" ");
        text.push_str(cause);
        text.push_str("\n");
        Reply {
            status: Status::Refused,
            text: ReplyText::Line(text),
        }
    }

    /// Returns the reply to a script with a fault: status 3, and the line and the cause of the fault.
    pub fn refused(fault: ScriptFault) -> Reply
        ensures { result ≡ refused fault }
    {
        Reply::refused_at(fault.line, fault.fault.cause.word())
    }

    /// Returns the exit status, 0 or 2 to 8.
    pub fn status(&self) -> u8
        ensures { result ≡ self.now.status }
    {
        self.status.number()
    }

    /// Returns the bytes of the text.
    pub fn text(&self) -> &[u8]
        ensures { result.now ≡ self.now.text }
    {
        match &self.text {
            ReplyText::Line(line) => line.as_str().as_bytes(),
            ReplyText::Built(bytes) => bytes,
        }
    }
}
