//! The passes of the worker that gives a stream's frames to its lane.

ghost use Rattle.std.specs.Prelude.{◌≡◌, ◌+◌, ◌-◌, ◌≤◌, ◌<◌, ◌^◌};
ghost use Rattle.lane_workers.specs.Passes.{LetsTurns};
ghost use Rattle.cluster_run.specs.stream.Ends.{StreamGoesOn, HasOffered};

use lane_workers::{IDLE_TURNS, TurnGate};
use resume_stream::StreamSender;
use std::alloc::AllocError;
use stream_laws::laws::next_follows;
use table_lane::{SendAnswer, SendEnd};

/// What came of a turn.
#[derive(Clone, Copy, Debug, PartialEq, Eq)]
pub(crate) enum Turn {
    /// A frame was sent.
    Sent,
    /// The ring had no room: the frame was given back.
    Refused,
    /// Nothing is left to send, or the link was cut.
    Over,
}

/// What a pass came to.
#[derive(Clone, Copy, Debug, Drop)]
pub(crate) struct Pass {
    /// How many turns it made.
    pub(crate) turns: u32,
    /// How many frames it sent.
    pub(crate) sent: u32,
    /// What came of its last turn.
    pub(crate) last: Turn,
}

// One turn: the stream's next frame is sent, or given back where the lane refuses it. Returns an error if memory runs
// out.
fn offer(sender: &mut StreamSender, end: &mut SendEnd) -> Result<Turn, AllocError>
    requires { HasOffered sender.old end.old.part.sent }
    ensures offered { HasOffered sender.new end.new.part.sent }
    ensures stream { StreamGoesOn sender.old sender.new }
    ensures lane { end.new.lane ≡ end.old.lane }
    ensures entries { end.new.part.entries ≡ end.old.part.entries }
{
    // What was given is what was sent.
    next_follows();
    let Some(frame) = sender.next_frame()? else {
        return Ok(Turn::Over);
    };
    match end.send(frame) {
        SendAnswer::Sent { .. } => Ok(Turn::Sent),
        SendAnswer::NoRoom { frame, .. } => {
            sender.give_back(frame);
            Ok(Turn::Refused)
        }
        SendAnswer::Cut { frame } => {
            sender.give_back(frame);
            Ok(Turn::Over)
        }
    }
}

// Returns how many turns in a row were refused, with one turn more.
fn refused_after(refused: u32, turn: Turn) -> u32 {
    match turn {
        Turn::Sent => 0,
        Turn::Refused => refused.saturating_add(1),
        Turn::Over => refused,
    }
}

/// Makes at least 1 and at most this many turns. Before each it passes the gate with the turn's number, counted from
/// `first`. It ends early if nothing is left to send, if the link was cut, or if the ring had no room for a
/// while. Returns an error if memory runs out.
pub(crate) fn offer_pass<G: TurnGate>(
    sender: &mut StreamSender,
    end: &mut SendEnd,
    gate: &G,
    worker: u32,
    first: u64,
    turns: u32,
) -> Result<Pass, AllocError>
    requires offered { HasOffered sender.old end.old.part.sent }
    requires fits { first + turns < 2 ^ 64 }
    requires gate { LetsTurns (G.lets gate.now) worker first turns }
    ensures offered { HasOffered sender.new end.new.part.sent }
    ensures stream { StreamGoesOn sender.old sender.new }
    ensures lane { end.new.lane ≡ end.old.lane }
    ensures entries { end.new.part.entries ≡ end.old.part.entries }
{
    let mut pass = Pass {
        turns: 0,
        sent: 0,
        last: Turn::Refused,
    };
    let mut refused = 0;
    while pass.turns < turns && pass.last != Turn::Over && refused < IDLE_TURNS {
        gate.admit(worker, first + u64::from(pass.turns));
        let turn = offer(sender, end)?;
        refused = refused_after(refused, turn);
        pass = pass.with(turn);
    }
    Ok(pass)
}

impl Pass {
    // Returns the pass with one turn more.
    fn with(self, turn: Turn) -> Pass
        requires { self.turns < 2 ^ 32 - 1 }
        ensures { result.turns ≡ self.turns + 1 }
    {
        Pass {
            turns: self.turns + 1,
            sent: match turn {
                Turn::Sent => self.sent.saturating_add(1),
                Turn::Refused | Turn::Over => self.sent,
            },
            last: turn,
        }
    }
}
