//! What a round of a session is to come to.

ghost use Rattle.std.specs.Prelude.{◌≤◌};

/// How far a round goes, and at which ring.
#[derive(Clone, Copy, Debug, Drop)]
pub struct Aim {
    /// How many frames the session is to bring: with as many taken the round is over.
    pub total: usize,
    /// With how many frames taken the link is cut, if it is.
    pub cut_after: Option<usize>,
    /// How many entries the ring has.
    pub entries: u32,
}

/// The most turns of a pass of the taker.
const TAKER_TURNS: u32 = 4_096;

/// The most turns of it if a cut waits for frames.
const FEW_TURNS: usize = 64;

/// The most turns of a pass if one thread makes those of all workers in turn.
const TURNS_IN_TURN: usize = 1_024;

impl Aim {
    /// Returns whether the link is to be cut with this many frames taken.
    pub(crate) fn is_cut_due(&self, taken: usize) -> bool {
        self.cut_after.is_some_and(|count| taken >= count)
    }

    /// Returns whether nothing is left to do with this many frames taken.
    pub(crate) fn is_reached(&self, taken: usize) -> bool {
        self.cut_after.is_none() && taken >= self.total
    }

    /// Returns how many turns a pass of the taker has, at most, in a round that begins with this many frames taken.
    pub(crate) fn taker_turns(&self, taken: usize) -> u32
        ensures { 1 ≤ result }
    {
        match self.cut_after {
            None => TAKER_TURNS,
            Some(count) => count.saturating_sub(taken).clamp(1, FEW_TURNS) as u32,
        }
    }

    /// Returns how many turns a pass has, at most, if one thread makes those of all workers in turn. They are as many
    /// as the ring takes frames, and no more than the session brings.
    pub(crate) fn turns_in_turn(&self) -> u32
        ensures some { 1 ≤ result }
        ensures few { result ≤ 1024 }
    {
        let most = self.total.clamp(1, TURNS_IN_TURN) as u32;
        self.entries.saturating_sub(1).clamp(1, most)
    }
}
