//! When a pass ends before its last turn.

/// What came of a turn.
#[derive(Clone, Copy, Debug, PartialEq, Eq, Drop)]
pub(crate) enum Turn {
    /// Something was sent, moved or received.
    Useful,
    /// Nothing was, and a later turn may do something.
    Idle,
    /// Nothing is left that a turn of this pass could do.
    Over,
}

/// After this many idle turns in a row a pass ends. So a pass with more turns than these came to something.
pub const IDLE_TURNS: u32 = 16;

/// How many turns in a row were idle.
#[derive(Clone, Copy, Debug, Drop)]
pub(crate) struct Idling {
    turns: u32,
}

impl Idling {
    /// Before the first turn.
    pub(crate) fn new() -> Idling {
        Idling { turns: 0 }
    }

    /// Returns whether the pass ends with the turn that this came of.
    pub(crate) fn ends_with(&mut self, turn: Turn) -> bool {
        match turn {
            Turn::Useful => {
                self.turns = 0;
                false
            }
            Turn::Idle => {
                self.turns = self.turns.saturating_add(1);
                self.turns >= IDLE_TURNS
            }
            Turn::Over => true,
        }
    }
}
