//! A flag for each of the two sides of a pair.

ghost use Rattle.std.specs.Prelude.{true, ◌≡◌};
ghost use Rattle.pair_model.specs.Both.{at_side, both_of, with_side};
ghost use Rattle.link_state.specs.Flags.{both_flags};

use step_kinds::Side;

#[derive(Clone, Copy, Debug, PartialEq, Eq)]
pub struct Flags {
    pub a: bool,
    pub b: bool,
}

impl Flags {
    /// Returns the same flag for both sides.
    pub fn both(flag: bool) -> Flags
        ensures { both_flags result ≡ both_of flag }
    {
        Flags { a: flag, b: flag }
    }

    /// Returns the flag of a side.
    pub fn at(&self, side: Side) -> bool
        ensures { result ≡ at_side (both_flags self.now) side }
    {
        match side {
            Side::A => self.a,
            Side::B => self.b,
        }
    }

    /// Sets the flag of a side.
    pub fn set(&mut self, side: Side)
        ensures { both_flags self.new ≡ with_side (both_flags self.old) side true }
    {
        match side {
            Side::A => self.a = true,
            Side::B => self.b = true,
        }
    }
}
