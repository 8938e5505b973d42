//! Worked examples of the definitions.

ghost use Rattle.lane_model.specs.Examples.{ExamplesHold};

/// The definitions give what the worked examples say: of one frame's way through a ring of two slots, of a payload in
/// parts, and of a link-down entry.
pub fn examples_hold()
    ensures { ExamplesHold }
{}
