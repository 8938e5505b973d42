//! Worked examples of the definitions.

ghost use Rattle.explore_model.specs.Examples.{ExamplesHold};

/// The definitions give what the worked examples say: the schedules of a script with two outcomes, and its text.
pub fn examples_hold()
    ensures { ExamplesHold }
{}
