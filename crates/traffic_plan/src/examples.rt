//! Worked examples of the definitions.

ghost use Rattle.traffic_plan.specs.Examples.{ExamplesHold};

/// The definitions give the numbers and lists of the worked examples.
pub fn examples_hold()
    ensures { ExamplesHold }
{}
