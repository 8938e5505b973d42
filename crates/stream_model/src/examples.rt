//! Worked examples of the definitions.

ghost use Rattle.stream_model.specs.Examples.{ExamplesHold};

/// The definitions give what the worked examples say, of two items over sessions that are lost.
pub fn examples_hold()
    ensures { ExamplesHold }
{}
