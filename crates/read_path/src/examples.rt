//! Worked examples of the definitions.

ghost use Rattle.read_path.specs.Examples.{ExamplesHold};

/// The definitions give the answers and lists of the worked examples.
pub fn examples_hold()
    ensures { ExamplesHold }
{}
