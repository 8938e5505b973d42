//! Worked examples of the definitions.

ghost use Rattle.reads_command.specs.Examples.{ExamplesHold};

/// The definitions give the reply to a text of reads, and the number of a line that they refuse.
pub fn examples_hold()
    ensures { ExamplesHold }
{}
