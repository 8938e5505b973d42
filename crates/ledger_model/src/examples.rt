//! Worked examples of the definitions.

ghost use Rattle.ledger_model.specs.Examples.{ExamplesHold};
ghost use Rattle.ledger_model.specs.MemoryExamples.{MemoryExamplesHold};
ghost use Rattle.ledger_model.specs.NetworkExamples.{NetworkExamplesHold};

/// The definitions give the answers of worked examples.
pub fn examples_hold()
    ensures { ExamplesHold }
{}

/// The definitions give what the worked examples say.
pub fn memory_examples_hold()
    ensures { MemoryExamplesHold }
{}

/// The definitions give what the worked examples say, of frames that cross two pairs by a switch.
pub fn network_examples_hold()
    ensures { NetworkExamplesHold }
{}
