//! Worked examples of the definitions.

ghost use Rattle.pair_model.specs.PlanExamples.{PlanExamplesHold};
ghost use Rattle.pair_model.specs.ByteExamples.{ByteExamplesHold};
ghost use Rattle.pair_model.specs.SwitchExamples.{SwitchExamplesHold};

/// The definitions give the numbers and lists of the worked examples.
pub fn plan_examples_hold()
    ensures { PlanExamplesHold }
{}

/// The definitions give the addresses, fields and bytes of the worked examples.
pub fn byte_examples_hold()
    ensures { ByteExamplesHold }
{}

/// The definitions give what the worked examples say, of frames through a switch with three ports.
pub fn switch_examples_hold()
    ensures { SwitchExamplesHold }
{}
