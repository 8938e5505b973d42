//! Laws of generated loads, each the clause of a function with an empty body.

ghost use Rattle.traffic_plan.specs.Laws.{FrameHasFewSteps, LoadIsWhole};

/// The steps of a frame are 30 at most, whatever its two words are.
pub fn frame_has_few_steps()
    ensures { FrameHasFewSteps }
{}

/// The plan of a load of at most 30,000 frames is one that a script can declare. So is its pair, each of its steps is
/// permitted, and there are at most 1,000,000 of them.
pub fn load_is_whole()
    ensures { LoadIsWhole }
{}
