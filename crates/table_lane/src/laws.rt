//! What holds of each step of the mover and of the way back, each the clause of a function with an empty body.

ghost use Rattle.table_lane.specs.Tries.{EachMoveIsATry, EachStepBackIsALoad};

/// Each step of the mover raises what it counts together by at least one: its loads of posted headers, and the headers
/// and flags that it stored. It stays in a ring of as many entries.
#[tactic(auto, using(crate::proofs::Tries::each_move_is_a_try))]
pub fn each_move_is_a_try()
    ensures { EachMoveIsATry }
{}

/// Each step of the way back loads index out just once, and it stays in a ring of as many entries.
#[tactic(auto, using(crate::proofs::Tries::each_step_back_is_a_load))]
pub fn each_step_back_is_a_load()
    ensures { EachStepBackIsALoad }
{}
