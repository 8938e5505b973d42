//! The laws of what a fabric keeps, each the clause of a function with an empty body.

ghost use Rattle.fabric_rule.specs.Laws.{EachStepStands, FreshPairStands};

/// What is kept of a pair before any step represents no steps. Premise: the pair is one that a script can declare.
pub fn fresh_pair_stands()
    ensures { FreshPairStands }
{}

/// If what is kept of a pair represents the steps that were made, a further one on it is answered as the ledger says.
/// The ledger answers by its entries on an ordinary pair, and by the bytes in memory on a raw one. Then what is kept
/// represents one step more. Premises: the plan is one that a script can declare, has the pair, and permits each of the
/// steps.
pub fn each_step_stands()
    ensures { EachStepStands }
{}
