//! Steps that are refused.

ghost use Rattle.fabric_core.specs.Refusals.{RefusedAgain};

/// A step that was refused is refused again in the same way as often as it is made again at once. The fabric needn't
/// make it: as it is, it represents these steps too. A device's begin is no such step, since its refusals are counted.
/// It does nothing: its clause is the law.
pub fn refused_again()
    ensures { RefusedAgain }
{}
