//! Steps that are refused.

ghost use Rattle.cluster_core.specs.Refusals.{ClusterRefusedAgain};

/// A step that was refused is refused again in the same way as often as it is made again at once. The cluster needn't
/// make it: as it is, it has made these steps too. A device's begin is no such step, since its refusals are counted,
/// nor is a step of a switch. It does nothing: its clause is the law.
pub fn refused_again()
    ensures { ClusterRefusedAgain }
{}
