//! Fabrics that no step can tell apart.

ghost use Rattle.fabric_core.specs.InFlight.{KeyOnceLanded, SameKeys};
ghost use Rattle.fabric_core.specs.Same.{OneListMakesSame, SameHasMadeSame};

/// A fabric that is the same as another has made whatever list of a plan's steps the other has made. Premise: it has
/// made some list of that plan itself. It does nothing: its clause is the law.
pub fn same_has_made_same()
    ensures { SameHasMadeSame }
{}

/// Two fabrics that have made one list of steps are the same. It does nothing: its clause is the law.
pub fn one_list_makes_same()
    ensures { OneListMakesSame }
{}

/// Two fabrics that have made one list of steps have the same key. It does nothing: its clause is the law.
pub fn same_keys()
    ensures { SameKeys }
{}

/// If a landing is answered `landed`, the key without that write is the key of each fabric that has made the same steps
/// and the landing after them. No premise. It does nothing: its clause is the law.
pub fn key_once_landed()
    ensures { KeyOnceLanded }
{}
