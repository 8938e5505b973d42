//! Laws of plans and of the database of a switch, each the clause of a function with an empty body.

ghost use Rattle.pair_model.specs.PlanLaws.{EachQueueHasARing};
ghost use Rattle.pair_model.specs.SwitchLaws.{FloodReachesOthers, FloodSparesItsPort, FoundIsBelow, LearnedIsFound, OthersStay, PortsAreBelow, StationsAreFew};

/// Each queue of each side of a declared pair has a ring to send to and a ring to receive in. Each ring has two entries
/// at least, each of them with a header and at least four bytes more.
pub fn each_queue_has_a_ring()
    ensures { EachQueueHasARing }
{}

/// A station that was learned is on the port on which it was seen last, if it was known before or fewer than 256
/// stations were. Else it isn't known after it either.
pub fn learned_is_found()
    ensures { LearnedIsFound }
{}

/// Learning a station leaves where all others are.
pub fn others_stay()
    ensures { OthersStay }
{}

/// Learning keeps the stations at 256 or fewer.
pub fn stations_are_few()
    ensures { StationsAreFew }
{}

/// If each station is on a port of the switch, this holds after learning one on a port of the switch.
pub fn ports_are_below()
    ensures { PortsAreBelow }
{}

/// If each station is on a port of the switch, a lookup gives a port of the switch, if any.
pub fn found_is_below()
    ensures { FoundIsBelow }
{}

/// A flooded frame joins the waiting frames of each other port once, as the last.
pub fn flood_reaches_others()
    ensures { FloodReachesOthers }
{}

/// A flood leaves the waiting frames of the port that the frame came from as they are.
pub fn flood_spares_its_port()
    ensures { FloodSparesItsPort }
{}
