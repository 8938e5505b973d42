//! What holds of every table that shows a lane, each the clause of a function with an empty body.

ghost use Rattle.table_lane.specs.Owners.{OwnersHaveSlots};
ghost use Rattle.table_lane.specs.Seated.{SeatsHaveSlotsOut, SlotsOutAreWithSeats};
ghost use Rattle.table_lane.specs.Loads.{CutStays, JoinsAreNoSteps, LoadsAreNoSteps, SeenCutsAreMade, SplitsAreNoSteps};
ghost use Rattle.table_lane.specs.Kinds.{Claims, Sends, Takes, StoresHeader, StoresFlag, Looks, Copies, Clears, Acknowledges, LoadsIndex, StoresIndex, Cuts};

/// Each slot has one owner, that of its entry in the lane that the table shows, and is where that owner has it.
#[tactic(auto, using(crate::proofs::Owners::owners_have_slots))]
pub fn slots_are_with_their_owners()
    ensures { OwnersHaveSlots }
{}

/// Each step of the sender on the table is its steps of the lane, which the table then shows. If the slot of the next
/// entry goes to the sender, these are none. If its posted header is stored, the entry is begun and all its writes are
/// posted.
///
/// The slot goes to a sender that has none, if the index word shows room. A header is stored by a sender that has a
/// slot, for a frame of at most 65,536 bytes. Before it fewer than 2^62 frames were sent, and each position has its
/// words.
#[tactic(auto, using(crate::proofs::SenderShows::claims, crate::proofs::SenderShows::sends))]
pub fn sender_steps_are_of_the_lane()
    ensures claims { Claims }
    ensures sends { Sends }
{}

/// Each step of the mover on the table is its steps of the lane, which the table then shows. They are none where a slot
/// goes to it. The fields of an entry land with its header, and the flags and the doorbell with its flag.
///
/// A slot goes to it where the posted header of the next entry is new. A header is that of a held entry whose header
/// isn't stored, a flag that of the first held entry, whose header is stored.
#[tactic(auto, using(crate::proofs::MoverShows::takes, crate::proofs::MoverShows::stores_header, crate::proofs::MoverShows::stores_flag))]
pub fn mover_steps_are_of_the_lane()
    ensures takes { Takes }
    ensures stores_header { StoresHeader }
    ensures stores_flag { StoresFlag }
{}

/// Each step of the receiver on the table is its steps of the lane, which the table then shows. It looks with the slot,
/// copies all parts with the header, clears with the flag, and acknowledges with index out. Each is made in its phase,
/// and the look where the flag of the next entry is up.
#[tactic(auto, using(crate::proofs::ReceiverShows::looks, crate::proofs::ReceiverShows::copies, crate::proofs::ReceiverShows::clears, crate::proofs::ReceiverShows::acks))]
pub fn receiver_steps_are_of_the_lane()
    ensures looks { Looks }
    ensures copies { Copies }
    ensures clears { Clears }
    ensures acknowledges { Acknowledges }
{}

/// Each step of the way back on the table is its steps of the lane, which the table then shows. A load of index out is
/// none; where the index that it loaded is new, all index writes up to that one land as it is stored. The cut is no
/// step of the lane.
#[tactic(auto, using(crate::proofs::WayBackShows::loads_index, crate::proofs::WayBackShows::stores_index, crate::proofs::WayBackShows::cuts))]
pub fn other_steps_are_of_the_lane()
    ensures loads_index { LoadsIndex }
    ensures stores_index { StoresIndex }
    ensures cuts { Cuts }
{}

/// A slot that is out is with the seat whose part says so. The sender is to send the next entry in it, the mover took
/// its entry, or the receiver looked at its entry. And each of these has it out.
#[tactic(auto, using(crate::proofs::SeatedSlots::seats_have_slots_out))]
pub fn slots_out_are_with_seats()
    ensures out { SlotsOutAreWithSeats }
    ensures had { SeatsHaveSlotsOut }
{}

/// A load with which no slot goes to a seat is no step of the lane, and neither is a split of a seat or a join of two.
/// Such a load is of the link word, the index word, a posted header or a flag. What the sender keeps of its load of the
/// link word is the word that stands there.
#[tactic(auto, using(crate::proofs::Loads::loads_are_no_steps))]
pub fn others_are_no_steps()
    ensures loads { LoadsAreNoSteps }
    ensures splits { SplitsAreNoSteps }
    ensures joins { JoinsAreNoSteps }
{}

/// A seat that knows of the cut still knows of it, whichever step it makes.
#[tactic(auto, using(crate::proofs::Loads::cut_stays))]
pub fn a_cut_stays()
    ensures { CutStays }
{}

/// A sender whose last load of the link word showed a cut is at a table whose link was cut, and whose link word says
/// so.
#[tactic(auto, using(crate::proofs::Loads::seen_cuts_are_made))]
pub fn seen_cuts_are_made()
    ensures { SeenCutsAreMade }
{}
