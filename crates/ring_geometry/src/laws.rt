//! What holds of the places of every ring. Each function here does nothing: its clause is the law.

ghost use Rattle.ring_geometry.specs.Laws.{
  AreaLiesInWindow,
  AreasStandApart,
  FreeIsRoom,
  HasTwoEntries,
  HeaderEndsSlot,
  IndexFollowsSlots,
  SlotsStandApart,
};
ghost use Rattle.ring_geometry.specs.Spots.{SpotsLieInside, SpotsStandApart};

/// A ring has two entries at least.
pub fn ring_has_two_entries()
    ensures { HasTwoEntries }
{}

/// The entries of a ring share no byte.
pub fn slots_stand_apart()
    ensures { SlotsStandApart }
{}

/// A header stands right after the largest payload, and ends its entry.
pub fn header_ends_slot()
    ensures { HeaderEndsSlot }
{}

/// The index word stands after all entries, and in the area.
pub fn index_follows_slots()
    ensures { IndexFollowsSlots }
{}

/// The areas of two queues in one window share no byte.
pub fn areas_stand_apart()
    ensures { AreasStandApart }
{}

/// An area lies within its window, and its window is one of the side's.
pub fn area_lies_in_window()
    ensures { AreaLiesInWindow }
{}

/// What head and index word show as free is what the counts of entries begun and given back say. Premises: the ring has
/// two entries at least, no more were given back than begun, and one entry stays free.
pub fn free_is_room()
    ensures { FreeIsRoom }
{}

/// Payloads, header fields and index words of all rings in one memory share no byte. Premise: the peer's windows fit
/// into those that the memory gives; they may be smaller.
pub fn spots_stand_apart()
    ensures { SpotsStandApart }
{}

/// Each payload, header field and index word lies within its window. It lies in the memory too where the peer's windows
/// fit into those that the memory gives.
pub fn spots_lie_inside()
    ensures { SpotsLieInside }
{}
