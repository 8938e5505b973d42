//! The laws of a lane: each is the clause of a function with an empty body. They hold of every lane, so that the crates
//! above cite them without proving anything anew.
//!
//! "The law" is the law of the ring, `HoldsRingLaw`. A function `.._keeps` says of one step: where the law and the
//! step's own premises hold of a lane, the law holds of the lane after the step. The function's text names these
//! premises. What a slot or a word in memory shows to sender and receiver follows from the law, and from the receiver's
//! phase where the text names it. None has a premise on how the lane came to be.

ghost use Rattle.lane_laws.specs.Laws.{FreshHolds, BeginKeeps, PostKeeps, LandDataKeeps, LandFlagKeeps, LandBellKeeps, LookKeeps, CopyKeeps, ClearKeeps, AckKeeps, IndexKeeps, CutKeeps, DropKeeps, ForgetKeeps, LaneFreeIsRoom, LookSees, CopySees, FlagIsNext, IndexIsNext, DataIsAhead, NothingLeft, EachHasOneOwner};

/// A lane at the start of its session has the law. Such a lane has a ring of two slots or more, each with room for the
/// largest payload and without flags, and the index word is at the last slot. Nothing was begun, nothing is in flight,
/// all counts are 0, and the receiver is idle. What payloads stand in the slots is free.
pub fn fresh_holds()
    ensures { FreshHolds }
{}

/// Beginning an entry keeps the law, if no write is left to post and head and index word show a free entry. The payload
/// has to fit a slot, and no link-down entry may have been begun before.
pub fn begin_keeps()
    ensures { BeginKeeps }
{}

/// Posting the next write keeps the law, if one is left to post, on a link that is up and on one that was lost.
pub fn post_keeps()
    ensures { PostKeeps }
{}

/// Landing a field of an entry that is in flight keeps the law, whatever earlier writes the field passes.
pub fn land_data_keeps()
    ensures { LandDataKeeps }
{}

/// Landing the flags that are first in flight keeps the law.
pub fn land_flag_keeps()
    ensures { LandFlagKeeps }
{}

/// Landing the doorbell that is first in flight keeps the law.
pub fn land_bell_keeps()
    ensures { LandBellKeeps }
{}

/// Finding an entry keeps the law, if the receiver is idle and the entry has its flags.
pub fn look_keeps()
    ensures { LookKeeps }
{}

/// Copying the next part keeps the law, in the phase copying.
pub fn copy_keeps()
    ensures { CopyKeeps }
{}

/// Clearing the flags keeps the law, in the phase copied.
pub fn clear_keeps()
    ensures { ClearKeeps }
{}

/// Posting the index write keeps the law, in the phase cleared, on a link that is up and on one that was lost.
pub fn ack_keeps()
    ensures { AckKeeps }
{}

/// Landing the index write that is first in flight keeps the law.
pub fn index_keeps()
    ensures { IndexKeeps }
{}

/// Losing the link keeps the law, whatever is in flight.
pub fn cut_keeps()
    ensures { CutKeeps }
{}

/// Dropping what was in flight keeps the law, if the link was lost.
pub fn drop_keeps()
    ensures { DropKeeps }
{}

/// Forgetting what is left to post keeps the law, if the link was lost: it counts with what was lost.
pub fn forget_keeps()
    ensures { ForgetKeeps }
{}

/// Head and index word show the sender the entries that are free: the ring's entries less one, less those that were
/// begun and not given back.
pub fn free_is_room()
    ensures { LaneFreeIsRoom }
{}

/// An idle receiver finds flags in the next entry's slot just where the entry has landed, and then the entry whole:
/// payload, length, version and flags.
pub fn look_sees()
    ensures { LookSees }
{}

/// A copying receiver has the whole entry before it, and in it the part that it copies next, of which there is one.
pub fn copy_sees()
    ensures { CopySees }
{}

/// Flags that are first in flight are those of the first entry that has none.
pub fn flag_is_next()
    ensures { FlagIsNext }
{}

/// An index write that is first in flight is that of the first entry whose index write has not landed.
pub fn index_is_next()
    ensures { IndexIsNext }
{}

/// A field in flight is a field of an entry that was begun and has no flags yet.
pub fn data_is_ahead()
    ensures { DataIsAhead }
{}

/// If the link is up, nothing is in flight and nothing is left to post, every entry has its flags.
pub fn nothing_left()
    ensures { NothingLeft }
{}

/// Each slot of the ring has one owner at each moment: that of the entry which it is for. If no entry that was begun
/// and not given back has the slot, its owner is the sender.
pub fn each_has_one_owner()
    ensures { EachHasOneOwner }
{}
