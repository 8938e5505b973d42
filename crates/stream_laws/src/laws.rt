//! What holds of two ends, whatever sessions are lost. Each function does nothing: its clause is the law.
//!
//! "Few enough items" means fewer than 2^32 - 1, so that four bytes say how many there are.

ghost use Rattle.stream_laws.specs.Laws.{AllIsBrought, BackIsUngiven, EveryWorldIsOrdered, FrontIsKept, LargestCounts, NextFollows, NoAnswerIsBad, NoneIsAll, SessionsGrow, SessionsKeepFront, WholeSessionBringsAll};

/// After every list of events the receiver's items are a prefix of all items, each once. The acknowledged number is at
/// most the number of items that the receiver keeps. Premise: few enough items.
pub fn every_world_is_ordered()
    ensures { EveryWorldIsOrdered }
{}

/// Whatever the events, neither `take` nor `take_ack` ever answers Bad. Premise: few enough items.
pub fn no_answer_is_bad()
    ensures { NoAnswerIsBad }
{}

/// If since the last Lose and the last GiveBack `next_frame` answered None, and every forward frame was carried, the
/// receiver's items are all items. Premise: few enough items.
pub fn all_is_brought()
    ensures { AllIsBrought }
{}

/// A frame that a sender gives follows those that it gave in its session. No premise.
pub fn next_follows()
    ensures { NextFollows }
{}

/// A frame that was given and is given back counts as not given: the sender is as before, and can't give one back. No
/// premise.
pub fn back_is_ungiven()
    ensures { BackIsUngiven }
{}

/// If a sender has no next frame, it gave all frames of its session. No premise.
pub fn none_is_all()
    ensures { NoneIsAll }
{}

/// After acknowledgements the acknowledged number is the largest of theirs and the one before. Premises: few enough
/// items were ever given, and each acknowledgement says at most their number.
pub fn largest_counts()
    ensures { LargestCounts }
{}

/// A receiver that keeps the first items, and gets the front of a session, keeps the first items again: no fewer, and
/// each that it got. Premises: few enough items, it has taken no frame of its session before, and the session starts at
/// no more than it keeps.
pub fn front_is_kept()
    ensures { FrontIsKept }
{}

/// Sessions of a stream and one more are sessions of the stream. Premises: what the one more was given begins the
/// frames of a session that starts at what the others acknowledged. Its acknowledgements say at most what is kept by
/// its end.
pub fn sessions_grow()
    ensures { SessionsGrow }
{}

/// By the end of a stream's sessions a prefix of all items is kept, and no more is acknowledged than is kept. Premises:
/// few enough items, and each lane gave out what it was given, in order from the first on.
pub fn sessions_keep_front()
    ensures { SessionsKeepFront }
{}

/// After a session that carried everything, all items are kept. Premises: those of [`sessions_keep_front`] for the
/// sessions before it.
pub fn whole_session_brings_all()
    ensures { WholeSessionBringsAll }
{}
