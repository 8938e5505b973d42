//! The laws of every log: each is the clause of a function with an empty body. A law holds of every plan, every list of
//! steps and whatever the memories show, but for the premises that its text names. In each, steps may be refused, and
//! pairs, sides and queues be any.

ghost use Rattle.ledger_laws.specs.Devices.{AgainWhereRingIsFull, StoppedWhereRingWasLow};
ghost use Rattle.ledger_laws.specs.Drivers.{
  BusyWhereLeftToPost,
  ClosedWhereClosed,
  EmptyWhereNothingLanded,
  NotReadyWhereNotJoined,
  PeerDownWhereDownLanded,
  TooLongWhereFrameIsLong,
};
ghost use Rattle.ledger_laws.specs.Flights.{InFlightIsPosted};
ghost use Rattle.ledger_laws.specs.Landing.{LanePartLands};
ghost use Rattle.ledger_laws.specs.LaneSteps.{EachLaneBeginsFresh, EachStepIsOfTheLane};
ghost use Rattle.ledger_laws.specs.Laws.{
  AgainWhereNoRoom,
  CopiedInParts,
  CountersAreCounts,
  EveryFrameComesOnce,
  EveryLogIsInOrder,
  LinkDownWhereNotUp,
  NoOrdinaryVerDiffersOrLong,
  PairsAreSeparate,
  PostedAreWrites,
  QuietMeansDone,
  RefusalsChangeNothing,
  SessionsAreCounts,
  TalliesAreCounts,
  UpMeansAgreement,
};
ghost use Rattle.ledger_laws.specs.Rings.{IndexWordIsTail, RingLawHolds, RingLawOfReceiver};
ghost use Rattle.ledger_laws.specs.Together.{AnswersAreRight, LawsHold};
ghost use Rattle.ledger_laws.specs.States.{
  BusyReceiverIsJoined,
  BusySenderIsJoined,
  EntriesFitTheRing,
  FreedWereBegun,
  JoinedMeansAgreement,
  JoinedSideIsUp,
  LabelsAreOfEntries,
  LabelsArePostable,
  NoEntryBeforeBothUp,
  NothingInFlightWhileDown,
  ReceiverKnowsItsFrame,
  StoppedDeviceIsJoined,
  UpSideAgrees,
};

/// In every log, what was delivered on a lane in a session is a prefix of what was accepted there, and both are
/// numbered from 0 on. Premise: the pair is ordinary, that is, not declared `raw`.
pub fn every_log_is_in_order()
    ensures { EveryLogIsInOrder }
{}

/// In every log no number of a lane and a session is delivered twice. Premise: the pair is ordinary.
pub fn every_frame_comes_once()
    ensures { EveryFrameComesOnce }
{}

/// A step that begins entries is answered `again` if and only if it isn't refused for another reason and the room is
/// less than it needs. The other reasons are:
///
/// - The link isn't up.
/// - The queue isn't joined on the side, or is closed there.
/// - The frame is too long.
/// - Of the frame before it something is left to post.
/// - The device is stopped.
///
/// The room is the ring's entries less one, less the entries begun or kept waiting in the session, plus the index
/// writes that landed in it. Premise: the pair is ordinary.
pub fn again_where_no_room()
    ensures { AgainWhereNoRoom }
{}

/// A step that needs the link is answered `linkdown` if and only if the last link step of the pair that wasn't refused
/// left it not up, and no other step is. Before the first of them the link is as the pair was declared. No premise.
pub fn link_down_where_not_up()
    ensures { LinkDownWhereNotUp }
{}

/// A step that begins entries is answered `notready` if and only if the link is up and its queue isn't joined on the
/// side. A look is answered so if and only if its queue isn't joined there, and a join if and only if the link is up
/// and its queue isn't ready there. No other step is answered so. What is joined and ready is taken from what the log
/// told the side's driver. No premise.
pub fn not_ready_where_not_joined()
    ensures { NotReadyWhereNotJoined }
{}

/// A look is answered `closed` if and only if its queue is joined on the side and closed there since. A step that
/// begins entries is answered so if and only if that holds and the link is up. A queue is closed on a side by a
/// link-down entry that the side began or found. No premise.
pub fn closed_where_closed()
    ensures { ClosedWhereClosed }
{}

/// `toolong` comes exactly on a frame that is longer than any may be, if the side may send. It may where the link is up
/// and the queue is joined and open on the side. No premise.
pub fn too_long_where_frame_is_long()
    ensures { TooLongWhereFrameIsLong }
{}

/// A step that begins entries is answered `busy` if and only if some writes of what the side began there aren't posted
/// yet, and no earlier refusal holds. There is none if and only if the link is up, the queue is joined on the side and
/// isn't closed, and the frame isn't too long. No premise.
pub fn busy_where_left_to_post()
    ensures { BusyWhereLeftToPost }
{}

/// A look is answered `empty` if and only if the side may look and as many entries have landed flags in the session as
/// the side cleared. It may look if and only if the queue is joined on the side and isn't closed, and the side holds no
/// entry of it. Premise: the pair is ordinary.
pub fn empty_where_nothing_landed()
    ensures { EmptyWhereNothingLanded }
{}

/// A look is answered `peerdown` if and only if the side may look, more entries have landed flags in the session than
/// it cleared, and the next one's are a link-down entry's. When it may look, [`empty_where_nothing_landed`] says.
/// Premise: the pair is ordinary.
pub fn peer_down_where_down_landed()
    ensures { PeerDownWhereDownLanded }
{}

/// `stopped` comes exactly on two steps of a device that the log says is stopped. One is a frame, if no earlier refusal
/// holds. The other is a wake, if fewer entries are free than the device's `start`. A frame of it that was begun stops
/// it, if that left fewer entries free than its `stop`. A wake that is made, and a clean of its side that is made, end
/// that. No earlier refusal of a frame holds where the side may send, the frame isn't too long, and nothing is left to
/// post. The side may send where the link is up and the queue is joined and open on the side. What is free is counted
/// over the session as for [`again_where_no_room`]. Premise: the pair is ordinary.
pub fn stopped_where_ring_was_low()
    ensures { StoppedWhereRingWasLow }
{}

/// A step that begins entries is answered `again` if and only if fewer entries are free than it needs and no earlier
/// refusal holds: this is [`again_where_no_room`] by the log alone. The link is up, the queue is joined and open on the
/// side, the frame isn't too long, nothing is left to post, and the device isn't stopped. Premise: the pair is
/// ordinary.
pub fn again_where_ring_is_full()
    ensures { AgainWhereRingIsFull }
{}

/// The ledger's tallies are the numbers of frames that the log accepted and delivered, for each lane and session. No
/// premise.
pub fn tallies_are_counts()
    ensures { TalliesAreCounts }
{}

/// The number of a pair's session is that of its first, and one more for each train that the log has as made. The
/// number of the first is 1 where the pair is declared up, and else 0. No premise.
pub fn sessions_are_counts()
    ensures { SessionsAreCounts }
{}

/// An entry is copied in as many parts as its length, as it was found, has chunks of 128 bytes, one part at least. A
/// copy that is answered `copied` has the number of the entry that the last look found, and as its part the number of
/// copies made since. That part is below the number of parts. A copy that is answered `frame` is of the last part. The
/// last part is answered `copied` where others of its frame follow the entry, as it was found, and `frame` where none
/// does. A `frame` has the number of frames that were delivered before on the lane in the session. A clear that is
/// answered `cleared` comes after all parts, and has the number of the entry that the last look found. No premise: it
/// holds on raw pairs too.
pub fn copied_in_parts()
    ensures { CopiedInParts }
{}

/// The six counters of a device are counts over the log, for each side and queue of each pair. Of its own frames they
/// count those accepted, their bytes, and those refused. Of the frames delivered on its side and queue they count those
/// of 14 bytes at least, the bytes of these, and the shorter ones. No premise.
pub fn counters_are_counts()
    ensures { CountersAreCounts }
{}

/// The answers to the steps on one pair don't depend on the steps on other pairs. Premise: what each pair's memories
/// show depends on the steps on that pair alone.
pub fn pairs_are_separate()
    ensures { PairsAreSeparate }
{}

/// What was posted on a lane in the session, and then what is left to post, are the writes of the entries that its
/// sender began, in order. Each stands there once, and none in another's place. Premise: the sender hasn't forgotten
/// the session, that is, the link isn't down or its side isn't clean. It holds on raw pairs too.
pub fn posted_are_writes()
    ensures { PostedAreWrites }
{}

/// A check that is answered `up` has found the peer's numbers in the scratchpads, all landed in the session, and they
/// agree with the side's own. Premises: the pair stands in the plan, and all sides have numbers in range
/// (`HasSidesInRange`). Among the steps on the pair none writes a scratchpad below 12 or bytes past the transport.
pub fn up_means_agreement()
    ensures { UpMeansAgreement }
{}

/// If nothing is on its way to a receiver and it has seen so, all that was accepted in the session was delivered. Each
/// entry that was begun has its flags landed, and was copied whole. Premises: the pair is ordinary, and at that moment
/// all of this is so:
///
/// - The link is up.
/// - The queue is joined and open at the receiver.
/// - Nothing is in flight towards it.
/// - The sender has no write left to post on the queue, and no entry waiting.
/// - The queue's doorbell isn't pending.
/// - The receiver's last look on the queue in the session was `empty`, and the doorbell wasn't taken since.
pub fn quiet_means_done()
    ensures { QuietMeansDone }
{}

/// A step that is refused leaves every pair as it was, but for a device's count of refusals: that grows where the
/// device's frame is refused. A step is refused if and only if it is answered anything but what a step of its kind is
/// answered where it is made. So `idle`, `nothing`, `blocked`, `empty`, `verdiffers` and `long` change nothing either;
/// `peerdown` is no refusal, for it closes the queue. No premise: it holds on raw pairs too.
pub fn refusals_change_nothing()
    ensures { RefusalsChangeNothing }
{}

/// Whenever the receiver's side of a lane is up, the law of the ring holds of the lane, whatever the sender has
/// forgotten. The index word counts as the tail. A side is up from its check in a session, or from the start of a pair
/// that is declared up, until its clean. Premises: the pair isn't declared raw, the lane's window has a ring, and among
/// the steps on the pair none writes a scratchpad below 12 or bytes past the transport.
pub fn ring_law_of_receiver()
    ensures { RingLawOfReceiver }
{}

/// Whenever the sender's side of a lane is up, the index word in its memory is the tail of the entries that were given
/// back, whatever the receiver has forgotten. When a side is up, [`ring_law_of_receiver`] says. Premises: as of that
/// law.
pub fn index_word_is_tail()
    ensures { IndexWordIsTail }
{}

/// Whenever both sides of a pair are up, the law of the ring holds of each of its lanes, with the index word as it is
/// in memory. Premises: as of [`ring_law_of_receiver`].
pub fn ring_law_holds()
    ensures { RingLawHolds }
{}

/// Each entry that was begun, and each piece of a frame that waits, has at most the bytes that a slot takes. Beside
/// them one slot of the ring stays free. Premises: the pair isn't declared raw; of the free slot, that the ring has
/// slots.
pub fn entries_fit_the_ring()
    ensures { EntriesFitTheRing }
{}

/// Until both sides of a pair are up in a session, each of its lanes is as at the session's start, and nothing of a
/// lane is in flight. So it stays where the session is lost before one side came up, until that side forgets it.
/// Premises:
///
/// - The pair isn't declared raw.
/// - One side isn't up and hasn't forgotten the session, that is, the link isn't down or the side isn't clean.
/// - Among the steps on the pair none writes a scratchpad below 12 or bytes past the transport.
pub fn no_entry_before_both_up()
    ensures { NoEntryBeforeBothUp }
{}

/// While the link of a pair is down nothing is in flight from either side, and no bytes of raw writes are kept. No
/// premise.
pub fn nothing_in_flight_while_down()
    ensures { NothingInFlightWhileDown }
{}

/// While a side is up, its numbers and the peer's agree: both versions are 4 at least, and both sides have as many
/// queues and windows. Each window that the peer sends through fits the side's memory then. When a side is up,
/// [`ring_law_of_receiver`] says. Premises: the pair is one that a script can declare, and among the steps on it none
/// writes a scratchpad below 12 or bytes past the transport.
pub fn up_side_agrees()
    ensures { UpSideAgrees }
{}

/// While a queue is joined on a side, the two sides' numbers agree whole: versions, queues, windows, and the sizes of
/// both sides' windows with the other's memory. Premises: as of [`up_side_agrees`].
pub fn joined_means_agreement()
    ensures { JoinedMeansAgreement }
{}

/// Each label of a lane, in flight from its sender or left to post, is of an entry that was begun in the session, but
/// for doorbells, which name none. A chunk is one of the entry's, and flags are those of a frame's piece or of a
/// link-down entry, as the entry is. What is left to post is on the lane's own queue. Each index write in flight is of
/// an entry that was acknowledged. Premise: the pair isn't declared raw.
pub fn labels_are_of_entries()
    ensures { LabelsAreOfEntries }
{}

/// Each label in flight from a side is on one of the side's queues, or writes one of the sixteen scratchpads, or, on a
/// raw pair, bytes in a window. Both sides have that window, and the bytes lie within its size and the peer's memory.
/// Premises: the pair is one that a script can declare, and the steps are such as the plan permits.
pub fn labels_are_postable()
    ensures { LabelsArePostable }
{}

/// A queue is joined only on a side that is up. No premise.
pub fn joined_side_is_up()
    ensures { JoinedSideIsUp }
{}

/// A device is stopped only if its queue is joined on its side: a side that forgets its session starts its devices. No
/// premise.
pub fn stopped_device_is_joined()
    ensures { StoppedDeviceIsJoined }
{}

/// Of a lane an entry waits, or a write is left to post, only if the queue is joined at the sender. Premise: the pair
/// isn't declared raw.
pub fn busy_sender_is_joined()
    ensures { BusySenderIsJoined }
{}

/// A receiver copies an entry, or has one that it hasn't given back yet, only if the queue is joined on its side.
/// Premise: the pair isn't declared raw.
pub fn busy_receiver_is_joined()
    ensures { BusyReceiverIsJoined }
{}

/// The entries of a lane that were given back were begun. Premise: the pair isn't declared raw.
pub fn freed_were_begun()
    ensures { FreedWereBegun }
{}

/// A receiver that copies an entry knows its length. While a joined receiver is idle and an entry is waiting, the bytes
/// gathered plus that entry fit one frame. Premise: the pair isn't declared raw.
pub fn receiver_knows_its_frame()
    ensures { ReceiverKnowsItsFrame }
{}

/// No step is answered `verdiffers` or `long`: a look finds the entries of the transport alone. Premise: the pair isn't
/// declared raw.
pub fn no_ordinary_ver_differs_or_long()
    ensures { NoOrdinaryVerDiffersOrLong }
{}

/// What a side has in flight is what it posted while the link was up, less what landed and what was dropped, in the
/// order of posting. It posts the numbers that it offers, the queues that it says are ready, its lanes' writes, index
/// writes, and scratchpads and bytes past the transport. Premise: the pair is ordinary.
pub fn in_flight_is_posted()
    ensures { InFlightIsPosted }
{}

/// What may land among all that a side has in flight may land in the part of its lane, by the kinds alone. This is so
/// since the writes of a lane in one direction have one traffic class. A write of the lane that the side sends on a
/// queue stands in the part after those of the lane that stand before it in flight. It may land there as if the lane
/// were alone, and leaves the rest of the part. The same is so of an index write of the lane that the side receives on
/// the queue. Premise: the write at its place may land among all that is in flight.
pub fn lane_part_lands()
    ensures { LanePartLands }
{}

/// Each step of a cluster is steps of a lane. The lane that the ledger shows after it comes from the one before it by
/// steps of the lane's model, each made where its own condition holds. The step and its answer say which (`change_of`):
/// none where the step is refused, of another lane, or of none. A begin, a landing, a look, a copy, a clear, an ack, a
/// break and a drop are one each. A post is one too; but if a piece of a frame waits, its first post begins it before.
/// What is posted on a link that isn't up is lost. Premises: as of [`ring_law_of_receiver`], of the steps before that
/// one; and both sides of the pair are up before it and after it. That leaves out a train, a clean that is made, and a
/// check that brings a side up.
pub fn each_step_is_of_the_lane()
    ensures { EachStepIsOfTheLane }
{}

/// A lane is shown fresh where both sides of its pair are up before any step, and by each step after which they are up
/// and before which they weren't. Nothing was begun or is in flight then, no slot has flags, and the index word says
/// that all entries but one are free. Premises: as of [`ring_law_of_receiver`], of the steps with that one.
pub fn each_lane_begins_fresh()
    ensures { EachLaneBeginsFresh }
{}

/// The laws of a log together, with what they ask for taken from the plan and its steps. Premises: a script can declare
/// the plan, the plan permits the steps, and what each pair's memories show depends on the steps on that pair alone.
pub fn laws_hold()
    ensures { LawsHold }
{}

/// The laws of an answer together: where it comes exactly, by the log so far, and what it changes where it is a
/// refusal. Premises: a script can declare the plan, and the plan permits the steps.
pub fn answers_are_right()
    ensures { AnswersAreRight }
{}
