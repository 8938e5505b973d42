//! Posted writes by their labels, the steps of a script and their answers.

ghost use Rattle.std.specs.Prelude.{◌≡◌};
ghost use Rattle.step_kinds.specs.Answers.{is_made};
ghost use Rattle.step_kinds.specs.Subject.{subject_of};

use crate::frame::Frame;
use crate::names::Side;

/// What a posted write in flight writes. `queue` is the number of a queue of the writer, `number` the number of an
/// entry of the ring in this link session, both from 0. The fields of a header and the index word are little-endian. On
/// a strict pair each write is strict.
///
/// The names are those of `ntb_transport`: a header has a version, a length and flags, and the index word is what the
/// receiver writes back. Their layout is this project's own.
#[derive(Clone, Copy, Debug, PartialEq, Eq)]
pub enum Label {
    /// The bytes of an entry's payload from 128 times `part` on, at most 128 of them. Relaxed.
    Chunk { queue: u32, number: u64, part: u32 },
    /// The length field of an entry's header: the bytes of the payload. Relaxed.
    Len { queue: u32, number: u64 },
    /// The version field of an entry's header: the entry's number modulo 2^32. If the pair speaks version 5 the write
    /// has the field `left` before it, how many entries of the frame follow: 8 bytes in place of 4. Relaxed.
    Ver { queue: u32, number: u64 },
    /// The flags field of a frame's header, with the bit DONE: the number 1. Strict.
    Flag { queue: u32, number: u64 },
    /// The flags field of a link-down entry, with the bits DONE and LINK_DOWN: the number 3. Strict.
    Down { queue: u32, number: u64 },
    /// The doorbell bit of the queue, which has the queue's number. Strict.
    Bell { queue: u32 },
    /// The index word of the lane towards the writer: the number of the entry that is given back, modulo the entries of
    /// the ring. Strict.
    Index { queue: u32, number: u64 },
    /// The scratchpad `index` of the peer, 0 to 15, and what is written to it. Strict.
    Pad { index: u32, value: u32 },
    /// `len` bytes, 1 to 128, from the byte `offset` of a window on, past the transport. Relaxed.
    Raw { window: u32, offset: u64, len: u32 },
}

/// A step of a script. `pair` is the number of the pair in order of declaration, from 0, `side` the side that makes the
/// step, and `queue` a queue of that side, from 0.
///
/// The link's steps are those of Linux `include/linux/ntb.h`; the handshake by scratchpads, the queues and
/// the devices work as `ntb_transport` and `ntb_netdev` do.
#[derive(Drop)]
pub enum Step {
    /// The side agrees to bring the link up (`ntb_link_enable`).
    Enable {
        pair: u32,
        side: Side,
    },
    /// The link comes up in a new session.
    Train {
        pair: u32,
    },
    /// The link is lost; what is in flight may still land.
    Break {
        pair: u32,
    },
    /// What is still in flight on the lost link is dropped, and the link is down.
    DropDone {
        pair: u32,
    },
    /// The side forgets the session that was lost.
    Clean {
        pair: u32,
        side: Side,
    },
    /// The side posts the next scratchpad of its offer.
    Offer {
        pair: u32,
        side: Side,
    },
    /// The side reads the peer's offer in its own scratchpads.
    Check {
        pair: u32,
        side: Side,
    },
    /// The side says that a queue of its own is ready.
    Ready {
        pair: u32,
        side: Side,
        queue: u32,
    },
    /// The side joins a queue that the peer said is ready.
    Join {
        pair: u32,
        side: Side,
        queue: u32,
    },
    /// The side begins to send a frame of at least one byte.
    Begin {
        pair: u32,
        side: Side,
        queue: u32,
        /// The frame, of 1 to 65,536 bytes.
        frame: Frame,
    },
    /// The side begins to send a link-down entry and closes the queue.
    QpDown {
        pair: u32,
        side: Side,
        queue: u32,
    },
    /// A device begins to send an Ethernet frame: the destination, the device's own address, the kind (two bytes, the
    /// higher one first) and the payload. The pair, the side and the queue are the device's.
    Xbegin {
        pair: u32,
        side: Side,
        queue: u32,
        /// The number of the device in order of declaration, from 0.
        dev: u32,
        /// The destination: the six bytes of an Ethernet address, as they are sent.
        dst: [u8; 6],
        /// The kind of the frame (its EtherType), 0 to 65,535.
        kind: u16,
        /// The payload, of 1 to 65,522 bytes.
        payload: Frame,
    },
    /// The side posts the next write of the entry that it sends.
    Post {
        pair: u32,
        side: Side,
        queue: u32,
    },
    /// A write that the side posted lands at its peer.
    Land {
        pair: u32,
        side: Side,
        /// Where the write stands among the side's writes in flight: 0 for the one that was posted first.
        place: u32,
    },
    /// The side looks for the next entry of the ring that it receives in.
    Look {
        pair: u32,
        side: Side,
        queue: u32,
    },
    /// The side copies the next 128 bytes of the entry that it found, or what is left of it.
    Copy {
        pair: u32,
        side: Side,
        queue: u32,
    },
    /// The side clears the flags of the entry that it copied.
    Clear {
        pair: u32,
        side: Side,
        queue: u32,
    },
    /// The side posts the index write that gives the entry back.
    Ack {
        pair: u32,
        side: Side,
        queue: u32,
    },
    /// A stopped device tries to go on. The pair, the side and the queue are the device's.
    Wake {
        pair: u32,
        side: Side,
        queue: u32,
        /// The number of the device in order of declaration, from 0.
        dev: u32,
    },
    /// The side takes its pending doorbells that aren't masked.
    Irq {
        pair: u32,
        side: Side,
    },
    /// The side masks doorbells (`ntb_db_set_mask`).
    Mask {
        pair: u32,
        side: Side,
        /// The doorbells as bits: bit q is the doorbell of queue q. Those that are masked already stay so.
        bits: u32,
    },
    /// The side unmasks doorbells (`ntb_db_clear_mask`).
    Unmask {
        pair: u32,
        side: Side,
        /// The doorbells as bits: bit q is the doorbell of queue q. Those that aren't masked stay so.
        bits: u32,
    },
    /// The side writes a scratchpad of its peer (`ntb_peer_spad_write`).
    Spad {
        pair: u32,
        side: Side,
        /// The scratchpad, 0 to 15, and on a pair that isn't raw 12 to 15: the transport has those below.
        index: u32,
        /// What is written.
        value: u32,
    },
    /// The side posts bytes through a window, past the transport. The pair is raw.
    Poke {
        pair: u32,
        side: Side,
        /// The window, from 0, below the windows of both sides.
        window: u32,
        /// The first byte in the window. All bytes lie below the side's size and below the peer's cap.
        offset: u64,
        /// The bytes, 1 to 128 of them.
        bytes: Frame,
    },
    /// Shows bytes of the side's own memory.
    ShowMem {
        pair: u32,
        side: Side,
        /// The address of the first byte. All bytes lie in the memory.
        at: u64,
        /// How many bytes, 1 to 64.
        len: u32,
    },
    /// Shows a scratchpad of the side.
    ShowPad {
        pair: u32,
        side: Side,
        /// The scratchpad, 0 to 15.
        index: u32,
    },
    /// Shows how many writes of the side are in flight, and the one at a place.
    ShowQueue {
        pair: u32,
        side: Side,
        /// The place, 0 for the write that was posted first.
        place: u32,
    },
    /// A switch takes the first frame that arrived on one of its ports, and puts it where its destination is. The frame
    /// then waits on one other port or on all others, or it was dropped. The pair, the side and the queue are those of
    /// the port's device.
    Relay {
        pair: u32,
        side: Side,
        queue: u32,
        /// The number of the switch in order of declaration, from 0.
        switch: u32,
        /// The number of the port, from 0 in the order in which the switch names its devices.
        port: u32,
    },
    /// A device that is a port of a switch begins to send the first frame that waits on its port. The pair, the side
    /// and the queue are the device's.
    Xnext {
        pair: u32,
        side: Side,
        queue: u32,
        /// The number of the device in order of declaration, from 0.
        dev: u32,
    },
}

impl Step {
    /// Returns the number of the pair that the step is made on.
    pub fn subject(&self) -> u32
        ensures { result ≡ subject_of self.now }
    {
        match self {
            Step::Enable { pair, .. }
            | Step::Train { pair, .. }
            | Step::Break { pair, .. }
            | Step::DropDone { pair, .. }
            | Step::Clean { pair, .. }
            | Step::Offer { pair, .. }
            | Step::Check { pair, .. }
            | Step::Ready { pair, .. }
            | Step::Join { pair, .. }
            | Step::Begin { pair, .. }
            | Step::QpDown { pair, .. }
            | Step::Xbegin { pair, .. }
            | Step::Post { pair, .. }
            | Step::Land { pair, .. }
            | Step::Look { pair, .. }
            | Step::Copy { pair, .. }
            | Step::Clear { pair, .. }
            | Step::Ack { pair, .. }
            | Step::Wake { pair, .. }
            | Step::Irq { pair, .. }
            | Step::Mask { pair, .. }
            | Step::Unmask { pair, .. }
            | Step::Spad { pair, .. }
            | Step::Poke { pair, .. }
            | Step::ShowMem { pair, .. }
            | Step::ShowPad { pair, .. }
            | Step::ShowQueue { pair, .. }
            | Step::Relay { pair, .. }
            | Step::Xnext { pair, .. } => *pair,
        }
    }
}

/// The answer to a step. `number` counts from 0 in this link session: frames in [`Answer::OkNumber`] and
/// [`Answer::Delivered`], else entries of the ring. `seen` is what was read and `own` what the side itself has there.
#[derive(Drop)]
pub enum Answer {
    /// The step was made.
    Ok,
    /// The link is up in this session, 1 to 65,535.
    OkSession { session: u32 },
    /// The frame was begun and has this number. Of a link-down entry it is the number of frames that were begun before.
    OkNumber { number: u64 },
    /// The link isn't down.
    NotDown,
    /// The side has not been cleaned since the link was lost.
    Dirty,
    /// A side has not enabled the link.
    NotEnabled,
    /// All 65,535 sessions were used.
    Spent,
    /// The link isn't up.
    NotUp,
    /// The link isn't closing.
    NotClosing,
    /// The link isn't up, so the step can't be made.
    LinkDown,
    /// The step was made before in this session, or an offer was posted whole. A pair that starts up counts as after a
    /// whole handshake.
    Already,
    /// The scratchpad of this number, 0 to 15, was posted. First come for each window the high half of its size, at 4
    /// and every second one from there, and the low half after it. Then come the number of windows at 3, that of queues
    /// at 2 and the version at 0.
    Offered { index: u32 },
    /// The peer's version, or its word that the queue is ready, has not landed yet.
    NotYet,
    /// The peer has another version, and one of the two is below 4.
    Version { seen: u32, own: u32 },
    /// The peer has another number of queues.
    Queues { seen: u32, own: u32 },
    /// The peer has another number of windows.
    Windows { seen: u32, own: u32 },
    /// A window of the peer has `seen` bytes, and the side's memory gives `cap` bytes, which is less. It is the first
    /// such window.
    Size { seen: u64, cap: u64 },
    /// The sides agree, and the side is up.
    Up,
    /// The side isn't up.
    NotChecked,
    /// The queue isn't ready or isn't joined on the side.
    NotReady,
    /// The queue is joined.
    Joined,
    /// The queue was closed by a link-down entry.
    Closed,
    /// The frame is longer than the longest that the queue sends, both in bytes.
    TooLong { len: u32, max: u32 },
    /// What was begun on the lane before has writes left to post.
    Busy,
    /// The device is stopped.
    Stopped,
    /// The ring has no room: the slot of the next entry, and the index word. Both are below the entries of the ring,
    /// but for the index word of a raw pair, which may be any number.
    Again { head: u32, tail: u32 },
    /// Nothing is left to post.
    Idle,
    /// The write of this label was posted.
    Posted { label: Label },
    /// No write is in flight at the place, no frame is in the port's inbox, or no frame waits on the port.
    Nothing,
    /// The write may not pass one before it.
    Blocked,
    /// The write of this label landed.
    Landed { label: Label },
    /// The receiver is in another phase.
    OutOfTurn,
    /// No entry stands at the front of the ring.
    Empty,
    /// A link-down entry stands at the front of the ring, and the queue is closed on this side.
    PeerDown,
    /// The header's version isn't the number of the next entry modulo 2^32. On raw pairs alone.
    VerDiffers { seen: u32, own: u32 },
    /// The header's length is above the largest payload, or with what was copied of its frame above the longest frame.
    /// Both are in bytes. On raw pairs alone.
    Long { len: u32, max: u32 },
    /// An entry stands at the front of the ring: its number and the bytes of its payload.
    ReadyFrame { number: u64, len: u32 },
    /// The part of this number was copied, and more of the frame is left. It is the entry's bytes from 128 times `part`
    /// on, at most 128.
    Copied { number: u64, part: u32 },
    /// The last part was copied: the whole frame.
    Delivered { number: u64, frame: Frame },
    /// The flags of the entry are cleared.
    Cleared { number: u64 },
    /// The index write of the entry was posted.
    Acked { number: u64 },
    /// The device isn't stopped.
    Awake,
    /// The doorbells that were taken, as bits: bit q is the doorbell of queue q.
    Irq { bits: u32 },
    /// Bytes of the memory, in order of their addresses.
    Mem { bytes: Frame },
    /// The scratchpad's value.
    PadValue { value: u32 },
    /// How many writes are in flight, and the label of the one at the place: none where no more than `place` are.
    QueueShown { count: u64, label: Option<Label> },
    /// The frame that was to be relayed has this many bytes, less than an Ethernet header, and was dropped.
    Short { len: u32 },
    /// The frame's destination is on the port that it arrived on, and the frame was dropped.
    Filtered,
    /// The frame's destination is on this port of the switch, and the frame waits there.
    To { port: u32 },
    /// The frame waits on all other ports of the switch, this many: its destination isn't known, or is a group.
    Flood { count: u32 },
}

impl Answer {
    /// Returns whether a step that got this answer was made: any other answer refuses it.
    #[inline]
    pub fn is_made(&self) -> bool
        ensures { result ≡ is_made self.now }
    {
        match self {
            Answer::Ok
            | Answer::OkSession { .. }
            | Answer::OkNumber { .. }
            | Answer::Offered { .. }
            | Answer::Up
            | Answer::Joined
            | Answer::Posted { .. }
            | Answer::Landed { .. }
            | Answer::PeerDown
            | Answer::ReadyFrame { .. }
            | Answer::Copied { .. }
            | Answer::Delivered { .. }
            | Answer::Cleared { .. }
            | Answer::Acked { .. }
            | Answer::Awake
            | Answer::Irq { .. }
            | Answer::Mem { .. }
            | Answer::PadValue { .. }
            | Answer::QueueShown { .. }
            | Answer::Short { .. }
            | Answer::Filtered
            | Answer::To { .. }
            | Answer::Flood { .. } => true,
            Answer::NotDown
            | Answer::Dirty
            | Answer::NotEnabled
            | Answer::Spent
            | Answer::NotUp
            | Answer::NotClosing
            | Answer::LinkDown
            | Answer::Already
            | Answer::NotYet
            | Answer::Version { .. }
            | Answer::Queues { .. }
            | Answer::Windows { .. }
            | Answer::Size { .. }
            | Answer::NotChecked
            | Answer::NotReady
            | Answer::Closed
            | Answer::TooLong { .. }
            | Answer::Busy
            | Answer::Stopped
            | Answer::Again { .. }
            | Answer::Idle
            | Answer::Nothing
            | Answer::Blocked
            | Answer::OutOfTurn
            | Answer::Empty
            | Answer::VerDiffers { .. }
            | Answer::Long { .. } => false,
        }
    }
}
