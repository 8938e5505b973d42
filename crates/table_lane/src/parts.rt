//! What the ends of a lane know. No value of these types is made: they are the views of seats, for contracts and
//! proofs. A contract reads an array as a list of any length.

ghost use Rattle.table_lane.specs.Views.{PartKind, OfMover, OfReceiver, OfWayBack, OfCut};

use lane_model::Phase;
use step_kinds::Frame;

/// A part that can go from the sender's seat to a new one.
pub trait Part {
    ghost kind: { PartKind };
}

/// What the sender knows.
pub struct SendPart {
    /// The number of entries of the ring.
    pub entries: u64,
    /// The frames that were sent, in order.
    pub sent: [Frame; 0],
    /// Whether the slot of the next entry is with the sender.
    pub claims: bool,
    /// How often the link word was loaded.
    pub link_loads: u64,
    /// The value that the last load of the link word showed; 0 before the first.
    pub link: u64,
    /// How often the index word was loaded.
    pub index_loads: u64,
    /// The value that the last load of the index word showed; 0 before the first.
    pub index: u64,
}

/// What the mover knows.
pub struct MovePart {
    /// The number of entries of the ring.
    pub entries: u64,
    /// How many entries have their flags stored.
    pub flagged: u64,
    /// The frames that are held, in order: the first is that of entry `flagged`.
    pub held: [Frame; 0],
    /// Whether the header of each held entry is stored.
    pub stored: [bool; 0],
    /// How often a posted header was loaded.
    pub loads: u64,
    /// The value that the last load of a posted header showed; 0 before the first.
    pub posted: u64,
    /// How many headers were stored.
    pub headers: u64,
}

impl Part for MovePart {
    ghost kind = { OfMover };
}

/// What the receiver knows.
pub struct RecvPart {
    /// The number of entries of the ring.
    pub entries: u64,
    /// The frames that were received, in order.
    pub got: [Frame; 0],
    /// Where the receiver stands with the next entry.
    pub phase: Phase,
    /// The frame that is looked at and not yet received, if there is one.
    pub hand: [Frame; 0],
    /// How often a flag was loaded.
    pub loads: u64,
    /// The value that the last load of a flag showed; 0 before the first.
    pub flag: u64,
}

impl Part for RecvPart {
    ghost kind = { OfReceiver };
}

/// What the way back knows.
pub struct BackPart {
    /// The number of entries of the ring.
    pub entries: u64,
    /// How many entries were given back to the sender.
    pub freed: u64,
    /// How often index out was loaded.
    pub loads: u64,
    /// The value that the last load of index out showed; the index word at the start.
    pub index: u64,
}

impl Part for BackPart {
    ghost kind = { OfWayBack };
}

/// What the cut knows.
pub struct CutPart {
    /// The number of entries of the ring.
    pub entries: u64,
    /// Whether the link was cut.
    pub cut: bool,
}

impl Part for CutPart {
    ghost kind = { OfCut };
}

/// What a seat knows: the parts that it has. Each part belongs to one seat at each moment.
pub struct LaneView {
    /// The sender's part.
    pub send: Option<SendPart>,
    /// The mover's part.
    pub mover: Option<MovePart>,
    /// The receiver's part.
    pub recv: Option<RecvPart>,
    /// The way back's part.
    pub back: Option<BackPart>,
    /// The cut's part.
    pub cut: Option<CutPart>,
}
