//! The sender's end: the frame under way, and which of its writes is next.

ghost use Rattle.std.specs.Prelude.{◌≡◌, ◌↔◌, IfOk, IsTrue, ◌+◌, ◌-◌, ◌*◌, ◌<◌, ◌≤◌, ◌∷◌, [], MatchOption, drop, length, not, take, true};
ghost use Rattle.step_kinds.specs.Limits.{most_frame_bytes};
ghost use Rattle.frame_ring.specs.Calls.{entries_begun, first_label, let_go, port_next_begun, rest_of};
ghost use Rattle.frame_ring.specs.Outgoing.{IsLabelOf, all_writes_in, count_left, entries_under, entry_at, label_by, most_numbers, with_progress, port_writes_in, most_writes_left};
ghost use Rattle.frame_ring.specs.Port.{is_port_busy as is_busy_by, nothing_sent};
ghost use Rattle.frame_ring.specs.Same.{IsSameSending};
ghost use Rattle.lane_model.specs.Lane.{GoesDown, bytes_of, chunk_of, chunks_in, left_of};
ghost use Rattle.lane_model.specs.Tests.{is_empty_list};
ghost use Rattle.pair_model.specs.Pieces.{pieces_of};
ghost use Rattle.pair_model.specs.Sizes.{pieces_in as pieces_by};

use plan_numbers::{pieces_in, writes_in};
use std::alloc::{AllocError, Global};
use std::marker::Model;
use step_kinds::limits::MOST_COUNT;
use step_kinds::{Frame, Label};

/// How far a side is with what it sends on a queue.
#[derive(Drop)]
pub struct Sender {
    queue: u32,
    largest: u32,
    begun: u64,
    told: u64,
    frame: Option<Frame>,
    piece: u32,
    pieces: u32,
    next: u32,
    left: usize,
}

impl Sender {
    /// Returns a sender that has sent nothing.
    pub fn new(queue: u32, largest: u32) -> Sender
        requires some { 4 ≤ largest }
        requires few { largest ≤ most_frame_bytes }
        ensures { result ≡ record { queue = queue; largest = largest; sending = nothing_sent } }
    {
        Sender {
            queue,
            largest,
            begun: 0,
            told: 0,
            frame: None,
            piece: 0,
            pieces: 1,
            next: 4,
            left: 0,
        }
    }

    /// Returns a sender that has sent the same, with the same left to post.
    ///
    /// # Errors
    ///
    /// [`AllocError`] if memory runs out.
    pub fn copy_of(&self, alloc: Global) -> Result<Sender, AllocError>
        ensures { IfOk result (λ copy. copy ≡ self.now) }
    {
        let frame = match &self.frame {
            Some(frame) => Some(frame.copy_of(alloc)?),
            None => None,
        };
        Ok(Sender {
            queue: self.queue,
            largest: self.largest,
            begun: self.begun,
            told: self.told,
            frame,
            piece: self.piece,
            pieces: self.pieces,
            next: self.next,
            left: self.left,
        })
    }

    /// Returns how many entries were begun, those that wait with them.
    pub fn begun(&self) -> u64
        ensures value { result ≡ self.now.sending.begun + length self.now.sending.waiting }
        ensures few { result ≤ most_numbers }
    {
        self.begun + u64::from(self.pieces - 1 - self.piece)
    }

    /// Returns how many frames were begun.
    pub fn told(&self) -> u64
        ensures value { result ≡ self.now.sending.told }
        ensures few { result ≤ most_numbers }
    {
        self.told
    }

    /// Returns whether writes of a frame or link-down entry are left to post.
    pub fn is_busy(&self) -> bool
        ensures { result ≡ is_busy_by self.now.sending }
    {
        self.left != 0
    }

    /// Returns whether two senders of one queue have begun as much and have the same left to post.
    pub fn is_same(&self, other: &Sender) -> bool
        requires queue { self.now.queue ≡ other.now.queue }
        requires largest { self.now.largest ≡ other.now.largest }
        ensures { IsTrue result ↔ IsSameSending self.now.sending other.now.sending }
    {
        self.begun == other.begun
            && self.told == other.told
            && self.next == other.next
            && have_same_entries(
                self.largest,
                &self.frame,
                self.piece,
                &other.frame,
                other.piece,
            )
    }

    /// Returns how many writes of the frame or link-down entry under way are left to post.
    pub fn left(&self) -> usize
        ensures value { result ≡ count_left self.now }
        ensures few { result ≤ most_writes_left }
    {
        self.left
    }

    /// If all writes of an entry were posted, the next of its frame is begun.
    pub fn advance(&mut self)
        ensures { self.new ≡ with_progress self.old (port_next_begun self.old.queue self.old.sending) }
    {
        let all = writes_of(&self.frame, self.largest, self.piece);
        if self.next == all && self.piece + 1 < self.pieces {
            self.piece += 1;
            self.begun += 1;
            self.next = 0;
        }
    }

    /// Returns the label of the next write of the entry at hand.
    pub fn label(&self) -> Option<Label>
        ensures value { result ≡ first_label self.now.sending.todo }
        ensures of_entry { MatchOption result (Unit {0}) (IsLabelOf self.now.queue self.now.sending.entry) }
    {
        let chunks = writes_of(&self.frame, self.largest, self.piece) - 4;
        let number = self.begun.saturating_sub(1);
        label_at(self.queue, number, chunks, self.frame.is_some(), self.next)
    }

    /// Returns the payload of the entry at hand.
    pub fn payload(&self) -> &[u8]
        ensures value { result.now ≡ bytes_of self.now.sending.entry }
        ensures fits { length result.now ≤ self.now.largest }
        ensures few { self.now.largest ≤ most_frame_bytes }
    {
        payload_of(&self.frame, self.largest, self.piece)
    }

    /// Returns how many entries of its frame follow the entry at hand.
    pub fn followers(&self) -> u32
        ensures { result ≡ left_of self.now.sending.entry }
    {
        self.pieces - 1 - self.piece
    }

    /// The next write of the entry at hand was posted, if one was left; with the last one of a frame it is let go.
    pub fn posted(&mut self)
        requires { is_empty_list self.old.sending.todo ≡ true → is_empty_list self.old.sending.waiting ≡ true }
        ensures { self.new ≡ with_progress self.old (let_go (record self.old.sending { todo = rest_of self.old.sending.todo })) }
    {
        if self.left == 0 {
            return;
        }
        self.left -= 1;
        self.next += 1;
        if self.left == 0 {
            self.frame = None;
            self.piece = 0;
            self.pieces = 1;
            self.next = 4;
        }
    }

    /// A frame, which takes this many writes in all, is begun.
    pub fn begin(&mut self, frame: Frame, left: usize)
        requires free { not (is_busy_by self.old.sending) ≡ true }
        requires writes { left ≡ all_writes_in (pieces_of self.old.largest frame) }
        requires few { left ≤ most_writes_left }
        requires numbers { self.old.sending.begun + pieces_by self.old.largest (length frame) ≤ most_numbers }
        requires frames { self.old.sending.told < most_numbers }
        ensures { self.new ≡ with_progress self.old (record (entries_begun self.old.queue self.old.sending (pieces_of self.old.largest frame)) { told = self.old.sending.told + 1 }) }
    {
        self.pieces = pieces_in(self.largest, frame.len());
        self.piece = 0;
        self.next = 0;
        self.left = left;
        self.begun += 1;
        self.told += 1;
        self.frame = Some(frame);
    }

    /// A link-down entry is begun.
    pub fn down(&mut self)
        requires free { not (is_busy_by self.old.sending) ≡ true }
        requires numbers { self.old.sending.begun < most_numbers }
        ensures { self.new ≡ with_progress self.old (entries_begun self.old.queue self.old.sending (GoesDown ∷ [])) }
    {
        self.frame = None;
        self.pieces = 1;
        self.piece = 0;
        self.next = 0;
        self.left = 4;
        self.begun += 1;
    }
}

impl Model for Sender {
    ghost use Rattle.frame_ring.specs.Outgoing.{IsSender, Outgoing, sender_seen};

    ghost Value = { Outgoing };

    ghost view = { sender_seen };

    ghost invariant = { IsSender };
}

/// Returns whether numbers are left for this many more entries, and for a frame.
pub fn has_numbers(begun: u64, more: u32, told: u64) -> bool
    requires entries { begun ≤ most_numbers }
    requires frames { told ≤ most_numbers }
    ensures { IsTrue result ↔ (begun + more ≤ most_numbers) × (told < most_numbers) }
{
    begun + u64::from(more) <= MOST_COUNT && told < MOST_COUNT
}

/// Returns the payload of a piece of a frame.
pub fn piece_bytes(bytes: &[u8], largest: u32, piece: u32) -> &[u8]
    requires among { piece < pieces_by largest (length bytes.now) }
    requires some { 4 ≤ largest }
    requires most { largest ≤ most_frame_bytes }
    requires fits { length bytes.now ≤ most_frame_bytes }
    ensures value { result.now ≡ take largest (drop (largest * piece) bytes.now) }
    ensures short { length result.now ≤ largest }
{
    let start = largest as usize * piece as usize;
    let rest = &bytes[start..];
    let end = rest.len().min(largest as usize);
    &rest[..end]
}

// Returns the bytes of a frame from a piece of it on.
fn bytes_from(bytes: &[u8], largest: u32, piece: u32) -> &[u8]
    requires among { piece < pieces_by largest (length bytes.now) }
    requires some { 4 ≤ largest }
    requires most { largest ≤ most_frame_bytes }
    requires fits { length bytes.now ≤ most_frame_bytes }
    ensures { result.now ≡ drop (largest * piece) bytes.now }
{
    &bytes[largest as usize * piece as usize..]
}

// Returns whether two frames under way have the same entries from these pieces on. Of those before nothing is compared.
fn have_same_entries(
    largest: u32,
    one: &Option<Frame>,
    piece: u32,
    other: &Option<Frame>,
    place: u32,
) -> bool
    requires here { piece < length (entries_under largest one.now) }
    requires there { place < length (entries_under largest other.now) }
    requires some { 4 ≤ largest }
    requires most { largest ≤ most_frame_bytes }
    ensures { IsTrue result ↔ (drop piece (entries_under largest one.now) ≡ drop place (entries_under largest other.now)) }
{
    match (one, other) {
        (None, None) => true,
        (Some(frame), Some(with)) => {
            bytes_from(frame.bytes(), largest, piece) == bytes_from(with.bytes(), largest, place)
        }
        (None, Some(_)) | (Some(_), None) => false,
    }
}

// Returns the payload of an entry of the frame under way.
fn payload_of(frame: &Option<Frame>, largest: u32, piece: u32) -> &[u8]
    requires among { piece < length (entries_under largest frame.now) }
    requires some { 4 ≤ largest }
    requires most { largest ≤ most_frame_bytes }
    ensures value { result.now ≡ bytes_of (entry_at (entries_under largest frame.now) piece) }
    ensures fits { length result.now ≤ largest }
{
    match frame {
        None => &[],
        Some(frame) => piece_bytes(frame.bytes(), largest, piece),
    }
}

// Returns how many writes it takes.
fn writes_of(frame: &Option<Frame>, largest: u32, piece: u32) -> u32
    requires among { piece < length (entries_under largest frame.now) }
    requires some { 4 ≤ largest }
    requires most { largest ≤ most_frame_bytes }
    ensures value { result ≡ port_writes_in (entry_at (entries_under largest frame.now) piece) }
    ensures few { result ≤ 516 }
{
    let payload = payload_of(frame, largest, piece);
    writes_in(payload.len() as u32)
}

// Returns the label of an entry's write.
fn label_at(queue: u32, number: u64, chunks: u32, carries: bool, next: u32) -> Option<Label>
    requires { chunks ≤ 512 }
    ensures { result ≡ label_by queue number chunks carries next }
{
    if next < chunks {
        return Some(Label::Chunk {
            queue,
            number,
            part: next,
        });
    }
    match next - chunks {
        0 => Some(Label::Len { queue, number }),
        1 => Some(Label::Ver { queue, number }),
        2 if carries => Some(Label::Flag { queue, number }),
        2 => Some(Label::Down { queue, number }),
        3 => Some(Label::Bell { queue }),
        _ => None,
    }
}
