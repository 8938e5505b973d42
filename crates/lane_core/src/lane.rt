//! A lane.

ghost use Rattle.std.specs.Prelude.{◌≡◌, ◌+◌, ◌<◌, ◌≤◌, ◌^◌, length, vec_len, vec_capacity, false, IfOk, OnOk, OnErr};
ghost use Rattle.std.specs.VecDeque.{deque_len, deque_capacity};
ghost use Rattle.step_kinds.specs.Limits.{most_frame_bytes};
ghost use Rattle.lane_laws.specs.Laws.{IsOpen};
ghost use Rattle.lane_model.specs.Lane.{Carries, GoesDown, bytes_of, entry_of};
ghost use Rattle.lane_model.specs.Law.{HoldsRingLaw};
ghost use Rattle.lane_model.specs.Steps.{after_cut, after_drop};
ghost use Rattle.lane_core.specs.Parts.{entry_seen};
ghost use Rattle.lane_core.specs.declared.answers.LaneLook.TheVariants.{Ready};
ghost use Rattle.posted_queue.specs.Flight.{promised};
ghost use Rattle.step_kinds.specs.declared.lanes.Begun.TheVariants.{Ok as Began};

use crate::answers::{Begun, LaneCopy, LaneLand, LaneLook};
use crate::entry::Entry;
use crate::ring::{copy_chunk, free_between, label, position_of, put_flags, store, zeroed_ring};
use crate::slot::{Shown, Slot};
use crate::write::{IndexWrite, PostedWrite, fill_todo, landed_flags, post};
use lane_model::{Phase, Write};
use posted_queue::{LandAnswer, Queue};
use std::alloc::{AllocError, Global};
use std::collections::VecDeque;
use std::marker::Model;
use std::mem;
use step_kinds::{Frame, Label};

/// One lane in one session: what its sender began, the writes in flight in both directions, the ring in the receiver's
/// memory and the index word in the sender's. Entries are numbered from 0.
#[derive(Drop)]
pub struct Lane {
    alloc: Global,
    queue: u32,
    entries: u32,
    largest: u32,
    strict: bool,
    up: bool,
    sent: Vec<Entry>,
    todo: VecDeque<Write>,
    flight: Queue<PostedWrite>,
    returning: Queue<IndexWrite>,
    ring: Vec<Slot>,
    index_word: u32,
    flagged: u64,
    got: u64,
    cleared: u64,
    acked: u64,
    freed: u64,
    phase: Phase,
    part: u32,
    copied: Vec<u8>,
}

impl Lane {
    ghost use Rattle.lane_core.specs.Calls.{core_with_lane, core_begin_answer, core_down_answer, after_beginning, core_post_answer, core_after_posting, core_land_answer, core_after_land, land_index_answer, after_land_index, core_look_answer, after_looking, core_copy_answer, after_copying, core_clear_answer, after_clearing, core_ack_answer, after_acking};
    ghost use Rattle.lane_core.specs.Fresh.{fresh_value};

    /// Returns a lane at the start of its session: nothing was begun, and the index word says that all entries are free
    /// but the one that always stays so. `queue` stands in its labels alone.
    ///
    /// The ring has `entries` zeroed slots, 2 at least, of which one always stays free; a slot takes payloads of up to
    /// `max` bytes, from 1 to 65,536. On a `strict` lane no write passes another; else the fields of an entry may pass
    /// any write, as PCI Express permits writes with relaxed ordering (Base 4.0, section 2.4).
    ///
    /// # Errors
    ///
    /// [`AllocError`] if memory runs out: the ring takes `entries` times `max` bytes, and some more.
    pub fn new(
        alloc: Global,
        queue: u32,
        entries: u32,
        max: u32,
        strict: bool,
    ) -> Result<Lane, AllocError>
        requires two_entries { 2 ≤ entries }
        requires a_byte { 1 ≤ max }
        requires fits { max ≤ most_frame_bytes }
        ensures fresh { IfOk result (λ lane. lane ≡ fresh_value queue strict entries max) }
        ensures law { IfOk result (λ lane. HoldsRingLaw lane.lane) }
    {
        let ring = zeroed_ring(alloc, entries, max)?;
        Ok(Lane {
            alloc,
            queue,
            entries,
            largest: max,
            strict,
            up: true,
            sent: Vec::new(alloc),
            todo: VecDeque::new(alloc),
            flight: Queue::new(alloc),
            returning: Queue::new(alloc),
            ring,
            index_word: entries - 1,
            flagged: 0,
            got: 0,
            cleared: 0,
            acked: 0,
            freed: 0,
            phase: Phase::Idle,
            part: 0,
            copied: Vec::new(alloc),
        })
    }

    /// Begins to send a frame. It gets the next number, and its writes are left to post: its chunks of 128 bytes, its
    /// length and version, its flags, the doorbell.
    ///
    /// The frame has a byte at least. No link-down entry was begun on the lane before, since after it comes no other,
    /// and fewer than 2^46 entries were begun.
    ///
    /// [`Begun::TooLong`] where the frame has more bytes than a slot takes, [`Begun::Busy`] where writes are left to
    /// post, and [`Begun::NoRoom`] where no entry is free. They are tested in this order, and change nothing. Room is
    /// read from the next entry's slot and the index word (`ntb_transport` too), so an entry is free again only once
    /// its index write has landed. A lost link doesn't matter here: a cut lane begins entries as before.
    ///
    /// # Errors
    ///
    /// [`AllocError`] if memory runs out; only if the frame was to be begun, and then nothing changes. Room for the
    /// frame's posts is taken here.
    pub fn begin(&mut self, frame: Frame) -> Result<Begun, AllocError>
        requires some_bytes { 0 < length frame }
        requires open { IsOpen self.old.lane }
        requires few { length self.old.lane.sent < 2 ^ 46 }
        ensures answer { IfOk result (λ begun. begun ≡ core_begin_answer self.old.lane (length frame)) }
        ensures after { IfOk result (λ begun. self.new ≡ core_with_lane self.old (after_beginning self.old.lane (Carries frame 0) begun)) }
        ensures err { OnErr result (self.new ≡ self.old) }
        ensures wants { OnErr result (core_begin_answer self.old.lane (length frame) ≡ Began (length self.old.lane.sent)) }
        ensures law { HoldsRingLaw self.new.lane }
    {
        if frame.len() > self.largest {
            return Ok(Begun::TooLong {
                len: frame.len(),
                max: self.largest,
            });
        }
        self.begin_entry(Entry::Carries(frame))
    }

    /// Begins a link-down entry: the word to the receiver that the sender's end of the queue goes down (`ntb_transport`
    /// sends an entry with the flag LINK_DOWN). It has no payload, and is numbered with the frames. Its writes, length,
    /// version, flags and doorbell, are left to post. After it no entry may be begun.
    ///
    /// As for [`Lane::begin`], no link-down entry was begun before, and fewer than 2^46 entries were begun.
    ///
    /// [`Begun::Busy`] where writes are left to post, and then [`Begun::NoRoom`] where no entry is free. Neither
    /// changes anything.
    ///
    /// # Errors
    ///
    /// [`AllocError`] if memory runs out; only if the entry was to be begun, and then nothing changes.
    pub fn down(&mut self) -> Result<Begun, AllocError>
        requires open { IsOpen self.old.lane }
        requires few { length self.old.lane.sent < 2 ^ 46 }
        ensures answer { IfOk result (λ begun. begun ≡ core_down_answer self.old.lane) }
        ensures after { IfOk result (λ begun. self.new ≡ core_with_lane self.old (after_beginning self.old.lane GoesDown begun)) }
        ensures err { OnErr result (self.new ≡ self.old) }
        ensures wants { OnErr result (core_down_answer self.old.lane ≡ Began (length self.old.lane.sent)) }
        ensures law { HoldsRingLaw self.new.lane }
    {
        self.begin_entry(Entry::GoesDown)
    }

    // Begins an entry that fits the ring, after the test that speaks of frames alone.
    fn begin_entry(&mut self, entry: Entry) -> Result<Begun, AllocError>
        requires fits { length (bytes_of (entry_seen entry)) ≤ self.old.lane.largest }
        requires open { IsOpen self.old.lane }
        requires few { length self.old.lane.sent < 2 ^ 46 }
        ensures answer { IfOk result (λ begun. begun ≡ core_down_answer self.old.lane) }
        ensures after { IfOk result (λ begun. self.new ≡ core_with_lane self.old (after_beginning self.old.lane (entry_seen entry) begun)) }
        ensures err { OnErr result (self.new ≡ self.old) }
        ensures wants { OnErr result (core_down_answer self.old.lane ≡ Began (length self.old.lane.sent)) }
        ensures law { HoldsRingLaw self.new.lane }
    {
        if !self.todo.is_empty() {
            return Ok(Begun::Busy);
        }
        let number = self.sent.len() as u64;
        let head = position_of(self.entries, number);
        if free_between(self.entries, head, self.index_word) == 0 {
            return Ok(Begun::NoRoom {
                head,
                tail: self.index_word,
            });
        }
        let writes = entry.chunks() as usize + 4;
        make_room(&mut self.sent, &mut self.todo, &mut self.flight, writes)?;
        fill_todo(&mut self.todo, number, &entry);
        self.sent.push_reserved(entry);
        Ok(Begun::Ok { number })
    }

    /// Posts the next write of the entry that was begun last, and returns its label. It is last of those in flight
    /// then. Once the link was cut it is lost instead, and the label is answered all the same, since nobody tells a
    /// sender that a posted write went nowhere. `None` if and only if no write is left to post, and then nothing
    /// changes.
    pub fn post(&mut self) -> Option<Label>
        ensures answer { result ≡ core_post_answer self.old }
        ensures after { self.new ≡ core_with_lane self.old (core_after_posting self.old.lane) }
        ensures law { HoldsRingLaw self.new.lane }
    {
        let mark = self.todo.pop_front()?;
        let strict = self.strict;
        post(&mut self.flight, self.up, PostedWrite { mark, strict });
        Some(label(self.queue, &self.sent, mark))
    }

    /// Lands the write at a place of those in flight towards the receiver, counted from 0 for the one that was posted
    /// first. What it writes stands in its entry's slot then (the doorbell writes nothing there), and the others in
    /// flight keep their order.
    ///
    /// The answer is [`LaneLand::Nothing`] where no more than `place` writes are in flight. Else it is
    /// [`LaneLand::Blocked`] where the write may not pass one before it: where it is strict and not at place 0 (PCI
    /// Express Base 4.0, section 2.4). Neither changes anything. What was in flight when the link was cut still lands.
    pub fn land(&mut self, place: usize) -> LaneLand
        ensures answer { result ≡ core_land_answer self.old place }
        ensures after { self.new ≡ core_with_lane self.old (core_after_land self.old place) }
        ensures law { HoldsRingLaw self.new.lane }
    {
        match self.flight.land(place) {
            LandAnswer::Nothing => LaneLand::Nothing,
            LandAnswer::Blocked => LaneLand::Blocked,
            LandAnswer::Landed(PostedWrite { mark, .. }) => {
                store(&mut self.ring, self.entries, &self.sent, mark);
                self.flagged += landed_flags(mark);
                LaneLand::Landed(label(self.queue, &self.sent, mark))
            }
        }
    }

    /// Lands the index write at a place of those in flight back to the sender, counted from 0. The index word is its
    /// entry's slot then, and the entry is free (`ntb_transport` writes its receiver's index back in the same way).
    ///
    /// [`LaneLand::Nothing`] where no more than `place` index writes are in flight, and else [`LaneLand::Blocked`]
    /// where `place` isn't 0, since index writes are strict on every lane. Neither changes anything.
    pub fn land_index(&mut self, place: usize) -> LaneLand
        ensures answer { result ≡ land_index_answer self.old place }
        ensures after { self.new ≡ core_with_lane self.old (after_land_index self.old.lane place) }
        ensures law { HoldsRingLaw self.new.lane }
    {
        match self.returning.land(place) {
            LandAnswer::Nothing => LaneLand::Nothing,
            LandAnswer::Blocked => LaneLand::Blocked,
            LandAnswer::Landed(IndexWrite { number }) => {
                self.index_word = position_of(self.entries, number);
                self.freed = number + 1;
                LaneLand::Landed(Label::Index {
                    queue: self.queue,
                    number,
                })
            }
        }
    }

    /// Looks for the next entry by the flags in its slot. Where a frame stands there it is to be copied now.
    ///
    /// Tested in this order: [`LaneLook::OutOfTurn`] where the receiver is still at another entry; [`LaneLook::Empty`]
    /// where the flags lack DONE; [`LaneLook::PeerDown`] at a link-down entry, at each look again. None of them changes
    /// anything. The doorbell is not asked.
    ///
    /// # Errors
    ///
    /// [`AllocError`] if memory runs out; only if a frame was found, and then nothing changes. Room for the frame's
    /// copies and its index write is taken here.
    pub fn look(&mut self) -> Result<LaneLook, AllocError>
        ensures answer { IfOk result (λ look. look ≡ core_look_answer self.old.lane) }
        ensures after { IfOk result (λ look. self.new ≡ core_with_lane self.old (after_looking self.old.lane look)) }
        ensures err { OnErr result (self.new ≡ self.old) }
        ensures wants { OnErr result (core_look_answer self.old.lane ≡ Ready self.old.lane.got (length (bytes_of (entry_of self.old.lane self.old.lane.got)))) }
        ensures law { HoldsRingLaw self.new.lane }
    {
        let Phase::Idle = self.phase else {
            return Ok(LaneLook::OutOfTurn);
        };
        let number = self.got;
        let place = &self.ring[position_of(self.entries, number) as usize];
        match place.shows() {
            Shown::Nothing => Ok(LaneLook::Empty),
            Shown::GoesDown => Ok(LaneLook::PeerDown),
            Shown::Frame => {
                let len = place.len;
                let buffer = Vec::with_capacity(self.alloc, len as usize)?;
                self.returning.promise(1)?;
                self.copied = buffer;
                self.phase = Phase::Copying;
                self.part = 0;
                Ok(LaneLook::Ready { number, len })
            }
        }
    }

    /// Copies the next part of the frame that was found: 128 bytes, or what is left of the frame. With the last part it
    /// answers the whole frame. [`LaneCopy::OutOfTurn`] if and only if no frame is being copied, and then nothing
    /// changes.
    pub fn copy(&mut self) -> LaneCopy
        ensures answer { result ≡ core_copy_answer self.old.lane }
        ensures after { self.new ≡ core_with_lane self.old (after_copying self.old.lane) }
        ensures law { HoldsRingLaw self.new.lane }
    {
        let Phase::Copying = self.phase else {
            return LaneCopy::OutOfTurn;
        };
        let number = self.got;
        let part = self.part;
        let place = &self.ring[position_of(self.entries, number) as usize];
        if copy_chunk(&mut self.copied, place, part) {
            self.part += 1;
            return LaneCopy::Part { number, part };
        }
        let bytes = mem::replace(&mut self.copied, Vec::new(self.alloc));
        self.got += 1;
        self.phase = Phase::Copied;
        LaneCopy::Whole {
            number,
            frame: Frame::of_vec(bytes),
        }
    }

    /// Clears the flags in the slot of the frame that was copied, and returns its number. The slot is empty for the
    /// next round then (`ntb_transport` clears the flags before it gives the entry back). `None` if and only if the
    /// receiver has not just copied a frame whole, and then nothing changes.
    pub fn clear(&mut self) -> Option<u64>
        ensures answer { result ≡ core_clear_answer self.old.lane }
        ensures after { self.new ≡ core_with_lane self.old (after_clearing self.old.lane) }
        ensures law { HoldsRingLaw self.new.lane }
    {
        let Phase::Copied = self.phase else {
            return None;
        };
        let number = self.cleared;
        put_flags(&mut self.ring, self.entries, number, 0);
        self.cleared += 1;
        self.phase = Phase::Cleared;
        Some(number)
    }

    /// Posts the index write that gives the cleared frame's entry back, and returns the frame's number. `None` if and
    /// only if no flags were just cleared, and then nothing changes. Once the link was cut the write is lost, and the
    /// number is answered all the same.
    pub fn ack(&mut self) -> Option<u64>
        ensures answer { result ≡ core_ack_answer self.old.lane }
        ensures after { self.new ≡ core_with_lane self.old (after_acking self.old.lane) }
        ensures law { HoldsRingLaw self.new.lane }
    {
        let Phase::Cleared = self.phase else {
            return None;
        };
        let number = self.acked;
        post(&mut self.returning, self.up, IndexWrite { number });
        self.acked += 1;
        self.phase = Phase::Idle;
        Some(number)
    }

    /// The link is lost. What is posted from now on, towards the receiver or back, is lost: [`Lane::post`] and
    /// [`Lane::ack`] answer as before, and their writes are not in flight. What is in flight already may still land,
    /// until [`Lane::drop_all`], and the receiver goes on with what has landed. A lane that was cut stays so, and a
    /// second call changes nothing. That a write on a lost link is lost without a word is this project's reading of a
    /// posted write.
    pub fn cut(&mut self)
        ensures after { self.new ≡ core_with_lane self.old (after_cut self.old.lane) }
        ensures law { HoldsRingLaw self.new.lane }
    {
        self.up = false;
    }

    /// Drops all that is in flight in both directions. The link has to be lost already ([`Lane::cut`]). From then on no
    /// place has a write, and each landing answers [`LaneLand::Nothing`]; ring, index word and what is left to post
    /// stay.
    pub fn drop_all(&mut self)
        requires { self.old.lane.up ≡ false }
        ensures after { self.new ≡ core_with_lane self.old (after_drop self.old.lane) }
        ensures law { HoldsRingLaw self.new.lane }
    {
        self.flight.discard();
        self.returning.discard();
    }
}

impl Model for Lane {
    ghost use Rattle.lane_core.specs.Calls.{LaneValue};

    ghost Value = { LaneValue };

    ghost use Rattle.lane_core.specs.LaneView.{value_seen, IsCoreKept};

    ghost view = { value_seen };

    ghost invariant = { IsCoreKept };
}

// Makes room for one more entry, for this many writes that are left to post, and for their posts.
fn make_room(
    sent: &mut Vec<Entry>,
    todo: &mut VecDeque<Write>,
    flight: &mut Queue<PostedWrite>,
    writes: usize,
) -> Result<(), AllocError>
    ensures sent { sent.new.items ≡ sent.old.items }
    ensures todo { todo.new.items ≡ todo.old.items }
    ensures sent_room { OnOk result (vec_len sent.new + 1 ≤ vec_capacity sent.new) }
    ensures todo_room { OnOk result (deque_len todo.new + writes ≤ deque_capacity todo.new) }
    ensures promised { OnOk result (flight.new ≡ promised flight.old writes) }
    ensures err { OnErr result (flight.new ≡ flight.old) }
{
    sent.reserve(1)?;
    todo.reserve(writes)?;
    flight.promise(writes)
}
