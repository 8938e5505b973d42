//! A pair.

ghost use Rattle.std.specs.Prelude.{◌≡◌, ◌↔◌, ◌+◌, ◌<◌, ◌≤◌, IsTrue, IfOk, IsOk, OnErr, OnOk, true, [], length, option_map, slice_get, slice_index};
ghost use Rattle.std.specs.Result.{result_err};
ghost use Rattle.bridge_pair.specs.Flights.{Flying, Translates, arrival_of};
ghost use Rattle.bridge_pair.specs.Pages.{OnlyPagesGrow, PagesGrow};
ghost use Rattle.bridge_regs.specs.Doorbell.{Doorbell};
ghost use Rattle.plan_numbers.specs.Memories.{WindowsFit};
ghost use Rattle.bridge_pair.specs.Words.{AreFreshPages, AreIndexWordsPromised, TouchesIndexWord};
ghost use Rattle.host_memory.specs.Memory.{AreAbsent, ArePromised, AreZero, Touches, bytes_at, memory_word_at, written};
ghost use Rattle.pair_model.specs.FreshRings.{fresh_index_words};
ghost use Rattle.pair_model.specs.Headers.{word_bytes};
ghost use Rattle.step_kinds.specs.declared.names.Side.TheVariants.{A, B};
ghost use Rattle.pair_model.specs.Both.{at_side};
ghost use Rattle.pair_model.specs.Link.{clean_refusal, cut_refusal, drop_refusal, enable_refusal, is_up, train_refusal};
ghost use Rattle.pair_model.specs.DeclaredPlans.{IsPair};
ghost use Rattle.pair_model.specs.Orders.{class_of as order_class, classes_of as plan_classes, order_of};
ghost use Rattle.pair_model.specs.Plans.{side_plan as side_plan_of};
ghost use Rattle.step_kinds.specs.Limits.{most_queues, most_write_bytes};
ghost use Rattle.posted_queue.specs.Flight.{given_back, promised};
ghost use Rattle.step_kinds.specs.Sides.{other_side};

use crate::book::SideBook;
use crate::endpoint::Endpoint;
use crate::flying_write::{Arrival, FlyingWrite};
use crate::fresh::{fresh_book, fresh_endpoint};
use crate::write::{Target, Write};
use bridge_regs::Bells;
use link_state::{Link, LinkRefusal, LinkState};
use plan_numbers::{
    class_among, classes_of, copy_of, index_word_at, own_address, sending_ring, side_plan,
};
use posted_queue::LandAnswer;
use std::alloc::{AllocError, Global};
use std::marker::Model;
use std::rc::Rc;
use step_kinds::{Label, PairPlan, Side};

/// A pair: two sides with their memories and registers, the bridge between them and the link. Contracts see it as a
/// record of all that. A copy shares the plan.
#[derive(Drop)]
pub struct Pair {
    plan: Rc<PairPlan, Global>,
    link: Link,
    book_a: SideBook,
    book_b: SideBook,
    a: Endpoint,
    b: Endpoint,
}

impl Pair {
    ghost use Rattle.bridge_pair.specs.Bridge.{Bridge, IsBook, IsBridge, bells_of, book_of, bridge_bytes_of, flight_of, pads_of, pages_of, with_book, with_bytes, with_flight, with_memory, with_pages};
    ghost use Rattle.bridge_pair.specs.Calls.{HasPages, after_land, bridge_after_post, landing};
    ghost use Rattle.bridge_pair.specs.Ends.{IsRegister, after_posting, bytes_after, label_landed};
    ghost use Rattle.bridge_pair.specs.Writes.{memory_write};
    ghost use Rattle.bridge_pair.specs.declared.write.Target.TheVariants.{ThroughWindow};
    ghost use Rattle.bridge_pair.specs.Fresh.{fresh_bridge, fresh_bridge_with, started_memory, zero_memory};
    ghost use Rattle.bridge_pair.specs.Lending.{LendsBellsOf};
    ghost use Rattle.std.specs.Borrow.{sem};
    ghost use Rattle.bridge_pair.specs.Links.{after_clean, bridge_after_cut, bridge_after_drop, after_enable, after_train};
    ghost use Rattle.bridge_pair.specs.Same.{EndsLandAs, HasSameEnds, IsSameBridge, LandsAs};

    /// Returns the pair of a plan before any step, with nothing in flight. Its memories are zero and its link is down,
    /// unless the plan says that the pair starts up. Then all is as after a whole handshake in session 1. The
    /// scratchpads have the peer's offer and ready queues, all queues are ready and joined on both sides, and the index
    /// words say that no entry is taken. Their pages are promised, and no others; in a pair that starts down none is.
    /// The plan has to be one that a script can declare.
    ///
    /// # Errors
    ///
    /// [`AllocError`] if memory runs out.
    pub fn new(alloc: Global, plan: &PairPlan) -> Result<Pair, AllocError>
        requires { IsPair plan.now }
        ensures fresh { IfOk result (λ pair. pair ≡ fresh_bridge plan.now (record { a = pages_of pair A; b = pages_of pair B })) }
        ensures pages_a { IfOk result (λ pair. AreFreshPages plan.now A (pages_of pair A)) }
        ensures pages_b { IfOk result (λ pair. AreFreshPages plan.now B (pages_of pair B)) }
    {
        let mut pair = Pair::with_zeros(alloc, plan)?;
        if !plan.up {
            return Ok(pair);
        }
        pair.start(plan)?;
        Ok(pair)
    }

    // Promises the index words of both sides and sets them, in a pair of zeros that starts up.
    fn start(&mut self, plan: &PairPlan) -> Result<(), AllocError>
        requires declared { IsPair plan.now }
        requires zeros { self.old ≡ fresh_bridge_with plan.now (record { a = zero_memory plan.now A; b = zero_memory plan.now B }) }
        requires up { plan.now.up ≡ true }
        ensures fresh { OnOk result (self.new ≡ fresh_bridge plan.now (record { a = pages_of self.new A; b = pages_of self.new B })) }
        ensures pages_a { OnOk result (AreFreshPages plan.now A (pages_of self.new A)) }
        ensures pages_b { OnOk result (AreFreshPages plan.now B (pages_of self.new B)) }
    {
        self.start_words(Side::A)?;
        self.start_words(Side::B)?;
        Ok(())
    }

    // Promises a side's index words and sets them.
    fn start_words(&mut self, side: Side) -> Result<(), AllocError>
        requires { WindowsFit self.old.plan side }
        ensures words { OnOk result (self.new ≡ with_memory self.old side (started_memory self.old side (pages_of self.new side))) }
        ensures pages { OnOk result (PagesGrow (TouchesIndexWord self.old.plan side) (pages_of self.old side) (pages_of self.new side)) }
        ensures ok { OnOk result (AreIndexWordsPromised self.old.plan side (pages_of self.new side)) }
    {
        self.promise_index_words(side)?;
        self.set_index_words(side);
        Ok(())
    }

    // Returns the pair before its index words are set.
    fn with_zeros(alloc: Global, plan: &PairPlan) -> Result<Pair, AllocError>
        requires { IsPair plan.now }
        ensures { IfOk result (λ pair. pair ≡ fresh_bridge_with plan.now (record { a = zero_memory plan.now A; b = zero_memory plan.now B })) }
    {
        let Ok(shared) = Rc::new(alloc, copy_of(plan)) else {
            return Err(AllocError);
        };
        let a = fresh_endpoint(alloc, plan, Side::A)?;
        let b = fresh_endpoint(alloc, plan, Side::B)?;
        Ok(Pair {
            plan: shared,
            link: Link::fresh(plan.up),
            book_a: fresh_book(plan, Side::A),
            book_b: fresh_book(plan, Side::B),
            a,
            b,
        })
    }

    /// What is so of every pair. Its plan is one that a script can declare, and its memories have the plan's bytes.
    /// Each side has 16 scratchpads, a doorbell of 32 bits, and a book of its own queues and offer. Each write in
    /// flight has its place at the peer. It does nothing: its clause is the law.
    #[inline(always)]
    pub fn law(&self)
        ensures { IsBridge self.now }
    {
        self.a.law();
        self.b.law();
    }

    /// Returns the plan of the pair, which never changes. The clause `law` has what is so of every pair, as
    /// [`Pair::law`].
    pub fn plan(&self) -> &PairPlan
        ensures value { result.now ≡ self.now.plan }
        ensures law { IsBridge self.now }
    {
        self.law();
        self.plan.as_ref()
    }

    /// Returns whether two pairs are in the same state: link, books, scratchpads, doorbells, each byte of both memories
    /// and all writes in flight are the same. What is promised may differ, and plans aren't compared. Pages that
    /// neither memory has aren't looked at one by one. It takes no memory.
    pub fn is_same(&self, other: &Pair) -> bool
        ensures { IsTrue result ↔ IsSameBridge self.now other.now }
    {
        self.has_same_link(other) && self.has_same_books(other) && self.has_same_ends(other)
    }

    /// Returns whether the write that a side has in flight at this place may land, and the pair is then in the same
    /// state as another, as [`Pair::is_same`] has it. It is found out without landing the write, and takes no memory.
    pub fn lands_as(&self, side: Side, place: usize, other: &Pair) -> bool
        ensures { IsTrue result ↔ LandsAs self.now side place other.now }
    {
        self.has_same_link(other)
            && self.has_same_books(other)
            && self.ends_land_as(side, place, other)
    }

    /// Returns a pair in the same state, with the same promises: the same pages of both memories, and as much room for
    /// writes. The two share the plan.
    ///
    /// # Errors
    ///
    /// [`AllocError`] from out of memory, or where `usize::MAX` pairs share the plan already, since its [`Rc`] can't
    /// count one more. No memory has room for that many.
    pub fn copy_of(&self, alloc: Global) -> Result<Pair, AllocError>
        ensures { IfOk result (λ copy. copy ≡ self.now) }
    {
        Ok(Pair {
            plan: self.plan.clone()?,
            link: self.link,
            book_a: self.book_a,
            book_b: self.book_b,
            a: self.a.copy_of(alloc)?,
            b: self.b.copy_of(alloc)?,
        })
    }

    // Returns whether the links are in one state and session.
    fn has_same_link(&self, other: &Pair) -> bool
        ensures { IsTrue result ↔ (self.now.link ≡ other.now.link) }
    {
        self.link == other.link
    }

    // Returns whether both sides have reached the same in the handshake.
    fn has_same_books(&self, other: &Pair) -> bool
        ensures { IsTrue result ↔ (self.now.books ≡ other.now.books) }
    {
        self.book_a == other.book_a && self.book_b == other.book_b
    }

    // Returns whether both ends are the same, with what is in flight towards them.
    fn has_same_ends(&self, other: &Pair) -> bool
        ensures { IsTrue result ↔ HasSameEnds self.now other.now }
    {
        self.a.is_same(&other.a) && self.b.is_same(&other.b)
    }

    // Returns whether both ends are the same once that write has landed.
    fn ends_land_as(&self, side: Side, place: usize, other: &Pair) -> bool
        ensures { IsTrue result ↔ EndsLandAs self.now side place other.now }
    {
        match side {
            Side::A => self.b.lands_as(place, &other.b) && self.a.is_same(&other.a),
            Side::B => self.a.lands_as(place, &other.a) && self.b.is_same(&other.b),
        }
    }

    /// Returns what a side has reached in the handshake.
    pub fn book(&self, side: Side) -> SideBook
        ensures value { result ≡ book_of self.now side }
        ensures fits { IsBook self.now.plan side result }
        ensures few { (side_plan_of self.now.plan side).queues ≤ most_queues }
    {
        match side {
            Side::A => self.book_a,
            Side::B => self.book_b,
        }
    }

    /// Keeps what a side has reached in the handshake: its sets have only bits of its own queues, and it posted no more
    /// than its whole offer.
    pub fn set_book(&mut self, side: Side, book: SideBook)
        requires { IsBook self.old.plan side book }
        ensures { self.new ≡ with_book self.old side book }
    {
        match side {
            Side::A => self.book_a = book,
            Side::B => self.book_b = book,
        }
    }

    /// Promises room for `more` writes that a side is to post, on top of those that are promised already.
    ///
    /// # Errors
    ///
    /// [`AllocError`] from out of memory, or where the side's flight can't take that many, as
    /// [`posted_queue::Queue::promise`] has it. Then nothing changes.
    pub fn promise(&mut self, side: Side, more: usize) -> Result<(), AllocError>
        ensures ok { OnOk result (self.new ≡ with_flight self.old side (promised (flight_of self.old side) more)) }
        ensures err { OnErr result (self.new ≡ self.old) }
    {
        match side {
            Side::A => self.b.promise(more),
            Side::B => self.a.promise(more),
        }
    }

    /// Gives back the promise of `count` writes of a side, which are not posted after all. This many must be promised.
    pub fn give_back(&mut self, side: Side, count: usize)
        requires { count ≤ (flight_of self.old side).spare }
        ensures { self.new ≡ with_flight self.old side (given_back (flight_of self.old side) count) }
    {
        match side {
            Side::A => self.b.give_back(count),
            Side::B => self.a.give_back(count),
        }
    }

    /// Promises each page that `len` bytes of a side's memory touch, from the address `at` on, so that they may be
    /// written. They have to lie in the memory. What was promised before stays so, and no byte changes. If all these
    /// pages were promised before, nothing is done, and the answer is `Ok`.
    ///
    /// # Errors
    ///
    /// [`AllocError`] if memory runs out. Some of the pages may then be promised, and no others; nothing else changes.
    pub fn promise_range(&mut self, side: Side, at: u64, len: u64) -> Result<(), AllocError>
        requires { at + len ≤ length (bridge_bytes_of self.old side) }
        ensures rest { self.new ≡ with_pages self.old side (pages_of self.new side) }
        ensures pages { PagesGrow (Touches at len) (pages_of self.old side) (pages_of self.new side) }
        ensures ok { OnOk result (ArePromised at len (pages_of self.new side)) }
        ensures had { ArePromised at len (pages_of self.old side) → IsOk result × (self.new ≡ self.old) }
    {
        match side {
            Side::A => self.a.promise_range(at, len),
            Side::B => self.b.promise_range(at, len),
        }
    }

    /// A side posts a write, for which room was promised. Bytes go through a window that the peer has. They lie within
    /// the side's `size` and the peer's `cap`, and each page that they touch at the peer was promised.
    ///
    /// While the link is up the write is in flight after all others of the side. Else it is lost without a word, as
    /// posted writes are, and its promise is given back. It takes no memory.
    #[inline]
    pub fn post(&mut self, side: Side, write: Write)
        requires promise { 0 < (flight_of self.old side).spare }
        requires translates { Translates self.old.plan side write.target }
        requires pages { HasPages (pages_of self.old (other_side side)) (arrival_of self.old.plan side write.target) }
        ensures { self.new ≡ bridge_after_post self.old side write }
    {
        let Write { label, target } = write;
        match target {
            Target::ThroughWindow {
                window,
                offset,
                bytes,
            } => self.post_bytes(side, label, window, offset, bytes.as_slice()),
            Target::ToPad { index, value } => {
                self.post_register(side, label, Arrival::AtPad { index, value });
            }
            Target::ToBell { bit } => self.post_register(side, label, Arrival::AtBell { bit }),
        }
    }

    /// A side posts 1 to 128 bytes through the window `window`, from the byte `offset` of it on: the same as
    /// [`Pair::post`] of a [`Write::memory`], which isn't made. It takes no memory.
    #[inline]
    pub fn post_bytes(&mut self, side: Side, label: Label, window: u32, offset: u64, bytes: &[u8])
        requires promise { 0 < (flight_of self.old side).spare }
        requires some { 1 ≤ length bytes.now }
        requires few { length bytes.now ≤ most_write_bytes }
        requires translates { Translates self.old.plan side (ThroughWindow window offset bytes.now) }
        requires pages { HasPages (pages_of self.old (other_side side)) (arrival_of self.old.plan side (ThroughWindow window offset bytes.now)) }
        ensures { self.new ≡ bridge_after_post self.old side (memory_write label window offset bytes.now) }
    {
        if !self.is_up() {
            return self.give_back(side, 1);
        }
        let at = own_address(self.plan.as_ref(), side.other(), window, offset);
        match side {
            Side::A => self
                .b
                .post_bytes(self.plan.as_ref(), side, label, at, bytes),
            Side::B => self
                .a
                .post_bytes(self.plan.as_ref(), side, label, at, bytes),
        }
    }

    // Returns whether the link is up.
    #[inline]
    fn is_up(&self) -> bool
        ensures { result ≡ is_up self.now.link.state }
    {
        self.link.state() == LinkState::Up
    }

    // A side posts a write to a register of the peer.
    fn post_register(&mut self, side: Side, label: Label, arrival: Arrival)
        requires promise { 0 < (flight_of self.old side).spare }
        requires register { IsRegister arrival }
        ensures { self.new ≡ with_flight self.old side (after_posting (is_up self.old.link.state) (flight_of self.old side) (record { label = label; order = order_of self.old.plan side label; arrival = arrival })) }
    {
        if !self.is_up() {
            return self.give_back(side, 1);
        }
        let write = FlyingWrite::new(self.plan.as_ref(), side, label, arrival);
        match side {
            Side::A => self.b.post(write),
            Side::B => self.a.post(write),
        }
    }

    /// Lands the write at this place of those that a side has in flight, counted from 0 for the one that was posted
    /// first, and returns its label. Its bytes are stored in the peer's memory, or its scratchpad or doorbell bit is
    /// set there.
    ///
    /// [`LandAnswer::Blocked`] comes where the write may not pass one before it, by kind and traffic class (PCI Express
    /// Base 4.0, section 2.4). [`LandAnswer::Nothing`] comes where no more than `place` writes are in flight. Both
    /// change nothing. It takes no memory.
    #[inline]
    pub fn land(&mut self, side: Side, place: usize) -> LandAnswer<Label>
        ensures answer { result ≡ label_landed (landing self.old side place) }
        ensures after { self.new ≡ after_land self.old side place }
    {
        match side {
            Side::A => self.b.land(place),
            Side::B => self.a.land(place),
        }
    }

    /// Returns how many writes a side has in flight.
    pub fn in_flight(&self, side: Side) -> usize
        ensures { result ≡ length (flight_of self.now side).writes }
    {
        match side {
            Side::A => self.b.coming_count(),
            Side::B => self.a.coming_count(),
        }
    }

    /// Returns the label of the write at this place of those that a side has in flight, counted from 0 for the one that
    /// was posted first. `None` if and only if no more than `place` are in flight.
    pub fn label_at(&self, side: Side, place: usize) -> Option<Label>
        ensures { result ≡ option_map (λ (flying : Flying). flying.label) (slice_get (flight_of self.now side).writes place) }
    {
        match side {
            Side::A => self.b.label_at(place),
            Side::B => self.a.label_at(place),
        }
    }

    /// Returns the traffic class, 0 to 7, of a side's write with this label: that of its queue. It is 0 of scratchpads
    /// and raw bytes, and of a queue from 16 on.
    pub fn class_of(&self, side: Side, label: Label) -> u32
        ensures { result ≡ order_class (plan_classes self.now.plan side) label }
    {
        class_among(classes_of(self.plan.as_ref(), side), label)
    }

    /// Returns whether no page is there of those that the `len` bytes from the address `at` of a side's memory on
    /// touch, which then are all 0. They have to lie in the memory; no bytes touch no page.
    pub fn is_blank(&self, side: Side, at: u64, len: u64) -> bool
        requires { at + len ≤ length (bridge_bytes_of self.now side) }
        ensures absent { IsTrue result ↔ AreAbsent at len (pages_of self.now side) }
        ensures zeros { IsTrue result → AreZero at len (bridge_bytes_of self.now side) }
    {
        match side {
            Side::A => self.a.is_blank(at, len),
            Side::B => self.b.is_blank(at, len),
        }
    }

    /// Reads the bytes of a side's memory from the address `at` on into the whole of `out`. They have to lie in the
    /// memory.
    pub fn local_read(&self, side: Side, at: u64, out: &mut [u8])
        requires { at + length out.old ≤ length (bridge_bytes_of self.now side) }
        ensures { out.new ≡ bytes_at at (length out.old) (bridge_bytes_of self.now side) }
    {
        match side {
            Side::A => self.a.read(at, out),
            Side::B => self.b.read(at, out),
        }
    }

    /// Reads the little-endian word of four bytes at the address `at` of a side's memory. All four have to lie in it.
    pub fn local_word(&self, side: Side, at: u64) -> u32
        requires { at + 4 ≤ length (bridge_bytes_of self.now side) }
        ensures { result ≡ memory_word_at at (bridge_bytes_of self.now side) }
    {
        match side {
            Side::A => self.a.word_at(at),
            Side::B => self.b.word_at(at),
        }
    }

    /// A side writes `bytes` into its own memory, from the address `at` on. They have to lie in the memory, and each
    /// page that they touch has to be promised. It takes no memory.
    pub fn local_write(&mut self, side: Side, at: u64, bytes: &[u8])
        requires within { at + length bytes.now ≤ length (bridge_bytes_of self.old side) }
        requires promised { ArePromised at (length bytes.now) (pages_of self.old side) }
        ensures { self.new ≡ with_bytes self.old side (written at bytes.now (bridge_bytes_of self.old side)) }
    {
        match side {
            Side::A => self.a.write(at, bytes),
            Side::B => self.b.write(at, bytes),
        }
    }

    /// A side writes `value` into its own memory, as a little-endian word of four bytes at the address `at`. All four
    /// have to lie in the memory, on promised pages. It takes no memory.
    pub fn set_local_word(&mut self, side: Side, at: u64, value: u32)
        requires within { at + 4 ≤ length (bridge_bytes_of self.old side) }
        requires promised { ArePromised at 4 (pages_of self.old side) }
        ensures { self.new ≡ with_bytes self.old side (written at (word_bytes value) (bridge_bytes_of self.old side)) }
    {
        match side {
            Side::A => self.a.set_word(at, value),
            Side::B => self.b.set_word(at, value),
        }
    }

    /// Promises the pages of a side's index words, which [`Pair::set_index_words`] writes. The peer's `size` has to be
    /// at most the side's `cap`.
    ///
    /// # Errors
    ///
    /// [`AllocError`] if memory runs out. Some of the pages may then be promised, and no others; nothing else changes.
    pub fn promise_index_words(&mut self, side: Side) -> Result<(), AllocError>
        requires { WindowsFit self.old.plan side }
        ensures grown { OnlyPagesGrow (TouchesIndexWord self.old.plan side) side self.old self.new }
        ensures ok { OnOk result (AreIndexWordsPromised self.old.plan side (pages_of self.new side)) }
    {
        let queues = side_plan(self.plan(), side).queues;
        for queue in 0..queues {
            let at = index_word_at(self.plan(), side, queue);
            self.promise_range(side, at, 4)?;
        }
        Ok(())
    }

    /// Sets a side's index words, one for each queue. Each says that the peer has taken no entry of the ring that the
    /// side sends to, and is the number of the ring's last slot. Their pages have to be promised, and the peer's `size`
    /// has to be at most the side's `cap`.
    pub fn set_index_words(&mut self, side: Side)
        requires fit { WindowsFit self.old.plan side }
        requires promised { AreIndexWordsPromised self.old.plan side (pages_of self.old side) }
        ensures { self.new ≡ with_bytes self.old side (bytes_after (fresh_index_words self.old.plan side) (bridge_bytes_of self.old side)) }
    {
        let queues = side_plan(self.plan(), side).queues;
        for queue in (0..queues).rev() {
            let at = index_word_at(self.plan(), side, queue);
            let last = sending_ring(self.plan(), side, queue).entries() - 1;
            self.set_local_word(side, at, last);
        }
    }

    /// Returns the word of a side's scratchpad `index`, 0 to 15 (`ntb_spad_read`).
    pub fn pad(&self, side: Side, index: u32) -> u32
        requires { index < 16 }
        ensures { result ≡ slice_index (pads_of self.now side) index }
    {
        match side {
            Side::A => self.a.pad(index),
            Side::B => self.b.pad(index),
        }
    }

    /// Returns a side's doorbell: its pending and its masked bits.
    pub fn bells(&mut self, side: Side) -> &mut Bells
        ensures* lends { sem 𝓛 (LendsBellsOf self.entry side result) }
        ensures value { result.now ≡ bells_of self.old side }
    {
        match side {
            Side::A => self.a.bells(),
            Side::B => self.b.bells(),
        }
    }

    /// Returns the link: its state, its session, and what each side has said of it.
    pub fn link(&self) -> &Link
        ensures { result.now ≡ self.now.link }
    {
        &self.link
    }

    /// A side agrees to bring the link up. A second call changes nothing.
    ///
    /// # Errors
    ///
    /// As [`Link::enable`], and then nothing changes.
    pub fn enable(&mut self, side: Side) -> Result<(), LinkRefusal>
        ensures refusal { result_err result ≡ enable_refusal self.old.link side }
        ensures after { self.new ≡ after_enable self.old side }
    {
        self.link.enable(side)
    }

    /// The link comes up in the next session, whose number this answers.
    ///
    /// # Errors
    ///
    /// As [`Link::train`], and then nothing changes.
    pub fn train(&mut self) -> Result<u32, LinkRefusal>
        ensures refusal { result_err result ≡ train_refusal self.old.link }
        ensures after { self.new ≡ after_train self.old }
        ensures session { IfOk result (λ session. session ≡ self.new.link.session) }
    {
        self.link.train()
    }

    /// The link is lost. What is in flight may still land, until it is dropped; what is posted is lost.
    ///
    /// # Errors
    ///
    /// As [`Link::cut`], and then nothing changes.
    pub fn cut(&mut self) -> Result<(), LinkRefusal>
        ensures refusal { result_err result ≡ cut_refusal self.old.link }
        ensures after { self.new ≡ bridge_after_cut self.old }
    {
        self.link.cut()
    }

    /// All that is in flight, of both sides, is dropped, and the link is down. What was promised stays promised.
    ///
    /// # Errors
    ///
    /// As [`Link::drop_done`], and then nothing changes.
    pub fn drop_done(&mut self) -> Result<(), LinkRefusal>
        ensures refusal { result_err result ≡ drop_refusal self.old.link }
        ensures after { self.new ≡ bridge_after_drop self.old }
    {
        self.link.drop_done()?;
        self.a.discard();
        self.b.discard();
        Ok(())
    }

    /// A side forgets the session that was lost: its scratchpads and pending doorbell bits are 0, and it has reached
    /// nothing in the handshake. Its mask stays, and so does each byte of its memory.
    ///
    /// # Errors
    ///
    /// As [`Link::cleaned`], and then nothing changes.
    pub fn clean(&mut self, side: Side) -> Result<(), LinkRefusal>
        ensures refusal { result_err result ≡ clean_refusal self.old.link }
        ensures after { self.new ≡ after_clean self.old side }
    {
        self.link.cleaned(side)?;
        match side {
            Side::A => {
                self.a.zero_registers();
                self.book_a = SideBook::none();
            }
            Side::B => {
                self.b.zero_registers();
                self.book_b = SideBook::none();
            }
        }
        Ok(())
    }
}

impl Model for Pair {
    ghost use Rattle.bridge_pair.specs.Bridge.{Bridge};

    ghost Value = { Bridge };

    ghost use Rattle.bridge_pair.specs.Views.{IsJoined, bridge_seen};

    ghost view = { bridge_seen };

    ghost invariant = { IsJoined };
}
