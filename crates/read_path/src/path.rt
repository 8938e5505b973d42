//! A path: two sides that one bridge joins, and the link between them.

ghost use Rattle.std.specs.Prelude.{◌≡◌, ◌+◌, ◌≤◌, true, length, IfOk, OnOk, OnErr, alloc_error};
ghost use Rattle.std.specs.Result.{result_err};
ghost use Rattle.step_kinds.specs.Limits.{most_write_bytes};
ghost use Rattle.pair_model.specs.Link.{is_up};
ghost use Rattle.read_path.specs.Path.{path_after_cut, path_after_drop, path_after_land, path_after_post, path_after_read, after_relink, path_cut_refusal, path_drop_refusal, fresh_path, path_land_answer, memory_bytes, most_read_bytes, path_post_answer, read_answer, relink_refusal, shown};

use crate::end::{End, ask, land_between};
use crate::{PathLand, PostAnswer, ReadAnswer};
use link_state::{Link, LinkRefusal, LinkState};
use std::alloc::{AllocError, Global};
use std::marker::Model;
use step_kinds::{Frame, Side};

/// Two sides that one bridge joins. A path has the link, and of each side its memory of 4,096 bytes, what it has in
/// flight to its peer, and how many reads it made. Contracts see these, all in flight as lists, the oldest first.
///
/// What travels from a side to its peer is its posted writes, its read requests and the completions of its peer's
/// reads.
#[derive(Drop)]
pub struct Path {
    alloc: Global,
    link: Link,
    a: End,
    b: End,
}

impl Path {
    /// Returns a path whose link is up in session 1, with each byte 0, nothing in flight and no read made.
    ///
    /// # Errors
    ///
    /// [`AllocError`] if memory runs out.
    pub fn new(alloc: Global) -> Result<Path, AllocError>
        ensures { IfOk result (λ path. path ≡ fresh_path) }
    {
        Ok(Path {
            alloc,
            link: Link::fresh(true),
            a: End::new(alloc)?,
            b: End::new(alloc)?,
        })
    }

    /// The side posts a write of 1 to 128 bytes to its peer's memory from the address `at` on, relaxed or strict. All
    /// bytes have to lie in the memory. [`PostAnswer::LinkDown`] is returned if and only if the link isn't up, and the
    /// write is lost.
    ///
    /// # Errors
    ///
    /// [`AllocError`] if memory runs out while the link is up, and then nothing changes.
    pub fn write(
        &mut self,
        side: Side,
        at: u32,
        bytes: &[u8],
        relaxed: bool,
    ) -> Result<PostAnswer, AllocError>
        requires some { 1 ≤ length bytes.now }
        requires fits { length bytes.now ≤ most_write_bytes }
        requires within { at + length bytes.now ≤ memory_bytes }
        ensures answer { IfOk result (λ answer. answer ≡ path_post_answer self.old) }
        ensures after { OnOk result (self.new ≡ path_after_post self.old side at bytes.now relaxed) }
        ensures err { OnErr result (self.new ≡ self.old) }
        ensures wants { OnErr result (is_up self.old.link ≡ true) }
    {
        if !self.is_up() {
            return Ok(PostAnswer::LinkDown);
        }
        match side {
            Side::A => self.a.post(at, bytes, relaxed)?,
            Side::B => self.b.post(at, bytes, relaxed)?,
        }
        Ok(PostAnswer::Ok)
    }

    /// Returns the side asks for `len` bytes, 1 to 512, of its peer's memory from the address `at` on. All have to lie
    /// in the memory. The answer has the number of the read: a side's reads count from 0, whatever sessions they are
    /// in. [`ReadAnswer::LinkDown`] is returned if and only if the link isn't up.
    ///
    /// Room is taken here for the completions and for the bytes.
    ///
    /// # Errors
    ///
    /// [`AllocError`] if memory runs out while the link is up, and then nothing changes. It comes also to a side's
    /// 2^64th read.
    pub fn read(&mut self, side: Side, at: u32, len: u32) -> Result<ReadAnswer, AllocError>
        requires some { 1 ≤ len }
        requires few { len ≤ most_read_bytes }
        requires within { at + len ≤ memory_bytes }
        ensures answer { IfOk result (λ answer. answer ≡ read_answer self.old side) }
        ensures after { OnOk result (self.new ≡ path_after_read self.old side at len) }
        ensures err { OnErr result (self.new ≡ self.old) }
        ensures wants { OnErr result (is_up self.old.link ≡ true) }
    {
        if !self.is_up() {
            return Ok(ReadAnswer::LinkDown);
        }
        let number = match side {
            Side::A => ask(self.alloc, &mut self.a, &mut self.b, at, len)?,
            Side::B => ask(self.alloc, &mut self.b, &mut self.a, at, len)?,
        };
        Ok(ReadAnswer::Posted { number })
    }

    /// Lands what the side has in flight at this place, counted from 0 for the oldest. It takes no memory.
    ///
    /// [`PathLand::Nothing`] is returned if and only if no more than `place` are in flight. [`PathLand::Blocked`] is
    /// returned if and only if what stands there may not pass one of those before it (PCI Express Base 4.0, section
    /// 2.4). Both change nothing. Else what stands there leaves the list. A write is stored in the peer's memory. A
    /// read request's bytes are all read at once from the peer's memory. The peer posts its completions of 128 bytes
    /// each, the last one with the rest; they are lost where the link isn't up. A completion is handed to the peer,
    /// which gets all bytes of its read with the last one.
    ///
    /// It looks at what stands before the place, and at the front costs the same however much is in flight.
    pub fn land(&mut self, side: Side, place: usize) -> PathLand
        ensures answer { result ≡ path_land_answer self.old side place }
        ensures after { self.new ≡ path_after_land self.old side place }
    {
        let up = self.is_up();
        match side {
            Side::A => land_between(&mut self.a, &mut self.b, up, place),
            Side::B => land_between(&mut self.b, &mut self.a, up, place),
        }
    }

    /// The link is lost: what is in flight may still land until [`Path::drop_done`].
    ///
    /// # Errors
    ///
    /// [`LinkRefusal::NotUp`] if and only if the link isn't up, and then nothing changes.
    pub fn cut(&mut self) -> Result<(), LinkRefusal>
        ensures refusal { result_err result ≡ path_cut_refusal self.old }
        ensures after { self.new ≡ path_after_cut self.old }
    {
        self.link.cut()
    }

    /// What was in flight both ways when the link was lost is dropped. Reads that were under way never return.
    ///
    /// # Errors
    ///
    /// [`LinkRefusal::NotClosing`] if and only if the link isn't closing, and then nothing changes.
    pub fn drop_done(&mut self) -> Result<(), LinkRefusal>
        ensures refusal { result_err result ≡ path_drop_refusal self.old }
        ensures after { self.new ≡ path_after_drop self.old }
    {
        self.link.drop_done()?;
        self.a.flight.discard();
        self.b.flight.discard();
        Ok(())
    }

    /// Both sides are cleaned and enable the link, and it comes up in the next session. The numbers of reads go on.
    ///
    /// # Errors
    ///
    /// [`LinkRefusal::NotDown`] if and only if the link isn't down, and else [`LinkRefusal::SessionsSpent`] where
    /// 65,535 sessions were used. Then nothing changes.
    pub fn relink(&mut self) -> Result<(), LinkRefusal>
        ensures refusal { result_err result ≡ relink_refusal self.old }
        ensures after { self.new ≡ after_relink self.old }
    {
        let mut link = self.link;
        link.cleaned(Side::A)?;
        link.cleaned(Side::B)?;
        link.enable(Side::A)?;
        link.enable(Side::B)?;
        link.train()?;
        self.link = link;
        Ok(())
    }

    /// Returns the side's own memory: `len` bytes from the address `at` on, which have to lie in it.
    ///
    /// # Errors
    ///
    /// [`AllocError`] if memory runs out.
    pub fn show(&self, side: Side, at: u32, len: u32) -> Result<Frame, AllocError>
        requires { at + len ≤ memory_bytes }
        ensures { IfOk result (λ frame. frame ≡ shown self.now side at len) }
    {
        let mut bytes = vec![in self.alloc; 0; len as usize]?;
        match side {
            Side::A => self.a.read(at, &mut bytes),
            Side::B => self.b.read(at, &mut bytes),
        }
        Ok(Frame::of_vec(bytes))
    }

    // Returns whether the link is up.
    fn is_up(&self) -> bool
        ensures { result ≡ is_up self.now.link }
    {
        self.link.state() == LinkState::Up
    }
}

impl Model for Path {
    ghost use Rattle.read_path.specs.Path.{PathState};
    ghost use Rattle.read_path.specs.Ends.{IsPath, path_seen};

    ghost Value = { PathState };

    ghost view = { path_seen };

    ghost invariant = { IsPath };
}
