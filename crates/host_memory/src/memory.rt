//! The memory of a host, kept in pages.

ghost use Rattle.std.specs.Prelude.{◌≡◌, ◌↔◌, ℕ, ◌+◌, ◌-◌, ◌%◌, ◌<◌, ◌≤◌, ◌^◌, ◌⊎◌, [], length, replicate, Contains, IfOk, IsOk, IsTrue, OnOk, OnErr};
ghost use Rattle.byteorder.specs.Endian.{little_bytes};
ghost use Rattle.host_memory.specs.Memory.{AreAbsent, AreNotAmong, ArePromised, AreSameBetween, AreSameOnPage, AreZero, NoRepeats, Touches, bytes_at, page_of, memory_word_at, written};

use crate::pages::Pages;
use byteorder::{ByteOrder, LittleEndian};
use std::alloc::{AllocError, Global};
use std::marker::Model;

/// The bytes of a page: page 0 begins at address 0, and each further one where the one before it ends.
pub const PAGE_SIZE: u64 = 512;

// What a page that isn't there reads as.
static ZEROS: [u8; 512] = [0; 512];

/// A host's memory: bytes at the addresses from 0 to its length. Contracts see its list of bytes, `bytes`, and the list
/// of the numbers of the pages that were promised, `promised`, in which no number stands twice.
///
/// A page is there from its promise on and stays. A page that isn't there reads as zeros.
#[derive(Drop)]
pub struct Memory {
    pages: Pages,
    promised: Vec<u64>,
    len: u64,
}

impl Memory {
    /// Makes a memory of `len` bytes, each 0, of which no page is promised. It costs the same for each length.
    ///
    /// # Errors
    ///
    /// [`AllocError`] where `len` is 2^63 or more, since no machine has that many bytes.
    pub fn new(alloc: Global, len: u64) -> Result<Memory, AllocError>
        ensures zeros { IfOk result (λ m. m ≡ record { bytes = replicate len 0; promised = [] }) }
        ensures succeeds { len < 2 ^ 63 → IsOk result }
    {
        if len > i64::MAX as u64 {
            return Err(AllocError);
        }
        Ok(Memory {
            pages: Pages::new(alloc),
            promised: Vec::new(alloc),
            len,
        })
    }

    /// Returns a memory with the same bytes, of which the same pages are promised.
    ///
    /// # Errors
    ///
    /// [`AllocError`] if memory runs out.
    pub fn copy_of(&self, alloc: Global) -> Result<Memory, AllocError>
        ensures { IfOk result (λ copy. copy ≡ self.now) }
    {
        Ok(Memory {
            pages: self.pages.copy_of(alloc)?,
            promised: Vec::from_slice(alloc, &self.promised)?,
            len: self.len,
        })
    }

    /// Returns how many bytes the memory has: fewer than 2^63.
    #[inline]
    pub fn len(&self) -> u64
        ensures value { result ≡ length self.now.bytes }
        ensures bound { result < 2 ^ 63 }
    {
        self.len
    }

    /// Returns whether the memory has no byte.
    pub fn is_empty(&self) -> bool
        ensures { IsTrue result ↔ (self.now.bytes ≡ []) }
    {
        self.len == 0
    }

    /// Returns how many pages are there, which are those that were promised. Each takes [`PAGE_SIZE`] bytes of the
    /// machine's memory, and the table of the pages some more.
    pub fn page_count(&self) -> usize
        ensures count { result ≡ length self.now.promised }
        ensures distinct { NoRepeats self.now.promised }
    {
        self.promised.len()
    }

    /// Returns whether no page is there of those that the `len` bytes from the address `at` on touch, which then are
    /// all 0. They have to lie in the memory; no bytes touch no page.
    pub fn is_blank(&self, at: u64, len: u64) -> bool
        requires { at + len ≤ length self.now.bytes }
        ensures absent { IsTrue result ↔ AreAbsent at len self.now.promised }
        ensures zeros { IsTrue result → AreZero at len self.now.bytes }
    {
        if len == 0 {
            return true;
        }
        prove!(at <= self.len() - len);
        let first = at / PAGE_SIZE;
        let last = (at + len - 1) / PAGE_SIZE;
        if self.promised.len() as u64 <= last - first {
            self.promises_none(first, last)
        } else {
            self.has_none(first, last)
        }
    }

    /// Returns whether two memories have the same bytes at all addresses from one up to another, which have to lie in
    /// both. Pages that neither has aren't looked at. It takes no memory.
    pub fn has_same_between(&self, other: &Memory, from: u64, to: u64) -> bool
        requires here { to ≤ length self.now.bytes }
        requires there { to ≤ length other.now.bytes }
        ensures { IsTrue result ↔ AreSameBetween from to self.now.bytes other.now.bytes }
    {
        if !self.has_same_on_own(other, from, to) {
            return false;
        }
        for &page in &other.promised {
            if self.pages.get(page).is_none() && !self.has_same_part(other, page, from, to) {
                return false;
            }
        }
        true
    }

    /// Reads the bytes from the address `at` on into the whole of `out`. They have to lie in the memory: `at` and the
    /// length of `out` are together at most the memory's length. Bytes of pages that aren't there are 0.
    #[inline]
    pub fn read(&self, at: u64, out: &mut [u8])
        requires { at + length out.old ≤ length self.now.bytes }
        ensures { out.new ≡ bytes_at at (length out.old) self.now.bytes }
    {
        if out.len() <= room_on_page(at) {
            self.read_on_page(at, out);
        } else {
            self.read_over_pages(at, out);
        }
    }

    /// Writes `bytes` from the address `at` on. They have to lie in the memory, as for [`Memory::read`], and each page
    /// that they touch has to be promised; no bytes touch no page. It takes no memory.
    #[inline]
    pub fn write(&mut self, at: u64, bytes: &[u8])
        requires within { at + length bytes.now ≤ length self.old.bytes }
        requires promised { ArePromised at (length bytes.now) self.old.promised }
        ensures bytes { self.new.bytes ≡ written at bytes.now self.old.bytes }
        ensures size { length self.new.bytes ≡ length self.old.bytes }
        ensures promised { self.new.promised ≡ self.old.promised }
    {
        if !bytes.is_empty() && bytes.len() <= room_on_page(at) {
            self.write_on_page(at, bytes);
        } else {
            self.write_over_pages(at, bytes);
        }
    }

    /// Reads the little-endian word of four bytes at the address `at`. All four have to lie in the memory; they may lie
    /// on two pages.
    #[inline]
    pub fn u32_at(&self, at: u64) -> u32
        requires { at + 4 ≤ length self.now.bytes }
        ensures { result ≡ memory_word_at at self.now.bytes }
    {
        let mut word = [0u8; 4];
        self.read(at, &mut word);
        LittleEndian::read_u32(&word)
    }

    /// Writes `value` as a little-endian word of four bytes at the address `at`. All four have to lie in the memory, on
    /// pages that are promised. It takes no memory.
    #[inline]
    pub fn set_u32(&mut self, at: u64, value: u32)
        requires within { at + 4 ≤ length self.old.bytes }
        requires promised { ArePromised at 4 self.old.promised }
        ensures bytes { self.new.bytes ≡ written at (little_bytes 4 value) self.old.bytes }
        ensures size { length self.new.bytes ≡ length self.old.bytes }
        ensures promised { self.new.promised ≡ self.old.promised }
    {
        let mut word = [0u8; 4];
        LittleEndian::write_u32(&mut word, value);
        self.write(at, &word);
    }

    /// Promises each page that the `len` bytes from the address `at` on touch, so that they may be written. The bytes
    /// have to lie in the memory; no bytes touch no page. What was promised before stays so, and no byte changes. If
    /// all these pages were promised before, nothing is done, and the answer is `Ok`.
    ///
    /// # Errors
    ///
    /// [`AllocError`] if memory runs out. Some of the pages may then be promised, and no others.
    #[inline]
    pub fn promise(&mut self, at: u64, len: u64) -> Result<(), AllocError>
        requires { at + len ≤ length self.old.bytes }
        ensures bytes { self.new.bytes ≡ self.old.bytes }
        ensures ok { OnOk result (ArePromised at len self.new.promised) }
        ensures stay { (page : ℕ) → Contains self.old.promised page → Contains self.new.promised page }
        ensures only { (page : ℕ) → Contains self.new.promised page → Contains self.old.promised page ⊎ Touches at len page }
        ensures had { ArePromised at len self.old.promised → IsOk result × (self.new ≡ self.old) }
    {
        if len <= room_on_page(at) as u64 && self.pages.get(at / PAGE_SIZE).is_some() {
            return Ok(());
        }
        self.promise_pages(at, len)
    }

    // Returns whether the same bytes stand there on each page that this memory has.
    fn has_same_on_own(&self, other: &Memory, from: u64, to: u64) -> bool
        requires here { to ≤ length self.now.bytes }
        requires there { to ≤ length other.now.bytes }
        ensures { IsTrue result ↔ ((page : ℕ) → Contains self.now.promised page → AreSameOnPage page from to self.now.bytes other.now.bytes) }
    {
        for &page in &self.promised {
            if !self.has_same_part(other, page, from, to) {
                return false;
            }
        }
        true
    }

    // Returns the same, asked of one page.
    fn has_same_part(&self, other: &Memory, page: u64, from: u64, to: u64) -> bool
        requires here { to ≤ length self.now.bytes }
        requires there { to ≤ length other.now.bytes }
        ensures { IsTrue result ↔ AreSameOnPage page from to self.now.bytes other.now.bytes }
    {
        let start = page.saturating_mul(PAGE_SIZE);
        let first = start.max(from);
        let end = start.saturating_add(PAGE_SIZE).min(to);
        if end <= first {
            return true;
        }
        self.has_same_on_page(other, first, (end - first) as usize)
    }

    // Returns whether the `len` bytes from the address `at` on are the same in two memories. They have to lie in both,
    // and on one page. A page that isn't there reads as zeros.
    fn has_same_on_page(&self, other: &Memory, at: u64, len: usize) -> bool
        requires here { at + len ≤ length self.now.bytes }
        requires there { at + len ≤ length other.now.bytes }
        requires one_page { at % 512 + len ≤ 512 }
        ensures { IsTrue result ↔ (bytes_at at len self.now.bytes ≡ bytes_at at len other.now.bytes) }
    {
        let start = (at % PAGE_SIZE) as usize;
        let number = at / PAGE_SIZE;
        match (self.pages.get(number), other.pages.get(number)) {
            (Some(page), Some(against)) => page[start..start + len] == against[start..start + len],
            (Some(page), None) => are_zeros(&page[start..start + len]),
            (None, Some(page)) => are_zeros(&page[start..start + len]),
            (None, None) => true,
        }
    }

    // Returns whether none of the promised pages is one of the pages from `first` to `last`.
    fn promises_none(&self, first: u64, last: u64) -> bool
        ensures { IsTrue result ↔ AreNotAmong first last self.now.promised }
    {
        for &page in &self.promised {
            if first <= page && page <= last {
                return false;
            }
        }
        true
    }

    // Returns the same, asked of each of the pages from `first` to `last`.
    fn has_none(&self, first: u64, last: u64) -> bool
        requires { last < 2 ^ 63 }
        ensures { IsTrue result ↔ AreNotAmong first last self.now.promised }
    {
        for number in first..last + 1 {
            if self.pages.get(number).is_some() {
                return false;
            }
        }
        true
    }

    // Promises each of these pages.
    #[inline(never)]
    fn promise_pages(&mut self, at: u64, len: u64) -> Result<(), AllocError>
        requires { at + len ≤ length self.old.bytes }
        ensures bytes { self.new.bytes ≡ self.old.bytes }
        ensures ok { OnOk result (ArePromised at len self.new.promised) }
        ensures stay { (page : ℕ) → Contains self.old.promised page → Contains self.new.promised page }
        ensures only { (page : ℕ) → Contains self.new.promised page → Contains self.old.promised page ⊎ Touches at len page }
        ensures had { ArePromised at len self.old.promised → IsOk result × (self.new ≡ self.old) }
    {
        prove!(at <= self.len() - len);
        if len > 0 {
            for page in at / PAGE_SIZE..(at + len - 1) / PAGE_SIZE + 1 {
                self.promise_page(page)?;
            }
        }
        Ok(())
    }

    // Reads bytes that may lie on several pages.
    #[inline(never)]
    fn read_over_pages(&self, at: u64, out: &mut [u8])
        requires { at + length out.old ≤ length self.now.bytes }
        ensures { out.new ≡ bytes_at at (length out.old) self.now.bytes }
    {
        prove!(at <= self.len() - out.len() as u64);
        let mut done = 0;
        while done < out.len() {
            let from = at + done as u64;
            let count = room_on_page(from).min(out.len() - done);
            self.read_on_page(from, &mut out[done..done + count]);
            done += count;
        }
    }

    // Reads bytes that lie on one page.
    #[inline]
    fn read_on_page(&self, at: u64, out: &mut [u8])
        requires within { at + length out.old ≤ length self.now.bytes }
        requires one_page { at % 512 + length out.old ≤ 512 }
        ensures { out.new ≡ bytes_at at (length out.old) self.now.bytes }
    {
        let start = (at % PAGE_SIZE) as usize;
        match self.pages.get(at / PAGE_SIZE) {
            Some(page) => out.copy_from_slice(&page[start..start + out.len()]),
            None => out.fill(0),
        }
    }

    // Writes bytes that may lie on several pages.
    #[inline(never)]
    fn write_over_pages(&mut self, at: u64, bytes: &[u8])
        requires within { at + length bytes.now ≤ length self.old.bytes }
        requires promised { ArePromised at (length bytes.now) self.old.promised }
        ensures bytes { self.new.bytes ≡ written at bytes.now self.old.bytes }
        ensures size { length self.new.bytes ≡ length self.old.bytes }
        ensures promised { self.new.promised ≡ self.old.promised }
    {
        prove!(at <= self.len() - bytes.len() as u64);
        let mut done = 0;
        while done < bytes.len() {
            let from = at + done as u64;
            let count = room_on_page(from).min(bytes.len() - done);
            self.write_on_page(from, &bytes[done..done + count]);
            done += count;
        }
    }

    // Writes bytes that lie on one page, which is promised.
    #[inline]
    fn write_on_page(&mut self, at: u64, bytes: &[u8])
        requires within { at + length bytes.now ≤ length self.old.bytes }
        requires one_page { at % 512 + length bytes.now ≤ 512 }
        requires promised { Contains self.old.promised (page_of at) }
        ensures bytes { self.new.bytes ≡ written at bytes.now self.old.bytes }
        ensures promised { self.new.promised ≡ self.old.promised }
    {
        let start = (at % PAGE_SIZE) as usize;
        self.pages.write(at / PAGE_SIZE, start, bytes);
    }

    // Makes a page, if it isn't there.
    fn promise_page(&mut self, page: u64) -> Result<(), AllocError>
        ensures bytes { self.new.bytes ≡ self.old.bytes }
        ensures ok { OnOk result (Contains self.new.promised page) }
        ensures stay { (other : ℕ) → Contains self.old.promised other → Contains self.new.promised other }
        ensures only { (other : ℕ) → Contains self.new.promised other → Contains self.old.promised other ⊎ (other ≡ page) }
        ensures had { Contains self.old.promised page → IsOk result × (self.new ≡ self.old) }
    {
        if self.pages.get(page).is_some() {
            return Ok(());
        }
        self.make_page(page)
    }

    // Makes a page that isn't there.
    fn make_page(&mut self, page: u64) -> Result<(), AllocError>
        requires { ¬ Contains self.old.promised page }
        ensures bytes { self.new.bytes ≡ self.old.bytes }
        ensures ok { OnOk result (Contains self.new.promised page) }
        ensures stay { (other : ℕ) → Contains self.old.promised other → Contains self.new.promised other }
        ensures only { (other : ℕ) → Contains self.new.promised other → Contains self.old.promised other ⊎ (other ≡ page) }
    {
        self.promised.reserve(1)?;
        self.pages.put_zeros(page)?;
        self.promised.push_reserved(page);
        Ok(())
    }
}

impl Model for Memory {
    ghost use Rattle.host_memory.specs.Memory.{Contents};

    ghost Value = { Contents };

    ghost use Rattle.host_memory.specs.Inside.{IsMemory, contents_seen};

    ghost view = { contents_seen };

    ghost invariant = { IsMemory };
}

// Returns how many bytes of its page stand from an address on.
#[inline]
fn room_on_page(address: u64) -> usize
    ensures { result ≡ 512 - address % 512 }
{
    (PAGE_SIZE - address % PAGE_SIZE) as usize
}

// Returns whether the bytes, no more than a page of them, are all zero.
#[inline]
fn are_zeros(bytes: &[u8]) -> bool
    requires { length bytes.now ≤ 512 }
    ensures { IsTrue result ↔ (bytes.now ≡ replicate (length bytes.now) 0) }
{
    bytes == &ZEROS[..bytes.len()]
}
