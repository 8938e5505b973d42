//! The bytes of the frame that is received.

ghost use Rattle.std.specs.Prelude.{◌≡◌, ◌↔◌, ◌+◌, ◌-◌, ◌<◌, ◌≤◌, ◌++◌, IfOk, IsTrue, OnErr, OnOk, length};
ghost use Rattle.bridge_pair.specs.Bridge.{bridge_bytes_of};
ghost use Rattle.frame_ring.specs.Gathering.{nothing_gathered};
ghost use Rattle.host_memory.specs.Memory.{bytes_at};
ghost use Rattle.step_kinds.specs.Limits.{most_frame_bytes};

use bridge_pair::Pair;
use std::alloc::{AllocError, Global};
use std::marker::Model;
use std::mem;
use step_kinds::{Frame, Side};

/// The bytes gathered so far of a frame, and room for more, which is taken before they come.
#[derive(Drop)]
pub struct Gathered {
    bytes: Vec<u8>,
    filled: usize,
    alloc: Global,
}

impl Gathered {
    /// No bytes, and no room. It takes no memory.
    pub fn new(alloc: Global) -> Gathered
        ensures { result ≡ nothing_gathered }
    {
        Gathered {
            bytes: Vec::new(alloc),
            filled: 0,
            alloc,
        }
    }

    /// Returns the same bytes gathered, with as much room.
    ///
    /// # Errors
    ///
    /// [`AllocError`] if memory runs out.
    pub fn copy_of(&self, alloc: Global) -> Result<Gathered, AllocError>
        ensures { IfOk result (λ copy. copy ≡ self.now) }
    {
        Ok(Gathered {
            bytes: Vec::from_slice(alloc, &self.bytes)?,
            filled: self.filled,
            alloc,
        })
    }

    /// Returns how many bytes were gathered.
    pub fn len(&self) -> u32
        ensures value { result ≡ length self.now.bytes }
        ensures few { result ≤ most_frame_bytes }
    {
        self.filled as u32
    }

    /// Returns whether the same bytes were gathered, whatever room there is.
    pub fn is_same(&self, other: &Gathered) -> bool
        ensures { IsTrue result ↔ (self.now.bytes ≡ other.now.bytes) }
    {
        self.bytes[..self.filled] == other.bytes[..other.filled]
    }

    /// Takes room for `more` bytes. Running out of memory leaves the bytes as they were.
    pub fn make_room(&mut self, more: u32) -> Result<(), AllocError>
        requires { length self.old.bytes + more ≤ most_frame_bytes }
        ensures ok { OnOk result (self.new ≡ record self.old { room = more }) }
        ensures err { OnErr result (self.new.bytes ≡ self.old.bytes) }
    {
        self.bytes.resize(self.filled + more as usize, 0)
    }

    /// Reads further bytes out of a side's memory.
    pub fn read(&mut self, pair: &Pair, side: Side, at: u64, len: usize)
        requires room { len ≤ self.old.room }
        requires within { at + len ≤ length (bridge_bytes_of pair.now side) }
        ensures { self.new ≡ record { bytes = self.old.bytes ++ bytes_at at len (bridge_bytes_of pair.now side); room = self.old.room - len } }
    {
        let end = self.filled + len;
        pair.local_read(side, at, &mut self.bytes[self.filled..end]);
        self.filled = end;
    }

    /// Returns the frame of all bytes gathered, if no room is left for more.
    pub fn deliver(&mut self) -> Frame
        requires { self.old.room ≡ 0 }
        ensures frame { result ≡ self.old.bytes }
        ensures after { self.new ≡ nothing_gathered }
    {
        let bytes = mem::replace(&mut self.bytes, Vec::new(self.alloc));
        self.filled = 0;
        Frame::of_vec(bytes)
    }

    /// Forgets all bytes.
    pub fn clear(&mut self)
        ensures { self.new ≡ nothing_gathered }
    {
        self.bytes.clear();
        self.filled = 0;
    }
}

impl Model for Gathered {
    ghost use Rattle.frame_ring.specs.Gathering.{Gathering, IsGathered, gathering_seen};

    ghost Value = { Gathering };

    ghost view = { gathering_seen };

    ghost invariant = { IsGathered };
}
