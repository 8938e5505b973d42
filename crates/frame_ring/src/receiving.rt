//! The receiver's end: where it stands with the entry at hand.

ghost use Rattle.std.specs.Prelude.{◌≡◌, ◌↔◌, ℕ, ◌+◌, ◌-◌, ◌*◌, ◌<◌, ◌≤◌, ◌++◌, IfOk, IsSome, IsTrue, OnErr, OnOk, length, min, true};
ghost use Rattle.lane_model.specs.Lane.{chunk_size};
ghost use Rattle.bridge_pair.specs.Bridge.{bridge_bytes_of};
ghost use Rattle.pair_model.specs.Headers.{found_with};
ghost use Rattle.frame_ring.specs.Calls.{frame_of_copy, last_got, look_found, part_answer, part_copied};
ghost use Rattle.frame_ring.specs.Incoming.{next_part};
ghost use Rattle.frame_ring.specs.Outgoing.{most_numbers};
ghost use Rattle.frame_ring.specs.Rings.{port_header_of, address_limit};
ghost use Rattle.frame_ring.specs.Port.{nothing_received};
ghost use Rattle.frame_ring.specs.PortView.{with_room};
ghost use Rattle.frame_ring.specs.declared.RingLook.TheVariants.{Ready};
ghost use Rattle.host_memory.specs.Memory.{bytes_at};
ghost use Rattle.lane_model.specs.Tests.{is_cleared, is_copied, is_copying, is_idle};
ghost use Rattle.lane_model.specs.declared.Phase.TheVariants.{Cleared, Copying, Idle};
ghost use Rattle.pair_model.specs.Sizes.{sizes_in, layout_to};
ghost use Rattle.step_kinds.specs.Limits.{most_frame_bytes};

use crate::RingLook;
use crate::frame_bytes::Gathered;
use crate::reading::HeaderWords;
use crate::rings::QueueRings;
use bridge_pair::Pair;
use lane_model::{CHUNK_SIZE, Phase};
use plan_numbers::chunks_in;
use ring_geometry::ver_of;
use std::alloc::{AllocError, Global};
use std::marker::Model;
use step_kinds::{Frame, LaneCopy, Side};

/// How far a side is with what it receives on a queue.
#[derive(Drop)]
pub struct Receiver {
    got: u64,
    done: u64,
    phase: Phase,
    part: u32,
    len: u32,
    left: u32,
    gathered: Gathered,
}

impl Receiver {
    /// Returns a receiver that has found nothing.
    pub fn new(alloc: Global) -> Receiver
        ensures { result ≡ nothing_received }
    {
        Receiver {
            got: 0,
            done: 0,
            phase: Phase::Idle,
            part: 0,
            len: 0,
            left: 0,
            gathered: Gathered::new(alloc),
        }
    }

    /// Returns a receiver at the same place of the same bytes.
    ///
    /// # Errors
    ///
    /// [`AllocError`] if memory runs out.
    pub fn copy_of(&self, alloc: Global) -> Result<Receiver, AllocError>
        ensures { IfOk result (λ copy. copy ≡ self.now) }
    {
        Ok(Receiver {
            got: self.got,
            done: self.done,
            phase: self.phase,
            part: self.part,
            len: self.len,
            left: self.left,
            gathered: self.gathered.copy_of(alloc)?,
        })
    }

    /// Returns whether two receivers stand at the same place of the same bytes.
    pub fn is_same(&self, other: &Receiver) -> bool
        ensures { IsTrue result ↔ (self.now ≡ other.now) }
    {
        self.got == other.got
            && self.done == other.done
            && self.phase == other.phase
            && self.part == other.part
            && self.len == other.len
            && self.left == other.left
            && self.gathered.is_same(&other.gathered)
    }

    /// Returns how many entries were taken whole.
    pub fn got(&self) -> u64
        ensures value { result ≡ self.now.got }
        ensures few { result ≤ most_numbers }
    {
        self.got
    }

    /// Returns the entry that was taken last.
    pub fn last_got(&self) -> u64
        ensures { result ≡ last_got self.now }
    {
        self.got.saturating_sub(1)
    }

    /// Where the receiver stands.
    pub fn phase(&self) -> Phase
        ensures { result ≡ self.now.phase }
    {
        self.phase
    }

    /// Where the next part of the entry at hand begins in it, in bytes.
    pub fn part_offset(&self) -> u64
        ensures value { result ≡ chunk_size * self.now.part }
        ensures within { is_copying self.now.phase ≡ true → result + next_part self.now ≤ self.now.len }
        ensures few { result < address_limit }
    {
        u64::from(CHUNK_SIZE) * u64::from(self.part)
    }

    /// Returns what a header says to the receiver.
    pub fn sight(&self, rings: &QueueRings, header: &HeaderWords) -> RingLook
        ensures value { result ≡ look_found self.now (found_with (sizes_in rings.now.plan (layout_to rings.now.plan rings.now.side rings.now.queue)) self.now.got (length self.now.gathered) (port_header_of header.now)) }
        ensures few { (number len : ℕ) → result ≡ Ready number len → length self.now.gathered + len ≤ most_frame_bytes }
    {
        let own = ver_of(self.got);
        let largest = rings.into().max_payload();
        let most = rings.most_received();
        if header.flags % 2 != 1 {
            RingLook::Empty
        } else if header.flags / 2 % 2 == 1 {
            RingLook::PeerDown
        } else if header.ver != own {
            RingLook::VerDiffers {
                seen: header.ver,
                own,
            }
        } else if largest < header.len {
            RingLook::Long {
                len: header.len,
                max: largest,
            }
        } else if most < self.gathered.len() + header.len {
            RingLook::Long {
                len: self.gathered.len() + header.len,
                max: most,
            }
        } else {
            RingLook::Ready {
                number: self.got,
                len: header.len,
            }
        }
    }

    /// An entry was found, which has `len` bytes and is followed by `left` entries of its frame: room is taken for its
    /// bytes and promised for its index write. Running out of memory leaves receiver and pair as they were.
    pub fn find(
        &mut self,
        pair: &mut Pair,
        side: Side,
        len: u32,
        left: u32,
    ) -> Result<(), AllocError>
        requires fits { length self.old.gathered + len ≤ most_frame_bytes }
        requires idle { is_idle self.old.phase ≡ true }
        requires number { self.old.got < most_numbers }
        ensures ok { OnOk result (self.new ≡ record self.old { phase = Copying; part = 0; len = len; left = left }) }
        ensures err { OnErr result (self.new ≡ self.old) }
        ensures room { OnOk result (pair.new ≡ with_room pair.old side 1) }
        ensures same { OnErr result (pair.new ≡ pair.old) }
    {
        self.gathered.make_room(len)?;
        pair.promise(side, 1)?;
        self.phase = Phase::Copying;
        self.part = 0;
        self.len = len;
        self.left = left;
        Ok(())
    }

    /// Copies the next part of the entry at hand, which stands at this address of the side's memory.
    pub fn copy(&mut self, pair: &Pair, side: Side, at: u64) -> LaneCopy
        requires copying { is_copying self.old.phase ≡ true }
        requires within { at + next_part self.old ≤ length (bridge_bytes_of pair.now side) }
        ensures answer { result ≡ part_answer self.old (self.old.gathered ++ bytes_at at (next_part self.old) (bridge_bytes_of pair.now side)) }
        ensures after { self.new ≡ part_copied self.old (self.old.gathered ++ bytes_at at (next_part self.old) (bridge_bytes_of pair.now side)) }
    {
        let number = self.got;
        let part = self.part;
        let rest = self.len - CHUNK_SIZE * part;
        self.gathered
            .read(pair, side, at, rest.min(CHUNK_SIZE) as usize);
        if part + 1 < chunks_in(self.len) {
            self.part = part + 1;
            return LaneCopy::Part { number, part };
        }
        self.got = number + 1;
        self.phase = Phase::Copied;
        if self.left > 0 {
            return LaneCopy::Part { number, part };
        }
        let number = self.done;
        self.done = number + 1;
        LaneCopy::Whole {
            number,
            frame: self.gathered.deliver(),
        }
    }

    /// Returns the frame that the next copy delivers, if it delivers one: a frame of its own, and what was gathered
    /// stays. The next part of the entry at hand stands at this address of the side's memory.
    ///
    /// # Errors
    ///
    /// [`AllocError`] if memory runs out, and only if there is such a frame.
    pub fn frame_due(
        &self,
        alloc: Global,
        pair: &Pair,
        side: Side,
        at: u64,
    ) -> Result<Option<Frame>, AllocError>
        requires copying { is_copying self.now.phase ≡ true }
        requires within { at + next_part self.now ≤ length (bridge_bytes_of pair.now side) }
        ensures value { IfOk result (λ due. due ≡ frame_of_copy (part_answer self.now (self.now.gathered ++ bytes_at at (next_part self.now) (bridge_bytes_of pair.now side)))) }
        ensures wants { OnErr result (IsSome (frame_of_copy (part_answer self.now (self.now.gathered ++ bytes_at at (next_part self.now) (bridge_bytes_of pair.now side))))) }
    {
        let part = self.part;
        let rest = self.len - CHUNK_SIZE * part;
        if part + 1 < chunks_in(self.len) || self.left > 0 {
            return Ok(None);
        }
        let mut gathered = self.gathered.copy_of(alloc)?;
        gathered.read(pair, side, at, rest.min(CHUNK_SIZE) as usize);
        Ok(Some(gathered.deliver()))
    }

    /// The flags of the entry that was copied are cleared.
    pub fn cleared(&mut self)
        requires { is_copied self.old.phase ≡ true }
        ensures { self.new ≡ record self.old { phase = Cleared } }
    {
        self.phase = Phase::Cleared;
    }

    /// The entry that was cleared is given back.
    pub fn given_back(&mut self)
        requires { is_cleared self.old.phase ≡ true }
        ensures { self.new ≡ record self.old { phase = Idle } }
    {
        self.phase = Phase::Idle;
    }

    /// Forgets all that was found.
    pub fn reset(&mut self)
        ensures { self.new ≡ nothing_received }
    {
        self.got = 0;
        self.done = 0;
        self.phase = Phase::Idle;
        self.part = 0;
        self.len = 0;
        self.left = 0;
        self.gathered.clear();
    }
}

impl Model for Receiver {
    ghost use Rattle.frame_ring.specs.Incoming.{IsReceiver, receiver_seen};
    ghost use Rattle.frame_ring.specs.Port.{Receiving};

    ghost Value = { Receiving };

    ghost view = { receiver_seen };

    ghost invariant = { IsReceiver };
}
