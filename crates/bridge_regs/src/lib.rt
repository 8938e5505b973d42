//! The registers of a bridge that both hosts of a pair reach: scratchpads and doorbells (Linux
//! `Documentation/driver-api/ntb.rst`). A scratchpad holds one word. The bits of a doorbell are rung by one side and
//! taken by the other.
//!
//! Sets of bits are numbers of 32 bits. No call takes memory.
#![tactic(auto)]

ghost use Rattle.std.specs.Prelude.{bit_and, bit_or, length, replicate, slice_index, slice_set, ◌<◌, ◌≡◌};
ghost use Rattle.step_kinds.specs.Bits.{with_bit, without_bits};

use std::marker::Model;

pub mod laws;

/// The 16 scratchpads of one side, each a word of 32 bits, numbered from 0. The peer writes them
/// (`ntb_peer_spad_write`) and the side reads them (`ntb_spad_read`). Contracts see the list of the words.
#[derive(Clone, Copy, Debug, PartialEq, Eq)]
pub struct Pads {
    words: [u32; 16],
}

impl Pads {
    /// All scratchpads hold 0.
    pub fn new() -> Pads
        ensures { result ≡ replicate 16 0 }
    {
        Pads { words: [0; 16] }
    }

    /// Returns the word of the scratchpad `i`, counted from 0, which has to be below 16.
    pub fn get(&self, i: u32) -> u32
        requires { i < 16 }
        ensures value { result ≡ slice_index self.now i }
        ensures sixteen { length self.now ≡ 16 }
    {
        self.words[i as usize]
    }

    /// Puts `value` into the scratchpad `i`, counted from 0, which has to be below 16. The others stay.
    pub fn set(&mut self, i: u32, value: u32)
        requires { i < 16 }
        ensures changed { self.new ≡ slice_set self.old i value }
        ensures sixteen { length self.new ≡ 16 }
    {
        self.words[i as usize] = value;
    }
}

impl Model for Pads {
    ghost use Rattle.std.specs.Prelude.{List, ℕ};

    ghost Value = { List ℕ };

    ghost view = { λ pads. pads.words };

    ghost inverse = { λ words. record { words = words } };
}

/// The doorbell of one side: the bits that the peer rang (`ntb_peer_db_set`) and the side has not yet taken, and the
/// bits that the side has masked (`ntb_db_set_mask`). There are 32 bits, from 0; bit k of a number of bits has the
/// value 2^k.
#[derive(Clone, Copy, Debug, PartialEq, Eq)]
pub struct Bells {
    pending: u32,
    masked: u32,
}

impl Bells {
    ghost use Rattle.bridge_regs.specs.Doorbell.{quiet, unmasked_pending, with_masked, with_pending};

    /// No bit is pending and none is masked.
    pub fn new() -> Bells
        ensures { result ≡ quiet }
    {
        Bells {
            pending: 0,
            masked: 0,
        }
    }

    /// Rings a bit, which has to be below 32: it is pending from now on, masked or not, until it is taken or zeroed.
    pub fn ring(&mut self, bit: u32)
        requires { bit < 32 }
        ensures { self.new ≡ with_pending self.old (with_bit self.old.pending bit) }
    {
        self.pending |= 1 << bit;
    }

    /// Returns the pending bits, masked ones with them.
    pub fn pending(&self) -> u32
        ensures { result ≡ self.now.pending }
    {
        self.pending
    }

    /// Returns the masked bits.
    pub fn masked(&self) -> u32
        ensures { result ≡ self.now.masked }
    {
        self.masked
    }

    /// Takes the pending bits that aren't masked and returns them: they are pending no more, and masked ones stay
    /// pending.
    #[tactic(auto, using(crate::proofs::BitByBit::and_not_is, crate::proofs::BitByBit::left_by_take))]
    pub fn take(&mut self) -> u32
        ensures taken { result ≡ unmasked_pending self.old }
        ensures cleared { self.new ≡ with_pending self.old (without_bits self.old.pending result) }
        ensures left { self.new.pending ≡ bit_and self.old.pending self.old.masked }
    {
        let taken = self.pending & !self.masked;
        self.pending &= !taken;
        taken
    }

    /// Masks these bits too. What is pending stays so.
    pub fn mask(&mut self, bits: u32)
        ensures { self.new ≡ with_masked self.old (bit_or self.old.masked bits) }
    {
        self.masked |= bits;
    }

    /// Masks these bits no more, and leaves the mask of the others. What is pending stays so.
    #[tactic(auto, using(crate::proofs::BitByBit::and_not_is))]
    pub fn unmask(&mut self, bits: u32)
        ensures { self.new ≡ with_masked self.old (without_bits self.old.masked bits) }
    {
        self.masked &= !bits;
    }

    /// No bit is pending any more. What is masked stays so.
    pub fn zero_pending(&mut self)
        ensures { self.new ≡ with_pending self.old 0 }
    {
        self.pending = 0;
    }
}

impl Model for Bells {
    ghost use Rattle.bridge_regs.specs.Doorbell.{Doorbell};

    ghost Value = { Doorbell };

    ghost view = { λ bells. record { pending = bells.pending; masked = bells.masked } };

    ghost inverse = { λ bell. record { pending = bell.pending; masked = bell.masked } };
}
