//! Posted writes.

ghost use Rattle.std.specs.Prelude.{◌≡◌, ◌<◌, ◌≤◌, length};
ghost use Rattle.step_kinds.specs.Limits.{most_write_bytes};
ghost use Rattle.bridge_pair.specs.Writes.{bell_write, memory_write, pad_write};

use std::marker::Model;
use step_kinds::limits::MOST_WRITE_BYTES;
use step_kinds::{InPlace, Label};

/// The bytes of one write to memory, 1 to 128 of them, kept in place. Contracts see their list.
pub type WriteBytes = InPlace<{ MOST_WRITE_BYTES }>;

/// Where a posted write goes, by the numbers of the side that posts it.
#[derive(Drop)]
pub enum Target {
    /// Into the peer's memory, through one of the side's translation windows.
    ThroughWindow {
        /// The window's number, from 0.
        window: u32,
        /// Where the bytes go, in bytes from the window's beginning.
        offset: u64,
        /// The bytes.
        bytes: WriteBytes,
    },
    /// To a scratchpad of the peer.
    ToPad {
        /// The scratchpad's number, 0 to 15.
        index: u32,
        /// What is written there.
        value: u32,
    },
    /// To the peer's doorbell.
    ToBell {
        /// The bit that is rung, 0 to 31.
        bit: u32,
    },
}

/// One posted write: its label and its target. Contracts see both.
#[derive(Drop)]
pub struct Write {
    pub(crate) label: Label,
    pub(crate) target: Target,
}

impl Write {
    /// Returns a write to the peer's memory: 1 to 128 bytes, through the window `window`, from the byte `offset` of it
    /// on.
    #[inline]
    pub fn memory(label: Label, window: u32, offset: u64, bytes: &[u8]) -> Write
        requires some { 1 ≤ length bytes.now }
        requires fits { length bytes.now ≤ most_write_bytes }
        ensures { result ≡ memory_write label window offset bytes.now }
    {
        Write {
            label,
            target: Target::ThroughWindow {
                window,
                offset,
                bytes: WriteBytes::of_slice(bytes),
            },
        }
    }

    /// Returns a write of `value` to the peer's scratchpad `index`, 0 to 15 (`ntb_peer_spad_write`).
    pub fn pad(index: u32, value: u32) -> Write
        requires { index < 16 }
        ensures { result ≡ pad_write index value }
    {
        Write {
            label: Label::Pad { index, value },
            target: Target::ToPad { index, value },
        }
    }

    /// Returns the ring of the peer's doorbell for a queue, 0 to 15, whose number is the bit's (`ntb_peer_db_set`).
    pub fn bell(queue: u32) -> Write
        requires { queue < 16 }
        ensures { result ≡ bell_write queue }
    {
        Write {
            label: Label::Bell { queue },
            target: Target::ToBell { bit: queue },
        }
    }

    /// Returns the write's label.
    pub fn label(&self) -> Label
        ensures { result ≡ self.now.label }
    {
        self.label
    }
}

impl Model for Write {
    ghost use Rattle.bridge_pair.specs.Writes.{IsTarget, PostedWrite};

    ghost Value = { PostedWrite };

    ghost view = { λ write. record { label = write.label; target = write.target } };

    ghost invariant = { λ write. IsTarget write.target };
}
