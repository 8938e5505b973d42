//! Few bytes, kept in place.

ghost use Rattle.std.specs.Prelude.{◌≡◌, ◌≤◌, length};

use std::marker::Model;

/// 1 to `MOST` bytes, kept in place. Contracts see their list.
#[derive(Drop)]
pub struct InPlace<const MOST: usize> {
    bytes: [u8; MOST],
    len: usize,
}

impl<const MOST: usize> InPlace<MOST> {
    /// These 1 to `MOST` bytes.
    pub fn of_slice(bytes: &[u8]) -> InPlace<MOST>
        requires some { 1 ≤ length bytes.now }
        requires fits { length bytes.now ≤ MOST }
        ensures { result ≡ bytes.now }
    {
        let mut kept = [0u8; MOST];
        kept[..bytes.len()].copy_from_slice(bytes);
        InPlace {
            bytes: kept,
            len: bytes.len(),
        }
    }

    /// Returns the bytes.
    pub fn as_slice(&self) -> &[u8]
        ensures value { result.now ≡ self.now }
        ensures some { 1 ≤ length result.now }
        ensures fits { length result.now ≤ MOST }
    {
        &self.bytes[..self.len]
    }
}

impl<const MOST: usize> Model for InPlace<MOST> {
    ghost use Rattle.std.specs.Prelude.{ℕ, List, ◌≤◌, take};

    ghost Value = { List ℕ };

    ghost view = { λ kept. take kept.len kept.bytes };

    ghost invariant = { λ kept. (1 ≤ kept.len) × (kept.len ≤ MOST) };
}
