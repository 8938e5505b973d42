//! The names of one kind.

ghost use Rattle.std.specs.Prelude.{◌≡◌, ◌∷◌, ◌++◌, ◌<◌, [], false, length, OnOk, OnErr, IfSome};
ghost use Rattle.std.specs.List.{position_from};
ghost use Rattle.std.specs.Str.{bytes_eq};

use indexmap::IndexSet;
use std::alloc::{AllocError, Global};
use std::marker::Model;

/// Among this many names at most one is found sooner by comparing them in turn than by its hash.
const MOST_IN_TURN: usize = 16;

/// The names of the hosts, the pairs, the devices or the switches, in the order of their declaration.
#[derive(Drop)]
pub struct Names {
    names: IndexSet<Vec<u8>>,
}

impl Names {
    ghost use Rattle.script_words.specs.Before.{number_named, has_name};

    /// No names.
    pub fn new(alloc: Global) -> Names
        ensures { result ≡ [] }
    {
        Names {
            names: IndexSet::new(alloc),
        }
    }

    /// Returns how many names there are.
    pub fn len(&self) -> usize
        ensures { result ≡ length self.now }
    {
        self.names.len()
    }

    /// Returns whether the name is among them.
    pub fn contains(&self, name: &[u8]) -> bool
        ensures { result ≡ has_name self.now name.now }
    {
        self.names.contains(name)
    }

    /// Returns the number of the name, from 0; `None` if and only if it isn't among them.
    pub fn number(&self, name: &[u8]) -> Option<u32>
        ensures value { result ≡ number_named self.now name.now }
        ensures below { IfSome result (λ k. k < length self.now) }
    {
        let place = self.place(name)?;
        Some(place as u32)
    }

    /// Returns the same as a place: few names are compared in turn, many are found by hash.
    fn place(&self, name: &[u8]) -> Option<usize>
        ensures value { result ≡ number_named self.now name.now }
        ensures below { IfSome result (λ k. k < length self.now) }
        ensures few { IfSome result (λ k. k < 64) }
    {
        if self.names.len() <= MOST_IN_TURN {
            place_in_turn(self.names.as_slice(), name)
        } else {
            self.names.get_index_of(name)
        }
    }

    /// Adds a name that isn't there yet to fewer than 64. Returns an error if memory runs out, and then nothing is
    /// added.
    pub fn push(&mut self, alloc: Global, name: &[u8]) -> Result<(), AllocError>
        requires new { has_name self.old name.now ≡ false }
        requires few { length self.old < 64 }
        ensures ok { OnOk result (self.new ≡ self.old ++ name.now ∷ []) }
        ensures err { OnErr result (self.new ≡ self.old) }
    {
        let kept = Vec::from_slice(alloc, name)?;
        self.names.insert(kept)?;
        Ok(())
    }
}

impl Model for Names {
    ghost use Rattle.std.specs.Prelude.{ℕ, List, ◌≤◌, length, map};

    ghost Value = { List (List ℕ) };

    ghost view = { λ all. map (λ name. name.items) all.names.keys };

    ghost invariant = { λ all. length all.names.keys ≤ 64 };
}

/// Returns the place of the first of some names that is this one.
fn place_in_turn(names: &[Vec<u8>], name: &[u8]) -> Option<usize>
    ensures value { result ≡ position_from (λ other. bytes_eq name.now other.items) 0 names.now }
    ensures below { IfSome result (λ k. k < length names.now) }
{
    for (place, other) in names.iter().enumerate() {
        if name == other.as_slice() {
            return Some(place);
        }
    }
    None
}
