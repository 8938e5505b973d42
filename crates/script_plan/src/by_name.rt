//! What is declared by name: the pairs, the devices and the switches so far.

ghost use Rattle.std.specs.Prelude.{◌≡◌, ℕ, List, ◌∷◌, ◌++◌, ◌<◌, [], false, length, map, slice_index_or, OnOk, OnErr, IfSome};
ghost use Rattle.script_words.specs.Before.{number_named, has_name};

use crate::names::Names;
use std::alloc::{AllocError, Global};
use std::marker::Model;
use step_kinds::Items;

/// What has a name of its own.
pub trait Named: Drop {
    ghost called: { Self → List ℕ };

    /// Its name.
    fn name(&self) -> &[u8]
        ensures { result.now ≡ called self.now };
}

/// What is declared so far of one kind, in order and at most 64 of them. Each is found by its name.
#[derive(Drop)]
pub struct Declared<T: Named> {
    pub(crate) names: Names,
    pub(crate) items: Vec<T>,
}

impl<T: Named> Declared<T> {
    /// Nothing.
    pub fn new(alloc: Global) -> Declared<T>
        ensures { result ≡ [] }
    {
        Declared {
            names: Names::new(alloc),
            items: Vec::new(alloc),
        }
    }

    /// Returns how many there are.
    pub fn len(&self) -> usize
        ensures { result ≡ length self.now }
    {
        self.items.len()
    }

    /// Returns the one with the number, which has to be below how many there are.
    pub fn get(&self, number: u32) -> &T
        requires { number < length self.now }
        ensures { (other : T) → result.now ≡ slice_index_or self.now number other }
    {
        &self.items[number as usize]
    }

    /// Their names, in order.
    pub fn names(&self) -> &Names
        ensures { result.now ≡ map T.called self.now }
    {
        &self.names
    }

    /// Returns the number of the one with the name, from 0; `None` if and only if none has it.
    pub fn number(&self, name: &[u8]) -> Option<u32>
        ensures value { result ≡ number_named (map T.called self.now) name.now }
        ensures below { IfSome result (λ k. k < length self.now) }
    {
        self.names.number(name)
    }

    /// Adds one whose name is new to fewer than 64. Returns an error if memory runs out, and then nothing is added.
    pub fn push(&mut self, alloc: Global, item: T) -> Result<(), AllocError>
        requires new { has_name (map T.called self.old) (T.called item) ≡ false }
        requires few { length self.old < 64 }
        ensures ok { OnOk result (self.new ≡ self.old ++ item ∷ []) }
        ensures err { OnErr result (self.new ≡ self.old) }
    {
        self.items.try_reserve(1)?;
        self.names.push(alloc, item.name())?;
        self.items.push(item)?;
        Ok(())
    }

    /// Returns all of them, in order.
    pub fn into_items(self) -> Items<T>
        ensures { result ≡ self }
    {
        let Declared { names: _, items } = self;
        Items::of_vec(items)
    }
}

impl<T: Named> Model for Declared<T> {
    ghost use Rattle.std.specs.Prelude.{List};
    ghost use Rattle.script_plan.specs.NamesMatch.{NamesMatch};

    ghost Value = { List T };

    ghost view = { λ all. all.items.items };

    ghost invariant = { λ all. NamesMatch T.called all.names all.items.items };
}
