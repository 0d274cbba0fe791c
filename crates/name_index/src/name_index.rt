//! Names by their places.
ghost use Rattle.std.specs.Prelude.{◌≡◌, ◌<◌, ◌≤◌, ◌+◌, ◌++◌, ◌∷◌, [], false, position, OnOk, OnErr};
ghost use Rattle.std.specs.List.{list_any};
ghost use Rattle.setoff_model.specs.Same.{same_name};

use indexmap::IndexSet;
use setoff_model::Name;
use std::alloc::{AllocError, Global};
use std::marker::Model;

/// Names in the order in which they were added, none of them twice, and the room for more.
#[derive(Drop)]
pub struct NameIndex {
    names: IndexSet<Name>,
}

impl Model for NameIndex {
    ghost use Rattle.indexmap.specs.IndexSet.{spare};
    ghost use Rattle.name_index.specs.Indexes.{NamesView};

    ghost Value = { NamesView };

    ghost view = { λ i. record { names = i.names.keys; room = spare i.names } };
}

impl NameIndex {
    /// An index without names. It takes no memory.
    pub fn new(alloc: Global) -> NameIndex
        ensures { result.names ≡ [] }
    {
        NameIndex {
            names: IndexSet::new(alloc),
        }
    }

    /// The place of a name; None where it was not added.
    pub fn place(&self, name: &Name) -> Option<usize>
        ensures { result ≡ position (same_name name.now) self.now.names }
    {
        self.names.get_index_of(name)
    }

    /// The place of a name, as `place` finds it. Where the name stands at the guess, nothing is looked up.
    pub fn place_near(&self, guess: usize, name: &Name) -> Option<usize>
        ensures { result ≡ position (same_name name.now) self.now.names }
    {
        let names = self.names.as_slice();
        if guess < names.len() && *name == names[guess] {
            return Some(guess);
        }
        self.place(name)
    }

    /// Makes the room for so many names. It lowers no room that was made before.
    ///
    /// The only error is that memory is missing. It comes only where there was less room.
    pub fn reserve(&mut self, names: usize) -> Result<(), AllocError>
        ensures names { self.new.names ≡ self.old.names }
        ensures room { OnOk result (names ≤ self.new.room) }
        ensures kept { self.old.room ≤ self.new.room }
        ensures needed { OnErr result (self.old.room < names) }
    {
        self.names.reserve(names)
    }

    /// Puts a name at the end that was not added before. There is room for it, so this takes no memory.
    pub fn add(&mut self, name: Name)
        requires room { 0 < self.old.room }
        requires new { list_any (same_name name) self.old.names ≡ false }
        ensures names { self.new.names ≡ self.old.names ++ name ∷ [] }
        ensures room { self.old.room ≤ self.new.room + 1 }
    {
        self.names.insert(name).unwrap();
    }

    /// Puts a name at the end that was not added before. The only error is that memory is missing.
    pub fn push(&mut self, name: Name) -> Result<(), AllocError>
        requires { list_any (same_name name) self.old.names ≡ false }
        ensures { OnOk result (self.new.names ≡ self.old.names ++ name ∷ []) }
    {
        self.reserve(1)?;
        self.add(name);
        Ok(())
    }
}
