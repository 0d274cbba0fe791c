//! Keys by their places.
ghost use Rattle.std.specs.Prelude.{◌≡◌, ◌<◌, ◌≤◌, ◌+◌, ◌^◌, ◌++◌, ◌∷◌, [], false, position, Some, IfSome, OnOk, OnErr};
ghost use Rattle.std.specs.List.{list_any};
ghost use Rattle.setoff_model.specs.Same.{same_key};

use indexmap::IndexSet;
use setoff_model::Key;
use std::alloc::{AllocError, Global};
use std::marker::Model;

/// Keys in the order in which they were added, none of them twice, and the room for more.
#[derive(Drop)]
pub struct KeyIndex {
    keys: IndexSet<Key>,
}

impl Model for KeyIndex {
    ghost use Rattle.indexmap.specs.IndexSet.{spare};
    ghost use Rattle.name_index.specs.Indexes.{KeysView};

    ghost Value = { KeysView };

    ghost view = { λ i. record { keys = i.keys.keys; room = spare i.keys } };
}

impl KeyIndex {
    /// An index without keys. It takes no memory.
    pub fn new(alloc: Global) -> KeyIndex
        ensures { result.keys ≡ [] }
    {
        KeyIndex {
            keys: IndexSet::new(alloc),
        }
    }

    /// The place of a key; None where it was not added.
    pub fn place(&self, key: &Key) -> Option<usize>
        ensures { result ≡ position (same_key key.now) self.now.keys }
    {
        self.keys.get_index_of(key)
    }

    /// The place of a key, which is looked for from a place on, one key after the other; None where it stands at none of them.
    pub fn place_from(&self, from: usize, key: &Key) -> Option<usize>
        ensures found { IfSome result (λ place. position (same_key key.now) self.now.keys ≡ Some place) }
        ensures within { IfSome result (λ place. place < 2 ^ 63) }
    {
        let keys = self.keys.as_slice();
        for place in from..keys.len() {
            if *key == keys[place] {
                return Some(place);
            }
        }
        None
    }

    /// Makes the room for so many keys. It lowers no room that was made before.
    ///
    /// The only error is that memory is missing. It comes only where there was less room.
    pub fn reserve(&mut self, keys: usize) -> Result<(), AllocError>
        ensures keys { self.new.keys ≡ self.old.keys }
        ensures room { OnOk result (keys ≤ self.new.room) }
        ensures kept { self.old.room ≤ self.new.room }
        ensures needed { OnErr result (self.old.room < keys) }
    {
        self.keys.reserve(keys)
    }

    /// Puts a key at the end that was not added before. There is room for it, so this takes no memory.
    pub fn add(&mut self, key: Key)
        requires room { 0 < self.old.room }
        requires new { list_any (same_key key) self.old.keys ≡ false }
        ensures keys { self.new.keys ≡ self.old.keys ++ key ∷ [] }
        ensures room { self.old.room ≤ self.new.room + 1 }
    {
        self.keys.insert(key).unwrap();
    }

    /// Puts a key at the end that was not added before. The only error is that memory is missing.
    pub fn push(&mut self, key: Key) -> Result<(), AllocError>
        requires { list_any (same_key key) self.old.keys ≡ false }
        ensures { OnOk result (self.new.keys ≡ self.old.keys ++ key ∷ []) }
    {
        self.reserve(1)?;
        self.add(key);
        Ok(())
    }
}
