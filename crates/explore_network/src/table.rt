//! `Table`: the keys of the states from which the walk has found all outcomes.
ghost use Rattle.std.specs.Prelude.{◌≡◌, ◌⊎◌, ◌++◌, ◌∷◌, [], IsTrue, OnOk, length};
ghost use Rattle.explore_network.specs.Keys.{IsAmong};

use dots_core::Oom;
use indexmap::IndexSet;
use network_rules::Key;
use std::alloc::Allocator;
use std::hash::{BuildHasherDefault, FoldHasher};
use std::marker::Model;

/// The keys of the states from which the walk has found all outcomes.
#[derive(Drop)]
pub(crate) struct Table<'a, B: Allocator> {
    known: IndexSet<Key<&'a B>, BuildHasherDefault<FoldHasher>, &'a B>,
}

impl<'a, B: Allocator> Model for Table<'a, B> {
    ghost use Rattle.std.specs.Prelude.{ℕ, List, map};

    ghost Value = { List (List ℕ) };

    ghost view = { λ t. map (λ key. key.items) t.known.keys };
}

impl<'a, B: Allocator> Table<'a, B> {
    pub(crate) fn new(alloc: &'a B) -> Self
        ensures { result ≡ [] }
    {
        Table {
            known: IndexSet::new(alloc),
        }
    }

    /// How many keys there are.
    pub(crate) fn len(&self) -> usize
        ensures { result ≡ length self.now }
    {
        self.known.len()
    }

    /// Whether this key is in the table.
    pub(crate) fn has(&self, key: &Key<&'a B>) -> bool
        ensures { IsTrue result → IsAmong key.now.items self.now }
    {
        self.known.contains(key)
    }

    /// Adds a key, unless it is in the table.
    pub(crate) fn put(&mut self, key: Key<&'a B>) -> Result<(), Oom>
        ensures { OnOk result ((self.new ≡ self.old) ⊎ ((self.new ≡ self.old ++ key.entry.items ∷ []) × (IsAmong key.entry.items self.old → ⊥))) }
    {
        match self.known.insert(key) {
            Ok(_added) => Ok(()),
            Err(_refused) => Err(Oom),
        }
    }
}
