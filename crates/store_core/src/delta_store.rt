//! `DeltaStore`: a store with its delta.
//!
//! It has the own name, the dots that were seen, the live entries among them, and the delta. The delta has the own dots
//! that edits touched since the delta was last taken, with the live entries among these dots. A contract sees the plain
//! `DeltaStore`, two stores of dots and entries. `IsDeltaStore` says what each `DeltaStore` keeps, so that no edit
//! requires it. These are its clauses: The own name is below `most_names`. Seen dots are valid, and the own ones are those with
//! the clocks from 1 to the own clock. An entry's dot was seen. The delta's dots are own and were seen, and its entries
//! are live. So the fresh dot is new to the store and to the delta, and neither has an own dot above the last one. A
//! method that takes an edit back requires that the edit can be taken back (`CanBeRestored` and its like).
//!
//! Each edit is a method, in the module of its kind. In the middle of an edit an entry may stand in the delta alone,
//! which no `DeltaStore` may have. So the method calls functions that take single fields, and not the `DeltaStore`.
ghost use Rattle.std.specs.Prelude.{◌≡◌, ◌↔◌, ◌<◌, ◌≤◌, IfOk, IsTrue};
ghost use Rattle.dots_core.specs.Dots.{last_clock};
ghost use Rattle.dots_core.specs.Names.{most_names};
ghost use Rattle.store_core.specs.DeltaStores.{empty, fresh, last, own_clock};

use dots_core::{Dot, DotSet, Oom};
use payload_core::EntrySet;
use std::alloc::Allocator;
use std::marker::Model;

/// The own name, the dots that were seen with the live entries among them, and the delta.
#[derive(Drop)]
pub struct DeltaStore<A: Allocator> {
    pub(crate) own: u16,
    pub(crate) seen: DotSet<A>,
    pub(crate) entries: EntrySet<A>,
    pub(crate) delta_seen: DotSet<A>,
    pub(crate) delta_entries: EntrySet<A>,
}

impl<A: Allocator> Model for DeltaStore<A> {
    ghost use Rattle.store_core.specs.DeltaStores.{DeltaStore, IsDeltaStore, delta_store_code};

    ghost Value = { DeltaStore };

    ghost coded = { delta_store_code };

    ghost view = { λ s. record {
      own = s.own;
      store = record { seen = s.seen; entries = s.entries.map };
      delta = record { seen = s.delta_seen; entries = s.delta_entries.map };
    } };

    ghost invariant = { λ s. IsDeltaStore (record {
      own = s.own;
      store = record { seen = s.seen; entries = s.entries.map };
      delta = record { seen = s.delta_seen; entries = s.delta_entries.map };
    }) };
}

impl<A: Allocator> DeltaStore<A> {
    /// The name of the replica whose store this is.
    pub fn own(&self) -> u16
        ensures { result ≡ self.now.own }
    {
        self.own
    }

    /// The dots that were seen, of all names.
    pub fn seen(&self) -> &DotSet<A>
        ensures { result.now ≡ self.now.store.seen }
    {
        &self.seen
    }

    /// The live entries, each at a dot that was seen.
    pub fn entries(&self) -> &EntrySet<A>
        ensures { result.now.map ≡ self.now.store.entries }
    {
        &self.entries
    }

    /// The own dots that edits touched since the delta was last taken.
    pub fn delta_seen(&self) -> &DotSet<A>
        ensures { result.now ≡ self.now.delta.seen }
    {
        &self.delta_seen
    }

    /// The live entries among the delta's dots.
    pub fn delta_entries(&self) -> &EntrySet<A>
        ensures { result.now.map ≡ self.now.delta.entries }
    {
        &self.delta_entries
    }

    /// The own clock: that of the last own dot, or 0 if there is none.
    pub fn own_clock(&self) -> u64
        ensures clock { result ≡ own_clock self.now }
        ensures within { result ≤ last_clock }
    {
        self.seen.clock_of(self.own)
    }

    /// The last own dot; before there is one, the own dot with the clock 0.
    pub fn last(&self) -> Dot
        ensures { result ≡ last self.now }
    {
        Dot {
            name: self.own,
            clock: self.own_clock(),
        }
    }

    /// The fresh dot: the own dot after the last.
    pub(crate) fn fresh(&self) -> Dot
        ensures { result ≡ fresh self.now }
    {
        Dot {
            name: self.own,
            clock: self.own_clock() + 1,
        }
    }

    /// Whether both have the same own name, dots, entries and delta. It takes no memory.
    pub fn same(&self, other: &DeltaStore<A>) -> bool
        ensures { IsTrue result ↔ (self.now ≡ other.now) }
    {
        self.own == other.own
            && self.seen.same(&other.seen)
            && self.entries.same(&other.entries)
            && self.delta_seen.same(&other.delta_seen)
            && self.delta_entries.same(&other.delta_entries)
    }
}

impl<A: Allocator + Copy> DeltaStore<A> {
    /// The empty store. Its own entries are indexed by process, topic and key. It takes no memory.
    pub fn new(alloc: A, own: u16) -> DeltaStore<A>
        requires { own < most_names }
        ensures { result ≡ empty own }
    {
        DeltaStore {
            own,
            seen: DotSet::new(alloc),
            entries: EntrySet::indexed(alloc, own),
            delta_seen: DotSet::new(alloc),
            delta_entries: EntrySet::new(alloc),
        }
    }

    /// A copy of the store, without its index of own entries.
    pub fn try_copy(&self) -> Result<DeltaStore<A>, Oom>
        ensures { IfOk result (λ copy. copy ≡ self.now) }
    {
        Ok(DeltaStore {
            own: self.own,
            seen: self.seen.try_copy()?,
            entries: self.entries.try_copy()?,
            delta_seen: self.delta_seen.try_copy()?,
            delta_entries: self.delta_entries.try_copy()?,
        })
    }
}
