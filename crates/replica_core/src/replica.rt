//! `Replica`: what one node has seen and holds, which names it knows, and what it has not sent yet.
//!
//! This module has the type and what is read of it. Below it are a module for each kind of call, and `undone`, which
//! takes a call back by its change. A broadcast, which takes the delta out, is taken back in `deltas`.
ghost use Rattle.std.specs.Prelude.{◌≡◌, ◌↔◌, ◌<◌, ◌^◌, IfOk, IsTrue};
ghost use Rattle.std.specs.FinMap as fin;
ghost use Rattle.dots_core.specs.Names.{most_names};
ghost use Rattle.replica_core.specs.Delivered.{AreOtherKnown};
ghost use Rattle.replica_core.specs.Invariant.{IsReplica};
ghost use Rattle.replica_core.specs.Limits.{AreNodeLimits};
ghost use Rattle.replica_core.specs.Refusals.{are_too_many, has_dots, is_clock_full};
ghost use Rattle.replica_core.specs.Replicas.{is_online, last, opening};
ghost use Rattle.replica_core.specs.Views.{AreKnown, known_of};

mod deliveries;
mod deltas;
mod joins;
mod leaves;
mod process_leaves;
mod statuses;
mod undone;
mod updates;

use crate::node_limits::NodeLimits;
use crate::status::Status;
use crate::view::View;
use dots_core::{Dot, DotSet, NameSet, Oom};
use payload_core::EntrySet;
use std::alloc::Allocator;
use std::marker::Model;
use store_core::DeltaStore;

/// The replica of one node (Phoenix.Tracker.State, as sets; its dots are those of RR-8083). It has its own name and its
/// limits, the dots that it has seen and the live entries among them, the statuses of the names that it knows, and the
/// delta. The delta has the own dots that calls touched since the delta was last taken, with the live entries among
/// these dots. A seen dot without an entry was removed.
///
/// A contract sees the `Replica` of the definitions. A refused call leaves the replica unchanged.
#[derive(Drop)]
pub struct Replica<A: Allocator> {
    alloc: A,
    limits: NodeLimits,
    view: View,
    stores: DeltaStore<A>,
}

impl<A: Allocator> Model for Replica<A> {
    ghost use Rattle.replica_core.specs.Invariant.{IsReplica};
    ghost use Rattle.replica_core.specs.Replicas.{Replica, replica_code};

    ghost Value = { Replica };

    ghost coded = { replica_code };

    ghost view = { λ r. record { own = r.stores.own; limits = r.limits; store = r.stores.store; view = r.view; delta = r.stores.delta } };

    ghost invariant = { λ r. IsReplica (record { own = r.stores.own; limits = r.limits; store = r.stores.store; view = r.view; delta = r.stores.delta }) };
}

impl<A: Allocator> Replica<A> {
    /// The replica's own name.
    pub fn own(&self) -> u16
        ensures { result ≡ self.now.own }
    {
        self.stores.own()
    }

    /// The dots that the replica has seen.
    pub fn seen(&self) -> &DotSet<A>
        ensures { result.now ≡ self.now.store.seen }
    {
        self.stores.seen()
    }

    /// The live entries of all names, up or down.
    pub fn entries(&self) -> &EntrySet<A>
        ensures { result.now.map ≡ self.now.store.entries }
    {
        self.stores.entries()
    }

    /// The own dots that calls touched since the delta was last taken.
    pub fn delta_seen(&self) -> &DotSet<A>
        ensures { result.now ≡ self.now.delta.seen }
    {
        self.stores.delta_seen()
    }

    /// The live entries among the delta's dots.
    pub fn delta_entries(&self) -> &EntrySet<A>
        ensures { result.now.map ≡ self.now.delta.entries }
    {
        self.stores.delta_entries()
    }

    /// The status of the name; `None` if the name isn't known.
    pub fn status(&self, name: u16) -> Option<Status>
        ensures { result ≡ fin.get self.now.view name }
    {
        self.view.status(name)
    }

    /// Whether the name is known and up.
    pub fn online(&self, name: u16) -> bool
        ensures { result ≡ is_online self.now name }
    {
        self.view.status(name) == Some(Status::Up)
    }

    /// The names that the replica knows, the own among them.
    pub fn known(&self) -> NameSet
        ensures names { result ≡ known_of self.now.view }
        ensures known { AreKnown self.now.view result }
    {
        self.view.known()
    }

    /// Whether the delta has a dot, so that there is something to send.
    pub fn has_delta(&self) -> bool
        ensures { result ≡ has_dots self.now.delta.seen }
    {
        !self.stores.delta_seen().is_empty()
    }

    /// Whether both have the same own name, limits, dots, entries, statuses and delta. It takes no memory.
    pub fn same<'call>(&'call self, other: &'call Replica<A>) -> bool
        ensures { IsTrue result ↔ (self.now ≡ other.now) }
    {
        self.limits == other.limits
            && self.view.same(&other.view)
            && self.stores.same(&other.stores)
    }

    /// Does nothing. Its contract says what each replica keeps.
    pub fn replica_law(&self)
        ensures { IsReplica self.now }
    {
        // form: the proof reads the field here
        let _ = &self.limits;
    }

    /// The last own dot; before there is one, the own dot with the clock 0.
    pub fn last(&self) -> Dot
        ensures { result ≡ last self.now }
    {
        self.stores.last()
    }

    /// Whether `more` fresh dots would take the own clock past its limit.
    fn is_clock_full(&self, more: usize) -> bool
        requires { more < 2 ^ 63 }
        ensures { result ≡ is_clock_full self.now more }
    {
        self.stores.own_clock() + more as u64 > self.limits.clock
    }

    /// Whether this many entries are more than the limit.
    fn are_too_many(&self, entries: usize) -> bool
        ensures { result ≡ are_too_many self.now entries }
    {
        entries as u64 > self.limits.entries
    }

    /// The names that the replica knows, other than its own.
    fn others(&self) -> NameSet
        ensures { AreOtherKnown result self.now }
    {
        self.view.known().without(self.own())
    }
}

impl<A: Allocator + Copy> Replica<A> {
    /// A replica that has seen nothing and knows its own name alone. It takes no memory.
    pub fn opening(alloc: A, own: u16, limits: NodeLimits) -> Replica<A>
        requires name { own < most_names }
        requires limits { AreNodeLimits limits }
        ensures { result ≡ opening own limits }
    {
        Replica {
            alloc,
            limits,
            view: View::opening(own),
            stores: DeltaStore::new(alloc, own),
        }
    }

    /// A copy of the replica, without the store's index of own entries.
    pub fn try_copy(&self) -> Result<Replica<A>, Oom>
        ensures { IfOk result (λ copy. copy ≡ self.now) }
    {
        Ok(Replica {
            alloc: self.alloc,
            limits: self.limits,
            view: self.view.copy(),
            stores: self.stores.try_copy()?,
        })
    }
}
