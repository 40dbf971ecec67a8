//! The statuses of the other names: up, down and permanently down; and taking each back.
ghost use Rattle.std.specs.Prelude.{◌≡◌, ◌<◌, IfErr, IfOk, OnErr, OnOk};
ghost use Rattle.dots_core.specs.Names.{most_names};
ghost use Rattle.payload_core.specs.EntryLists.{pairs};
ghost use Rattle.store_core.specs.EntryMoves.{AreNew};
ghost use Rattle.replica_core.specs.declared.status.Status.TheVariants.{Down, Up};
ghost use Rattle.replica_core.specs.Changes.{ChangeLeadsBack, plain_change, with_old_status, with_remembered};
ghost use Rattle.replica_core.specs.Invariant.{IsReplica};
ghost use Rattle.replica_core.specs.Refusals.{IsRefusedFor, down_refusal, permdown_refusal, up_refusal};
ghost use Rattle.replica_core.specs.Replicas.{forgotten, with_status};

use crate::change::Change;
use crate::replica::Replica;
use crate::replica_fault::ReplicaFault;
use crate::status::Status;
use dots_core::Oom;
use std::alloc::Allocator;
use store_core::Forgotten;

impl<A: Allocator> Replica<A> {
    /// The first cause to refuse a down of this name; `None` if there is none.
    fn down_refusal(&self, name: u16) -> Option<ReplicaFault>
        ensures { result ≡ down_refusal self.now name }
    {
        if name == self.own() {
            return Some(ReplicaFault::OwnReplica);
        }
        if !self.view.known().has(name) {
            return Some(ReplicaFault::NotKnown);
        }
        None
    }

    /// The first cause to refuse a permanently down of this name; `None` if there is none.
    fn permdown_refusal(&self, name: u16) -> Option<ReplicaFault>
        ensures { result ≡ permdown_refusal self.now name }
    {
        if let Some(fault) = self.down_refusal(name) {
            return Some(fault);
        }
        if self.online(name) {
            return Some(ReplicaFault::NotDown);
        }
        None
    }

    /// Gives the name its status `before` again; if that is `None`, the name isn't known any more.
    pub(super) fn put_status(&mut self, name: u16, before: Option<Status>)
        requires name { name < most_names }
        requires earlier { IsReplica (with_old_status name before self.old) }
        ensures { self.new ≡ with_old_status name before self.old }
    {
        self.view.put(name, before);
    }

    /// Puts back `forgotten`, the dots and entries that the replica held of the name, and makes the name known and
    /// down. If memory is refused, `forgotten` comes back, and nothing changes.
    pub(super) fn remember(
        &mut self,
        name: u16,
        forgotten: Box<Forgotten<A>, A>,
    ) -> Result<(), (Box<Forgotten<A>, A>, Oom)>
    where
        A: Copy,
        requires name { name < most_names }
        requires new { AreNew (pairs forgotten.value.entries) self.old.store.entries }
        requires earlier { IsReplica (with_remembered name forgotten.value self.old) }
        ensures ok { OnOk result (self.new ≡ with_remembered name forgotten.value self.old) }
        ensures err { OnErr result (self.new ≡ self.old) }
        ensures given_back { IfErr result (λ failed. failed.0 ≡ forgotten) }
    {
        // form: `?` would drop more values
        if let Err(failed) = self.stores.remember(name, forgotten) {
            return Err(failed);
        }
        self.view.put(name, Some(Status::Down));
        Ok(())
    }
}

impl<A: Allocator + Copy> Replica<A> {
    /// Makes the name known and up. The own name is refused with `OwnReplica`.
    pub fn up(&mut self, name: u16) -> Result<Change<A>, ReplicaFault>
        requires { name < most_names }
        ensures up { OnOk result (self.new ≡ with_status name Up self.old) }
        ensures refused { IsRefusedFor (up_refusal self.old name) result }
        ensures leads_back { IfOk result (λ change. ChangeLeadsBack (plain_change change) self.new self.old) }
        ensures err { OnErr result (self.new ≡ self.old) }
    {
        if name == self.own() {
            return Err(ReplicaFault::OwnReplica);
        }
        let before = self.view.status(name);
        self.view.raise(name);
        Ok(Change::Up { name, before })
    }

    /// Makes the known name down. The refusals come in this order: `OwnReplica`, `NotKnown`.
    pub fn down(&mut self, name: u16) -> Result<Change<A>, ReplicaFault>
        requires { name < most_names }
        ensures down { OnOk result (self.new ≡ with_status name Down self.old) }
        ensures refused { IsRefusedFor (down_refusal self.old name) result }
        ensures leads_back { IfOk result (λ change. ChangeLeadsBack (plain_change change) self.new self.old) }
        ensures err { OnErr result (self.new ≡ self.old) }
    {
        if let Some(fault) = self.down_refusal(name) {
            return Err(fault);
        }
        let before = self.view.status(name);
        self.view.lower(name);
        Ok(Change::Down { name, before })
    }

    /// Forgets the name: its dots, its entries and its status. The delta stays, as it has own dots alone. The refusals
    /// come in this order: `OwnReplica`, `NotKnown`, `NotDown`. It walks over the name's entries.
    pub fn permdown(&mut self, name: u16) -> Result<Change<A>, ReplicaFault>
        requires { name < most_names }
        ensures forgotten { OnOk result (self.new ≡ forgotten name self.old) }
        ensures refused { IsRefusedFor (permdown_refusal self.old name) result }
        ensures leads_back { IfOk result (λ change. ChangeLeadsBack (plain_change change) self.new self.old) }
        ensures err { OnErr result (self.new ≡ self.old) }
    {
        if let Some(fault) = self.permdown_refusal(name) {
            return Err(fault);
        }
        let forgotten = self.stores.forget(name)?;
        self.view.forget(name);
        Ok(Change::Permdown { name, forgotten })
    }
}
