//! A leave of one entry of a replica.
ghost use Rattle.std.specs.Prelude.{◌≡◌, ◌≢◌, [], ◌∷◌, true, IfErr, IfOk, OnErr, OnOk};
ghost use Rattle.std.specs.FinMap as fin;
ghost use Rattle.replica_core.specs.declared.replica_fault.ReplicaFault.TheVariants.{OutOfMemory};
ghost use Rattle.replica_core.specs.Changes.{ChangeLeadsBack, plain_change};
ghost use Rattle.replica_core.specs.Leaves.{AreOwnSeen};
ghost use Rattle.replica_core.specs.Refusals.{IsRefusedFor, leave_refusal};
ghost use Rattle.replica_core.specs.Replicas.{left_each, tracked_dots};

use crate::change::Change;
use crate::replica::Replica;
use crate::replica_fault::ReplicaFault;
use dots_core::Dot;
use payload_core::Word;
use std::alloc::Allocator;

impl<A: Allocator> Replica<A> {
    /// The dot of the own entry of this process, topic and key, or why a leave or an update of the entry is refused.
    pub(super) fn leaving_dot(
        &self,
        pid: u64,
        topic: &Word<A>,
        key: &Word<A>,
    ) -> Result<Dot, ReplicaFault>
        ensures dot { IfOk result (λ dot. tracked_dots self.now pid topic.now key.now ≡ dot ∷ []) }
        ensures own { IfOk result (λ dot. AreOwnSeen (dot ∷ []) self.now) }
        ensures live { IfOk result (λ dot. fin.contains_key self.now.store.entries dot ≡ true) }
        ensures refused { IsRefusedFor (leave_refusal self.now pid topic.now key.now) result }
        ensures fault { IfErr result (λ fault. fault ≢ OutOfMemory) }
    {
        // form: hands out what the replica keeps
        self.replica_law();
        let Some(dot) = self.entries().find(self.own(), pid, topic, key) else {
            return Err(ReplicaFault::NotTracked);
        };
        if self.is_clock_full(1) {
            return Err(ReplicaFault::ClockFull);
        }
        Ok(dot)
    }
}

impl<A: Allocator + Copy> Replica<A> {
    /// Takes out the own entry of this process, topic and key, also from the delta. The entry's dot and a fresh one go
    /// into the delta, and the fresh one into the seen dots. The refusals come in this order: `NotTracked`,
    /// `ClockFull`.
    pub fn leave(
        &mut self,
        pid: u64,
        topic: &Word<A>,
        key: &Word<A>,
    ) -> Result<Change<A>, ReplicaFault>
        ensures left { OnOk result (self.new ≡ left_each (tracked_dots self.old pid topic.now key.now) self.old) }
        ensures refused { IsRefusedFor (leave_refusal self.old pid topic.now key.now) result }
        ensures leads_back { IfOk result (λ change. ChangeLeadsBack (plain_change change) self.new self.old) }
        ensures err { OnErr result (self.new ≡ self.old) }
    {
        let dot = self.leaving_dot(pid, topic, key)?;
        let left = self.stores.leave(dot)?;
        Ok(Change::Leave(left))
    }
}
