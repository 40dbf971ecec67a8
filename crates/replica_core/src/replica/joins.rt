//! A join at a replica.
ghost use Rattle.std.specs.Prelude.{◌≡◌, IfOk, OnErr, OnOk};
ghost use Rattle.replica_core.specs.Changes.{ChangeLeadsBack, plain_change};
ghost use Rattle.replica_core.specs.Refusals.{IsRefusedFor, is_tracked, join_refusal};
ghost use Rattle.replica_core.specs.Replicas.{joined};

use crate::change::Change;
use crate::replica::Replica;
use crate::replica_fault::ReplicaFault;
use payload_core::Word;
use std::alloc::Allocator;

impl<A: Allocator> Replica<A> {
    /// The first cause to refuse a join of this process under this topic and key; `None` if there is none.
    fn join_refusal(&self, pid: u64, topic: &Word<A>, key: &Word<A>) -> Option<ReplicaFault>
        ensures { result ≡ join_refusal self.now pid topic.now key.now }
    {
        if self.is_tracked(pid, topic, key) {
            return Some(ReplicaFault::AlreadyTracked);
        }
        if self.are_too_many(self.entries().len() + 1) {
            return Some(ReplicaFault::EntriesFull);
        }
        if self.is_clock_full(1) {
            return Some(ReplicaFault::ClockFull);
        }
        None
    }

    /// Whether an own entry has this process, topic and key.
    fn is_tracked(&self, pid: u64, topic: &Word<A>, key: &Word<A>) -> bool
        ensures { result ≡ is_tracked self.now pid topic.now key.now }
    {
        self.entries().find(self.own(), pid, topic, key).is_some()
    }
}

impl<A: Allocator + Copy> Replica<A> {
    /// Tracks the process under the topic and key with the metadata, at the fresh dot, in the entries and in the delta.
    /// The refusals come in this order: `AlreadyTracked`, `EntriesFull`, `ClockFull`.
    pub fn join(
        &mut self,
        pid: u64,
        topic: &Word<A>,
        key: &Word<A>,
        metadata: &Word<A>,
    ) -> Result<Change<A>, ReplicaFault>
        ensures joined { OnOk result (self.new ≡ joined (record { pid = pid; topic = topic.now; key = key.now; metadata = metadata.now }) self.old) }
        ensures refused { IsRefusedFor (join_refusal self.old pid topic.now key.now) result }
        ensures leads_back { IfOk result (λ change. ChangeLeadsBack (plain_change change) self.new self.old) }
        ensures err { OnErr result (self.new ≡ self.old) }
    {
        if let Some(fault) = self.join_refusal(pid, topic, key) {
            return Err(fault);
        }
        self.stores.join(pid, topic, key, metadata)?;
        Ok(Change::Join)
    }
}
