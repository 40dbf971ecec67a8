//! An update of one entry of a replica. The module `undone` takes it back like a leave.
ghost use Rattle.std.specs.Prelude.{◌≡◌, IfOk, OnErr, OnOk};
ghost use Rattle.replica_core.specs.Changes.{ChangeLeadsBack, plain_change};
ghost use Rattle.replica_core.specs.Refusals.{IsRefusedFor, leave_refusal};
ghost use Rattle.replica_core.specs.Replicas.{updated};

use crate::change::Change;
use crate::replica::Replica;
use crate::replica_fault::ReplicaFault;
use payload_core::Word;
use std::alloc::Allocator;

impl<A: Allocator + Copy> Replica<A> {
    /// Gives the own entry of this process, topic and key this metadata. The old entry leaves, also from the delta,
    /// which gains the old dot. The new entry joins at the fresh dot, also in the delta. The refusals come in this
    /// order: `NotTracked`, `ClockFull`.
    pub fn update(
        &mut self,
        pid: u64,
        topic: &Word<A>,
        key: &Word<A>,
        metadata: &Word<A>,
    ) -> Result<Change<A>, ReplicaFault>
        ensures updated { OnOk result (self.new ≡ updated (record { pid = pid; topic = topic.now; key = key.now; metadata = metadata.now }) self.old) }
        ensures refused { IsRefusedFor (leave_refusal self.old pid topic.now key.now) result }
        ensures leads_back { IfOk result (λ change. ChangeLeadsBack (plain_change change) self.new self.old) }
        ensures err { OnErr result (self.new ≡ self.old) }
    {
        let dot = self.leaving_dot(pid, topic, key)?;
        let left = self.stores.update(dot, pid, topic, key, metadata)?;
        Ok(Change::Update(left))
    }
}
