//! A leave of every entry of a process.
ghost use Rattle.std.specs.Prelude.{◌≡◌, IfOk, OnErr, OnOk};
ghost use Rattle.replica_core.specs.Changes.{ChangeLeadsBack, plain_change};
ghost use Rattle.replica_core.specs.Leaves.{AreOwnSeen};
ghost use Rattle.replica_core.specs.Refusals.{IsRefusedFor, leave_all_refusal};
ghost use Rattle.replica_core.specs.Replicas.{dots_of_process, left_each};

use crate::change::Change;
use crate::replica::Replica;
use crate::replica_fault::ReplicaFault;
use dots_core::{Dot, Oom};
use std::alloc::Allocator;

impl<A: Allocator + Copy> Replica<A> {
    /// Takes out every own entry of the process, also from the delta. The entries' dots and a fresh one for each go
    /// into the delta, and the fresh ones into the seen dots. The refusals come in this order: `NotTracked`,
    /// `ClockFull`. It walks over the own entries, and copies the delta's dots.
    pub fn leave_all(&mut self, pid: u64) -> Result<Change<A>, ReplicaFault>
        ensures left { OnOk result (self.new ≡ left_each (dots_of_process self.old pid) self.old) }
        ensures refused { IsRefusedFor (leave_all_refusal self.old pid) result }
        ensures leads_back { IfOk result (λ change. ChangeLeadsBack (plain_change change) self.new self.old) }
        ensures err { OnErr result (self.new ≡ self.old) }
    {
        let leaving = dots_of_process(self, pid)?;
        if leaving.is_empty() {
            return Err(ReplicaFault::NotTracked);
        }
        if self.is_clock_full(leaving.len()) {
            return Err(ReplicaFault::ClockFull);
        }
        let lefts = self.stores.leave_each(&leaving)?;
        Ok(Change::LeaveAll(lefts))
    }
}

/// The dots of the replica's own entries of this process, by rising clock.
fn dots_of_process<A: Allocator + Copy>(replica: &Replica<A>, pid: u64) -> Result<Vec<Dot, A>, Oom>
    ensures dots { IfOk result (λ leaving. leaving.items ≡ dots_of_process replica.now pid) }
    ensures own { IfOk result (λ leaving. AreOwnSeen leaving.items replica.now) }
{
    // form: hands out what the replica keeps
    replica.replica_law();
    let leaving = replica.entries().dots_of_process(replica.own(), pid)?;
    Ok(leaving)
}
