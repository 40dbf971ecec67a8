//! A delivery to a replica.
ghost use Rattle.std.specs.Prelude.{◌≡◌, IfOk, None, OnErr, OnOk};
ghost use Rattle.replica_core.specs.Changes.{ChangeLeadsBack, plain_change};
ghost use Rattle.replica_core.specs.Deliveries.{TakesGreaterStandings, merged};
ghost use Rattle.replica_core.specs.Refusals.{IsRefusedFor, merge_refusal};

use crate::change::Change;
use crate::replica::Replica;
use crate::replica_fault::ReplicaFault;
use payload_core::Payload;
use std::alloc::Allocator;

impl<A: Allocator + Copy> Replica<A> {
    /// Merges what a message, which isn't a request, has of the known names other than the replica's own. An entry of
    /// the message at a dot of these names joins if the replica hasn't seen the dot. An entry of the replica at such a
    /// dot leaves if the message has the dot without an entry. The replica has then seen the message's dots of these
    /// names. `EntriesFull` if there would be more entries than the limit.
    pub fn merge<'call>(
        &'call mut self,
        message: &'call Payload<A>,
    ) -> Result<Change<A>, ReplicaFault>
        requires { message.now.asked ≡ None }
        ensures merged { OnOk result (self.new ≡ merged message.now self.old) }
        ensures greater_standings { OnOk result (TakesGreaterStandings message.now self.old self.new) }
        ensures refused { IsRefusedFor (merge_refusal self.old message.now) result }
        ensures leads_back { IfOk result (λ change. ChangeLeadsBack (plain_change change) self.new self.old) }
        ensures err { OnErr result (self.new ≡ self.old) }
    {
        // form: the proof reads that their dots are seen
        let _ = message.entries();
        // form: hands out what the set keeps
        message.seen().valid_law();
        let names = self.others();
        let joining = self.stores.joining(message, names)?;
        let leaving = self.stores.leaving(message, names)?;
        if self.are_too_many(self.stores.entries().len() - leaving.len() + joining.len()) {
            return Err(ReplicaFault::EntriesFull);
        }
        let delivered = self.stores.merge(message, names, joining, &leaving)?;
        Ok(Change::Deliver(delivered))
    }
}
