//! What a replica sends: its delta, which can be given back, an extract, and a request.
ghost use Rattle.std.specs.Prelude.{◌≡◌, ◌↔◌, IfErr, IfOk, IsOk, IsTrue, OnErr, OnOk};
ghost use Rattle.std.specs.FinSet as set;
ghost use Rattle.payload_core.specs.Messages.{message_of_names};
ghost use Rattle.replica_core.specs.declared.replica_fault.ReplicaFault.TheVariants.{NothingToSend};
ghost use Rattle.replica_core.specs.Refusals.{has_dots};
ghost use Rattle.replica_core.specs.Replicas.{CanBeDelta, delta_message, request_of, with_delta, without_delta};

use crate::replica::Replica;
use crate::replica_fault::ReplicaFault;
use dots_core::{NameSet, Oom};
use payload_core::Payload;
use std::alloc::Allocator;

impl<A: Allocator> Replica<A> {
    /// Takes back a broadcast: puts a message of the replica back as the replica's delta, which must be empty. It takes
    /// no memory. If `take_delta` gave the message just before, `laws::delta_law` says that the replica is again what
    /// it was before that call.
    pub fn give_delta(&mut self, payload: Payload<A>)
        requires { CanBeDelta payload self.old }
        ensures { self.new ≡ with_delta payload self.old }
    {
        // form: the proof reads that their dots are seen
        let _ = payload.entries();
        self.stores.give_delta(payload);
    }
}

impl<A: Allocator + Copy> Replica<A> {
    /// Takes out the delta as a message, and leaves an empty delta. It takes no memory. `NothingToSend` if the delta
    /// has no dot.
    pub fn take_delta(&mut self) -> Result<Payload<A>, ReplicaFault>
        ensures message { IfOk result (λ payload. payload ≡ delta_message self.old) }
        ensures taken { OnOk result (self.new ≡ without_delta self.old) }
        ensures something_to_send { IsOk result ↔ IsTrue (has_dots self.old.delta.seen) }
        ensures nothing_to_send { IfErr result (λ fault. fault ≡ NothingToSend) }
        ensures err { OnErr result (self.new ≡ self.old) }
    {
        if !self.has_delta() {
            return Err(ReplicaFault::NothingToSend);
        }
        Ok(self.stores.take_delta())
    }

    /// A message with the seen dots and the entries of these names. The delta stays.
    pub fn extract(&self, names: NameSet) -> Result<Payload<A>, Oom>
        ensures { IfOk result (λ payload. payload ≡ message_of_names (set.contains names) self.now.own self.now.store.seen self.now.store.entries) }
    {
        self.stores.extract(names)
    }

    /// A request: a message that asks for what others have of the names that the replica knows. It takes no memory. The
    /// delta stays.
    pub fn request(&self) -> Payload<A>
        ensures { result ≡ request_of self.now }
    {
        Payload::request(self.alloc, self.own(), self.known())
    }
}
