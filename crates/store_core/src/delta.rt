//! What a node sends of its store: the delta, which can be given back, and an extract.
ghost use Rattle.std.specs.Prelude.{◌≡◌, IfOk};
ghost use Rattle.std.specs.FinSet as set;
ghost use Rattle.payload_core.specs.Messages.{message_of_names, store_message};
ghost use Rattle.store_core.specs.DeltaStores.{CanBeDelta, with_delta, without_delta};

use crate::delta_store::DeltaStore;
use dots_core::{DotSet, NameSet, Oom};
use payload_core::{EntrySet, Payload};
use std::alloc::Allocator;
use std::mem;

impl<A: Allocator> DeltaStore<A> {
    /// Puts the dots and entries of a message back as the delta, in place of the present delta. It takes no memory.
    pub fn give_delta(&mut self, payload: Payload<A>)
        requires { CanBeDelta payload self.old }
        ensures { self.new ≡ with_delta payload self.old }
    {
        let (_sender, seen, entries) = payload.into_parts();
        self.delta_seen = seen;
        self.delta_entries = entries;
    }
}

impl<A: Allocator + Copy> DeltaStore<A> {
    /// Takes out the delta as a message, and leaves an empty delta. It takes no memory.
    pub fn take_delta(&mut self) -> Payload<A>
        ensures message { result ≡ store_message self.old.own self.old.delta.seen self.old.delta.entries }
        ensures taken { self.new ≡ without_delta self.old }
    {
        let alloc = self.entries.allocator();
        let seen = mem::replace(&mut self.delta_seen, DotSet::new(alloc));
        let entries = mem::replace(&mut self.delta_entries, EntrySet::new(alloc));
        Payload::new(self.own, seen, entries)
    }

    /// A message with the seen dots and the entries of these names. The delta stays.
    pub fn extract(&self, names: NameSet) -> Result<Payload<A>, Oom>
        ensures { IfOk result (λ payload. payload ≡ message_of_names (set.contains names) self.now.own self.now.store.seen self.now.store.entries) }
    {
        let seen = self.seen.only(names)?;
        let entries = self.entries.only(names)?;
        Ok(Payload::new(self.own, seen, entries))
    }
}
