//! A join in a store and its delta, and taking it back.
ghost use Rattle.std.specs.Prelude.{◌≡◌, ◌<◌, ◌≤◌, IfOk, None, OnErr, OnOk};
ghost use Rattle.std.specs.FinMap as fin;
ghost use Rattle.std.specs.FinSet as set;
ghost use Rattle.dots_core.specs.Contexts.{IsLast};
ghost use Rattle.dots_core.specs.Dots.{last_clock, IsValid};
ghost use Rattle.entry_core.specs.Presences.{entry_of, presence_of};
ghost use Rattle.store_core.specs.DeltaStores.{CanBeUnjoined, fresh, joined, own_clock, without_last};

use crate::delta_store::DeltaStore;
use dots_core::{Dot, DotSet, Oom};
use entry_core::{Entry, Handle, Word};
use payload_core::EntrySet;
use std::alloc::Allocator;

impl<A: Allocator> DeltaStore<A> {
    /// Takes a join back: removes the last own dot with its entry, also from the delta. It takes no memory.
    pub fn unjoin(&mut self)
        requires { CanBeUnjoined self.old }
        ensures { self.new ≡ without_last self.old }
    {
        let last = self.last();
        take_out(&mut self.seen, &mut self.entries, last);
        take_out(&mut self.delta_seen, &mut self.delta_entries, last);
    }
}

impl<A: Allocator + Copy> DeltaStore<A> {
    /// Puts an entry of this process, topic, key and metadata at the fresh dot into the store and into the delta, and
    /// the dot into the seen dots of both. An `Err` changes nothing.
    pub fn join(
        &mut self,
        pid: u64,
        topic: &Word<A>,
        key: &Word<A>,
        metadata: &Word<A>,
    ) -> Result<(), Oom>
        requires { own_clock self.old < last_clock }
        ensures joined { OnOk result (self.new ≡ joined (record { pid = pid; topic = topic.now; key = key.now; metadata = metadata.now }) self.old) }
        ensures err { OnErr result (self.new ≡ self.old) }
    {
        let entry = self.fresh_entry(pid, topic, key, metadata)?;
        self.entries.make_room(1)?;
        put_unsent(&mut self.delta_entries, &mut self.delta_seen, &entry)?;
        self.seen.insert(entry.dot()).unwrap();
        self.entries.put_ready(entry);
        Ok(())
    }

    /// A handle of a new entry of this process, topic, key and metadata at the fresh dot. The store stays.
    pub(crate) fn fresh_entry(
        &self,
        pid: u64,
        topic: &Word<A>,
        key: &Word<A>,
        metadata: &Word<A>,
    ) -> Result<Handle<A>, Oom>
        ensures { IfOk result (λ entry. entry ≡ entry_of (fresh self.now) (record { pid = pid; topic = topic.now; key = key.now; metadata = metadata.now })) }
    {
        let topic = topic.try_copy()?;
        let key = key.try_copy()?;
        let metadata = metadata.try_copy()?;
        let entry = Entry::new(self.fresh(), pid, topic, key, metadata);
        held(entry, self.entries.allocator())
    }
}

/// A handle of `entry`. If memory is refused, `entry` is dropped.
fn held<A: Allocator>(entry: Entry<A>, alloc: A) -> Result<Handle<A>, Oom>
    ensures { IfOk result (λ handle. handle ≡ entry) }
{
    match Handle::of(entry, alloc) {
        Ok(handle) => Ok(handle),
        Err(_) => Err(Oom),
    }
}

/// Inserts into `entries` a further handle of `entry`: shared if the entry may be shared, and else a copy.
pub(crate) fn put_shared<A: Allocator + Copy>(
    entries: &mut EntrySet<A>,
    entry: &Handle<A>,
) -> Result<(), Oom>
    requires { fin.get entries.old.map entry.now.dot ≡ None }
    ensures ok { OnOk result (entries.new.map ≡ fin.insert entries.old.map entry.now.dot (presence_of entry.now)) }
    ensures err { OnErr result (entries.new.map ≡ entries.old.map) }
{
    let shared = entry.try_share(entries.allocator())?;
    entries.put(shared)
}

/// Inserts a further handle of the entry into the delta's `entries`, and its dot into the delta's `seen`; if memory is
/// refused, neither.
fn put_unsent<A: Allocator + Copy>(
    entries: &mut EntrySet<A>,
    seen: &mut DotSet<A>,
    entry: &Handle<A>,
) -> Result<(), Oom>
    requires valid { IsValid entry.now.dot }
    requires absent { fin.get entries.old.map entry.now.dot ≡ None }
    ensures entries { OnOk result (entries.new.map ≡ fin.insert entries.old.map entry.now.dot (presence_of entry.now)) }
    ensures seen { OnOk result (seen.new ≡ set.insert seen.old entry.now.dot) }
    ensures entries_stay { OnErr result (entries.new.map ≡ entries.old.map) }
    ensures seen_stay { OnErr result (seen.new ≡ seen.old) }
{
    put_shared(entries, entry)?;
    if let Err(failed) = seen.insert(entry.dot()) {
        entries.discard(entry.dot());
        return Err(failed);
    }
    Ok(())
}

/// Takes `dot`, the last one of its name, out of `seen`, and its entry, if there is one, out of `entries`. It takes no
/// memory, and the entries' room never falls.
pub(crate) fn take_out<A: Allocator>(seen: &mut DotSet<A>, entries: &mut EntrySet<A>, dot: Dot)
    requires valid { IsValid dot }
    requires last { IsLast dot seen.old }
    ensures seen { seen.new ≡ set.remove seen.old dot }
    ensures entries { entries.new.map ≡ fin.remove entries.old.map dot }
    ensures room { entries.old.room ≤ entries.new.room }
{
    seen.remove(dot).unwrap();
    entries.discard(dot);
}
