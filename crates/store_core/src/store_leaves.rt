//! A leave and an update of one own entry in a store and its delta, and taking either back.
ghost use Rattle.std.specs.Option.{option_map};
ghost use Rattle.std.specs.Prelude.{◌≡◌, ◌<◌, false, true, IfErr, IfOk, None, OnErr, OnOk, Some};
ghost use Rattle.std.specs.FinMap as fin;
ghost use Rattle.std.specs.FinSet as set;
ghost use Rattle.dots_core.specs.Contexts.{IsLast};
ghost use Rattle.dots_core.specs.Dots.{last_clock, IsValid};
ghost use Rattle.store_core.specs.DeltaStores.{CanBeRestored, dropped, joined, left, own_clock, with_left};
ghost use Rattle.store_core.specs.LeftEntries.{IsFree, Stood, dots_before, put as put_in, taken};
ghost use Rattle.entry_core.specs.Presences.{Entries, entry_of, presence_of};

use crate::delta_store::DeltaStore;
use crate::left_entry::Left;
use crate::store_joins::{put_shared, take_out};
use dots_core::{Dot, DotSet, Oom};
use entry_core::{Handle, Word};
use payload_core::EntrySet;
use std::alloc::Allocator;

impl<A: Allocator + Copy> DeltaStore<A> {
    /// Takes out the own entry at `dot`, also from the delta, which gains `dot` and the fresh dot. The fresh dot is
    /// seen, too. What was destroyed is returned, for `restore`. An `Err` changes nothing.
    pub fn leave(&mut self, dot: Dot) -> Result<Box<Left<A>, A>, Oom>
        requires own { dot.name ≡ self.old.own }
        requires live { fin.contains_key self.old.store.entries dot ≡ true }
        requires free { own_clock self.old < last_clock }
        ensures left { OnOk result (self.new ≡ left dot self.old) }
        ensures stood { IfOk result (λ left. Stood left.value dot self.old.store self.old.delta) }
        ensures err { OnErr result (self.new ≡ self.old) }
    {
        let fresh = self.fresh();
        let left = take_left(
            &mut self.entries,
            &self.delta_entries,
            &self.delta_seen,
            dot,
        )?;
        if let Err(failed) = see(&mut self.delta_seen, dot, fresh) {
            self.entries.put_ready(Box::into_inner(left).entry);
            return Err(failed);
        }
        self.seen.insert(fresh).unwrap();
        take_unsent(&mut self.delta_entries, dot, &left);
        Ok(left)
    }

    /// Replaces the own entry at `dot` by one of this process, topic, key and metadata at the fresh dot, also in the
    /// delta, which gains both dots. The fresh dot is seen, too. What was destroyed is returned, for `restore`. An
    /// `Err` changes nothing.
    pub fn update(
        &mut self,
        dot: Dot,
        pid: u64,
        topic: &Word<A>,
        key: &Word<A>,
        metadata: &Word<A>,
    ) -> Result<Box<Left<A>, A>, Oom>
        requires own { dot.name ≡ self.old.own }
        requires live { fin.contains_key self.old.store.entries dot ≡ true }
        requires free { own_clock self.old < last_clock }
        ensures updated { OnOk result (self.new ≡ joined (record { pid = pid; topic = topic.now; key = key.now; metadata = metadata.now })
            (dropped dot self.old)) }
        ensures stood { IfOk result (λ left. Stood left.value dot self.old.store self.old.delta) }
        ensures err { OnErr result (self.new ≡ self.old) }
    {
        let entry = self.fresh_entry(pid, topic, key, metadata)?;
        let left = take_left(
            &mut self.entries,
            &self.delta_entries,
            &self.delta_seen,
            dot,
        )?;
        if let Err(failed) = put_unsent(
            &mut self.delta_entries,
            &mut self.delta_seen,
            dot,
            &entry,
        ) {
            self.entries.put_ready(Box::into_inner(left).entry);
            return Err(failed);
        }
        self.seen.insert(entry.dot()).unwrap();
        take_unsent(&mut self.delta_entries, dot, &left);
        self.entries.put_ready(entry);
        Ok(left)
    }

    /// Takes a leave or an update back: removes the last own dot, with its entry if it has one, also from the delta,
    /// and puts back the entry that left, also into the delta if the delta had it. The delta loses the dot of the entry
    /// that left if the delta didn't have that dot before. If memory is refused, `left` comes back, and nothing
    /// changes.
    pub fn restore(&mut self, left: Box<Left<A>, A>) -> Result<(), (Box<Left<A>, A>, Oom)>
        requires { CanBeRestored left.value self.old }
        ensures ok { OnOk result (self.new ≡ with_left left.value self.old) }
        ensures err { OnErr result (self.new ≡ self.old) }
        ensures given_back { IfErr result (λ failed. failed.0 ≡ left) }
    {
        let last = self.last();
        if let Err(failed) = self.entries.make_room(1) {
            return Err((left, failed));
        }
        if let Err(failed) = put_unsent_back(&mut self.delta_entries, &mut self.delta_seen, &left) {
            return Err((left, failed));
        }
        let Left {
            entry,
            unsent,
            in_delta: _,
        } = Box::into_inner(left);
        take_out(&mut self.seen, &mut self.entries, last);
        self.entries.put_ready(entry);
        take_out_beside(&mut self.delta_entries, &mut self.delta_seen, last, &unsent);
        Ok(())
    }
}

/// Takes the entry at `dot` out of `entries`, and gives it with what the delta has at `dot`. Room is made in `entries`
/// first, so that the entry can be put back.
fn take_left<A: Allocator + Copy>(
    entries: &mut EntrySet<A>,
    delta_entries: &EntrySet<A>,
    delta_seen: &DotSet<A>,
    dot: Dot,
) -> Result<Box<Left<A>, A>, Oom>
    requires { fin.contains_key entries.old.map dot ≡ true }
    ensures map { OnOk result (entries.new.map ≡ fin.remove entries.old.map dot) }
    ensures room { OnOk result (0 < entries.new.room) }
    ensures entry { IfOk result (λ left. Some left.value.entry ≡ option_map (entry_of dot) (fin.get entries.old.map dot)) }
    ensures unsent { IfOk result (λ left. left.value.unsent ≡ option_map (entry_of dot) (fin.get delta_entries.now.map dot)) }
    ensures in_delta { IfOk result (λ left. left.value.in_delta ≡ set.contains delta_seen.now dot) }
    ensures err { OnErr result (entries.new.map ≡ entries.old.map) }
{
    entries.make_room(1)?;
    let in_delta = delta_seen.contains(dot);
    let unsent = delta_entries.handle(dot)?;
    let Some(entry) = entries.take(dot)? else {
        unreachable!();
    };
    let left = Left {
        entry,
        unsent,
        in_delta,
    };
    match Box::new(entries.allocator(), left) {
        Ok(left) => Ok(left),
        Err(failed) => {
            entries.put_ready(failed.value.entry);
            Err(Oom)
        }
    }
}

/// Takes the entry at `dot` out of the delta's entries, if `left` says that the delta had one.
fn take_unsent<A: Allocator>(entries: &mut EntrySet<A>, dot: Dot, left: &Left<A>)
    requires { left.now.unsent ≡ option_map (entry_of dot) (fin.get entries.old.map dot) }
    ensures { entries.new.map ≡ fin.remove entries.old.map dot }
{
    if left.unsent.is_some() {
        entries.discard(dot);
    }
}

/// Inserts a further handle of `entry`, the new entry, into the delta's `entries`, and the new entry's dot and `dot`,
/// the old entry's, into the delta's `seen`. If memory is refused, neither changes.
fn put_unsent<A: Allocator + Copy>(
    entries: &mut EntrySet<A>,
    seen: &mut DotSet<A>,
    dot: Dot,
    entry: &Handle<A>,
) -> Result<(), Oom>
    requires valid { IsValid dot }
    requires valid_fresh { IsValid entry.now.dot }
    requires absent { fin.get entries.old.map entry.now.dot ≡ None }
    requires last { IsLast entry.now.dot seen.old }
    requires unseen { set.contains seen.old entry.now.dot ≡ false }
    ensures entries { OnOk result (entries.new.map ≡ fin.insert entries.old.map entry.now.dot (presence_of entry.now)) }
    ensures seen { OnOk result (seen.new ≡ set.insert (set.insert seen.old dot) entry.now.dot) }
    ensures entries_stay { OnErr result (entries.new.map ≡ entries.old.map) }
    ensures seen_stay { OnErr result (seen.new ≡ seen.old) }
{
    put_shared(entries, entry)?;
    if let Err(failed) = see(seen, dot, entry.dot()) {
        entries.discard(entry.dot());
        return Err(failed);
    }
    Ok(())
}

/// Inserts `fresh`, which is above all dots of its name, and then `dot`; if memory is refused, neither. To take `fresh`
/// out again needs no memory.
fn see<A: Allocator>(seen: &mut DotSet<A>, dot: Dot, fresh: Dot) -> Result<(), Oom>
    requires valid { IsValid dot }
    requires valid_fresh { IsValid fresh }
    requires last { IsLast fresh seen.old }
    requires unseen { set.contains seen.old fresh ≡ false }
    ensures ok { OnOk result (seen.new ≡ set.insert (set.insert seen.old dot) fresh) }
    ensures err { OnErr result (seen.new ≡ seen.old) }
{
    seen.insert(fresh)?;
    if let Err(failed) = seen.insert(dot) {
        seen.remove(fresh).unwrap();
        return Err(failed);
    }
    Ok(())
}

/// Puts back the delta's entry, if the delta had one. Removes from the delta's `seen` the dot of the entry that had
/// left, unless the delta had that dot before the leave. If memory is refused, neither changes.
fn put_unsent_back<A: Allocator + Copy>(
    entries: &mut EntrySet<A>,
    seen: &mut DotSet<A>,
    left: &Left<A>,
) -> Result<(), Oom>
    requires valid { IsValid left.now.entry.dot }
    requires free { IsFree left.now.unsent entries.old.map }
    ensures entries { OnOk result (entries.new.map ≡ put_in left.now.unsent entries.old.map) }
    ensures seen { OnOk result (seen.new ≡ dots_before left.now.in_delta left.now.entry.dot seen.old) }
    ensures entries_stay { OnErr result (entries.new.map ≡ entries.old.map) }
    ensures seen_stay { OnErr result (seen.new ≡ seen.old) }
{
    put_back(entries, &left.unsent)?;
    if let Err(failed) = unsee(seen, left) {
        take_back(entries, &left.unsent);
        return Err(failed);
    }
    Ok(())
}

/// Removes from `seen`, the delta's dots, the dot of the entry that had left, unless the delta had that dot before the
/// leave.
pub(crate) fn unsee<A: Allocator>(seen: &mut DotSet<A>, left: &Left<A>) -> Result<(), Oom>
    requires { IsValid left.now.entry.dot }
    ensures ok { OnOk result (seen.new ≡ dots_before left.now.in_delta left.now.entry.dot seen.old) }
    ensures err { OnErr result (seen.new ≡ seen.old) }
{
    if !left.in_delta {
        seen.remove(left.entry.dot())?;
    }
    Ok(())
}

/// Inserts into `entries` a further handle of `entry`, if that isn't `None`.
pub(crate) fn put_back<A: Allocator + Copy>(
    entries: &mut EntrySet<A>,
    entry: &Option<Handle<A>>,
) -> Result<(), Oom>
    requires { IsFree entry.now entries.old.map }
    ensures ok { OnOk result (entries.new.map ≡ put_in entry.now entries.old.map) }
    ensures err { OnErr result (entries.new.map ≡ entries.old.map) }
{
    match entry {
        Some(entry) => put_shared(entries, entry),
        None => Ok(()),
    }
}

/// Takes the entry at the dot of `entry` out of `entries`, if `entry` isn't `None`. It takes no memory.
pub(crate) fn take_back<A: Allocator>(entries: &mut EntrySet<A>, entry: &Option<Handle<A>>)
    ensures { entries.new.map ≡ taken entry.now entries.old.map }
{
    if let Some(entry) = entry {
        entries.discard(entry.dot());
    }
}

/// Takes `last`, the last dot of its name, out of the delta's `seen`, and the entry at `last` out of the delta's
/// `entries`. If `put`, the entry that was just put back, stands at `last`, it stays.
fn take_out_beside<A: Allocator>(
    entries: &mut EntrySet<A>,
    seen: &mut DotSet<A>,
    last: Dot,
    put: &Option<Handle<A>>,
)
    requires valid { IsValid last }
    requires last { IsLast last seen.old }
    ensures seen { seen.new ≡ set.remove seen.old last }
    ensures entries { (es : Entries) → IsFree put.now es → entries.old.map ≡ put_in put.now es → entries.new.map ≡ put_in put.now (fin.remove es last) }
{
    seen.remove(last).unwrap();
    match put {
        Some(put) if put.dot() == last => {}
        _ => {
            entries.discard(last);
        }
    }
}
