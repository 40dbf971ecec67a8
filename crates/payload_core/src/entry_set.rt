//! `EntrySet`, live entries by their dots.
ghost use Rattle.std.specs.Prelude.{◌≡◌, ◌↔◌, ◌==◌, ◌+◌, ◌^◌, ◌<◌, ◌≤◌, IfErr, IfOk, IsOk, IsTrue, OnErr, OnOk, is_some, slice_get};
ghost use Rattle.std.specs.FinMap as fin;
ghost use Rattle.std.specs.FinSet as set;
ghost use Rattle.std.specs.Option.{option_copied, option_map};
ghost use Rattle.block_core.specs.Deliveries.{is_gone, is_new};
ghost use Rattle.block_core.specs.Sets.{listed};
ghost use Rattle.entry_core.specs.EntryLists.{IsPlaceFrom, pairs};
ghost use Rattle.entry_core.specs.Presences.{dots_of, entries_of_names, entry_of, is_tracked_as, presence_of};
ghost use Rattle.payload_core.specs.TrackIndices.{tracked_at};

use crate::hash::hash;
use crate::track_index::{Holder, TrackIndex};
use block_core::{EntriesByDot, Walk};
use dots_core::{Dot, DotSet, NameSet, Oom};
use entry_core::{Entry, Handle, Word};
use std::alloc::Allocator;
use std::marker::Model;

/// Live entries by their dots, with room for more. A set may have an index, which finds the entries of one name by
/// process, topic and key; a copy of the set has none.
#[derive(Drop)]
pub struct EntrySet<A: Allocator> {
    by_dot: EntriesByDot<A>,
    by_hash: TrackIndex<A>,
}

impl<A: Allocator> Model for EntrySet<A> {
    ghost use Rattle.std.specs.Prelude.{min};
    ghost use Rattle.block_core.specs.EntrySets.{EntrySet, entry_set_code};
    ghost use Rattle.payload_core.specs.TrackIndices.{Covers};

    ghost Value = { EntrySet };

    ghost coded = { entry_set_code };

    ghost view = { λ s. record { map = s.by_dot.map; room = min s.by_dot.room s.by_hash.room } };

    ghost invariant = { λ s. Covers s.by_hash s.by_dot.map };
}

impl<A: Allocator> EntrySet<A> {
    /// How many entries the set has.
    pub fn len(&self) -> usize
        ensures len { result ≡ fin.len self.now.map }
        ensures small { result < 2 ^ 63 }
    {
        self.by_dot.len()
    }

    /// Whether the set has no entry.
    pub fn is_empty(&self) -> bool
        ensures { IsTrue result ↔ (self.now.map ≡ fin.empty) }
    {
        self.by_dot.is_empty()
    }

    /// The entry of the dot, found by a binary search; `None` if there is none.
    pub fn get(&self, dot: Dot) -> Option<&Entry<A>>
        ensures { option_copied result ≡ option_map (entry_of dot) (fin.get self.now.map dot) }
    {
        self.by_dot.get(dot)
    }

    /// The entry at `place`, counted from 0 by rising dot, found by a walk; `None` past the last.
    pub fn at(&self, place: usize) -> Option<&Entry<A>>
        ensures { option_copied result ≡ option_map (λ e. entry_of e.0 e.1) (slice_get (fin.entries self.now.map) place) }
    {
        self.by_dot.at(place)
    }

    /// The place of the first entry whose dot is not below `dot`, found by a walk; the number of entries if there is
    /// none.
    pub fn first_from(&self, dot: Dot) -> usize
        ensures { IsPlaceFrom dot (fin.entries self.now.map) result }
    {
        self.by_dot.first_from(dot)
    }

    /// A walk over the entries by rising dot.
    pub fn walk(&self) -> Walk<'_, A>
        ensures { result ≡ listed self.now.map }
    {
        self.by_dot.walk()
    }

    /// A walk over the entries of the name by rising clock. It looks at every block, and skips the blocks of other
    /// names.
    pub fn walk_of(&self, name: u16) -> Walk<'_, A>
        ensures { result ≡ listed (entries_of_names (λ n. n == name) self.now.map) }
    {
        self.by_dot.walk_of(name)
    }

    /// The name's dot of least clock whose entry tracks this process under this topic and key; `None` if there is none.
    /// An index of the name finds the dot by one look-up. Without such an index, or once several of the name's entries
    /// had the hash of this process, topic and key at the same time, the call walks over the name's entries.
    pub fn find(&self, name: u16, pid: u64, topic: &Word<A>, key: &Word<A>) -> Option<Dot>
        ensures { result ≡ slice_get (dots_of name (is_tracked_as pid topic.now key.now) self.now.map) 0 }
    {
        match self.by_hash.holder(name, hash(pid, topic, key)) {
            None => None,
            Some(Holder::One(dot)) => self.tracked_at(dot, name, pid, topic, key),
            Some(Holder::Several) => self.by_dot.first_tracked(name, pid, topic, key),
        }
    }

    /// `dot`, if it is of this name and its entry tracks this process under this topic and key; otherwise `None`.
    fn tracked_at(
        &self,
        dot: Dot,
        name: u16,
        pid: u64,
        topic: &Word<A>,
        key: &Word<A>,
    ) -> Option<Dot>
        ensures { result ≡ tracked_at self.now.map dot name (is_tracked_as pid topic.now key.now) }
    {
        let entry = self.by_dot.get(dot)?;
        if dot.name == name && entry.is_tracked_as(pid, topic, key) {
            Some(dot)
        } else {
            None
        }
    }

    /// Takes out the entry of the dot, found by a binary search; `None` if there is none. It takes no memory, and the
    /// room never falls.
    pub fn remove(&mut self, dot: Dot) -> Option<Entry<A>>
        ensures entry { result ≡ option_map (entry_of dot) (fin.get self.old.map dot) }
        ensures map { self.new.map ≡ fin.remove self.old.map dot }
        ensures room { self.old.room ≤ self.new.room }
    {
        let entry = self.by_dot.remove(dot)?;
        self.by_hash.remove(&entry);
        Some(entry)
    }

    /// Drops the entry of the dot, and says whether there was one. It takes no memory and copies nothing, and the room
    /// never falls.
    pub fn discard(&mut self, dot: Dot) -> bool
        ensures was { result ≡ is_some (fin.get self.old.map dot) }
        ensures map { self.new.map ≡ fin.remove self.old.map dot }
        ensures room { self.old.room ≤ self.new.room }
    {
        if !self.by_hash.is_of(dot.name) {
            return self.by_dot.discard(dot);
        }
        match self.by_dot.get(dot) {
            Some(entry) => self.by_hash.remove(entry),
            None => return false,
        }
        self.by_dot.discard(dot)
    }

    /// Whether both have the same entries, whatever their room. It takes no memory.
    pub fn same<'call>(&'call self, other: &'call EntrySet<A>) -> bool
        ensures { IsTrue result ↔ (self.now.map ≡ other.now.map) }
    {
        self.by_dot.same(&other.by_dot)
    }
}

impl<A: Allocator + Copy> EntrySet<A> {
    /// The empty set, without an index. It takes no memory.
    pub fn new(alloc: A) -> EntrySet<A>
        ensures { result.map ≡ fin.empty }
    {
        EntrySet {
            by_dot: EntriesByDot::new(alloc),
            by_hash: TrackIndex::of_none(),
        }
    }

    /// The empty set, with an index of the entries of this name. It takes no memory.
    pub fn indexed(alloc: A, name: u16) -> EntrySet<A>
        ensures { result.map ≡ fin.empty }
    {
        EntrySet {
            by_dot: EntriesByDot::new(alloc),
            by_hash: TrackIndex::of(name),
        }
    }

    /// Makes room: after an `Ok`, `count` inserts succeed. The entries stay, and so does the room that was made before,
    /// even if memory is refused.
    pub fn make_room(&mut self, count: usize) -> Result<(), Oom>
        ensures map { self.new.map ≡ self.old.map }
        ensures room_stays { self.old.room ≤ self.new.room }
        ensures ok { OnOk result (count ≤ self.new.room) }
        ensures succeeds { count ≤ self.old.room → IsOk result }
    {
        self.by_dot.make_room(count)?;
        self.by_hash.make_room(count, self.by_dot.allocator())
    }

    /// Inserts a new entry. If room was made, it asks for no memory. Otherwise the entry comes back if memory is
    /// refused, or if the set has too many entries. The index notes the entry first, and forgets one that comes back.
    pub fn insert(&mut self, entry: Entry<A>) -> Result<(), (Entry<A>, Oom)>
        requires { fin.get self.old.map entry.dot ≡ None }
        ensures ok { OnOk result (self.new.map ≡ fin.insert self.old.map entry.dot (presence_of entry)) }
        ensures succeeds { 0 < self.old.room → IsOk result }
        ensures room { OnOk result (self.old.room ≤ self.new.room + 1) }
        ensures err { OnErr result (self.new.map ≡ self.old.map) }
        ensures given_back { IfErr result (λ failed. failed.0 ≡ entry) }
    {
        let alloc = self.by_dot.allocator();
        if let Err(failed) = self.by_hash.make_room(1, alloc) {
            return Err((entry, failed));
        }
        self.by_hash.add(&entry);
        match self.by_dot.insert(entry) {
            Ok(()) => Ok(()),
            Err(entry) => {
                self.by_hash.remove(&entry);
                Err((entry, Oom))
            }
        }
    }

    /// The allocator of the set's lists.
    pub fn allocator(&self) -> A {
        self.by_dot.allocator()
    }

    /// A handle of the dot's entry; `None` if there is none. An entry that may be shared is shared once more, and any
    /// other is copied. An `Err` means that the entry or one of its words is shared as often as it may be, or that
    /// memory for a copy was refused.
    pub fn handle(&self, dot: Dot) -> Result<Option<Handle<A>>, Oom>
        ensures { IfOk result (λ handle. handle ≡ option_map (entry_of dot) (fin.get self.now.map dot)) }
    {
        self.by_dot.handle(dot)
    }

    /// Takes out the entry of the dot, as a handle: moved, or shared if other sets share its block's list. `Ok(None)`
    /// if there is no such entry. An `Err` comes only of a shared list: the entry is shared as often as it may be, or
    /// it can't be shared and memory for a copy was refused. An `Err` changes nothing. The room never falls.
    pub fn take(&mut self, dot: Dot) -> Result<Option<Handle<A>>, Oom>
        ensures entry { IfOk result (λ taken. taken ≡ option_map (entry_of dot) (fin.get self.old.map dot)) }
        ensures map { OnOk result (self.new.map ≡ fin.remove self.old.map dot) }
        ensures room { self.old.room ≤ self.new.room }
        ensures err { OnErr result (self.new.map ≡ self.old.map) }
    {
        let Some(entry) = self.by_dot.take(dot)? else {
            return Ok(None);
        };
        self.by_hash.remove(entry.entry());
        Ok(Some(entry))
    }

    /// Inserts a new entry, which other sets may share. Memory may be refused although room was made. Then, or if the
    /// set has too many entries, the entry is dropped, and the set has the same entries as before. The index notes the
    /// entry first, and forgets one that is dropped.
    pub fn put(&mut self, entry: Handle<A>) -> Result<(), Oom>
        requires { fin.get self.old.map entry.dot ≡ None }
        ensures ok { OnOk result (self.new.map ≡ fin.insert self.old.map entry.dot (presence_of entry)) }
        ensures err { OnErr result (self.new.map ≡ self.old.map) }
    {
        let alloc = self.by_dot.allocator();
        self.by_hash.make_room(1, alloc)?;
        self.by_hash.add(entry.entry());
        match self.by_dot.put(entry) {
            Ok(()) => Ok(()),
            Err(entry) => {
                self.by_hash.remove(entry.entry());
                Err(Oom)
            }
        }
    }

    /// Inserts a new entry, which other sets may share and for which room was made.
    pub fn put_ready(&mut self, entry: Handle<A>)
        requires absent { fin.get self.old.map entry.dot ≡ None }
        requires room { 0 < self.old.room }
        ensures { self.new.map ≡ fin.insert self.old.map entry.dot (presence_of entry) }
    {
        self.by_hash.add(entry.entry());
        self.by_dot.put_ready(entry);
    }

    /// Handles, by rising dot, of the entries that join when a message with this set is delivered to a store that has
    /// seen the dots `seen`. These are the entries of `names` whose dots aren't in `seen`.
    pub fn joining(&self, seen: &DotSet<A>, names: NameSet) -> Result<Vec<Handle<A>, A>, Oom>
        ensures { IfOk result (λ joining. pairs joining.items ≡ fin.entries (fin.retain_keys self.now.map (is_new (set.contains names) seen.now))) }
    {
        self.by_dot.joining(seen, names)
    }

    /// The dots, rising, of the entries that leave this set when a message with the dots `seen` and the entries
    /// `message` is delivered. These are the entries of `names` whose dots are in `seen` and have no entry in
    /// `message`.
    pub fn leaving(
        &self,
        message: &EntrySet<A>,
        seen: &DotSet<A>,
        names: NameSet,
    ) -> Result<Vec<Dot, A>, Oom>
        ensures { IfOk result (λ leaving. leaving.items ≡ fin.keys (fin.retain_keys self.now.map (is_gone (set.contains names) seen.now message.now.map))) }
    {
        self.by_dot.leaving(&message.by_dot, seen, names)
    }

    /// A set of the entries of these names, with neither index nor room.
    pub fn only(&self, names: NameSet) -> Result<EntrySet<A>, Oom>
        ensures { IfOk result (λ part. part.map ≡ entries_of_names (set.contains names) self.now.map) }
    {
        let by_dot = self.by_dot.only(names)?;
        let by_hash = TrackIndex::of_none();
        Ok(EntrySet { by_dot, by_hash })
    }

    /// The dots of the name's entries that track this process, by rising clock. It walks over the name's entries.
    pub fn dots_of_process(&self, name: u16, pid: u64) -> Result<Vec<Dot, A>, Oom>
        ensures { IfOk result (λ dots. dots.items ≡ dots_of name (λ p. p.pid == pid) self.now.map) }
    {
        self.by_dot.dots_of_process(name, pid)
    }

    /// A copy of the set, with neither index nor room.
    pub fn try_copy(&self) -> Result<EntrySet<A>, Oom>
        ensures { IfOk result (λ copy. copy.map ≡ self.now.map) }
    {
        let by_dot = self.by_dot.try_copy()?;
        let by_hash = TrackIndex::of_none();
        Ok(EntrySet { by_dot, by_hash })
    }
}
