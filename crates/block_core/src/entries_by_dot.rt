//! `EntriesByDot`, a map from dots to live entries, kept in blocks. `EntrySet` of `payload_core` is built on it.
ghost use Rattle.std.specs.Prelude.{◌≡◌, ◌==◌, ◌↔◌, ◌+◌, ◌^◌, ◌<◌, ◌≤◌, IfErr, IfOk, IsOk, IsTrue, OnErr, OnOk, is_some, slice_get, vec_len};
ghost use Rattle.std.specs.FinMap as fin;
ghost use Rattle.std.specs.FinSet as set;
ghost use Rattle.std.specs.List.{AllByRecursion};
ghost use Rattle.std.specs.Option.{option_copied, option_map};
ghost use Rattle.block_core.specs.Deliveries.{is_gone, is_new};
ghost use Rattle.entry_core.specs.EntryLists.{IsPlaceFrom, pairs};
ghost use Rattle.entry_core.specs.Presences.{dots_of, entries_of_names, entry_of, is_tracked_as, presence_of};
ghost use Rattle.block_core.specs.Sets.{listed};

use crate::block::Block;
use crate::walk::Walk;
use crate::{blocks, deliveries};
use dots_core::{Dot, DotSet, NameSet, Oom};
use entry_core::masked::is_below;
use entry_core::{Entry, Handle, Spare, Word};
use std::alloc::Allocator;
use std::marker::Model;

/// More entries than any memory has room for.
const TOO_MANY: usize = 1 << 62;

/// Live entries by their dots, with room for more. Each insert for which room was made has a spare and a place for a
/// block.
#[derive(Drop)]
pub struct EntriesByDot<A: Allocator> {
    blocks: Vec<Block<A>, A>,
    spares: Vec<Spare<A>, A>,
    count: usize,
}

impl<A: Allocator> Model for EntriesByDot<A> {
    ghost use Rattle.std.specs.Prelude.{◌≡◌, ◌-◌, ◌^◌, ◌<◌, ◌≤◌, min, vec_capacity, vec_len};
    ghost use Rattle.std.specs.List.{AllByRecursion};
    ghost use Rattle.std.specs.FinMap as fin;
    ghost use Rattle.block_core.specs.EntrySets.{EntrySet, entry_set_code};
    ghost use Rattle.block_core.specs.Sets.{AreBlocks, set_map};

    ghost Value = { EntrySet };

    ghost coded = { entry_set_code };

    ghost view = { λ s. record {
      map = set_map s.blocks.items;
      room = min (vec_len s.spares) (min (vec_capacity s.blocks - vec_len s.blocks) (2 ^ 62 - s.count));
    } };

    ghost invariant = { λ s. record {
      are : AreBlocks s.blocks.items;
      counted : s.count ≡ fin.len (set_map s.blocks.items);
      few : s.count ≤ 2 ^ 62;
      spared : AllByRecursion (λ boxes. 64 < boxes) s.spares.items;
    } };
}

impl<A: Allocator> EntriesByDot<A> {
    /// The empty set. It takes no memory.
    pub fn new(alloc: A) -> EntriesByDot<A>
    where
        A: Copy,
        ensures { result.map ≡ fin.empty }
    {
        EntriesByDot {
            blocks: Vec::new(alloc),
            spares: Vec::new(alloc),
            count: 0,
        }
    }

    /// The allocator of the set's lists.
    pub fn allocator(&self) -> A
    where
        A: Copy,
    {
        *self.blocks.allocator()
    }

    /// How many entries the set has.
    pub fn len(&self) -> usize
        ensures len { result ≡ fin.len self.now.map }
        ensures small { result < 2 ^ 63 }
    {
        self.count
    }

    /// Whether the set has no entry.
    pub fn is_empty(&self) -> bool
        ensures { IsTrue result ↔ (self.now.map ≡ fin.empty) }
    {
        self.len() == 0
    }

    /// The entry of the dot, found by a binary search; `None` if there is none.
    pub fn get(&self, dot: Dot) -> Option<&Entry<A>>
        ensures { option_copied result ≡ option_map (entry_of dot) (fin.get self.now.map dot) }
    {
        match blocks::get(&self.blocks, dot) {
            Some(entry) => Some(entry.entry()),
            None => None,
        }
    }

    /// A handle of the dot's entry; `None` if there is none. An entry that may be shared is shared once more, and any
    /// other is copied. An `Err` means that the count of the copies that share the entry, or one of its words, is at
    /// its limit, or that memory for a copy was refused.
    pub fn handle(&self, dot: Dot) -> Result<Option<Handle<A>>, Oom>
    where
        A: Copy,
        ensures { IfOk result (λ handle. handle ≡ option_map (entry_of dot) (fin.get self.now.map dot)) }
    {
        let alloc = *self.blocks.allocator();
        match blocks::get(&self.blocks, dot) {
            Some(entry) => Ok(Some(entry.try_share(alloc)?)),
            None => Ok(None),
        }
    }

    /// A walk over the entries by rising dot.
    pub fn walk(&self) -> Walk<'_, A>
        ensures { result ≡ listed self.now.map }
    {
        Walk::over(&self.blocks, None)
    }

    /// A walk over the entries of the name by rising clock. It looks at every block, and skips the blocks of other
    /// names.
    pub fn walk_of(&self, name: u16) -> Walk<'_, A>
        ensures { result ≡ listed (entries_of_names (λ n. n == name) self.now.map) }
    {
        Walk::over(&self.blocks, Some(name))
    }

    /// The entry at `place`, counted from 0 by rising dot, found by a walk; `None` past the last.
    pub fn at(&self, place: usize) -> Option<&Entry<A>>
        ensures { option_copied result ≡ option_map (λ e. entry_of e.0 e.1) (slice_get (fin.entries self.now.map) place) }
    {
        let mut walk = self.walk();
        for _ in 0..place {
            walk.next()?;
        }
        walk.next()
    }

    /// The place of the first entry whose dot is not below `dot`, found by a walk; the number of entries if there is
    /// none.
    pub fn first_from(&self, dot: Dot) -> usize
        ensures { IsPlaceFrom dot (fin.entries self.now.map) result }
    {
        // form: the proof reads the bound on the count here
        let _count = self.len();
        let mut place = 0;
        let mut walk = self.walk();
        while let Some(entry) = walk.next() {
            if !is_below(entry.dot, dot) {
                return place;
            }
            place += 1;
        }
        place
    }

    /// The name's dot of least clock whose entry tracks this process under this topic and key; `None` if there is none.
    /// It walks over the name's entries.
    pub fn first_tracked(&self, name: u16, pid: u64, topic: &Word<A>, key: &Word<A>) -> Option<Dot>
        ensures { result ≡ slice_get (dots_of name (is_tracked_as pid topic.now key.now) self.now.map) 0 }
    {
        let mut walk = self.walk_of(name);
        while let Some(entry) = walk.next() {
            if entry.is_tracked_as(pid, topic, key) {
                return Some(entry.dot);
            }
        }
        None
    }

    /// The dots of the name's entries that track this process, by rising clock. It walks over the name's entries.
    pub fn dots_of_process(&self, name: u16, pid: u64) -> Result<Vec<Dot, A>, Oom>
    where
        A: Copy,
        ensures { IfOk result (λ dots. dots.items ≡ dots_of name (λ p. p.pid == pid) self.now.map) }
    {
        let mut dots = Vec::new(*self.blocks.allocator());
        let mut walk = self.walk_of(name);
        while let Some(entry) = walk.next() {
            if entry.pid == pid {
                dots.push(entry.dot)?;
            }
        }
        Ok(dots)
    }

    /// Whether both have the same entries, whatever their room. It takes no memory.
    pub fn same(&self, other: &EntriesByDot<A>) -> bool
        ensures { IsTrue result ↔ (self.now.map ≡ other.now.map) }
    {
        if self.len() != other.len() {
            return false;
        }
        let mut ones = self.walk();
        let mut others = other.walk();
        while let Some(one) = ones.next() {
            match others.next() {
                Some(second) => {
                    if !one.same(second) {
                        return false;
                    }
                }
                None => return false,
            }
        }
        // form: `is_none`, spelled out for the proof
        match others.next() {
            Some(_) => false,
            None => true,
        }
    }

    /// Handles, by rising dot, of the entries that join when a message with this set is delivered to a store that has
    /// seen the dots `seen`. These are the entries of `names` whose dots aren't in `seen`.
    pub fn joining(&self, seen: &DotSet<A>, names: NameSet) -> Result<Vec<Handle<A>, A>, Oom>
    where
        A: Copy,
        ensures { IfOk result (λ joining. pairs joining.items ≡ fin.entries (fin.retain_keys self.now.map (is_new (set.contains names) seen.now))) }
    {
        let alloc = *self.blocks.allocator();
        deliveries::joining(&self.blocks, seen, names, alloc)
    }

    /// The dots, rising, of the entries that leave this set when a message with the dots `seen` and the entries
    /// `message` is delivered. These are the entries of `names` whose dots are in `seen` and have no entry in
    /// `message`.
    pub fn leaving(
        &self,
        message: &EntriesByDot<A>,
        seen: &DotSet<A>,
        names: NameSet,
    ) -> Result<Vec<Dot, A>, Oom>
    where
        A: Copy,
        ensures { IfOk result (λ leaving. leaving.items ≡ fin.keys (fin.retain_keys self.now.map (is_gone (set.contains names) seen.now message.now.map))) }
    {
        let alloc = *self.blocks.allocator();
        deliveries::leaving(&self.blocks, &message.blocks, seen, names, alloc)
    }

    /// Takes out the entry of the dot, found by a binary search; `None` if there is none. It takes no memory, and the
    /// room never falls.
    pub fn remove(&mut self, dot: Dot) -> Option<Entry<A>>
        ensures entry { result ≡ option_map (entry_of dot) (fin.get self.old.map dot) }
        ensures map { self.new.map ≡ fin.remove self.old.map dot }
        ensures room { self.old.room ≤ self.new.room }
    {
        let Ok(at) = blocks::search(&self.blocks, dot.name, dot.clock / 64) else {
            return None;
        };
        match blocks::take_out(&mut self.blocks, at, dot) {
            Some(entry) => {
                self.count -= 1;
                Some(entry)
            }
            None => None,
        }
    }

    /// Takes out the entry of the dot, as a handle: the list's own, or a further one if other sets share the list.
    /// `Ok(None)` if there is no such entry. An `Err` changes nothing. It comes only from a shared list: the count of
    /// the entry's handles is at its limit, or memory for a copy of the entry was refused. The room never falls.
    pub fn take(&mut self, dot: Dot) -> Result<Option<Handle<A>>, Oom>
    where
        A: Copy,
        ensures entry { IfOk result (λ taken. taken ≡ option_map (entry_of dot) (fin.get self.old.map dot)) }
        ensures map { OnOk result (self.new.map ≡ fin.remove self.old.map dot) }
        ensures room { self.old.room ≤ self.new.room }
        ensures err { OnErr result (self.new.map ≡ self.old.map) }
    {
        let Ok(at) = blocks::search(&self.blocks, dot.name, dot.clock / 64) else {
            return Ok(None);
        };
        let alloc = *self.blocks.allocator();
        match blocks::take_handle(&mut self.blocks, at, dot, alloc) {
            Ok(taken) => match taken {
                Some(entry) => {
                    self.count -= 1;
                    Ok(Some(entry))
                }
                None => Ok(None),
            },
            Err(failed) => Err(failed),
        }
    }

    /// Drops the entry of the dot, and says whether there was one. It takes no memory and copies nothing, and the room
    /// never falls.
    pub fn discard(&mut self, dot: Dot) -> bool
        ensures was { result ≡ is_some (fin.get self.old.map dot) }
        ensures map { self.new.map ≡ fin.remove self.old.map dot }
        ensures room { self.old.room ≤ self.new.room }
    {
        let Ok(at) = blocks::search(&self.blocks, dot.name, dot.clock / 64) else {
            return false;
        };
        if blocks::let_go(&mut self.blocks, at, dot) {
            self.count -= 1;
            true
        } else {
            false
        }
    }

    /// Makes room: after an `Ok`, `count` inserts succeed. The entries stay, and so does the room that was made before,
    /// even after an `Err`: memory was refused, or the set could come to more than `TOO_MANY` entries.
    pub fn make_room(&mut self, count: usize) -> Result<(), Oom>
    where
        A: Copy,
        ensures map { self.new.map ≡ self.old.map }
        ensures room_stays { self.old.room ≤ self.new.room }
        ensures ok { OnOk result (count ≤ self.new.room) }
        ensures succeeds { count ≤ self.old.room → IsOk result }
    {
        if count > TOO_MANY - self.count {
            return Err(Oom);
        }
        self.blocks.reserve(count)?;
        let alloc = *self.blocks.allocator();
        make_spares(&mut self.spares, count, alloc)
    }

    /// Inserts a new entry, whose place a binary search finds. If room was made, it asks for no memory. Otherwise the
    /// entry comes back if memory is refused, or if the set has `TOO_MANY` entries.
    pub fn insert(&mut self, entry: Entry<A>) -> Result<(), Entry<A>>
    where
        A: Copy,
        requires { fin.get self.old.map entry.dot ≡ None }
        ensures map { OnOk result (self.new.map ≡ fin.insert self.old.map entry.dot (presence_of entry)) }
        ensures succeeds { 0 < self.old.room → IsOk result }
        ensures room { OnOk result (self.old.room ≤ self.new.room + 1) }
        ensures err { OnErr result (self.new.map ≡ self.old.map) }
        ensures given_back { IfErr result (λ back. back ≡ entry) }
    {
        match self.insert_spare(entry) {
            Ok(()) => Ok(()),
            Err(entry) => self.insert_asking(entry),
        }
    }

    /// Inserts a new entry, and asks for the entry's memory. The entry comes back if memory is refused, or if the set
    /// has `TOO_MANY` entries.
    fn insert_asking(&mut self, entry: Entry<A>) -> Result<(), Entry<A>>
    where
        A: Copy,
        requires { fin.get self.old.map entry.dot ≡ None }
        ensures map { OnOk result (self.new.map ≡ fin.insert self.old.map entry.dot (presence_of entry)) }
        ensures room { OnOk result (self.old.room ≤ self.new.room + 1) }
        ensures err { OnErr result (self.new.map ≡ self.old.map) }
        ensures given_back { IfErr result (λ back. back ≡ entry) }
    {
        let alloc = *self.blocks.allocator();
        match Handle::of(entry, alloc) {
            Ok(entry) => match self.put(entry) {
                Ok(()) => Ok(()),
                Err(entry) => Err(entry.into_entry()),
            },
            Err(entry) => Err(entry),
        }
    }

    /// Inserts a new entry, which may be shared. If memory is refused, or the set has `TOO_MANY` entries, the entry
    /// comes back. It uses no spare, but perhaps a place for a block.
    pub fn put(&mut self, entry: Handle<A>) -> Result<(), Handle<A>>
    where
        A: Copy,
        requires { fin.get self.old.map entry.dot ≡ None }
        ensures map { OnOk result (self.new.map ≡ fin.insert self.old.map entry.dot (presence_of entry)) }
        ensures room { OnOk result (self.old.room ≤ self.new.room + 1) }
        ensures room_stays { OnErr result (self.old.room ≤ self.new.room) }
        ensures err { OnErr result (self.new.map ≡ self.old.map) }
        ensures given_back { IfErr result (λ back. back ≡ entry) }
    {
        if self.count >= TOO_MANY {
            return Err(entry);
        }
        match blocks::put_in(&mut self.blocks, entry) {
            Ok(()) => {
                self.count += 1;
                Ok(())
            }
            Err(entry) => Err(entry),
        }
    }

    /// Inserts a new entry, which may be shared and for which room was made. A spare is used only if memory is refused.
    pub fn put_ready(&mut self, entry: Handle<A>)
    where
        A: Copy,
        requires absent { fin.get self.old.map entry.dot ≡ None }
        requires room { 0 < self.old.room }
        ensures map { self.new.map ≡ fin.insert self.old.map entry.dot (presence_of entry) }
        ensures room { self.old.room ≤ self.new.room + 1 }
    {
        if let Err(entry) = self.put(entry) {
            self.insert_spare(entry.into_entry()).unwrap();
        }
    }

    /// Inserts a new entry, in the memory of a spare. The entry comes back if there is no spare or no place for one
    /// more block, or if the set has `TOO_MANY` entries.
    fn insert_spare(&mut self, entry: Entry<A>) -> Result<(), Entry<A>>
    where
        A: Copy,
        requires { fin.get self.old.map entry.dot ≡ None }
        ensures map { OnOk result (self.new.map ≡ fin.insert self.old.map entry.dot (presence_of entry)) }
        ensures succeeds { 0 < self.old.room → IsOk result }
        ensures room { OnOk result (self.old.room ≤ self.new.room + 1) }
        ensures err { OnErr result (self.new ≡ self.old) }
        ensures given_back { IfErr result (λ back. back ≡ entry) }
    {
        if self.count >= TOO_MANY || self.blocks.len() == self.blocks.capacity() {
            return Err(entry);
        }
        if self.spares.is_empty() {
            return Err(entry);
        }
        let mut spare = self.spares.take_last();
        let entry = spare.boxed(entry);
        blocks::put_spared(&mut self.blocks, entry, spare);
        self.count += 1;
        Ok(())
    }

    /// A new set of the entries of these names. A block's list that may be shared is shared once more, any other is
    /// copied. The new set has no room.
    pub fn only(&self, names: NameSet) -> Result<EntriesByDot<A>, Oom>
    where
        A: Copy,
        ensures { IfOk result (λ part. part.map ≡ entries_of_names (set.contains names) self.now.map) }
    {
        let alloc = *self.blocks.allocator();
        let blocks = blocks::named(&self.blocks, names, alloc)?;
        let count = blocks::count_in(&blocks);
        let spares = Vec::new(alloc);
        Ok(EntriesByDot {
            blocks,
            spares,
            count,
        })
    }

    /// A copy of the set. A block's list that may be shared is shared once more, any other is copied. The copy has no
    /// room.
    pub fn try_copy(&self) -> Result<EntriesByDot<A>, Oom>
    where
        A: Copy,
        ensures { IfOk result (λ copy. copy.map ≡ self.now.map) }
    {
        let alloc = *self.blocks.allocator();
        let blocks = blocks::copies(&self.blocks, alloc)?;
        let spares = Vec::new(alloc);
        let count = self.count;
        Ok(EntriesByDot {
            blocks,
            spares,
            count,
        })
    }
}

/// Makes spares until there are `count`.
fn make_spares<A: Allocator + Copy>(
    spares: &mut Vec<Spare<A>, A>,
    count: usize,
    alloc: A,
) -> Result<(), Oom>
    requires { AllByRecursion (λ boxes. 64 < boxes) spares.old.items }
    ensures boxes { AllByRecursion (λ boxes. 64 < boxes) spares.new.items }
    ensures stay { vec_len spares.old ≤ vec_len spares.new }
    ensures ok { OnOk result (count ≤ vec_len spares.new) }
    ensures succeeds { count ≤ vec_len spares.old → IsOk result }
{
    for _ in spares.len()..count {
        spares.push(Spare::new(alloc)?)?;
    }
    Ok(())
}
