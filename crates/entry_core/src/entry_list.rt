//! `EntryList`: handles of entries side by side, in memory of the list's own or shared with other lists.
ghost use Rattle.std.specs.Prelude.{◌≡◌, ◌<◌, ◌≤◌, IfErr, IfOk, IsOk, MatchOption, OnErr, OnOk, Some, length, true, slice_get, slice_set, vec_capacity, vec_len};
ghost use Rattle.std.specs.List.{insert, remove};
ghost use Rattle.entry_core.specs.Lists.{AreShort, live_ones};

use crate::handle::Handle;
use crate::masked;
use crate::spare::{OwnList, Spare};
use dots_core::Oom;
use std::alloc::Allocator;
use std::marker::Model;
use std::sync::Arc;

/// The handles of a list, in memory that other lists may share or not. A handle may be shared in either case.
#[derive(Drop)]
pub enum Items<A: Allocator> {
    /// No other list has this memory.
    Own(OwnList<A>),
    /// Other lists may have this memory. The words of all entries are stored inline.
    Shared(Arc<Vec<Handle<A>, A>, A>),
}

/// Handles of entries side by side. A list that `of` made from entries whose words are all stored inline shares its
/// memory with its copies; any other list doesn't.
#[derive(Drop)]
pub struct EntryList<A: Allocator> {
    items: Items<A>,
}

impl<A: Allocator> Model for EntryList<A> {
    ghost use Rattle.std.specs.Prelude.{List};
    ghost use Rattle.entry_core.specs.Presences.{Entry as Plain};

    ghost Value = { List Plain };

    ghost use Rattle.entry_core.specs.ListParts.{items_of, IsKept};

    ghost view = { λ l. items_of l.items };

    ghost invariant = { λ l. IsKept l.items };
}

impl<A: Allocator> EntryList<A> {
    /// A list of these entries. If memory is refused, the entries come back.
    pub fn of(items: Vec<Handle<A>, A>, alloc: A) -> Result<EntryList<A>, Vec<Handle<A>, A>>
        ensures ok { IfOk result (λ list. list ≡ items.items) }
        ensures given_back { IfErr result (λ back. back.items ≡ items.items) }
    {
        if are_short(&items) {
            match Arc::new(alloc, items) {
                Ok(shared) => Ok(EntryList {
                    items: Items::Shared(shared),
                }),
                Err(failed) => Err(failed.value),
            }
        } else {
            match Box::new(alloc, items) {
                Ok(own) => Ok(EntryList {
                    items: Items::Own(own),
                }),
                Err(failed) => Err(failed.value),
            }
        }
    }

    /// A list of these entries, in memory that copies of the list don't share.
    pub fn of_own(items: OwnList<A>) -> EntryList<A>
        ensures { result ≡ items.value.items }
    {
        EntryList {
            items: Items::Own(items),
        }
    }

    /// The handles of the entries, in the order of the list; nothing is copied.
    pub fn as_slice(&self) -> &[Handle<A>]
        ensures { result.now ≡ self.now }
    {
        match &self.items {
            Items::Own(items) => items.as_slice(),
            Items::Shared(items) => items.as_slice(),
        }
    }

    /// Moves the entry at `place` out. Gives `None`, and leaves the list unchanged, if other lists share its memory;
    /// the words of all entries are then stored inline.
    pub fn take_own(&mut self, place: usize) -> Option<Handle<A>>
        requires { place < length self.old }
        ensures { MatchOption result ((self.new ≡ self.old) × AreShort self.old) (λ e. (Some e ≡ slice_get self.old place)
            × (self.new ≡ remove self.old place)) }
    {
        match &mut self.items {
            Items::Own(items) => Some(items.remove(place)),
            Items::Shared(items) => match Arc::get_mut(items) {
                Some(items) => Some(items.remove(place)),
                None => None,
            },
        }
    }

    /// Inserts `entry` at `place`. The entry comes back if other lists share this list's memory, if others may share
    /// that memory and the entry has a long word, or if memory is refused.
    pub fn put_own(&mut self, place: usize, entry: Handle<A>) -> Result<(), Handle<A>>
        requires { place ≤ length self.old }
        ensures ok { OnOk result (self.new ≡ insert self.old place entry) }
        ensures err { OnErr result (self.new ≡ self.old) }
        ensures given_back { IfErr result (λ back. back ≡ entry) }
    {
        match &mut self.items {
            Items::Own(items) => put(items, place, entry),
            Items::Shared(items) => {
                if !entry.is_short() {
                    return Err(entry);
                }
                match Arc::get_mut(items) {
                    Some(items) => put(items, place, entry),
                    None => Err(entry),
                }
            }
        }
    }

    /// Replaces the entry at `place` by `entry`. `entry` comes back if other lists share this list's memory, or if
    /// others may share that memory and `entry` has a long word.
    pub fn swap_own(&mut self, place: usize, entry: Handle<A>) -> Result<(), Handle<A>>
        requires { place < length self.old }
        ensures ok { OnOk result (self.new ≡ slice_set self.old place entry) }
        ensures err { OnErr result (self.new ≡ self.old) }
        ensures given_back { IfErr result (λ back. back ≡ entry) }
    {
        match &mut self.items {
            Items::Own(items) => {
                set(items, place, entry);
                Ok(())
            }
            Items::Shared(items) => {
                if !entry.is_short() {
                    return Err(entry);
                }
                match Arc::get_mut(items) {
                    Some(items) => {
                        set(items, place, entry);
                        Ok(())
                    }
                    None => Err(entry),
                }
            }
        }
    }

    /// Gives the entries in the memory of `spare`: moved, which leaves this list empty, or copied if other lists may
    /// share this list's memory. It asks for no memory.
    pub fn move_to(&mut self, spare: Spare<A>) -> OwnList<A>
        requires { length self.old ≤ 64 }
        ensures items { result.value.items ≡ self.old }
        ensures room { 64 ≤ vec_capacity result.value }
    {
        match self.move_own(spare) {
            Ok(list) => list,
            Err(spare) => spare.copied(self.as_slice()),
        }
    }

    /// Moves the entries into the memory of `spare`. An `Err` gives `spare` back and leaves the list as it is: other
    /// lists may share its memory, and then its words are short ones, stored inline.
    fn move_own(&mut self, spare: Spare<A>) -> Result<OwnList<A>, Spare<A>>
        requires { length self.old ≤ 64 }
        ensures moved { IfOk result (λ list. list.value.items ≡ self.old) }
        ensures room { IfOk result (λ list. 64 ≤ vec_capacity list.value) }
        ensures stays { OnErr result ((self.new ≡ self.old) × AreShort self.old) }
    {
        match &mut self.items {
            Items::Own(items) => Ok(spare.moved(items)),
            Items::Shared(_) => Err(spare),
        }
    }

    /// A list with the same entries. Memory that may be shared is shared once more; any other is copied, with a further
    /// handle of each entry.
    pub fn try_share(&self, alloc: A) -> Result<EntryList<A>, Oom>
    where
        A: Copy,
        ensures { IfOk result (λ copy. copy ≡ self.now) }
    {
        let items = match &self.items {
            Items::Own(items) => Items::Own(Box::new(alloc, copies(items, alloc)?)?),
            Items::Shared(items) => Items::Shared(Arc::try_clone(items)?),
        };
        Ok(EntryList { items })
    }
}

/// Inserts the entry into `list` at `place`. If memory is refused, the entry comes back.
pub fn put<A: Allocator>(
    list: &mut Vec<Handle<A>, A>,
    place: usize,
    entry: Handle<A>,
) -> Result<(), Handle<A>>
    requires within { place ≤ length list.old.items }
    ensures ok { OnOk result (list.new.items ≡ insert list.old.items place entry) }
    ensures succeeds { vec_len list.old < vec_capacity list.old → IsOk result }
    ensures err { OnErr result (list.new.items ≡ list.old.items) }
    ensures given_back { IfErr result (λ back. back ≡ entry) }
{
    match list.insert(place, entry) {
        Ok(()) => Ok(()),
        Err(failed) => Err(failed.value),
    }
}

/// Replaces the entry of `list` at `place`.
pub fn set<A: Allocator>(list: &mut Vec<Handle<A>, A>, place: usize, entry: Handle<A>)
    requires { place < length list.old.items }
    ensures { list.new.items ≡ slice_set list.old.items place entry }
{
    list[place] = entry;
}

/// Whether the entries' words are all stored inline.
fn are_short<A: Allocator>(entries: &[Handle<A>]) -> bool
    ensures { result ≡ true → AreShort entries.now }
{
    // form: a loop, for the proof
    for entry in entries {
        if !entry.is_short() {
            return false;
        }
    }
    true
}

/// A new list with handles of the entries whose clocks are in the mask `live`, with room for one more handle.
pub fn live_copies<A: Allocator + Copy>(
    entries: &[Handle<A>],
    live: u64,
    alloc: A,
) -> Result<Vec<Handle<A>, A>, Oom>
    ensures { IfOk result (λ list. list.items ≡ live_ones live entries.now) }
{
    let mut list = Vec::with_capacity(alloc, live.count_ones() as usize + 1)?;
    masked::push_copies(&mut list, entries, live, alloc)?;
    Ok(list)
}

/// A new list with one more handle of each entry, in the same order.
fn copies<A: Allocator + Copy>(entries: &[Handle<A>], alloc: A) -> Result<Vec<Handle<A>, A>, Oom>
    ensures { IfOk result (λ list. list.items ≡ entries.now) }
{
    let mut list = Vec::with_capacity(alloc, entries.len())?;
    for entry in entries {
        list.push_reserved(entry.try_share(alloc)?);
    }
    Ok(list)
}
