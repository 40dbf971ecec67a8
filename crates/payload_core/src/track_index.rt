//! `TrackIndex`: finds the dot of an entry by its hash, among the entries of one name.
ghost use Rattle.std.specs.Prelude.{◌≡◌, ◌≢◌, ◌+◌, ◌<◌, ◌≤◌, IsOk, OnOk, ℕ};
ghost use Rattle.dots_core.specs.declared.dot.Dot.{Dot};
ghost use Rattle.std.specs.HashMap.{spare};
ghost use Rattle.payload_core.specs.Hashes.{hash_of};
ghost use Rattle.payload_core.specs.TrackIndices.{Holds, held_as, holder_of, is_of};

use crate::hash::hash;
use dots_core::{Dot, Oom};
use entry_core::Entry;
use std::alloc::Allocator;
use std::collections::HashMap;
use std::hash::{BuildHasherDefault, FoldHasher};
use std::marker::Model;

/// Where the entries with a hash are.
#[derive(Clone, Copy)]
pub enum Holder {
    /// At this dot alone.
    One(Dot),
    /// The index doesn't know: several entries had the hash at the same time, or the index isn't of their name.
    Several,
}

/// For each hash, where the entries with it are. An index boxes this map, so that an entry set without an index stays
/// small.
type Holders<A> = HashMap<u64, Holder, BuildHasherDefault<FoldHasher>, A>;

/// Where the entries of one name are, by their hashes. A hash that the index doesn't have belongs to no entry of the
/// index's name. An index of no name knows nothing, and `holder` always gives `Several`. An index takes no memory
/// before room is made.
#[derive(Drop)]
pub struct TrackIndex<A: Allocator> {
    name: Option<u16>,
    holders: Option<Box<Holders<A>, A>>,
}

impl<A: Allocator> Model for TrackIndex<A> {
    ghost use Rattle.std.specs.Prelude.{◌^◌, [], if◌then◌else◌, is_some};
    ghost use Rattle.std.specs.HashMap.{spare};
    ghost use Rattle.payload_core.specs.TrackIndices.{TrackIndex, in_box, track_index_code};

    ghost Value = { TrackIndex };

    ghost coded = { track_index_code };

    ghost view = { λ x. record {
      name = x.name;
      holders = in_box [] (λ h. h.value.entries) x.holders;
      room = (if is_some x.name then in_box 0 (λ h. spare h.value) x.holders else 2 ^ 64);
    } };
}

impl<A: Allocator> TrackIndex<A> {
    /// An index of this name, without entries yet. It takes no memory.
    pub fn of(name: u16) -> TrackIndex<A> {
        TrackIndex {
            name: Some(name),
            holders: None,
        }
    }

    /// An index of no name, which is right whatever entries there are. It takes no memory.
    pub fn of_none() -> TrackIndex<A>
        ensures { (name hash : ℕ) (dot : Dot) → Holds (holder_of result name hash) dot }
    {
        TrackIndex {
            name: None,
            holders: None,
        }
    }

    /// Whether the index is of this name.
    pub fn is_of(&self, name: u16) -> bool
        ensures { result ≡ is_of self.now.name name }
    {
        match self.name {
            Some(own) => own == name,
            None => false,
        }
    }

    /// Where the name's entries with this hash are; `None` if no entry has the hash. Always `Several` if the index
    /// isn't of the name.
    pub fn holder(&self, name: u16, hash: u64) -> Option<Holder>
        ensures { result ≡ holder_of self.now name hash }
    {
        if !self.is_of(name) {
            return Some(Holder::Several);
        }
        match &self.holders {
            Some(holders) => holder_in(holders, hash),
            None => None,
        }
    }

    /// Notes that the entry left its dot; an entry of another name changes nothing. The room never falls.
    pub fn remove(&mut self, entry: &Entry<A>)
        ensures others { (n m : ℕ) (d : Dot) → d ≢ entry.now.dot → Holds (holder_of self.old n m) d → Holds (holder_of self.new n m) d }
        ensures room { self.old.room ≤ self.new.room }
    {
        if !self.is_of(entry.dot.name) {
            return;
        }
        let hash = hash(entry.pid, entry.topic(), entry.key());
        // form: taken out for the edit, and put back
        if let Some(mut holders) = self.holders.take() {
            take_out(&mut holders, hash, entry.dot);
            self.holders = Some(holders);
        }
    }
}

impl<A: Allocator + Copy> TrackIndex<A> {
    /// Makes room: after an `Ok`, `count` more entries can be added. What the index knows stays, even if memory is
    /// refused.
    pub fn make_room(&mut self, count: usize, alloc: A) -> Result<(), Oom>
        ensures stays { (n m : ℕ) (d : Dot) → Holds (holder_of self.old n m) d → Holds (holder_of self.new n m) d }
        ensures room_stays { self.old.room ≤ self.new.room }
        ensures ok { OnOk result (count ≤ self.new.room) }
        ensures succeeds { count ≤ self.old.room → IsOk result }
    {
        if self.name.is_none() || count == 0 {
            return Ok(());
        }
        // form: taken out for the edit, and put back
        let mut holders = match self.holders.take() {
            Some(holders) => holders,
            None => Box::new(alloc, HashMap::new(alloc))?,
        };
        let made = holders.reserve(count);
        self.holders = Some(holders);
        made
    }

    /// Notes that the entry came to its dot; an entry of another name changes nothing. Room must have been made.
    pub fn add(&mut self, entry: &Entry<A>)
        requires { 0 < self.old.room }
        ensures added { Holds (holder_of self.new entry.now.dot.name (hash_of entry.now.pid entry.now.topic entry.now.key)) entry.now.dot }
        ensures stays { (n m : ℕ) (d : Dot) → Holds (holder_of self.old n m) d → Holds (holder_of self.new n m) d }
        ensures room { self.old.room ≤ self.new.room + 1 }
    {
        if !self.is_of(entry.dot.name) {
            return;
        }
        let hash = hash(entry.pid, entry.topic(), entry.key());
        // form: taken out for the edit, and put back
        if let Some(mut holders) = self.holders.take() {
            put_in(&mut holders, hash, entry.dot);
            self.holders = Some(holders);
        }
    }
}

/// Where the entries with this hash are, by these holders; `None` if no entry has the hash.
fn holder_in<A: Allocator>(holders: &Holders<A>, hash: u64) -> Option<Holder>
    ensures { result ≡ held_as holders.now.entries hash }
{
    match holders.get(&hash) {
        Some(holder) => Some(*holder),
        None => None,
    }
}

/// Notes that an entry with this hash left the dot. A hash that has `Several` keeps it.
fn take_out<A: Allocator>(holders: &mut Holders<A>, hash: u64, dot: Dot)
    ensures others { (m : ℕ) (d : Dot) → d ≢ dot → Holds (held_as holders.old.entries m) d → Holds (held_as holders.new.entries m) d }
    ensures room { spare holders.old ≤ spare holders.new }
{
    if let Some(Holder::One(held)) = holder_in(holders, hash) {
        if held == dot {
            holders.remove(&hash);
        }
    }
}

/// Notes that an entry with this hash came to the dot. If the hash has a holder already, the holder becomes `Several`.
fn put_in<A: Allocator + Copy>(holders: &mut Holders<A>, hash: u64, dot: Dot)
    requires { 0 < spare holders.old }
    ensures added { Holds (held_as holders.new.entries hash) dot }
    ensures stays { (m : ℕ) (d : Dot) → Holds (held_as holders.old.entries m) d → Holds (held_as holders.new.entries m) d }
    ensures room { spare holders.old ≤ spare holders.new + 1 }
{
    let holder = if holders.contains_key(&hash) {
        Holder::Several
    } else {
        Holder::One(dot)
    };
    // form: the checker asks for the type of the result here
    let put: Result<_, _> = holders.insert(hash, holder);
    drop(put.unwrap());
}
