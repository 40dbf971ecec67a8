//! Own entries that leave a store and its delta together, and taking all these leaves back.
ghost use Rattle.std.specs.Prelude.{◌≡◌, ◌+◌, ◌<◌, ◌≤◌, [], All, IfErr, IfOk, IsOk, OnErr, OnOk, length, vec_capacity};
ghost use Rattle.std.specs.FinMap as fin;
ghost use Rattle.std.specs.FinSet as set;
ghost use Rattle.dots_core.specs.Contexts.{IsLast};
ghost use Rattle.dots_core.specs.Dots.{last_clock, HasClocks, IsValid, count_of, dot};
ghost use Rattle.dots_core.specs.Names.{most_names};
ghost use Rattle.entry_core.specs.EntryLists.{pairs};
ghost use Rattle.store_core.specs.EntryMoves.{AreNew, dots_of_pairs, with_each, without_each};
ghost use Rattle.store_core.specs.DeltaStores.{AreOwn, CanAllBeRestored, left_each, own_clock, with_lefts};
ghost use Rattle.store_core.specs.LeavesTogether.{dots_before_each, entries_left, found_lefts, lefts_of, still_there, unsent_left};
ghost use Rattle.store_core.specs.LeavesTogether.{with_dots, with_next, without_found, without_next};

use crate::delta_store::DeltaStore;
use crate::entry_moves::take_out_each;
use crate::left_entry::Left;
use crate::store_joins::put_shared;
use crate::store_leaves::{put_back, take_back, unsee};
use dots_core::{Dot, DotSet, Oom};
use payload_core::EntrySet;
use std::alloc::Allocator;

impl<A: Allocator + Copy> DeltaStore<A> {
    /// Takes out the own entries at these dots, also from the delta, which gains these dots and a fresh one for each.
    /// The fresh dots are seen, too. What was destroyed is returned; if each dot had an entry and none is named twice,
    /// `restore_each` takes the call back with it. An `Err` changes nothing. The call edits a copy of the delta's dots,
    /// so that nothing must be put back if memory is refused.
    pub fn leave_each(&mut self, dots: &[Dot]) -> Result<Vec<Left<A>, A>, Oom>
        requires own { AreOwn dots.now self.old }
        requires free { own_clock self.old + length dots.now ≤ last_clock }
        ensures left { OnOk result (self.new ≡ left_each dots.now self.old) }
        ensures stood { IfOk result (λ lefts. lefts.items ≡ lefts_of dots.now self.old.store.entries self.old.delta.entries self.old.delta.seen) }
        ensures err { OnErr result (self.new ≡ self.old) }
    {
        let alloc = self.entries.allocator();
        let clock = self.own_clock();
        let found = lefts_at(
            &self.entries,
            &self.delta_entries,
            &self.delta_seen,
            dots,
            alloc,
        )?;
        let lefts = Vec::with_capacity(alloc, found.len())?;
        let delta_seen = copy_with(&self.delta_seen, dots, self.own, clock)?;
        see_next(&mut self.seen, self.own, clock, dots.len()).unwrap();
        let lefts = take_lefts(&mut self.entries, found, lefts);
        take_out_each(&mut self.delta_entries, dots);
        self.delta_seen = delta_seen;
        Ok(lefts)
    }

    /// Takes back leaves that were made together: puts back the entries that left, and into the delta those that the
    /// delta had. Removes the last own dots, as many as entries left, also from the delta. The delta loses the dots of
    /// these entries that the delta didn't have before the leaves. If memory is refused, `lefts` comes back, and
    /// nothing changes. The call copies the delta's dots.
    pub fn restore_each(&mut self, lefts: Vec<Left<A>, A>) -> Result<(), (Vec<Left<A>, A>, Oom)>
        requires { CanAllBeRestored lefts.items self.old }
        ensures ok { OnOk result (self.new ≡ with_lefts lefts.items self.old) }
        ensures err { OnErr result (self.new ≡ self.old) }
        ensures given_back { IfErr result (λ failed. failed.0 ≡ lefts) }
    {
        let clock = self.own_clock() - lefts.len() as u64;
        match copy_without(&self.delta_seen, self.own, clock, &lefts) {
            Err(failed) => Err((lefts, failed)),
            Ok(delta_seen) => {
                if let Err(failed) = put_lefts_back(
                    &mut self.entries,
                    &mut self.delta_entries,
                    &lefts,
                ) {
                    // form: drop before exit
                    drop(delta_seen);
                    return Err((lefts, failed));
                }
                unsee_next(&mut self.seen, self.own, clock, lefts.len()).unwrap();
                self.delta_seen = delta_seen;
                Ok(())
            }
        }
    }
}

/// What a leave would destroy at each of these dots that has an entry. Neither the entries nor the delta change.
fn lefts_at<A: Allocator + Copy>(
    entries: &EntrySet<A>,
    delta_entries: &EntrySet<A>,
    delta_seen: &DotSet<A>,
    dots: &[Dot],
    alloc: A,
) -> Result<Vec<Left<A>, A>, Oom>
    ensures { IfOk result (λ found. found.items ≡ found_lefts dots.now entries.now.map delta_entries.now.map delta_seen.now) }
{
    let mut found = Vec::with_capacity(alloc, dots.len())?;
    for dot in dots {
        if let Some(entry) = entries.handle(*dot)? {
            let unsent = delta_entries.handle(*dot)?;
            let in_delta = delta_seen.contains(*dot);
            found.push(Left {
                entry,
                unsent,
                in_delta,
            })?;
        }
    }
    Ok(found)
}

/// A copy of `seen` with `dots` and, for each of these, a further dot of `name`, with the clocks that follow `clock`.
fn copy_with<A: Allocator + Copy>(
    seen: &DotSet<A>,
    dots: &[Dot],
    name: u16,
    clock: u64,
) -> Result<DotSet<A>, Oom>
    requires valid { All IsValid dots.now }
    requires name { name < most_names }
    requires fits { clock + length dots.now ≤ last_clock }
    ensures { IfOk result (λ copy. copy ≡ with_next name clock (length dots.now) (with_dots dots.now seen.now)) }
{
    let mut copy = seen.try_copy()?;
    see_each(&mut copy, dots)?;
    see_next(&mut copy, name, clock, dots.len())?;
    Ok(copy)
}

/// Inserts these dots. If memory is refused, some may be in.
fn see_each<A: Allocator>(seen: &mut DotSet<A>, dots: &[Dot]) -> Result<(), Oom>
    requires { All IsValid dots.now }
    ensures { OnOk result (seen.new ≡ with_dots dots.now seen.old) }
{
    for dot in dots {
        seen.insert(*dot)?;
    }
    Ok(())
}

/// Inserts the `count` dots of the name whose clocks follow `clock`. It takes no memory if the set has all dots of the
/// name up to `clock` and none above. If memory is refused, some may be in.
fn see_next<A: Allocator>(
    seen: &mut DotSet<A>,
    name: u16,
    clock: u64,
    count: usize,
) -> Result<(), Oom>
    requires name { name < most_names }
    requires fits { clock + count ≤ last_clock }
    ensures seen { OnOk result (seen.new ≡ with_next name clock count seen.old) }
    ensures succeeds { HasClocks name seen.old → clock ≡ count_of name seen.old → IsOk result }
{
    for done in 0..count {
        let dot = Dot {
            name,
            clock: clock + done as u64 + 1,
        };
        seen.insert(dot)?;
    }
    Ok(())
}

/// Takes the entries of `found` out of `entries`. It moves each `Left` whose entry was there into `lefts`, an empty
/// list with room for all of `found`, and returns `lefts`.
fn take_lefts<A: Allocator>(
    entries: &mut EntrySet<A>,
    found: Vec<Left<A>, A>,
    lefts: Vec<Left<A>, A>,
) -> Vec<Left<A>, A>
    requires empty { lefts.items ≡ [] }
    requires room { length found.items ≤ vec_capacity lefts }
    ensures entries { entries.new.map ≡ without_found found.items entries.old.map }
    ensures left { result.items ≡ still_there found.items entries.old.map }
{
    let mut lefts = lefts;
    for left in found {
        if entries.discard(left.entry.dot()) {
            lefts.push_reserved(left);
        }
    }
    lefts
}

/// Puts back into `entries` the entries that left, and into `delta_entries` those that the delta had. If memory is
/// refused, neither changes.
fn put_lefts_back<A: Allocator + Copy>(
    entries: &mut EntrySet<A>,
    delta_entries: &mut EntrySet<A>,
    lefts: &[Left<A>],
) -> Result<(), Oom>
    requires new { AreNew (pairs (entries_left lefts.now)) entries.old.map }
    requires new_in_delta { AreNew (pairs (unsent_left lefts.now)) delta_entries.old.map }
    ensures entries { OnOk result (entries.new.map ≡ with_each (pairs (entries_left lefts.now)) entries.old.map) }
    ensures delta_entries { OnOk result (delta_entries.new.map ≡ with_each (pairs (unsent_left lefts.now)) delta_entries.old.map) }
    ensures entries_stay { OnErr result (entries.new.map ≡ entries.old.map) }
    ensures delta_entries_stay { OnErr result (delta_entries.new.map ≡ delta_entries.old.map) }
{
    if let Err(failed) = put_lefts(entries, delta_entries, lefts) {
        discard_lefts(entries, delta_entries, lefts);
        return Err(failed);
    }
    Ok(())
}

/// A copy of `seen`, which has the delta's dots. It lacks the name's dots at the `lefts.len()` clocks after `clock`, and
/// the dot of each entry that had left, unless the delta had that dot before.
fn copy_without<A: Allocator + Copy>(
    seen: &DotSet<A>,
    name: u16,
    clock: u64,
    lefts: &[Left<A>],
) -> Result<DotSet<A>, Oom>
    requires valid { All (λ left. IsValid left.entry.dot) lefts.now }
    requires name { name < most_names }
    requires fits { clock + length lefts.now ≤ last_clock }
    ensures { IfOk result (λ copy. copy ≡ dots_before_each lefts.now (without_next name clock (length lefts.now) seen.now)) }
{
    let mut copy = seen.try_copy()?;
    unsee_next(&mut copy, name, clock, lefts.len())?;
    unsee_each(&mut copy, lefts)?;
    Ok(copy)
}

/// Removes from `seen`, the delta's dots, the dot of each entry that had left, unless the delta had that dot before. If
/// memory is refused, some may be out.
fn unsee_each<A: Allocator>(seen: &mut DotSet<A>, lefts: &[Left<A>]) -> Result<(), Oom>
    requires { All (λ left. IsValid left.entry.dot) lefts.now }
    ensures { OnOk result (seen.new ≡ dots_before_each lefts.now seen.old) }
{
    for left in lefts {
        unsee(seen, left)?;
    }
    Ok(())
}

/// Takes out the `count` dots of the name whose clocks follow `clock`, the last one first. It takes no memory if these
/// are the last dots of the name. If memory is refused, some may be out.
fn unsee_next<A: Allocator>(
    seen: &mut DotSet<A>,
    name: u16,
    clock: u64,
    count: usize,
) -> Result<(), Oom>
    requires name { name < most_names }
    requires fits { clock + count ≤ last_clock }
    ensures seen { OnOk result (seen.new ≡ without_next name clock count seen.old) }
    ensures succeeds { IsLast (dot name (clock + count)) seen.old → IsOk result }
{
    for done in 0..count {
        let dot = Dot {
            name,
            clock: clock + (count - done) as u64,
        };
        seen.remove(dot)?;
    }
    Ok(())
}

/// Inserts into `entries` further handles of the entries that left, and into `delta_entries` further handles of those
/// that the delta had. If memory is refused, some may be in.
fn put_lefts<A: Allocator + Copy>(
    entries: &mut EntrySet<A>,
    delta_entries: &mut EntrySet<A>,
    lefts: &[Left<A>],
) -> Result<(), Oom>
    requires new { AreNew (pairs (entries_left lefts.now)) entries.old.map }
    requires new_in_delta { AreNew (pairs (unsent_left lefts.now)) delta_entries.old.map }
    ensures entries { OnOk result (entries.new.map ≡ with_each (pairs (entries_left lefts.now)) entries.old.map) }
    ensures delta_entries { OnOk result (delta_entries.new.map ≡ with_each (pairs (unsent_left lefts.now)) delta_entries.old.map) }
    ensures back { OnErr result (without_each (dots_of_pairs (pairs (entries_left lefts.now))) entries.new.map ≡ entries.old.map) }
    ensures delta_back { OnErr result (without_each (dots_of_pairs (pairs (unsent_left lefts.now))) delta_entries.new.map ≡ delta_entries.old.map) }
{
    for left in lefts {
        put_shared(entries, &left.entry)?;
        put_back(delta_entries, &left.unsent)?;
    }
    Ok(())
}

/// Takes out of `entries` the entries that left, and out of `delta_entries` those that the delta had. It takes no
/// memory.
fn discard_lefts<A: Allocator>(
    entries: &mut EntrySet<A>,
    delta_entries: &mut EntrySet<A>,
    lefts: &[Left<A>],
)
    ensures entries { entries.new.map ≡ without_each (dots_of_pairs (pairs (entries_left lefts.now))) entries.old.map }
    ensures delta_entries { delta_entries.new.map ≡ without_each (dots_of_pairs (pairs (unsent_left lefts.now))) delta_entries.old.map }
{
    for left in lefts {
        entries.discard(left.entry.dot());
        take_back(delta_entries, &left.unsent);
    }
}
