//! A delivery of a message to a store, and taking it back.
ghost use Rattle.std.specs.Prelude.{◌≡◌, ◌↔◌, ◌<◌, false, IfErr, IfOk, IsTrue, OnErr, OnOk};
ghost use Rattle.std.specs.FinMap as fin;
ghost use Rattle.std.specs.FinSet as set;
ghost use Rattle.dots_core.specs.Dots.{of_names};
ghost use Rattle.dots_core.specs.Names.{most_names};
ghost use Rattle.store_core.specs.Delivered.{AreOldParts, Changes, Destroys, with_parts};
ghost use Rattle.store_core.specs.DeltaStores.{CanBeUndelivered, with_undelivered};
ghost use Rattle.entry_core.specs.EntryLists.{pairs};
ghost use Rattle.store_core.specs.EntryMoves.{AreNew, dots_of_pairs, with_each};
ghost use Rattle.store_core.specs.Stores.{arrivals, departures, merged, store_of};

use crate::delta_store::DeltaStore;
use crate::entry_moves::{discard_each, handles_of, put_each, take_out_each};
use dots_core::{Dot, DotSet, NameSet, Oom, Part};
use entry_core::Handle;
use payload_core::{EntrySet, Payload};
use std::alloc::Allocator;
use std::marker::Model;

/// The context clock and cloud that a name had before a delivery.
#[derive(Drop)]
pub struct OldPart<A: Allocator> {
    pub name: u16,
    pub part: Part<A>,
}

impl<A: Allocator> Model for OldPart<A> {
    ghost use Rattle.std.specs.Prelude.{◌<◌};
    ghost use Rattle.dots_core.specs.Names.{most_names};
    ghost use Rattle.store_core.specs.Delivered.{OldPart};

    ghost Value = { OldPart };

    ghost view = { λ p. record { name = p.name; part = p.part } };

    ghost invariant = { λ p. p.name < most_names };
}

/// What is kept of a delivery to a store, to take it back: the dots whose entries joined, the entries that left, and
/// the old parts of the names whose dots changed. No dot both joined and left.
#[derive(Drop)]
pub struct Delivered<A: Allocator> {
    pub joined: Vec<Dot, A>,
    pub left: Vec<Handle<A>, A>,
    pub parts: Vec<OldPart<A>, A>,
}

impl<A: Allocator> Model for Delivered<A> {
    ghost use Rattle.store_core.specs.Delivered.{AreApart, Delivered};

    ghost Value = { Delivered };

    ghost view = { λ d. record { joined = d.joined.items; left = d.left.items; parts = d.parts.items } };

    ghost invariant = { λ d. AreApart d.joined.items d.left.items };
}

impl<A: Allocator + Copy> DeltaStore<A> {
    /// Handles of the message's entries that join, by rising dot: the entries of `names` at dots that the store hasn't
    /// seen.
    pub fn joining(&self, message: &Payload<A>, names: NameSet) -> Result<Vec<Handle<A>, A>, Oom>
        ensures { IfOk result (λ joining. pairs joining.items ≡ fin.entries (arrivals (set.contains names) (store_of message.now) self.now.store)) }
    {
        message.entries().joining(&self.seen, names)
    }

    /// The dots of the store's entries that leave, rising. Each dot has one of `names`, and the message has the dot
    /// without an entry.
    pub fn leaving(&self, message: &Payload<A>, names: NameSet) -> Result<Vec<Dot, A>, Oom>
        ensures { IfOk result (λ leaving. leaving.items ≡ fin.keys (departures (set.contains names) (store_of message.now) self.now.store)) }
    {
        self.entries
            .leaving(message.entries(), message.seen(), names)
    }

    /// Merges what the message has of these names: puts in `joining`, adds the message's dots of these names to the
    /// seen ones, and takes out the entries at `leaving`. `joining` and `leaving` are what the methods `joining` and
    /// `leaving` answered for the same message and names. The delta stays. What was destroyed is returned, for
    /// `undeliver`. An `Err` changes nothing.
    pub fn merge(
        &mut self,
        message: &Payload<A>,
        names: NameSet,
        joining: Vec<Handle<A>, A>,
        leaving: &[Dot],
    ) -> Result<Box<Delivered<A>, A>, Oom>
        requires others { set.contains names self.old.own ≡ false }
        requires joining { pairs joining.items ≡ fin.entries (arrivals (set.contains names) (store_of message.now) self.old.store) }
        requires leaving { leaving.now ≡ fin.keys (departures (set.contains names) (store_of message.now) self.old.store) }
        ensures merged { OnOk result (self.new ≡ record self.old { store = merged (set.contains names) (store_of message.now) self.old.store }) }
        ensures destroyed { IfOk result (λ delivered. Destroys (set.contains names) (store_of message.now) self.old.store delivered.value) }
        ensures can_be_undelivered { IfOk result (λ delivered. CanBeUndelivered delivered.value self.new) }
        ensures back { IfOk result (λ delivered. with_undelivered delivered.value self.new ≡ self.old) }
        ensures err { OnErr result (self.new ≡ self.old) }
    {
        let alloc = self.entries.allocator();
        let seen = message.seen();
        // form: the proof reads that their dots are seen
        let _ = message.entries();
        // form: hands out what the set keeps
        seen.valid_law();
        let joined = dots_of(&joining, alloc)?;
        let parts = old_parts(&self.seen, seen, names, alloc)?;
        let left = handles_of(&self.entries, leaving, alloc)?;
        let delivered = Box::new(
            alloc,
            Delivered {
                joined,
                left,
                parts,
            },
        )?;
        put_joining(&mut self.entries, &mut self.seen, &joining, seen, names)?;
        take_out_each(&mut self.entries, leaving);
        Ok(delivered)
    }

    /// Takes a delivery back: the entries that joined go, those that left come back, and the seen dots are those from
    /// before the delivery. If memory is refused, `delivered` comes back, and nothing changes.
    pub fn undeliver(
        &mut self,
        delivered: Box<Delivered<A>, A>,
    ) -> Result<(), (Box<Delivered<A>, A>, Oom)>
        requires { CanBeUndelivered delivered.value self.old }
        ensures ok { OnOk result (self.new ≡ with_undelivered delivered.value self.old) }
        ensures err { OnErr result (self.new ≡ self.old) }
        ensures given_back { IfErr result (λ failed. failed.0 ≡ delivered) }
    {
        if let Err(failed) = put_each(&mut self.entries, &delivered.left) {
            return Err((delivered, failed));
        }
        take_out_each(&mut self.entries, &delivered.joined);
        set_parts(&mut self.seen, Box::into_inner(delivered).parts);
        Ok(())
    }
}

/// The dots of these entries, in the order of the entries.
fn dots_of<A: Allocator + Copy>(entries: &[Handle<A>], alloc: A) -> Result<Vec<Dot, A>, Oom>
    ensures { IfOk result (λ dots. dots.items ≡ dots_of_pairs (pairs entries.now)) }
{
    let mut dots = Vec::with_capacity(alloc, entries.len())?;
    for entry in entries {
        dots.push(entry.dot())?;
    }
    Ok(dots)
}

/// The parts in `seen` of those `names` whose dots a union with `other` would change, by rising name.
fn old_parts<A: Allocator + Copy>(
    seen: &DotSet<A>,
    other: &DotSet<A>,
    names: NameSet,
    alloc: A,
) -> Result<Vec<OldPart<A>, A>, Oom>
    ensures parts { IfOk result (λ parts. AreOldParts (set.contains names) other.now seen.now parts.items) }
    ensures whole { IfOk result (λ parts. with_parts parts.items (set.union seen.now (of_names (set.contains names) other.now)) ≡ seen.now) }
{
    // form: hands out what the set keeps
    names.names_law();
    let mut parts = Vec::new(alloc);
    for name in 0..32u16 {
        if changes(seen, other, names, name) {
            let part = seen.part_of(name)?;
            parts.push(OldPart { name, part })?;
        }
    }
    Ok(parts)
}

/// Whether the name is one of `names`, and `other` has a dot of it that `seen` doesn't have.
fn changes<A: Allocator>(seen: &DotSet<A>, other: &DotSet<A>, names: NameSet, name: u16) -> bool
    requires { name < most_names }
    ensures { IsTrue result ↔ Changes (set.contains names) other.now seen.now name }
{
    names.has(name) && !seen.has_all_of(other, name)
}

/// Inserts a further handle of each entry in `joining` into `entries`, and the dots of `other` that have one of `names`
/// into `seen`. If memory is refused, neither changes.
fn put_joining<A: Allocator + Copy>(
    entries: &mut EntrySet<A>,
    seen: &mut DotSet<A>,
    joining: &[Handle<A>],
    other: &DotSet<A>,
    names: NameSet,
) -> Result<(), Oom>
    requires { AreNew (pairs joining.now) entries.old.map }
    ensures entries { OnOk result (entries.new.map ≡ with_each (pairs joining.now) entries.old.map) }
    ensures seen { OnOk result (seen.new ≡ set.union seen.old (of_names (set.contains names) other.now)) }
    ensures entries_stay { OnErr result (entries.new.map ≡ entries.old.map) }
    ensures seen_stay { OnErr result (seen.new ≡ seen.old) }
{
    put_each(entries, joining)?;
    if let Err(failed) = seen.union_named(other, names) {
        discard_each(entries, joining);
        return Err(failed);
    }
    Ok(())
}

/// Replaces the dots of each name in `parts` by the dots of the name's part.
fn set_parts<A: Allocator>(seen: &mut DotSet<A>, parts: Vec<OldPart<A>, A>)
    ensures { seen.new ≡ with_parts parts.items seen.old }
{
    for old in parts {
        let OldPart { name, part } = old;
        seen.set_part(name, part);
    }
}
