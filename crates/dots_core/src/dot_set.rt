//! A finite set of dots, kept as a context clock and a cloud for each name.

ghost use Rattle.std.specs.Prelude.{◌≡◌, ◌≢◌, ℕ, ◌↔◌, ◌^◌, ◌<◌, ◌≤◌, ◌==◌, ◌&&◌, not, IsOk, IsTrue, IfOk, OnOk, OnErr, false, true};
ghost use Rattle.std.specs.FinSet as set;
ghost use Rattle.dots_core.specs.ClockBits.{AreBitsOf};
ghost use Rattle.dots_core.specs.Dots.{IsFirstDot, IsValid, AreValid, of_names};
ghost use Rattle.dots_core.specs.Contexts.{HasAllOf, IsContext, IsNext, IsLast, IsCloudOf, IsPartOf, others, with_part};
ghost use Rattle.dots_core.specs.Clocks.{holds, no_clocks};
ghost use Rattle.dots_core.specs.Parts.{AreParts, part_at};
ghost use Rattle.dots_core.specs.Unions.{HaveNone, IsUnionFrom};
ghost use Rattle.dots_core.specs.Names.{most_names};

use crate::Oom;
use crate::dot::{Dot, MOST_NAMES};
use crate::name_set::NameSet;
use crate::part::Part;
use crate::union::grown;
use std::alloc::{Allocator, Global};
use std::marker::Model;
use std::mem;

/// A finite set of dots. It holds a `Part` for each of the 32 names in place, and asks for memory only for clouds, so
/// an empty set takes none. The value is large, some 1,300 bytes if its allocator is a reference: avoid moving it.
#[derive(Drop)]
pub struct DotSet<A: Allocator = Global> {
    parts: [Part<A>; 32],
}

impl<A: Allocator> Model for DotSet<A> {
    ghost use Rattle.std.specs.FinSet as set;
    ghost use Rattle.dots_core.specs.Dots.{Dots, dot_code};
    ghost use Rattle.dots_core.specs.Parts.{dots_of_parts, AreParts};

    ghost Value = { Dots };

    ghost coded = { set.code dot_code };

    ghost view = { λ s. dots_of_parts s.parts };

    ghost invariant = { λ s. AreParts s.parts };
}

impl<A: Allocator> DotSet<A> {
    /// The empty set. It takes no memory.
    pub fn new(alloc: A) -> DotSet<A>
    where
        A: Copy,
        ensures { result ≡ set.empty }
    {
        DotSet {
            parts: std::array::from_fn(
                |_| -> Part<A>
                    ensures { result ≡ no_clocks }
                { Part::empty(alloc) },
            ),
        }
    }

    /// Whether the dot is in the set; a dot with a name from 32 on never is. Up to the context clock of its name this
    /// takes one comparison, and above it a binary search in the cloud.
    pub fn contains(&self, dot: Dot) -> bool
        ensures { result ≡ set.contains self.now dot }
    {
        match self.parts.get(usize::from(dot.name)) {
            Some(part) => part.has(dot.clock),
            None => false,
        }
    }

    /// Which of the name's 64 dots with the clocks from `base * 64` on are in the set, as bits: bit `k` is that of
    /// clock `base * 64 + k`. A name from 32 on has no bits. It takes a few shifts for the context clock, one binary
    /// search in the cloud, and a look at each clock of the cloud among the 64.
    pub fn bits_of(&self, name: u16, base: u64) -> u64
        requires { base < 2 ^ 58 }
        ensures { AreBitsOf name base result self.now }
    {
        match self.parts.get(usize::from(name)) {
            Some(part) => part.bits(base),
            None => 0,
        }
    }

    /// The context clock of the name: 0 if the set lacks the name's dot with the clock 1.
    pub fn clock_of(&self, name: u16) -> u64
        requires { name < most_names }
        ensures { IsContext self.now name result }
    {
        let part = &self.parts[usize::from(name)];
        part.clock
    }

    /// The cloud of the name: its clocks above the context clock, rising.
    pub fn cloud_of(&self, name: u16) -> &[u64]
        requires { name < most_names }
        ensures { IsCloudOf self.now name result.now }
    {
        let part = &self.parts[usize::from(name)];
        &part.cloud
    }

    /// Whether the set has no dot.
    pub fn is_empty(&self) -> bool
        ensures { IsTrue result ↔ (self.now ≡ set.empty) }
    {
        // form: a loop over the names, for the proof
        for name in 0..usize::from(MOST_NAMES) {
            if !self.parts[name].is_empty() {
                return false;
            }
        }
        true
    }

    /// Whether the two sets have the same dots, and so the same context clocks and clouds. It takes no memory.
    pub fn same(&self, other: &DotSet<A>) -> bool
        ensures { IsTrue result ↔ (self.now ≡ other.now) }
    {
        // form: a loop over the names, for the proof
        for name in 0..usize::from(MOST_NAMES) {
            if !self.parts[name].same(&other.parts[name]) {
                return false;
            }
        }
        true
    }

    /// Whether the set has each dot of `name` that `other` has. Each clock in the cloud of `other` above this set's
    /// context clock takes a binary search.
    pub fn has_all_of<'call>(&'call self, other: &'call DotSet<A>, name: u16) -> bool
        requires { name < most_names }
        ensures { IsTrue result ↔ HasAllOf name self.now other.now }
    {
        let at = usize::from(name);
        self.parts[at].has_all_of(&other.parts[at])
    }

    /// The first dot of the set that has one of `names` and isn't below `dot`; `None` if there is none. A binary search
    /// finds it among the dots of `dot.name`; if none of these qualifies, it is the first dot of the next name in
    /// `names` that has a dot.
    pub fn first_from(&self, names: NameSet, dot: Dot) -> Option<Dot>
        ensures { IsFirstDot (set.contains names) self.now dot result }
    {
        for name in dot.name.min(MOST_NAMES)..MOST_NAMES {
            if names.has(name) {
                let part = &self.parts[usize::from(name)];
                if let Some(clock) = part.first_from(clock_from(dot, name)) {
                    return Some(Dot { name, clock });
                }
            }
        }
        None
    }

    /// Inserts the dot, and says whether it is new. The dot after the context clock moves that clock on, past the
    /// clocks of the cloud that follow it without a gap; any other new dot goes into the cloud. Only the cloud may take
    /// memory.
    pub fn insert(&mut self, dot: Dot) -> Result<bool, Oom>
        requires { IsValid dot }
        ensures ok { OnOk result (self.new ≡ set.insert self.old dot) }
        ensures new { IfOk result (λ is_new. is_new ≡ not (set.contains self.old dot)) }
        ensures next { IsNext dot self.old → IsOk result }
        ensures err { OnErr result (self.new ≡ self.old) }
    {
        self.parts[usize::from(dot.name)].insert(dot.clock)
    }

    /// Takes out the dot, and says whether it was there. If the context clock covered the dot, the clocks above it, up
    /// to the context clock, go into the cloud, which may take memory. Taking out the greatest dot of a name takes
    /// none.
    pub fn remove(&mut self, dot: Dot) -> Result<bool, Oom>
        requires { IsValid dot }
        ensures ok { OnOk result (self.new ≡ set.remove self.old dot) }
        ensures was { IfOk result (λ was_there. was_there ≡ set.contains self.old dot) }
        ensures last { IsLast dot self.old → IsOk result }
        ensures err { OnErr result (self.new ≡ self.old) }
    {
        self.parts[usize::from(dot.name)].remove(dot.clock)
    }

    /// Adds the dots of `other` whose names are in `known` and aren't `own`, in time linear in the parts of these
    /// names. A name without a new dot takes no memory.
    pub fn union_known(&mut self, other: &DotSet<A>, known: NameSet, own: u16) -> Result<(), Oom>
    where
        A: Copy,
        requires { own < most_names }
        ensures ok { OnOk result (self.new ≡ set.union self.old (of_names (λ n. set.contains known n && not (n == own)) other.now)) }
        ensures err { OnErr result (self.new ≡ self.old) }
    {
        union_from(&mut self.parts, &other.parts, known.without(own), 0)
    }

    /// Adds the dots of `other` whose names are in `names`, in time linear in the parts of these names. A name without
    /// a new dot takes no memory.
    pub fn union_named(&mut self, other: &DotSet<A>, names: NameSet) -> Result<(), Oom>
    where
        A: Copy,
        ensures ok { OnOk result (self.new ≡ set.union self.old (of_names (set.contains names) other.now)) }
        ensures err { OnErr result (self.new ≡ self.old) }
    {
        union_from(&mut self.parts, &other.parts, names, 0)
    }

    /// A copy of the set with the dots of these names alone.
    pub fn only(&self, names: NameSet) -> Result<DotSet<A>, Oom>
    where
        A: Copy,
        ensures { IfOk result (λ chosen. chosen ≡ of_names (set.contains names) self.now) }
    {
        let mut chosen = DotSet::new(self.allocator());
        for name in 0..32u16 {
            if names.has(name) {
                let at = usize::from(name);
                chosen.parts[at] = self.parts[at].try_copy()?;
            }
        }
        Ok(chosen)
    }

    /// A copy of the set. The clouds alone take memory.
    pub fn try_copy(&self) -> Result<DotSet<A>, Oom>
    where
        A: Copy,
        ensures { IfOk result (λ copy. copy ≡ self.now) }
    {
        // form: the proof reads that no name is past the last
        let _ = &self.parts;
        self.only(NameSet::all())
    }

    /// A copy of the name's context clock and cloud.
    pub fn part_of(&self, name: u16) -> Result<Part<A>, Oom>
    where
        A: Copy,
        requires { name < most_names }
        ensures part { IfOk result (IsPartOf self.now name) }
        ensures whole { IfOk result (λ part. with_part name part self.now ≡ self.now) }
    {
        self.parts[usize::from(name)].try_copy()
    }

    /// Takes out the name's dots, and returns the name's context clock and cloud from before.
    pub fn drop_name(&mut self, name: u16) -> Part<A>
    where
        A: Copy,
        requires { name < most_names }
        ensures part { IsPartOf self.old name result }
        ensures rest { self.new ≡ others name self.old }
        ensures whole { with_part name result self.new ≡ self.old }
    {
        let alloc = self.allocator();
        mem::replace(&mut self.parts[usize::from(name)], Part::empty(alloc))
    }

    /// Replaces the name's context clock and cloud by `part`. If `part_of` or `drop_name` gave `part` for this name,
    /// `laws::part_law` says that the name's dots are again what they were then.
    pub fn set_part(&mut self, name: u16, part: Part<A>)
        requires { name < most_names }
        ensures part { IsPartOf self.new name part }
        ensures rest { others name self.new ≡ others name self.old }
        ensures whole { self.new ≡ with_part name part self.old }
    {
        // form: the proof reads that the part is canonical
        let _ = &part.clock;
        self.parts[usize::from(name)] = part;
    }

    /// Does nothing. Its contract says that each dot of the set is ok, as `remove` requires of a dot that was found.
    pub fn valid_law(&self)
        ensures { AreValid self.now }
    {
        // form: the proof reads the field here
        let _ = &self.parts;
    }

    fn allocator(&self) -> A
    where
        A: Copy,
    {
        let part = &self.parts[0];
        *part.cloud.allocator()
    }
}

/// The least clock with which a dot of `name` is not below `dot`: the clock of `dot` if `name` is the name of `dot`,
/// and 0 if `name` is a later name. No caller passes an earlier name.
fn clock_from(dot: Dot, name: u16) -> u64
    ensures own { name ≡ dot.name → result ≡ dot.clock }
    ensures later { dot.name < name → result ≡ 0 }
{
    if name == dot.name { dot.clock } else { 0 }
}

/// Whether the name is in `names` and its part has a clock.
fn has_some<A: Allocator>(parts: &[Part<A>], names: NameSet, name: u16) -> bool
    requires parts { AreParts parts.now }
    requires name { name < most_names }
    ensures named { IsTrue result → set.contains names name ≡ true }
    ensures some { IsTrue result → part_at parts.now name ≢ no_clocks }
    ensures no { IsTrue (not result) → (k : ℕ) → (set.contains names name && holds (part_at parts.now name) k) ≡ false }
{
    names.has(name) && !parts[usize::from(name)].is_empty()
}

/// The first of `names` from `name` on whose part has a clock; 32 if there is none.
fn next_with_some<A: Allocator>(parts: &[Part<A>], names: NameSet, name: u16) -> u16
    requires parts { AreParts parts.now }
    requires name { name ≤ most_names }
    ensures from { name ≤ result }
    ensures most { result ≤ most_names }
    ensures named { result < most_names → set.contains names result ≡ true }
    ensures some { result < most_names → part_at parts.now result ≢ no_clocks }
    ensures between { HaveNone names parts.now name result }
{
    for next in name..MOST_NAMES {
        if has_some(parts, names, next) {
            return next;
        }
    }
    MOST_NAMES
}

/// Adds the parts of `others` to `parts`, for each of `names` from `name` on, and passes over names without a clock in
/// `others`. If memory is refused, `parts` stays. On the way down the recursion makes each union, which may be refused
/// memory; on the way back, when nothing can be refused any more, the recursion puts each union in its place.
fn union_from<A: Allocator + Copy>(
    parts: &mut [Part<A>],
    others: &[Part<A>],
    names: NameSet,
    name: u16,
) -> Result<(), Oom>
    requires own { AreParts parts.old }
    requires other { AreParts others.now }
    requires name { name ≤ most_names }
    ensures parts { AreParts parts.new }
    ensures ok { OnOk result (IsUnionFrom names name parts.old others.now parts.new) }
    ensures err { OnErr result (parts.new ≡ parts.old) }
{
    let next = next_with_some(others, names, name);
    if next == MOST_NAMES {
        return Ok(());
    }
    let at = usize::from(next);
    let new = grown(&parts[at], &others[at])?;
    union_from(parts, others, names, next + 1)?;
    if let Some(part) = new {
        parts[at] = part;
        // form: the part has moved into its place, so this case returns by itself
        return Ok(());
    }
    Ok(())
}
