//! `Slots`: the held steps by rising number. A step is taken out where it stands, and no other step moves.
ghost use Rattle.std.specs.Prelude.{◌≡◌, ◌≤◌, ◌++◌, ◌∷◌, [], ◌<◌, ◌+◌, false, None, Some, OnOk, option_copied, option_map, slice_get};
ghost use Rattle.std.specs.Prelude.{length, vec_len, vec_capacity};
ghost use Rattle.node_core.specs.Inverses.{plain_inverse};
ghost use Rattle.journal_core.specs.Numbers.{Rises};
ghost use Rattle.journal_core.specs.Holdings.{kepts, find_held, inverse_of, with_inverse, without_held};
ghost use Rattle.journal_core.specs.Slots.{steps_in, IsAboveAll, AreAligned, ends_empty, lent_in, count_in};

use crate::held::Held;
use crate::numbers::place;
use crate::steps::Steps;
use dots_core::Oom;
use node_core::Inverse;
use std::alloc::Allocator;
use std::marker::Model;

/// The held steps by rising number, each in a slot of its own. The slot of a step that is taken out stays empty; empty
/// slots at the end are removed.
///
/// A contract sees the steps, and for how many more there is room.
#[derive(Drop)]
pub(crate) struct Slots<'a, B: Allocator> {
    numbers: Vec<u64, &'a B>,
    slots: Vec<Option<Held<'a, B>>, &'a B>,
    /// How many of the slots have a step.
    count: usize,
}

impl<'a, B: Allocator> Model for Slots<'a, B> {
    ghost use Rattle.std.specs.Prelude.{◌≡◌, ◌-◌, length, min, vec_len, vec_capacity};
    ghost use Rattle.journal_core.specs.Numbers.{Rises};
    ghost use Rattle.journal_core.specs.Slots.{Slots, slots_code, steps_in, AreAligned};

    ghost Value = { Slots };

    ghost coded = { slots_code };

    ghost view = { λ s. record {
      steps = steps_in s.slots.items;
      room = min (vec_capacity s.numbers - vec_len s.numbers) (vec_capacity s.slots - vec_len s.slots);
    } };

    ghost invariant = { λ s. Rises s.numbers.items × AreAligned s.numbers.items s.slots.items × (s.count ≡ length (steps_in s.slots.items)) };
}

impl<'a, B: Allocator> Slots<'a, B> {
    pub(crate) fn new(alloc: &'a B) -> Slots<'a, B>
        ensures { result.steps ≡ [] }
    {
        Slots {
            numbers: Vec::new(alloc),
            slots: Vec::new(alloc),
            count: 0,
        }
    }

    /// How many steps the slots have; empty slots don't count.
    pub(crate) fn len(&self) -> usize
        ensures { result ≡ length self.now.steps }
    {
        self.count
    }

    /// The step at `place`, counted from 0; `None` past the last. It takes one read if no slot is empty, and a walk
    /// otherwise.
    pub(crate) fn at(&self, place: usize) -> Option<&Held<'a, B>>
        ensures { option_copied result ≡ slice_get self.now.steps place }
    {
        if self.count == self.slots.len() {
            slot_at(self.slots.as_slice(), place)
        } else {
            step_at(self.slots.as_slice(), place)
        }
    }

    /// A walk over the steps, in order.
    pub(crate) fn steps(&self) -> Steps<'_, 'a, B>
        ensures { result ≡ kepts self.now.steps }
    {
        Steps::of(self.slots.as_slice())
    }

    /// The step of this number; `None` if no step with the number remains.
    pub(crate) fn find(&self, number: u64) -> Option<&Held<'a, B>>
        ensures { option_copied result ≡ find_held self.now.steps number }
    {
        let Some(place) = place(&self.numbers, number) else {
            return None;
        };
        self.slots[place].as_ref()
    }

    /// Makes room for one more step.
    pub(crate) fn make_room(&mut self) -> Result<(), Oom>
        ensures steps { self.new.steps ≡ self.old.steps }
        ensures more { self.old.room ≤ self.new.room }
        ensures ok { OnOk result (0 < self.new.room) }
    {
        self.numbers.reserve(1)?;
        self.slots.reserve(1)
    }

    /// Appends a step for which there is room, and whose number is above all others.
    pub(crate) fn push(&mut self, held: Held<'a, B>)
        requires room { 0 < self.old.room }
        requires above { IsAboveAll held.kept.number self.old.steps }
        ensures { self.new.steps ≡ self.old.steps ++ held.entry ∷ [] }
    {
        // form: no slot at the end is empty; trimming again spares an invariant that says so
        trim(&mut self.numbers, &mut self.slots);
        self.numbers.push_reserved(held.number());
        self.slots.push_reserved(Some(held));
        self.count += 1;
    }

    /// Lends the inverse of the step of this number; `None` if the step doesn't remain or its inverse is lent already.
    pub(crate) fn lend(&mut self, number: u64) -> Option<Inverse<&'a B>>
        ensures value { option_map plain_inverse result ≡ inverse_of (find_held self.old.steps number) }
        ensures steps { self.new.steps ≡ with_inverse self.old.steps number None }
        ensures room { self.new.room ≡ self.old.room }
    {
        let Some(place) = place(&self.numbers, number) else {
            return None;
        };
        lend_in(&mut self.slots[place])
    }

    /// Puts an inverse beside the step of this number. If no such step remains, the inverse is dropped.
    pub(crate) fn put_back(&mut self, number: u64, inverse: Inverse<&'a B>)
        ensures steps { self.new.steps ≡ with_inverse self.old.steps number (Some (plain_inverse inverse.entry)) }
        ensures room { self.new.room ≡ self.old.room }
    {
        let Some(place) = place(&self.numbers, number) else {
            return;
        };
        put_in(&mut self.slots[place], inverse);
    }

    /// Takes the step of this number out of its slot, if the step remains. No other step moves.
    pub(crate) fn take_out(&mut self, number: u64)
        ensures steps { self.new.steps ≡ without_held self.old.steps number }
        ensures room { self.old.room ≤ self.new.room }
    {
        let Some(place) = place(&self.numbers, number) else {
            return;
        };
        self.count -= take_from(&mut self.slots[place]);
        trim(&mut self.numbers, &mut self.slots);
    }
}

/// Lends the inverse of the step in the slot; `None` if the slot is empty or the inverse is lent already.
fn lend_in<'a, B: Allocator>(slot: &mut Option<Held<'a, B>>) -> Option<Inverse<&'a B>>
    ensures value { option_map plain_inverse result ≡ inverse_of slot.old }
    ensures after { slot.new ≡ lent_in None slot.old }
{
    match slot {
        Some(held) => held.lend(),
        None => None,
    }
}

/// Puts the inverse beside the step in the slot; if the slot is empty, the inverse is dropped.
fn put_in<'a, B: Allocator>(slot: &mut Option<Held<'a, B>>, inverse: Inverse<&'a B>)
    ensures { slot.new ≡ lent_in (Some (plain_inverse inverse.entry)) slot.old }
{
    if let Some(held) = slot {
        held.put_back(inverse);
    }
}

/// Empties the slot, and says how many steps it had, 0 or 1.
fn take_from<'a, B: Allocator>(slot: &mut Option<Held<'a, B>>) -> usize
    ensures count { result ≡ count_in slot.old }
    ensures after { slot.new ≡ None }
{
    let taken = slot.take();
    let count = usize::from(taken.is_some());
    // form: drop before exit
    drop(taken);
    count
}

/// The step in the slot at `place`, counted from 0, where no slot is empty; `None` past the end.
fn slot_at<'x, 'a, B: Allocator>(
    slots: &'x [Option<Held<'a, B>>],
    place: usize,
) -> Option<&'x Held<'a, B>>
    requires { length (steps_in slots.now) ≡ length slots.now }
    ensures { option_copied result ≡ slice_get (steps_in slots.now) place }
{
    if place < slots.len() {
        slots[place].as_ref()
    } else {
        None
    }
}

/// The step at `place`, counted from 0, of those in the slots; `None` past the last.
fn step_at<'x, 'a, B: Allocator>(
    slots: &'x [Option<Held<'a, B>>],
    place: usize,
) -> Option<&'x Held<'a, B>>
    ensures { option_copied result ≡ slice_get (steps_in slots.now) place }
{
    // form: a count by hand, for the proof
    let mut left = place;
    for slot in slots {
        if let Some(held) = slot {
            if left == 0 {
                return Some(held);
            }
            left -= 1;
        }
    }
    None
}

/// Whether the last slot is empty; `false` if there is no slot.
fn is_last_empty<'a, B: Allocator>(slots: &[Option<Held<'a, B>>]) -> bool
    ensures { result ≡ ends_empty slots.now }
{
    match slots.last() {
        Some(slot) => slot.is_none(),
        None => false,
    }
}

/// Removes the empty slots at the end, with their numbers.
fn trim<'a, B: Allocator>(
    numbers: &mut Vec<u64, &'a B>,
    slots: &mut Vec<Option<Held<'a, B>>, &'a B>,
)
    requires rises { Rises numbers.old.items }
    requires aligned { AreAligned numbers.old.items slots.old.items }
    ensures rises { Rises numbers.new.items }
    ensures aligned { AreAligned numbers.new.items slots.new.items }
    ensures steps { steps_in slots.new.items ≡ steps_in slots.old.items }
    ensures last { ends_empty slots.new.items ≡ false }
    ensures numbers_room { vec_len numbers.new ≤ vec_len numbers.old }
    ensures numbers_capacity { vec_capacity numbers.new ≡ vec_capacity numbers.old }
    ensures slots_room { vec_len slots.new ≤ vec_len slots.old }
    ensures slots_capacity { vec_capacity slots.new ≡ vec_capacity slots.old }
{
    while is_last_empty(slots.as_slice()) {
        drop(slots.pop());
        numbers.pop();
    }
}
