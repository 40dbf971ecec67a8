//! `Steps`: a walk over the steps that remain.
ghost use Rattle.std.specs.Prelude.{◌≡◌};
ghost use Rattle.std.specs.Iterator.{YieldsFirstRef};
ghost use Rattle.std.specs.Slice.Iter.{iter_rest};
ghost use Rattle.journal_core.specs.Holdings.{kepts};
ghost use Rattle.journal_core.specs.Slots.{steps_in};

use crate::held::Held;
use crate::kept::Kept;
use std::alloc::Allocator;
use std::marker::Model;
use std::slice;

/// A walk over the steps that remain, in order. A contract sees those that are still to come.
#[derive(Drop)]
pub struct Steps<'x, 'a, B: Allocator> {
    slots: slice::Iter<'x, Option<Held<'a, B>>>,
}

impl<'x, 'a, B: Allocator> Model for Steps<'x, 'a, B> {
    ghost use Rattle.std.specs.Prelude.{List};
    ghost use Rattle.std.specs.Coded.{coded_list};
    ghost use Rattle.std.specs.Slice.Iter.{iter_rest};
    ghost use Rattle.journal_core.specs.Journals.{Kept, kept_code};
    ghost use Rattle.journal_core.specs.Holdings.{kepts};
    ghost use Rattle.journal_core.specs.Slots.{steps_in};

    ghost Value = { List Kept };

    ghost coded = { coded_list kept_code };

    ghost view = { λ s. kepts (steps_in (iter_rest s.slots)) };
}

impl<'x, 'a, B: Allocator> Steps<'x, 'a, B> {
    /// A walk over the steps in these slots.
    pub(crate) fn of(slots: &'x [Option<Held<'a, B>>]) -> Steps<'x, 'a, B>
        ensures { result ≡ kepts (steps_in slots.now) }
    {
        Steps {
            slots: slots.iter(),
        }
    }
}

impl<'x, 'a, B: Allocator> Iterator for Steps<'x, 'a, B> {
    ghost use Rattle.std.specs.Iterator.{YieldsFirstRef, item_count};

    type Item = &'x Kept<&'a B>;

    ghost next_gives = { YieldsFirstRef (λ steps. steps) };

    ghost remaining = { item_count (λ steps. steps) };

    fn next(&mut self) -> Option<&'x Kept<&'a B>> {
        let held = next_step(&mut self.slots)?;
        Some(held.kept())
    }

    fn size_hint(&self) -> (usize, Option<usize>) {
        (0, Some(self.slots.len()))
    }
}

/// The next step in the slots; `None` at the end. Empty slots are passed over.
fn next_step<'x, 'a, B: Allocator>(
    slots: &mut slice::Iter<'x, Option<Held<'a, B>>>,
) -> Option<&'x Held<'a, B>>
    ensures { YieldsFirstRef (λ it. steps_in (iter_rest it)) slots.old result slots.new }
{
    while let Some(slot) = slots.next() {
        if let Some(held) = slot {
            return Some(held);
        }
    }
    None
}
