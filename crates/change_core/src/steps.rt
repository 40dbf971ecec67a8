//! Copies of a run's steps: of all that remain, or of those at given places.
ghost use Rattle.std.specs.Prelude.{◌≡◌, ◌++◌, [], IfOk, OnOk, slice_get};
ghost use Rattle.journal_core.specs.Holdings.{kepts};
ghost use Rattle.change_core.specs.Marked.{steps_at, with_step};

use bench_core::{Journal, Kept};
use dots_core::Oom;
use order_core::Mark;
use std::alloc::Allocator;

/// Steps of a run, with their nodes and numbers.
pub type Steps<A> = Vec<Kept<A>, A>;

/// A copy of a step, with its number and node.
fn copy_of<A: Allocator + Copy>(kept: &Kept<A>) -> Result<Kept<A>, Oom>
    ensures { IfOk result (λ copy. copy ≡ kept.now) }
{
    Ok(Kept {
        number: kept.number,
        node: kept.node,
        step: kept.step.try_copy()?,
    })
}

/// Copies of the steps that remain, by rising number.
pub fn copied<'a, B: Allocator>(journal: &Journal<'a, B>, alloc: &'a B) -> Result<Steps<&'a B>, Oom>
    ensures { IfOk result (λ copies. copies.items ≡ kepts journal.now.steps) }
{
    let mut copies = Vec::with_capacity(alloc, journal.len())?;
    let mut steps = journal.steps();
    while let Some(kept) = steps.next() {
        copies.push(copy_of(kept)?)?;
    }
    Ok(copies)
}

/// Appends a copy of the step at `place`, if there is one.
fn put_copy<A: Allocator + Copy>(
    copies: &mut Steps<A>,
    steps: &[Kept<A>],
    place: usize,
) -> Result<(), Oom>
    ensures { OnOk result (copies.new.items ≡ copies.old.items ++ with_step (slice_get steps.now place) []) }
{
    match steps.get(place) {
        Some(kept) => Ok(copies.push(copy_of(kept)?)?),
        None => Ok(()),
    }
}

/// Copies of the steps at the places of these marks, in the order of the marks. Passes over a place without a step.
pub(crate) fn copied_at<A: Allocator + Copy>(
    steps: &[Kept<A>],
    marks: &[Mark],
    alloc: A,
) -> Result<Steps<A>, Oom>
    ensures { IfOk result (λ copies. copies.items ≡ steps_at steps.now marks.now) }
{
    let mut copies = Vec::new(alloc);
    for place in 0..marks.len() {
        put_copy(&mut copies, steps, marks[place].place)?;
    }
    Ok(copies)
}
