//! The steps of a run with a change made to them, as marks, and an order of these marks.
ghost use Rattle.std.specs.Prelude.{◌≡◌, ◌≤◌, ◌<◌, ◌+◌, ◌++◌, ℕ, IfOk, OnOk, Some, length, map, option_map, slice_get};
ghost use Rattle.std.specs.List.{flat_map};
ghost use Rattle.order_core.specs.Orders.{order_of};
ghost use Rattle.change_core.specs.Changes.{changed};
ghost use Rattle.change_core.specs.Walks.{steps_in};
ghost use Rattle.change_core.specs.Marked.{changed_marks, mark_of, marks_in};

use crate::change::{Change, Kind};
use bench_core::Kept;
use dots_core::Oom;
use order_core::{Mark, order};
use std::alloc::Allocator;

type Marks<A> = Vec<Mark, A>;

pub(crate) type Places<A> = Vec<usize, A>;

/// What an order needs to know of the step `kept`, which stands at `place`.
fn mark_of<W: Allocator>(kept: &Kept<W>, place: usize) -> Mark
    ensures { result ≡ mark_of place kept.now }
{
    Mark {
        place,
        node: kept.node,
        delivers: kept.step.delivers(),
        sends: kept.step.sends(),
    }
}

/// Appends the marks of the steps at the places from `from` up to, but not including, `to`.
fn put_piece<W: Allocator, A: Allocator>(
    marks: &mut Marks<A>,
    steps: &[Kept<W>],
    from: usize,
    to: usize,
) -> Result<(), Oom>
    requires { to ≤ length steps.now }
    ensures { OnOk result (marks.new.items ≡ marks.old.items ++ marks_in steps.now (from, to)) }
{
    for place in from..to {
        marks.push(mark_of(&steps[place], place))?;
    }
    Ok(())
}

/// Appends the marks of the steps in these ranges of places, which don't include their ends.
fn put_pieces<W: Allocator, A: Allocator>(
    marks: &mut Marks<A>,
    steps: &[Kept<W>],
    pieces: &[(usize, usize)],
) -> Result<(), Oom>
    requires { (i : ℕ) (p : ℕ × ℕ) → slice_get pieces.now i ≡ Some p → p.1 ≤ length steps.now }
    ensures { OnOk result (marks.new.items ≡ marks.old.items ++ flat_map (marks_in steps.now) pieces.now) }
{
    for (from, to) in pieces {
        put_piece(marks, steps, *from, *to)?;
    }
    Ok(())
}

/// The marks of the steps with this change. Each node's marks stand in the order in which the node then takes its
/// steps. Both places of the change must be places of steps.
#[tactic(auto, unfolding(crate::specs::Marked::changed_marks))]
pub(crate) fn changed_marks<W: Allocator, A: Allocator>(
    steps: &[Kept<W>],
    change: Change,
    alloc: A,
) -> Result<Marks<A>, Oom>
    requires place { change.place < length steps.now }
    requires beside { change.beside < length steps.now }
    ensures { IfOk result (λ marks. marks.items ≡ changed_marks steps.now change) }
{
    let Change {
        kind,
        place,
        beside,
    } = change;
    let end = steps.len();
    let mut marks = Vec::new(alloc);
    match kind {
        Kind::Lost | Kind::Never => put_pieces(&mut marks, steps, &[(0, place), (place + 1, end)]),
        Kind::Before => put_pieces(
            &mut marks,
            steps,
            &[
                (0, beside),
                (place, place + 1),
                (beside, place),
                (place + 1, end),
            ],
        ),
        Kind::Behind => put_pieces(
            &mut marks,
            steps,
            &[
                (0, place),
                (place + 1, beside + 1),
                (place, place + 1),
                (beside + 1, end),
            ],
        ),
        Kind::Again => put_pieces(
            &mut marks,
            steps,
            &[(0, beside + 1), (place, place + 1), (beside + 1, end)],
        ),
    }?;
    Ok(marks)
}

/// The places of the marks, in the order of the marks.
fn places_of<A: Allocator>(marks: &[Mark], alloc: A) -> Result<Places<A>, Oom>
    ensures { IfOk result (λ places. places.items ≡ map (λ m. m.place) marks.now) }
{
    Ok(marks.iter().map(|mark| mark.place).collect(alloc)?)
}

/// The places of all steps: 0, 1, 2 and so on.
pub(crate) fn all_places<W: Allocator, A: Allocator>(
    steps: &[Kept<W>],
    alloc: A,
) -> Result<Places<A>, Oom>
    ensures { IfOk result (λ places. steps_in steps.now places.items ≡ steps.now) }
{
    let mut places = Vec::with_capacity(alloc, steps.len())?;
    for place in 0..steps.len() {
        places.push(place)?;
    }
    Ok(places)
}

/// The run with this change, as places of steps, in the order that `order` finds; `None` if each order delivers some
/// message before it is sent. Both places of the change must be places of steps.
pub(crate) fn places_with<W: Allocator, A: Allocator + Copy>(
    steps: &[Kept<W>],
    change: Change,
    alloc: A,
) -> Result<Option<Places<A>>, Oom>
    requires place { change.place < length steps.now }
    requires beside { change.beside < length steps.now }
    ensures { IfOk result (λ run. option_map (λ r. steps_in steps.now r.items) run ≡ order_of (changed steps.now change)) }
{
    let marks = changed_marks(steps, change, alloc)?;
    let found = order(alloc, marks.as_slice());
    // form: drop before exit
    drop(marks);
    let Some(run) = found? else {
        return Ok(None);
    };
    Ok(Some(places_of(run.as_slice(), alloc)?))
}
