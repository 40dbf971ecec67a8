//! All changes that can be made to a run.
ghost use Rattle.std.specs.Prelude.{◌≡◌, ◌<◌, ◌+◌, ◌++◌, IfOk, OnOk, length};
ghost use Rattle.change_core.specs.Changes.{change_at, changes, changes_by, changes_of, if_change, reach};

use bench_core::Kept;
use change_core::{Change, Kind, is_change};
use dots_core::Oom;
use std::alloc::Allocator;

type Changes<A> = Vec<Change, A>;

/// How many distances from `place` to try for a change of this kind in a run of `count` steps: back to the first step
/// for `Before`, on to the last step for the other kinds. Distance 0 is the step's own place.
fn reach(count: usize, kind: Kind, place: usize) -> usize
    requires { place < count }
    ensures { result ≡ reach count kind place }
{
    match kind {
        Kind::Before => place + 1,
        _ => count - place,
    }
}

/// The change of this kind of the step at `place`. Its `beside` is the place at this distance, which must be below
/// `reach`: back from `place` for `Before`, and on from it for the other kinds.
fn change_at(count: usize, kind: Kind, place: usize, distance: usize) -> Change
    requires place { place < count }
    requires distance { distance < reach count kind place }
    ensures { result ≡ change_at kind place distance }
{
    // form: the parameter `count` is for the contract alone
    let beside = match kind {
        Kind::Before => place - distance,
        _ => place + distance,
    };
    Change {
        kind,
        place,
        beside,
    }
}

/// Appends the change, if it can be made to the run of these steps.
fn put_if<W: Allocator, A: Allocator>(
    found: &mut Changes<A>,
    steps: &[Kept<W>],
    change: Change,
) -> Result<(), Oom>
    ensures { OnOk result (found.new.items ≡ found.old.items ++ if_change steps.now change) }
{
    if is_change(steps, change) {
        found.push(change)?;
    }
    Ok(())
}

/// Appends the changes of one kind of the step at `place`, the nearest first.
fn put_by<W: Allocator, A: Allocator>(
    found: &mut Changes<A>,
    steps: &[Kept<W>],
    kind: Kind,
    place: usize,
) -> Result<(), Oom>
    requires { place < length steps.now }
    ensures { OnOk result (found.new.items ≡ found.old.items ++ changes_by steps.now kind place) }
{
    for distance in 0..reach(steps.len(), kind, place) {
        put_if(found, steps, change_at(steps.len(), kind, place, distance))?;
    }
    Ok(())
}

/// Appends the changes of the step at `place`, kind after kind.
#[tactic(auto, unfolding(change_core::specs::Changes::changes_of))]
fn put_of<W: Allocator, A: Allocator>(
    found: &mut Changes<A>,
    steps: &[Kept<W>],
    place: usize,
) -> Result<(), Oom>
    requires { place < length steps.now }
    ensures { OnOk result (found.new.items ≡ found.old.items ++ changes_of steps.now place) }
{
    put_by(found, steps, Kind::Lost, place)?;
    put_by(found, steps, Kind::Never, place)?;
    put_by(found, steps, Kind::Before, place)?;
    put_by(found, steps, Kind::Behind, place)?;
    put_by(found, steps, Kind::Again, place)
}

/// All changes that can be made to the run of these steps: step after step, then kind after kind, the nearest first.
#[tactic(auto, unfolding(change_core::specs::Changes::changes))]
pub(crate) fn changes<W: Allocator, A: Allocator>(
    steps: &[Kept<W>],
    alloc: A,
) -> Result<Changes<A>, Oom>
    ensures { IfOk result (λ found. found.items ≡ changes steps.now) }
{
    let mut found = Vec::new(alloc);
    for place in 0..steps.len() {
        put_of(&mut found, steps, place)?;
    }
    Ok(found)
}
