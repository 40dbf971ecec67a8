//! The run with a change, in an order in which no message comes before it is sent.
ghost use Rattle.std.specs.Prelude.{◌≡◌, ◌<◌, IfOk, length, option_map};
ghost use Rattle.order_core.specs.Orders.{order_of};
ghost use Rattle.change_core.specs.Changes.{changed};

use crate::change::Change;
use crate::changed::changed_marks;
use crate::steps::{Steps, copied, copied_at};
use bench_core::{Bench, Kept};
use dots_core::Oom;
use order_core::order;
use std::alloc::Allocator;

/// The run of these steps with a change, in the order that `order` finds; `None` if each order delivers some message
/// before it is sent. Both places of the change must be places of steps.
fn run_of<'a, B: Allocator>(
    steps: &[Kept<&'a B>],
    change: Change,
    alloc: &'a B,
) -> Result<Option<Steps<&'a B>>, Oom>
    requires place { change.place < length steps.now }
    requires beside { change.beside < length steps.now }
    ensures { IfOk result (λ run. option_map (λ r. r.items) run ≡ order_of (changed steps.now change)) }
{
    let marks = changed_marks(steps, change, alloc)?;
    let found = order(alloc, marks.as_slice());
    // form: drop before exit
    drop(marks);
    let Some(run) = found? else {
        return Ok(None);
    };
    Ok(Some(copied_at(steps, &run, alloc)?))
}

/// The remaining steps with a change: each node's in the order that the change gives them, and those of different nodes
/// as near to the recorded order as messages allow (see `order` of `order_core`). `None` if each order delivers some
/// message before it is sent. Both places of the change must be places of remaining steps.
pub fn run_with<'a, B: Allocator>(
    bench: &Bench<'a, B>,
    change: Change,
    alloc: &'a B,
) -> Result<Option<Vec<Kept<&'a B>, &'a B>>, Oom>
    requires place { change.place < length bench.now.state.remaining }
    requires beside { change.beside < length bench.now.state.remaining }
    ensures { IfOk result (λ run. option_map (λ r. r.items) run ≡ order_of (changed bench.now.state.remaining change)) }
{
    let steps = copied(bench.remaining(), alloc)?;
    let run = run_of(steps.as_slice(), change, alloc);
    // form: drop before exit
    drop(steps);
    run
}
