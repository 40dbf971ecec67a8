//! How many entries steps make, and the places of steps.
ghost use Rattle.std.specs.Prelude.{◌≡◌, List, IfOk, count_by, length};
ghost use Rattle.journal_core.specs.Journals.{Kept as PlainKept};
ghost use Rattle.explore_network.specs.Walks.{steps_at};
ghost use Rattle.node_core.specs.Operations.{plain};
ghost use Rattle.network_core.specs.Room.{made, makes};

use bench_core::{Kept, Step};
use dots_core::Oom;
use std::alloc::Allocator;

/// Whether the step makes an entry: a join or an update does.
fn makes<A: Allocator>(step: &Step<A>) -> bool
    ensures { result ≡ makes (plain step.now) }
{
    // form: each arm is a case of the proof
    match step {
        Step::Join {
            pid: _,
            topic: _,
            key: _,
            metadata: _,
        } => true,
        Step::Update {
            pid: _,
            topic: _,
            key: _,
            metadata: _,
        } => true,
        _ => false,
    }
}

/// How many of the steps make an entry.
fn count_made<A: Allocator>(steps: &[Kept<A>]) -> usize
    ensures { result ≡ count_by (λ k. makes k.step) steps.now }
{
    steps.iter().filter(|kept| makes(&kept.step)).count()
}

/// How many entries the steps make.
pub(crate) fn made<A: Allocator>(steps: &[Kept<A>]) -> usize
    ensures { result ≡ made steps.now }
{
    // form: two functions, as each contract states the count in its own way
    count_made(steps)
}

/// The places of `count` steps: 0, 1, 2 and so on.
pub(crate) fn places<'a, B: Allocator>(count: usize, alloc: &'a B) -> Result<Vec<usize, &'a B>, Oom>
    ensures { IfOk result (λ places. (j : List PlainKept) → length j ≡ count → steps_at j places.items ≡ j) }
{
    let mut places = Vec::with_capacity(alloc, count)?;
    for place in 0..count {
        places.push(place)?;
    }
    Ok(places)
}
