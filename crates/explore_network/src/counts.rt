//! How many steps of each turn have come. A turn is a node's own steps (all but deliveries), or the deliveries of one
//! message at one node (`network_rules::Turn`).
ghost use Rattle.std.specs.Prelude.{◌≡◌, ◌<◌, ◌+◌, ◌^◌, ◌++◌, ◌∷◌, [], List, IfOk, length};
ghost use Rattle.journal_core.specs.Journals.{Kept as PlainKept};
ghost use Rattle.explore_network.specs.Turns.{count_of, counts_of};

use bench_core::Kept;
use dots_core::Oom;
use network_rules::{Turn, count_at};
use std::alloc::Allocator;

/// `count`, or one more if the step `kept` is of `turn`. `count` is how many steps of the turn came before `kept`.
fn count_with<A: Allocator>(turn: Turn, kept: &Kept<A>, count: usize) -> usize
    ensures { (w : List PlainKept) → count ≡ count_of turn w → length w + 1 < 2 ^ 64 → result ≡ count_of turn (w ++ kept.now ∷ []) }
{
    if turn.has(kept) {
        // form: saturating spares a requirement
        count.saturating_add(1)
    } else {
        count
    }
}

/// A copy of `counts` (how many steps of each turn have come) with the step `kept` counted in.
pub(crate) fn counted<'a, B: Allocator>(
    kept: &Kept<&'a B>,
    turns: &[Turn],
    counts: &[usize],
    alloc: &'a B,
) -> Result<Vec<usize, &'a B>, Oom>
    ensures { IfOk result (λ new. (w : List PlainKept) → counts.now ≡ counts_of turns.now w → length w + 1 < 2 ^ 64
        → new.items ≡ counts_of turns.now (w ++ kept.now ∷ [])) }
{
    let mut new = Vec::with_capacity(alloc, turns.len())?;
    for place in 0..turns.len() {
        let count = count_with(turns[place], kept, count_at(counts, place));
        new.push(count)?;
    }
    Ok(new)
}
