//! The step that can come before all others that may come next, so that the walk misses no outcome if it goes on with
//! this step alone.
ghost use Rattle.std.specs.Prelude.{◌⊎◌, IsTrue, IfSome};
ghost use Rattle.explore_network.specs.Easy.{CanGoFirst, GoesFirst};
ghost use Rattle.explore_network.specs.Plans.{IsPlan};
ghost use Rattle.explore_network.specs.Questions.{Question as PlainQuestion};
ghost use Rattle.explore_network.specs.Walks.{IsFirst};
ghost use Rattle.network_rules.specs.Easy.{IsEasyAt};
ghost use Rattle.network_rules.specs.Turns.{AreSpent};

use crate::plan::Plan;
use bench_core::Kept;
use network_rules::{Rank, State, are_spent, delivery, is_easy, is_idle, is_next};
use std::alloc::Allocator;

/// Whether `kept`, a step that isn't a delivery, is easy (see `is_easy`), or no delivery can come to its node any more.
fn is_alone<'a, B: Allocator>(
    plan: &Plan<'a, B>,
    state: &State<'a, '_, B>,
    kept: &Kept<&'a B>,
) -> bool
    ensures { IsTrue result → IsEasyAt state.now.cluster.now kept.now.node kept.now.step
        ⊎ AreSpent plan.now.turns state.now.counts.now plan.now.again kept.now.node }
{
    if is_easy(state.cluster, kept.node, &kept.step) {
        return true;
    }
    are_spent(plan.turns(), state.counts, plan.again(), kept.node)
}

/// True only if the walk misses no outcome when it goes on with this step alone, provided that the step may come next
/// and is accepted.
fn goes_first<'a, B: Allocator>(
    plan: &Plan<'a, B>,
    state: &State<'a, '_, B>,
    kept: &Kept<&'a B>,
    rank: Rank,
) -> bool
    ensures { IsTrue result → GoesFirst plan.now state.now.counts.now state.now.cluster.now kept.now rank }
{
    match delivery(&kept.step) {
        Some(message) => is_idle(
            state,
            plan.cone(),
            plan.turns(),
            kept.node,
            rank.turn,
            message,
        ),
        None => is_alone(plan, state, kept),
    }
}

/// Like `goes_first`, but for the step at `place`; false if there is no such step, or it has no rank.
fn can_go_first<'a, B: Allocator>(
    plan: &Plan<'a, B>,
    state: &State<'a, '_, B>,
    place: usize,
) -> bool
    ensures { IsTrue result → CanGoFirst plan.now state.now.counts.now state.now.cluster.now place }
{
    let Some(kept) = plan.steps().get(place) else {
        return false;
    };
    let Some(rank) = plan.ranks().get(place) else {
        return false;
    };
    goes_first(plan, state, kept, *rank)
}

/// The place of the first step that may come next and of which `goes_first` is true; `None` if there is none.
pub(crate) fn first<'a, B: Allocator>(plan: &Plan<'a, B>, state: &State<'a, '_, B>) -> Option<usize>
    ensures { IfSome result (λ place. (q : PlainQuestion) → IsPlan plan.now q → IsFirst plan.now state.now.counts.now state.now.cluster.now place) }
{
    for place in 0..plan.steps().len() {
        if is_next(
            plan.turns(),
            plan.ranks(),
            state.counts,
            plan.again(),
            place,
        ) && can_go_first(plan, state, place)
        {
            return Some(place);
        }
    }
    None
}
