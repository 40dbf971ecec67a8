//! The turns of a run, and the rank of each step in its turn. A turn is a node's own steps (all but deliveries), or
//! the deliveries of one message at one node (`network_rules::Turn`).
ghost use Rattle.std.specs.Prelude.{◌≡◌, ◌+◌, ◌<◌, ◌≤◌, ◌^◌, IfOk, OnOk, length};
ghost use Rattle.journal_core.specs.Journals.{sent_by};
ghost use Rattle.explore_network.specs.Turns.{count_of, noted, own_turns, place_of, rank_of, ranks_of, turn_of, turns_of};

use bench_core::Kept;
use dots_core::Oom;
use network_rules::{Rank, Turn, delivery};
use std::alloc::Allocator;

/// How many of the steps belong to the turn.
fn count<A: Allocator>(steps: &[Kept<A>], turn: Turn) -> usize
    ensures { result ≡ count_of turn steps.now }
{
    steps.iter().filter(|kept| turn.has(kept)).count()
}

/// The place of a step's turn among these turns; `None` if the turn isn't there.
fn find<A: Allocator>(turns: &[Turn], kept: &Kept<A>) -> Option<usize>
    ensures { result ≡ place_of turns.now kept.now }
{
    for (place, turn) in turns.iter().enumerate() {
        if turn.has(kept) {
            return Some(place);
        }
    }
    None
}

/// The turn of the deliveries of the message `delivers` at `node`; if `delivers` is `None`, that of the node's own
/// steps. Its `recorded` is how many of `steps` belong to it.
fn turn_of<A: Allocator>(steps: &[Kept<A>], node: u16, delivers: Option<(u16, u64)>) -> Turn
    ensures { result ≡ turn_of steps.now node delivers }
{
    let turn = Turn {
        node,
        delivers,
        recorded: 0,
    };
    Turn {
        node,
        delivers,
        recorded: count(steps, turn),
    }
}

/// Appends the turn of the step `kept` to `turns`, unless it is there already. Its `recorded` is how many of `steps`
/// belong to it.
fn note<'a, B: Allocator>(
    turns: &mut Vec<Turn, &'a B>,
    steps: &[Kept<&'a B>],
    kept: &Kept<&'a B>,
) -> Result<(), Oom>
    ensures { OnOk result (turns.new.items ≡ noted steps.now turns.old.items kept.now) }
{
    if find(turns.as_slice(), kept).is_some() {
        return Ok(());
    }
    let turn = turn_of(steps, kept.node, delivery(&kept.step));
    turns.push(turn)?;
    Ok(())
}

/// For each of the first `count` nodes the turn of its own steps.
fn own_turns<'a, B: Allocator>(
    steps: &[Kept<&'a B>],
    count: u16,
    alloc: &'a B,
) -> Result<Vec<Turn, &'a B>, Oom>
    ensures { IfOk result (λ turns. turns.items ≡ own_turns steps.now count) }
{
    let mut turns = Vec::new(alloc);
    for node in 0..count {
        turns.push(turn_of(steps, node, None))?;
    }
    Ok(turns)
}

/// All turns: first those of own steps, one for each of the first `count` nodes, and then those of deliveries, by the
/// place of their first step.
pub(crate) fn turns_of<'a, B: Allocator>(
    steps: &[Kept<&'a B>],
    count: u16,
    alloc: &'a B,
) -> Result<Vec<Turn, &'a B>, Oom>
    ensures { IfOk result (λ turns. turns.items ≡ turns_of steps.now count) }
{
    let mut turns = own_turns(steps, count, alloc)?;
    for kept in steps {
        note(&mut turns, steps, kept)?;
    }
    Ok(turns)
}

/// How many messages a node sends in these steps.
pub(crate) fn sent<A: Allocator>(steps: &[Kept<A>], node: u16) -> usize
    ensures count { result ≡ length (sent_by steps.now node) }
    ensures within { result ≤ length steps.now }
{
    steps
        .iter()
        .filter(|kept| kept.node == node && kept.step.sends())
        .count()
}

/// The rank of the step `kept`; `done` are all recorded steps before it. If the step's turn isn't among `turns`, the
/// rank has place 0 for the turn.
fn rank_of<A: Allocator>(turns: &[Turn], done: &[Kept<A>], kept: &Kept<A>) -> Rank
    requires { length done.now + 1 < 2 ^ 64 }
    ensures { result ≡ rank_of turns.now done.now kept.now }
{
    let named = Turn {
        node: kept.node,
        delivers: delivery(&kept.step),
        recorded: 0,
    };
    Rank {
        turn: find(turns, kept).unwrap_or(0),
        before: count(done, named),
        number: sent(done, kept.node) as u64 + 1,
    }
}

/// The rank of each step, in the order of the steps.
pub(crate) fn ranks_of<'a, B: Allocator>(
    steps: &[Kept<&'a B>],
    turns: &[Turn],
    alloc: &'a B,
) -> Result<Vec<Rank, &'a B>, Oom>
    ensures { IfOk result (λ ranks. ranks.items ≡ ranks_of turns.now steps.now) }
{
    let mut ranks = Vec::with_capacity(alloc, steps.len())?;
    for place in 0..steps.len() {
        ranks.push(rank_of(turns, &steps[..place], &steps[place]))?;
    }
    Ok(ranks)
}
