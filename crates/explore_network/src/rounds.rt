//! Finds which names matter where, in rounds from the end of the run back to its beginning. Nothing is proved of the
//! rounds: `cone_of` checks what they find.
ghost use Rattle.std.specs.Prelude.{◌≡◌, ◌<◌, IfOk};
ghost use Rattle.std.specs.List.{AllByRecursion};
ghost use Rattle.dots_core.specs.declared.dot.Dot.{Dot as PlainDot};
ghost use Rattle.dots_core.specs.Names.{most_names};
ghost use Rattle.network_rules.specs.Tables.{AreAllAsked, IsClosed};

use crate::turns::sent;
use bench_core::Kept;
use dots_core::{Dot, NameSet, Oom};
use network_rules::{Cone, Rank, RecordedRun, Rows, all_names, cone_of, delivery, recorded, said};
use std::alloc::Allocator;

/// The names that are in one of the sets, or in both.
fn union(one: NameSet, other: NameSet) -> NameSet {
    let mut names = one;
    for name in 0..32u16 {
        if other.has(name) {
            names = names.with(name);
        }
    }
    names
}

// The rounds keep their sets of names in two flat lists, `matters` and `carries`. Each list has `width` sets for each
// node, here called the node's row: in `matters` a set for each number of own steps (all but deliveries) that the node
// has taken, in `carries` one for each message of the node.

/// The index of the set at `place` in a node's row. It saturates, which spares a requirement about sizes.
fn index(width: usize, node: u16, place: usize) -> usize {
    (node as usize).saturating_mul(width).saturating_add(place)
}

/// The names at an index; the empty set if the index is past the end of the list.
fn at(names: &[NameSet], index: usize) -> NameSet {
    names.get(index).copied().unwrap_or(NameSet::empty())
}

/// Adds `more` to the set of `names` at an index, and says whether any name of `more` is new there. If the index is
/// past the end of the list, adds nothing and gives false.
fn add(names: &mut [NameSet], index: usize, more: NameSet) -> bool {
    let Some(before) = names.get_mut(index) else {
        return false;
    };
    let after = union(*before, more);
    let is_news = !before.same(after);
    *before = after;
    is_news
}

/// Adds the names that matter to `node` before its first own step to the set that `carries` has for message `number` of
/// `sender`, since the node may take the message that early. Says whether any of these names is new in the set.
fn widen_message(
    matters: &[NameSet],
    carries: &mut [NameSet],
    width: usize,
    node: u16,
    sender: u16,
    number: u64,
) -> bool {
    let names = at(matters, index(width, node, 0));
    // form: saturating spares a requirement
    let place = number.saturating_sub(1) as usize;
    add(carries, index(width, sender, place), names)
}

/// Adds two kinds of names to the set that `matters` has for the node before its own step `kept`: those that matter to
/// the node after the step, and those that `said` gives for the step's message. Says whether any of them is new there.
fn widen_node<A: Allocator>(
    matters: &mut [NameSet],
    carries: &[NameSet],
    width: usize,
    kept: &Kept<A>,
    rank: Rank,
) -> bool {
    let here = index(width, kept.node, rank.before);
    // form: saturating spares a requirement
    let message = index(width, kept.node, rank.number.saturating_sub(1) as usize);
    let sent = said(&kept.step, at(carries, message));
    let behind = at(matters, here.saturating_add(1));
    add(matters, here, union(behind, sent))
}

/// Carries the names that matter back over one step: over a delivery into `carries`, over another step into `matters`.
/// Says whether any of these names is new there.
fn widen<A: Allocator>(
    matters: &mut [NameSet],
    carries: &mut [NameSet],
    width: usize,
    kept: &Kept<A>,
    rank: Rank,
) -> bool {
    match delivery(&kept.step) {
        Some((sender, number)) => {
            widen_message(matters, carries, width, kept.node, sender, number)
        }
        None => widen_node(matters, carries, width, kept, rank),
    }
}

/// Makes one round over `matters` and `carries`: `widen` for each step that has a rank, from the last to the first.
/// Says whether any name is new.
fn widen_all<A: Allocator>(
    matters: &mut [NameSet],
    carries: &mut [NameSet],
    width: usize,
    steps: &[Kept<A>],
    ranks: &[Rank],
) -> bool {
    let mut is_news = false;
    for back in 0..steps.len() {
        let place = steps.len() - 1 - back;
        if let Some(rank) = ranks.get(place) {
            is_news |= widen(matters, carries, width, &steps[place], *rank);
        }
    }
    is_news
}

/// Makes rounds (`widen_all`) until one finds no new name, but at most 2,048. If these are too few, `cone_of` sees it.
fn close<A: Allocator>(
    matters: &mut [NameSet],
    carries: &mut [NameSet],
    width: usize,
    steps: &[Kept<A>],
    ranks: &[Rank],
) {
    for _ in 0..2048 {
        if !widen_all(matters, carries, width, steps, ranks) {
            return;
        }
    }
}

/// The sets of `matters` that the rounds begin with, `width` for each of `count` nodes. They have all names for the
/// node `asked`, or for each node if `asked` is `None`, and no names for the other nodes.
fn begun<'a, B: Allocator>(
    width: usize,
    asked: Option<u16>,
    count: u16,
    alloc: &'a B,
) -> Result<Vec<NameSet, &'a B>, Oom> {
    let mut names = Vec::new(alloc);
    for node in 0..count {
        let is_asked = asked.is_none_or(|asked| asked == node);
        let wanted = if is_asked {
            all_names()
        } else {
            NameSet::empty()
        };
        for _ in 0..width {
            names.push(wanted)?;
        }
    }
    Ok(names)
}

/// A copy of `count` sets of names, from the index `first` on. Sets past the end of the list are empty.
fn row<'a, B: Allocator>(
    names: &[NameSet],
    first: usize,
    count: usize,
    alloc: &'a B,
) -> Result<Vec<NameSet, &'a B>, Oom> {
    let mut row = Vec::with_capacity(alloc, count)?;
    for place in 0..count {
        // form: saturating spares a requirement
        row.push(at(names, first.saturating_add(place)))?;
    }
    Ok(row)
}

/// The names that matter to each node: a set before the node's own steps, and one after each of them.
fn rows_of_nodes<'a, B: Allocator>(
    run: &RecordedRun<'a, '_, B>,
    matters: &[NameSet],
    width: usize,
    alloc: &'a B,
) -> Result<Rows<&'a B>, Oom> {
    let mut rows = Vec::new(alloc);
    for node in 0..run.count {
        // form: saturating spares a requirement
        let own = recorded(run.turns, node).saturating_add(1);
        rows.push(row(matters, index(width, node, 0), own, alloc)?)?;
    }
    Ok(rows)
}

/// The names that matter in messages: for each node a set for each message that it sends.
fn rows_of_messages<'a, B: Allocator>(
    run: &RecordedRun<'a, '_, B>,
    carries: &[NameSet],
    width: usize,
    alloc: &'a B,
) -> Result<Rows<&'a B>, Oom> {
    let mut rows = Vec::new(alloc);
    for node in 0..run.count {
        let sent = sent(run.steps, node);
        rows.push(row(carries, index(width, node, 0), sent, alloc)?)?;
    }
    Ok(rows)
}

/// What the rounds found: the names that matter to nodes, and in messages.
#[derive(Drop)]
struct Found<A: Allocator> {
    matters: Rows<A>,
    carries: Rows<A>,
}

/// Makes the rounds for a question about the node `asked`, or about all nodes if `asked` is `None`, and gives what they
/// find.
fn rows_found<'a, B: Allocator>(
    run: &RecordedRun<'a, '_, B>,
    asked: Option<u16>,
    alloc: &'a B,
) -> Result<Found<&'a B>, Oom> {
    // form: saturating spares a requirement
    let width = run.steps.len().saturating_add(1);
    let mut matters = begun(width, asked, run.count, alloc)?;
    let size = (run.count as usize).saturating_mul(width);
    let mut carries = vec![in alloc; NameSet::empty(); size]?;
    close(&mut matters, &mut carries, width, run.steps, run.ranks);
    let matters = rows_of_nodes(run, &matters, width, alloc)?;
    let carries = rows_of_messages(run, &carries, width, alloc)?;
    Ok(Found { matters, carries })
}

/// The cone of these dots, for a question about the node `asked`, or about all nodes if `asked` is `None`: the names
/// that matter at each node and in each message, as the rounds found them. In it all names matter if the rounds left
/// any out, which `cone_of` checks.
pub(crate) fn cone_for<'a, B: Allocator>(
    run: &RecordedRun<'a, '_, B>,
    dots: Vec<Dot, &'a B>,
    asked: Option<u16>,
    alloc: &'a B,
) -> Result<Cone<'a, B>, Oom>
    requires { AllByRecursion (λ (d : PlainDot). d.name < most_names) dots.items }
    ensures dots { IfOk result (λ cone. cone.dots ≡ dots.entry.items) }
    ensures closed { IfOk result (IsClosed run.now.steps.now run.now.ranks.now) }
    ensures asked { IfOk result (AreAllAsked run.now.turns.now run.now.count asked) }
{
    let Found { matters, carries } = rows_found(run, asked, alloc)?;
    Ok(cone_of(run, dots, matters, carries, asked, alloc))
}
