//! What several changes of an online list, made in turn, come to.
ghost use Rattle.std.specs.Prelude.{◌≡◌, IfOk, List, drop};
ghost use Rattle.std.specs.List.Sorted.{IsPermutation, IsSorted};
ghost use Rattle.diff_core.specs.Rows.{Row, row_cmp};
ghost use Rattle.diff_core.specs.Diffs.{alone};
ghost use Rattle.diff_core.specs.NetChanges.{beyond, ComesTo};
ghost use Rattle.diff_core.specs.Online.{AreInOrder};

use crate::comparing::{begins_with, not_below};
use crate::online_row::OnlineRow;
use crate::row_diff::Diff;
use dots_core::Oom;
use std::alloc::Allocator;

/// Copies of the rows, sorted. A row may stand among them more than once.
fn sorted<A: Allocator + Copy>(alloc: A, rows: &[OnlineRow<A>]) -> Result<Vec<OnlineRow<A>, A>, Oom>
    ensures all { IfOk result (λ sorted. IsPermutation rows.now sorted.items) }
    ensures sorted { IfOk result (λ sorted. IsSorted row_cmp sorted.items) }
{
    let mut copies = Vec::with_capacity(alloc, rows.len())?;
    for row in rows {
        copies.push(row.try_copy()?)?;
    }
    copies.sort_unstable();
    Ok(copies)
}

/// The rows after the first; none if there is no first.
fn behind_first<'x, A: Allocator>(rows: &'x [OnlineRow<A>]) -> &'x [OnlineRow<A>]
    ensures { result.now ≡ drop 1 rows.now }
{
    match rows.split_first() {
        Some((_first, others)) => others,
        None => rows,
    }
}

/// Copies of the rows that remain when each of `others` cancels one equal row of `rows`, if there is one. Both lists
/// must be sorted; one pass goes over them.
fn rows_beyond<A: Allocator + Copy>(
    alloc: A,
    rows: &[OnlineRow<A>],
    others: &[OnlineRow<A>],
) -> Result<Vec<OnlineRow<A>, A>, Oom>
    ensures { IfOk result (λ found. found.items ≡ beyond rows.now others.now) }
{
    let mut found = Vec::new(alloc);
    let mut rest = others;
    for row in rows {
        rest = not_below(rest, row);
        if begins_with(rest, row) {
            rest = behind_first(rest);
        } else {
            found.push(row.try_copy()?)?;
        }
    }
    Ok(found)
}

/// How an online list differs from what it was before several changes. `left` and `joined` are the rows that left and
/// joined in these changes, each once for each time that it left or joined, in any order. Sorts copies of these rows,
/// and reads neither online list.
pub fn net<'call, A: Allocator + Copy>(
    alloc: A,
    left: &'call [OnlineRow<A>],
    joined: &'call [OnlineRow<A>],
) -> Result<Diff<A>, Oom>
    ensures left { IfOk result (λ net. (before after : List Row) → AreInOrder before → AreInOrder after →
        ComesTo before after left.now joined.now → net.left.items ≡ alone before after) }
    ensures joined { IfOk result (λ net. (before after : List Row) → AreInOrder before → AreInOrder after →
        ComesTo before after left.now joined.now → net.joined.items ≡ alone after before) }
{
    let left = sorted(alloc, left)?;
    let joined = sorted(alloc, joined)?;
    Ok(Diff {
        left: rows_beyond(alloc, &left, &joined)?,
        joined: rows_beyond(alloc, &joined, &left)?,
    })
}
