//! How two online lists differ.
ghost use Rattle.std.specs.Prelude.{◌≡◌, IfOk};
ghost use Rattle.diff_core.specs.Diffs.{alone, begins_with, not_below};
ghost use Rattle.diff_core.specs.Online.{AreInOrder};

use crate::online_row::OnlineRow;
use crate::row_diff::Diff;
use dots_core::Oom;
use std::alloc::Allocator;

/// How two online lists, both in order, differ: `left` has the rows that only `before` has, `joined` those that only
/// `after` has. Each side takes one pass over both lists.
pub fn diff<'call, A: Allocator + Copy>(
    alloc: A,
    before: &'call [OnlineRow<A>],
    after: &'call [OnlineRow<A>],
) -> Result<Diff<A>, Oom>
    requires before { AreInOrder before.now }
    requires after { AreInOrder after.now }
    ensures left { IfOk result (λ diff. diff.left.items ≡ alone before.now after.now) }
    ensures joined { IfOk result (λ diff. diff.joined.items ≡ alone after.now before.now) }
{
    Ok(Diff {
        left: rows_alone(alloc, before, after)?,
        joined: rows_alone(alloc, after, before)?,
    })
}

/// Copies of the rows that aren't among `others`. Both lists must be in order; one pass goes over them.
fn rows_alone<A: Allocator + Copy>(
    alloc: A,
    rows: &[OnlineRow<A>],
    others: &[OnlineRow<A>],
) -> Result<Vec<OnlineRow<A>, A>, Oom>
    requires rows { AreInOrder rows.now }
    requires others { AreInOrder others.now }
    ensures { IfOk result (λ found. found.items ≡ alone rows.now others.now) }
{
    let mut found = Vec::new(alloc);
    let mut rest = others;
    for row in rows {
        rest = not_below(rest, row);
        if !begins_with(rest, row) {
            found.push(row.try_copy()?)?;
        }
    }
    Ok(found)
}

/// The rest of the rows, from the first that is not less than `row`; empty if each is less.
pub(crate) fn not_below<'x, A: Allocator>(
    rows: &'x [OnlineRow<A>],
    row: &OnlineRow<A>,
) -> &'x [OnlineRow<A>]
    ensures { result.now ≡ not_below row.now rows.now }
{
    let mut rest = rows;
    while let Some((first, others)) = rest.split_first() {
        if first >= row {
            break;
        }
        rest = others;
    }
    rest
}

/// Whether the first of `rows` equals `row`; no if `rows` is empty.
pub(crate) fn begins_with<A: Allocator>(rows: &[OnlineRow<A>], row: &OnlineRow<A>) -> bool
    ensures { result ≡ begins_with row.now rows.now }
{
    match rows.first() {
        Some(first) => first == row,
        None => false,
    }
}
