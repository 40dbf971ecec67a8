//! How the last call of a replica changed its online list, read from the call's change.
ghost use Rattle.std.specs.Prelude.{◌≡◌, ◌++◌, ◌∷◌, [], IfOk, OnOk};
ghost use Rattle.std.specs.FinMap as fin;
ghost use Rattle.payload_core.specs.EntryLists.{pair_of, pairs};
ghost use Rattle.store_core.specs.EntryMoves.{found_at};
ghost use Rattle.replica_core.specs.Changes.{back, plain_change, ChangeLeadsSomewhere};
ghost use Rattle.replica_core.specs.Moves.{joined_by, left_by};
ghost use Rattle.diff_core.specs.ChangedRows.{found_each, given_rows, rows_of_name, rows_shown, taken_rows};
ghost use Rattle.diff_core.specs.Diffs.{alone};
ghost use Rattle.diff_core.specs.Sorting.{online_of};

use crate::entry_row::EntryRow;
use crate::few_rows::{FewRows, few_given, few_taken};
use crate::online_row::OnlineRow;
use crate::row_diff::Diff;
use dots_core::{Dot, Oom};
use payload_core::Entry;
use replica_core::{Change, Replica};
use std::alloc::Allocator;

/// Appends the row of an entry to `rows`; nothing if the entry's name isn't known and up.
fn put_row<'x, A: Allocator + Copy>(
    rows: &mut Vec<EntryRow<'x, A>, A>,
    replica: &Replica<A>,
    entry: &'x Entry<A>,
) -> Result<(), Oom>
    ensures { OnOk result (rows.new.items ≡ rows.old.items ++ rows_shown replica.now (pair_of entry.now ∷ [])) }
{
    if replica.online(entry.dot.name) {
        EntryRow::put(rows, entry)?;
    }
    Ok(())
}

/// Appends the row of the entry that the replica has at `dot` to `rows`; nothing if the replica has none there, or the
/// dot's name isn't known and up.
fn put_found<'x, A: Allocator + Copy>(
    rows: &mut Vec<EntryRow<'x, A>, A>,
    replica: &'x Replica<A>,
    dot: Dot,
) -> Result<(), Oom>
    ensures { OnOk result (rows.new.items ≡ rows.old.items ++ rows_shown replica.now (found_at dot (fin.get replica.now.store.entries dot))) }
{
    match replica.entries().get(dot) {
        Some(entry) => put_row(rows, replica, entry),
        None => Ok(()),
    }
}

/// The rows of the entries that left in the call that gave `change` and whose name is known and up in `after`.
fn rows_left<'x, A: Allocator + Copy>(
    alloc: A,
    change: &'x Change<A>,
    after: &Replica<A>,
) -> Result<Vec<EntryRow<'x, A>, A>, Oom>
    ensures { IfOk result (λ rows. rows.items ≡ rows_shown after.now (pairs (left_by (plain_change change.now)))) }
{
    let mut rows = Vec::new(alloc);
    for place in 0..change.left_len() {
        if let Some(entry) = change.left_at(place) {
            put_row(&mut rows, after, entry)?;
        }
    }
    Ok(rows)
}

/// The rows of the entries that joined in the call that gave `change` and whose name is known and up in `after`.
fn rows_joined<'x, A: Allocator + Copy>(
    alloc: A,
    change: &Change<A>,
    after: &'x Replica<A>,
) -> Result<Vec<EntryRow<'x, A>, A>, Oom>
    ensures { IfOk result (λ rows. rows.items ≡ rows_shown after.now (found_each (joined_by (plain_change change.now) after.now) after.now.store.entries)) }
{
    let mut rows = Vec::new(alloc);
    for place in 0..change.joined_len() {
        if let Some(dot) = change.joined_at(place, after) {
            put_found(&mut rows, after, dot)?;
        }
    }
    Ok(rows)
}

/// The rows of all entries whose dots have this name, whatever the name's status is.
fn rows_of_name<'x, A: Allocator + Copy>(
    alloc: A,
    replica: &'x Replica<A>,
    name: u16,
) -> Result<Vec<EntryRow<'x, A>, A>, Oom>
    ensures { IfOk result (λ rows. rows.items ≡ rows_of_name name replica.now) }
{
    let mut rows = Vec::new(alloc);
    let mut walk = replica.entries().walk_of(name);
    while let Some(entry) = walk.next() {
        EntryRow::put(&mut rows, entry)?;
    }
    Ok(rows)
}

/// The rows that left the online list in the call that gave `change`, in any order; `after` is the replica after that
/// call.
fn taken<'x, A: Allocator + Copy>(
    alloc: A,
    change: &'x Change<A>,
    after: &'x Replica<A>,
) -> Result<Vec<EntryRow<'x, A>, A>, Oom>
    ensures { IfOk result (λ rows. rows.items ≡ taken_rows (plain_change change.now) after.now) }
{
    match change.hidden() {
        Some(name) => rows_of_name(alloc, after, name),
        None => rows_left(alloc, change, after),
    }
}

/// The rows that joined the online list in the call that gave `change`, in any order; `after` is the replica after that
/// call.
fn given<'x, A: Allocator + Copy>(
    alloc: A,
    change: &Change<A>,
    after: &'x Replica<A>,
) -> Result<Vec<EntryRow<'x, A>, A>, Oom>
    ensures { IfOk result (λ rows. rows.items ≡ given_rows (plain_change change.now) after.now) }
{
    match change.shown() {
        Some(name) => rows_of_name(alloc, after, name),
        None => rows_joined(alloc, change, after),
    }
}

/// The rows that the last call of the replica `after` took out of its online list, in order. `change` is the change of
/// that call. Reads the entries that left, or all entries of the name that went down.
pub fn rows_taken<'x, A: Allocator + Copy>(
    alloc: A,
    change: &'x Change<A>,
    after: &'x Replica<A>,
) -> Result<Vec<EntryRow<'x, A>, A>, Oom>
    requires { ChangeLeadsSomewhere (plain_change change.now) after.now }
    ensures { IfOk result (λ rows. rows.items ≡ alone (online_of (back (plain_change change.now) after.now)) (online_of after.now)) }
{
    let mut rows = taken(alloc, change, after)?;
    rows.sort_unstable();
    Ok(rows)
}

/// The rows that the last call of the replica `after` put into its online list, in order. `change` is the change of
/// that call. Reads the entries that joined, or all entries of the name that came up.
pub fn rows_given<'x, A: Allocator + Copy>(
    alloc: A,
    change: &Change<A>,
    after: &'x Replica<A>,
) -> Result<Vec<EntryRow<'x, A>, A>, Oom>
    requires { ChangeLeadsSomewhere (plain_change change.now) after.now }
    ensures { IfOk result (λ rows. rows.items ≡ alone (online_of after.now) (online_of (back (plain_change change.now) after.now))) }
{
    let mut rows = given(alloc, change, after)?;
    rows.sort_unstable();
    Ok(rows)
}

/// Copies of the rows and of their words, which borrow from no entry.
fn copies<'x, A: Allocator + Copy>(
    alloc: A,
    rows: &[EntryRow<'x, A>],
) -> Result<Vec<OnlineRow<A>, A>, Oom>
    ensures { IfOk result (λ found. found.items ≡ rows.now) }
{
    let mut found = Vec::with_capacity(alloc, rows.len())?;
    for row in rows {
        OnlineRow::put(&mut found, row.entry())?;
    }
    Ok(found)
}

/// A list with a copy of this row alone. The copy borrows from no entry.
fn one_copy<'x, A: Allocator + Copy>(
    alloc: A,
    row: &EntryRow<'x, A>,
) -> Result<Vec<OnlineRow<A>, A>, Oom>
    ensures { IfOk result (λ found. found.items ≡ row.now ∷ []) }
{
    let mut found = Vec::with_capacity(alloc, 1)?;
    OnlineRow::put(&mut found, row.entry())?;
    Ok(found)
}

/// Like `rows_taken`, but the rows and their words are copied, and borrow from no entry.
fn left_rows<A: Allocator + Copy>(
    alloc: A,
    change: &Change<A>,
    after: &Replica<A>,
) -> Result<Vec<OnlineRow<A>, A>, Oom>
    requires { ChangeLeadsSomewhere (plain_change change.now) after.now }
    ensures { IfOk result (λ rows. rows.items ≡ alone (online_of (back (plain_change change.now) after.now)) (online_of after.now)) }
{
    match few_taken(change, after) {
        FewRows::Nothing => Ok(Vec::new(alloc)),
        FewRows::One(row) => one_copy(alloc, &row),
        FewRows::More => copies(alloc, &rows_taken(alloc, change, after)?),
    }
}

/// Like `rows_given`, but the rows and their words are copied, and borrow from no entry.
fn joined_rows<A: Allocator + Copy>(
    alloc: A,
    change: &Change<A>,
    after: &Replica<A>,
) -> Result<Vec<OnlineRow<A>, A>, Oom>
    requires { ChangeLeadsSomewhere (plain_change change.now) after.now }
    ensures { IfOk result (λ rows. rows.items ≡ alone (online_of after.now) (online_of (back (plain_change change.now) after.now))) }
{
    match few_given(change, after) {
        FewRows::Nothing => Ok(Vec::new(alloc)),
        FewRows::One(row) => one_copy(alloc, &row),
        FewRows::More => copies(alloc, &rows_given(alloc, change, after)?),
    }
}

/// How the last call of the replica `after` changed its online list: the rows that left and those that joined, each
/// side in order. `change` is the change of that call. Reads what the call touched, or all entries of a name that the
/// call put up or down.
pub fn changed<'call, A: Allocator + Copy>(
    alloc: A,
    change: &'call Change<A>,
    after: &'call Replica<A>,
) -> Result<Diff<A>, Oom>
    requires { ChangeLeadsSomewhere (plain_change change.now) after.now }
    ensures left { IfOk result (λ diff. diff.left.items ≡ alone (online_of (back (plain_change change.now) after.now)) (online_of after.now)) }
    ensures joined { IfOk result (λ diff. diff.joined.items ≡ alone (online_of after.now) (online_of (back (plain_change change.now) after.now))) }
{
    let left = left_rows(alloc, change, after)?;
    let joined = joined_rows(alloc, change, after)?;
    Ok(Diff { left, joined })
}
