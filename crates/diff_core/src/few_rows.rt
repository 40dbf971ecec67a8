//! `FewRows`: the rows that a call put into an online list, or took out of it. Most calls put in or take out one row at
//! most.
ghost use Rattle.std.specs.Prelude.{◌<◌, ◌⊎◌, IsSome, length, option_copied};
ghost use Rattle.replica_core.specs.Changes.{back, plain_change, ChangeLeadsSomewhere};
ghost use Rattle.diff_core.specs.ChangedRows.{rows_shown};
ghost use Rattle.diff_core.specs.Diffs.{alone};
ghost use Rattle.replica_core.specs.Moves.{hidden_by, joined_by, left_by, shown_by};
ghost use Rattle.diff_core.specs.FewRows.{found_if, pair_if, AreRows, IsMore};
ghost use Rattle.diff_core.specs.Sorting.{online_of};

use crate::entry_row::EntryRow;
use dots_core::Dot;
use payload_core::Entry;
use replica_core::{Change, Replica};
use std::alloc::Allocator;

/// No row, one row, or an unknown number of rows.
#[derive(Drop)]
pub enum FewRows<'x, A: Allocator> {
    Nothing,
    One(EntryRow<'x, A>),
    /// Any number of rows; `rows_taken` or `rows_given` gives them.
    More,
}

/// The row of `entry`; `Nothing` if there is no entry, or its name isn't known and up.
fn few_of<'x, A: Allocator>(replica: &Replica<A>, entry: Option<&'x Entry<A>>) -> FewRows<'x, A>
    ensures rows { AreRows result (rows_shown replica.now (pair_if (option_copied entry.entry))) }
    ensures few { ¬ IsMore result }
{
    match entry {
        Some(entry) => shown(replica, entry),
        None => FewRows::Nothing,
    }
}

/// The row of an entry; `Nothing` if its name isn't known and up.
fn shown<'x, A: Allocator>(replica: &Replica<A>, entry: &'x Entry<A>) -> FewRows<'x, A>
    ensures rows { AreRows result (rows_shown replica.now (pair_if (Some entry.now))) }
    ensures few { ¬ IsMore result }
{
    if replica.online(entry.dot.name) {
        FewRows::One(EntryRow::of(entry))
    } else {
        FewRows::Nothing
    }
}

/// The row of the entry at `dot`; `Nothing` if there is no dot, or no entry there, or its name isn't known and up.
fn few_found<'x, A: Allocator>(replica: &'x Replica<A>, dot: Option<Dot>) -> FewRows<'x, A>
    ensures rows { AreRows result (rows_shown replica.now (found_if dot replica.now.store.entries)) }
    ensures few { ¬ IsMore result }
{
    match dot {
        Some(dot) => few_of(replica, replica.entries().get(dot)),
        None => FewRows::Nothing,
    }
}

/// The rows that the last call of the replica `after` took out of its online list; `change` is the change of that
/// call. `More` if a name went down or several entries left, whatever the number of rows. Else one row or `Nothing`.
pub fn few_taken<'x, A: Allocator>(change: &'x Change<A>, after: &Replica<A>) -> FewRows<'x, A>
    requires { ChangeLeadsSomewhere (plain_change change.now) after.now }
    ensures rows { AreRows result (alone (online_of (back (plain_change change.now) after.now)) (online_of after.now)) }
    ensures more { IsMore result → IsSome (hidden_by (plain_change change.now)) ⊎ (1 < length (left_by (plain_change change.now))) }
{
    if change.hidden().is_some() {
        return FewRows::More;
    }
    if change.left_len() > 1 {
        return FewRows::More;
    }
    few_of(after, change.left_at(0))
}

/// The rows that the last call of the replica `after` put into its online list; `change` is the change of that call.
/// `More` if a name came up or several entries joined, whatever the number of rows. Else one row or `Nothing`.
pub fn few_given<'x, A: Allocator>(change: &Change<A>, after: &'x Replica<A>) -> FewRows<'x, A>
    requires { ChangeLeadsSomewhere (plain_change change.now) after.now }
    ensures rows { AreRows result (alone (online_of after.now) (online_of (back (plain_change change.now) after.now))) }
    ensures more { IsMore result → IsSome (shown_by (plain_change change.now)) ⊎ (1 < length (joined_by (plain_change change.now) after.now)) }
{
    if change.shown().is_some() {
        return FewRows::More;
    }
    if change.joined_len() > 1 {
        return FewRows::More;
    }
    few_found(after, change.joined_at(0, after))
}
