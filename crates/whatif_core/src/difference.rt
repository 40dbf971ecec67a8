//! `Difference`: changes of the same step and kind that lead to the same rows; and `Tally`, the counts and differences
//! of the changes tried so far.
ghost use Rattle.std.specs.Prelude.{◌≡◌, ◌<◌, ◌+◌, ◌==◌, ◌&&◌, OnOk, option_map};
ghost use Rattle.whatif_core.specs.Differences.{are_same, counted, is_with, nearest_change, nothing, place_with, told_too};

use change_core::{Change, Kind, Rows};
use diff_core::OnlineRow;
use dots_core::Oom;
use std::alloc::Allocator;
use std::marker::Model;

/// Changes of the same step and kind that lead to the same rows, which differ from those of the recorded run.
#[derive(Drop)]
pub struct Difference<A: Allocator> {
    pub kind: Kind,
    /// The place of the step among those that remain, counted from 0.
    pub place: usize,
    /// The places beside which the step comes, nearest first; for `Lost` and `Never`, the step's own place alone.
    pub besides: Vec<usize, A>,
    pub rows: Vec<OnlineRow<A>, A>,
}

impl<A: Allocator> Model for Difference<A> {
    ghost use Rattle.whatif_core.specs.Differences.{Difference};

    ghost Value = { Difference };

    ghost view = { λ d. record { kind = d.kind; place = d.place; besides = d.besides.items; rows = d.rows.items } };
}

impl<A: Allocator> Difference<A> {
    /// The first of the changes: the one beside the nearest place.
    pub fn nearest(&self) -> Change
        ensures { result ≡ nearest_change self.now }
    {
        let beside = match self.besides.first() {
            Some(beside) => *beside,
            // form: there is a first one; the 0 spares a requirement
            None => 0,
        };
        Change {
            kind: self.kind,
            place: self.place,
            beside,
        }
    }
}

/// Of the changes tried so far: how many are possible, how many make a difference, and the differences.
#[derive(Drop)]
pub(crate) struct Tally<A: Allocator> {
    pub(crate) possible: usize,
    pub(crate) differ: usize,
    pub(crate) told: Vec<Difference<A>, A>,
}

impl<A: Allocator> Model for Tally<A> {
    ghost use Rattle.whatif_core.specs.Differences.{Tally};

    ghost Value = { Tally };

    ghost view = { λ t. record { possible = t.possible; differ = t.differ; told = t.told.items } };
}

/// Whether both lists have the same rows in the same order.
fn are_same<A: Allocator>(rows: &[OnlineRow<A>], others: &[OnlineRow<A>]) -> bool
    ensures { result ≡ are_same rows.now others.now }
{
    rows == others
}

/// Whether the change is of the same step and kind as this difference, and leads to the same rows.
fn is_with<A: Allocator>(told: &Difference<A>, change: Change, rows: &[OnlineRow<A>]) -> bool
    ensures { result ≡ is_with told.now change rows.now }
{
    // form: the contract compares ranks of kinds
    told.place == change.place
        && told.kind.rank() == change.kind.rank()
        && are_same(told.rows.as_slice(), rows)
}

/// The place of the first difference to which the change belongs (see `is_with`); `None` if it belongs to none.
fn place_with<A: Allocator>(
    told: &[Difference<A>],
    change: Change,
    rows: &[OnlineRow<A>],
) -> Option<usize>
    ensures { result ≡ place_with 0 told.now change rows.now }
{
    for (place, difference) in told.iter().enumerate() {
        if is_with(difference, change, rows) {
            return Some(place);
        }
    }
    None
}

/// Adds a change to the difference in `told` to which it belongs; if it belongs to none, appends a new difference with
/// these rows.
fn put_with<A: Allocator + Copy>(
    told: &mut Vec<Difference<A>, A>,
    change: Change,
    rows: Rows<A>,
    alloc: A,
) -> Result<(), Oom>
    ensures { OnOk result (told.new.items ≡ told_too told.old.items change rows.items) }
{
    if let Some(place) = place_with(told.as_slice(), change, rows.as_slice()) {
        // form: drop before exit
        drop(rows);
        return Ok(told[place].besides.push(change.beside)?);
    }
    let mut besides = Vec::new(alloc);
    besides.push(change.beside)?;
    told.push(Difference {
        kind: change.kind,
        place: change.place,
        besides,
        rows,
    })?;
    Ok(())
}

impl<A: Allocator + Copy> Tally<A> {
    /// The tally before the first change: both counts are 0, and there is no difference.
    pub(crate) fn new(alloc: A) -> Self
        ensures { result ≡ nothing }
    {
        Tally {
            possible: 0,
            differ: 0,
            told: Vec::new(alloc),
        }
    }

    /// Counts a change that leads to `rows`, and adds it to the differences if `rows` isn't the same as `before`.
    /// `None` stands for a change that isn't possible, which isn't counted. Both counts must be below `usize::MAX`.
    pub(crate) fn count(
        &mut self,
        before: &[OnlineRow<A>],
        change: Change,
        rows: Option<Rows<A>>,
        alloc: A,
    ) -> Result<(), Oom>
        requires possible { self.old.possible < 18446744073709551615 }
        requires differ { self.old.differ < 18446744073709551615 }
        ensures { OnOk result (self.new ≡ counted before.now self.old change (option_map (λ r. r.items) rows)) }
    {
        let Some(rows) = rows else {
            return Ok(());
        };
        self.possible += 1;
        if are_same(rows.as_slice(), before) {
            // form: drop before exit
            drop(rows);
            return Ok(());
        }
        self.differ += 1;
        put_with(&mut self.told, change, rows, alloc)
    }
}
