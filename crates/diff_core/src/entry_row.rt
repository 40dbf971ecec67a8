//! `EntryRow`: a borrowed live entry, seen as its row.
ghost use Rattle.std.specs.Prelude.{◌≡◌, ◌++◌, ◌∷◌, [], refl, OnOk, Some};
ghost use Rattle.std.specs.Cmp.{partial_equiv_from_equiv};
ghost use Rattle.std.specs.Ordering.{eq_by_cmp};
ghost use Rattle.payload_core.specs.EntryLists.{pair_of};
ghost use Rattle.diff_core.specs.Rows.{row_cmp, row_of};
ghost use Rattle.diff_core.specs.RowOrder.{row_equiv, row_po, row_ties, row_total};

use dots_core::Oom;
use payload_core::Entry;
use std::alloc::Allocator;
use std::cmp::Ordering;
use std::marker::Model;

/// A live entry that stands for its row. It is borrowed, so its words aren't copied. A contract sees the row. These
/// rows are ordered like those of type `OnlineRow`.
#[derive(Drop)]
pub struct EntryRow<'x, A: Allocator> {
    entry: &'x Entry<A>,
}

impl<'x, A: Allocator> Model for EntryRow<'x, A> {
    ghost use Rattle.payload_core.specs.EntryLists.{pair_of};
    ghost use Rattle.diff_core.specs.Rows.{Row, row_of};

    ghost Value = { Row };

    ghost view = { λ r. row_of (pair_of r.entry.now) };
}

impl<'x, A: Allocator> EntryRow<'x, A> {
    /// The row of an entry, which borrows the entry and copies nothing.
    pub(crate) fn of(entry: &'x Entry<A>) -> EntryRow<'x, A>
        ensures { result ≡ row_of (pair_of entry.now) }
    {
        EntryRow { entry }
    }

    /// Appends the row of an entry to `rows`; the row borrows the entry and copies nothing.
    pub(crate) fn put(rows: &mut Vec<EntryRow<'x, A>, A>, entry: &'x Entry<A>) -> Result<(), Oom>
        ensures { OnOk result (rows.new.items ≡ rows.old.items ++ row_of (pair_of entry.now) ∷ []) }
    {
        Ok(rows.push(EntryRow::of(entry))?)
    }

    /// The entry whose row this is.
    pub fn entry(&self) -> &'x Entry<A>
        ensures { row_of (pair_of result.now) ≡ self.now }
    {
        self.entry
    }
}

impl<'x, A: Allocator> PartialEq for EntryRow<'x, A> {
    ghost eq = { eq_by_cmp row_cmp };

    ghost laws = { partial_equiv_from_equiv row_equiv };

    fn eq(&self, other: &Self) -> bool {
        self.cmp(other) == Ordering::Equal
    }
}

impl<'x, A: Allocator> Eq for EntryRow<'x, A> {
    ghost laws = { row_equiv };
}

impl<'x, A: Allocator> PartialOrd for EntryRow<'x, A> {
    ghost partial_cmp = { λ one other. Some (row_cmp one other) };

    ghost laws = { row_po };

    fn partial_cmp(&self, other: &Self) -> Option<Ordering> {
        Some(self.cmp(other))
    }
}

/// Ordered by topic, key, name, process, clock and metadata, words by their bytes.
impl<'x, A: Allocator> Ord for EntryRow<'x, A> {
    ghost cmp = { row_cmp };

    ghost total = { row_total };

    ghost matches_partial_cmp = { λ one other. refl };

    ghost matches_eq = { row_ties };

    fn cmp(&self, other: &Self) -> Ordering {
        let (one, other) = (self.entry, other.entry);
        // form: read outside the closures, whose results the proof takes from their bodies
        let (key, other_key) = (one.key(), other.key());
        let (dot, other_dot) = (one.dot, other.dot);
        let (pid, other_pid) = (one.pid, other.pid);
        let (metadata, other_metadata) = (one.metadata(), other.metadata());
        one.topic()
            .cmp(other.topic())
            .then_with(|| key.cmp(other_key))
            .then_with(|| dot.name.cmp(&other_dot.name))
            .then_with(|| pid.cmp(&other_pid))
            .then_with(|| dot.clock.cmp(&other_dot.clock))
            .then_with(|| metadata.cmp(other_metadata))
    }
}
