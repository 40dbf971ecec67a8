//! `OnlineRow`: what is shown of a live entry.
ghost use Rattle.std.specs.Prelude.{◌≡◌, ◌↔◌, ◌++◌, ◌∷◌, [], refl, IfOk, IsTrue, OnOk, Some};
ghost use Rattle.std.specs.Cmp.{partial_equiv_from_equiv};
ghost use Rattle.std.specs.Ordering.{eq_by_cmp};
ghost use Rattle.entry_core.specs.Short.{IsShort};
ghost use Rattle.payload_core.specs.Presences.{presence_of};
ghost use Rattle.diff_core.specs.Rows.{row_cmp, row_of};
ghost use Rattle.diff_core.specs.RowOrder.{row_equiv, row_po, row_ties, row_total};

use dots_core::Oom;
use payload_core::{Entry, Word};
use std::alloc::Allocator;
use std::cmp::Ordering;
use std::marker::Model;

/// A live entry as an online list shows it. The name and clock are those of its dot, so no two entries of a replica
/// have the same row. Rows are ordered by topic, key, name, process, clock and metadata, words by their bytes.
#[derive(Debug, Drop)]
pub struct OnlineRow<A: Allocator> {
    pub topic: Word<A>,
    pub key: Word<A>,
    pub name: u16,
    pub pid: u64,
    pub clock: u64,
    pub metadata: Word<A>,
}

impl<A: Allocator> Model for OnlineRow<A> {
    ghost use Rattle.diff_core.specs.Rows.{Row};

    ghost Value = { Row };

    ghost view = { λ r. record { topic = r.topic; key = r.key; name = r.name; pid = r.pid; clock = r.clock; metadata = r.metadata } };
}

impl<A: Allocator> OnlineRow<A> {
    /// The row of an entry, with copies of its words.
    pub fn of(entry: &Entry<A>) -> Result<OnlineRow<A>, Oom>
    where
        A: Copy,
        ensures { IfOk result (λ row. row ≡ row_of (entry.now.dot, presence_of entry.now)) }
    {
        Ok(OnlineRow {
            topic: entry.topic().try_copy()?,
            key: entry.key().try_copy()?,
            name: entry.dot.name,
            pid: entry.pid,
            clock: entry.dot.clock,
            metadata: entry.metadata().try_copy()?,
        })
    }

    /// The row of an entry whose words are all stored inline. It asks for no memory.
    fn of_short(entry: &Entry<A>) -> OnlineRow<A>
        requires { IsShort entry.now }
        ensures { result ≡ row_of (entry.now.dot, presence_of entry.now) }
    {
        OnlineRow {
            topic: entry.topic().copy_short(),
            key: entry.key().copy_short(),
            name: entry.dot.name,
            pid: entry.pid,
            clock: entry.dot.clock,
            metadata: entry.metadata().copy_short(),
        }
    }

    /// Appends the row of an entry to `rows`, with copies of the entry's words.
    pub(crate) fn put(rows: &mut Vec<OnlineRow<A>, A>, entry: &Entry<A>) -> Result<(), Oom>
    where
        A: Copy,
        ensures { OnOk result (rows.new.items ≡ rows.old.items ++ row_of (entry.now.dot, presence_of entry.now) ∷ []) }
    {
        let row = if entry.is_short() {
            OnlineRow::of_short(entry)
        } else {
            OnlineRow::of(entry)?
        };
        Ok(rows.push(row)?)
    }

    /// Whether both rows have the same fields. It asks for no memory. Its contract says that the values are equal; the
    /// contract of `==` says only that neither comes before the other.
    pub fn same<'call>(&'call self, other: &'call OnlineRow<A>) -> bool
        ensures { IsTrue result ↔ (self.now ≡ other.now) }
    {
        self.topic.same(&other.topic)
            && self.key.same(&other.key)
            && self.name == other.name
            && self.pid == other.pid
            && self.clock == other.clock
            && self.metadata.same(&other.metadata)
    }

    /// A copy of the row and of its words.
    pub fn try_copy(&self) -> Result<OnlineRow<A>, Oom>
    where
        A: Copy,
        ensures { IfOk result (λ copy. copy ≡ self.now) }
    {
        Ok(OnlineRow {
            topic: self.topic.try_copy()?,
            key: self.key.try_copy()?,
            name: self.name,
            pid: self.pid,
            clock: self.clock,
            metadata: self.metadata.try_copy()?,
        })
    }
}

impl<A: Allocator> PartialEq for OnlineRow<A> {
    ghost eq = { eq_by_cmp row_cmp };

    ghost laws = { partial_equiv_from_equiv row_equiv };

    fn eq(&self, other: &Self) -> bool {
        self.cmp(other) == Ordering::Equal
    }
}

impl<A: Allocator> Eq for OnlineRow<A> {
    ghost laws = { row_equiv };
}

impl<A: Allocator> PartialOrd for OnlineRow<A> {
    ghost partial_cmp = { λ one other. Some (row_cmp one other) };

    ghost laws = { row_po };

    fn partial_cmp(&self, other: &Self) -> Option<Ordering> {
        Some(self.cmp(other))
    }
}

/// Ordered by topic, key, name, process, clock and metadata, words by their bytes.
impl<A: Allocator> Ord for OnlineRow<A> {
    ghost cmp = { row_cmp };

    ghost total = { row_total };

    ghost matches_partial_cmp = { λ one other. refl };

    ghost matches_eq = { row_ties };

    fn cmp(&self, other: &Self) -> Ordering {
        self.topic
            .cmp(&other.topic)
            .then_with(|| self.key.cmp(&other.key))
            .then_with(|| self.name.cmp(&other.name))
            .then_with(|| self.pid.cmp(&other.pid))
            .then_with(|| self.clock.cmp(&other.clock))
            .then_with(|| self.metadata.cmp(&other.metadata))
    }
}
