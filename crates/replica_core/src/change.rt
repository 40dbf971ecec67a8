//! `Change`: what a call destroyed. It is kept to take the call back, and it tells what the call moved.
ghost use Rattle.std.specs.Prelude.{◌≡◌, [], ◌∷◌, length, option_copied, slice_get};
ghost use Rattle.store_core.specs.LeavesTogether.{entries_left};
ghost use Rattle.replica_core.specs.Changes.{plain_change};
ghost use Rattle.replica_core.specs.Moves.{hidden_by, joined_by, left_by, shown_by};
ghost use Rattle.replica_core.specs.Replicas.{Replica as PlainReplica};

use crate::replica::Replica;
use crate::status::Status;
use dots_core::Dot;
use payload_core::{Entry, Handle};
use std::alloc::Allocator;
use store_core::{Delivered, Forgotten, Left};

/// What one call of a replica destroyed: `Replica::undo` takes the call back with it (Danos and Krivine: causal undo).
/// What is large stands in a box: most calls destroy nothing, and whoever keeps a change has room for the largest.
#[derive(Drop)]
pub enum Change<A: Allocator> {
    /// A join destroys nothing, and its dot is the last own dot.
    Join,
    /// The entry that left, and what the delta had at its dot.
    Leave(Box<Left<A>, A>),
    /// For each entry that left, by rising dot: the entry, and what the delta had at its dot.
    LeaveAll(Vec<Left<A>, A>),
    /// The old entry, and what the delta had at its dot.
    Update(Box<Left<A>, A>),
    /// The name, and its status before, if it was known.
    Up {
        name: u16,
        before: Option<Status>,
    },
    /// The name, and its status before, which is never `None`: a name that goes down was known.
    Down {
        name: u16,
        before: Option<Status>,
    },
    /// The name, which was down, and the dots and entries that the replica held of it.
    Permdown {
        name: u16,
        forgotten: Box<Forgotten<A>, A>,
    },
    /// The dots whose entries joined, the entries that left, and the old parts of the names whose dots changed.
    Deliver(Box<Delivered<A>, A>),
}

impl<A: Allocator> Change<A> {
    /// How many entries the call made leave.
    pub fn left_len(&self) -> usize
        ensures { result ≡ length (left_by (plain_change self.now)) }
    {
        match self {
            Change::Leave(_) | Change::Update(_) => 1,
            Change::LeaveAll(lefts) => lefts.len(),
            Change::Permdown { forgotten, .. } => forgotten.entries.len(),
            Change::Deliver(delivered) => delivered.left.len(),
            Change::Join | Change::Up { .. } | Change::Down { .. } => 0,
        }
    }

    /// The entry at `place`, counted from 0, of those that left, by rising dot; `None` past the last.
    pub fn left_at(&self, place: usize) -> Option<&Entry<A>>
        ensures { option_copied result ≡ slice_get (left_by (plain_change self.now)) place }
    {
        match self {
            Change::Leave(left) | Change::Update(left) => first_of(left.entry.entry(), place),
            Change::LeaveAll(lefts) => entry_at(lefts, place),
            Change::Permdown { forgotten, .. } => entry_of(forgotten.entries.get(place)),
            Change::Deliver(delivered) => entry_of(delivered.left.get(place)),
            Change::Join | Change::Up { .. } | Change::Down { .. } => None,
        }
    }

    /// How many dots joined with their entries.
    pub fn joined_len(&self) -> usize
        ensures { (after : PlainReplica) → result ≡ length (joined_by (plain_change self.now) after) }
    {
        match self {
            Change::Join | Change::Update(_) => 1,
            Change::Deliver(delivered) => delivered.joined.len(),
            _ => 0,
        }
    }

    /// The dot at `place`, counted from 0, of those that joined, by rising dot; `None` past the last. `after` is the
    /// replica as the call left it.
    pub fn joined_at<'call>(&'call self, place: usize, after: &'call Replica<A>) -> Option<Dot>
        ensures { result ≡ slice_get (joined_by (plain_change self.now) after.now) place }
    {
        match self {
            Change::Join | Change::Update(_) => dot_at(&[after.last()], place),
            Change::Deliver(delivered) => dot_at(&delivered.joined, place),
            _ => None,
        }
    }

    /// The name that is up since the call and wasn't before; `None` if there is none.
    pub fn shown(&self) -> Option<u16>
        ensures { result ≡ shown_by (plain_change self.now) }
    {
        match self {
            Change::Up { name, before } if *before != Some(Status::Up) => Some(*name),
            _ => None,
        }
    }

    /// The name that was up before the call and isn't since; `None` if there is none.
    pub fn hidden(&self) -> Option<u16>
        ensures { result ≡ hidden_by (plain_change self.now) }
    {
        match self {
            Change::Down { name, before } if *before == Some(Status::Up) => Some(*name),
            _ => None,
        }
    }
}

/// The dot of the list at `place`, counted from 0; `None` past the end.
fn dot_at(dots: &[Dot], place: usize) -> Option<Dot>
    ensures { result ≡ slice_get dots.now place }
{
    dots.get(place).copied()
}

/// The entry of the handle; `None` if there is no handle.
fn entry_of<A: Allocator>(handle: Option<&Handle<A>>) -> Option<&Entry<A>>
    ensures { option_copied result ≡ option_copied handle.entry }
{
    match handle {
        Some(handle) => Some(handle.entry()),
        None => None,
    }
}

/// The entry if `place` is 0; `None` otherwise.
fn first_of<A: Allocator>(entry: &Entry<A>, place: usize) -> Option<&Entry<A>>
    ensures { option_copied result ≡ slice_get (entry.now ∷ []) place }
{
    if place == 0 { Some(entry) } else { None }
}

/// The entry of `lefts` at `place`, counted from 0; `None` past the end.
fn entry_at<A: Allocator>(lefts: &[Left<A>], place: usize) -> Option<&Entry<A>>
    ensures { option_copied result ≡ slice_get (entries_left lefts.now) place }
{
    match lefts.get(place) {
        Some(left) => Some(left.entry.entry()),
        None => None,
    }
}
