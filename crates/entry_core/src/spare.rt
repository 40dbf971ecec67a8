//! `Spare`, memory that was asked for ahead of an insert, so that the insert needs no more.
ghost use Rattle.std.specs.Prelude.{◌≡◌, ◌<◌, ◌≤◌, ◌∷◌, [], IfOk, length, vec_capacity};
ghost use Rattle.entry_core.specs.Lists.{AreShort};

use crate::entry::Entry;
use crate::handle::Handle;
use dots_core::Oom;
use std::alloc::Allocator;
use std::marker::Model;

/// How many entries a list may have at most if it is to move into a spare.
const MOST: usize = 64;

/// A list of handles, in memory that no other list shares.
pub type OwnList<A> = Box<Vec<Handle<A>, A>, A>;

/// An empty list with room for `MOST` entries, and a box for each of them; until `boxed` is called, there is one box
/// more. A contract sees the number of boxes.
#[derive(Drop)]
pub struct Spare<A: Allocator> {
    list: OwnList<A>,
    boxes: Vec<Box<Entry<A>, A>, A>,
}

impl<A: Allocator> Model for Spare<A> {
    ghost use Rattle.std.specs.Prelude.{◌≡◌, ◌≤◌, ℕ, [], vec_capacity, vec_len};

    ghost Value = { ℕ };

    ghost view = { λ s. vec_len s.boxes };

    ghost invariant = { λ s. record {
      empty : s.list.value.items ≡ [];
      room : 64 ≤ vec_capacity s.list.value;
      boxes : 64 ≤ vec_len s.boxes;
    } };
}

impl<A: Allocator> Spare<A> {
    /// A spare with `MOST + 1` boxes.
    pub fn new(alloc: A) -> Result<Spare<A>, Oom>
    where
        A: Copy,
        ensures { IfOk result (λ spare. 64 < spare) }
    {
        let boxes = boxes(alloc)?;
        let list = Box::new(alloc, Vec::with_capacity(alloc, MOST)?)?;
        Ok(Spare { list, boxes })
    }

    /// Moves the entry into the last of the boxes, and gives a handle of it.
    pub fn boxed(&mut self, entry: Entry<A>) -> Handle<A>
        requires { 64 < self.old }
        ensures { result ≡ entry }
    {
        let own = self.boxes.take_last();
        Handle::in_box(entry, own)
    }

    /// The spare's list, with this entry put in. It takes no memory.
    pub fn with(self, entry: Handle<A>) -> OwnList<A>
        ensures { result.value.items ≡ entry ∷ [] }
    {
        let mut list = self.list;
        list.push_reserved(entry);
        list
    }

    /// The spare's list, with these entries moved in, which leaves `entries` empty. It takes no memory.
    pub(crate) fn moved(self, entries: &mut Vec<Handle<A>, A>) -> OwnList<A>
        requires { length entries.old.items ≤ 64 }
        ensures items { result.value.items ≡ entries.old.items }
        ensures room { 64 ≤ vec_capacity result.value }
    {
        let mut list = self.list;
        move_over(&mut list, entries);
        list
    }

    /// The spare's list, with copies of these entries, whose words are all stored inline. It takes no memory.
    pub(crate) fn copied(self, entries: &[Handle<A>]) -> OwnList<A>
        requires few { length entries.now ≤ 64 }
        requires short { AreShort entries.now }
        ensures items { result.value.items ≡ entries.now }
        ensures room { 64 ≤ vec_capacity result.value }
    {
        let Spare {
            mut list,
            mut boxes,
        } = self;
        copy_each(&mut list, &mut boxes, entries);
        list
    }
}

/// `MOST + 1` boxes, each with a placeholder.
fn boxes<A: Allocator + Copy>(alloc: A) -> Result<Vec<Box<Entry<A>, A>, A>, Oom>
    ensures { IfOk result (λ boxes. 64 < length boxes.items) }
{
    let mut boxes = Vec::with_capacity(alloc, MOST + 1)?;
    for _ in 0..MOST + 1 {
        boxes.push_reserved(Box::new(alloc, Entry::filler())?);
    }
    Ok(boxes)
}

/// Moves the entries into an empty list that has room for them, so that no memory is asked for.
fn move_over<A: Allocator>(list: &mut Vec<Handle<A>, A>, entries: &mut Vec<Handle<A>, A>)
    requires empty { list.old.items ≡ [] }
    requires room { length entries.old.items ≤ vec_capacity list.old }
    ensures items { list.new.items ≡ entries.old.items }
    ensures room { vec_capacity list.old ≤ vec_capacity list.new }
{
    // form: the checker asks for the type of the result here
    let moved: Result<_, _> = list.append(entries);
    moved.unwrap();
}

/// Puts copies of `entries`, whose words are all stored inline, into an empty list that has room for them. Each copy
/// takes a box out of `boxes`.
fn copy_each<A: Allocator>(
    list: &mut Vec<Handle<A>, A>,
    boxes: &mut Vec<Box<Entry<A>, A>, A>,
    entries: &[Handle<A>],
)
    requires empty { list.old.items ≡ [] }
    requires room { length entries.now ≤ vec_capacity list.old }
    requires boxes { length entries.now ≤ length boxes.old.items }
    requires short { AreShort entries.now }
    ensures items { list.new.items ≡ entries.now }
    ensures room { vec_capacity list.new ≡ vec_capacity list.old }
{
    for entry in entries {
        let own = boxes.take_last();
        list.push_reserved(Handle::in_box(entry.entry().copy_short(), own));
    }
}
