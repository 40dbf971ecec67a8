//! Edits of the list of a block. The list may hold entries that aren't live.
ghost use Rattle.std.specs.Prelude.{◌≡◌, ◌∷◌, [], ◌<◌, ◌≤◌, ◌⊎◌, IfErr, IfOk, IsOk, IsSome, OnErr, OnOk, Some, length, slice_get, vec_capacity};
ghost use Rattle.std.specs.FinMap as fin;
ghost use Rattle.std.specs.List.{remove};
ghost use Rattle.block_core.specs.Blocks.{AreNear, IsPutIn, live_map};
ghost use Rattle.entry_core.specs.EntryLists.{Rises};
ghost use Rattle.entry_core.specs.Lists.{AreShort};

use dots_core::Oom;
use entry_core::entry_list::{live_copies, put, set};
use entry_core::spot::spot_in;
use entry_core::{Entry, EntryList, Handle, Spare};
use std::alloc::Allocator;

/// Takes the entry at `place` out of the list, or copies it if others share the list. It takes no memory.
pub fn take_out<A: Allocator>(items: &mut EntryList<A>, place: usize) -> Entry<A>
    requires { place < length items.old }
    ensures entry { Some result ≡ slice_get items.old place }
    ensures rest { (items.new ≡ remove items.old place) ⊎ (items.new ≡ items.old) }
{
    match items.take_own(place) {
        Some(entry) => entry.into_entry(),
        None => copy_at(items.as_slice(), place),
    }
}

/// Moves the entry at `place` out of the list, or gives a further handle of it if others share the list. An `Err`
/// changes nothing.
pub fn take_handle<A: Allocator>(
    items: &mut EntryList<A>,
    place: usize,
    alloc: A,
) -> Result<Handle<A>, Oom>
    requires { place < length items.old }
    ensures entry { IfOk result (λ e. Some e ≡ slice_get items.old place) }
    ensures rest { OnOk result ((items.new ≡ remove items.old place) ⊎ (items.new ≡ items.old)) }
    ensures err { OnErr result (items.new ≡ items.old) }
{
    match items.take_own(place) {
        Some(entry) => Ok(entry),
        None => share_at(items.as_slice(), place, alloc),
    }
}

/// One more handle of the entry at `place`.
fn share_at<A: Allocator>(entries: &[Handle<A>], place: usize, alloc: A) -> Result<Handle<A>, Oom>
    requires { place < length entries.now }
    ensures { IfOk result (λ e. Some e ≡ slice_get entries.now place) }
{
    entries[place].try_share(alloc)
}

/// Drops the entry at `place`. If others share the list, nothing changes.
pub fn let_go<A: Allocator>(items: &mut EntryList<A>, place: usize)
    requires { place < length items.old }
    ensures { (items.new ≡ remove items.old place) ⊎ (items.new ≡ items.old) }
{
    match items.take_own(place) {
        Some(entry) => drop(entry),
        None => {}
    }
}

/// A copy of the entry at `place`, whose words are all stored inline. It takes no memory.
fn copy_at<A: Allocator>(entries: &[Handle<A>], place: usize) -> Entry<A>
    requires within { place < length entries.now }
    requires short { AreShort entries.now }
    ensures { Some result ≡ slice_get entries.now place }
{
    entries[place].entry().copy_short()
}

/// A list of this entry alone. Its memory is taken out of `spare`, or asked for if that is `None`. If memory is
/// refused, the entry comes back.
pub fn list_of<A: Allocator + Copy>(
    entry: Handle<A>,
    spare: &mut Option<Spare<A>>,
    alloc: A,
) -> Result<EntryList<A>, Handle<A>>
    ensures ok { IfOk result (λ list. list ≡ entry ∷ []) }
    ensures given_back { IfErr result (λ back. back ≡ entry) }
    ensures succeeds { IsSome spare.old → IsOk result }
{
    match spare.take() {
        Some(spare) => Ok(spare_list(entry, spare)),
        None => one_list(entry, alloc),
    }
}

/// Like `list_of`, but always asks for the memory.
fn one_list<A: Allocator + Copy>(entry: Handle<A>, alloc: A) -> Result<EntryList<A>, Handle<A>>
    ensures ok { IfOk result (λ list. list ≡ entry ∷ []) }
    ensures given_back { IfErr result (λ back. back ≡ entry) }
{
    match Vec::with_capacity(alloc, 1) {
        Ok(list) => filled(list, entry, alloc),
        Err(_) => Err(entry),
    }
}

/// Puts the entry into `list`, which is empty and has room for it, and makes an `EntryList` of `list`. If memory is
/// refused, the entry comes back.
fn filled<A: Allocator>(
    mut list: Vec<Handle<A>, A>,
    entry: Handle<A>,
    alloc: A,
) -> Result<EntryList<A>, Handle<A>>
    requires empty { list.items ≡ [] }
    requires room { 0 < vec_capacity list }
    ensures ok { IfOk result (λ list. list ≡ entry ∷ []) }
    ensures given_back { IfErr result (λ back. back ≡ entry) }
{
    list.push_reserved(entry);
    match EntryList::of(list, alloc) {
        Ok(list) => Ok(list),
        Err(mut list) => Err(list.remove(0)),
    }
}

/// A list of this entry alone, in the memory of a spare.
fn spare_list<A: Allocator>(entry: Handle<A>, spare: Spare<A>) -> EntryList<A>
    ensures { result ≡ entry ∷ [] }
{
    EntryList::of_own(spare.with(entry))
}

/// Puts an entry whose dot isn't live into the list. If there is a spare, it is used up: the list's entries move into
/// its memory, or are copied there. Without a spare the entry goes into the list itself or, if the list refuses it,
/// into a copy of the live entries, which then is the list. If memory is refused, the entry comes back.
pub fn put_in<A: Allocator + Copy>(
    items: &mut EntryList<A>,
    live: u64,
    entry: Handle<A>,
    spare: &mut Option<Spare<A>>,
    alloc: A,
) -> Result<(), Handle<A>>
    requires rises { Rises items.old }
    requires near { AreNear entry.dot items.old }
    requires new { fin.get (live_map live items.old) entry.dot ≡ None }
    ensures ok { OnOk result (IsPutIn live entry items.old items.new) }
    ensures err { OnErr result (items.new ≡ items.old) }
    ensures given_back { IfErr result (λ back. back ≡ entry) }
    ensures succeeds { IsSome spare.old → IsOk result }
{
    match spare.take() {
        Some(spare) => {
            put_in_spare(items, live, entry, spare);
            Ok(())
        }
        None => put_own_or_copy(items, live, entry, alloc),
    }
}

/// Like `put_in`, but without a spare: puts the entry into the list itself or, if the list refuses it, into a copy of
/// the live entries, which then is the list.
fn put_own_or_copy<A: Allocator + Copy>(
    items: &mut EntryList<A>,
    live: u64,
    entry: Handle<A>,
    alloc: A,
) -> Result<(), Handle<A>>
    requires rises { Rises items.old }
    requires near { AreNear entry.dot items.old }
    requires new { fin.get (live_map live items.old) entry.dot ≡ None }
    ensures ok { OnOk result (IsPutIn live entry items.old items.new) }
    ensures err { OnErr result (items.new ≡ items.old) }
    ensures given_back { IfErr result (λ back. back ≡ entry) }
{
    match put_own(items, live, entry) {
        Ok(()) => Ok(()),
        Err(entry) => put_in_copy(items, live, entry, alloc),
    }
}

/// Puts the entry into the list itself. The entry comes back if others share the list, if others may share the list and
/// the entry has a long word, or if memory is refused.
fn put_own<A: Allocator>(
    items: &mut EntryList<A>,
    live: u64,
    entry: Handle<A>,
) -> Result<(), Handle<A>>
    requires rises { Rises items.old }
    requires near { AreNear entry.dot items.old }
    requires new { fin.get (live_map live items.old) entry.dot ≡ None }
    ensures ok { OnOk result (IsPutIn live entry items.old items.new) }
    ensures err { OnErr result (items.new ≡ items.old) }
    ensures given_back { IfErr result (λ back. back ≡ entry) }
{
    match spot_in(items.as_slice(), live, entry.dot()) {
        Ok(place) => items.swap_own(place, entry),
        Err(place) => items.put_own(place, entry),
    }
}

/// Replaces the list by a copy of its live entries, with this entry put in. If memory is refused, the entry comes back.
fn put_in_copy<A: Allocator + Copy>(
    items: &mut EntryList<A>,
    live: u64,
    entry: Handle<A>,
    alloc: A,
) -> Result<(), Handle<A>>
    requires rises { Rises items.old }
    requires near { AreNear entry.dot items.old }
    requires new { fin.get (live_map live items.old) entry.dot ≡ None }
    ensures ok { OnOk result (IsPutIn live entry items.old items.new) }
    ensures err { OnErr result (items.new ≡ items.old) }
    ensures given_back { IfErr result (λ back. back ≡ entry) }
{
    match live_copies(items.as_slice(), live, alloc) {
        Ok(list) => match listed_with(list, live, entry, alloc) {
            Ok(list) => {
                *items = list;
                Ok(())
            }
            Err(entry) => Err(entry),
        },
        Err(_) => Err(entry),
    }
}

/// Inserts `entry` into `list`, and makes an `EntryList` of `list`. If memory is refused, the entry comes back.
fn listed_with<A: Allocator>(
    mut list: Vec<Handle<A>, A>,
    live: u64,
    entry: Handle<A>,
    alloc: A,
) -> Result<EntryList<A>, Handle<A>>
    requires rises { Rises list.items }
    requires near { AreNear entry.dot list.items }
    requires new { fin.get (live_map live list.items) entry.dot ≡ None }
    ensures ok { IfOk result (λ more. IsPutIn live entry list.items more) }
    ensures given_back { IfErr result (λ back. back ≡ entry) }
{
    match put_among(&mut list, live, entry) {
        Ok(place) => match EntryList::of(list, alloc) {
            Ok(list) => Ok(list),
            Err(mut list) => Err(list.remove(place)),
        },
        Err(entry) => Err(entry),
    }
}

/// Moves or copies the list into the memory of a spare, and puts the entry in. It asks for no memory.
fn put_in_spare<A: Allocator>(
    items: &mut EntryList<A>,
    live: u64,
    entry: Handle<A>,
    spare: Spare<A>,
)
    requires rises { Rises items.old }
    requires near { AreNear entry.dot items.old }
    requires new { fin.get (live_map live items.old) entry.dot ≡ None }
    ensures { IsPutIn live entry items.old items.new }
{
    let mut list = items.move_to(spare);
    let put = put_among(&mut list, live, entry);
    put.unwrap();
    *items = EntryList::of_own(list);
}

/// Inserts `entry` into `list`. If `list` has an entry of the same dot, which then isn't live, `entry` replaces that.
/// Gives the place of `entry`. If memory is refused, the entry comes back.
fn put_among<A: Allocator>(
    list: &mut Vec<Handle<A>, A>,
    live: u64,
    entry: Handle<A>,
) -> Result<usize, Handle<A>>
    requires rises { Rises list.old.items }
    requires near { AreNear entry.dot list.old.items }
    requires new { fin.get (live_map live list.old.items) entry.dot ≡ None }
    ensures ok { OnOk result (IsPutIn live entry list.old.items list.new.items) }
    ensures place { IfOk result (λ place. Some entry ≡ slice_get list.new.items place) }
    ensures err { OnErr result (list.new.items ≡ list.old.items) }
    ensures given_back { IfErr result (λ back. back ≡ entry) }
    ensures succeeds { 64 ≤ vec_capacity list.old → IsOk result }
{
    match spot_in(list, live, entry.dot()) {
        Ok(place) => {
            set(list, place, entry);
            Ok(place)
        }
        Err(place) => match put(list, place, entry) {
            Ok(()) => Ok(place),
            Err(entry) => Err(entry),
        },
    }
}
