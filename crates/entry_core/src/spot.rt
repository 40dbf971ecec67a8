//! Where the entry of a dot stands in a list whose entries are in the order of their dots.
ghost use Rattle.std.specs.Prelude.{◌≡◌, ◌<◌, ◌≤◌, Err, IfErr, IfOk, Ok, length, slice_get, true};
ghost use Rattle.std.specs.Option.{option_copied};
ghost use Rattle.entry_core.specs.EntryLists.{IsBefore, IsBehind, Rises, spot};

use crate::entry::Entry;
use crate::handle::Handle;
use crate::mask;
use crate::masked::is_below;
use dots_core::Dot;
use std::alloc::Allocator;

/// `Ok` with the place of the dot's entry, or `Err` with the place where it would stand. The first guess is the number
/// of mask bits that are set below the dot's bit, which is right if the mask has exactly the clocks of these entries.
/// If the guess is wrong, a binary search finds the place.
pub fn spot_in<A: Allocator>(entries: &[Handle<A>], mask: u64, dot: Dot) -> Result<usize, usize>
    requires { Rises entries.now }
    ensures place { result ≡ spot dot entries.now }
    ensures found { IfOk result (λ place. place < length entries.now) }
    ensures missing { IfErr result (λ place. place ≤ length entries.now) }
{
    let rank = mask::rank(mask, dot.clock);
    if is_place(entries, rank, dot) {
        return Ok(rank);
    }
    if is_gap(entries, rank, dot) {
        return Err(rank);
    }
    search(entries, dot)
}

/// Whether the dot's entry stands at `place`.
fn is_place<A: Allocator>(entries: &[Handle<A>], place: usize, dot: Dot) -> bool
    requires { Rises entries.now }
    ensures { result ≡ true → (place < length entries.now) × (spot dot entries.now ≡ Ok place) }
{
    match entry_at(entries, place) {
        Some(entry) => entry.dot == dot,
        None => false,
    }
}

/// Whether the dot has no entry in the list, and its entry would stand at `place`.
fn is_gap<A: Allocator>(entries: &[Handle<A>], place: usize, dot: Dot) -> bool
    requires { Rises entries.now }
    ensures { result ≡ true → (place ≤ length entries.now) × (spot dot entries.now ≡ Err place) }
{
    if place > entries.len() {
        return false;
    }
    if !is_behind(entries, place, dot) {
        return false;
    }
    is_before(entries, place, dot)
}

/// Whether `dot` is above the dot of the entry before `place`: `true` if `place` is 0, `false` if `place` is beyond the
/// end of the list.
fn is_behind<A: Allocator>(entries: &[Handle<A>], place: usize, dot: Dot) -> bool
    ensures { result ≡ true → IsBehind dot entries.now place }
{
    if place == 0 {
        return true;
    }
    match entry_at(entries, place - 1) {
        Some(entry) => is_below(entry.dot, dot),
        None => false,
    }
}

/// Whether `dot` is below the dot of the entry at `place`; `true` if there is no such entry.
fn is_before<A: Allocator>(entries: &[Handle<A>], place: usize, dot: Dot) -> bool
    ensures { result ≡ true → IsBefore dot entries.now place }
{
    match entry_at(entries, place) {
        Some(entry) => is_below(dot, entry.dot),
        None => true,
    }
}

/// Like `spot_in`, but without a mask, by a binary search.
fn search<A: Allocator>(entries: &[Handle<A>], dot: Dot) -> Result<usize, usize>
    requires { Rises entries.now }
    ensures place { result ≡ spot dot entries.now }
    ensures found { IfOk result (λ place. place < length entries.now) }
    ensures missing { IfErr result (λ place. place ≤ length entries.now) }
{
    entries.binary_search_by_key(&(dot.name, dot.clock), |entry| {
        let at = entry.dot();
        (at.name, at.clock)
    })
}

/// The entry at `place`, counted from 0; `None` past the end.
pub fn handle_at<A: Allocator>(entries: &[Handle<A>], place: usize) -> Option<&Handle<A>>
    ensures { option_copied result ≡ slice_get entries.now place }
{
    entries.get(place)
}

/// Like `handle_at`, but gives the entry itself.
fn entry_at<A: Allocator>(entries: &[Handle<A>], place: usize) -> Option<&Entry<A>>
    ensures { option_copied result ≡ slice_get entries.now place }
{
    match entries.get(place) {
        Some(entry) => Some(entry.entry()),
        None => None,
    }
}
