//! The entries of a list whose clocks are in a mask.
ghost use Rattle.std.specs.Prelude.{◌≡◌, ◌++◌, ◌∷◌, [], MatchOption, OnOk, map};
ghost use Rattle.std.specs.Ordering.{is_lt};
ghost use Rattle.dots_core.specs.Dots.{dot_cmp};
ghost use Rattle.entry_core.specs.Lists.{live_ones};

use crate::handle::Handle;
use crate::mask;
use dots_core::{Dot, Oom};
use std::alloc::Allocator;

/// Appends to `list` handles of the entries whose clocks are in the mask. If memory is refused, some may have been
/// appended.
pub fn push_copies<A: Allocator + Copy>(
    list: &mut Vec<Handle<A>, A>,
    entries: &[Handle<A>],
    mask: u64,
    alloc: A,
) -> Result<(), Oom>
    ensures { OnOk result (list.new.items ≡ list.old.items ++ live_ones mask entries.now) }
{
    for entry in entries {
        if mask::has(mask, entry.dot().clock) {
            list.push(entry.try_share(alloc)?)?;
        }
    }
    Ok(())
}

/// Appends to `dots` the dots of the entries whose clocks are in the mask. If memory is refused, some may have been
/// appended.
pub fn push_dots<A: Allocator>(
    dots: &mut Vec<Dot, A>,
    entries: &[Handle<A>],
    mask: u64,
) -> Result<(), Oom>
    ensures { OnOk result (dots.new.items ≡ dots.old.items ++ map (λ e. e.dot) (live_ones mask entries.now)) }
{
    for entry in entries {
        if mask::has(mask, entry.dot().clock) {
            dots.push(entry.dot())?;
        }
    }
    Ok(())
}

/// Whether `one` is below `other`: by name, and then by clock.
pub fn is_below(one: Dot, other: Dot) -> bool
    ensures { result ≡ is_lt (dot_cmp one other) }
{
    (one.name, one.clock) < (other.name, other.clock)
}

/// The first entry whose clock is in the mask, with the entries after it; `None` if there is no such entry.
pub fn next_live<A: Allocator>(
    entries: &[Handle<A>],
    mask: u64,
) -> Option<(&Handle<A>, &[Handle<A>])>
    ensures { MatchOption result (live_ones mask entries.now ≡ []) (λ p. live_ones mask entries.now ≡ p.0.now ∷ live_ones mask p.1.now) }
{
    for (at, entry) in entries.iter().enumerate() {
        if mask::has(mask, entry.dot().clock) {
            return Some((entry, &entries[at + 1..]));
        }
    }
    None
}
