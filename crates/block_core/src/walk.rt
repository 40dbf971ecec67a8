//! `Walk`, which goes over entries by rising dot.
ghost use Rattle.std.specs.Prelude.{◌≡◌, ◌∷◌, [], MatchOption, filter, option_copied};
ghost use Rattle.block_core.specs.Sets.{listed_in, wants};

use crate::block::Block;
use entry_core::masked::next_live;
use entry_core::{Entry, Handle};
use std::alloc::Allocator;
use std::marker::Model;

/// The entries that a walk has still to give, by rising dot: those of all names, or those of `name` alone. A contract
/// sees them as a list.
#[derive(Drop)]
pub struct Walk<'a, A: Allocator> {
    entries: &'a [Handle<A>],
    live: u64,
    blocks: &'a [Block<A>],
    name: Option<u16>,
}

impl<'a, A: Allocator> Model for Walk<'a, A> {
    ghost use Rattle.std.specs.Prelude.{◌++◌, List, filter};
    ghost use Rattle.entry_core.specs.Lists.{live_ones};
    ghost use Rattle.entry_core.specs.Presences.{Entry as Plain};
    ghost use Rattle.block_core.specs.Sets.{listed_in, wants};

    ghost Value = { List Plain };

    ghost view = { λ w. live_ones w.live w.entries.now ++ listed_in (filter (λ b. wants w.name b.name) w.blocks.now) };
}

impl<'a, A: Allocator> Walk<'a, A> {
    /// A walk over the entries of these blocks: those of `name`, or of all names if `name` is `None`.
    pub fn over(blocks: &'a [Block<A>], name: Option<u16>) -> Walk<'a, A>
        ensures { result ≡ listed_in (filter (λ b. wants name b.name) blocks.now) }
    {
        Walk {
            entries: &[],
            live: 0,
            blocks,
            name,
        }
    }

    /// Steps on, and gives the next entry; `None` at the end.
    pub fn next(&mut self) -> Option<&'a Entry<A>>
        ensures { MatchOption (option_copied result) (self.old ≡ []) (λ e. self.old ≡ e ∷ self.new) }
    {
        // form: the proof names the loop
        'blocks: loop {
            if let Some((entry, rest)) = next_live(self.entries, self.live) {
                self.entries = rest;
                return Some(entry.entry());
            }
            let (block, rest) = self.blocks.split_first()?;
            self.blocks = rest;
            if is_wanted(self.name, block.name()) {
                let (entries, live) = block.entries();
                self.entries = entries;
                self.live = live;
            }
        }
    }
}

/// Whether `name` is wanted: it is `wanted`, or `wanted` is `None`.
fn is_wanted(wanted: Option<u16>, name: u16) -> bool
    ensures { result ≡ wants wanted name }
{
    match wanted {
        Some(wanted) => name == wanted,
        None => true,
    }
}
