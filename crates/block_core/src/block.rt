//! `Block`: the live entries of one name among 64 clocks.
ghost use Rattle.std.specs.Prelude.{◌≡◌, ◌==◌, ◌↔◌, IsTrue, ◌<◌, ◌≤◌, ◌/◌, ◌^◌, ◌++◌, IfErr, IfOk, IsOk, IsSome, OnErr, OnOk, is_some, filter, map, Some};
ghost use Rattle.std.specs.FinMap as fin;
ghost use Rattle.std.specs.Option.{option_copied, option_map};
ghost use Rattle.entry_core.specs.EntryLists.{pairs};
ghost use Rattle.entry_core.specs.Masks.{is_live};
ghost use Rattle.entry_core.specs.Lists.{live_ones};
ghost use Rattle.entry_core.specs.Presences.{entry_of, presence_of};
ghost use Rattle.block_core.specs.Blocks.{IsIn, IsMaskOf};
ghost use Rattle.block_core.specs.Sets.{IsWithin, is_before, key, listed};
ghost use Rattle.dots_core.specs.Dots.{dot};

use crate::list_edits::{let_go, list_of, put_in, take_handle, take_out};
use dots_core::{Dot, Oom};
use entry_core::spot::{handle_at, spot_in};
use entry_core::{Entry, EntryList, Handle, Spare, mask, masked};
use std::alloc::Allocator;
use std::marker::Model;

/// The live entries of a name among the 64 clocks from `base * 64` on. The block's list may also hold entries that
/// aren't live: they were removed from the block while other sets shared the list.
#[derive(Drop)]
pub struct Block<A: Allocator> {
    name: u16,
    count: u8,
    base: u64,
    live: u64,
    items: EntryList<A>,
}

impl<A: Allocator> Model for Block<A> {
    ghost use Rattle.std.specs.Prelude.{◌≡◌, ◌<◌, ◌^◌};
    ghost use Rattle.std.specs.FinMap as fin;
    ghost use Rattle.entry_core.specs.EntryLists.{Rises};
    ghost use Rattle.block_core.specs.Blocks.{AreIn, Block, IsMaskOf, block_code, live_map};

    ghost Value = { Block };

    ghost coded = { block_code };

    ghost view = { λ b. record { name = b.name; base = b.base; map = live_map b.live b.items } };

    ghost invariant = { λ b. record {
      rises : Rises b.items;
      within : AreIn b.name b.base b.items;
      counted : b.count ≡ fin.len (live_map b.live b.items);
      told : IsMaskOf b.name b.base b.live (live_map b.live b.items);
      small : b.base < 2 ^ 58;
    } };
}

impl<A: Allocator> Block<A> {
    /// The name of the block's entries.
    pub fn name(&self) -> u16
        ensures { result ≡ self.now.name }
    {
        self.name
    }

    /// The base of the block, whose clocks are the 64 from `base * 64` on.
    pub fn base(&self) -> u64
        ensures base { result ≡ self.now.base }
        ensures small { result < 2 ^ 58 }
    {
        self.base
    }

    /// Whether the block is below `name` and `base`, by name and then by base.
    pub fn is_before(&self, name: u16, base: u64) -> bool
        ensures { result ≡ is_before (dot name base) self.now }
    {
        (self.name, self.base) < (name, base)
    }

    /// Whether the block has this name and this base.
    pub fn is(&self, name: u16, base: u64) -> bool
        ensures { IsTrue result ↔ (key self.now ≡ dot name base) }
    {
        self.name == name && self.base == base
    }

    /// Does nothing. Its contract says that the entries are of the block's name and base.
    pub fn told(&self)
        ensures { IsWithin self.now }
    {
        // form: the proof reads the field here
        let _ = &self.name;
    }

    /// How many entries are live.
    pub fn len(&self) -> usize
        ensures len { result ≡ fin.len self.now.map }
        ensures most { result ≤ 64 }
    {
        usize::from(self.count)
    }

    /// The clocks of the block's live entries, as a mask.
    pub fn live(&self) -> u64
        ensures { IsMaskOf self.now.name self.now.base result self.now.map }
    {
        self.live
    }

    /// Appends to `dots` the dots of the live entries whose clocks are in the mask. If memory is refused, some may have
    /// been appended.
    pub fn push_dots(&self, dots: &mut Vec<Dot, A>, mask: u64) -> Result<(), Oom>
        ensures { OnOk result (dots.new.items ≡ dots.old.items ++ map (λ p. p.0) (filter (λ p. is_live mask p.0) (fin.entries self.now.map))) }
    {
        let both = mask::both(self.live, mask);
        if both == 0 {
            return Ok(());
        }
        masked::push_dots(dots, self.items.as_slice(), both)
    }

    /// The entries of the block's list, live or not, and a mask of those that are live.
    pub fn entries(&self) -> (&[Handle<A>], u64)
        ensures { listed self.now.map ≡ live_ones result.1 result.0.now }
    {
        (self.items.as_slice(), self.live)
    }

    /// The live entry of the dot, or `None` if there is none.
    pub fn get(&self, dot: Dot) -> Option<&Handle<A>>
        ensures { option_copied result ≡ option_map (entry_of dot) (fin.get self.now.map dot) }
    {
        if !mask::has(self.live, dot.clock) {
            return None;
        }
        let entries = self.items.as_slice();
        match spot_in(entries, self.live, dot) {
            Ok(place) => handle_at(entries, place),
            Err(_) => None,
        }
    }

    /// Takes out the live entry of the dot; `None` if there is no such entry. The dot must be one of the block's 64. It
    /// takes no memory.
    pub fn remove(&mut self, dot: Dot) -> Option<Entry<A>>
        requires { IsIn self.old.name self.old.base dot }
        ensures entry { result ≡ option_map (entry_of dot) (fin.get self.old.map dot) }
        ensures map { self.new.map ≡ fin.remove self.old.map dot }
        ensures name { self.new.name ≡ self.old.name }
        ensures base { self.new.base ≡ self.old.base }
    {
        if !mask::has(self.live, dot.clock) {
            return None;
        }
        match spot_in(self.items.as_slice(), self.live, dot) {
            Ok(place) => {
                let entry = take_out(&mut self.items, place);
                self.live = mask::without(self.live, dot.clock);
                self.count -= 1;
                Some(entry)
            }
            Err(_) => None,
        }
    }

    /// Drops the live entry of the dot, and says whether there was one. The dot must be one of the block's 64. It takes
    /// no memory.
    pub fn discard(&mut self, dot: Dot) -> bool
        requires { IsIn self.old.name self.old.base dot }
        ensures was { result ≡ is_some (fin.get self.old.map dot) }
        ensures map { self.new.map ≡ fin.remove self.old.map dot }
        ensures name { self.new.name ≡ self.old.name }
        ensures base { self.new.base ≡ self.old.base }
    {
        if !mask::has(self.live, dot.clock) {
            return false;
        }
        match spot_in(self.items.as_slice(), self.live, dot) {
            Ok(place) => {
                let_go(&mut self.items, place);
                self.live = mask::without(self.live, dot.clock);
                self.count -= 1;
                true
            }
            Err(_) => false,
        }
    }
}

impl<A: Allocator + Copy> Block<A> {
    /// A block with this entry alone. Its memory is taken out of `spare`, or asked for if that is `None`. If memory is
    /// refused, the entry comes back.
    pub fn of(
        entry: Handle<A>,
        spare: &mut Option<Spare<A>>,
        alloc: A,
    ) -> Result<Block<A>, Handle<A>>
        ensures name { IfOk result (λ block. block.name ≡ entry.dot.name) }
        ensures base { IfOk result (λ block. block.base ≡ entry.dot.clock / 64) }
        ensures map { IfOk result (λ block. block.map ≡ fin.insert fin.empty entry.dot (presence_of entry)) }
        ensures given_back { IfErr result (λ back. back ≡ entry) }
        ensures succeeds { IsSome spare.old → IsOk result }
    {
        let dot = entry.dot();
        match list_of(entry, spare, alloc) {
            Ok(items) => Ok(Block {
                name: dot.name,
                count: 1,
                base: dot.clock / 64,
                live: mask::with(0, dot.clock),
                items,
            }),
            Err(entry) => Err(entry),
        }
    }

    /// Appends to `list` handles of the live entries whose clocks are in the mask. If memory is refused, some may have
    /// been appended.
    pub fn push_copies(&self, list: &mut Vec<Handle<A>, A>, mask: u64, alloc: A) -> Result<(), Oom>
        ensures { OnOk result (pairs list.new.items ≡ pairs list.old.items ++ filter (λ p. is_live mask p.0) (fin.entries self.now.map)) }
    {
        let both = mask::both(self.live, mask);
        if both == 0 {
            return Ok(());
        }
        masked::push_copies(list, self.items.as_slice(), both, alloc)
    }

    /// Inserts an entry whose dot is one of the block's 64 and isn't live yet. Memory is taken out of `spare`, or asked
    /// for if that is `None`. If memory is refused, the entry comes back.
    pub fn insert(
        &mut self,
        entry: Handle<A>,
        spare: &mut Option<Spare<A>>,
        alloc: A,
    ) -> Result<(), Handle<A>>
        requires within { IsIn self.old.name self.old.base entry.dot }
        requires new { fin.get self.old.map entry.dot ≡ None }
        ensures map { OnOk result (self.new.map ≡ fin.insert self.old.map entry.dot (presence_of entry)) }
        ensures name { self.new.name ≡ self.old.name }
        ensures base { self.new.base ≡ self.old.base }
        ensures err { OnErr result (self.new ≡ self.old) }
        ensures given_back { IfErr result (λ back. back ≡ entry) }
        ensures succeeds { IsSome spare.old → IsOk result }
    {
        let clock = entry.dot().clock;
        match put_in(&mut self.items, self.live, entry, spare, alloc) {
            Ok(()) => {
                self.live = mask::with(self.live, clock);
                self.count += 1;
                Ok(())
            }
            Err(entry) => Err(entry),
        }
    }

    /// Takes out the live entry of the dot as a handle: the list's own, or a further one if others share the list.
    /// `Ok(None)` if there is no such entry. The dot must be one of the block's 64. An `Err` changes nothing.
    pub fn take(&mut self, dot: Dot, alloc: A) -> Result<Option<Handle<A>>, Oom>
        requires { IsIn self.old.name self.old.base dot }
        ensures entry { IfOk result (λ taken. taken ≡ option_map (entry_of dot) (fin.get self.old.map dot)) }
        ensures map { OnOk result (self.new.map ≡ fin.remove self.old.map dot) }
        ensures name { self.new.name ≡ self.old.name }
        ensures base { self.new.base ≡ self.old.base }
        ensures err { OnErr result (self.new ≡ self.old) }
    {
        if !mask::has(self.live, dot.clock) {
            return Ok(None);
        }
        match spot_in(self.items.as_slice(), self.live, dot) {
            Ok(place) => match take_handle(&mut self.items, place, alloc) {
                Ok(entry) => {
                    self.live = mask::without(self.live, dot.clock);
                    self.count -= 1;
                    Ok(Some(entry))
                }
                Err(failed) => Err(failed),
            },
            Err(_) => Ok(None),
        }
    }

    /// A copy of the block. A list that may be shared is shared once more, any other is copied.
    pub fn try_share(&self, alloc: A) -> Result<Block<A>, Oom>
        ensures { IfOk result (λ copy. copy ≡ self.now) }
    {
        Ok(Block {
            name: self.name,
            count: self.count,
            base: self.base,
            live: self.live,
            items: self.items.try_share(alloc)?,
        })
    }
}
