//! Forgetting a name in a store, and remembering it.
ghost use Rattle.std.specs.Prelude.{◌≡◌, ◌≢◌, ◌==◌, ◌<◌, IfErr, IfOk, OnErr, OnOk};
ghost use Rattle.std.specs.FinMap as fin;
ghost use Rattle.std.specs.FinSet as set;
ghost use Rattle.dots_core.specs.Names.{most_names};
ghost use Rattle.store_core.specs.DeltaStores.{CanBeRemembered, with_remembered};
ghost use Rattle.store_core.specs.ForgottenNames.{Holds};
ghost use Rattle.entry_core.specs.Presences.{entries_of_names};
ghost use Rattle.store_core.specs.Stores.{is_other, part};

use crate::delta_store::DeltaStore;
use crate::entry_moves::{handles_of, put_each, take_out_each};
use dots_core::{Dot, Oom, Part};
use entry_core::Handle;
use payload_core::EntrySet;
use std::alloc::Allocator;
use std::marker::Model;

/// What a store held of a name: the name's context clock and cloud, and the name's entries by rising dot.
#[derive(Drop)]
pub struct Forgotten<A: Allocator> {
    pub part: Part<A>,
    pub entries: Vec<Handle<A>, A>,
}

impl<A: Allocator> Model for Forgotten<A> {
    ghost use Rattle.store_core.specs.ForgottenNames.{Forgotten};

    ghost Value = { Forgotten };

    ghost view = { λ f. record { part = f.part; entries = f.entries.items } };
}

impl<A: Allocator + Copy> DeltaStore<A> {
    /// Forgets `name`, which isn't the own name: takes out its dots and entries. The delta stays, as it has own dots
    /// alone. What the store held of the name is returned, for `remember`. An `Err` changes nothing.
    pub fn forget(&mut self, name: u16) -> Result<Box<Forgotten<A>, A>, Oom>
        requires name { name < most_names }
        requires other { name ≢ self.old.own }
        ensures forgotten { OnOk result (self.new ≡ record self.old { store = part (is_other name) self.old.store }) }
        ensures held { IfOk result (λ forgotten. Holds name self.old.store forgotten.value) }
        ensures can_be_remembered { IfOk result (λ forgotten. CanBeRemembered name forgotten.value self.new) }
        ensures back { IfOk result (λ forgotten. with_remembered name forgotten.value self.new ≡ self.old) }
        ensures err { OnErr result (self.new ≡ self.old) }
    {
        let alloc = self.entries.allocator();
        let dots = dots_of_name(&self.entries, name, alloc)?;
        let entries = handles_of(&self.entries, &dots, alloc)?;
        let part = self.seen.drop_name(name);
        match Box::new(alloc, Forgotten { part, entries }) {
            Ok(forgotten) => {
                take_out_each(&mut self.entries, &dots);
                Ok(forgotten)
            }
            Err(failed) => {
                self.seen.set_part(name, failed.value.part);
                Err(Oom)
            }
        }
    }

    /// Puts back `forgotten`, the dots and entries that the store held of the name. If memory is refused, `forgotten`
    /// comes back, and nothing changes.
    pub fn remember(
        &mut self,
        name: u16,
        forgotten: Box<Forgotten<A>, A>,
    ) -> Result<(), (Box<Forgotten<A>, A>, Oom)>
        requires { CanBeRemembered name forgotten.value self.old }
        ensures ok { OnOk result (self.new ≡ with_remembered name forgotten.value self.old) }
        ensures err { OnErr result (self.new ≡ self.old) }
        ensures given_back { IfErr result (λ failed. failed.0 ≡ forgotten) }
    {
        if let Err(failed) = put_each(&mut self.entries, &forgotten.entries) {
            return Err((forgotten, failed));
        }
        self.seen.set_part(name, Box::into_inner(forgotten).part);
        Ok(())
    }
}

/// The dots of the name's entries, rising.
fn dots_of_name<A: Allocator + Copy>(
    entries: &EntrySet<A>,
    name: u16,
    alloc: A,
) -> Result<Vec<Dot, A>, Oom>
    ensures { IfOk result (λ dots. dots.items ≡ fin.keys (entries_of_names (λ n. n == name) entries.now.map)) }
{
    let mut dots = Vec::new(alloc);
    let mut walk = entries.walk_of(name);
    while let Some(entry) = walk.next() {
        dots.push(entry.dot)?;
    }
    Ok(dots)
}
