//! `Journal`: the steps that remain, each with its inverse, and which of them follow from which.
ghost use Rattle.std.specs.Prelude.{◌≡◌, ◌++◌, ◌∷◌, [], ◌<◌, ◌≤◌, IsOk, IfErr, IfOk, OnOk, OnErr, map, option_map, option_copied};
ghost use Rattle.std.specs.Prelude.{slice_get, length, Some, None};
ghost use Rattle.std.specs.List.{Contains};
ghost use Rattle.dots_core.specs.Names.{most_names};
ghost use Rattle.node_core.specs.Operations.{plain};
ghost use Rattle.node_core.specs.Inverses.{plain_inverse};
ghost use Rattle.journal_core.specs.Journals.{find_number, first_consequence, last_of, AreInCausalOrder, IsOfNode};
ghost use Rattle.journal_core.specs.Futures.{IsFuture};
ghost use Rattle.journal_core.specs.Holdings.{kepts, find_held, inverse_of, with_inverse, without_held, plain_room, room_for, AreAllHeld, IsLent, CanBeKept};

use crate::causes::Causes;
use crate::edits::{keep, make_all_room, make_sure, take_out};
use crate::future::future;
use crate::held::Held;
use crate::kept::Kept;
use crate::numbers::least;
use crate::room::Room;
use crate::slots::Slots;
use crate::steps::Steps;
use dots_core::Oom;
use node_core::{Inverse, Step};
use std::alloc::Allocator;
use std::marker::Model;

/// The steps that remain, by rising number, each with its inverse beside it, unless that is lent. No delivery stands
/// before the step that sent its message.
///
/// A contract sees the steps with their inverses (`None` for one that is lent), how many nodes there are, and the kinds
/// of steps for which room was made since a step was last kept.
#[derive(Drop)]
pub struct Journal<'a, B: Allocator> {
    slots: Slots<'a, B>,
    /// For each node, its steps and which steps deliver its messages.
    causes: Vec<Causes<'a, B>, &'a B>,
    room: Vec<Room, &'a B>,
}

impl<'a, B: Allocator> Model for Journal<'a, B> {
    ghost use Rattle.std.specs.Prelude.{length, map};
    ghost use Rattle.journal_core.specs.Holdings.{Journal, journal_code, kepts, plain_room};
    ghost use Rattle.journal_core.specs.Causes.{IsIndexed};
    ghost use Rattle.journal_core.specs.Rooms.{ArePromised};

    ghost Value = { Journal };

    ghost coded = { journal_code };

    ghost view = { λ j. record { nodes = length j.causes.items; steps = j.slots.steps; room = map plain_room j.room.items } };

    ghost invariant = { λ j. IsIndexed (kepts j.slots.steps) j.causes.items × ArePromised j.causes.items j.slots.room (map plain_room j.room.items) };
}

impl<'a, B: Allocator> Journal<'a, B> {
    /// A journal for `nodes` nodes, without steps.
    pub fn new(alloc: &'a B, nodes: u16) -> Result<Self, Oom>
        requires { nodes ≤ most_names }
        ensures { IfOk result (λ journal. journal ≡ record { nodes = nodes; steps = []; room = [] }) }
    {
        let mut causes = Vec::with_capacity(alloc, nodes as usize)?;
        for _ in 0..nodes {
            causes.push(Causes::new(alloc))?;
        }
        let slots = Slots::new(alloc);
        let room = Vec::new(alloc);
        Ok(Journal {
            slots,
            causes,
            room,
        })
    }

    /// How many steps remain.
    pub fn len(&self) -> usize
        ensures { result ≡ length (kepts self.now.steps) }
    {
        self.slots.len()
    }

    /// The step at `place`, counted from 0; `None` past the last. It takes one read, or a walk if a step was taken out
    /// from before another step that still remains.
    pub fn at(&self, place: usize) -> Option<&Kept<&'a B>>
        ensures { option_copied result ≡ slice_get (kepts self.now.steps) place }
    {
        match self.slots.at(place) {
            Some(held) => Some(held.kept()),
            None => None,
        }
    }

    /// A walk over the steps that remain, by rising number.
    pub fn steps(&self) -> Steps<'_, 'a, B>
        ensures { result ≡ kepts self.now.steps }
    {
        self.slots.steps()
    }

    /// The step of this number; `None` if it doesn't remain.
    pub fn find(&self, number: u64) -> Option<&Kept<&'a B>>
        ensures { option_copied result ≡ find_number (kepts self.now.steps) number }
    {
        match self.slots.find(number) {
            Some(held) => Some(held.kept()),
            None => None,
        }
    }

    /// The inverse of the step of this number; `None` if the step doesn't remain or its inverse is lent.
    pub fn inverse(&self, number: u64) -> Option<&Inverse<&'a B>>
        ensures { option_map (λ i. plain_inverse i.now) result ≡ inverse_of (find_held self.now.steps number) }
    {
        let held = self.slots.find(number);
        match held {
            Some(held) => held.inverse(),
            None => None,
        }
    }

    /// The number of the last step of the node; `None` if the node has none.
    pub fn last_of(&self, node: u16) -> Option<u64>
        requires { node < self.now.nodes }
        ensures { result ≡ last_of (kepts self.now.steps) node }
    {
        self.causes[node as usize].last()
    }

    /// The number of the least direct consequence of step `number`: a later step of its node, or a delivery of the
    /// message that it sent. `None` if there is none, or if step `number` doesn't remain.
    pub fn first_consequence(&self, number: u64) -> Option<u64>
        ensures { result ≡ first_consequence (kepts self.now.steps) number }
    {
        let Some(kept) = self.find(number) else {
            return None;
        };
        self.first_consequence_at(kept.node, number)
    }

    /// Like `first_consequence`, for a step that remains and is one of `node`. It doesn't look for the step.
    pub fn first_consequence_at(&self, node: u16, number: u64) -> Option<u64>
        requires { IsOfNode (kepts self.now.steps) number node }
        ensures { result ≡ first_consequence (kepts self.now.steps) number }
    {
        let causes = &self.causes[node as usize];
        least(causes.next(number), causes.first_delivery(number))
    }

    /// The future of a step: its number and the numbers of all that follows from it, greatest first. It is empty if the
    /// step doesn't remain.
    pub fn future(&self, number: u64) -> Result<Vec<u64, &'a B>, Oom>
        ensures future { IfOk result (λ numbers. IsFuture (kepts self.now.steps) number numbers.items) }
        ensures in_order { AreInCausalOrder (kepts self.now.steps) }
    {
        future(
            &self.slots,
            self.causes.as_slice(),
            number,
            *self.causes.allocator(),
        )
    }

    /// Makes room for a step like `step` at `node`. After an `Ok`, the next `keep` isn't refused if its step is of this
    /// node, delivers what `step` delivers, and sends a message just if `step` does. Room that was made before stays.
    pub fn make_room(&mut self, node: u16, step: &Step<&'a B>) -> Result<(), Oom>
        requires { node < self.old.nodes }
        ensures nodes { self.new.nodes ≡ self.old.nodes }
        ensures steps { self.new.steps ≡ self.old.steps }
        ensures ok { OnOk result (self.new.room ≡ self.old.room ++ room_for node (plain step.now) ∷ []) }
        ensures err { OnErr result (self.new ≡ self.old) }
    {
        let room = Room::of(node, step);
        make_all_room(&mut self.slots, &mut self.causes, room)?;
        self.room.push(room)?;
        Ok(())
    }

    /// Appends a step with its inverse; after that no room counts as made. If memory is refused, step and inverse come
    /// back, and the journal is unchanged.
    pub fn keep(
        &mut self,
        number: u64,
        node: u16,
        step: Step<&'a B>,
        inverse: Inverse<&'a B>,
    ) -> Result<(), (Step<&'a B>, Inverse<&'a B>, Oom)>
        requires { CanBeKept self.old number node (plain step) }
        ensures ok { OnOk result (self.new ≡ record self.old {
          steps = self.old.steps ++ (record {
            kept = record { number = number; node = node; step = plain step.entry };
            inverse = Some (plain_inverse inverse.entry);
          }) ∷ [];
          room = [];
        }) }
        ensures succeeds { Contains self.old.room (room_for node (plain step.entry)) → IsOk result }
        ensures err { OnErr result (self.new ≡ self.old) }
        ensures step_given_back { IfErr result (λ failed. plain failed.0 ≡ plain step.entry) }
        ensures inverse_given_back { IfErr result (λ failed. plain_inverse failed.1 ≡ plain_inverse inverse.entry) }
    {
        let room = Room::of(node, &step);
        let made = make_sure(
            &mut self.slots,
            &mut self.causes,
            self.room.as_slice(),
            room,
        );
        if made.is_err() {
            return Err((step, inverse, Oom));
        }
        self.room.clear();
        let kept = Kept { number, node, step };
        keep(&mut self.slots, &mut self.causes, Held::new(kept, inverse));
        Ok(())
    }

    /// Lends the inverse of step `number`; `None` if the step doesn't remain. No other inverse may be lent meanwhile.
    pub fn lend(&mut self, number: u64) -> Option<Inverse<&'a B>>
        requires { AreAllHeld self.old.steps }
        ensures value { option_map plain_inverse result ≡ inverse_of (find_held self.old.steps number) }
        ensures after { self.new ≡ record { nodes = self.old.nodes; steps = with_inverse self.old.steps number None; room = self.old.room } }
    {
        self.slots.lend(number)
    }

    /// Ends a loan: puts the inverse beside step `number` again.
    pub fn put_back(&mut self, number: u64, inverse: Inverse<&'a B>)
        requires { IsLent self.old.steps number }
        ensures { self.new ≡ record self.old { steps = with_inverse self.old.steps number (Some (plain_inverse inverse.entry)) } }
    {
        self.slots.put_back(number, inverse);
    }

    /// Ends a loan: takes out step `number`, from which nothing follows. Every other step keeps its inverse.
    pub fn take_out(&mut self, number: u64)
        requires lent { IsLent self.old.steps number }
        requires free { first_consequence (kepts self.old.steps) number ≡ None }
        ensures { self.new ≡ record { nodes = self.old.nodes; steps = without_held self.old.steps number; room = self.old.room } }
    {
        take_out(&mut self.slots, &mut self.causes, number);
    }

    /// Drops the journal. A crate that calls this needs no proof of how the parts of a journal are dropped.
    pub fn discard(self) {
        drop(self);
    }
}
