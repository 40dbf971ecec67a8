//! `Causes`, the index of one node: its steps, and which steps deliver its messages.
ghost use Rattle.std.specs.Prelude.{◌≡◌, ℕ, ◌≤◌, ◌++◌, ◌∷◌, [], ◌<◌, ◌+◌, ◌-◌, None, Some, OnOk, length, take};
ghost use Rattle.smallvec.specs.SmallVec.{HasRoomFor};
ghost use Rattle.journal_core.specs.Numbers.{Rises, first_above, last, all_but};
ghost use Rattle.journal_core.specs.Causes.{first_delivered, delivered, deliveries_at, SameBut, AddsMessage, IsSameIndex};

use crate::numbers::{first_above, place};
use dots_core::Oom;
use smallvec::SmallVec;
use std::alloc::Allocator;
use std::marker::Model;

/// For one node: the rising numbers of its steps, and of its sending steps; and for each sending step the rising
/// numbers of the steps that deliver its message.
#[derive(Drop)]
pub(crate) struct Causes<'a, B: Allocator> {
    own: Vec<u64, &'a B>,
    sent: Vec<u64, &'a B>,
    deliveries: Vec<SmallVec<u64, 4, &'a B>, &'a B>,
}

impl<'a, B: Allocator> Model for Causes<'a, B> {
    ghost use Rattle.std.specs.Prelude.{◌≡◌, ◌-◌, min, length, vec_len, vec_capacity};
    ghost use Rattle.journal_core.specs.Numbers.{Rises};
    ghost use Rattle.journal_core.specs.Causes.{Causes, causes_code, AllRise};

    ghost Value = { Causes };

    ghost coded = { causes_code };

    ghost view = { λ c. record {
      own = c.own.items;
      sent = c.sent.items;
      deliveries = c.deliveries.items;
      room =
          min (vec_capacity c.own - vec_len c.own)
          (min (vec_capacity c.sent - vec_len c.sent) (vec_capacity c.deliveries - vec_len c.deliveries));
    } };

    ghost invariant = { λ c. Rises c.own.items × Rises c.sent.items × AllRise c.deliveries.items × (length c.sent.items ≡ length c.deliveries.items) };
}

impl<'a, B: Allocator> Causes<'a, B> {
    pub(crate) fn new(alloc: &'a B) -> Causes<'a, B>
        ensures own { result.own ≡ [] }
        ensures sent { result.sent ≡ [] }
        ensures deliveries { result.deliveries ≡ [] }
    {
        Causes {
            own: Vec::new(alloc),
            sent: Vec::new(alloc),
            deliveries: Vec::new(alloc),
        }
    }

    /// The number of the node's last step; `None` if the node has no step.
    pub(crate) fn last(&self) -> Option<u64>
        ensures { result ≡ last None self.now.own }
    {
        self.own.last().copied()
    }

    /// The number of the node's first step above `number`; `None` if there is none.
    pub(crate) fn next(&self, number: u64) -> Option<u64>
        ensures { result ≡ first_above number self.now.own }
    {
        first_above(&self.own, number)
    }

    /// The number of the first step that delivers the message of step `number`; `None` if there is none, or if step
    /// `number` sent no message.
    pub(crate) fn first_delivery(&self, number: u64) -> Option<u64>
        ensures { result ≡ first_delivered self.now.sent self.now.deliveries number }
    {
        let Some(place) = place(&self.sent, number) else {
            return None;
        };
        self.deliveries[place].first().copied()
    }

    /// The numbers of the steps that deliver the message of step `number`; none if step `number` sent no message.
    pub(crate) fn deliveries_of(&self, number: u64) -> &[u64]
        ensures { result.now ≡ delivered self.now.sent self.now.deliveries number }
    {
        match place(&self.sent, number) {
            Some(place) => self.deliveries[place].as_slice(),
            None => &[],
        }
    }

    /// How many of the node's sending steps remain, which is the number of its last message.
    pub(crate) fn messages(&self) -> usize
        ensures { result ≡ length self.now.deliveries }
    {
        self.deliveries.len()
    }

    /// Makes room for one more step, whether it sends a message or not.
    pub(crate) fn make_room(&mut self) -> Result<(), Oom>
        ensures same { IsSameIndex self.old self.new }
        ensures ok { OnOk result (0 < self.new.room) }
        ensures more { self.old.room ≤ self.new.room }
        ensures deliveries { self.new.deliveries ≡ self.old.deliveries }
    {
        self.own.reserve(1)?;
        self.sent.reserve(1)?;
        self.deliveries.reserve(1)
    }

    /// Makes room for one more delivery of the message at `place`, counted from 0.
    pub(crate) fn make_room_at(&mut self, place: usize) -> Result<(), Oom>
        requires { place < length self.old.deliveries }
        ensures same { IsSameIndex self.old self.new }
        ensures ok { OnOk result (HasRoomFor (deliveries_at self.new.deliveries place) 1) }
        ensures room { self.new.room ≡ self.old.room }
        ensures more { (p : ℕ) → HasRoomFor (deliveries_at self.old.deliveries p) 1 → HasRoomFor (deliveries_at self.new.deliveries p) 1 }
    {
        self.deliveries[place].reserve(1)
    }

    /// Appends step `number`, which sends nothing and for which there is room.
    pub(crate) fn push(&mut self, number: u64)
        requires room { 0 < self.old.room }
        requires rises { Rises (self.old.own ++ number ∷ []) }
        ensures own { self.new.own ≡ self.old.own ++ number ∷ [] }
        ensures sent { self.new.sent ≡ self.old.sent }
        ensures deliveries { self.new.deliveries ≡ self.old.deliveries }
    {
        self.own.push_reserved(number);
    }

    /// Appends step `number`, which sends a message and for which there is room.
    pub(crate) fn push_sending(&mut self, number: u64)
        requires room { 0 < self.old.room }
        requires rises { Rises (self.old.own ++ number ∷ []) }
        requires sent { Rises (self.old.sent ++ number ∷ []) }
        ensures own { self.new.own ≡ self.old.own ++ number ∷ [] }
        ensures sent { self.new.sent ≡ self.old.sent ++ number ∷ [] }
        ensures deliveries { AddsMessage self.old.deliveries self.new.deliveries }
    {
        let alloc = *self.deliveries.allocator();
        self.own.push_reserved(number);
        self.sent.push_reserved(number);
        self.deliveries.push_reserved(SmallVec::new(alloc));
    }

    /// Appends step `number` to the deliveries of the message at `place`, for which there is room.
    pub(crate) fn deliver(&mut self, place: usize, number: u64)
        requires place { place < length self.old.deliveries }
        requires room { HasRoomFor (deliveries_at self.old.deliveries place) 1 }
        requires rises { Rises ((deliveries_at self.old.deliveries place).items ++ number ∷ []) }
        ensures own { self.new.own ≡ self.old.own }
        ensures sent { self.new.sent ≡ self.old.sent }
        ensures room { self.new.room ≡ self.old.room }
        ensures other { SameBut place self.old.deliveries self.new.deliveries }
        ensures at { (deliveries_at self.new.deliveries place).items ≡ (deliveries_at self.old.deliveries place).items ++ number ∷ [] }
    {
        self.deliveries[place].push_reserved(number);
    }

    /// Takes the last step, which sent nothing, out of the index.
    pub(crate) fn pop(&mut self)
        ensures own { self.new.own ≡ take (length self.old.own - 1) self.old.own }
        ensures sent { self.new.sent ≡ self.old.sent }
        ensures deliveries { self.new.deliveries ≡ self.old.deliveries }
        ensures room { self.old.room ≤ self.new.room }
    {
        self.own.pop();
    }

    /// Takes the last step, which sent a message, and its message out of the index.
    pub(crate) fn pop_sending(&mut self)
        ensures own { self.new.own ≡ take (length self.old.own - 1) self.old.own }
        ensures sent { self.new.sent ≡ take (length self.old.sent - 1) self.old.sent }
        ensures deliveries { self.new.deliveries ≡ take (length self.old.deliveries - 1) self.old.deliveries }
        ensures room { self.old.room ≤ self.new.room }
    {
        self.own.pop();
        self.sent.pop();
        drop(self.deliveries.pop());
    }

    /// Takes step `number` out of the deliveries of the message at `place`, if the step is among them.
    pub(crate) fn undeliver(&mut self, place: usize, number: u64)
        requires { place < length self.old.deliveries }
        ensures own { self.new.own ≡ self.old.own }
        ensures sent { self.new.sent ≡ self.old.sent }
        ensures room { self.new.room ≡ self.old.room }
        ensures other { SameBut place self.old.deliveries self.new.deliveries }
        ensures at { (deliveries_at self.new.deliveries place).items ≡ all_but number (deliveries_at self.old.deliveries place).items }
        ensures more { HasRoomFor (deliveries_at self.old.deliveries place) 1 → HasRoomFor (deliveries_at self.new.deliveries place) 1 }
    {
        remove(&mut self.deliveries[place], number);
    }
}

/// Takes `number` out of a rising list, if it is there.
fn remove<B: Allocator>(numbers: &mut SmallVec<u64, 4, &B>, number: u64)
    requires { Rises numbers.old.items }
    ensures items { numbers.new.items ≡ all_but number numbers.old.items }
    ensures more { HasRoomFor numbers.old 1 → HasRoomFor numbers.new 1 }
{
    if let Some(place) = place(numbers.as_slice(), number) {
        numbers.remove(place);
    }
}
