//! `Outbox`, the numbered messages of a node.
ghost use Rattle.std.specs.Prelude.{◌≡◌, ◌↔◌, ◌+◌, ◌<◌, ◌≤◌, ◌++◌, ◌∷◌, [], IfErr, IfOk, IsErrAnd, IsOk, IsSome, IsTrue, OnErr, OnOk, length};
ghost use Rattle.std.specs.Option.{option_copied, option_to_list};
ghost use Rattle.payload_core.specs.Messages.{numbered};
ghost use Rattle.payload_core.specs.declared.outbox.OutboxFault.TheVariants.{OutOfMemory};

use crate::payload::Payload;
use dots_core::Oom;
use std::alloc::Allocator;
use std::marker::Model;
use thiserror::Error;

/// Why a push was refused.
#[derive(Clone, Copy, Debug, PartialEq, Eq, Error)]
pub enum OutboxFault {
    /// The outbox holds as many messages as it may.
    #[error("OutboxFull")]
    OutboxFull,
    /// Memory was refused.
    #[error("OutOfMemory")]
    OutOfMemory,
}

impl From<Oom> for OutboxFault {
    ghost from_gives = { λ _ fault. fault ≡ OutOfMemory };

    fn from(_oom: Oom) -> OutboxFault {
        OutboxFault::OutOfMemory
    }
}

/// The messages of a node, numbered from 1 in the order in which they were sent. There are never more than `limit` of
/// them.
#[derive(Drop)]
pub struct Outbox<'a, B: Allocator> {
    limit: u64,
    messages: Vec<Payload<&'a B>, &'a B>,
}

impl<'a, B: Allocator> Model for Outbox<'a, B> {
    ghost use Rattle.std.specs.Prelude.{◌-◌, ◌≤◌, length, vec_capacity, vec_len};
    ghost use Rattle.payload_core.specs.Outboxes.{Outbox, outbox_code};

    ghost Value = { Outbox };

    ghost coded = { outbox_code };

    ghost view = { λ o. record { limit = o.limit; messages = o.messages.items; room = vec_capacity o.messages - vec_len o.messages } };

    ghost invariant = { λ o. length o.messages.items ≤ o.limit };
}

impl<'a, B: Allocator> Outbox<'a, B> {
    /// An empty outbox for at most `messages` messages. It takes no memory.
    pub fn new(alloc: &'a B, messages: u64) -> Outbox<'a, B>
        ensures limit { result.limit ≡ messages }
        ensures empty { result.messages ≡ [] }
    {
        Outbox {
            limit: messages,
            messages: Vec::new(alloc),
        }
    }

    /// How many messages the outbox holds, which is the number of the last one; 0 if there is none.
    pub fn len(&self) -> usize
        ensures len { result ≡ length self.now.messages }
        ensures within { length self.now.messages ≤ self.now.limit }
    {
        self.messages.len()
    }

    /// Whether the outbox holds no message.
    pub fn is_empty(&self) -> bool
        ensures { IsTrue result ↔ (self.now.messages ≡ []) }
    {
        self.messages.is_empty()
    }

    /// Whether the outbox holds as many messages as it may.
    pub fn is_full(&self) -> bool
        ensures { IsTrue result ↔ (self.now.limit ≤ length self.now.messages) }
    {
        self.limit <= self.len() as u64
    }

    /// The message with this number, counted from 1; `None` if there is none.
    pub fn get(&self, number: u64) -> Option<&Payload<&'a B>>
        ensures { option_copied result ≡ numbered self.now.messages number }
    {
        match number {
            0 => None,
            _ => self.messages.get((number - 1) as usize),
        }
    }

    /// Takes out the last message, whose number is free again; `None` if there is none. The room never falls.
    pub fn pop(&mut self) -> Option<Payload<&'a B>>
        ensures found { IsSome result ↔ (0 < length self.old.messages) }
        ensures messages { self.old.messages ≡ self.new.messages ++ option_to_list result }
        ensures limit { self.new.limit ≡ self.old.limit }
        ensures room { self.old.room ≤ self.new.room }
    {
        self.messages.pop()
    }

    /// Makes room: after an `Ok`, the next push isn't refused memory. The messages stay, and so does the room that was
    /// made before, even if memory is refused.
    pub fn make_room(&mut self) -> Result<(), Oom>
        ensures messages { self.new.messages ≡ self.old.messages }
        ensures limit { self.new.limit ≡ self.old.limit }
        ensures room_stays { self.old.room ≤ self.new.room }
        ensures ok { OnOk result (0 < self.new.room) }
    {
        self.messages.reserve(1)
    }

    /// Puts the message after the others, and gives its number. A fault gives the message back; `OutboxFull` comes
    /// before `OutOfMemory`.
    pub fn push(&mut self, payload: Payload<&'a B>) -> Result<u64, (Payload<&'a B>, OutboxFault)>
        ensures number { IfOk result (λ number. number ≡ length self.old.messages + 1) }
        ensures ok { OnOk result (self.new.messages ≡ self.old.messages ++ payload.entry ∷ []) }
        ensures limit { self.new.limit ≡ self.old.limit }

        ensures full { self.old.limit ≤ length self.old.messages → IsErrAnd result (λ failed. failed.1 ≡ OutboxFault.OutboxFull) }
        ensures full_only_at_limit { IfErr result (λ failed. failed.1 ≡ OutboxFault.OutboxFull → self.old.limit ≤ length self.old.messages) }
        ensures succeeds { 0 < self.old.room → length self.old.messages < self.old.limit → IsOk result }
        ensures err { OnErr result (self.new.messages ≡ self.old.messages) }
        ensures given_back { IfErr result (λ failed. failed.0 ≡ payload.entry) }
    {
        if self.is_full() {
            return Err((payload, OutboxFault::OutboxFull));
        }
        if let Err(failed) = self.messages.push(payload) {
            return Err((failed.value, OutboxFault::OutOfMemory));
        }
        Ok(self.len() as u64)
    }

    /// Whether both have the same limit and the same messages, whatever their room. It takes no memory.
    pub fn same(&self, other: &Outbox<'a, B>) -> bool
        ensures { IsTrue result ↔ ((self.now.limit ≡ other.now.limit) × (self.now.messages ≡ other.now.messages)) }
    {
        if self.limit != other.limit || self.len() != other.len() {
            return false;
        }
        // form: a loop, for the proof
        for (place, message) in self.messages.iter().enumerate() {
            if !message.same(&other.messages[place]) {
                return false;
            }
        }
        true
    }

    /// A copy of the outbox, with the same limit.
    pub fn try_copy(&self) -> Result<Outbox<'a, B>, Oom>
        ensures limit { IfOk result (λ copy. copy.limit ≡ self.now.limit) }
        ensures messages { IfOk result (λ copy. copy.messages ≡ self.now.messages) }
    {
        let mut messages = Vec::with_capacity(*self.messages.allocator(), self.len())?;
        for message in &self.messages {
            messages.push(message.try_copy()?)?;
        }
        Ok(Outbox {
            limit: self.limit,
            messages,
        })
    }
}
