//! `Payload`, a message of a node.
ghost use Rattle.std.specs.Prelude.{◌≡◌, ◌↔◌, IfOk, IfSome, IsTrue};
ghost use Rattle.payload_core.specs.Messages.{AreSeen, request_message, store_message};

use crate::entry_set::EntrySet;
use dots_core::{DotSet, NameSet, Oom};
use std::alloc::Allocator;
use std::marker::Model;

/// A message: its sender, the dots that the message speaks of, and the live entries among them. A request has the
/// names that it asks for, and neither dots nor entries. A contract sees both kinds as one `Message`.
#[derive(Drop)]
pub struct Payload<A: Allocator> {
    sender: u16,
    seen: DotSet<A>,
    entries: EntrySet<A>,
    asked: Option<NameSet>,
}

impl<A: Allocator> Model for Payload<A> {
    ghost use Rattle.payload_core.specs.Messages.{IsMessage, Message, message_code};

    ghost Value = { Message };

    ghost coded = { message_code };

    ghost view = { λ p. record { sender = p.sender; seen = p.seen; entries = p.entries.map; asked = p.asked } };

    ghost invariant = { λ p. IsMessage (record { sender = p.sender; seen = p.seen; entries = p.entries.map; asked = p.asked }) };
}

impl<A: Allocator> Payload<A> {
    /// A message with these dots and entries, which isn't a request. It takes no memory. Contracts don't see the
    /// room of `entries`.
    pub fn new(sender: u16, seen: DotSet<A>, entries: EntrySet<A>) -> Payload<A>
        requires { AreSeen seen entries.map }
        ensures { result ≡ store_message sender seen entries.map }
    {
        Payload {
            sender,
            seen,
            entries,
            asked: None,
        }
    }

    /// The number of the node that sent the message.
    pub fn sender(&self) -> u16
        ensures { result ≡ self.now.sender }
    {
        self.sender
    }

    /// The names that a request asks for; `None` for other messages. A request has neither dots nor entries.
    pub fn asked(&self) -> Option<NameSet>
        ensures asked { result ≡ self.now.asked }
        ensures bare { IfSome result (λ names. self.now ≡ request_message self.now.sender names) }
    {
        self.asked
    }

    /// The dots that the message speaks of.
    pub fn seen(&self) -> &DotSet<A>
        ensures { result.now ≡ self.now.seen }
    {
        &self.seen
    }

    /// The live entries among the seen dots. A seen dot without an entry was removed.
    pub fn entries(&self) -> &EntrySet<A>
        ensures entries { result.now.map ≡ self.now.entries }
        ensures are_seen { AreSeen self.now.seen self.now.entries }
    {
        &self.entries
    }

    /// The sender, the seen dots and the entries; the names of a request are forgotten.
    pub fn into_parts(self) -> (u16, DotSet<A>, EntrySet<A>)
        ensures sender { result.0 ≡ self.sender }
        ensures seen { result.1 ≡ self.seen }
        ensures entries { result.2.map ≡ self.entries }
        ensures are_seen { AreSeen self.seen self.entries }
    {
        let Payload {
            sender,
            seen,
            entries,
            asked: _asked,
        } = self;
        (sender, seen, entries)
    }

    /// Whether both have the same sender, dots and entries, and ask for the same names or for none. It takes no memory.
    pub fn same<'call>(&'call self, other: &'call Payload<A>) -> bool
        ensures { IsTrue result ↔ (self.now ≡ other.now) }
    {
        other.sender == self.sender
            && self.seen.same(&other.seen)
            && self.entries.same(&other.entries)
            && ask_alike(self.asked, other.asked)
    }

    /// A copy of the message. The copy's entry set has neither index nor room.
    pub fn try_copy(&self) -> Result<Payload<A>, Oom>
    where
        A: Copy,
        ensures { IfOk result (λ copy. copy ≡ self.now) }
    {
        let seen = self.seen.try_copy()?;
        let entries = self.entries.try_copy()?;
        Ok(Payload {
            sender: self.sender,
            seen,
            entries,
            asked: self.asked,
        })
    }
}

impl<A: Allocator + Copy> Payload<A> {
    /// The request of `sender`, which asks for these names. It takes no memory.
    pub fn request(alloc: A, sender: u16, names: NameSet) -> Payload<A>
        ensures { result ≡ request_message sender names }
    {
        Payload {
            sender,
            seen: DotSet::new(alloc),
            entries: EntrySet::new(alloc),
            asked: Some(names),
        }
    }
}

/// Whether both ask for the same names, or both for none.
fn ask_alike(one: Option<NameSet>, other: Option<NameSet>) -> bool
    ensures { IsTrue result ↔ (one ≡ other) }
{
    match (one, other) {
        (Some(one), Some(other)) => one.same(other),
        (None, None) => true,
        _ => false,
    }
}
