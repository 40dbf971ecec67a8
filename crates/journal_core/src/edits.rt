//! Edits of the slots and of all nodes' indices: making room for a step, keeping it, and taking it out.
ghost use Rattle.std.specs.Prelude.{◌≡◌, ℕ, ◌++◌, ◌∷◌, [], ◌<◌, ◌≤◌, ◌↔◌, IsTrue, IsOk, Some, None, OnOk, length, map};
ghost use Rattle.std.specs.List.{Contains};
ghost use Rattle.node_core.specs.Operations.{delivers};
ghost use Rattle.journal_core.specs.Numbers.{Rises, all_but, and_last};
ghost use Rattle.journal_core.specs.Journals.{AreBelow, first_consequence};
ghost use Rattle.journal_core.specs.Holdings.{kepts, without_held, plain_room, room_for, HasSender};
ghost use Rattle.journal_core.specs.Causes.{causes_at, IsIndexed, AreSameIndices, OthersStay, AddsStep, DropsStep, HasMessage, HasDeliveryRoom};
ghost use Rattle.journal_core.specs.Causes.{EditsDeliveries, DeliveriesRiseWith};
ghost use Rattle.journal_core.specs.Rooms.{KeepsRoom, HasDeliveryRoomIfThere, IsPromised, ArePromised};

use crate::causes::Causes;
use crate::held::Held;
use crate::room::Room;
use crate::slots::Slots;
use dots_core::Oom;
use std::alloc::Allocator;

/// Makes room for a step in the index of its node.
pub(crate) fn make_room<'a, B: Allocator>(
    causes: &mut Vec<Causes<'a, B>, &'a B>,
    node: usize,
) -> Result<(), Oom>
    requires { node < length causes.old.items }
    ensures same { AreSameIndices causes.old.items causes.new.items }
    ensures keeps { KeepsRoom causes.old.items causes.new.items }
    ensures ok { OnOk result (0 < (causes_at causes.new.items node).room) }
{
    causes[node].make_room()
}

/// Whether `sender` is a node and has a message of this number, counted from 1.
fn has_message<'a, B: Allocator>(causes: &[Causes<'a, B>], sender: u16, number: u64) -> bool
    ensures { IsTrue result ↔ HasMessage (Some (sender, number)) causes.now }
{
    let sender = sender as usize;
    sender < causes.len() && 0 < number && number <= causes[sender].messages() as u64
}

/// Makes room for one more delivery of `message`; does nothing if that is `None`, or if its sender has no such message.
pub(crate) fn make_room_for<'a, B: Allocator>(
    causes: &mut Vec<Causes<'a, B>, &'a B>,
    message: Option<(u16, u64)>,
) -> Result<(), Oom>
    ensures same { AreSameIndices causes.old.items causes.new.items }
    ensures keeps { KeepsRoom causes.old.items causes.new.items }
    ensures room { (n : ℕ) → (causes_at causes.new.items n).room ≡ (causes_at causes.old.items n).room }
    ensures ok { OnOk result (HasDeliveryRoomIfThere message causes.new.items) }
{
    let Some((sender, number)) = message else {
        return Ok(());
    };
    if !has_message(causes.as_slice(), sender, number) {
        return Ok(());
    }
    causes[sender as usize].make_room_at(number as usize - 1)
}

/// Appends step `number` to the index of its node. `sends` says whether the step sends a message.
pub(crate) fn add_step<'a, B: Allocator>(
    causes: &mut Vec<Causes<'a, B>, &'a B>,
    node: usize,
    number: u64,
    sends: bool,
)
    requires node { node < length causes.old.items }
    requires room { 0 < (causes_at causes.old.items node).room }
    requires rises { Rises (and_last number (causes_at causes.old.items node).own) }
    requires rises_sent { Rises (and_last number (causes_at causes.old.items node).sent) }
    ensures others { OthersStay node causes.old.items causes.new.items }
    ensures at { AddsStep sends number (causes_at causes.old.items node) (causes_at causes.new.items node) }
{
    // form: each arm is a case of the proof
    match sends {
        true => causes[node].push_sending(number),
        false => causes[node].push(number),
    }
}

/// Appends step `number` to the deliveries of `message`, if that isn't `None`.
pub(crate) fn add_delivery<'a, B: Allocator>(
    causes: &mut Vec<Causes<'a, B>, &'a B>,
    message: Option<(u16, u64)>,
    number: u64,
)
    requires message { HasMessage message causes.old.items }
    requires room { HasDeliveryRoom message causes.old.items }
    requires rises { DeliveriesRiseWith number message causes.old.items }
    ensures { EditsDeliveries (and_last number) message causes.old.items causes.new.items }
{
    if let Some((sender, message)) = message {
        causes[sender as usize].deliver(message as usize - 1, number);
    }
}

/// Takes the last step of `node` out of that node's index. `sends` says whether the step sent a message.
pub(crate) fn drop_step<'a, B: Allocator>(
    causes: &mut Vec<Causes<'a, B>, &'a B>,
    node: usize,
    sends: bool,
)
    requires { node < length causes.old.items }
    ensures others { OthersStay node causes.old.items causes.new.items }
    ensures keeps { KeepsRoom causes.old.items causes.new.items }
    ensures at { DropsStep sends (causes_at causes.old.items node) (causes_at causes.new.items node) }
{
    // form: each arm is a case of the proof
    match sends {
        true => causes[node].pop_sending(),
        false => causes[node].pop(),
    }
}

/// Takes step `number` out of the deliveries of `message`, if that isn't `None`.
pub(crate) fn drop_delivery<'a, B: Allocator>(
    causes: &mut Vec<Causes<'a, B>, &'a B>,
    message: Option<(u16, u64)>,
    number: u64,
)
    requires { HasMessage message causes.old.items }
    ensures edits { EditsDeliveries (all_but number) message causes.old.items causes.new.items }
    ensures keeps { KeepsRoom causes.old.items causes.new.items }
{
    if let Some((sender, message)) = message {
        causes[sender as usize].undeliver(message as usize - 1, number);
    }
}

/// Makes room for a step of the kind `room`: its slot, and its places in the index of its node. If the step delivers a
/// message that was sent, it also makes a place among that message's deliveries.
pub(crate) fn make_all_room<'a, B: Allocator>(
    slots: &mut Slots<'a, B>,
    causes: &mut Vec<Causes<'a, B>, &'a B>,
    room: Room,
) -> Result<(), Oom>
    requires { room.node < length causes.old.items }
    ensures steps { slots.new.steps ≡ slots.old.steps }
    ensures same { AreSameIndices causes.old.items causes.new.items }
    ensures keeps { KeepsRoom causes.old.items causes.new.items }
    ensures more { slots.old.room ≤ slots.new.room }
    ensures promised { OnOk result (IsPromised causes.new.items slots.new.room (plain_room room)) }
{
    slots.make_room()?;
    make_room(causes, room.node as usize)?;
    make_room_for(causes, room.delivers)
}

/// Makes room for a step of the kind `room`, unless the kind is among `made`, those for which room was made already.
pub(crate) fn make_sure<'a, B: Allocator>(
    slots: &mut Slots<'a, B>,
    causes: &mut Vec<Causes<'a, B>, &'a B>,
    made: &[Room],
    room: Room,
) -> Result<(), Oom>
    requires node { room.node < length causes.old.items }
    requires promised { ArePromised causes.old.items slots.old.room (map plain_room made.now) }
    ensures steps { slots.new.steps ≡ slots.old.steps }
    ensures same { AreSameIndices causes.old.items causes.new.items }
    ensures keeps { KeepsRoom causes.old.items causes.new.items }
    ensures more { slots.old.room ≤ slots.new.room }
    ensures promised { OnOk result (IsPromised causes.new.items slots.new.room (plain_room room)) }
    ensures succeeds { Contains (map plain_room made.now) (plain_room room) → IsOk result }
{
    if room.is_in(made) {
        return Ok(());
    }
    make_all_room(slots, causes, room)
}

/// Appends `held`, a step for which there is room, to the slots and to the indices.
pub(crate) fn keep<'a, B: Allocator>(
    slots: &mut Slots<'a, B>,
    causes: &mut Vec<Causes<'a, B>, &'a B>,
    held: Held<'a, B>,
)
    requires indexed { IsIndexed (kepts slots.old.steps) causes.old.items }
    requires promised { IsPromised causes.old.items slots.old.room (room_for held.kept.node held.kept.step) }
    requires positive { 0 < held.kept.number }
    requires above { AreBelow held.kept.number (kepts slots.old.steps) }
    requires known { held.kept.node < length causes.old.items }
    requires sender { HasSender (kepts slots.old.steps) (delivers held.kept.step) }
    ensures steps { slots.new.steps ≡ slots.old.steps ++ held.entry ∷ [] }
    ensures indexed { IsIndexed (kepts slots.new.steps) causes.new.items }
    ensures nodes { length causes.new.items ≡ length causes.old.items }
{
    let room = Room::of(held.node(), &held.kept().step);
    let number = held.number();
    slots.push(held);
    add_delivery(causes, room.delivers, number);
    add_step(causes, room.node as usize, number, room.sends);
}

/// Takes the step of this number, from which nothing follows, out of the slots and the indices, if it remains. Room
/// that was made stays.
pub(crate) fn take_out<'a, B: Allocator>(
    slots: &mut Slots<'a, B>,
    causes: &mut Vec<Causes<'a, B>, &'a B>,
    number: u64,
)
    requires indexed { IsIndexed (kepts slots.old.steps) causes.old.items }
    requires free { first_consequence (kepts slots.old.steps) number ≡ None }
    ensures steps { slots.new.steps ≡ without_held slots.old.steps number }
    ensures indexed { IsIndexed (kepts slots.new.steps) causes.new.items }
    ensures nodes { length causes.new.items ≡ length causes.old.items }
    ensures keeps { KeepsRoom causes.old.items causes.new.items }
    ensures more { slots.old.room ≤ slots.new.room }
{
    let Some(held) = slots.find(number) else {
        return;
    };
    let room = Room::of(held.node(), &held.kept().step);
    drop_delivery(causes, room.delivers, number);
    drop_step(causes, room.node as usize, room.sends);
    slots.take_out(number);
}
