//! `Node`: a replica with an outbox, which takes steps, and takes them back.
ghost use Rattle.std.specs.Prelude.{◌≡◌, ◌↔◌, ◌<◌, ◌≢◌, ◌+◌, IsTrue, IsOk, IfOk, IfErr, OnOk, OnErr, Ok, Err, None, Some, option_map};
ghost use Rattle.dots_core.specs.Names.{most_names};
ghost use Rattle.replica_core.specs.Changes.{plain_change};
ghost use Rattle.replica_core.specs.Limits.{AreNodeLimits};
ghost use Rattle.node_core.specs.declared.step_fault.StepFault.TheVariants.{OutOfMemory};
ghost use Rattle.node_core.specs.Operations.{plain, AreNames, Join, Leave, LeaveAll, Update, Broadcast, Extract, Deliver, Request, Answer, Up, Down, Permdown};
ghost use Rattle.node_core.specs.Nodes.{opening_node, take};
ghost use Rattle.node_core.specs.Invariant.{IsNode};
ghost use Rattle.node_core.specs.Inverses.{plain_inverse, needs_no_memory, OfChange, OfBroadcast, OfSent, LeadsBack, LeadsSomewhere, GivesBack, Takes};

use crate::inverse::Inverse;
use crate::meter::Meter;
use crate::step::Step;
use crate::step_fault::StepFault;
use dots_core::{NameSet, Oom};
use payload_core::{Outbox, Payload, Word};
use replica_core::{Change, NodeLimits, Replica};
use std::alloc::Allocator;
use std::marker::Model;

/// One node: its replica, and the messages that it sent.
#[derive(Drop)]
pub struct Node<'a, B: Allocator> {
    replica: Replica<&'a B>,
    outbox: Outbox<'a, B>,
}

impl<'a, B: Allocator> Model for Node<'a, B> {
    ghost use Rattle.std.specs.Prelude.{◌≡◌};
    ghost use Rattle.node_core.specs.Nodes.{Node, node_code};
    ghost use Rattle.node_core.specs.Invariant.{IsNode};

    ghost Value = { Node };

    ghost coded = { node_code };

    ghost view = { λ n. record { replica = n.replica; outbox = n.outbox.messages } };

    ghost invariant = { λ n. IsNode (record { replica = n.replica; outbox = n.outbox.messages }) × (n.outbox.limit ≡ n.replica.limits.messages) };
}

impl<'a, B: Allocator> Node<'a, B> {
    /// The node's replica, without the messages that the node sent.
    pub fn replica(&self) -> &Replica<&'a B>
        ensures { result.now ≡ self.now.replica }
    {
        &self.replica
    }

    /// The messages that the node sent, numbered from 1.
    pub fn outbox(&self) -> &Outbox<'a, B>
        ensures messages { result.now.messages ≡ self.now.outbox }
        ensures limit { result.now.limit ≡ self.now.replica.limits.messages }
    {
        &self.outbox
    }

    /// Whether the two have the same replica and the same messages. It takes no memory.
    pub fn same(&self, other: &Node<'a, B>) -> bool
        ensures { IsTrue result ↔ (self.now ≡ other.now) }
    {
        self.replica.same(&other.replica) && self.outbox.same(&other.outbox)
    }

    /// Does nothing. Its contract says what each node keeps.
    pub fn node_law(&self)
        ensures { IsNode self.now }
    {
        // form: the proof reads the field here
        let _ = &self.outbox;
    }

    /// Takes back the last step by its inverse. If memory is refused, the node is unchanged, and the inverse comes
    /// back. To take back a send, a join, an up or a down needs no memory.
    pub fn give_back(&mut self, inverse: Inverse<&'a B>) -> Result<(), (Inverse<&'a B>, Oom)>
        requires { LeadsSomewhere (plain_inverse inverse) self.old }
        ensures ok { OnOk result (GivesBack (plain_inverse inverse.entry) self.old self.new) }
        ensures err { OnErr result (self.new ≡ self.old) }
        ensures given_back { IfErr result (λ failed. plain_inverse failed.0 ≡ plain_inverse inverse.entry) }
        ensures needs_no_memory { IsTrue (needs_no_memory (plain_inverse inverse.entry)) → IsOk result }
    {
        match inverse {
            Inverse::Change(change) => match self.undo(change) {
                Ok(()) => Ok(()),
                Err((change, oom)) => Err((Inverse::Change(change), oom)),
            },
            Inverse::Broadcast => {
                self.take_back_delta();
                Ok(())
            }
            Inverse::Sent => {
                self.take_back_message();
                Ok(())
            }
        }
    }

    /// Takes back a step that was one call of the replica, by the change of that call.
    fn undo(&mut self, change: Change<&'a B>) -> Result<(), (Change<&'a B>, Oom)>
        requires { LeadsSomewhere (OfChange (plain_change change)) self.old }
        ensures ok { OnOk result (GivesBack (OfChange (plain_change change.entry)) self.old self.new) }
        ensures err { OnErr result (self.new ≡ self.old) }
        ensures given_back { IfErr result (λ failed. failed.0 ≡ change.entry) }
        ensures needs_no_memory { IsTrue (needs_no_memory (OfChange (plain_change change.entry))) → IsOk result }
    {
        self.replica.undo(change)
    }

    /// Takes back a broadcast: takes the last message out of the outbox, and makes it the delta again.
    fn take_back_delta(&mut self)
        requires { LeadsSomewhere OfBroadcast self.old }
        ensures { GivesBack OfBroadcast self.old self.new }
    {
        let payload = self.outbox.pop().unwrap();
        self.replica.give_delta(payload);
    }

    /// Takes back an extract, a request or an answer: takes the last message out of the outbox.
    fn take_back_message(&mut self)
        requires { LeadsSomewhere OfSent self.old }
        ensures { GivesBack OfSent self.old self.new }
    {
        let _ = self.outbox.pop().unwrap();
    }

    /// A node that has seen and sent nothing. It takes no memory.
    pub fn new(alloc: &'a B, own: u16, limits: NodeLimits) -> Node<'a, B>
        requires name { own < most_names }
        requires limits { AreNodeLimits limits }
        ensures { result ≡ opening_node own limits }
    {
        let replica = Replica::opening(alloc, own, limits);
        // form: hands out what the replica keeps
        replica.replica_law();
        Node {
            replica,
            outbox: Outbox::new(alloc, limits.messages),
        }
    }

    /// A copy of the node. The copy's store has no index of own entries.
    pub fn try_copy(&self) -> Result<Node<'a, B>, Oom>
        ensures { IfOk result (λ copy. copy ≡ self.now) }
    {
        Ok(Node {
            replica: self.replica.try_copy()?,
            outbox: self.outbox.try_copy()?,
        })
    }

    /// Takes a join. A refused step, here and below, leaves the node unchanged.
    fn join(
        &mut self,
        pid: u64,
        topic: &Word<&'a B>,
        key: &Word<&'a B>,
        metadata: &Word<&'a B>,
    ) -> Result<Inverse<&'a B>, StepFault>
        ensures { Takes self.old (Join (record { pid = pid; topic = topic.now; key = key.now; metadata = metadata.now })) None result self.new }
    {
        let change = self.replica.join(pid, topic, key, metadata)?;
        // form: hands out what the replica keeps
        self.replica.replica_law();
        Ok(Inverse::Change(change))
    }

    fn leave(
        &mut self,
        pid: u64,
        topic: &Word<&'a B>,
        key: &Word<&'a B>,
    ) -> Result<Inverse<&'a B>, StepFault>
        ensures { Takes self.old (Leave pid topic.now key.now) None result self.new }
    {
        let change = self.replica.leave(pid, topic, key)?;
        // form: hands out what the replica keeps
        self.replica.replica_law();
        Ok(Inverse::Change(change))
    }

    fn leave_all(&mut self, pid: u64) -> Result<Inverse<&'a B>, StepFault>
        ensures { Takes self.old (LeaveAll pid) None result self.new }
    {
        let change = self.replica.leave_all(pid)?;
        // form: hands out what the replica keeps
        self.replica.replica_law();
        Ok(Inverse::Change(change))
    }

    fn update(
        &mut self,
        pid: u64,
        topic: &Word<&'a B>,
        key: &Word<&'a B>,
        metadata: &Word<&'a B>,
    ) -> Result<Inverse<&'a B>, StepFault>
        ensures { Takes self.old (Update (record { pid = pid; topic = topic.now; key = key.now; metadata = metadata.now })) None result self.new }
    {
        let change = self.replica.update(pid, topic, key, metadata)?;
        // form: hands out what the replica keeps
        self.replica.replica_law();
        Ok(Inverse::Change(change))
    }

    /// Sends the delta, which is then empty. `NothingToSend` comes before `OutboxFull`, and that before `OutOfMemory`.
    fn broadcast(&mut self) -> Result<Inverse<&'a B>, StepFault>
        ensures { Takes self.old Broadcast None result self.new }
    {
        if !self.replica.has_delta() {
            return Err(StepFault::NothingToSend);
        }
        if self.outbox.is_full() {
            return Err(StepFault::OutboxFull);
        }
        self.outbox.make_room()?;
        let payload = self.replica.take_delta()?;
        self.outbox.push(payload).unwrap();
        Ok(Inverse::Broadcast)
    }

    /// Sends what the replica has of these names. `OutboxFull` comes before `OutOfMemory`.
    fn extract(&mut self, names: NameSet) -> Result<Inverse<&'a B>, StepFault>
        ensures { Takes self.old (Extract names) None result self.new }
    {
        if self.outbox.is_full() {
            return Err(StepFault::OutboxFull);
        }
        self.outbox.make_room()?;
        let payload = self.replica.extract(names)?;
        self.outbox.push(payload).unwrap();
        Ok(Inverse::Sent)
    }

    /// Merges `message`. `OwnMessage` if `sender` is the node itself, `NoSuchMessage` if `message` is `None`, and
    /// `IsRequest` if `message` is a request. Then come the faults of the replica.
    fn deliver(
        &mut self,
        sender: u16,
        number: u64,
        message: Option<&Payload<&'a B>>,
    ) -> Result<Inverse<&'a B>, StepFault>
        ensures { Takes self.old (Deliver sender number) (option_map (λ m. m.now) message.entry) result self.new }
    {
        // form: the parameter `number` is for the contract alone
        if sender == self.replica.own() {
            return Err(StepFault::OwnMessage);
        }
        let Some(message) = message else {
            return Err(StepFault::NoSuchMessage);
        };
        if message.asked().is_some() {
            return Err(StepFault::IsRequest);
        }
        let change = self.replica.merge(message)?;
        // form: hands out what the replica keeps
        self.replica.replica_law();
        Ok(Inverse::Change(change))
    }

    /// Sends a request for the names that the replica knows. `OutboxFull` comes before `OutOfMemory`.
    fn request(&mut self) -> Result<Inverse<&'a B>, StepFault>
        ensures { Takes self.old Request None result self.new }
    {
        if self.outbox.is_full() {
            return Err(StepFault::OutboxFull);
        }
        self.outbox.make_room()?;
        self.outbox.push(self.replica.request()).unwrap();
        Ok(Inverse::Sent)
    }

    /// Sends what the replica has of the names for which `message` asks. `OwnMessage` if `sender` is the node itself,
    /// `NoSuchMessage` if `message` is `None`, and `NotRequest` if `message` isn't a request. Then come the faults of
    /// `extract`.
    fn answer(
        &mut self,
        sender: u16,
        number: u64,
        message: Option<&Payload<&'a B>>,
    ) -> Result<Inverse<&'a B>, StepFault>
        ensures { Takes self.old (Answer sender number) (option_map (λ m. m.now) message.entry) result self.new }
    {
        // form: the parameter `number` is for the contract alone
        if sender == self.replica.own() {
            return Err(StepFault::OwnMessage);
        }
        let Some(message) = message else {
            return Err(StepFault::NoSuchMessage);
        };
        let Some(names) = message.asked() else {
            return Err(StepFault::NotRequest);
        };
        self.extract(names)
    }

    fn up(&mut self, name: u16) -> Result<Inverse<&'a B>, StepFault>
        requires { name < most_names }
        ensures { Takes self.old (Up name) None result self.new }
    {
        let change = self.replica.up(name)?;
        // form: hands out what the replica keeps
        self.replica.replica_law();
        Ok(Inverse::Change(change))
    }

    fn down(&mut self, name: u16) -> Result<Inverse<&'a B>, StepFault>
        requires { name < most_names }
        ensures { Takes self.old (Down name) None result self.new }
    {
        let change = self.replica.down(name)?;
        // form: hands out what the replica keeps
        self.replica.replica_law();
        Ok(Inverse::Change(change))
    }

    fn permdown(&mut self, name: u16) -> Result<Inverse<&'a B>, StepFault>
        requires { name < most_names }
        ensures { Takes self.old (Permdown name) None result self.new }
    {
        let change = self.replica.permdown(name)?;
        // form: hands out what the replica keeps
        self.replica.replica_law();
        Ok(Inverse::Change(change))
    }

    /// Takes the step, with the message that the step names. The caller, `take`, counts the step.
    fn step(
        &mut self,
        step: &Step<&'a B>,
        message: Option<&Payload<&'a B>>,
    ) -> Result<Inverse<&'a B>, StepFault>
        requires { AreNames (plain step.now) }
        ensures { Takes self.old (plain step.now) (option_map (λ m. m.now) message.entry) result self.new }
    {
        match step {
            Step::Join {
                pid,
                topic,
                key,
                metadata,
            } => self.join(*pid, topic, key, metadata),
            Step::Leave { pid, topic, key } => self.leave(*pid, topic, key),
            Step::LeaveAll { pid } => self.leave_all(*pid),
            Step::Update {
                pid,
                topic,
                key,
                metadata,
            } => self.update(*pid, topic, key, metadata),
            Step::Broadcast => self.broadcast(),
            Step::Extract { names } => self.extract(*names),
            Step::Deliver { sender, number } => self.deliver(*sender, *number, message),
            Step::Request => self.request(),
            Step::Answer { sender, number } => self.answer(*sender, *number, message),
            Step::Up { name } => self.up(*name),
            Step::Down { name } => self.down(*name),
            Step::Permdown { name } => self.permdown(*name),
        }
    }

    /// Takes a step, and gives the inverse that leads back. `meter` counts the step if it is taken. `message` is the
    /// message that a delivery or an answer names, or `None` if there is no such message; other steps ignore it. The
    /// faults come in this order: `OwnMessage`, `NoSuchMessage`, `NotRequest`, `IsRequest`, those of the replica,
    /// `OutboxFull`. `OutOfMemory` comes wherever a request for memory is refused.
    pub fn take(
        &mut self,
        step: &Step<&'a B>,
        message: Option<&Payload<&'a B>>,
        meter: &mut Meter,
    ) -> Result<Inverse<&'a B>, StepFault>
        requires names { AreNames (plain step.now) }
        requires meter { meter.old.count < 18446744073709551615 }
        ensures taken { OnOk result (take self.old (plain step.now) (option_map (λ m. m.now) message.entry) ≡ Ok self.new) }
        ensures leads_back { IfOk result (λ inverse. LeadsBack (plain_inverse inverse) self.new self.old) }
        ensures fault { IfErr result (λ fault. fault ≢ OutOfMemory → take self.old (plain step.now) (option_map (λ m. m.now) message.entry) ≡ Err fault) }
        ensures err { OnErr result (self.new ≡ self.old) }
        ensures ticks { OnOk result (meter.new.count ≡ meter.old.count + 1) }
        ensures no_tick { OnErr result (meter.new.count ≡ meter.old.count) }
    {
        let inverse = self.step(step, message)?;
        meter.tick();
        Ok(inverse)
    }
}
