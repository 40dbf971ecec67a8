//! `Bench`: the machine over its nodes, its journal and its history.
ghost use Rattle.std.specs.Prelude.{◌≡◌, ◌≢◌, ◌↔◌, ◌<◌, ◌≤◌, ◌+◌, Ok, IfErr, IfOk, IfSome, IsOk, IsSome, OnOk, OnErr, length, take, option_map};
ghost use Rattle.node_core.specs.Inverses.{plain_inverse};
ghost use Rattle.node_core.specs.Operations.{plain};
ghost use Rattle.journal_core.specs.Journals.{find_number, IsOfNode};
ghost use Rattle.journal_core.specs.Gathering.{gathered_numbers};
ghost use Rattle.journal_core.specs.Holdings.{without_held, kepts};
ghost use Rattle.bench_core.specs.declared.fault.Fault.TheVariants.{HistoryFull};
ghost use Rattle.bench_core.specs.declared.reply.Reply.TheVariants.{Refused};
ghost use Rattle.bench_core.specs.Acts.{plain_act, calls_of, Do, Back};
ghost use Rattle.bench_core.specs.Limits.{node_limits};
ghost use Rattle.bench_core.specs.Clusters.{opening_of};
ghost use Rattle.bench_core.specs.Chains.{Chain};
ghost use Rattle.bench_core.specs.Machine.{config_of, free_places, given, knows, reply_to, undo_reply, opening_machine, AnswersAs, AllAnswered};
ghost use Rattle.bench_core.specs.Headline.{CanBeTakenBack, RefusedOnlyForConsequence};
ghost use Rattle.bench_core.specs.Unwinds.{AreUndone, CanBeUndone, Explains, IsUnwound, IsWhole, Unexplained, undone_by};
ghost use Rattle.bench_core.specs.WaysBack.{IsWayBack};
ghost use Rattle.bench_core.specs.Benches.{GoesBack, IsBackable, IsGone, IsMachine, IsNodeOf, NeedsNoMemory};

use crate::act::Act;
use crate::cluster::Cluster;
use crate::fault::Fault;
use crate::history::History;
use crate::limits::Limits;
use crate::names::Names;
use crate::reply::Reply;
use crate::unwound::Unwound;
use dots_core::Oom;
use journal_core::Journal;
use journal_core::laws::loan_law;
use node_core::{Inverse, Meter, Node, Step, StepFault};
use std::alloc::Allocator;
use std::marker::Model;

/// Takes back step `number` of `node` by the step's inverse, and takes the step out of the journal. If memory is
/// refused, nothing changes. To take back a join, an up, a down or a send needs no memory.
fn take_back<'a, B: Allocator>(
    cluster: &mut Cluster<'a, B>,
    journal: &mut Journal<'a, B>,
    number: u64,
    node: u16,
) -> Result<(), Oom>
    requires { IsBackable cluster.old journal.old.steps number node }
    ensures node { OnOk result (GoesBack cluster.old journal.old.steps number node cluster.new) }
    ensures journal { OnOk result (journal.new ≡ record { nodes = journal.old.nodes; steps = without_held journal.old.steps number; room = journal.old.room }) }
    ensures err { OnErr result (cluster.new ≡ cluster.old) }
    ensures err_journal { OnErr result (journal.new ≡ journal.old) }
    ensures needs_no_memory { NeedsNoMemory journal.old.steps number → IsOk result }
{
    // form: hands out the law of loans
    loan_law();
    let inverse = journal.lend(number).unwrap();
    if let Err((inverse, _)) = cluster.give_back(node, inverse) {
        journal.put_back(number, inverse);
        return Err(Oom);
    }
    journal.take_out(number);
    Ok(())
}

/// A cluster of named nodes, the calls that were recorded, and the steps that remain. A contract sees the names, the
/// limits, the recorded calls and the remaining steps; the nodes are what these steps give.
#[derive(Drop)]
pub struct Bench<'a, B: Allocator> {
    names: Names<&'a B>,
    limits: Limits,
    cluster: Cluster<'a, B>,
    journal: Journal<'a, B>,
    history: History<'a, B>,
    meter: Meter,
}

impl<'a, B: Allocator> Model for Bench<'a, B> {
    ghost use Rattle.std.specs.Prelude.{◌≡◌, length};
    ghost use Rattle.journal_core.specs.Holdings.{kepts};
    ghost use Rattle.bench_core.specs.Machine.{Machine, machine_code};
    ghost use Rattle.bench_core.specs.Benches.{IsBench};
    ghost use Rattle.bench_core.specs.contracts.reply.Reply.{the_row as reply_row};

    ghost Value = { Machine };

    ghost coded = { machine_code reply_row.coded };

    ghost view = { λ b. record { names = b.names; limits = b.limits; state = record { history = b.history; remaining = kepts b.journal.steps } } };

    ghost invariant = { λ b. IsBench (record { nodes = length b.names; limits = b.limits })
        (record { history = b.history; remaining = kepts b.journal.steps }) b.cluster b.journal.steps b.meter.count ×
        (b.journal.nodes ≡ length b.names) };
}

impl<'a, B: Allocator> Bench<'a, B> {
    /// A bench with these names and limits, whose nodes are empty; no call is recorded yet.
    pub fn new(alloc: &'a B, names: Names<&'a B>, limits: Limits) -> Result<Self, Oom>
        ensures { IfOk result (λ b. b ≡ opening_machine names.entry limits) }
    {
        let Ok(cluster) = Cluster::new(alloc, names.len(), limits.of_node()) else {
            // form: drop before exit
            drop(names);
            return Err(Oom);
        };
        let Ok(journal) = Journal::new(alloc, names.len() as u16) else {
            drop(names);
            drop(cluster);
            return Err(Oom);
        };
        Ok(Bench {
            names,
            limits,
            cluster,
            journal,
            history: History::new(alloc),
            meter: Meter::new(),
        })
    }

    /// Drops the bench. A crate that calls this needs no proof of how the parts of a bench are dropped.
    pub fn discard(self) {
        let Bench {
            names,
            cluster,
            journal,
            history,
            ..
        } = self;
        drop(names);
        drop(cluster);
        journal.discard();
        drop(history);
    }

    /// The names of the nodes, by node number.
    pub fn names(&self) -> &Names<&'a B>
        ensures { result.now ≡ self.now.names }
    {
        &self.names
    }

    /// The limits that the bench was opened with.
    pub fn limits(&self) -> Limits
        ensures { result ≡ self.now.limits }
    {
        self.limits
    }

    /// The recorded calls, oldest first, each with its reply.
    pub fn history(&self) -> &History<'a, B>
        ensures { result.now ≡ self.now.state.history }
    {
        &self.history
    }

    /// The steps that remain, by rising number, each with its inverse.
    pub fn remaining(&self) -> &Journal<'a, B>
        ensures steps { kepts result.now.steps ≡ self.now.state.remaining }
        ensures nodes { result.now.nodes ≡ length self.now.names }
        ensures inverses { Chain (Ok (opening_of (node_limits self.now.limits) (length self.now.names))) result.now.steps }
    {
        &self.journal
    }

    /// The node of this number, as the remaining steps give it from empty nodes; `None` if there is no such node.
    pub fn node(&self, number: u16) -> Option<&Node<'a, B>>
        ensures value { IsNodeOf self.now number (option_map (λ n. n.now) result) }
        ensures each { IsSome result ↔ (number < length self.now.names) }
    {
        self.cluster.node(number)
    }

    /// The inverse of step `number`; `None` if the step doesn't remain. While nothing follows from the step, its
    /// inverse leads the step's node back to what the node would be after an undo of the step. (Danos and Krivine:
    /// causal undo.)
    pub fn way_back(&self, number: u64) -> Option<&Inverse<&'a B>>
        ensures leads { IfSome result (λ inverse. IsWayBack self.now number (plain_inverse inverse.now)) }
        ensures each { IsSome result ↔ IsSome (find_number self.now.state.remaining number) }
    {
        self.journal.inverse(number)
    }

    /// How many steps were ever taken, counting those that were taken back: the greatest number given so far.
    pub fn meter(&self) -> u64
        ensures { result ≡ given self.now.state.history }
    {
        self.meter.count()
    }

    /// Does nothing. Its contract says what each bench keeps, besides what `remaining` says of the inverses.
    pub fn bench_law(&self)
        ensures { IsMachine self.now }
    {
        // form: the proof reads the field here
        let _ = &self.journal;
    }

    pub(crate) fn allocator(&self) -> &'a B {
        self.cluster.allocator()
    }

    /// How many more calls and steps, together, the limit on acts allows.
    fn free(&self) -> u64
        ensures { result ≡ free_places (config_of self.now) self.now.state }
    {
        self.limits.acts() - (self.history.len() as u64 + self.journal.len() as u64)
    }

    /// Whether the actor and the nodes that the step names are nodes of the bench.
    fn knows(&self, actor: u16, step: &Step<&'a B>) -> bool
        ensures { result ≡ knows (config_of self.now) actor (plain step.now) }
    {
        let count = self.names.len() as u16;
        actor < count && step.names_below(count)
    }

    /// The node of step `number`, or why its undo is refused: `NoSuchStep` if the number was never given,
    /// `AlreadyUndone` if the step doesn't remain.
    fn node_of(&self, number: u64) -> Result<u16, Fault>
        ensures remains { IfOk result (λ node. IsOfNode self.now.state.remaining number node) }
        ensures gone { IfErr result (λ fault. IsGone self.now.state number fault) }
    {
        if number == 0 || number > self.meter.count() {
            return Err(Fault::NoSuchStep);
        }
        match self.journal.find(number) {
            Some(kept) => Ok(kept.node),
            None => Err(Fault::AlreadyUndone),
        }
    }

    /// Refuses the act with this fault, and records the refusal if the limit on acts allows one more call. If memory
    /// for the record is refused, the reply is `OutOfMemory`.
    fn refuse(&mut self, actor: u16, act: &Act<&'a B>, fault: Fault) -> Reply
        requires refused { reply_to (config_of self.old) self.old.state actor (plain_act act.now) ≡ Refused fault }
        requires recorded { fault ≢ HistoryFull }
        ensures { AnswersAs self.old actor (plain_act act.now) result self.new }
    {
        let reply = Reply::Refused(fault);
        if self.free() == 0 {
            return reply;
        }
        if self.history.record(actor, act, reply).is_err() {
            return Reply::Refused(Fault::OutOfMemory);
        }
        reply
    }

    /// Takes `step`, the step of `act`, at node `actor`, or refuses the act. Room in the journal, the record of the
    /// call and a copy of the step come first, so nothing can be refused once the step is taken. The record has
    /// `OutOfMemory` as its reply until the true reply replaces it; if memory is refused, the record is taken out
    /// again.
    fn take(&mut self, actor: u16, act: &Act<&'a B>, step: &Step<&'a B>) -> Reply
        requires { plain_act act.now ≡ Do (plain step.now) }
        ensures { AnswersAs self.old actor (plain_act act.now) result self.new }
    {
        if !self.knows(actor, step) {
            return self.refuse(actor, act, Fault::UnknownNode);
        }
        if self.free() < 2 {
            return Reply::Refused(Fault::HistoryFull);
        }
        let unmade = Reply::Refused(Fault::OutOfMemory);
        if self.journal.make_room(actor, step).is_err() {
            return unmade;
        }
        if self.history.record(actor, act, unmade).is_err() {
            return unmade;
        }
        let Ok(step) = step.try_copy() else {
            self.history.forget_last();
            return unmade;
        };
        match self.cluster.take(actor, &step, &mut self.meter) {
            Err(fault) => {
                // form: drop before exit
                drop(step);
                if fault == StepFault::OutOfMemory {
                    self.history.forget_last();
                    return unmade;
                }
                let reply = Reply::Refused(Fault::from(fault));
                self.history.answer_last(reply);
                reply
            }
            Ok(inverse) => {
                let number = self.meter.count();
                let reply = Reply::Taken(number);
                self.journal.keep(number, actor, step, inverse).unwrap();
                self.history.answer_last(reply);
                reply
            }
        }
    }

    /// Undoes step `number`, as `act` asks, or refuses the act. An undo is recorded before the step is taken back; if
    /// memory is then refused, the record is taken out again.
    fn undo(&mut self, actor: u16, act: &Act<&'a B>, number: u64) -> Reply
        requires { reply_to (config_of self.old) self.old.state actor (plain_act act.now) ≡ undo_reply self.old.state number }
        ensures { AnswersAs self.old actor (plain_act act.now) result self.new }
    {
        let node = match self.node_of(number) {
            Ok(node) => node,
            Err(fault) => return self.refuse(actor, act, fault),
        };
        if let Some(held_by) = self.journal.first_consequence_at(node, number) {
            let fault = Fault::HasConsequence {
                step: number,
                held_by,
            };
            return self.refuse(actor, act, fault);
        }
        let reply = Reply::Undone(number);
        if self.history.record(actor, act, reply).is_err() {
            return Reply::Refused(Fault::OutOfMemory);
        }
        if take_back(&mut self.cluster, &mut self.journal, number, node).is_err() {
            self.history.forget_last();
            return Reply::Refused(Fault::OutOfMemory);
        }
        reply
    }

    /// Undoes the last step of `node`, as `act` asks, or refuses the act: with `UnknownNode` if there is no such node,
    /// and with `NothingToUndo` if no step of the node remains.
    fn back(&mut self, actor: u16, act: &Act<&'a B>, node: u16) -> Reply
        requires { plain_act act.now ≡ Back node }
        ensures { AnswersAs self.old actor (plain_act act.now) result self.new }
    {
        if node as usize >= self.names.len() {
            return self.refuse(actor, act, Fault::UnknownNode);
        }
        let Some(number) = self.journal.last_of(node) else {
            return self.refuse(actor, act, Fault::NothingToUndo);
        };
        self.undo(actor, act, number)
    }

    /// Makes one call: a step of node `actor`, or an undo or a back, which any actor may ask for.
    pub fn act(&mut self, actor: u16, act: &Act<&'a B>) -> Reply
        ensures answers { AnswersAs self.old actor (plain_act act.now) result self.new }
        ensures taken_back_at_once { CanBeTakenBack self.old result self.new }
        ensures refused_only_for_a_named_consequence { RefusedOnlyForConsequence self.old (plain_act act.now) result self.new }
    {
        // form: hands out what the bench keeps
        self.bench_law();
        match act {
            Act::Do(step) => self.take(actor, act, step),
            Act::Undo(number) => self.undo(actor, act, *number),
            Act::Back(node) => self.back(actor, act, *node),
        }
    }

    /// Makes the calls in order, and gives a reply for each. If memory for the list of replies is refused, no call is
    /// made.
    pub fn run(&mut self, calls: &[(u16, Act<&'a B>)]) -> Result<Vec<Reply, &'a B>, Oom>
        ensures ok { IfOk result (λ replies. AllAnswered self.old (calls_of calls.now) replies.items self.new) }
        ensures err { OnErr result (self.new ≡ self.old) }
    {
        let alloc = self.cluster.allocator();
        let mut replies = Vec::with_capacity(alloc, calls.len())?;
        for (actor, act) in calls {
            let reply = self.act(*actor, act);
            replies.push_reserved(reply);
        }
        Ok(replies)
    }

    /// The future of a step: its number and the numbers of all that follows from it, greatest first, the order in which
    /// they can be undone. If the step doesn't remain, the fault is that of its undo, `NoSuchStep` or `AlreadyUndone`.
    /// If memory is refused, the fault is `OutOfMemory`.
    pub fn why(&self, number: u64) -> Result<Vec<u64, &'a B>, Fault>
        ensures future { IfOk result (λ numbers. Explains self.now.state number numbers.items) }
        ensures refused { IfErr result (λ fault. Unexplained self.now.state number fault) }
        ensures can_be_undone { IfOk result (λ numbers. CanBeUndone self.now numbers.items) }
        ensures gathered { IfOk result (λ numbers. numbers.items ≡ gathered_numbers self.now.state.remaining number) }
    {
        // form: hands out what the bench keeps
        self.bench_law();
        self.node_of(number)?;
        let Ok(numbers) = self.journal.future(number) else {
            return Err(Fault::OutOfMemory);
        };
        Ok(numbers)
    }

    /// Undoes these steps in turn, until an undo is refused memory, and gives how many were undone.
    fn undo_each(&mut self, actor: u16, numbers: &[u64]) -> usize
        requires { CanBeUndone self.old numbers.now }
        ensures few { result ≤ length numbers.now }
        ensures undone { AreUndone self.old actor (take result numbers.now) self.new }
    {
        for (i, number) in numbers.iter().enumerate() {
            let act = Act::Undo(*number);
            let reply = self.act(actor, &act);
            // form: drop before exit
            drop(act);
            if reply != Reply::Undone(*number) {
                return i;
            }
        }
        numbers.len()
    }

    /// Undoes a step and all that follows from it, greatest number first, and records each undo as one that `actor`
    /// asked for. Any actor may ask. (Danos and Krivine: what follows from a step goes back before the step does.) If
    /// `why` gives a fault, nothing is done or recorded. If an undo is refused memory, the undos before it stand.
    pub fn unwind(&mut self, actor: u16, number: u64) -> Unwound<&'a B>
        ensures unwound { IsUnwound self.old.state number result }
        ensures undone { AreUndone self.old actor (undone_by result) self.new }
        ensures whole { IsWhole self.old.state number result }
    {
        match self.why(number) {
            Ok(mut numbers) => {
                let undone = self.undo_each(actor, numbers.as_slice());
                if undone < numbers.len() {
                    numbers.truncate(undone);
                    return Unwound::Partial { numbers };
                }
                Unwound::Done(numbers)
            }
            Err(fault) => Unwound::Refused(fault),
        }
    }
}
