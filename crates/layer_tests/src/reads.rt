//! Calls that take no memory, made on large values with all memory refused: each succeeds, and asks for none.
use crate::benches::{Heap, calls_of, played};
use crate::memory::SCRIPT;
use crate::payloads::is_made_of_its_parts;
use crate::wide;
use bench_core::{Act, Bench, History, Journal, Limits, Node, Reply};
use dots_core::{Dot, NameSet};
use payload_core::{EntrySet, Outbox, Payload};
use replica_core::{Replica, Status, laws};
use std::process::Abort;
use test_alloc::Refusing;

/// Reads a set of at least 65 entries; one of them is at the dot of node 0 with the clock 130.
fn reads_entries<'a>(entries: &EntrySet<&'a Heap>, rt: &impl Abort) {
    let last = Dot {
        name: 0,
        clock: 130,
    };
    let first = entries.at(0).expect(rt, "an entry");
    let entry = entries.get(last).expect(rt, "an entry");
    let place = entries.first_from(last);
    let found = entries.find(0, entry.pid, entry.topic(), entry.key());
    holds!(rt, entries.len() >= 65);
    holds!(rt, !entries.is_empty());
    holds!(rt, first.same(first) && !first.same(entry));
    holds!(rt, found == Some(last));
    holds!(rt, entries.at(place).is_some());
    holds!(rt, entries.same(entries));
}

/// Reads the last of 130 messages, which has one entry.
fn reads_message<'a>(message: &Payload<&'a Heap>, rt: &impl Abort) {
    holds!(rt, message.sender() == 0);
    holds!(rt, message.asked().is_none());
    holds!(rt, message.seen().clock_of(0) == 0);
    holds!(rt, message.entries().len() == 1);
    holds!(rt, message.same(message));
}

/// Reads an outbox of 130 messages.
fn reads_outbox<'a>(outbox: &Outbox<'a, Heap>, rt: &impl Abort) {
    holds!(rt, outbox.len() == 130);
    holds!(rt, !outbox.is_empty() && !outbox.is_full());
    holds!(rt, outbox.same(outbox));
    let message = outbox.get(130).expect(rt, "a message");
    reads_message(message, rt);
}

/// Reads the replica of the first node, which sends.
fn reads_sender<'a>(a: &Replica<&'a Heap>, rt: &impl Abort) {
    holds!(rt, a.own() == 0);
    holds!(rt, a.seen().clock_of(0) == 131);
    holds!(rt, a.has_delta() && !a.online(1));
    holds!(rt, a.delta_entries().len() == 1);
    holds!(rt, !a.delta_seen().is_empty());
    holds!(rt, a.same(a));
}

/// Whether the replica's request asks for these names.
fn asks_for<'a>(replica: &Replica<&'a Heap>, known: NameSet) -> bool {
    let request = replica.request();
    let asked = request.asked();
    drop(request);
    matches!(asked, Some(names) if names.same(known))
}

/// Reads the replica of the second node, to which messages came, and the request that it would send.
fn reads_receiver<'a>(b: &Replica<&'a Heap>, rt: &impl Abort) {
    let known = NameSet::empty().with(0).with(1);
    holds!(rt, asks_for(b, known) && b.known().same(known));
    holds!(rt, b.seen().cloud_of(0).len() == 65);
    holds!(rt, b.status(0) == Some(Status::Up));
    holds!(rt, b.online(0));
    reads_entries(b.entries(), rt);
}

/// Reads the journal of 327 steps.
fn reads_journal<'a>(journal: &Journal<'a, Heap>, rt: &impl Abort) {
    let last = journal.at(326).expect(rt, "a step");
    let found = journal.find(327).expect(rt, "a step");
    holds!(rt, journal.len() == 327);
    holds!(rt, last.step.same(&found.step));
    holds!(rt, journal.first_consequence(1) == Some(6));
    holds!(rt, journal.first_consequence(327) == None);
    holds!(rt, journal.inverse(327).is_some());
}

fn reads_history<'a>(history: &History<'a, Heap>, rt: &impl Abort) {
    let event = history.at(326).expect(rt, "a call");
    holds!(rt, event.reply == Reply::Taken(327));
    holds!(rt, event.act.same(&event.act));
    holds!(rt, history.len() == 327);
}

/// Reads the bench, its journal and its history.
fn reads_bench<'a>(bench: &Bench<'a, Heap>, rt: &impl Abort) {
    holds!(rt, bench.names().number_of("af") == Some(31));
    holds!(rt, bench.limits() == Limits::usual());
    holds!(rt, Limits::new(1, 1, 1, 1).is_some());
    holds!(rt, bench.meter() == 327);
    holds!(rt, bench.way_back(327).is_some());
    assert!(rt; bench.names().len() == 32);
    holds!(rt, bench.remaining().last_of(1) == Some(326));
    reads_journal(bench.remaining(), rt);
    reads_history(bench.history(), rt);
}

/// Reads the outbox and the replica of `a`, and the replica of `b`.
fn reads_both<'a>(a: &Node<'a, Heap>, b: &Node<'a, Heap>, rt: &impl Abort) {
    holds!(rt, a.same(a) && !a.same(b));
    reads_outbox(a.outbox(), rt);
    reads_sender(a.replica(), rt);
    reads_receiver(b.replica(), rt);
}

/// Reads a bench, its journal, its history and its first two nodes; then copies what the first node holds, and edits
/// the copies.
fn reads_and_edits<'a>(bench: &mut Bench<'a, Heap>, heap: &'a Heap, rt: &impl Abort) {
    let a = bench.node(0).expect(rt, "a node");
    let b = bench.node(1).expect(rt, "a node");
    heap.refuse_from(1);
    reads_bench(bench, rt);
    reads_both(a, b, rt);
    holds!(rt, heap.requests() == 0);
    heap.refuse_none();
    edits(a, heap, rt);
}

fn plays<'a>(script: &str, heap: &'a Heap, rt: &impl Abort) {
    let mut bench = played(script, Limits::usual(), heap, rt);
    reads_and_edits(&mut bench, heap, rt);
    drop(bench);
}

#[test]
fn reads_and_edits_take_no_memory(rt: HostRuntime) {
    let heap = Refusing::new(rt.alloc());
    let text = wide::script(&heap, &rt);
    plays(&text, &heap, &rt);
    drop(text);
}

/// Takes the delta out, as a message of node 0, and gives it back. Says whether there was such a message.
fn gives_the_delta_back<'a>(replica: &mut Replica<&'a Heap>) -> bool {
    // form: hands out what the replica keeps
    replica.replica_law();
    laws::delta_law();
    let Ok(message) = replica.take_delta() else {
        return false;
    };
    let sender = message.sender();
    replica.give_delta(message);
    sender == 0
}

/// Takes the last 9 messages out of a copy of the outbox.
fn pops<'a>(outbox: &Outbox<'a, Heap>, heap: &'a Heap, rt: &impl Abort) {
    let mut copy = outbox.try_copy().expect(rt, "a copy");
    heap.refuse_from(1);
    for _turn in 0..9 {
        let is_there = copy.pop().is_some();
        holds!(rt, is_there);
    }
    holds!(rt, heap.requests() == 0);
    heap.refuse_none();
    drop(copy);
}

/// Takes the entries of the first 9 clocks of node 0 out of a copy of the set.
fn removes<'a>(entries: &EntrySet<&'a Heap>, heap: &'a Heap, rt: &impl Abort) {
    let mut copy = entries.try_copy().expect(rt, "a copy");
    heap.refuse_from(1);
    for clock in 1..10 {
        let is_there = copy.remove(Dot { name: 0, clock }).is_some();
        holds!(rt, is_there);
    }
    holds!(rt, heap.requests() == 0);
    heap.refuse_none();
    drop(copy);
}

/// Takes the delta out of a copy of the replica, and gives it back.
fn sends<'a>(replica: &Replica<&'a Heap>, heap: &'a Heap, rt: &impl Abort) {
    let mut copy = replica.try_copy().expect(rt, "a copy");
    heap.refuse_from(1);
    holds!(rt, gives_the_delta_back(&mut copy));
    holds!(rt, copy.same(replica) && heap.requests() == 0);
    heap.refuse_none();
    drop(copy);
}

/// Takes a copy of the message apart, and puts it together again.
fn falls_apart<'a>(message: &Payload<&'a Heap>, heap: &'a Heap, rt: &impl Abort) {
    let copy = message.try_copy().expect(rt, "a copy");
    heap.refuse_from(1);
    holds!(rt, is_made_of_its_parts(copy, message));
    holds!(rt, heap.requests() == 0);
    heap.refuse_none();
}

/// Copies what the node holds, and edits the copies with all memory refused.
fn edits<'a>(node: &Node<'a, Heap>, heap: &'a Heap, rt: &impl Abort) {
    let message = node.outbox().get(1).expect(rt, "a message");
    falls_apart(message, heap, rt);
    pops(node.outbox(), heap, rt);
    removes(node.replica().entries(), heap, rt);
    sends(node.replica(), heap, rt);
}

/// Whether the act has a copy that asks for the same.
fn is_copied<'a>(act: &Act<&'a Heap>) -> bool {
    match act.try_copy() {
        Ok(copy) => {
            let is_same = copy.same(act);
            drop(copy);
            is_same
        }
        Err(_) => false,
    }
}

/// Acts of each kind, here with words that are stored inline, are copied without memory.
#[test]
fn an_act_is_copied_without_memory(rt: HostRuntime) {
    let heap = Refusing::new(rt.alloc());
    let calls = calls_of(SCRIPT, &heap, &rt);
    heap.refuse_from(1);
    for (_actor, act) in &calls {
        holds!(&rt, is_copied(act));
    }
    holds!(&rt, heap.requests() == 0);
    drop(calls);
}
