//! Large values: a bench of 32 nodes, whose first node sent 130 messages; copies of the first two nodes and of the
//! history; and an unwind of 66 steps.
use crate::benches::{Heap, are_calls, played};
use bench_core::{Bench, History, Limits, Node, Unwound};
use std::process::Abort;
use test_alloc::Refusing;

/// The first lines of the script: 32 nodes, and an up of the first at the second, which takes every second message of
/// the first. So the second node's cloud of the first name has 65 clocks.
const HEAD: &str =
    "nodes a b c d e f g h i j k l m n o p q r s t u v w x y z aa ab ac ad ae af\nb up a";

/// The script: the first node joins 130 processes and sends each alone, and the second node takes every second of these
/// messages. A last join of the first node isn't sent.
pub fn script<'a>(heap: &'a Heap, rt: &impl Abort) -> String<&'a Heap> {
    let mut text = String::new(heap);
    text.push_str(HEAD).expect(rt, "memory");
    for number in 1..131 {
        write!(text, "\na join {number} r k{number} phone\na broadcast").expect(rt, "memory");
        if number % 2 == 0 {
            write!(text, "\nb deliver a {number}").expect(rt, "memory");
        }
    }
    text.push_str("\na join 131 r alice phone")
        .expect(rt, "memory");
    text
}

/// Whether a copy of the node is the same; `None` if it is refused memory.
fn is_node_copied<'a>(node: &Node<'a, Heap>) -> Option<bool> {
    match node.try_copy() {
        Ok(copy) => {
            let is_same = copy.same(node);
            drop(copy);
            Some(is_same)
        }
        Err(_) => None,
    }
}

/// Like `is_node_copied`, but for a history.
fn is_history_copied<'a>(history: &History<'a, Heap>) -> Option<bool> {
    match history.try_copy() {
        Ok(copy) => {
            let is_same = are_calls(history, &copy);
            drop(copy);
            Some(is_same)
        }
        Err(_) => None,
    }
}

/// Copies the node with request `number` for memory refused, and says whether there was such a request. If so,
/// there must be no copy, and otherwise one that is the same.
fn node_is_refused<'a>(
    node: &Node<'a, Heap>,
    number: u64,
    heap: &'a Heap,
    rt: &impl Abort,
) -> bool {
    heap.refuse_only(number);
    let is_copied = is_node_copied(node);
    let is_met = number <= heap.requests();
    heap.refuse_none();
    holds!(rt, is_copied == (!is_met).then_some(true));
    is_met
}

/// Like `node_is_refused`, but for a history.
fn history_is_refused<'a>(
    history: &History<'a, Heap>,
    number: u64,
    heap: &'a Heap,
    rt: &impl Abort,
) -> bool {
    heap.refuse_only(number);
    let is_copied = is_history_copied(history);
    let is_met = number <= heap.requests();
    heap.refuse_none();
    holds!(rt, is_copied == (!is_met).then_some(true));
    is_met
}

/// Copies the node with the first, second, .. request for memory refused, until no refusal is met. Gives how many
/// requests were refused, or 2,000 if each of the first 1,999 was.
fn node_copies<'a>(node: &Node<'a, Heap>, heap: &'a Heap, rt: &impl Abort) -> u64 {
    for number in 1..2_000 {
        if !node_is_refused(node, number, heap, rt) {
            return number - 1;
        }
    }
    2_000
}

/// Like `node_copies`, but for a history.
fn history_copies<'a>(history: &History<'a, Heap>, heap: &'a Heap, rt: &impl Abort) -> u64 {
    for number in 1..2_000 {
        if !history_is_refused(history, number, heap, rt) {
            return number - 1;
        }
    }
    2_000
}

/// Copies the first two nodes and the history, like `node_copies` and `history_copies`. The first try at each must be
/// refused, and one of the first 1,999 must succeed.
fn copies<'a>(bench: &Bench<'a, Heap>, heap: &'a Heap, rt: &impl Abort) {
    for number in 0..2 {
        let node = bench.node(number).expect(rt, "a node");
        let refused = node_copies(node, heap, rt);
        holds!(rt, 0 < refused && refused < 2_000);
    }
    let refused = history_copies(bench.history(), heap, rt);
    holds!(rt, 0 < refused && refused < 2_000);
}

/// Unwinds step 1, the second node's up. Says whether all 66 steps of that node are undone: step 1, and the 65
/// deliveries that follow from it.
fn unwinds_many<'a>(bench: &mut Bench<'a, Heap>) -> bool {
    match bench.unwind(40, 1) {
        Unwound::Done(numbers) => {
            let are_all = numbers.len() == 66;
            drop(numbers);
            are_all
        }
        _ => false,
    }
}

/// Copies nodes and history, and unwinds a step.
fn copies_and_unwinds<'a>(bench: &mut Bench<'a, Heap>, heap: &'a Heap, rt: &impl Abort) {
    holds!(rt, bench.history().len() == 327);
    copies(bench, heap, rt);
    holds!(rt, unwinds_many(bench));
    holds!(rt, bench.remaining().len() == 261);
}

/// Plays the script, copies nodes and history, and unwinds a step.
fn plays<'a>(script: &str, heap: &'a Heap, rt: &impl Abort) {
    let mut bench = played(script, Limits::usual(), heap, rt);
    copies_and_unwinds(&mut bench, heap, rt);
    drop(bench);
}

#[test]
fn large_values_are_copied_and_undone(rt: HostRuntime) {
    let heap = Refusing::new(rt.alloc());
    let text = script(&heap, &rt);
    plays(&text, &heap, &rt);
    drop(text);
}
