//! A join and its undo, at a node of a thousand entries, ask for far fewer bytes than a copy of the node: they copy no
//! node, and take no step again.
use crate::benches::{Calls, Heap, ask, calls_of, played};
use bench_core::{Bench, Limits};
use std::process::Abort;
use test_alloc::Refusing;

const JOIN_AND_UNDO: &str = "nodes a
a join 1001 r alice phone
a undo 1001";

/// A script of a thousand joins of one node.
fn joins<'a>(heap: &'a Heap, rt: &impl Abort) -> String<&'a Heap> {
    let mut text = String::new(heap);
    text.push_str("nodes a").expect(rt, "memory");
    for pid in 1..1_001 {
        write!(text, "\na join {pid} r alice phone").expect(rt, "memory");
    }
    text
}

/// Makes the calls, and gives how many bytes they ask for. They must make fewer than 65 requests.
fn bytes_of<'a>(
    bench: &mut Bench<'a, Heap>,
    calls: &Calls<'a>,
    heap: &'a Heap,
    rt: &impl Abort,
) -> u64 {
    heap.refuse_none();
    ask(bench, calls, rt);
    holds!(rt, heap.requests() < 65);
    heap.bytes()
}

/// How many bytes a copy of the first node asks for.
fn bytes_of_copy<'a>(bench: &mut Bench<'a, Heap>, heap: &'a Heap, rt: &impl Abort) -> u64 {
    let node = bench.node(0).expect(rt, "a node");
    heap.refuse_none();
    let is_copied = node.try_copy().err().is_none();
    holds!(rt, is_copied);
    heap.bytes()
}

/// Plays the script, then a join and its undo. These must ask for less than a tenth of the bytes that a copy of the
/// node asks for.
fn plays<'a>(script: &str, heap: &'a Heap, rt: &impl Abort) {
    let calls = calls_of(JOIN_AND_UNDO, heap, rt);
    let mut bench = played(script, Limits::usual(), heap, rt);
    let bytes = bytes_of(&mut bench, &calls, heap, rt);
    let bytes_of_copy = bytes_of_copy(&mut bench, heap, rt);
    drop(bench);
    drop(calls);
    // form: saturating spares a requirement
    holds!(rt, bytes.saturating_mul(10) < bytes_of_copy);
}

#[test]
fn a_join_and_its_undo_ask_for_few_bytes(rt: HostRuntime) {
    let heap = Refusing::new(rt.alloc());
    let text = joins(&heap, &rt);
    plays(&text, &heap, &rt);
    drop(text);
}
