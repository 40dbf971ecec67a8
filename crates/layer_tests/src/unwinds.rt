//! Unwinds that are refused memory on the way. A second bench makes the undos that are reported, one by one. Then both
//! benches must be the same.
use crate::benches::{Heap, Pair, are_same, played_twice};
use crate::cases::holds_at;
use bench_core::{Act, Bench, Fault, Limits, Reply, Unwound};
use std::process::Abort;
use test_alloc::Refusing;

/// A join that is sent and delivered, and a join of the node that took the delivery.
const SCRIPT: &str = "nodes a b
a join 1 r alice phone
b up a
a broadcast
b deliver a 1
b join 9 r bob desk
";

/// The future of step 1.
const FUTURE: [u64; 4] = [5, 4, 3, 1];

/// How many of these steps are reported as undone, and whether all are; 0 if the unwind was refused memory at once, and
/// `None` for any other outcome.
fn told<'a>(unwound: &Unwound<&'a Heap>, steps: &[u64]) -> Option<(usize, bool)> {
    match unwound {
        Unwound::Done(numbers) if numbers.as_slice() == steps => Some((numbers.len(), true)),
        Unwound::Partial { numbers } if steps.starts_with(numbers) => Some((numbers.len(), false)),
        Unwound::Refused(Fault::OutOfMemory) => Some((0, false)),
        _ => None,
    }
}

/// Unwinds step 1, whose future is `steps`. Gives how many were undone, and whether all were.
fn unwinds<'a>(bench: &mut Bench<'a, Heap>, steps: &[u64], rt: &impl Abort) -> (usize, bool) {
    let unwound = bench.unwind(2, 1);
    let undone = told(&unwound, steps);
    drop(unwound);
    undone.expect(rt, "undos")
}

/// Undoes these steps one by one; each undo must be made.
fn undo_each<'a>(bench: &mut Bench<'a, Heap>, steps: &[u64], rt: &impl Abort) {
    for number in steps {
        let undo = Act::Undo(*number);
        let reply = bench.act(2, &undo);
        drop(undo);
        holds!(rt, reply == Reply::Undone(*number));
    }
}

/// Unwinds step 1 with request `number` for memory refused, and then the rest with memory. Gives how many steps were
/// undone at first, and whether there was such a request. If and only if there was, the unwind must be reported as
/// refused or as done in part.
fn goes_on<'a>(pair: &mut Pair<'a>, number: u64, heap: &'a Heap, rt: &impl Abort) -> (usize, bool) {
    let Pair { bench, other } = pair;
    heap.refuse_only(number);
    let (undone, is_done) = unwinds(bench, &FUTURE, rt);
    let is_met = number <= heap.requests();
    heap.refuse_none();
    holds_at(rt, is_done != is_met, number);
    let first = FUTURE.get(..undone).expect(rt, "undos");
    let rest = FUTURE.get(undone..).expect(rt, "undos");
    undo_each(other, first, rt);
    holds_at(rt, are_same(bench, other), number);
    if !is_done {
        holds_at(rt, unwinds(bench, rest, rt) == (rest.len(), true), number);
    }
    undo_each(other, rest, rt);
    holds_at(rt, are_same(bench, other), number);
    (undone, is_met)
}

/// Like `goes_on`, but on two new benches.
fn undone_first<'a>(number: u64, heap: &'a Heap, rt: &impl Abort) -> (usize, bool) {
    let mut pair = played_twice(SCRIPT, Limits::usual(), heap, rt);
    let undone = goes_on(&mut pair, number, heap, rt);
    drop(pair);
    undone
}

#[test]
fn an_unwind_that_is_refused_memory_can_go_on(rt: HostRuntime) {
    let heap = Refusing::new(rt.alloc());
    let mut most = 0;
    for number in 1..100 {
        let (undone, is_met) = undone_first(number, &heap, &rt);
        if !is_met {
            break;
        }
        most = most.max(undone);
        holds!(&rt, number < 99);
    }
    holds!(&rt, 0 < most && most < 4);
}
