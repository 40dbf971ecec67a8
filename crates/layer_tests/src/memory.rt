//! What calls of a bench leave if memory is refused. The calls are those of a script; a second bench, which makes the
//! same calls with memory, says what there must be before and after each. Then the refusals that take no memory.
use crate::benches::{Calls, Heap, Pair, are_same, calls_of, limits_of, opened, played_twice};
use crate::cases::holds;
use bench_core::{Act, Bench, Fault, Limits, Reply, Step};
use dots_core::NameSet;
use std::process::Abort;
use test_alloc::Refusing;

/// A step of each of the twelve kinds, undone by its number; backs; and refusals.
pub const SCRIPT: &str = "nodes a b
consoles c
b join 9 r bob desk
b broadcast
b request
b permdown a
a join 1 r alice phone
a join 1 r alice phone
c undo 4
a join 1 r alice phone
a join 1 s alice phone
a up b
c undo 7
a up b
a deliver b 1
c undo 9
a deliver b 1
a deliver b 2
a update 1 r alice away
c undo 11
a update 1 r alice away
a leave 1 r alice
c undo 13
a leaveall 1
c undo 14
a broadcast
c undo 15
a extract a b
c undo 16
a request
c undo 17
a answer b 2
c undo 18
a broadcast
a leave 1 r alice
c undo 20
a update 1 r alice home
c undo 21
a leaveall 1
c undo 22
a answer b 2
a down b
c undo 24
a down b
a permdown b
c undo 26
a permdown b
b up a
b deliver a 1
b deliver a 2
a update 1 s alice away
a broadcast
b deliver a 3
c undo 33
b answer a 1
c undo 5
c undo 9
c undo 99
b deliver a 3
a leave 2 r bob
a broadcast
a deliver a 1
b deliver a 7
b permdown a
b up b
b back b
b back b
b back b
c back a
c back b
c back b
";

/// A request for memory that is refused, alone or with all that follow.
#[derive(Clone, Copy)]
enum Refusal {
    Alone(u64),
    From(u64),
}

/// Makes the call on the first bench of the pair while the heap refuses memory. If the call is refused memory, the
/// first bench must be the same as the second, which made all calls before with memory; the first then makes the call
/// with memory. The second makes the call, too, and at the end both must be the same. Says whether the call was refused
/// memory.
fn is_refused<'a>(
    pair: &mut Pair<'a>,
    call: &(u16, Act<&'a Heap>),
    heap: &'a Heap,
    rt: &impl Abort,
) -> bool {
    let Pair { bench, other } = pair;
    let (actor, act) = call;
    let refused = Reply::Refused(Fault::OutOfMemory);
    let is_refused = bench.act(*actor, act) == refused;
    heap.refuse_none();
    if is_refused {
        holds!(rt, are_same(bench, other));
        bench.act(*actor, act);
    }
    holds!(rt, other.act(*actor, act) != refused);
    holds!(rt, are_same(bench, other));
    is_refused
}

/// Makes each of the calls like `is_refused`. The number in `refusal` counts the requests of each call anew. Says
/// whether a call was refused memory.
fn ask_refused<'a>(
    pair: &mut Pair<'a>,
    calls: &Calls<'a>,
    refusal: Refusal,
    heap: &'a Heap,
    rt: &impl Abort,
) -> bool {
    let mut is_met = false;
    for call in calls {
        match refusal {
            Refusal::Alone(number) => heap.refuse_only(number),
            Refusal::From(number) => heap.refuse_from(number),
        }
        is_met |= is_refused(pair, call, heap, rt);
    }
    is_met
}

/// A script that has the nodes of `SCRIPT`, and no act.
const NODES: &str = "nodes a b";

/// Opens two equal benches, makes the calls of `SCRIPT` on them with `ask_refused`, and says whether a call was refused
/// memory. At the end the meter must have counted the 34 steps that were taken; it doesn't count undos, backs and
/// refusals.
fn is_met<'a>(calls: &Calls<'a>, refusal: Refusal, heap: &'a Heap, rt: &impl Abort) -> bool {
    let mut pair = played_twice(NODES, Limits::usual(), heap, rt);
    let is_met = ask_refused(&mut pair, calls, refusal, heap, rt);
    let meter = pair.bench.meter();
    drop(pair);
    holds!(rt, meter == 34);
    is_met
}

/// Makes each call with its first, second, .. request for memory refused, alone and with all that follow, until no
/// refusal is met.
#[test]
fn a_call_that_is_refused_memory_changes_nothing(rt: HostRuntime) {
    let heap = Refusing::new(rt.alloc());
    let calls = calls_of(SCRIPT, &heap, &rt);
    let mut most = 0;
    for number in 1..100 {
        let is_one = is_met(&calls, Refusal::From(number), &heap, &rt);
        holds!(
            &rt,
            is_met(&calls, Refusal::Alone(number), &heap, &rt) == is_one
        );
        if !is_one {
            break;
        }
        most = number;
    }
    drop(calls);
    holds!(&rt, 0 < most && most < 99);
}

/// A case: the limits of a bench; a script after which at most one place is free; acts that the bench then refuses; and
/// the fault of each.
struct Full {
    limits: [u64; 4],
    script: &'static str,
    refused: &'static str,
    fault: Fault,
}

const HELD: Fault = Fault::HasConsequence {
    step: 1,
    held_by: 2,
};

/// The cases in turn. A step needs two free places. In the first case one place is free, and the acts are steps. Then
/// none is free, and the acts are a step, undos of numbers that were never given, a back of a node without steps, an
/// undo of a step with a consequence, an undo that was made already, and a back after an undo. The last case has a
/// limit of 1 on acts, so two places are never free.
const FULL: &[Full] = &[
    Full {
        limits: [3, 10, 10, 10],
        script: "nodes a b\na join 1 r alice phone",
        refused: "nodes a b\na join 2 r bob desk\na broadcast\nb extract a\nb down b",
        fault: Fault::HistoryFull,
    },
    Full {
        limits: [2, 10, 10, 10],
        script: "nodes a b\na join 1 r alice phone",
        refused: "nodes a b\nb update 1 r alice away",
        fault: Fault::HistoryFull,
    },
    Full {
        limits: [2, 10, 10, 10],
        script: "nodes a b\na join 1 r alice phone",
        refused: "nodes a b\na undo 0\na undo 2",
        fault: Fault::NoSuchStep,
    },
    Full {
        limits: [2, 10, 10, 10],
        script: "nodes a b\na join 1 r alice phone",
        refused: "nodes a b\na back b",
        fault: Fault::NothingToUndo,
    },
    Full {
        limits: [4, 10, 10, 10],
        script: "nodes a b\na join 1 r alice phone\na broadcast",
        refused: "nodes a b\nb undo 1",
        fault: HELD,
    },
    Full {
        limits: [2, 10, 10, 10],
        script: "nodes a b\na join 1 r alice phone\na undo 1",
        refused: "nodes a b\na undo 1",
        fault: Fault::AlreadyUndone,
    },
    Full {
        limits: [2, 10, 10, 10],
        script: "nodes a b\na join 1 r alice phone\na undo 1",
        refused: "nodes a b\na back a",
        fault: Fault::NothingToUndo,
    },
    Full {
        limits: [1, 10, 10, 10],
        script: "nodes a b",
        refused: "nodes a b\na join 1 r alice phone",
        fault: Fault::HistoryFull,
    },
];

/// Makes the calls with all memory refused. Each must be refused with this fault, and ask for no memory.
fn are_free<'a>(
    bench: &mut Bench<'a, Heap>,
    calls: &[(u16, Act<&'a Heap>)],
    fault: Fault,
    heap: &'a Heap,
    rt: &impl Abort,
) {
    heap.refuse_from(1);
    for (actor, act) in calls {
        holds!(rt, bench.act(*actor, act) == Reply::Refused(fault));
    }
    holds!(rt, heap.requests() == 0);
    heap.refuse_none();
}

/// Makes the calls like `are_free` on one bench of the pair, which must stay the same as the other.
fn ask_for_free<'a>(
    pair: &mut Pair<'a>,
    calls: &[(u16, Act<&'a Heap>)],
    full: &Full,
    heap: &'a Heap,
    rt: &impl Abort,
) {
    are_free(&mut pair.bench, calls, full.fault, heap, rt);
    holds(rt, are_same(&pair.bench, &pair.other), full.refused);
}

/// Plays the acts of the case, and makes its calls with all memory refused. Each call must be refused with the fault of
/// the case, ask for no memory and not be recorded.
fn refuse_for_free<'a>(full: &Full, heap: &'a Heap, rt: &impl Abort) {
    let limits = limits_of(full.limits, rt);
    let calls = calls_of(full.refused, heap, rt);
    let mut pair = played_twice(full.script, limits, heap, rt);
    ask_for_free(&mut pair, &calls, full, heap, rt);
    drop(pair);
    drop(calls);
}

#[test]
fn a_refusal_without_a_place_takes_no_memory(rt: HostRuntime) {
    let heap = Refusing::new(rt.alloc());
    for full in FULL {
        refuse_for_free(full, &heap, &rt);
    }
}

/// Calls that name a node which a bench of two nodes doesn't have.
fn unknown<'a>() -> [(u16, Act<&'a Heap>); 6] {
    let names = NameSet::empty().with(5);
    let answer = Step::Answer {
        sender: 5,
        number: 1,
    };
    [
        (7, Act::Do(Step::Broadcast)),
        (0, Act::Do(Step::Up { name: 5 })),
        (0, Act::Do(Step::Extract { names })),
        (0, Act::Do(answer)),
        (0, Act::Back(2)),
        (40, Act::Back(3)),
    ]
}

/// Whether the bench runs the calls with these replies.
fn run_gives<'a>(
    bench: &mut Bench<'a, Heap>,
    calls: &[(u16, Act<&'a Heap>)],
    expected: &[Reply],
) -> bool {
    match bench.run(calls) {
        Ok(replies) => {
            let are_expected = replies.as_slice() == expected;
            drop(replies);
            are_expected
        }
        Err(_) => false,
    }
}

/// `Bench::run` refuses each call that names a node which the bench doesn't have, and records it while a place is free.
/// If memory for the list of replies is refused, `run` makes none of the calls. Once no place is free, `Bench::act`
/// refuses such calls without memory.
fn refuses_unknown<'a>(bench: &mut Bench<'a, Heap>, heap: &'a Heap, rt: &impl Abort) {
    let calls = unknown();
    heap.refuse_only(1);
    holds!(rt, bench.run(&calls).err().is_some());
    holds!(rt, bench.history().len() == 0);
    heap.refuse_none();
    let expected = [Reply::Refused(Fault::UnknownNode); 6];
    holds!(rt, run_gives(bench, &calls, &expected));
    holds!(rt, bench.history().len() == 6);
    are_free(bench, &calls, Fault::UnknownNode, heap, rt);
    drop(calls);
}

fn unknown_is_refused<'a>(heap: &'a Heap, rt: &impl Abort) {
    let mut bench = opened("nodes a b", limits_of([6, 1, 1, 1], rt), heap, rt);
    refuses_unknown(&mut bench, heap, rt);
    drop(bench);
}

#[test]
fn a_number_that_is_no_nodes_is_refused(rt: HostRuntime) {
    let heap = Refusing::new(rt.alloc());
    unknown_is_refused(&heap, &rt);
}
