//! Swaps that lead from the steps of one bench to those of another: a table of cases, and refused memory. Scripts make
//! the benches.
use crate::benches::{Heap, limits_of, played};
use crate::cases::holds;
use bench_core::{Bench, SwapFault, same_cluster};
use std::process::Abort;
use test_alloc::Refusing;

const USUAL: [u64; 4] = [100_000, 10_000, 1_000_000, 10_000];

const ALICE_FIRST: &str = "nodes a b
a join 1 r alice phone
b join 9 r bob desk";

const BOB_FIRST: &str = "nodes a b
b join 9 r bob desk
a join 1 r alice phone";

const DELIVERED: &str = "nodes a b
a join 1 r alice phone
b up a
a broadcast
b deliver a 1";

/// Steps of two nodes. Three swaps lead from them to `ONE_AFTER_THE_OTHER`.
const IN_TURN: &str = "nodes a b
a join 1 r alice phone
b join 9 r bob desk
a join 2 r carl phone
b join 8 r dora desk";

const ONE_AFTER_THE_OTHER: &str = "nodes a b
b join 9 r bob desk
b join 8 r dora desk
a join 1 r alice phone
a join 2 r carl phone";

/// A case: the scripts of two benches, swaps by place, and what `same_cluster` gives.
struct Swaps {
    name: &'static str,
    one: &'static str,
    other: &'static str,
    /// The limits of the other bench.
    limits: [u64; 4],
    places: &'static [u64],
    outcome: Result<(), SwapFault>,
}

const SWAPS: &[Swaps] = &[
    Swaps {
        name: "two joins in the other order",
        one: ALICE_FIRST,
        other: BOB_FIRST,
        limits: USUAL,
        places: &[1],
        outcome: Ok(()),
    },
    Swaps {
        name: "three swaps",
        one: IN_TURN,
        other: ONE_AFTER_THE_OTHER,
        limits: USUAL,
        places: &[1, 3, 2],
        outcome: Ok(()),
    },
    Swaps {
        name: "three swaps, of which the last takes the first back",
        one: IN_TURN,
        other: ONE_AFTER_THE_OTHER,
        limits: USUAL,
        places: &[1, 3, 1],
        outcome: Err(SwapFault::OtherSteps),
    },
    Swaps {
        name: "no swap of two joins in the other order",
        one: ALICE_FIRST,
        other: BOB_FIRST,
        limits: USUAL,
        places: &[],
        outcome: Err(SwapFault::OtherSteps),
    },
    Swaps {
        name: "a swap of the last place",
        one: ALICE_FIRST,
        other: BOB_FIRST,
        limits: USUAL,
        places: &[2],
        outcome: Err(SwapFault::BadSwap { at: 1 }),
    },
    Swaps {
        name: "a swap of place 0, after one that is good",
        one: ALICE_FIRST,
        other: ALICE_FIRST,
        limits: USUAL,
        places: &[1, 0],
        outcome: Err(SwapFault::BadSwap { at: 2 }),
    },
    Swaps {
        name: "a send and its delivery",
        one: DELIVERED,
        other: DELIVERED,
        limits: USUAL,
        places: &[3],
        outcome: Err(SwapFault::BadSwap { at: 1 }),
    },
    Swaps {
        name: "one place twice",
        one: DELIVERED,
        other: DELIVERED,
        limits: USUAL,
        places: &[1, 1],
        outcome: Ok(()),
    },
    Swaps {
        name: "two steps of one node, once they are adjacent",
        one: DELIVERED,
        other: DELIVERED,
        limits: USUAL,
        places: &[1, 2],
        outcome: Err(SwapFault::BadSwap { at: 2 }),
    },
    Swaps {
        name: "fewer steps",
        one: DELIVERED,
        other: ALICE_FIRST,
        limits: USUAL,
        places: &[],
        outcome: Err(SwapFault::OtherSteps),
    },
    Swaps {
        name: "a swap that leads away",
        one: ALICE_FIRST,
        other: ALICE_FIRST,
        limits: USUAL,
        places: &[1],
        outcome: Err(SwapFault::OtherSteps),
    },
    Swaps {
        name: "a bench with another limit",
        one: ALICE_FIRST,
        other: ALICE_FIRST,
        limits: [100_000, 10_000, 9, 10_000],
        places: &[9],
        outcome: Err(SwapFault::OtherBench),
    },
    Swaps {
        name: "a bench with other names",
        one: ALICE_FIRST,
        other: "nodes a c",
        limits: USUAL,
        places: &[9],
        outcome: Err(SwapFault::OtherBench),
    },
];

/// Asks `same_cluster` with its first, second, .. request for memory refused alone, until no refusal is met. Gives its
/// outcome, and how many requests were refused; `OutOfMemory` and 9 if each of the first 9 was.
fn outcome_of<'a>(
    one: &Bench<'a, Heap>,
    other: &mut Bench<'a, Heap>,
    places: &[u64],
    heap: &'a Heap,
) -> (Result<(), SwapFault>, u64) {
    for number in 1..10 {
        heap.refuse_only(number);
        let outcome = same_cluster(one, other, places);
        if outcome != Err(SwapFault::OutOfMemory) {
            heap.refuse_none();
            return (outcome, number - 1);
        }
    }
    (Err(SwapFault::OutOfMemory), 9)
}

/// Compares `one` with the other bench of the case. This must ask for no memory if names or limits differ, and for some
/// otherwise.
fn compare<'a>(one: &mut Bench<'a, Heap>, swaps: &Swaps, heap: &'a Heap, rt: &impl Abort) {
    let limits = limits_of(swaps.limits, rt);
    let mut other = played(swaps.other, limits, heap, rt);
    let (outcome, refused) = outcome_of(one, &mut other, swaps.places, heap);
    drop(other);
    let is_other = swaps.outcome == Err(SwapFault::OtherBench);
    holds(rt, outcome == swaps.outcome, swaps.name);
    holds(rt, (refused == 0) == is_other, swaps.name);
}

/// Plays the first script of the case, and compares the bench with the other.
fn compares<'a>(swaps: &Swaps, heap: &'a Heap, rt: &impl Abort) {
    let limits = limits_of(USUAL, rt);
    let mut one = played(swaps.one, limits, heap, rt);
    compare(&mut one, swaps, heap, rt);
    drop(one);
}

#[test]
fn swaps_lead_from_one_bench_to_another(rt: HostRuntime) {
    let heap = Refusing::new(rt.alloc());
    for swaps in SWAPS {
        compares(swaps, &heap, &rt);
    }
}
