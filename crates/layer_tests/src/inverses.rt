//! Inverses: a bench keeps what each step destroyed, to take the step back, and nothing more. Each inverse is of its
//! step's own kind, even where an inverse of another kind would serve as well. `Bench::way_back` shows the inverses.
use crate::benches::{Heap, played};
use crate::cases::holds_at;
use bench_core::{Bench, Inverse, Limits};
use dots_core::Dot;
use payload_core::Handle;
use replica_core::{Change, Status};
use std::alloc::Allocator;
use std::process::Abort;
use store_core::{Delivered, Forgotten, Left, OldPart};
use test_alloc::Refusing;

/// The last of 32 names.
const LAST: u16 = 31;

/// An entry that left: the clock of its dot, whether the delta had an entry there, and whether the delta had the dot.
#[derive(Clone, Copy)]
struct Stood {
    clock: u64,
    unsent: bool,
    in_delta: bool,
}

/// What the bench keeps of a step of the first node. Names and dots of other nodes are the last node's. Dots and
/// entries are given by their clocks, and old parts by their context clocks.
#[derive(Clone, Copy)]
enum Told {
    Join,
    Leave(Stood),
    LeaveAll(&'static [Stood]),
    Update(Stood),
    Broadcast,
    Sent,
    Deliver {
        joined: &'static [u64],
        left: &'static [u64],
        clocks: &'static [u64],
    },
    Up(Option<Status>),
    Down(Option<Status>),
    Permdown {
        clock: u64,
        entries: &'static [u64],
    },
}

/// Whether `left` is what `told` says, of an entry of the first node.
fn is_left<A: Allocator>(left: &Left<A>, told: Stood) -> bool {
    let Left {
        entry,
        unsent,
        in_delta,
    } = left;
    entry.dot().name == 0
        && entry.dot().clock == told.clock
        && unsent.is_some() == told.unsent
        && *in_delta == told.in_delta
}

/// Whether the entries that left are those of `told`, in its order.
fn are_left<A: Allocator>(lefts: &[Left<A>], told: &[Stood]) -> bool {
    lefts.len() == told.len()
        && lefts
            .iter()
            .zip(told.iter())
            .all(|(left, stood)| is_left(left, *stood))
}

/// Whether `dot` is the last node's dot with this clock.
fn is_there(dot: Dot, clock: u64) -> bool {
    dot.name == LAST && dot.clock == clock
}

/// Whether these are the last node's dots with these clocks, in the same order.
fn are_dots(dots: &[Dot], clocks: &[u64]) -> bool {
    dots.len() == clocks.len()
        && dots
            .iter()
            .zip(clocks.iter())
            .all(|(dot, clock)| is_there(*dot, *clock))
}

/// Whether these are entries at the last node's dots with these clocks, in the same order.
fn are_entries<A: Allocator>(entries: &[Handle<A>], clocks: &[u64]) -> bool {
    entries.len() == clocks.len()
        && entries
            .iter()
            .zip(clocks.iter())
            .all(|(entry, clock)| is_there(entry.dot(), *clock))
}

/// Whether these are parts of the last node, with these context clocks and empty clouds.
fn are_parts<A: Allocator>(parts: &[OldPart<A>], clocks: &[u64]) -> bool {
    parts.len() == clocks.len()
        && parts.iter().zip(clocks.iter()).all(|(old, clock)| {
            let OldPart { name, part } = old;
            *name == LAST && part.clock == *clock && part.cloud.is_empty()
        })
}

/// Whether what the bench keeps of the delivery is what `told` says.
fn is_delivered<A: Allocator>(delivered: &Delivered<A>, told: Told) -> bool {
    let Delivered {
        joined,
        left,
        parts,
    } = delivered;
    let Told::Deliver {
        joined: dots,
        left: entries,
        clocks,
    } = told
    else {
        return false;
    };
    are_dots(joined, dots) && are_entries(left, entries) && are_parts(parts, clocks)
}

/// Whether what the bench keeps of the forgotten name is what `told` says.
fn is_forgotten<A: Allocator>(forgotten: &Forgotten<A>, told: Told) -> bool {
    let Forgotten { part, entries } = forgotten;
    let Told::Permdown {
        clock,
        entries: clocks,
    } = told
    else {
        return false;
    };
    part.clock == clock && part.cloud.is_empty() && are_entries(entries, clocks)
}

/// Whether the change is what `told` says. Each variant of `Change` is here, with each of its fields.
fn is_change<A: Allocator>(change: &Change<A>, told: Told) -> bool {
    match change {
        Change::Join => matches!(told, Told::Join),
        Change::Leave(left) => match told {
            Told::Leave(stood) => is_left(left, stood),
            _ => false,
        },
        Change::LeaveAll(lefts) => match told {
            Told::LeaveAll(stood) => are_left(lefts, stood),
            _ => false,
        },
        Change::Update(left) => match told {
            Told::Update(stood) => is_left(left, stood),
            _ => false,
        },
        Change::Deliver(delivered) => is_delivered(delivered, told),
        Change::Up { name, before } => match told {
            Told::Up(status) => *name == LAST && *before == status,
            _ => false,
        },
        Change::Down { name, before } => match told {
            Told::Down(status) => *name == LAST && *before == status,
            _ => false,
        },
        Change::Permdown { name, forgotten } => { *name == LAST && is_forgotten(forgotten, told) }
    }
}

/// Whether the inverse is what `told` says. Each variant of `Inverse` is here, with each of its fields.
fn is_inverse<A: Allocator>(inverse: &Inverse<A>, told: Told) -> bool {
    match inverse {
        Inverse::Change(change) => is_change(change, told),
        Inverse::Broadcast => matches!(told, Told::Broadcast),
        Inverse::Sent => matches!(told, Told::Sent),
    }
}

/// The last node sends a join, the leave of what joined, and a request. Then come the steps of the first node: its own
/// joins, updates, leaves and sends, on entries that were sent and on entries that weren't; and its steps about the
/// last node and the last node's messages.
const SCRIPT: &str = "nodes a b c d e f g h i j k l m n o p q r s t u v w x y z aa ab ac ad ae af
af join 1 r bob desk
af broadcast
af leave 1 r bob
af broadcast
af request
a join 1 r alice phone
a update 1 r alice away
a broadcast
a update 1 r alice away
a leave 1 r alice
a join 2 r alice phone
a extract a
a request
a broadcast
a join 2 s alice phone
a leaveall 2
a join 3 r alice phone
a broadcast
a leaveall 3
a up af
a deliver af 1
a deliver af 1
a down af
a up af
a up af
a deliver af 2
a down af
a down af
a permdown af
a up af
a down af
a deliver af 1
a permdown af
a answer af 3
";

/// How many steps the last node takes before those of the first.
const FIRST: usize = 5;

/// What the bench keeps of each step of the first node, in their order.
const KEPT: &[Told] = &[
    Told::Join,
    Told::Update(Stood {
        clock: 1,
        unsent: true,
        in_delta: true,
    }),
    Told::Broadcast,
    Told::Update(Stood {
        clock: 2,
        unsent: false,
        in_delta: false,
    }),
    Told::Leave(Stood {
        clock: 3,
        unsent: true,
        in_delta: true,
    }),
    Told::Join,
    Told::Sent,
    Told::Sent,
    Told::Broadcast,
    Told::Join,
    Told::LeaveAll(&[
        Stood {
            clock: 5,
            unsent: false,
            in_delta: false,
        },
        Stood {
            clock: 6,
            unsent: true,
            in_delta: true,
        },
    ]),
    Told::Join,
    Told::Broadcast,
    Told::LeaveAll(&[Stood {
        clock: 9,
        unsent: false,
        in_delta: false,
    }]),
    Told::Up(None),
    Told::Deliver {
        joined: &[1],
        left: &[],
        clocks: &[0],
    },
    Told::Deliver {
        joined: &[],
        left: &[],
        clocks: &[],
    },
    Told::Down(Some(Status::Up)),
    Told::Up(Some(Status::Down)),
    Told::Up(Some(Status::Up)),
    Told::Deliver {
        joined: &[],
        left: &[1],
        clocks: &[1],
    },
    Told::Down(Some(Status::Up)),
    Told::Down(Some(Status::Down)),
    Told::Permdown {
        clock: 2,
        entries: &[],
    },
    Told::Up(None),
    Told::Down(Some(Status::Up)),
    Told::Deliver {
        joined: &[1],
        left: &[],
        clocks: &[0],
    },
    Told::Permdown {
        clock: 1,
        entries: &[1],
    },
    Told::Sent,
];

/// Whether the bench keeps of step `number` what `told` says; `false` if the step doesn't remain.
fn keeps<'a>(bench: &Bench<'a, Heap>, number: u64, told: Told) -> bool {
    match bench.way_back(number) {
        Some(inverse) => is_inverse(inverse, told),
        None => false,
    }
}

/// The bench must keep what `KEPT` says of each step of the first node, and must have no other steps but the first
/// `FIRST`.
fn keeps_each<'a>(bench: &mut Bench<'a, Heap>, rt: &impl Abort) {
    for (place, told) in KEPT.iter().enumerate() {
        let number = (place + FIRST + 1) as u64;
        holds_at(rt, keeps(bench, number, *told), number);
    }
    holds!(rt, bench.remaining().len() == KEPT.len() + FIRST);
}

fn plays<'a>(script: &str, heap: &'a Heap, rt: &impl Abort) {
    let mut bench = played(script, Limits::usual(), heap, rt);
    keeps_each(&mut bench, rt);
    drop(bench);
}

#[test]
fn each_inverse_keeps_what_its_step_destroyed(rt: HostRuntime) {
    let heap = Refusing::new(rt.alloc());
    plays(SCRIPT, &heap, &rt);
}
