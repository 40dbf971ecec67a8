//! Races, single calls, and what refuses a race.
use crate::workers::gates::{Idle, InOrder};
use crate::workers::lines::{let_go_of_lines, lines_of, open};
use bench_core::{Act, Bench, Fault, Reply};
use std::alloc::{Allocator, Global};
use std::process::Abort;
use std::sync::Wait;
use std::thread::Threads;
use std::time::Clock;
use worker_core::{Gate, RaceFault, Receipt, Receipts, agree, ask, race};

/// A node joins and sends; another, which knows it by an up, takes the delivery.
const DELIVERED: &str = "\
nodes a b
consoles c1
a join 1 r alice phone
b up a
a broadcast
b deliver a 1
";

const TWO_JOINS: &str = "\
nodes a b
a join 1 r alice phone
b join 9 r bob desk
";

const UNKNOWN_ACTOR: &str = "\
nodes a b
consoles c1
c1 undo 1
";

/// What a race gives back: the bench, and the receipts or the fault.
type Raced<'a, B> = Result<(Bench<'a, B>, Receipts<&'a B>), (RaceFault, Bench<'a, B>)>;

/// What calls of several actors leave: the bench, and the receipts of each actor.
pub type Left<'a, B> = (Bench<'a, B>, Receipts<&'a B>);

/// Races the lines of the script on this bench.
fn race_of<'a, B: Allocator + Sync, G: Gate + Sync, R: Threads + Wait + Sync + Abort>(
    bench: Bench<'a, B>,
    heap: &'a B,
    script: &str,
    actors: u16,
    gate: &G,
    rt: &R,
) -> Raced<'a, B> {
    let lines = lines_of(heap, script, rt);
    race(rt, heap, bench, actors, lines, gate)
}

/// How many calls the bench has recorded, and its limit on acts.
fn recorded_of<'a, B: Allocator>(bench: &mut Bench<'a, B>) -> (usize, u64) {
    (bench.history().len(), bench.limits().acts())
}

/// The fault of a race that was refused, and what `recorded_of` gives of its bench.
fn refusal_of<'a, B: Allocator>(refused: (RaceFault, Bench<'a, B>)) -> (RaceFault, usize, u64) {
    let (fault, mut bench) = refused;
    let (recorded, most) = recorded_of(&mut bench);
    drop(bench);
    (fault, recorded, most)
}

/// Races the lines of the script on this bench, and gives the bench and the receipts. The race must be vouched for.
pub fn raced_on<'a, B: Allocator + Sync, G: Gate + Sync, R: Threads + Wait + Sync + Abort>(
    bench: Bench<'a, B>,
    heap: &'a B,
    script: &str,
    actors: u16,
    gate: &G,
    rt: &R,
) -> Left<'a, B> {
    let raced = race_of(bench, heap, script, actors, gate, rt).map_err(refusal_of);
    raced.expect(rt, "a race")
}

/// Races the lines of the script on a fresh bench, and gives the bench and the receipts. The race must be vouched for.
pub fn raced<'a, B: Allocator + Sync, G: Gate + Sync, R: Threads + Wait + Sync + Abort>(
    heap: &'a B,
    script: &str,
    actors: u16,
    gate: &G,
    rt: &R,
) -> Left<'a, B> {
    let bench = open(heap, 100, rt);
    raced_on(bench, heap, script, actors, gate, rt)
}

/// What `agree` says of `receipts` for the lines of the script, with the history of `before` as the one before the
/// race, and the history of `after` as the one after it.
pub fn agrees<'a, B: Allocator>(
    before: &Bench<'a, B>,
    after: &Bench<'a, B>,
    script: &str,
    receipts: &[Vec<Receipt<&'a B>, &'a B>],
    heap: &'a B,
    rt: &impl Abort,
) -> bool {
    let lines = lines_of(heap, script, rt);
    let agrees = agree(before.history(), heap, after.history(), &lines, receipts);
    let_go_of_lines(lines);
    agrees.expect(rt, "memory")
}

/// What `agrees` says of the receipts of `left`, with `opening` before the race and the bench of `left` after it; and
/// what it says if these two benches are exchanged.
fn agree_both_ways<'a, B: Allocator>(
    opening: &mut Bench<'a, B>,
    left: &Left<'a, B>,
    script: &str,
    heap: &'a B,
    rt: &impl Abort,
) -> (bool, bool) {
    let agree = agrees(opening, &left.0, script, &left.1, heap, rt);
    let agree_backwards = agrees(&left.0, opening, script, &left.1, heap, rt);
    (agree, agree_backwards)
}

/// Like `agree_both_ways`, with a fresh bench before the race.
pub fn agree_with_none<'a, B: Allocator>(
    left: &mut Left<'a, B>,
    script: &str,
    heap: &'a B,
    rt: &impl Abort,
) -> (bool, bool) {
    let mut opening = open(heap, 100, rt);
    let agree = agree_both_ways(&mut opening, left, script, heap, rt);
    drop(opening);
    agree
}

/// Makes the recorded calls of `bench` on `again`. Says whether `again` replies to each as `bench` did.
fn replies_so<'a, B: Allocator>(again: &mut Bench<'a, B>, bench: &Bench<'a, B>) -> bool {
    for place in 0..bench.history().len() {
        let Some(event) = bench.history().at(place) else {
            return false;
        };
        if again.act(event.actor, &event.act) != event.reply {
            return false;
        }
    }
    true
}

/// Whether two benches of two nodes have the same nodes.
fn same_nodes<'a, B: Allocator>(one: &mut Bench<'a, B>, other: &Bench<'a, B>) -> bool {
    for number in 0..2u16 {
        let (Some(node), Some(again)) = (one.node(number), other.node(number)) else {
            return false;
        };
        if !node.same(again) {
            return false;
        }
    }
    true
}

/// Whether a fresh bench, asked the calls that `bench` recorded, gives the same replies and has the same nodes then.
fn is_what_its_history_gives<'a, B: Allocator>(
    bench: &Bench<'a, B>,
    alloc: &'a B,
    rt: &impl Abort,
) -> bool {
    let mut again = open(alloc, bench.limits().acts(), rt);
    let is_so = replies_so(&mut again, bench) && same_nodes(&mut again, bench);
    drop(again);
    is_so
}

/// Whether there are as many lists as lengths, each with its length.
fn have_lengths<A: Allocator>(lists: &[Vec<Receipt<A>, A>], lengths: &[usize]) -> bool {
    let mut are_so = lists.len() == lengths.len();
    for (list, length) in lists.iter().zip(lengths) {
        are_so = are_so && list.len() == *length;
    }
    are_so
}

/// Whether what a race of `DELIVERED` left has a receipt for each line, the receipts agree with the histories before
/// and after the race but not with the two exchanged, and a fresh bench that is asked the recorded calls gives the same
/// replies and nodes.
fn are_vouched_for<'a, B: Allocator>(left: &mut Left<'a, B>, heap: &'a B, rt: &impl Abort) -> bool {
    agree_with_none(left, DELIVERED, heap, rt) == (true, false)
        && have_lengths(&left.1, &[2, 2, 0])
        && is_what_its_history_gives(&left.0, heap, rt)
}

#[test]
fn a_race_is_vouched_for(rt: HostRuntime) {
    let heap = rt.alloc();
    let mut left = raced(&heap, DELIVERED, 3, &Idle, &rt);
    let is_so = are_vouched_for(&mut left, &heap, &rt);
    drop(left);
    assert!(rt; is_so);
}

/// Cases: the order in which the gate lets the two lines pass, and the node whose join is then last.
const ORDERS: &[(&[u64], u16)] = &[(&[2, 1], 0), (&[1, 2], 1)];

/// Whether the second call of the history is the join of this node.
fn is_last<'a, B: Allocator>(bench: &mut Bench<'a, B>, node: u16) -> bool {
    match bench.history().at(1) {
        Some(last) => last.actor == node && last.reply == Reply::Taken(2),
        None => false,
    }
}

/// Whether the join of node `later` comes last if the gate lets the lines pass in this order, and each line passes the
/// gate once.
fn lets_pass<R: Threads + Wait + Clock + Abort + Sync + Copy>(
    rt: &R,
    heap: &Global,
    order: &'static [u64],
    later: u16,
) -> bool {
    let gate = InOrder::new(*rt, order, &[0, 1], 0);
    let mut left = raced(heap, TWO_JOINS, 2, &gate, rt);
    let is_so = is_last(&mut left.0, later);
    drop(left);
    is_so && gate.has_passed_each_once()
}

#[test]
fn a_gate_sets_the_order(rt: HostRuntime) {
    for (order, later) in ORDERS {
        assert!(rt; lets_pass(&rt, &rt.alloc(), order, *later));
    }
}

/// Cases of races that are refused before they begin: the script, the limit on acts, the number of actors, and the
/// fault.
const REFUSED: &[(&str, u64, u16, RaceFault)] = &[
    (UNKNOWN_ACTOR, 100, 2, RaceFault::UnknownActor),
    (TWO_JOINS, 3, 2, RaceFault::NoRoom),
    (UNKNOWN_ACTOR, 1, 2, RaceFault::UnknownActor),
];

/// A race that is refused gives its bench back with no recorded call and the same limit on acts.
#[test]
fn a_race_is_refused_before_it_begins(rt: HostRuntime) {
    let heap = rt.alloc();
    for (script, acts, actors, fault) in REFUSED {
        let bench = open(&heap, *acts, &rt);
        let raced = race_of(bench, &heap, script, *actors, &Idle, &rt);
        let refusal = raced.map_err(refusal_of).err();
        assert!(rt; refusal == Some((*fault, 0, *acts)));
    }
}

/// Asks the bench the act, and gives the reply and the place that the receipt has.
fn told<'a, B: Allocator>(
    bench: &mut Bench<'a, B>,
    actor: u16,
    line: u64,
    act: Act<&'a B>,
) -> (Reply, Option<u64>) {
    let receipt = ask(bench, actor, line, act);
    let told = (receipt.reply, receipt.place);
    drop(receipt);
    told
}

/// What `told` gives for four acts in turn: a join with two free places or more; a join with one; an undo with one,
/// which is recorded; and an undo with none, which can't be recorded.
const TOLD: [(Reply, Option<u64>); 4] = [
    (Reply::Taken(1), Some(1)),
    (Reply::Refused(Fault::HistoryFull), None),
    (Reply::Refused(Fault::NoSuchStep), Some(2)),
    (Reply::Refused(Fault::NoSuchStep), None),
];

/// The two joins of `TWO_JOINS`, in their order.
fn two_joins<'a>(heap: &'a Global, rt: &impl Abort) -> (Act<&'a Global>, Act<&'a Global>) {
    let mut lines = lines_of(heap, TWO_JOINS, rt);
    let (_, second) = lines.pop().expect(rt, "a line");
    let (_, first) = lines.pop().expect(rt, "a line");
    let_go_of_lines(lines);
    (first, second)
}

#[test]
fn a_call_is_told_with_its_place(rt: HostRuntime) {
    let heap = rt.alloc();
    let (first, second) = two_joins(&heap, &rt);
    let mut bench = open(&heap, 3, &rt);
    let all_told = [
        told(&mut bench, 0, 1, first),
        told(&mut bench, 1, 2, second),
        told(&mut bench, 7, 3, Act::Undo(9)),
        told(&mut bench, 7, 4, Act::Undo(9)),
    ];
    drop(bench);
    assert!(rt; all_told == TOLD);
}
