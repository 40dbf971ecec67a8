//! A race that is refused memory, and threads outside a race that share a bench.
use crate::workers::gates::Idle;
use crate::workers::lines::{Lines, lines_of, open};
use crate::workers::orders::UNDONE_BESIDE;
use crate::workers::races::{Left, agree_with_none};
use bench_core::{Act, Bench, Fault, Reply};
use std::alloc::{Allocator, Global};
use std::process::Abort;
use std::sync::{Mutex, Wait};
use std::thread;
use std::thread::Threads;
use test_alloc::Refusing;
use worker_core::{RaceFault, Receipt, ask, race};

type Heap = Refusing<Global>;

/// Whether refused memory explains the fault (a worker can't be started without memory, either), and the bench that
/// came back still answers.
fn memory_explains<'a>(refused: (RaceFault, Bench<'a, Heap>)) -> bool {
    let (fault, mut bench) = refused;
    let reply = bench.act(0, &Act::Undo(0));
    drop(bench);
    let wants = fault == RaceFault::OutOfMemory || fault == RaceFault::WorkerRefused;
    wants && reply == Reply::Refused(Fault::NoSuchStep)
}

/// Races with request `number` for memory refused, and says whether there was such a request. If the race is refused,
/// there must have been such a request, and `memory_explains` must hold. Otherwise the race is vouched for: there was
/// no such request, or the race went on without that memory.
fn refused<R: Threads + Wait + Abort + Sync>(rt: &R, heap: &Heap, number: u64) -> bool {
    let lines = lines_of(heap, UNDONE_BESIDE, rt);
    let bench = open(heap, 100, rt);
    heap.refuse_only(number);
    let raced = race(rt, heap, bench, 3, lines, &Idle);
    let is_met = number <= heap.requests();
    heap.refuse_none();
    let want = raced.map_err(memory_explains).err();
    let is_right = match want {
        Some(wants) => wants && is_met,
        None => true,
    };
    assert!(rt; is_right, "request {number}");
    is_met
}

#[test]
fn a_race_that_is_refused_memory_gives_its_bench_back(rt: HostRuntime) {
    let heap = Refusing::new(rt.alloc());
    let mut count = 0u64;
    for number in 1..1_000 {
        if !refused(&rt, &heap, number) {
            break;
        }
        // form: saturating spares a requirement
        count = count.saturating_add(1);
    }
    assert!(rt; 10 <= count && count < 999);
}

// form: over any line and receipt, as a thread's closure gets no proof if its types name the bench's lifetime
/// What two threads share under a lock; the tests share a bench. Asked a line, it gives a receipt.
trait Shared<L, T> {
    fn ask_line(&mut self, number: u64, line: L) -> T;
}

impl<'a, B: Allocator> Shared<(u16, Act<&'a B>), Receipt<&'a B>> for Bench<'a, B> {
    fn ask_line(&mut self, number: u64, line: (u16, Act<&'a B>)) -> Receipt<&'a B> {
        let (actor, act) = line;
        ask(self, actor, number, act)
    }
}

/// Asks the lines, numbered from `from + 1` on, and takes the lock anew for each. Gives `receipts` with their receipts
/// appended.
fn ask_many<L: Drop, T: Drop, A: Allocator + Copy, S: Shared<L, T>, R: Wait + Abort>(
    rt: &R,
    shared: &Mutex<S>,
    from: u64,
    lines: Vec<L, A>,
    mut receipts: Vec<T, A>,
) -> Vec<T, A> {
    let mut number = from;
    for line in lines {
        // form: saturating spares a requirement
        number = number.saturating_add(1);
        let receipt = ask_alone(rt, shared, number, line);
        receipts.push(receipt).expect(rt, "memory");
    }
    receipts
}

/// Asks one line, and holds the lock for this line alone.
fn ask_alone<L, T, S: Shared<L, T>, R: Wait>(rt: &R, shared: &Mutex<S>, number: u64, line: L) -> T {
    let mut guard = shared.lock(rt);
    let bench = &mut *guard;
    bench.ask_line(number, line)
}

/// A script of a thousand joins of each of these nodes.
fn joins<A: Allocator>(rt: &impl Abort, alloc: A, nodes: &[&str]) -> String<A> {
    let mut script = String::new(alloc);
    script.push_str("nodes a b\n").expect(rt, "memory");
    for name in nodes {
        for pid in 1..1_001u64 {
            write!(script, "{name} join {pid} r alice phone\n").expect(rt, "memory");
        }
    }
    script
}

/// Asks lines on two threads side by side: `first`, numbered from 1, on one thread, and `second`, numbered from 1,001,
/// on the other.
fn ask_both<
    L: Drop + Send,
    T: Drop + Send,
    A: Allocator + Copy + Send + Sync,
    S: Shared<L, T> + Send,
    R: Threads + Wait + Sync + Abort,
>(
    rt: &R,
    alloc: A,
    shared: &Mutex<S>,
    first: Vec<L, A>,
    second: Vec<L, A>,
) -> (Vec<T, A>, Vec<T, A>) {
    thread::join(
        rt,
        move || ask_many(rt, shared, 0, first, Vec::new(alloc)),
        move || ask_many(rt, shared, 1_000, second, Vec::new(alloc)),
    )
}

/// The lines of a thousand joins of one node.
fn joins_of<'a>(heap: &'a Global, node: &str, rt: &impl Abort) -> Lines<'a, Global> {
    let script = joins(rt, heap, &[node]);
    lines_of(heap, script.as_str(), rt)
}

/// How many of the receipts tell of a step that was taken.
fn taken_of<A: Allocator>(receipts: &[Receipt<A>]) -> usize {
    // form: a count by hand, for the proof
    let mut count = 0usize;
    for receipt in receipts {
        if let Reply::Taken(_) = receipt.reply {
            // form: saturating spares a requirement
            count = count.saturating_add(1);
        }
    }
    count
}

/// The own clock of a node.
fn clock_of<'a>(bench: &Bench<'a, Global>, node: u16, rt: &impl Abort) -> u64 {
    assert!(rt; node < 32);
    let replica = bench.node(node).expect(rt, "a node").replica();
    replica.seen().clock_of(node)
}

/// A bench after two threads asked it for a thousand joins each, with their receipts.
fn shared_by_two<'a, R: Threads + Wait + Abort + Sync>(
    heap: &'a Global,
    rt: &R,
) -> Left<'a, Global> {
    let shared = Mutex::new(open(heap, 10_000, rt));
    let first = joins_of(heap, "a", rt);
    let second = joins_of(heap, "b", rt);
    let (of_a, of_b) = ask_both(rt, heap, &shared, first, second);
    let mut receipts = Vec::new(heap);
    receipts.push(of_a).expect(rt, "memory");
    receipts.push(of_b).expect(rt, "memory");
    (shared.into_inner(), receipts)
}

/// Whether the bench has taken a thousand joins of this node, with a receipt for each.
fn are_all_taken<'a>(left: &Left<'a, Global>, node: u16, rt: &impl Abort) -> bool {
    let list = left.1.get(usize::from(node)).expect(rt, "a list");
    taken_of(list) == 1_000 && clock_of(&left.0, node, rt) == 1_000
}

/// Whether the bench has taken a thousand joins of each node and recorded no other call, and the receipts agree with
/// its history.
fn are_all_told<'a>(left: &mut Left<'a, Global>, heap: &'a Global, rt: &impl Abort) -> bool {
    let script = joins(rt, heap, &["a", "b"]);
    agree_with_none(left, script.as_str(), heap, rt) == (true, false)
        && are_all_taken(left, 0, rt)
        && are_all_taken(left, 1, rt)
        && left.0.history().len() == 2_000
        && left.0.remaining().len() == 2_000
}

#[test]
fn two_threads_share_a_bench(rt: HostRuntime) {
    let heap = rt.alloc();
    let mut left = shared_by_two(&heap, &rt);
    let is_so = are_all_told(&mut left, &heap, &rt);
    drop(left);
    assert!(rt; is_so);
}
