//! How the online lists of two nodes differ, which no report tells: for a small bench, for a large one, and if memory
//! is refused.
ghost use Rattle.diff_core.specs.Online.{AreInOrder};

use crate::benches::{Heap, played};
use crate::wide;
use bench_core::{Bench, Limits};
use diff_core::{Diff, OnlineRow, diff, net, online_list};
use std::cmp::Ordering;
use std::process::Abort;
use test_alloc::Refusing;

type Rows<'a> = Vec<OnlineRow<&'a Heap>, &'a Heap>;

/// A row of an online list: topic, key, name, process, clock and metadata.
type Seen = (&'static str, &'static str, u16, u64, u64, &'static str);

/// Whether the row has these values.
fn is<'a>(row: &OnlineRow<&'a Heap>, seen: &Seen) -> bool {
    let (topic, key, name, pid, clock, metadata) = *seen;
    row.topic.as_str() == topic
        && row.key.as_str() == key
        && (row.name, row.pid, row.clock) == (name, pid, clock)
        && row.metadata.as_str() == metadata
}

/// Whether the rows are those of `seen`, in the same order.
fn are<'a>(rows: &[OnlineRow<&'a Heap>], seen: &[Seen]) -> bool {
    for (place, row) in rows.iter().enumerate() {
        match seen.get(place) {
            Some(seen) if is(row, seen) => {}
            _ => return false,
        }
    }
    rows.len() == seen.len()
}

/// The online list of the node of this number.
fn list_of<'a>(bench: &Bench<'a, Heap>, number: u16, heap: &'a Heap, rt: &impl Abort) -> Rows<'a>
    ensures { AreInOrder result.items }
{
    let node = bench.node(number).expect(rt, "a node");
    online_list(heap, node.replica()).expect(rt, "a list")
}

/// The online lists of the first two nodes.
fn lists_of<'a>(
    bench: &mut Bench<'a, Heap>,
    heap: &'a Heap,
    rt: &impl Abort,
) -> (Rows<'a>, Rows<'a>)
    ensures first { AreInOrder result.0.items }
    ensures second { AreInOrder result.1.items }
{
    (list_of(bench, 0, heap, rt), list_of(bench, 1, heap, rt))
}

/// Whether `after` differs from `before` by `rows`: the rows that left, and the rows that joined. `None` if memory was
/// refused.
fn differ<'a>(
    before: &Rows<'a>,
    after: &Rows<'a>,
    rows: (&[Seen], &[Seen]),
    heap: &'a Heap,
) -> Option<bool>
    requires before { AreInOrder before.now.items }
    requires after { AreInOrder after.now.items }
{
    let (left, joined) = rows;
    let apart = diff(heap, before, after).ok()?;
    let are_these = are(&apart.left, left) && are(&apart.joined, joined);
    drop(apart);
    Some(are_these)
}

/// Whether `net` of these rows gives as many rows that left, and as many that joined, as `counts` says. `None` if
/// memory was refused.
fn come_to<'a>(
    left: &Rows<'a>,
    joined: &Rows<'a>,
    counts: (usize, usize),
    heap: &'a Heap,
) -> Option<bool> {
    let net = net(heap, left, joined).ok()?;
    let are_these = (net.left.len(), net.joined.len()) == counts;
    drop(net);
    Some(are_these)
}

const SCRIPT: &str = "nodes a b
b up a
a join 1 s alice phone
a join 1 r bob desk
a join 1 r alice phone
a broadcast
b deliver a 1
b join 7 r alice home
a update 1 r alice away
a join 2 r carl phone
";

const AT_A: &[Seen] = &[
    ("r", "alice", 0, 1, 4, "away"),
    ("r", "bob", 0, 1, 2, "desk"),
    ("r", "carl", 0, 2, 5, "phone"),
    ("s", "alice", 0, 1, 1, "phone"),
];

const AT_B: &[Seen] = &[
    ("r", "alice", 0, 1, 3, "phone"),
    ("r", "alice", 1, 7, 1, "home"),
    ("r", "bob", 0, 1, 2, "desk"),
    ("s", "alice", 0, 1, 1, "phone"),
];

const AT_A_ALONE: &[Seen] = &[
    ("r", "alice", 0, 1, 4, "away"),
    ("r", "carl", 0, 2, 5, "phone"),
];

const AT_B_ALONE: &[Seen] = &[
    ("r", "alice", 0, 1, 3, "phone"),
    ("r", "alice", 1, 7, 1, "home"),
];

/// Whether the first row is less than the second, and a copy of the first is the same as the first and not as the
/// second; `false` if there are fewer than two rows, or memory for the copy was refused.
fn begins_in_order<'a>(rows: &Rows<'a>) -> bool {
    let [first, second, ..] = rows.as_slice() else {
        return false;
    };
    match first.try_copy() {
        Ok(copy) => {
            // form: lent again, as `same` has one lifetime for both
            let is_same = (&*first).same(&copy) && !(&*second).same(&copy);
            drop(copy);
            is_same && first.cmp(second) == Ordering::Less
        }
        Err(_) => false,
    }
}

/// Compares the lists with the first, second, .. request for memory refused, until no refusal is met; the comparison
/// must succeed then, and only then. Gives how many requests were refused, or 40 if each of the first 39 was.
fn refused_in_turn<'a>(a: &Rows<'a>, b: &Rows<'a>, heap: &'a Heap, rt: &impl Abort) -> u64
    requires a { AreInOrder a.now.items }
    requires b { AreInOrder b.now.items }
{
    for number in 1..40 {
        heap.refuse_only(number);
        let there = differ(a, b, (AT_A_ALONE, AT_B_ALONE), heap);
        let back = differ(b, a, (AT_B_ALONE, AT_A_ALONE), heap);
        let whole = come_to(a, b, (2, 2), heap);
        let are_had = there == Some(true) && back == Some(true) && whole == Some(true);
        holds!(rt, are_had == (heap.requests() < number));
        if are_had {
            return number - 1;
        }
    }
    40
}

/// Plays the script. The lists of its two nodes must be `AT_A` and `AT_B`, and differ by `AT_A_ALONE` and `AT_B_ALONE`.
/// Then each request for memory of this comparison is refused in turn.
fn compares<'a>(script: &str, heap: &'a Heap, rt: &impl Abort) {
    let mut bench = played(script, Limits::usual(), heap, rt);
    let (a, b) = lists_of(&mut bench, heap, rt);
    drop(bench);
    holds!(rt, are(&a, AT_A) && are(&b, AT_B));
    holds!(rt, begins_in_order(&a) && begins_in_order(&b));
    let refused = refused_in_turn(&a, &b, heap, rt);
    drop(a);
    drop(b);
    holds!(rt, 2 < refused && refused < 40);
}

#[test]
fn lists_differ_by_their_own_rows(rt: HostRuntime) {
    let heap = Refusing::new(rt.alloc());
    compares(SCRIPT, &heap, &rt);
}

/// How many rows `one` has alone, and how many `other`. `None` if memory was refused.
fn counts_of<'a>(one: &Rows<'a>, other: &Rows<'a>, heap: &'a Heap) -> Option<(usize, usize)>
    requires one { AreInOrder one.now.items }
    requires other { AreInOrder other.now.items }
{
    let Diff { left, joined } = diff(heap, one, other).ok()?;
    let counts = (left.len(), joined.len());
    drop(left);
    drop(joined);
    Some(counts)
}

/// Plays the script of `wide`. The first node must list 131 rows, the second 65 of these.
fn compares_large<'a>(script: &str, heap: &'a Heap, rt: &impl Abort) {
    let mut bench = played(script, Limits::usual(), heap, rt);
    let (a, b) = lists_of(&mut bench, heap, rt);
    drop(bench);
    holds!(rt, (a.len(), b.len()) == (131, 65));
    holds!(rt, counts_of(&a, &b, heap) == Some((66, 0)));
    holds!(rt, counts_of(&b, &a, heap) == Some((0, 66)));
    drop(a);
    drop(b);
}

#[test]
fn large_lists_differ(rt: HostRuntime) {
    let heap = Refusing::new(rt.alloc());
    let text = wide::script(&heap, &rt);
    compares_large(&text, &heap, &rt);
    drop(text);
}
