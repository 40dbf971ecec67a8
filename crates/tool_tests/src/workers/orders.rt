//! A console that undoes while nodes take steps, in orders that a gate fixes; altered receipts of such a race; and
//! histories with another beginning.
use crate::workers::gates::{Idle, InOrder};
use crate::workers::lines::{let_go_of_lines, lines_of, open};
use crate::workers::races::{Left, agree_with_none, agrees, raced, raced_on};
use bench_core::{Act, Bench, Fault, Reply};
use std::alloc::{Allocator, Global};
use std::process::Abort;
use std::sync::Wait;
use std::thread::Threads;
use std::time::Clock;
use worker_core::{Receipt, Receipts, ask};

/// A console undoes what a node did, while the nodes take steps.
pub const UNDONE_BESIDE: &str = "\
nodes a b
consoles c1
a join 1 r alice phone
b up a
a broadcast
b deliver a 1
c1 undo 3
";

/// The actor of each line of `UNDONE_BESIDE`.
pub const ACTORS: &[u16] = &[0, 1, 0, 1, 2];

/// A case: an order of the lines of `UNDONE_BESIDE`, their replies in that order, and how many entries node `b` has
/// then.
struct Order {
    lines: &'static [u64],
    replies: [Reply; 5],
    entries: usize,
}

const HELD: Reply = Reply::Refused(Fault::HasConsequence {
    step: 3,
    held_by: 4,
});

const ORDERS: &[Order] = &[
    Order {
        lines: &[1, 2, 3, 4, 5],
        replies: [
            Reply::Taken(1),
            Reply::Taken(2),
            Reply::Taken(3),
            Reply::Taken(4),
            HELD,
        ],
        entries: 1,
    },
    Order {
        lines: &[1, 2, 3, 5, 4],
        replies: [
            Reply::Taken(1),
            Reply::Taken(2),
            Reply::Taken(3),
            Reply::Undone(3),
            Reply::Refused(Fault::NoSuchMessage),
        ],
        entries: 0,
    },
    Order {
        lines: &[5, 1, 2, 3, 4],
        replies: [
            Reply::Refused(Fault::NoSuchStep),
            Reply::Taken(1),
            Reply::Taken(2),
            Reply::Taken(3),
            Reply::Taken(4),
        ],
        entries: 1,
    },
    Order {
        lines: &[1, 3, 2, 5, 4],
        replies: [
            Reply::Taken(1),
            Reply::Taken(2),
            Reply::Taken(3),
            Reply::Undone(3),
            Reply::Taken(4),
        ],
        entries: 0,
    },
];

/// Whether the history has these lines in this order, with these replies.
fn is_told<'a, B: Allocator>(
    bench: &Bench<'a, B>,
    order: &Order,
    lines: &[(u16, Act<&'a B>)],
) -> bool {
    let mut is_so = bench.history().len() == order.lines.len();
    // form: saturating spares a requirement
    let mut place = 0usize;
    for line in order.lines {
        if let (Some(event), Some((actor, act)), Some(reply)) = (
            bench.history().at(place),
            lines.get(line.saturating_sub(1) as usize),
            order.replies.get(place),
        ) {
            is_so = is_so && event.actor == *actor && event.act.same(act) && event.reply == *reply;
        } else {
            is_so = false;
        }
        place = place.saturating_add(1);
    }
    is_so
}

/// How many entries the node of this number has.
fn entries_of<'a, B: Allocator>(bench: &Bench<'a, B>, number: u16, rt: &impl Abort) -> usize {
    let node = bench.node(number).expect(rt, "a node");
    node.replica().entries().len()
}

/// Whether the bench recorded the lines in this order, with the replies of the order, and node `b` has as many entries
/// as the order says.
fn is_left_so<'a>(
    bench: &mut Bench<'a, Global>,
    order: &Order,
    heap: &'a Global,
    rt: &impl Abort,
) -> bool {
    let lines = lines_of(heap, UNDONE_BESIDE, rt);
    let is_so = is_told(bench, order, &lines);
    let_go_of_lines(lines);
    is_so && entries_of(bench, 1, rt) == order.entries
}

/// Whether a race in this order gives the replies of the order, leaves node `b` with as many entries as the order says,
/// and lets each line pass the gate once. The gate waits after line 3, too.
fn is_raced_so<R: Threads + Wait + Clock + Abort + Sync + Copy>(
    rt: &R,
    heap: &Global,
    order: &Order,
) -> bool {
    let gate = InOrder::new(*rt, order.lines, ACTORS, 3);
    let mut left = raced(heap, UNDONE_BESIDE, 3, &gate, rt);
    let is_so = is_left_so(&mut left.0, order, heap, rt);
    drop(left);
    is_so && gate.has_passed_each_once()
}

#[test]
fn consoles_undo_beside_running_nodes(rt: HostRuntime) {
    for order in ORDERS {
        assert!(rt; is_raced_so(&rt, &rt.alloc(), order));
    }
}

/// Eight lines, of both nodes.
const EIGHT_LINES: &str = "\
nodes a b
a join 1 r alice phone
b up a
a broadcast
b deliver a 1
a leave 1 r alice
a broadcast
b deliver a 2
b join 9 r bob desk
";

#[test]
fn each_line_passes_the_gate_under_its_actor(rt: HostRuntime) {
    let lines = &[1, 2, 3, 4, 5, 6, 7, 8];
    let gate = InOrder::new(rt, lines, &[0, 1, 0, 1, 0, 0, 1, 1], 6);
    drop(raced(&rt.alloc(), EIGHT_LINES, 2, &gate, &rt));
    assert!(rt; gate.has_passed_each_once());
}

/// What is changed in the receipts of a race.
#[derive(Clone, Copy)]
enum Alteration {
    Nothing,
    OneDropped,
    OneDoubled,
    OneMoved,
    TwoExchanged,
    Line,
    Act,
    Reply,
    Place,
    NoPlace,
}

const ALTERATIONS: &[Alteration] = &[
    Alteration::OneDropped,
    Alteration::OneDoubled,
    Alteration::OneMoved,
    Alteration::TwoExchanged,
    Alteration::Line,
    Alteration::Act,
    Alteration::Reply,
    Alteration::Place,
    Alteration::NoPlace,
];

/// A copy of the last receipt.
fn last_again<'a, B: Allocator>(receipts: &[Receipt<&'a B>], rt: &impl Abort) -> Receipt<&'a B> {
    let last = receipts.last().expect(rt, "a receipt");
    Receipt {
        actor: last.actor,
        line: last.line,
        act: last.act.try_copy().expect(rt, "a copy"),
        reply: last.reply,
        place: last.place,
    }
}

/// Makes the alteration in one actor's list of receipts: drops or doubles the last receipt, exchanges the only two, or
/// else alters the first.
fn alter_list<'a, B: Allocator>(
    alteration: Alteration,
    list: &mut Vec<Receipt<&'a B>, &'a B>,
    rt: &impl Abort,
) {
    match alteration {
        Alteration::OneDropped => drop(list.pop()),
        Alteration::OneDoubled => {
            let again = last_again(list, rt);
            list.push(again).expect(rt, "memory");
        }
        Alteration::TwoExchanged => {
            assert!(rt; list.len() == 2);
            list.swap(0, 1);
        }
        _ => {
            let receipt = list.get_mut(0).expect(rt, "a receipt");
            alter_receipt(alteration, receipt);
        }
    }
}

/// Alters the receipt of line 1, whose place is 1.
fn alter_receipt<A: Allocator>(alteration: Alteration, receipt: &mut Receipt<A>) {
    match alteration {
        Alteration::Line => receipt.line = 2,
        Alteration::Act => receipt.act = Act::Undo(1),
        Alteration::Reply => receipt.reply = Reply::Taken(3),
        Alteration::Place => receipt.place = Some(2),
        Alteration::NoPlace => receipt.place = None,
        _ => {}
    }
}

/// Alters the receipts of node `a`, which are those of lines 1 and 3. `OneMoved` moves the last of them to the list of
/// node `b`.
fn alter<'a, B: Allocator>(alteration: Alteration, lists: &mut Receipts<&'a B>, rt: &impl Abort) {
    let list = lists.get_mut(0).expect(rt, "a list");
    if let Alteration::OneMoved = alteration {
        let moved = list.pop().expect(rt, "a receipt");
        let other = lists.get_mut(1).expect(rt, "a list");
        other.push(moved).expect(rt, "memory");
    } else {
        alter_list(alteration, list, rt);
    }
}

/// Races the lines of `UNDONE_BESIDE` in their order, and gives the bench and the receipts.
fn raced_in_turn<'a, R: Threads + Wait + Clock + Abort + Sync + Copy>(
    heap: &'a Global,
    rt: &R,
) -> Left<'a, Global> {
    let gate = InOrder::new(*rt, &[1, 2, 3, 4, 5], ACTORS, 0);
    raced(heap, UNDONE_BESIDE, 3, &gate, rt)
}

/// Races the lines of `UNDONE_BESIDE` in their order, and alters the receipts. Says whether they agree with the
/// histories before and after the race, and whether they do if the two histories are exchanged.
fn agree_altered<R: Threads + Wait + Clock + Abort + Sync + Copy>(
    rt: &R,
    heap: &Global,
    alteration: Alteration,
) -> (bool, bool) {
    let mut left = raced_in_turn(heap, rt);
    alter(alteration, &mut left.1, rt);
    let agree = agree_with_none(&mut left, UNDONE_BESIDE, heap, rt);
    drop(left);
    agree
}

#[test]
fn altered_receipts_disagree(rt: HostRuntime) {
    let heap = rt.alloc();
    assert!(rt; agree_altered(&rt, &heap, Alteration::Nothing) == (true, false));
    for alteration in ALTERATIONS {
        assert!(rt; agree_altered(&rt, &heap, *alteration) == (false, false));
    }
}

/// A fresh bench on which a console has asked to undo step `number`, which is refused and recorded.
fn asked_to_undo<'a>(heap: &'a Global, number: u64, rt: &impl Abort) -> Bench<'a, Global> {
    let mut bench = open(heap, 100, rt);
    drop(ask(&mut bench, 2, 1, Act::Undo(number)));
    bench
}

/// Whether the receipts of `left` agree with the history of its bench, with that of `before` taken as the history
/// before the race.
fn agrees_from<'a>(
    before: &mut Bench<'a, Global>,
    left: &Left<'a, Global>,
    heap: &'a Global,
    rt: &impl Abort,
) -> bool {
    agrees(before, &left.0, UNDONE_BESIDE, &left.1, heap, rt)
}

/// Like `agrees_from`, with a fresh bench that a console asked to undo step `number`.
fn agrees_after_undo<'a>(
    left: &mut Left<'a, Global>,
    number: u64,
    heap: &'a Global,
    rt: &impl Abort,
) -> bool {
    let mut before = asked_to_undo(heap, number, rt);
    let agrees = agrees_from(&mut before, left, heap, rt);
    drop(before);
    agrees
}

/// Asks a fresh bench to undo step `asked`, and then races the lines of `UNDONE_BESIDE` on it. Says whether the
/// receipts agree if the history before the race is given as that of another fresh bench, which was asked to undo step
/// `other`.
fn agrees_after<R: Threads + Wait + Abort + Sync>(
    rt: &R,
    heap: &Global,
    asked: u64,
    other: u64,
) -> bool {
    let bench = asked_to_undo(heap, asked, rt);
    let mut left = raced_on(bench, heap, UNDONE_BESIDE, 3, &Idle, rt);
    let agrees = agrees_after_undo(&mut left, other, heap, rt);
    drop(left);
    agrees
}

#[test]
fn receipts_disagree_with_a_history_of_another_beginning(rt: HostRuntime) {
    assert!(rt; agrees_after(&rt, &rt.alloc(), 9, 9));
    assert!(rt; !agrees_after(&rt, &rt.alloc(), 9, 8));
}
