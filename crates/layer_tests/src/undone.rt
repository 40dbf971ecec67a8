//! Takes back each step of a node, and so each change of its replica, with each request for memory refused in turn. The
//! steps are those of a script for two nodes.
ghost use Rattle.std.specs.Prelude.{◌<◌, IfSome};
ghost use Rattle.replica_core.specs.Limits.{AreNodeLimits};
ghost use Rattle.node_core.specs.Inverses.{LeadsSomewhere, plain_inverse};
ghost use Rattle.node_core.specs.Operations.{AreNames, plain};

use crate::benches::{Calls, Heap, calls_of};
use bench_core::Act;
use node_core::{Inverse, Meter, Node, NodeLimits, Step};
use payload_core::Payload;
use std::process::Abort;
use test_alloc::Refusing;

/// Steps of each kind, on entries that were sent and on entries that weren't.
const SCRIPT: &str = "nodes a b
b join 9 r bob desk
b broadcast
b request
a join 1 r alice phone
a up b
a deliver b 1
a update 1 r alice away
a leave 1 r alice
a join 1 r alice phone
a join 1 s alice phone
a broadcast
a join 2 r carl phone
a update 1 r alice away
a leaveall 1
a extract a b
a request
a answer b 2
b leave 9 r bob
b broadcast
a deliver b 3
a down b
a deliver b 1
a permdown b
a broadcast
a join 3 r emil phone
b up a
b deliver a 2
b deliver a 1
b answer a 3
b deliver a 4
b deliver a 5
b down a
b permdown a
";

fn limits() -> NodeLimits
    ensures { AreNodeLimits result }
{
    NodeLimits {
        entries: 10,
        clock: 100,
        messages: 10,
    }
}

/// The message that the step reads, from the outbox of `other`, whoever the step names as the sender; `None` if the
/// step reads none, or the outbox has no message of that number.
fn message_of<'x, 'a>(
    other: &'x Node<'a, Heap>,
    step: &Step<&'a Heap>,
) -> Option<&'x Payload<&'a Heap>> {
    let (_sender, number) = step.delivers()?;
    other.outbox().get(number)
}

/// Takes a step back by `inverse`. Gives the inverse again if memory for that is refused, and otherwise `None`.
fn given_back<'a>(
    node: &mut Node<'a, Heap>,
    inverse: Inverse<&'a Heap>,
) -> Option<Inverse<&'a Heap>>
    requires { LeadsSomewhere (plain_inverse inverse) node.old }
    ensures { IfSome result (λ inverse. LeadsSomewhere (plain_inverse inverse) node.new) }
{
    match node.give_back(inverse) {
        Ok(()) => None,
        Err((inverse, _oom)) => Some(inverse),
    }
}

/// Takes a step back by `inverse` with request `number` for memory refused, and if that fails, again with memory, which
/// must succeed. Says whether the first try failed.
fn gives_back<'a>(
    node: &mut Node<'a, Heap>,
    inverse: Inverse<&'a Heap>,
    number: u64,
    heap: &'a Heap,
    rt: &impl Abort,
) -> bool
    requires { LeadsSomewhere (plain_inverse inverse) node.old }
{
    heap.refuse_only(number);
    let refused = given_back(node, inverse);
    heap.refuse_none();
    let Some(inverse) = refused else {
        return false;
    };
    let left = given_back(node, inverse);
    holds!(rt, left.is_none());
    drop(left);
    true
}

/// Takes the step at the node, and takes it back like `gives_back`. Says whether the first try to take it back failed.
fn steps_and_back<'a>(
    node: &mut Node<'a, Heap>,
    message: Option<&Payload<&'a Heap>>,
    step: &Step<&'a Heap>,
    number: u64,
    heap: &'a Heap,
    rt: &impl Abort,
) -> bool
    requires { AreNames (plain step.now) }
{
    let taken = node.take(step, message, &mut Meter::new());
    let inverse = taken.expect(rt, "an inverse");
    gives_back(node, inverse, number, heap, rt)
}

/// Like `steps_and_back`, but with a copy of the node, which must then be the same as the node. `other` has the message
/// that the step reads.
fn taken_back<'a>(
    node: &Node<'a, Heap>,
    other: &Node<'a, Heap>,
    step: &Step<&'a Heap>,
    number: u64,
    heap: &'a Heap,
    rt: &impl Abort,
) -> bool
    requires { AreNames (plain step.now) }
{
    let mut copy = node.try_copy().expect(rt, "a copy");
    let message = message_of(other, step);
    let is_refused = steps_and_back(&mut copy, message, step, number, heap, rt);
    holds!(rt, copy.same(node));
    drop(copy);
    is_refused
}

/// Takes the step at a copy of the node, and takes it back with the first, second, .. request for memory refused, each
/// at a copy of its own, until no refusal is met. Gives how many requests were refused, or 50 if each of the first 49
/// was.
fn refusals<'a>(
    node: &Node<'a, Heap>,
    other: &Node<'a, Heap>,
    step: &Step<&'a Heap>,
    heap: &'a Heap,
    rt: &impl Abort,
) -> u64
    requires { AreNames (plain step.now) }
{
    for number in 1..50 {
        if !taken_back(node, other, step, number, heap, rt) {
            return number - 1;
        }
    }
    50
}

/// Takes the step and takes it back at copies of the node, like `refusals`, and then takes it at the node. Gives how
/// many requests were refused.
fn turn<'a>(
    node: &mut Node<'a, Heap>,
    other: &Node<'a, Heap>,
    step: &Step<&'a Heap>,
    heap: &'a Heap,
    rt: &impl Abort,
) -> u64 {
    assert!(rt; step.names_below(32));
    let refusals = refusals(node, other, step, heap, rt);
    let message = message_of(other, step);
    let fault = node.take(step, message, &mut Meter::new()).err();
    holds!(rt, fault.is_none());
    refusals
}

/// Takes each step of node 0 at `a`, and each other step at `b`, like `turn`. Gives the most requests that were refused
/// for one step.
fn turns<'a>(
    a: &mut Node<'a, Heap>,
    b: &mut Node<'a, Heap>,
    calls: &Calls<'a>,
    heap: &'a Heap,
    rt: &impl Abort,
) -> u64 {
    let mut most = 0;
    for call in calls {
        let number = match call {
            (0, Act::Do(step)) => turn(a, b, step, heap, rt),
            (_, Act::Do(step)) => turn(b, a, step, heap, rt),
            _ => 0,
        };
        most = most.max(number);
    }
    most
}

#[test]
fn a_step_back_that_is_refused_memory_changes_nothing(rt: HostRuntime) {
    let heap = Refusing::new(rt.alloc());
    let calls = calls_of(SCRIPT, &heap, &rt);
    heap.refuse_from(1);
    let mut a = Node::new(&heap, 0, limits());
    let mut b = Node::new(&heap, 1, limits());
    holds!(&rt, heap.requests() == 0 && Meter::new().count() == 0);
    heap.refuse_none();
    let most = turns(&mut a, &mut b, &calls, &heap, &rt);
    holds!(&rt, 0 < most && most < 50);
    drop(calls);
    drop(b);
    drop(a);
}
