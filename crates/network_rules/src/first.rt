//! Steps that can come before all others that may come next, so that a walk which goes on with one of them alone misses
//! no outcome.
ghost use Rattle.std.specs.Prelude.{◌≡◌, ◌==◌, false, true, IsTrue};
ghost use Rattle.std.specs.FinSet.{contains};
ghost use Rattle.node_core.specs.Operations.{plain, Up};
ghost use Rattle.network_rules.specs.Easy.{BringsNone, IsEasyAt, IsIdleAt};

use crate::cone::Cone;
use crate::key::message_of;
use crate::next::count_at;
use crate::state::State;
use crate::turn::Turn;
use bench_core::{Cluster, Step};
use dots_core::{Dot, NameSet};
use payload_core::Payload;
use std::alloc::Allocator;

/// Whether the step is easy: a join, a leave, a leave all, an update, a broadcast, a request, a down, or an up of a
/// name that the node knows. Such a step concerns only the node's own entries, its delta and the names that it knows.
pub fn is_easy<'a, B: Allocator>(cluster: &Cluster<'a, B>, node: u16, step: &Step<&'a B>) -> bool
    ensures { IsTrue result → IsEasyAt cluster.now node (plain step.now) }
{
    // form: each arm is a case of the proof
    match step {
        Step::Join {
            pid: _,
            topic: _,
            key: _,
            metadata: _,
        } => true,
        Step::Leave {
            pid: _,
            topic: _,
            key: _,
        } => true,
        Step::LeaveAll { pid: _ } => true,
        Step::Update {
            pid: _,
            topic: _,
            key: _,
            metadata: _,
        } => true,
        Step::Broadcast => true,
        Step::Request => true,
        Step::Down { name: _ } => true,
        Step::Up { name } => knows(cluster, node, *name),
        _ => false,
    }
}

/// Whether a node knows a name; false if there is no such node.
fn knows<'a, B: Allocator>(cluster: &Cluster<'a, B>, node: u16, name: u16) -> bool
    ensures { IsTrue result → IsEasyAt cluster.now node (Up name) }
{
    match cluster.node(node) {
        Some(node) => node.replica().known().has(name),
        None => false,
    }
}

/// Whether `message` brings no news of `dot` to the node `own`: the dot is the node's own, or isn't in the message, or
/// has a name that isn't among `names`, the names whose dots matter at the node.
fn is_no_news<A: Allocator>(dot: Dot, message: &Payload<A>, names: NameSet, own: u16) -> bool
    ensures { IsTrue result → (dot.name == own) ≡ false → contains names dot.name ≡ true → contains message.now.seen dot ≡ false }
{
    dot.name == own || !names.has(dot.name) || !message.seen().contains(dot)
}

/// Whether `is_no_news` is true of each of `dots`.
fn brings_none<A: Allocator>(dots: &[Dot], message: &Payload<A>, names: NameSet, own: u16) -> bool
    ensures { IsTrue result → BringsNone dots.now names own message.now }
{
    for place in 0..dots.len() {
        if !is_no_news(dots[place], message, names, own) {
            return false;
        }
    }
    true
}

/// Whether the delivery of `message`, given by its sender and number, at `node` brings no news of a dot that matters
/// there (see `is_no_news`), and so would change nothing that matters. `turn` is the place of the delivery's turn. False
/// if the message wasn't sent, there is no such turn, or all recorded deliveries of the turn came.
pub fn is_idle<'a, B: Allocator>(
    state: &State<'a, '_, B>,
    cone: &Cone<'a, B>,
    turns: &[Turn],
    node: u16,
    turn: usize,
    message: (u16, u64),
) -> bool
    ensures { IsTrue result → IsIdleAt state.now.cluster.now cone.now turns.now state.now.counts.now node turn message.0 message.1 }
{
    let Some(found) = turns.get(turn) else {
        return false;
    };
    if count_at(state.counts, turn) >= found.recorded {
        return false;
    }
    let names = cone.matter(node, count_at(state.counts, node as usize));
    let (sender, number) = message;
    match message_of(state.cluster, sender, number) {
        Some(message) => brings_none(cone.dots(), message, names, node),
        None => false,
    }
}
