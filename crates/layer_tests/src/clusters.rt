//! Clusters: steps with each request for memory refused in turn, and steps that name nodes which aren't there. The
//! steps are those of a script; a bench that takes the same steps says what the nodes must be after each.
use crate::benches::{Calls, Heap, calls_of, opened};
use bench_core::{Act, Bench, Cluster, Fault, Limits, Step};
use std::process::Abort;
use test_alloc::Refusing;

const SCRIPT: &str = "nodes a b
a join 1 r alice phone
a broadcast
b up a
b deliver a 1
b request
a answer b 1
b down a
a update 1 r alice away
a leave 1 r alice";

/// Whether the cluster has the same nodes as the bench.
fn has_nodes_of<'a>(cluster: &Cluster<'a, Heap>, bench: &Bench<'a, Heap>) -> bool {
    for number in 0..32 {
        match (cluster.node(number), bench.node(number)) {
            (Some(node), Some(same)) if node.same(same) => (),
            (None, None) => (),
            _ => return false,
        }
    }
    true
}

/// Takes the step `call.1` at node `call.0` with its first, second, .. request for memory refused, until no refusal is
/// met. Each refusal must be `OutOfMemory`, and leave the nodes the same as those of the bench.
fn step_refused<'a>(
    cluster: &mut Cluster<'a, Heap>,
    bench: &Bench<'a, Heap>,
    call: (u16, &Step<&'a Heap>),
    heap: &'a Heap,
    rt: &impl Abort,
) {
    let (node, step) = call;
    for number in 1..100 {
        heap.refuse_only(number);
        let fault = cluster.step(node, step).err();
        heap.refuse_none();
        match fault {
            None => return,
            Some(Fault::OutOfMemory) => holds!(rt, has_nodes_of(cluster, bench)),
            Some(_) => holds!(rt, false),
        }
    }
    holds!(rt, false);
}

/// Goes through the calls: takes each step at the cluster with `step_refused`, and makes the same call at the bench.
/// After each call both must have the same nodes.
fn play<'a>(
    cluster: &mut Cluster<'a, Heap>,
    bench: &mut Bench<'a, Heap>,
    calls: &Calls<'a>,
    heap: &'a Heap,
    rt: &impl Abort,
) {
    for (actor, act) in calls {
        if let Act::Do(step) = act {
            step_refused(cluster, bench, (*actor, step), heap, rt);
        }
        bench.act(*actor, act);
        holds!(rt, has_nodes_of(cluster, bench));
    }
}

/// Asks for a step of a node that isn't there, and for a step that names such a node: both must be `UnknownNode`. The
/// cluster must have two nodes.
fn knows_two<'a>(cluster: &mut Cluster<'a, Heap>, rt: &impl Abort) {
    let no_node = cluster.step(2, &Step::Broadcast).err();
    let no_name = cluster.step(0, &Step::Up { name: 2 }).err();
    holds!(rt, matches!(no_node, Some(Fault::UnknownNode)));
    holds!(rt, matches!(no_name, Some(Fault::UnknownNode)));
    holds!(rt, cluster.len() == 2);
}

/// Plays the calls at the cluster and at the bench. Then the cluster must know two nodes and no third.
fn takes_steps<'a>(
    cluster: &mut Cluster<'a, Heap>,
    bench: &mut Bench<'a, Heap>,
    calls: &Calls<'a>,
    heap: &'a Heap,
    rt: &impl Abort,
) {
    play(cluster, bench, calls, heap, rt);
    knows_two(cluster, rt);
}

#[test]
fn a_cluster_takes_the_steps_of_a_script(rt: HostRuntime) {
    let heap = Refusing::new(rt.alloc());
    let limits = Limits::usual();
    let calls = calls_of(SCRIPT, &heap, &rt);
    let mut bench = opened(SCRIPT, limits, &heap, &rt);
    let mut cluster = Cluster::new(&heap, 2, limits.of_node()).expect(&rt, "a cluster");
    takes_steps(&mut cluster, &mut bench, &calls, &heap, &rt);
    drop(cluster);
    drop(bench);
    drop(calls);
}

#[test]
fn a_cluster_without_memory_is_not_made(rt: HostRuntime) {
    let heap = Refusing::new(rt.alloc());
    heap.refuse_only(1);
    let cluster = Cluster::new(&heap, 2, Limits::usual().of_node()).ok();
    let is_made = cluster.is_some();
    drop(cluster);
    holds!(&rt, !is_made);
}
