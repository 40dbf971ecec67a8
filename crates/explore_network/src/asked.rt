//! The dots that a question is about: those of all entries with the question's topic and key, or, for a question
//! without these, the own dots of all nodes.
ghost use Rattle.std.specs.Prelude.{◌≡◌, ◌≤◌, ◌<◌, ◌++◌, [], ℕ, IfOk, OnOk, Ok, option_map, slice_get};
ghost use Rattle.replica_core.specs.Limits.{AreNodeLimits};
ghost use Rattle.replica_core.specs.Replicas.{fresh};
ghost use Rattle.std.specs.List.{AllByRecursion};
ghost use Rattle.dots_core.specs.declared.dot.Dot.{Dot as PlainDot};
ghost use Rattle.dots_core.specs.Names.{most_names};
ghost use Rattle.node_core.specs.Operations.{plain as plain_step};
ghost use Rattle.replica_core.specs.declared.node_limits.NodeLimits.{NodeLimits as PlainLimits};
ghost use Rattle.bench_core.specs.Clusters.{opening_of, Cluster as PlainCluster};
ghost use Rattle.bench_core.specs.Runs.{runs};
ghost use Rattle.network_core.specs.Made.{WantsMade};
ghost use Rattle.network_rules.specs.Tables.{is_wanted};
ghost use Rattle.explore_network.specs.Asked.{asked_dots, dots_up_to, own_of, own_of_all, AreAsked};
ghost use Rattle.explore_network.specs.Questions.{plain, OfPresence};
ghost use Rattle.explore_network.specs.Explorations.{is_asked};

use crate::playing::{play, played};
use crate::question::Question;
use crate::steps::places;
use bench_core::{Cluster, Kept, Node, NodeLimits, Step};
use dots_core::{Dot, Oom};
use payload_core::Word;
use std::alloc::Allocator;

/// Whether the step makes a presence of this topic and key.
fn is_asked<A: Allocator>(step: &Step<A>, wanted_topic: &Word<A>, wanted_key: &Word<A>) -> bool
    ensures { result ≡ is_asked wanted_topic.now wanted_key.now (plain_step step.now) }
{
    // form: each arm is a case of the proof
    match step {
        Step::Join {
            pid: _,
            topic,
            key,
            metadata: _,
        } => *topic == *wanted_topic && *key == *wanted_key,
        Step::Update {
            pid: _,
            topic,
            key,
            metadata: _,
        } => *topic == *wanted_topic && *key == *wanted_key,
        _ => false,
    }
}

/// The node's fresh dot: the own dot one above the last that it took.
fn fresh<'a, B: Allocator>(node: &Node<'a, B>) -> Dot
    ensures dot { result ≡ fresh node.now.replica }
    ensures name { result.name < most_names }
{
    // form: hands out what the value keeps
    node.replica().replica_law();
    let last = node.replica().last();
    Dot {
        name: last.name,
        clock: last.clock + 1,
    }
}

/// Appends the dot of the entry that a step makes, if the entry has this topic and key. `cluster` is the cluster before
/// the step. If the step's node isn't in the cluster, nothing is appended.
fn put_asked<'a, B: Allocator>(
    dots: &mut Vec<Dot, &'a B>,
    cluster: &Cluster<'a, B>,
    kept: &Kept<&'a B>,
    topic: &Word<&'a B>,
    key: &Word<&'a B>,
) -> Result<(), Oom>
    ensures dots { OnOk result (dots.new.items ≡ dots.old.items ++ asked_dots topic.now key.now kept.now (slice_get cluster.now kept.now.node)) }
    ensures names { OnOk result (AllByRecursion (λ (d : PlainDot). d.name < most_names) dots.old.items
        → AllByRecursion (λ (d : PlainDot). d.name < most_names) dots.new.items) }
{
    if !is_asked(&kept.step, topic, key) {
        return Ok(());
    }
    match cluster.node(kept.node) {
        Some(node) => Ok(dots.push(fresh(node))?),
        None => Ok(()),
    }
}

/// Plays these steps on `cluster`, and appends the dots of all entries with this topic and key that the steps make.
fn put_all_asked<'a, B: Allocator>(
    dots: &mut Vec<Dot, &'a B>,
    cluster: &mut Cluster<'a, B>,
    steps: &[Kept<&'a B>],
    topic: &Word<&'a B>,
    key: &Word<&'a B>,
) -> Result<(), Oom>
    ensures names { OnOk result (AllByRecursion (λ (d : PlainDot). d.name < most_names) dots.old.items
        → AllByRecursion (λ (d : PlainDot). d.name < most_names) dots.new.items) }
    ensures asked { OnOk result ((l : PlainLimits) (count : ℕ) (end : PlainCluster) → cluster.old ≡ opening_of l count → dots.old.items ≡ []
        → runs l count steps.now ≡ Ok end →
        WantsMade l steps.now (is_wanted dots.new.items) topic.now key.now) }
{
    for place in 0..steps.len() {
        put_asked(dots, cluster, &steps[place], topic, key)?;
        play(cluster, steps, place)?;
    }
    Ok(())
}

/// The dots of all entries with this topic and key that the steps make on `count` empty nodes.
fn dots_of_presences<'a, B: Allocator>(
    steps: &[Kept<&'a B>],
    count: u16,
    limits: NodeLimits,
    topic: &Word<&'a B>,
    key: &Word<&'a B>,
    alloc: &'a B,
) -> Result<Vec<Dot, &'a B>, Oom>
    requires few { count ≤ most_names }
    requires limits { AreNodeLimits limits }
    ensures { IfOk result (λ dots. (node : ℕ) → AreAsked limits count steps.now (OfPresence node topic.now key.now) dots.items) }
{
    let mut cluster = Cluster::new(alloc, count as usize, limits)?;
    let mut dots = Vec::new(alloc);
    let put = put_all_asked(&mut dots, &mut cluster, steps, topic, key);
    // form: drop before exit
    drop(cluster);
    put?;
    Ok(dots)
}

/// Appends the dots of the name of `last`, from clock 1 up to `last` itself.
fn put_own<'a, B: Allocator>(dots: &mut Vec<Dot, &'a B>, last: Dot) -> Result<(), Oom>
    ensures { OnOk result (dots.new.items ≡ dots.old.items ++ dots_up_to last.name last.clock) }
{
    for before in 0..last.clock {
        dots.push(Dot {
            name: last.name,
            clock: before + 1,
        })?;
    }
    Ok(())
}

/// Appends the own dots that a node has seen; nothing if `node` is `None`.
fn put_own_of<'a, B: Allocator>(
    dots: &mut Vec<Dot, &'a B>,
    node: Option<&Node<'a, B>>,
) -> Result<(), Oom>
    ensures dots { OnOk result (dots.new.items ≡ dots.old.items ++ own_of (option_map (λ n. n.now) node.entry)) }
    ensures names { OnOk result (AllByRecursion (λ (d : PlainDot). d.name < most_names) dots.old.items
        → AllByRecursion (λ (d : PlainDot). d.name < most_names) dots.new.items) }
{
    match node {
        Some(node) => {
            // form: hands out what the value keeps
            node.replica().replica_law();
            put_own(dots, node.replica().last())
        }
        None => Ok(()),
    }
}

/// Appends the own dots that the first `count` nodes have seen: node by node, each node's by rising clock.
fn put_own_of_all<'a, B: Allocator>(
    dots: &mut Vec<Dot, &'a B>,
    cluster: &Cluster<'a, B>,
    count: u16,
) -> Result<(), Oom>
    ensures dots { OnOk result (dots.new.items ≡ dots.old.items ++ own_of_all cluster.now count) }
    ensures names { OnOk result (AllByRecursion (λ (d : PlainDot). d.name < most_names) dots.old.items
        → AllByRecursion (λ (d : PlainDot). d.name < most_names) dots.new.items) }
{
    for number in 0..count {
        put_own_of(dots, cluster.node(number))?;
    }
    Ok(())
}

/// The own dots that the first `count` nodes of the cluster have seen.
fn own_dots<'a, B: Allocator>(
    cluster: &Cluster<'a, B>,
    count: u16,
    alloc: &'a B,
) -> Result<Vec<Dot, &'a B>, Oom>
    ensures names { IfOk result (λ dots. AllByRecursion (λ (d : PlainDot). d.name < most_names) dots.items) }
    ensures own { IfOk result (λ dots. dots.items ≡ own_of_all cluster.now count) }
{
    let mut dots = Vec::new(alloc);
    put_own_of_all(&mut dots, cluster, count)?;
    Ok(dots)
}

/// The own dots that the nodes have seen at the end of the steps, which are taken on `count` empty nodes.
fn dots_of_nodes<'a, B: Allocator>(
    steps: &[Kept<&'a B>],
    count: u16,
    limits: NodeLimits,
    alloc: &'a B,
) -> Result<Vec<Dot, &'a B>, Oom>
    requires few { count ≤ most_names }
    requires limits { AreNodeLimits limits }
    ensures names { IfOk result (λ dots. AllByRecursion (λ (d : PlainDot). d.name < most_names) dots.items) }
    ensures own { IfOk result (λ dots. (end : PlainCluster) → runs limits count steps.now ≡ Ok end → dots.items ≡ own_of_all end count) }
{
    let places = places(steps.len(), alloc)?;
    let cluster = played(steps, &places, count, limits, alloc)?;
    let dots = own_dots(&cluster, count, alloc);
    // form: drop before exit
    drop(cluster);
    dots
}

/// The dots that a question is about: if it asks for a topic and a key, those of all entries with these that the steps
/// make; if not, all own dots that the nodes have seen at the end. `count` is the number of nodes.
pub(crate) fn dots_of<'a, B: Allocator>(
    steps: &[Kept<&'a B>],
    count: u16,
    limits: NodeLimits,
    question: &Question<&'a B>,
    alloc: &'a B,
) -> Result<Vec<Dot, &'a B>, Oom>
    requires few { count ≤ most_names }
    requires limits { AreNodeLimits limits }
    ensures { IfOk result (λ dots. AreAsked limits count steps.now (plain question.now) dots.items) }
{
    // form: each arm is a case of the proof
    match question {
        Question::Cluster => dots_of_nodes(steps, count, limits, alloc),
        Question::Node(_) => dots_of_nodes(steps, count, limits, alloc),
        Question::Presence {
            node: _,
            topic,
            key,
        } => dots_of_presences(steps, count, limits, topic, key, alloc),
    }
}
