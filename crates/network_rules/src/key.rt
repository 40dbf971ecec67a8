//! `Key`, by which states are compared: from two states with the same key the same outcomes can follow.
ghost use Rattle.std.specs.Prelude.{◌≡◌, ◌++◌, IfOk, OnOk, Some, length, option_map};
ghost use Rattle.node_core.specs.Operations.{plain};
ghost use Rattle.bench_core.specs.Clusters.{message_at};
ghost use Rattle.network_rules.specs.Queries.{standings_of, at_node, in_message, key_of, message_queries, message_query, node_queries, node_query, queries_at_nodes, queries_of_messages, sends_held, sent_queries};
ghost use Rattle.network_rules.specs.Tables.{carried, matter};
ghost use Rattle.network_rules.specs.Standings.{standing_in};

use crate::cone::Cone;
use crate::next::count_at;
use crate::recorded_run::RecordedRun;
use crate::state::State;
use crate::turn::Rank;
use bench_core::{Cluster, Kept, Node, Step};
use dots_core::{Dot, DotSet, NameSet, Oom};
use payload_core::{EntrySet, Payload};
use std::alloc::Allocator;

/// How many steps of each turn (see `Turn`) came, and then how the dots that matter stand, first at nodes (but for each
/// node's own dots) and then in the messages of the extracts and answers that came.
pub type Key<A> = Vec<usize, A>;

/// The standing of a dot: 0 unseen, 1 live, 2 gone.
fn standing<A: Allocator>(seen: &DotSet<A>, entries: &EntrySet<A>, dot: Dot) -> usize
    ensures { result ≡ standing_in seen.now entries.now.map dot }
{
    if entries.get(dot).is_some() {
        return 1;
    }
    if seen.contains(dot) {
        return 2;
    }
    0
}

/// How a dot stands at a node; 3 if there is no node.
fn at_node<'a, B: Allocator>(node: Option<&Node<'a, B>>, dot: Dot) -> usize
    ensures { result ≡ at_node (option_map (λ n. n.now) node.entry) dot }
{
    match node {
        None => 3,
        Some(node) => standing(node.replica().seen(), node.replica().entries(), dot),
    }
}

/// How a dot stands in a message; 3 if there is no message.
fn in_message<A: Allocator>(message: Option<&Payload<A>>, dot: Dot) -> usize
    ensures { result ≡ in_message (option_map (λ m. m.now) message.entry) dot }
{
    match message {
        None => 3,
        Some(message) => standing(message.seen(), message.entries(), dot),
    }
}

/// The node's message with this number; `None` if there is no such node or the message wasn't sent.
pub fn message_of<'x, 'a, B: Allocator>(
    cluster: &'x Cluster<'a, B>,
    node: u16,
    number: u64,
) -> Option<&'x Payload<&'a B>>
    ensures { option_map (λ m. m.now) result ≡ message_at cluster.now (Some (node, number)) }
{
    cluster.node(node)?.outbox().get(number)
}

/// Appends how `dot` stands at the node `number`, if the dot's name is among `names` and isn't the node's own. (How a
/// node's own dots stand follows from its own steps.)
fn put_at_node<'a, B: Allocator>(
    key: &mut Key<&'a B>,
    dot: Dot,
    cluster: &Cluster<'a, B>,
    number: u16,
    names: NameSet,
) -> Result<(), Oom>
    ensures { OnOk result (key.new.items ≡ key.old.items ++ standings_of cluster.now (node_query number names (Some dot))) }
{
    if dot.name != number && names.has(dot.name) {
        key.push(at_node(cluster.node(number), dot))?;
    }
    Ok(())
}

/// Appends how each of `dots` stands at the node `number`, if the dot's name is among `names` and isn't the node's own.
fn put_node<'a, B: Allocator>(
    key: &mut Key<&'a B>,
    dots: &[Dot],
    cluster: &Cluster<'a, B>,
    number: u16,
    names: NameSet,
) -> Result<(), Oom>
    ensures { OnOk result (key.new.items ≡ key.old.items ++ standings_of cluster.now (node_queries dots.now number names (length dots.now))) }
{
    for place in 0..dots.len() {
        put_at_node(key, dots[place], cluster, number, names)?;
    }
    Ok(())
}

/// Appends how `dot` stands in the message `number` of `node`, if the dot's name is among `names`.
fn put_in_message<'a, B: Allocator>(
    key: &mut Key<&'a B>,
    dot: Dot,
    cluster: &Cluster<'a, B>,
    node: u16,
    number: u64,
    names: NameSet,
) -> Result<(), Oom>
    ensures { OnOk result (key.new.items ≡ key.old.items ++ standings_of cluster.now (message_query node number names (Some dot))) }
{
    if names.has(dot.name) {
        key.push(in_message(message_of(cluster, node, number), dot))?;
    }
    Ok(())
}

/// Appends how each of `dots` whose name is among `names` stands in the message `number` of `node`.
fn put_message<'a, B: Allocator>(
    key: &mut Key<&'a B>,
    dots: &[Dot],
    cluster: &Cluster<'a, B>,
    node: u16,
    number: u64,
    names: NameSet,
) -> Result<(), Oom>
    ensures { OnOk result (key.new.items ≡ key.old.items ++ standings_of cluster.now (message_queries dots.now node number names (length dots.now))) }
{
    for place in 0..dots.len() {
        put_in_message(key, dots[place], cluster, node, number, names)?;
    }
    Ok(())
}

/// Whether the step sends dots that its node has seen, the node's own or not: an extract or an answer.
fn sends_held<A: Allocator>(step: &Step<A>) -> bool
    ensures { result ≡ sends_held (plain step.now) }
{
    // form: each arm is a case of the proof
    match step {
        Step::Extract { names: _ } => true,
        Step::Answer {
            sender: _,
            number: _,
        } => true,
        _ => false,
    }
}

/// Appends how the dots that matter stand at each of the first `count` nodes; a node's own dots are left out.
fn put_nodes<'a, B: Allocator>(
    key: &mut Key<&'a B>,
    cone: &Cone<'a, B>,
    state: &State<'a, '_, B>,
    count: u16,
) -> Result<(), Oom>
    ensures { OnOk result (key.new.items ≡ key.old.items ++ standings_of state.now.cluster.now (queries_at_nodes cone.now state.now.counts.now count)) }
{
    for node in 0..count {
        let names = cone.matter(node, count_at(state.counts, node as usize));
        put_node(key, cone.dots(), state.cluster, node, names)?;
    }
    Ok(())
}

/// Appends how the dots that matter stand in the message that the step `kept` sent. Appends nothing if the step is
/// neither an extract nor an answer, or hasn't come.
fn put_sent<'a, B: Allocator>(
    key: &mut Key<&'a B>,
    cone: &Cone<'a, B>,
    state: &State<'a, '_, B>,
    kept: &Kept<&'a B>,
    rank: Rank,
) -> Result<(), Oom>
    ensures { OnOk result (key.new.items ≡ key.old.items ++ standings_of state.now.cluster.now
        (sent_queries cone.now state.now.counts.now (Some kept.now) (Some rank))) }
{
    if sends_held(&kept.step) && rank.before < count_at(state.counts, kept.node as usize) {
        let names = cone.carried(kept.node, rank.number);
        return put_message(
            key,
            cone.dots(),
            state.cluster,
            kept.node,
            rank.number,
            names,
        );
    }
    Ok(())
}

/// Like `put_sent`, but appends nothing if the step has no rank.
fn put_place<'a, B: Allocator>(
    key: &mut Key<&'a B>,
    cone: &Cone<'a, B>,
    state: &State<'a, '_, B>,
    kept: &Kept<&'a B>,
    rank: Option<&Rank>,
) -> Result<(), Oom>
    ensures { OnOk result (key.new.items ≡ key.old.items ++ standings_of state.now.cluster.now
        (sent_queries cone.now state.now.counts.now (Some kept.now) (option_map (λ r. r.now) rank.entry))) }
{
    match rank {
        Some(rank) => put_sent(key, cone, state, kept, *rank),
        None => Ok(()),
    }
}

/// Appends how the dots that matter stand in the messages of those extracts and answers of the recorded run that came
/// (see `put_sent`).
fn put_messages<'a, B: Allocator>(
    key: &mut Key<&'a B>,
    cone: &Cone<'a, B>,
    run: &RecordedRun<'a, '_, B>,
    state: &State<'a, '_, B>,
) -> Result<(), Oom>
    ensures { OnOk result (key.new.items ≡ key.old.items ++ standings_of state.now.cluster.now
        (queries_of_messages cone.now run.now.steps.now run.now.ranks.now state.now.counts.now (length run.now.steps.now))) }
{
    let steps = run.steps;
    for place in 0..steps.len() {
        put_place(key, cone, state, &steps[place], run.ranks.get(place))?;
    }
    Ok(())
}

/// The key of a state that steps of the recorded run led to.
pub fn key_of<'a, B: Allocator>(
    cone: &Cone<'a, B>,
    run: &RecordedRun<'a, '_, B>,
    state: &State<'a, '_, B>,
    alloc: &'a B,
) -> Result<Key<&'a B>, Oom>
    ensures { IfOk result (λ key. key.items ≡ key_of cone.now run.now.count run.now.steps.now run.now.ranks.now state.now.counts.now
        state.now.cluster.now) }
{
    let mut key = Vec::from_slice(alloc, state.counts)?;
    put_nodes(&mut key, cone, state, run.count)?;
    put_messages(&mut key, cone, run, state)?;
    Ok(key)
}
