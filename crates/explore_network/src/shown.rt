//! Whether two clusters show the same to a question.
ghost use Rattle.std.specs.Prelude.{◌≡◌, ◌↔◌, ◌≤◌, IfOk, IsTrue, length, map, option_map};
ghost use Rattle.dots_core.specs.Names.{most_names};
ghost use Rattle.change_core.specs.Questions.{rows_in};
ghost use Rattle.explore_network.specs.Questions.{plain, replicas_in, shown};
ghost use Rattle.explore_network.specs.SameShown.{same_rows};

use crate::question::Question;
use bench_core::{Cluster, Node};
use change_core::rows_in;
use diff_core::OnlineRow;
use dots_core::Oom;
use payload_core::Word;
use std::alloc::Allocator;

/// Whether both lists have the same rows in the same order.
fn same_rows<A: Allocator>(rows: &[OnlineRow<A>], others: &[OnlineRow<A>]) -> bool
    ensures { result ≡ same_rows rows.now others.now }
{
    rows == others
}

/// Whether two nodes show the same rows with this topic and key. A missing node shows none.
fn same_rows_in<'a, B: Allocator>(
    one: Option<&Node<'a, B>>,
    other: Option<&Node<'a, B>>,
    topic: &Word<&'a B>,
    key: &Word<&'a B>,
    alloc: &'a B,
) -> Result<bool, Oom>
    ensures { IfOk result (λ same. IsTrue same ↔
        (rows_in topic.now key.now (option_map (λ n. n.now) one.entry) ≡ rows_in topic.now key.now (option_map (λ n. n.now) other.entry))) }
{
    let rows = rows_in(one, topic, key, alloc)?;
    let others = rows_in(other, topic, key, alloc)?;
    let same = same_rows(rows.as_slice(), others.as_slice());
    // form: drop before exit
    drop(rows);
    drop(others);
    Ok(same)
}

/// Whether two nodes have the same replica, or both are missing.
fn same_replica<'a, B: Allocator>(one: Option<&Node<'a, B>>, other: Option<&Node<'a, B>>) -> bool
    ensures { IsTrue result ↔ (replicas_in (option_map (λ n. n.now) one.entry) ≡ replicas_in (option_map (λ n. n.now) other.entry)) }
{
    match one {
        None => other.is_none(),
        Some(one) => match other {
            None => false,
            Some(other) => one.replica().same(other.replica()),
        },
    }
}

/// Whether two clusters of at most 32 nodes each have the same replicas, node by node.
fn same_replicas<'a, B: Allocator>(one: &Cluster<'a, B>, other: &Cluster<'a, B>) -> bool
    requires few { length one.now ≤ most_names }
    requires few_too { length other.now ≤ most_names }
    ensures { IsTrue result ↔ (map (λ x. x.replica) one.now ≡ map (λ x. x.replica) other.now) }
{
    for number in 0..32u16 {
        if !same_replica(one.node(number), other.node(number)) {
            return false;
        }
    }
    true
}

/// Whether both clusters show the same to the question: the same replicas, or the same rows.
#[tactic(auto, unfolding(crate::specs::Questions::shown))]
pub(crate) fn show_same<'a, B: Allocator>(
    one: &Cluster<'a, B>,
    other: &Cluster<'a, B>,
    question: &Question<&'a B>,
    alloc: &'a B,
) -> Result<bool, Oom>
    requires few { length one.now ≤ most_names }
    requires few_too { length other.now ≤ most_names }
    ensures { IfOk result (λ same. IsTrue same ↔ (shown (plain question.now) one.now ≡ shown (plain question.now) other.now)) }
{
    match question {
        Question::Cluster => Ok(same_replicas(one, other)),
        Question::Node(node) => Ok(same_replica(one.node(*node), other.node(*node))),
        Question::Presence { node, topic, key } => {
            same_rows_in(one.node(*node), other.node(*node), topic, key, alloc)
        }
    }
}
