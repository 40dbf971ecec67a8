//! The rows of a topic and a key in a node's online list.
ghost use Rattle.std.specs.Prelude.{◌≡◌, IfOk, filter, option_map};
ghost use Rattle.change_core.specs.Ends.{rows_before};
ghost use Rattle.change_core.specs.Questions.{is_of, rows_at, rows_in};

use crate::question::Question;
use bench_core::{Bench, Cluster, Node};
use diff_core::{OnlineRow, online_list};
use dots_core::Oom;
use payload_core::Word;
use std::alloc::Allocator;

/// Rows of an online list.
pub type Rows<A> = Vec<OnlineRow<A>, A>;

/// Whether the row has this topic and key.
fn is_of<A: Allocator>(row: &OnlineRow<A>, topic: &Word<A>, key: &Word<A>) -> bool
    ensures { result ≡ is_of topic.now key.now row.now }
{
    row.topic == *topic && row.key == *key
}

/// Copies of the rows with this topic and key, in the order of `rows`.
fn rows_of<A: Allocator + Copy>(
    alloc: A,
    rows: &[OnlineRow<A>],
    topic: &Word<A>,
    key: &Word<A>,
) -> Result<Rows<A>, Oom>
    ensures { IfOk result (λ found. found.items ≡ filter (is_of topic.now key.now) rows.now) }
{
    let mut found = Vec::new(alloc);
    for row in rows {
        if is_of(row, topic, key) {
            found.push(row.try_copy()?)?;
        }
    }
    Ok(found)
}

/// The rows with this topic and key in the online list of the node `found`; none if that is `None`.
pub fn rows_in<'a, B: Allocator>(
    found: Option<&Node<'a, B>>,
    topic: &Word<&'a B>,
    key: &Word<&'a B>,
    alloc: &'a B,
) -> Result<Rows<&'a B>, Oom>
    ensures { IfOk result (λ rows. rows.items ≡ rows_in topic.now key.now (option_map (λ n. n.now) found.entry)) }
{
    let Some(found) = found else {
        return Ok(Vec::new(alloc));
    };
    let listed = online_list(alloc, found.replica())?;
    let rows = rows_of(alloc, listed.as_slice(), topic, key);
    // form: drop before exit
    drop(listed);
    rows
}

/// The rows that are asked for, as the cluster has them; none if there is no such node.
#[tactic(auto, unfolding(crate::specs::Questions::rows_at))]
pub(crate) fn rows_at<'a, B: Allocator>(
    cluster: &Cluster<'a, B>,
    question: &Question<&'a B>,
    alloc: &'a B,
) -> Result<Rows<&'a B>, Oom>
    ensures { IfOk result (λ rows. rows.items ≡ rows_at question.now cluster.now) }
{
    rows_in(
        cluster.node(question.node),
        &question.topic,
        &question.key,
        alloc,
    )
}

/// The rows that are asked for, at the end of the recorded run; none if there is no such node.
pub fn rows_before<'a, B: Allocator>(
    bench: &Bench<'a, B>,
    question: &Question<&'a B>,
    alloc: &'a B,
) -> Result<Rows<&'a B>, Oom>
    ensures { IfOk result (λ rows. rows.items ≡ rows_before bench.now question.now) }
{
    rows_in(
        bench.node(question.node),
        &question.topic,
        &question.key,
        alloc,
    )
}

pub(crate) fn copied_rows<A: Allocator + Copy>(
    rows: &[OnlineRow<A>],
    alloc: A,
) -> Result<Rows<A>, Oom>
    ensures { IfOk result (λ copies. copies.items ≡ rows.now) }
{
    let mut copies = Vec::with_capacity(alloc, rows.len())?;
    for row in rows {
        copies.push(row.try_copy()?)?;
    }
    Ok(copies)
}
