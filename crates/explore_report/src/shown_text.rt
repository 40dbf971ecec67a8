//! What an outcome shows to the question.
ghost use Rattle.std.specs.Prelude.{◌≡◌, ◌++◌, OnOk, codes, length, option_map, string_bytes};
ghost use Rattle.change_core.specs.Questions.{rows_in};
ghost use Rattle.explore_network.specs.Questions.{plain};
ghost use Rattle.report_core.specs.Rows.{row_lines};
ghost use Rattle.explore_report.specs.Texts.{node_text, nodes_text, shown_text};

use bench_core::{Cluster, Names, Node};
use change_core::rows_in;
use dots_core::Oom;
use explore_network::Question;
use payload_core::Word;
use report_core::{list_of, put_dots, put_online, put_rows};
use std::alloc::Allocator;

/// Appends what `show` and `dots` print of a node.
#[tactic(auto, unfolding(crate::specs::Texts::node_text))]
fn put_node<'a, A: Allocator, N: Allocator, B: Allocator>(
    cluster: &Cluster<'a, B>,
    text: &mut String<A>,
    names: &Names<N>,
    node: u16,
    alloc: &'a B,
) -> Result<(), Oom>
    ensures { OnOk result (string_bytes text.new ≡ string_bytes text.old ++ node_text names.now cluster.now node) }
{
    let rows = list_of(cluster.node(node), alloc)?;
    let put = put_online(text, names, node, rows.as_slice());
    // form: drop before exit
    drop(rows);
    put?;
    put_dots(cluster.node(node), text, names)
}

/// Appends what `show` and `dots` print of each node.
fn put_nodes<'a, A: Allocator, N: Allocator, B: Allocator>(
    cluster: &Cluster<'a, B>,
    text: &mut String<A>,
    names: &Names<N>,
    alloc: &'a B,
) -> Result<(), Oom>
    ensures { OnOk result (string_bytes text.new ≡ string_bytes text.old ++ nodes_text names.now cluster.now (length names.now)) }
{
    for node in 0..names.len() as u16 {
        put_node(cluster, text, names, node, alloc)?;
    }
    Ok(())
}

/// Appends the rows of a topic and a key in a node's online list, each after `= `; nothing if there is no such node.
fn put_presences<'a, A: Allocator, N: Allocator, B: Allocator>(
    found: Option<&Node<'a, B>>,
    text: &mut String<A>,
    names: &Names<N>,
    topic: &Word<&'a B>,
    key: &Word<&'a B>,
    alloc: &'a B,
) -> Result<(), Oom>
    ensures { OnOk result (string_bytes text.new ≡ string_bytes text.old ++
        row_lines (codes "= ") names.now (rows_in topic.now key.now (option_map (λ n. n.now) found.entry))) }
{
    let rows = rows_in(found, topic, key, alloc)?;
    let put = put_rows(text, "= ", names, rows.as_slice());
    // form: drop before exit
    drop(rows);
    put
}

/// Appends what the cluster shows to the question: what `show` and `dots` print of each node or of one node, or the
/// rows of a topic and a key.
#[tactic(auto, unfolding(crate::specs::Texts::shown_text))]
pub(crate) fn put_shown<'a, A: Allocator, N: Allocator, B: Allocator>(
    cluster: &Cluster<'a, B>,
    text: &mut String<A>,
    names: &Names<N>,
    question: &Question<&'a B>,
    alloc: &'a B,
) -> Result<(), Oom>
    ensures { OnOk result (string_bytes text.new ≡ string_bytes text.old ++ shown_text names.now (plain question.now) cluster.now) }
{
    match question {
        Question::Cluster => put_nodes(cluster, text, names, alloc),
        Question::Node(node) => put_node(cluster, text, names, *node, alloc),
        Question::Presence { node, topic, key } => {
            put_presences(cluster.node(*node), text, names, topic, key, alloc)
        }
    }
}
