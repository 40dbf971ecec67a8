//! What a bench shows: the online lists of its nodes.
ghost use Rattle.std.specs.Prelude.{◌≡◌, ◌++◌, IfOk, OnOk, option_map, string_bytes};
ghost use Rattle.report_core.specs.Rows.{online_text};
ghost use Rattle.report_core.specs.Shown.{node_of, rows_at, rows_in};

use crate::rows::put_online;
use bench_core::{Bench, Node};
use diff_core::{OnlineRow, online_list};
use dots_core::Oom;
use std::alloc::Allocator;

/// The node with this number; `None` if no node has it.
#[tactic(auto, unfolding(crate::specs::Shown::node_of))]
pub fn node<'x, 'a, B: Allocator>(bench: &'x Bench<'a, B>, number: u16) -> Option<&'x Node<'a, B>>
    ensures { option_map (λ n. n.now) result ≡ node_of bench.now number }
{
    bench.node(number)
}

/// The online list of the node `found`; empty if that is `None`.
pub fn list_of<'a, B: Allocator>(
    found: Option<&Node<'a, B>>,
    alloc: &'a B,
) -> Result<Vec<OnlineRow<&'a B>, &'a B>, Oom>
    ensures { IfOk result (λ rows. rows.items ≡ rows_in (option_map (λ n. n.now) found.entry)) }
{
    match found {
        Some(found) => online_list(alloc, found.replica()),
        None => Ok(Vec::new(alloc)),
    }
}

/// The online list of the node with this number; empty if there is no such node.
#[tactic(auto, unfolding(crate::specs::Shown::rows_at))]
pub fn rows_at<'a, B: Allocator>(
    bench: &Bench<'a, B>,
    number: u16,
    alloc: &'a B,
) -> Result<Vec<OnlineRow<&'a B>, &'a B>, Oom>
    ensures { IfOk result (λ rows. rows.items ≡ rows_at bench.now number) }
{
    list_of(node(bench, number), alloc)
}

/// Appends the online list of a node: `online NODE COUNT` and its rows.
pub fn show<'a, B: Allocator>(
    text: &mut String<&'a B>,
    bench: &Bench<'a, B>,
    node: u16,
    alloc: &'a B,
) -> Result<(), Oom>
    ensures { OnOk result (string_bytes text.new ≡ string_bytes text.old ++ online_text bench.now.names node (rows_at bench.now node)) }
{
    let rows = rows_at(bench, node, alloc)?;
    let put = put_online(text, bench.names(), node, &rows);
    // form: drop before exit
    drop(rows);
    put
}
