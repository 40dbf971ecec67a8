//! Appends the lines of a script that plays a run: the nodes, and a line for each step.
ghost use Rattle.std.specs.Prelude.{◌≡◌, ◌++◌, OnOk, string_bytes};
ghost use Rattle.transcript_core.specs.Runs.{nodes_line, step_line};

use crate::script::put_nodes;
use bench_core::{Kept, Names};
use dots_core::Oom;
use report_core::put_act;
use std::alloc::Allocator;

/// Appends `indent`, `nodes NAME ..` and a line feed.
#[tactic(auto, unfolding(crate::specs::Runs::nodes_line))]
pub fn put_nodes_line<A: Allocator, N: Allocator>(
    text: &mut String<A>,
    indent: &str,
    names: &Names<N>,
) -> Result<(), Oom>
    ensures { OnOk result (string_bytes text.new ≡ string_bytes text.old ++ nodes_line indent.now names.now) }
{
    text.push_str(indent)?;
    text.push_str("nodes")?;
    put_nodes(text, names)?;
    Ok(text.push_str("\n")?)
}

/// Appends `indent`, the step as a line of a script, and a line feed.
#[tactic(auto, unfolding(crate::specs::Runs::step_line))]
pub fn put_step_line<A: Allocator, N: Allocator, W: Allocator>(
    text: &mut String<A>,
    indent: &str,
    names: &Names<N>,
    kept: &Kept<W>,
) -> Result<(), Oom>
    ensures { OnOk result (string_bytes text.new ≡ string_bytes text.old ++ step_line indent.now names.now kept.now) }
{
    text.push_str(indent)?;
    put_act(text, names, kept.node, &kept.step)?;
    Ok(text.push_str("\n")?)
}
