//! `Before`: what must be known of a bench before a call, to tell afterwards what the call changed.
ghost use Rattle.std.specs.Prelude.{◌≡◌, ◌<◌, IfOk, length, option_map, string_bytes};
ghost use Rattle.bench_core.specs.Acts.{plain_act};
ghost use Rattle.report_core.specs.StepDiffs.{TellsUndo};
ghost use Rattle.page_data.specs.Asked.{asked_node, node_if, node_undone};
ghost use Rattle.page_data.specs.PageData.{act_reads};
ghost use Rattle.page_data.specs.Seen.{seen_in};

use crate::seen::{Seen, seen_in};
use crate::steps::put_reads;
use bench_core::{Act, Bench, Node};
use diff_core::Diff;
use dots_core::Oom;
use report_core::{asked_undo, node, node_of_step, undo_diff};
use std::alloc::Allocator;

/// What must be known of a bench before a call.
#[derive(Drop)]
pub struct Before<'a, B: Allocator> {
    /// What the call's step reads (see `put_reads`), as keys of the call's JSON object; empty if the call is an undo or
    /// a back, or its actor isn't a node.
    pub reads: String<&'a B>,
    /// The node that the call asks to change. For a step it is the actor, even one that isn't a node; for an undo or a
    /// back it is the node of the step to take back, or `None` if no such step remains.
    pub node: Option<u16>,
    /// How the step that the call asks to take back had changed its node's online list. No rows if the call is a step,
    /// or an undo or a back that will be refused.
    pub undone: Diff<&'a B>,
    /// What `node` had seen of each name; empty if there is no such node.
    pub seen: Vec<Seen, &'a B>,
}

/// The node of the step with this number; `None` if there is no number, or the step doesn't remain.
fn node_undone<'a, B: Allocator>(bench: &Bench<'a, B>, number: Option<u64>) -> Option<u16>
    ensures { result ≡ node_undone bench.now number }
{
    match number {
        Some(number) => node_of_step(bench, number),
        None => None,
    }
}

/// The node that a call asks to change: the actor, if the act is a step, and else the node of the step to take back.
/// `None` if no such step remains.
#[tactic(auto, unfolding(crate::specs::Asked::asked_node))]
fn asked_node<'a, B: Allocator>(bench: &Bench<'a, B>, actor: u16, act: &Act<&'a B>) -> Option<u16>
    ensures { result ≡ asked_node bench.now actor (plain_act act.now) }
{
    // form: each arm is a case of the proof
    match act {
        Act::Do(_) => Some(actor),
        Act::Undo(_) => node_undone(bench, asked_undo(bench, act)),
        Act::Back(_) => node_undone(bench, asked_undo(bench, act)),
    }
}

/// The node with this number; `None` if there is no number, or no such node.
fn node_if<'x, 'a, B: Allocator>(
    bench: &'x Bench<'a, B>,
    number: Option<u16>,
) -> Option<&'x Node<'a, B>>
    ensures { option_map (λ n. n.now) result ≡ node_if bench.now number }
{
    match number {
        Some(number) => node(bench, number),
        None => None,
    }
}

/// What the call's step reads (see `put_reads`), as keys of the call's JSON object; empty if the call is an undo or a
/// back, or the actor isn't a node.
fn reads<'a, B: Allocator>(
    bench: &Bench<'a, B>,
    actor: u16,
    act: &Act<&'a B>,
    alloc: &'a B,
) -> Result<String<&'a B>, Oom>
    ensures { IfOk result (λ text. actor < length bench.now.names → string_bytes text ≡ act_reads bench.now actor (plain_act act.now)) }
{
    let mut text = String::new(alloc);
    if actor as usize >= bench.names().len() {
        return Ok(text);
    }
    if let Act::Do(step) = act {
        put_reads(&mut text, bench, actor, step, alloc)?;
    }
    Ok(text)
}

impl<'a, B: Allocator> Before<'a, B> {
    /// Gathers what must be known of the bench before this call, and leaves the bench unchanged.
    pub fn of(
        bench: &Bench<'a, B>,
        actor: u16,
        act: &Act<&'a B>,
        alloc: &'a B,
    ) -> Result<Before<'a, B>, Oom>
        ensures reads { IfOk result (λ before. actor < length bench.now.names →
            string_bytes before.reads ≡ act_reads bench.now actor (plain_act act.now)) }
        ensures node { IfOk result (λ before. before.node ≡ asked_node bench.now actor (plain_act act.now)) }
        ensures undone { IfOk result (λ before. TellsUndo bench.now (plain_act act.now) before.undone.left.items before.undone.joined.items) }
        ensures seen { IfOk result (λ before. before.seen.items ≡
            seen_in (node_if bench.now (asked_node bench.now actor (plain_act act.now))) (length bench.now.names)) }
    {
        let node = asked_node(bench, actor, act);
        let count = bench.names().len() as u16;
        let reads = reads(bench, actor, act, alloc)?;
        let undone = undo_diff(bench, act, alloc)?;
        let seen = seen_in(node_if(bench, node), count, alloc)?;
        Ok(Before {
            reads,
            node,
            undone,
            seen,
        })
    }
}
