//! The text of an explanation.
ghost use Rattle.std.specs.Prelude.{◌≡◌, ◌++◌, IfOk, OnOk, length, string_bytes};
ghost use Rattle.explain_core.specs.Findings.{AreStatuses};
ghost use Rattle.std.specs.List.{flat_map};
ghost use Rattle.explain_core.specs.Explanations.{dot_line, explanation, finding_text, found_text, head_line, labelled, left_text, making_texts, node_text, removal_text, status_text, step_line, step_line_if, step_lines, traced_text, tracked_text, verdict_text};

use crate::finding::{
    Finding, Verdict, finding_of, has_left, last_statuses, missing, status_among,
};
use crate::making::{Making, makings_of};
use crate::standing::{Standing, standing_at};
use crate::tracing::{Traced, traced_of};
use crate::track::{Track, stand_at};
use bench_core::{Bench, Kept, Names};
use dots_core::{Dot, Oom};
use payload_core::Word;
use report_core::{name_at, put_act};
use std::alloc::Allocator;

/// How many presences one walk over the steps follows at the most.
const FOLLOWED_TOGETHER: usize = 512;

impl Verdict {
    /// The verdict as it is printed.
    fn text(self) -> &'static str
        ensures { result.now ≡ verdict_text self }
    {
        match self {
            Verdict::Online => "online",
            Verdict::Down => "down",
            Verdict::Removed => "removed",
            Verdict::Left => "left",
            Verdict::Forgotten => "forgotten",
            Verdict::Missed => "missed",
            Verdict::Undelivered => "undelivered",
            Verdict::Unsent => "unsent",
        }
    }
}

/// Appends the step as the line `LABEL NUMBER NODE VERB ..`: `label`, the step's number, and its line in a script.
#[tactic(auto, unfolding(crate::specs::Explanations::labelled))]
fn put_labelled<A: Allocator, N: Allocator, W: Allocator>(
    text: &mut String<A>,
    names: &Names<N>,
    label: &str,
    kept: &Kept<W>,
) -> Result<(), Oom>
    ensures { OnOk result (string_bytes text.new ≡ string_bytes text.old ++ labelled names.now label.now kept.now) }
{
    let number = kept.number;
    write!(text, "{label} {number} ")?;
    put_act(text, names, kept.node, &kept.step)?;
    Ok(text.push_str("\n")?)
}

/// Appends the line of the step with this number (see `put_labelled`), if the step remains.
#[tactic(auto, unfolding(crate::specs::Explanations::step_line))]
fn put_step<'a, A: Allocator, B: Allocator>(
    bench: &Bench<'a, B>,
    text: &mut String<A>,
    label: &str,
    number: u64,
) -> Result<(), Oom>
    ensures { OnOk result (string_bytes text.new ≡ string_bytes text.old ++ step_line bench.now label.now number) }
{
    match bench.remaining().find(number) {
        Some(kept) => put_labelled(text, bench.names(), label, kept),
        None => Ok(()),
    }
}

/// Like `put_step`, but appends nothing if `number` is `None`.
fn put_step_if<'a, A: Allocator, B: Allocator>(
    bench: &Bench<'a, B>,
    text: &mut String<A>,
    label: &str,
    number: Option<u64>,
) -> Result<(), Oom>
    ensures { OnOk result (string_bytes text.new ≡ string_bytes text.old ++ step_line_if bench.now label.now number) }
{
    match number {
        Some(number) => put_step(bench, text, label, number),
        None => Ok(()),
    }
}

/// Appends what `put_step` appends for each of these numbers, in their order.
#[tactic(auto, unfolding(crate::specs::Explanations::step_lines))]
fn put_steps<'a, A: Allocator, B: Allocator>(
    bench: &Bench<'a, B>,
    text: &mut String<A>,
    label: &str,
    numbers: &[u64],
) -> Result<(), Oom>
    ensures { OnOk result (string_bytes text.new ≡ string_bytes text.old ++ step_lines bench.now label.now numbers.now) }
{
    for number in numbers {
        put_step(bench, text, label, *number)?;
    }
    Ok(())
}

/// Appends a verdict, and a line for each step that it rests on.
#[tactic(auto, unfolding(crate::specs::Explanations::found_text))]
fn put_found<'a, A: Allocator, B: Allocator, F: Allocator>(
    bench: &Bench<'a, B>,
    text: &mut String<A>,
    finding: &Finding<F>,
) -> Result<(), Oom>
    ensures { OnOk result (string_bytes text.new ≡ string_bytes text.old ++ found_text bench.now finding.now) }
{
    let verdict = finding.verdict.text();
    writeln!(text, "{verdict}")?;
    put_steps(bench, text, "by", &finding.steps)
}

/// Appends the line of the step by which the presence left at its own node (the node that `dot` names), if it left.
#[tactic(auto, unfolding(crate::specs::Explanations::left_text))]
fn put_left<'a, A: Allocator, B: Allocator>(
    bench: &Bench<'a, B>,
    text: &mut String<A>,
    dot: Dot,
    track: &Track<&'a B>,
) -> Result<(), Oom>
    ensures { OnOk result (string_bytes text.new ≡ string_bytes text.old ++ left_text bench.now dot track.now) }
{
    if has_left(bench, dot) {
        let by = stand_at(&track.stands, dot.name).by;
        put_step_if(bench, text, "left", by)
    } else {
        Ok(())
    }
}

/// Appends `at NODE VERDICT`, which says how the presence stands at the node, and a line for each step that tells why.
#[tactic(auto, unfolding(crate::specs::Explanations::node_text, crate::specs::Explanations::finding_text))]
fn put_node<'a, A: Allocator, B: Allocator>(
    bench: &Bench<'a, B>,
    text: &mut String<A>,
    node: u16,
    dot: Dot,
    track: &Track<&'a B>,
    alloc: &'a B,
) -> Result<(), Oom>
    ensures { OnOk result (string_bytes text.new ≡ string_bytes text.old ++ node_text bench.now node dot track.now) }
{
    let name = name_at(bench.names(), node);
    write!(text, "at {name} ")?;
    let finding = finding_of(bench, node, dot, track, alloc)?;
    let put = put_found(bench, text, &finding);
    // form: drop before exit
    drop(finding);
    put
}

/// Appends `dot NODE CLOCK`, and a line feed.
#[tactic(auto, unfolding(crate::specs::Explanations::dot_line))]
fn put_dot<'a, A: Allocator, B: Allocator>(
    bench: &Bench<'a, B>,
    text: &mut String<A>,
    dot: Dot,
) -> Result<(), Oom>
    ensures { OnOk result (string_bytes text.new ≡ string_bytes text.old ++ dot_line bench.now.names dot) }
{
    let name = name_at(bench.names(), dot.name);
    let clock = dot.clock;
    Ok(writeln!(text, "dot {name} {clock}")?)
}

/// Appends the line of the node's last up, down or permanently down of the presence's name, if one remains. `statuses`
/// has the numbers of such steps by name (see `last_statuses`).
#[tactic(auto, unfolding(crate::specs::Explanations::status_text))]
fn put_status<'a, A: Allocator, B: Allocator>(
    bench: &Bench<'a, B>,
    text: &mut String<A>,
    statuses: &[Option<u64>],
    node: u16,
    dot: Dot,
) -> Result<(), Oom>
    requires { AreStatuses bench.now.state.remaining node statuses.now }
    ensures { OnOk result (string_bytes text.new ≡ string_bytes text.old ++ status_text bench.now node dot) }
{
    let status = status_among(bench.remaining(), statuses, node, dot.name);
    put_step_if(bench, text, "status", status)
}

/// Appends why the presence's removal didn't come to `node`, if the presence left at its own node and is still live at
/// `node`.
#[tactic(auto, unfolding(crate::specs::Explanations::removal_text, crate::specs::Explanations::finding_text))]
fn put_removal<'a, A: Allocator, B: Allocator>(
    bench: &Bench<'a, B>,
    text: &mut String<A>,
    node: u16,
    dot: Dot,
    track: &Track<&'a B>,
    alloc: &'a B,
) -> Result<(), Oom>
    ensures { OnOk result (string_bytes text.new ≡ string_bytes text.old ++ removal_text bench.now node dot track.now) }
{
    if standing_at(bench, node, dot).is_same(Standing::Live) && has_left(bench, dot) {
        text.push_str("removal ")?;
        let finding = missing(alloc, &track.hops, node, Standing::Gone)?;
        let put = put_found(bench, text, &finding);
        // form: drop before exit
        drop(finding);
        put
    } else {
        Ok(())
    }
}

/// Appends what `explain` tells of one presence.
#[tactic(auto, unfolding(crate::specs::Explanations::tracked_text))]
fn put_tracked<'a, A: Allocator, B: Allocator>(
    bench: &Bench<'a, B>,
    text: &mut String<A>,
    statuses: &[Option<u64>],
    node: u16,
    traced: &Traced<&'a B>,
    alloc: &'a B,
) -> Result<(), Oom>
    requires { AreStatuses bench.now.state.remaining node statuses.now }
    ensures { OnOk result (string_bytes text.new ≡ string_bytes text.old ++ traced_text bench.now node traced.now) }
{
    let making = traced.making;
    let track = &traced.track;
    put_step(bench, text, "made", making.number)?;
    put_dot(bench, text, making.dot)?;
    put_left(bench, text, making.dot, track)?;
    put_node(bench, text, node, making.dot, track, alloc)?;
    put_status(bench, text, statuses, node, making.dot)?;
    put_removal(bench, text, node, making.dot, track, alloc)
}

/// Appends what `explain` tells of each presence in `traced`, in this order.
fn put_traced<'a, A: Allocator, B: Allocator>(
    bench: &Bench<'a, B>,
    text: &mut String<A>,
    statuses: &[Option<u64>],
    node: u16,
    traced: &[Traced<&'a B>],
    alloc: &'a B,
) -> Result<(), Oom>
    requires { AreStatuses bench.now.state.remaining node statuses.now }
    ensures { OnOk result (string_bytes text.new ≡ string_bytes text.old ++ flat_map (traced_text bench.now node) traced.now) }
{
    for next in traced {
        put_tracked(bench, text, statuses, node, next, alloc)?;
    }
    Ok(())
}

/// Appends what `explain` tells of each presence in `makings`, in this order. One walk over the steps follows all these
/// presences.
fn put_some<'a, A: Allocator, B: Allocator>(
    bench: &Bench<'a, B>,
    text: &mut String<A>,
    node: u16,
    makings: &[Making],
    alloc: &'a B,
) -> Result<(), Oom>
    ensures { OnOk result (string_bytes text.new ≡ string_bytes text.old ++ making_texts bench.now node makings.now) }
{
    let names = bench.names().len() as u16;
    let statuses = last_statuses(bench.remaining(), node, names, alloc)?;
    let traced = traced_of(bench, makings, alloc)?;
    let put = put_traced(bench, text, &statuses, node, &traced, alloc);
    // form: drop before exit
    drop(traced);
    drop(statuses);
    put
}

/// Appends what `explain` tells of each presence in `makings`, in this order. Each walk over the steps follows up to
/// 512 presences, so that the tracks take little memory.
#[tactic(auto, unfolding(crate::specs::Explanations::making_texts))]
fn put_makings<'a, A: Allocator, B: Allocator>(
    bench: &Bench<'a, B>,
    text: &mut String<A>,
    node: u16,
    makings: &[Making],
    alloc: &'a B,
) -> Result<(), Oom>
    ensures { OnOk result (string_bytes text.new ≡ string_bytes text.old ++ making_texts bench.now node makings.now) }
{
    let mut left = makings;
    while !left.is_empty() {
        let (first, rest) = left.split_at(left.len().min(FOLLOWED_TOGETHER));
        put_some(bench, text, node, first, alloc)?;
        left = rest;
    }
    Ok(())
}

/// What is explained: the presences of a topic and a key at a node.
#[derive(Drop)]
struct Asked<'t, A: Allocator> {
    node: u16,
    topic: &'t Word<A>,
    key: &'t Word<A>,
}

/// Appends `explain NODE TOPIC KEY COUNT`, where COUNT is `count`, the number of presences, and a line feed.
#[tactic(auto, unfolding(crate::specs::Explanations::head_line))]
fn put_head<'a, A: Allocator, B: Allocator>(
    bench: &Bench<'a, B>,
    text: &mut String<A>,
    asked: &Asked<'_, &'a B>,
    count: usize,
) -> Result<(), Oom>
    ensures { OnOk result (string_bytes text.new ≡ string_bytes text.old ++ head_line bench.now asked.now.node asked.now.topic.now asked.now.key.now count) }
{
    let node = name_at(bench.names(), asked.node);
    let topic = asked.topic.as_str();
    let key = asked.key.as_str();
    // form: a `writeln!` split in two, which the proof takes one by one
    write!(text, "explain {node} {topic}")?;
    Ok(writeln!(text, " {key} {count}")?)
}

/// Appends the line that says how many presences there are, and the text for each.
fn put_explanation<'a, A: Allocator, B: Allocator>(
    bench: &Bench<'a, B>,
    text: &mut String<A>,
    asked: &Asked<'_, &'a B>,
    makings: &[Making],
    alloc: &'a B,
) -> Result<(), Oom>
    ensures { OnOk result (string_bytes text.new ≡ string_bytes text.old ++
        (head_line bench.now asked.now.node asked.now.topic.now asked.now.key.now (length makings.now)
        ++ making_texts bench.now asked.now.node makings.now)) }
{
    put_head(bench, text, asked, makings.len())?;
    put_makings(bench, text, asked.node, makings, alloc)
}

/// Tells why the presences of a topic and key are online at a node, or why not. The first line says how many of them
/// the remaining steps made; then comes each of these, in the order of the steps. Of each the text has the step that
/// made it, and its dot; the step by which it left at its own node, if it did; how it stands at the node, with the
/// steps that tell why; the node's last up, down or permanently down of the presence's name, if one remains; and, if
/// the presence left and is still live at the node, why its removal didn't come.
#[tactic(auto, unfolding(crate::specs::Explanations::explanation))]
pub fn explain<'a, B: Allocator>(
    bench: &Bench<'a, B>,
    node: u16,
    topic: &Word<&'a B>,
    key: &Word<&'a B>,
    alloc: &'a B,
) -> Result<String<&'a B>, Oom>
    ensures { IfOk result (λ text. string_bytes text ≡ explanation bench.now node topic.now key.now) }
{
    let makings = makings_of(bench, topic, key, alloc)?;
    let mut text = String::new(alloc);
    let asked = Asked { node, topic, key };
    let put = put_explanation(bench, &mut text, &asked, &makings, alloc);
    // form: drop before exit
    drop(makings);
    put?;
    Ok(text)
}
