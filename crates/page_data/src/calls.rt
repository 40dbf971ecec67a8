//! Makes a recorded call again on a bench, and writes what the page tells of it.
ghost use Rattle.std.specs.Prelude.{◌≡◌, ◌++◌, ◌<◌, ◌≤◌, None, OnOk, length, option_map, string_bytes};
ghost use Rattle.dots_core.specs.Names.{most_names};
ghost use Rattle.bench_core.specs.Acts.{plain_act};
ghost use Rattle.journal_core.specs.Journals.{first_consequence};
ghost use Rattle.report_core.specs.ActTexts.{after_act, reply_of};
ghost use Rattle.report_core.specs.StepDiffs.{TellsUndo};
ghost use Rattle.transcript_core.specs.Scripts.{cast_of};
ghost use Rattle.page_data.specs.Asked.{asked_node, node_if};
ghost use Rattle.page_data.specs.Json.{comma_at};
ghost use Rattle.page_data.specs.PageData.{act_gives, act_reads, asked_text, call_text, changed_text, held_keys, outcome_keys, refused_keys, taken_head, taken_text, undone_at, undone_text, Tells};
ghost use Rattle.page_data.specs.Seen.{seen_in};

use crate::before::Before;
use crate::json::{put_comma, put_number_key, put_numbers_key, put_text_key};
use crate::rows::put_rows_keys;
use crate::seen::{Seen, changes_in};
use crate::steps::put_gives;
use bench_core::{Act, Bench, Event, Fault, Names, Node, Reply, TextSet};
use diff_core::{Diff, OnlineRow};
use dots_core::Oom;
use report_core::{node, reply_of, step_diff};
use std::alloc::Allocator;
use transcript_core::{CastRef, put_call};

/// Appends the dots of the rows that left and joined the online list of a node, and what the node has seen of each name
/// for which this differs from `before`. `before` is what the node had seen before the call, `count` the number of
/// names.
#[tactic(auto, unfolding(crate::specs::PageData::changed_text))]
fn put_changed<'a, B: Allocator>(
    text: &mut String<&'a B>,
    node: Option<&Node<'a, B>>,
    left: &[OnlineRow<&'a B>],
    joined: &[OnlineRow<&'a B>],
    before: &[Seen],
    count: u16,
) -> Result<(), Oom>
    requires { count ≤ most_names }
    ensures { OnOk result (string_bytes text.new ≡ string_bytes text.old ++
        changed_text left.now joined.now before.now (option_map (λ n. n.now) node.entry) count) }
{
    let alloc = *text.allocator();
    put_rows_keys(text, left, joined, alloc)?;
    let changes = changes_in(node, before, count, alloc)?;
    put_numbers_key(text, "dots", &changes)
}

/// Like `put_gives`, but for the step of `act`; appends nothing if `act` is an undo or a back.
fn put_act_gives<'a, B: Allocator>(
    text: &mut String<&'a B>,
    bench: &Bench<'a, B>,
    actor: u16,
    act: &Act<&'a B>,
    diff: &Diff<&'a B>,
    alloc: &'a B,
) -> Result<(), Oom>
    requires { actor < length bench.now.names }
    ensures { OnOk result (string_bytes text.new ≡ string_bytes text.old ++
        act_gives bench.now actor (plain_act act.now) diff.now.left.items diff.now.joined.items) }
{
    match act {
        Act::Do(step) => put_gives(text, bench, actor, step, diff, alloc),
        _ => Ok(()),
    }
}

/// Appends the number of a step that was taken, its node, and what the step read, as keys.
#[tactic(auto, unfolding(crate::specs::PageData::taken_head))]
fn put_taken_head<A: Allocator>(
    text: &mut String<A>,
    node: u16,
    number: u64,
    reads: &str,
) -> Result<(), Oom>
    ensures { OnOk result (string_bytes text.new ≡ string_bytes text.old ++ taken_head node number reads.now) }
{
    put_number_key(text, "step", number)?;
    put_number_key(text, "node", node as u64)?;
    Ok(text.push_str(reads)?)
}

/// A step that a call took.
#[derive(Drop)]
struct TakenStep<'a, 't, B: Allocator> {
    /// The node that made the call and took the step.
    actor: u16,
    act: &'t Act<&'a B>,
    number: u64,
}

/// Appends what the page tells of a step that was taken. `bench` is the bench after the step; `before` is what
/// `Before::of` gave just before it; `diff` says how the step changed the online list of its node.
#[tactic(auto, unfolding(crate::specs::PageData::taken_text))]
fn put_taken<'a, B: Allocator>(
    text: &mut String<&'a B>,
    bench: &Bench<'a, B>,
    taken: &TakenStep<'a, '_, B>,
    before: &Before<'a, B>,
    diff: &Diff<&'a B>,
    alloc: &'a B,
) -> Result<(), Oom>
    requires { taken.now.actor < length bench.now.names }
    ensures { OnOk result (string_bytes text.new ≡ string_bytes text.old ++
        taken_text bench.now taken.now.actor (plain_act taken.now.act.now) taken.now.number (string_bytes before.now.reads)
        diff.now.left.items diff.now.joined.items before.now.seen.items) }
{
    put_taken_head(text, taken.actor, taken.number, before.reads.as_str())?;
    put_act_gives(text, bench, taken.actor, taken.act, diff, alloc)?;
    let count = bench.names().len() as u16;
    put_changed(
        text,
        node(bench, taken.actor),
        &diff.left,
        &diff.joined,
        &before.seen,
        count,
    )
}

/// Like `put_taken`, but finds out how the step changed the online list. The step must have no consequence.
fn put_step<'a, B: Allocator>(
    text: &mut String<&'a B>,
    bench: &Bench<'a, B>,
    taken: &TakenStep<'a, '_, B>,
    before: &Before<'a, B>,
    alloc: &'a B,
) -> Result<(), Oom>
    requires actor { taken.now.actor < length bench.now.names }
    requires free { first_consequence bench.now.state.remaining taken.now.number ≡ None }
    ensures { OnOk result (Tells bench.now taken.now.actor (plain_act taken.now.act.now) taken.now.number
        (string_bytes before.now.reads) before.now.seen.items (string_bytes text.old) (string_bytes text.new)) }
{
    let diff = step_diff(bench, taken.number, alloc)?;
    let put = put_taken(text, bench, taken, before, &diff, alloc);
    // form: drop before exit
    drop(diff);
    put
}

/// Appends the node of the step that was taken back, and what the undo changed at this node; nothing if `before` has no
/// node.
fn put_undone_at<'a, B: Allocator>(
    text: &mut String<&'a B>,
    bench: &Bench<'a, B>,
    before: &Before<'a, B>,
) -> Result<(), Oom>
    ensures { OnOk result (string_bytes text.new ≡ string_bytes text.old ++
        undone_at bench.now before.now.node before.now.undone.joined.items before.now.undone.left.items before.now.seen.items) }
{
    let Some(number) = before.node else {
        return Ok(());
    };
    put_number_key(text, "node", number as u64)?;
    let count = bench.names().len() as u16;
    let undone = &before.undone;
    put_changed(
        text,
        node(bench, number),
        &undone.joined,
        &undone.left,
        &before.seen,
        count,
    )
}

/// Appends what the page tells of a step that was taken back, the step `number`. `bench` is the bench after the undo;
/// `before` is what `Before::of` gave just before it.
#[tactic(auto, unfolding(crate::specs::PageData::undone_text))]
fn put_undone<'a, B: Allocator>(
    text: &mut String<&'a B>,
    bench: &Bench<'a, B>,
    number: u64,
    before: &Before<'a, B>,
) -> Result<(), Oom>
    ensures { OnOk result (string_bytes text.new ≡ string_bytes text.old ++
        undone_text bench.now number before.now.node before.now.undone.joined.items before.now.undone.left.items before.now.seen.items) }
{
    put_number_key(text, "undoes", number)?;
    put_undone_at(text, bench, before)
}

/// Appends, for `HasConsequence`, the step whose undo was refused and this step's least consequence; nothing for
/// another fault.
fn put_held<A: Allocator>(text: &mut String<A>, fault: Fault) -> Result<(), Oom>
    ensures { OnOk result (string_bytes text.new ≡ string_bytes text.old ++ held_keys fault) }
{
    match fault {
        Fault::HasConsequence { step, held_by } => put_numbers_key(text, "held", &[step, held_by]),
        _ => Ok(()),
    }
}

/// Appends the fault for which a call was refused, and what `put_held` appends for it.
#[tactic(auto, unfolding(crate::specs::PageData::refused_keys, crate::specs::Json::text_key, crate::specs::Json::string_text))]
fn put_refused<'a, B: Allocator>(
    text: &mut String<&'a B>,
    fault: Fault,
    alloc: &'a B,
) -> Result<(), Oom>
    ensures { OnOk result (string_bytes text.new ≡ string_bytes text.old ++ refused_keys fault) }
{
    let mut name = String::new(alloc);
    write!(name, "{fault}")?;
    put_text_key(text, "no", name.as_str())?;
    put_held(text, fault)
}

/// Makes a call on the bench, and appends the reply and what the call changed. `before` must be what `Before::of` gave
/// just before the call.
fn put_outcome<'a, B: Allocator>(
    text: &mut String<&'a B>,
    bench: &mut Bench<'a, B>,
    actor: u16,
    act: &Act<&'a B>,
    before: &Before<'a, B>,
    alloc: &'a B,
) -> Result<(), Oom>
    requires reads { actor < length bench.old.names → string_bytes before.now.reads ≡ act_reads bench.old actor (plain_act act.now) }
    requires node { before.now.node ≡ asked_node bench.old actor (plain_act act.now) }
    requires undone { TellsUndo bench.old (plain_act act.now) before.now.undone.left.items before.now.undone.joined.items }
    requires seen { before.now.seen.items ≡
        seen_in (node_if bench.old (asked_node bench.old actor (plain_act act.now))) (length bench.old.names) }
    ensures bench { OnOk result (bench.new ≡ after_act bench.old actor (plain_act act.now)) }
    ensures text { OnOk result (string_bytes text.new ≡ string_bytes text.old ++
        outcome_keys bench.old (after_act bench.old actor (plain_act act.now)) actor (plain_act act.now) (reply_of bench.old actor (plain_act act.now))) }
{
    // form: hands out what the bench keeps
    bench.bench_law();
    let reply = reply_of(bench, actor, act)?;
    match reply {
        Reply::Taken(number) => {
            let taken = TakenStep { actor, act, number };
            put_step(text, bench, &taken, before, alloc)
        }
        Reply::Undone(number) => put_undone(text, bench, number, before),
        Reply::Refused(fault) => put_refused(text, fault, alloc),
    }
}

/// Appends the beginning of a call's JSON object: who asks, and the call as a line of a script.
#[tactic(auto, unfolding(crate::specs::PageData::asked_text))]
fn put_asked<'a, B: Allocator>(
    text: &mut String<&'a B>,
    nodes: &Names<&'a B>,
    consoles: &TextSet<&'a B>,
    actor: u16,
    act: &Act<&'a B>,
    alloc: &'a B,
) -> Result<(), Oom>
    ensures { OnOk result (string_bytes text.new ≡ string_bytes text.old ++
        asked_text (record { nodes = nodes.now; consoles = consoles.now }) actor (plain_act act.now)) }
{
    let mut line = String::new(alloc);
    let cast = CastRef { nodes, consoles };
    put_call(&mut line, &cast, actor, act)?;
    write!(text, "{{\"by\":{actor}")?;
    put_text_key(text, "line", line.as_str())
}

/// Makes a call on the bench, and appends the JSON object that tells of it.
#[tactic(auto, unfolding(crate::specs::PageData::call_text))]
fn put_act<'a, B: Allocator>(
    text: &mut String<&'a B>,
    bench: &mut Bench<'a, B>,
    consoles: &TextSet<&'a B>,
    actor: u16,
    act: &Act<&'a B>,
    alloc: &'a B,
) -> Result<(), Oom>
    ensures bench { OnOk result (bench.new ≡ after_act bench.old actor (plain_act act.now)) }
    ensures text { OnOk result (string_bytes text.new ≡ string_bytes text.old ++ call_text (cast_of bench.old consoles.now) bench.old actor
        (plain_act act.now)) }
{
    put_asked(text, bench.names(), consoles, actor, act, alloc)?;
    let before = Before::of(bench, actor, act, alloc)?;
    let put = put_outcome(text, bench, actor, act, &before, alloc);
    // form: drop before exit
    drop(before);
    put?;
    Ok(text.push_str("}")?)
}

/// Makes the recorded call at `place`, counted from 0, on the bench, and appends its JSON object, after a comma unless
/// `place` is 0.
pub fn put_event<'a, B: Allocator>(
    text: &mut String<&'a B>,
    bench: &mut Bench<'a, B>,
    consoles: &TextSet<&'a B>,
    place: usize,
    event: &Event<&'a B>,
    alloc: &'a B,
) -> Result<(), Oom>
    ensures bench { OnOk result (bench.new ≡ after_act bench.old event.now.actor event.now.act) }
    ensures text { OnOk result (string_bytes text.new ≡ string_bytes text.old ++ comma_at place ++
        call_text (cast_of bench.old consoles.now) bench.old event.now.actor event.now.act) }
{
    put_comma(text, place)?;
    put_act(text, bench, consoles, event.actor, &event.act, alloc)
}
