//! Draws the message, the mark and the words of each recorded call.
ghost use Rattle.std.specs.Prelude.{◌≡◌, ◌++◌, OnOk, string_bytes};
ghost use Rattle.node_core.specs.Operations.{plain};
ghost use Rattle.journal_core.specs.Holdings.{kepts};
ghost use Rattle.svg_core.specs.Trees.{text_of};
ghost use Rattle.bench_core.specs.Acts.{plain_act};
ghost use Rattle.report_core.specs.StepDiffs.{asked_undo};
ghost use Rattle.picture_core.specs.Rows.{lane_of, looks, mark_at, message_between, message_of, message_to, node_changed, node_undone, number_by, row_tree};

use crate::call::Call;
use crate::kind::Kind;
use crate::shade::{Drawn, step_at};
use crate::shapes::{Arrow, CallMark, put_mark, put_message, put_number_label, put_words_label};
use crate::sheet::Sheet;
use bench_core::{Act, Bench, Event, Journal, Reply, Step};
use dots_core::Oom;
use report_core::{asked_undo, node_of_step};
use std::alloc::Allocator;
use transcript_core::sender_of;

/// Appends the message from step `source` of the node `sender` to step `number`, whose row and node are `to`. Appends
/// nothing if the sheet's range doesn't show the message.
#[tactic(auto, using(crate::proofs::Texts::nothing_end))]
fn put_between<'a, A: Allocator, B: Allocator>(
    text: &mut String<A>,
    sheet: &Sheet<'a, '_, B>,
    to: (u32, u16),
    number: u64,
    sender: u16,
    source: u64,
) -> Result<(), Oom>
    ensures { OnOk result (string_bytes text.new ≡ string_bytes text.old ++
        text_of (message_between sheet.now.nodes sheet.now.steps.now sheet.now.range to.0 number to.1 sender (Some source))) }
{
    let sent = step_at(sheet.steps, source);
    let taken = step_at(sheet.steps, number);
    let (row, node) = to;
    if !sheet.range.shows(sent.row, row) {
        return Ok(());
    }
    let kind = Kind::of(taken.shade.of_message(sent.shade));
    let arrow = Arrow {
        from: (sent.row, u32::from(sender)),
        to: (row, u32::from(node)),
        source,
        number,
    };
    put_message(text, sheet.nodes, kind, arrow, sheet.alloc)
}

/// Appends the message that a step delivers, if it delivers one and the range shows the message. `to` is the row and
/// the node of the step, and `remaining` are the steps that remained before that step.
#[tactic(auto, using(crate::proofs::Texts::nothing_end), unfolding(crate::specs::Rows::message_to))]
fn put_message_to<'a, A: Allocator, B: Allocator>(
    remaining: &Journal<'a, B>,
    text: &mut String<A>,
    sheet: &Sheet<'a, '_, B>,
    to: (u32, u16),
    number: u64,
    step: &Step<&'a B>,
) -> Result<(), Oom>
    ensures { OnOk result (string_bytes text.new ≡ string_bytes text.old ++
        text_of (message_to sheet.now.nodes sheet.now.steps.now sheet.now.range to.0 number to.1 (kepts remaining.now.steps) (plain step.now))) }
{
    let Some((sender, message)) = step.delivers() else {
        return Ok(());
    };
    let Some(source) = sender_of(remaining, sender, message) else {
        return Ok(());
    };
    put_between(text, sheet, to, number, sender, source)
}

/// Appends the message that the step of a recorded call delivers. Appends nothing if the call took no step, its step
/// delivers nothing, or the range doesn't show the message. `remaining` are the steps that remained before the call.
#[tactic(auto, using(crate::proofs::Texts::nothing_end), unfolding(crate::specs::Rows::message_of))]
pub fn put_message_of<'a, A: Allocator, B: Allocator>(
    remaining: &Journal<'a, B>,
    text: &mut String<A>,
    sheet: &Sheet<'a, '_, B>,
    row: u32,
    event: &Event<&'a B>,
) -> Result<(), Oom>
    ensures { OnOk result (string_bytes text.new ≡ string_bytes text.old ++
        text_of (message_of sheet.now.nodes sheet.now.steps.now sheet.now.range (kepts remaining.now.steps) row event.now)) }
{
    match event.reply {
        Reply::Taken(number) => match &event.act {
            Act::Do(step) => {
                let to = (row, event.actor);
                put_message_to(remaining, text, sheet, to, number, step)
            }
            Act::Undo(_) | Act::Back(_) => Ok(()),
        },
        Reply::Refused(_) | Reply::Undone(_) => Ok(()),
    }
}

/// How a call looks: as its step's `Shade` says, if the call took a step; else `Back` if it took one back, and
/// `Refused` if it was refused.
#[tactic(auto, unfolding(crate::specs::Rows::looks))]
fn looks(steps: &[Drawn], reply: Reply) -> Kind
    ensures { result ≡ looks steps.now reply }
{
    match reply {
        Reply::Taken(number) => Kind::of(step_at(steps, number).shade),
        Reply::Undone(_) => Kind::Back,
        Reply::Refused(_) => Kind::Refused,
    }
}

/// The node of the step that an act asks to take back: the step of an undo, or for a back the last step of a node.
/// `None` if the act is a step, or no such step remains.
pub fn node_undone<'a, B: Allocator>(bench: &Bench<'a, B>, act: &Act<&'a B>) -> Option<u16>
    ensures { result ≡ node_undone bench.now (asked_undo bench.now (plain_act act.now)) }
{
    match asked_undo(bench, act) {
        Some(number) => node_of_step(bench, number),
        None => None,
    }
}

/// The node that a call changed: the actor, if the call took a step, or `undone`, the node of the step that the call
/// took back. `None` if the call was refused.
pub fn node_changed(actor: u16, reply: Reply, undone: Option<u16>) -> Option<u16>
    ensures { result ≡ node_changed actor reply undone }
{
    match reply {
        Reply::Taken(_) => Some(actor),
        Reply::Undone(_) => undone,
        Reply::Refused(_) => None,
    }
}

/// The node on whose lane the mark of a call stands: `changed`, the node that the call changed, or the actor, if the
/// call was refused. `None` if the call was refused and the actor isn't a node.
pub fn lane_of(nodes: u32, actor: u16, reply: Reply, changed: Option<u16>) -> Option<u16>
    ensures { result ≡ lane_of nodes actor reply changed }
{
    match reply {
        Reply::Taken(_) | Reply::Undone(_) => changed,
        Reply::Refused(_) => {
            if u32::from(actor) < nodes {
                Some(actor)
            } else {
                None
            }
        }
    }
}

/// Appends the mark of a call on the lane of `node`; nothing without a node.
#[tactic(auto, using(crate::proofs::Texts::nothing_end))]
fn put_mark_at<'a, A: Allocator, B: Allocator>(
    text: &mut String<A>,
    nodes: u32,
    sign: CallMark<'_>,
    node: Option<u16>,
    alloc: &'a B,
) -> Result<(), Oom>
    ensures { OnOk result (string_bytes text.new ≡ string_bytes text.old ++
        text_of (mark_at nodes sign.entry.row sign.entry.kind sign.entry.title.now node)) }
{
    match node {
        Some(node) => put_mark(text, nodes, u32::from(node), sign, alloc),
        None => Ok(()),
    }
}

/// Appends the number of the step that a call took, if it took one.
#[tactic(auto, using(crate::proofs::Texts::nothing_end))]
fn put_number_by<A: Allocator>(text: &mut String<A>, row: u32, reply: Reply) -> Result<(), Oom>
    ensures { OnOk result (string_bytes text.new ≡ string_bytes text.old ++ text_of (number_by row reply)) }
{
    match reply {
        Reply::Taken(number) => put_number_label(text, row, number),
        Reply::Undone(_) | Reply::Refused(_) => Ok(()),
    }
}

/// Appends what stands in a call's row: the number of the step, if the call took one; the mark on the lane of the node
/// `lane`, unless that is `None`; and the words.
pub fn put_row<'a, A: Allocator, B: Allocator>(
    text: &mut String<A>,
    sheet: &Sheet<'a, '_, B>,
    call: &Call<'a, '_, B>,
    lane: Option<u16>,
    title: &str,
    words: &str,
) -> Result<(), Oom>
    ensures { OnOk result (string_bytes text.new ≡ string_bytes text.old ++
        text_of (row_tree sheet.now.nodes sheet.now.steps.now lane call.now.row call.now.event.now.reply title.now words.now)) }
{
    let event = call.event;
    let row = call.row;
    let reply = event.reply;
    let kind = looks(sheet.steps, reply);
    let sign = CallMark { row, kind, title };
    put_number_by(text, row, reply)?;
    put_mark_at(text, sheet.nodes, sign, lane, sheet.alloc)?;
    put_words_label(text, sheet.nodes, row, kind, words)
}
