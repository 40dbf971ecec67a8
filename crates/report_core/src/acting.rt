//! Makes an act on a bench, and tells or prints what it came to.
ghost use Rattle.std.specs.Prelude.{◌≡◌, ◌++◌, OnOk, IfOk, None, string_bytes};
ghost use Rattle.journal_core.specs.Journals.{first_consequence};
ghost use Rattle.bench_core.specs.Acts.{plain_act};
ghost use Rattle.bench_core.specs.declared.reply.Reply.TheVariants.{Taken, Undone};
ghost use Rattle.report_core.specs.StepDiffs.{TellsStep, TellsUndo};
ghost use Rattle.report_core.specs.ActRows.{acted_text, joined_by, left_by, PutsActed};
ghost use Rattle.report_core.specs.ActTexts.{act_text, after_act, reply_of};

use crate::line::{Line, end, put_one_undone, put_taken};
use crate::rows::{put_both, put_lines, put_reply};
use crate::step_diffs::{none, put_step, step_diff, undo_diff};
use bench_core::{Act, Bench, Fault, Names, Reply};
use diff_core::Diff;
use dots_core::Oom;
use std::alloc::Allocator;

/// What an act came to: the bench's reply, and what the act changed.
#[derive(Drop)]
pub struct Acted<A: Allocator> {
    pub reply: Reply,
    /// How the act changed the online list of the node whose step it took or took back. No rows if the act was refused.
    pub change: Diff<A>,
}

/// Makes an act on the bench, and gives the reply. The reply `OutOfMemory` comes back as an error.
pub fn reply_of<'a, B: Allocator>(
    bench: &mut Bench<'a, B>,
    actor: u16,
    act: &Act<&'a B>,
) -> Result<Reply, Oom>
    ensures reply { IfOk result (λ reply. reply ≡ reply_of bench.old actor (plain_act act.now)) }
    ensures bench { OnOk result (bench.new ≡ after_act bench.old actor (plain_act act.now)) }
{
    let reply = bench.act(actor, act);
    if reply.same(Reply::Refused(Fault::OutOfMemory)) {
        return Err(Oom);
    }
    Ok(reply)
}

/// The change the other way round: what left joins, and what joined leaves.
fn turned<A: Allocator>(change: Diff<A>) -> Diff<A>
    ensures left { result.left.items ≡ change.joined.items }
    ensures joined { result.joined.items ≡ change.left.items }
{
    Diff {
        left: change.joined,
        joined: change.left,
    }
}

/// Makes an act, and tells what it came to. If the act undoes a step, `undone` says how that step had changed the
/// online list of its node.
fn come_to<'a, B: Allocator>(
    bench: &mut Bench<'a, B>,
    actor: u16,
    act: &Act<&'a B>,
    undone: Diff<&'a B>,
    alloc: &'a B,
) -> Result<Acted<&'a B>, Oom>
    requires { TellsUndo bench.old (plain_act act.now) undone.left.items undone.joined.items }
    ensures bench { OnOk result (bench.new ≡ after_act bench.old actor (plain_act act.now)) }
    ensures reply { IfOk result (λ acted. acted.reply ≡ reply_of bench.old actor (plain_act act.now)) }
    ensures left { IfOk result (λ acted. acted.change.left.items ≡ left_by bench.old actor (plain_act act.now)) }
    ensures joined { IfOk result (λ acted. acted.change.joined.items ≡ joined_by bench.old actor (plain_act act.now)) }
{
    // form: hands out what the bench keeps
    bench.bench_law();
    let reply = reply_of(bench, actor, act)?;
    let change = match reply {
        Reply::Taken(number) => step_diff(bench, number, alloc)?,
        Reply::Undone(_) => turned(undone),
        Reply::Refused(_) => none(alloc),
    };
    Ok(Acted { reply, change })
}

/// Makes an act, and gives the reply and how the act changed the online list of the node whose step it took or took
/// back.
pub fn ask<'a, B: Allocator>(
    bench: &mut Bench<'a, B>,
    alloc: &'a B,
    actor: u16,
    act: &Act<&'a B>,
) -> Result<Acted<&'a B>, Oom>
    ensures bench { OnOk result (bench.new ≡ after_act bench.old actor (plain_act act.now)) }
    ensures reply { IfOk result (λ acted. acted.reply ≡ reply_of bench.old actor (plain_act act.now)) }
    ensures left { IfOk result (λ acted. acted.change.left.items ≡ left_by bench.old actor (plain_act act.now)) }
    ensures joined { IfOk result (λ acted. acted.change.joined.items ≡ joined_by bench.old actor (plain_act act.now)) }
{
    let undone = undo_diff(bench, act, alloc)?;
    come_to(bench, actor, act, undone, alloc)
}

/// Appends the reply of `acted`, the rows that left the online list, and those that joined it.
#[tactic(auto, unfolding(crate::specs::ActRows::acted_text))]
pub fn put_acted<A: Allocator, N: Allocator, R: Allocator>(
    text: &mut String<A>,
    names: &Names<N>,
    acted: &Acted<R>,
) -> Result<(), Oom>
    ensures { OnOk result (string_bytes text.new ≡ string_bytes text.old ++
        acted_text names.now acted.now.reply acted.now.change.left.items acted.now.change.joined.items) }
{
    put_reply(text, acted.reply)?;
    put_lines(text, names, &acted.change.left, &acted.change.joined)
}

/// Appends the reply to a step that was taken, and how the step changed the online list of its node. The step must have
/// no consequence.
#[tactic(auto, unfolding(crate::specs::ActRows::acted_text))]
fn put_step_taken<'a, B: Allocator>(
    bench: &Bench<'a, B>,
    text: &mut String<&'a B>,
    number: u64,
    alloc: &'a B,
) -> Result<(), Oom>
    requires { first_consequence bench.now.state.remaining number ≡ None }
    ensures { OnOk result (PutsActed bench.now.names (Taken number) (string_bytes text.old) (string_bytes text.new) (TellsStep bench.now number)) }
{
    let mut line = Line::new();
    put_taken(&mut line, number);
    put_step(bench, text, &mut line, number, alloc)?;
    end(text, &line)
}

/// Appends the reply to the undo of a step, and how the undo changed the online list of the step's node. `undone` says
/// how the step had changed that list.
#[tactic(auto, unfolding(crate::specs::ActRows::acted_text))]
fn put_step_undone<A: Allocator, N: Allocator, R: Allocator>(
    text: &mut String<A>,
    names: &Names<N>,
    number: u64,
    undone: &Diff<R>,
) -> Result<(), Oom>
    ensures { OnOk result (string_bytes text.new ≡ string_bytes text.old ++
        acted_text names.now (Undone number) undone.now.joined.items undone.now.left.items) }
{
    let mut line = Line::new();
    put_one_undone(&mut line, number);
    put_both(text, &mut line, names, &undone.joined, &undone.left)?;
    end(text, &line)
}

/// Makes an act, and appends its reply and how it changed the online list of the node whose step it took or took back.
/// If it undoes a step, `undone` says how that step had changed the list.
fn put_come_to<'a, B: Allocator>(
    text: &mut String<&'a B>,
    bench: &mut Bench<'a, B>,
    actor: u16,
    act: &Act<&'a B>,
    undone: &Diff<&'a B>,
    alloc: &'a B,
) -> Result<(), Oom>
    requires { TellsUndo bench.old (plain_act act.now) undone.now.left.items undone.now.joined.items }
    ensures bench { OnOk result (bench.new ≡ after_act bench.old actor (plain_act act.now)) }
    ensures text { OnOk result (string_bytes text.new ≡ string_bytes text.old ++ act_text bench.old actor (plain_act act.now)) }
{
    // form: hands out what the bench keeps
    bench.bench_law();
    let reply = reply_of(bench, actor, act)?;
    match reply {
        Reply::Taken(number) => put_step_taken(bench, text, number, alloc),
        Reply::Undone(number) => put_step_undone(text, bench.names(), number, undone),
        Reply::Refused(_) => put_reply(text, reply),
    }
}

/// Makes an act, and appends its reply and how it changed the online list of the node whose step it took or took back.
pub fn act<'a, B: Allocator>(
    text: &mut String<&'a B>,
    alloc: &'a B,
    bench: &mut Bench<'a, B>,
    actor: u16,
    act: &Act<&'a B>,
) -> Result<(), Oom>
    ensures bench { OnOk result (bench.new ≡ after_act bench.old actor (plain_act act.now)) }
    ensures text { OnOk result (string_bytes text.new ≡ string_bytes text.old ++ act_text bench.old actor (plain_act act.now)) }
{
    let undone = undo_diff(bench, act, alloc)?;
    let put = put_come_to(text, bench, actor, act, &undone, alloc);
    // form: drop before exit
    drop(undone);
    put
}
