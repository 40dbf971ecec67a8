//! Plays an event on the bench, and makes its lines in the script.
ghost use Rattle.std.specs.Prelude.{◌≡◌, ◌++◌, OnOk, IfOk, codes, string_bytes};
ghost use Rattle.node_core.specs.Operations.{plain};
ghost use Rattle.bench_core.specs.Acts.{plain_act};
ghost use Rattle.report_core.specs.ActTexts.{after_act, reply_of};
ghost use Rattle.report_core.specs.Rows.{name_at};
ghost use Rattle.report_core.specs.StepText.{act_line};
ghost use Rattle.import_core.specs.Notes.{note_of};
ghost use Rattle.import_report.specs.Events.{after_step, after_event, event_line, numbers_after, ended, mark_line, mark_text, event_text};

use crate::numbers::{asked, note_sent};
use bench_core::{Act, Bench, Names, Reply, Step};
use dots_core::Oom;
use import_core::Noted;
use report_core::{name_at, put_act, reply_of};
use std::alloc::Allocator;

/// Appends `show NODE`, and a line feed.
fn put_show<A: Allocator, N: Allocator>(
    text: &mut String<A>,
    names: &Names<N>,
    node: u16,
) -> Result<(), Oom>
    ensures { OnOk result (string_bytes text.new ≡ string_bytes text.old ++ ended (codes "show " ++ name_at names.now node)) }
{
    let node = name_at(names, node);
    Ok(writeln!(text, "show {node}")?)
}

/// Appends `# line L`, where L is `number`, without a line feed.
fn put_number<A: Allocator>(text: &mut String<A>, number: u64) -> Result<(), Oom>
    ensures { OnOk result (string_bytes text.new ≡ string_bytes text.old ++ mark_line number) }
{
    Ok(write!(text, "# line {number}")?)
}

/// Appends the comment that stands for an event whose step can't be asked (see `asked`).
fn put_unsent<A: Allocator>(text: &mut String<A>, number: u64) -> Result<(), Oom>
    ensures { OnOk result (string_bytes text.new ≡ string_bytes text.old ++ ended (mark_line number ++ codes ": its message was not sent")) }
{
    Ok(writeln!(text, "# line {number}: its message was not sent")?)
}

/// Appends `NODE VERB ..`, the line of the step in a script, and a line feed.
fn put_step<A: Allocator, N: Allocator, W: Allocator>(
    text: &mut String<A>,
    names: &Names<N>,
    node: u16,
    step: &Step<W>,
) -> Result<(), Oom>
    ensures { OnOk result (string_bytes text.new ≡ string_bytes text.old ++ ended (act_line names.now node (plain step.now))) }
{
    put_act(text, names, node, step)?;
    Ok(text.push_str("\n")?)
}

/// Asks the bench `act`, with `node` as the actor, and gives the reply; the reply `OutOfMemory` is an error. If the
/// bench took a step, and `sends` is the message that the step sends, notes in `numbers` the message's number in the
/// node's outbox.
#[tactic(auto, unfolding(crate::specs::Events::after_step))]
pub fn play<'a, B: Allocator>(
    bench: &mut Bench<'a, B>,
    numbers: &mut [u64],
    node: u16,
    sends: Option<usize>,
    act: &Act<&'a B>,
) -> Result<Reply, Oom>
    ensures reply { IfOk result (λ reply. reply ≡ reply_of bench.old node (plain_act act.now)) }
    ensures bench { OnOk result (bench.new ≡ after_act bench.old node (plain_act act.now)) }
    ensures numbers { OnOk result (numbers.new ≡ numbers_after (after_act bench.old node (plain_act act.now)) numbers.old node sends
        (reply_of bench.old node (plain_act act.now))) }
{
    let reply = reply_of(bench, node, act)?;
    note_sent(bench, numbers, node, sends, reply);
    Ok(reply)
}

/// Appends the line of an event's step, and plays the step (see `play`).
#[tactic(auto, unfolding(crate::specs::Events::after_step))]
fn put_played<'a, B: Allocator>(
    text: &mut String<&'a B>,
    bench: &mut Bench<'a, B>,
    numbers: &mut [u64],
    node: u16,
    sends: Option<usize>,
    step: Step<&'a B>,
) -> Result<(), Oom>
    ensures text { OnOk result (string_bytes text.new ≡ string_bytes text.old ++ ended (act_line bench.old.names node (plain step.entry))) }
    ensures bench { OnOk result (bench.new ≡ (after_step (record { machine = bench.old; numbers = numbers.old }) node sends (plain step.entry)).machine) }
    ensures numbers { OnOk result (numbers.new ≡ (after_step (record { machine = bench.old; numbers = numbers.old }) node sends (plain step.entry)).numbers) }
{
    put_step(text, bench.names(), node, &step)?;
    let act = Act::Do(step);
    let played = play(bench, numbers, node, sends, &act);
    // form: drop before exit
    drop(act);
    match played {
        Ok(_reply) => Ok(()),
        Err(oom) => Err(oom),
    }
}

/// Plays an event, and appends its line: a step, `show` for an event that lists rows, or a comment if the step can't be
/// asked (see `asked`).
#[tactic(auto, unfolding(crate::specs::Events::event_line, crate::specs::Events::after_event))]
fn put_event<'a, B: Allocator>(
    text: &mut String<&'a B>,
    bench: &mut Bench<'a, B>,
    numbers: &mut [u64],
    note: &Noted<&'a B>,
) -> Result<(), Oom>
    ensures text { OnOk result (string_bytes text.new ≡ string_bytes text.old ++
        ended (event_line bench.old.names (record { machine = bench.old; numbers = numbers.old }) (note_of note.now))) }
    ensures bench { OnOk result (bench.new ≡ (after_event (record { machine = bench.old; numbers = numbers.old }) (note_of note.now)).machine) }
    ensures numbers { OnOk result (numbers.new ≡ (after_event (record { machine = bench.old; numbers = numbers.old }) (note_of note.now)).numbers) }
{
    let node = note.logged.node;
    let Some(step) = &note.step else {
        return put_show(text, bench.names(), node);
    };
    let Some(step) = asked(step, numbers)? else {
        return put_unsent(text, note.number);
    };
    put_played(text, bench, numbers, node, note.logged.sends, step)
}

/// Appends `# line L`, where L is `number`, and a line feed; nothing if `told` is false.
fn put_mark<A: Allocator>(text: &mut String<A>, told: bool, number: u64) -> Result<(), Oom>
    ensures { OnOk result (string_bytes text.new ≡ string_bytes text.old ++ mark_text told number) }
{
    if !told {
        return Ok(());
    }
    put_number(text, number)?;
    Ok(text.push_str("\n")?)
}

/// If `told` is true, appends `# line L`, where L is the event's line number in the logs. Then plays the event and
/// appends its line (see `put_event`).
#[tactic(auto, unfolding(crate::specs::Events::event_text))]
pub(crate) fn put_lines<'a, B: Allocator>(
    text: &mut String<&'a B>,
    bench: &mut Bench<'a, B>,
    numbers: &mut [u64],
    told: bool,
    note: &Noted<&'a B>,
) -> Result<(), Oom>
    ensures text { OnOk result (string_bytes text.new ≡ string_bytes text.old ++ event_text told bench.old.names
        (record { machine = bench.old; numbers = numbers.old }) (note_of note.now)) }
    ensures bench { OnOk result (bench.new ≡ (after_event (record { machine = bench.old; numbers = numbers.old }) (note_of note.now)).machine) }
    ensures numbers { OnOk result (numbers.new ≡ (after_event (record { machine = bench.old; numbers = numbers.old }) (note_of note.now)).numbers) }
{
    put_mark(text, told, note.number)?;
    put_event(text, bench, numbers, note)
}
