//! Tells where the bench and the real nodes part, event by event.
ghost use Rattle.std.specs.Prelude.{◌≡◌, ◌++◌, ◌<◌, ◌==◌, ℕ, Bool, List, IfOk, OnOk, length, map, not, string_bytes};
ghost use Rattle.std.specs.List.{All};
ghost use Rattle.node_core.specs.Operations.{plain};
ghost use Rattle.bench_core.specs.Acts.{Do};
ghost use Rattle.report_core.specs.ActTexts.{reply_of};
ghost use Rattle.report_core.specs.Shown.{rows_at};
ghost use Rattle.import_core.specs.Notes.{note_of};
ghost use Rattle.import_report.specs.Checks.{AreChecked, IsEventChecked, IsListChecked, agree_line, list_text, place_text, refusal_text, unsent_text};
ghost use Rattle.import_report.specs.Events.{after_event, after_step};
ghost use Rattle.import_report.specs.Scripts.{in_order};

use crate::events::play;
use crate::numbers::asked;
use bench_core::{Act, Bench, Names, Reply, Step};
use diff_core::OnlineRow;
use dots_core::Oom;
use import_core::{Import, Noted};
use listed_core::compared;
use report_core::{name_at, put_lines, rows_at};
use std::alloc::Allocator;

/// Appends `line L NODE`, where L is the number of the event's line in the logs, without a line feed.
#[tactic(auto, unfolding(crate::specs::Checks::place_text))]
fn put_place<A: Allocator, N: Allocator, W: Allocator>(
    text: &mut String<A>,
    names: &Names<N>,
    note: &Noted<W>,
) -> Result<(), Oom>
    ensures { OnOk result (string_bytes text.new ≡ string_bytes text.old ++ place_text names.now (note_of note.now)) }
{
    let number = note.number;
    let node = name_at(names, note.logged.node);
    Ok(write!(text, "line {number} {node}")?)
}

/// Appends the line `line L NODE`, then the rows that only the bench has (`ours`), and then those that only the real
/// node listed (`theirs`). Appends nothing if there are no such rows.
#[tactic(auto, unfolding(crate::specs::Checks::list_text))]
fn put_list<A: Allocator, N: Allocator, W: Allocator>(
    text: &mut String<A>,
    names: &Names<N>,
    note: &Noted<W>,
    ours: &[OnlineRow<W>],
    theirs: &[OnlineRow<W>],
) -> Result<(), Oom>
    ensures { OnOk result (string_bytes text.new ≡ string_bytes text.old ++ list_text names.now (note_of note.now) ours.now theirs.now) }
{
    if ours.is_empty() && theirs.is_empty() {
        return Ok(());
    }
    put_place(text, names, note)?;
    text.push_str("\n")?;
    put_lines(text, names, ours, theirs)
}

/// Compares the list that a real node listed (in `note`) with the bench's list of that node, whatever the clocks.
/// Appends where the two lists part, and says whether they agree.
fn check_list<'a, B: Allocator>(
    bench: &Bench<'a, B>,
    text: &mut String<&'a B>,
    note: &Noted<&'a B>,
    alloc: &'a B,
) -> Result<bool, Oom>
    ensures { IfOk result (λ agrees. (now : List ℕ) × (string_bytes text.new ≡ string_bytes text.old ++ now)
        × IsListChecked bench.now.names (note_of note.now) (rows_at bench.now note.now.logged.node) agrees now) }
{
    let rows = rows_at(bench, note.logged.node, alloc)?;
    let found = compared(alloc, &note.rows, &rows);
    // form: drop before exit
    drop(rows);
    let found = found?;
    let agrees = found.joined.is_empty() && found.left.is_empty();
    let put = put_list(text, bench.names(), note, &found.joined, &found.left);
    drop(found);
    put?;
    Ok(agrees)
}

/// Tells of an event whose step can't be asked (see `asked`): appends `line L NODE no message`, and a line feed.
#[tactic(auto, unfolding(crate::specs::Checks::unsent_text))]
fn put_unsent<A: Allocator, N: Allocator, W: Allocator>(
    text: &mut String<A>,
    names: &Names<N>,
    note: &Noted<W>,
) -> Result<(), Oom>
    ensures { OnOk result (string_bytes text.new ≡ string_bytes text.old ++ unsent_text names.now (note_of note.now)) }
{
    put_place(text, names, note)?;
    Ok(text.push_str(" no message\n")?)
}

/// Appends `line L NODE no FAULT`, and a line feed, if the reply is a refusal.
#[tactic(auto, unfolding(crate::specs::Checks::refusal_text))]
fn put_refusal<A: Allocator, N: Allocator, W: Allocator>(
    text: &mut String<A>,
    names: &Names<N>,
    note: &Noted<W>,
    reply: Reply,
) -> Result<(), Oom>
    ensures { OnOk result (string_bytes text.new ≡ string_bytes text.old ++ refusal_text names.now (note_of note.now) reply) }
{
    let Reply::Refused(fault) = reply else {
        return Ok(());
    };
    put_place(text, names, note)?;
    Ok(writeln!(text, " no {fault}")?)
}

/// Plays the step of an event (see `play`), and appends its refusal, if it is refused.
#[tactic(auto, unfolding(crate::specs::Events::after_step))]
fn check_step<'a, B: Allocator>(
    bench: &mut Bench<'a, B>,
    text: &mut String<&'a B>,
    numbers: &mut [u64],
    note: &Noted<&'a B>,
    step: Step<&'a B>,
) -> Result<(), Oom>
    ensures text { OnOk result (string_bytes text.new ≡ string_bytes text.old ++ refusal_text bench.old.names (note_of note.now)
        (reply_of bench.old note.now.logged.node (Do (plain step.entry)))) }
    ensures bench { OnOk result (bench.new ≡
        (after_step (record { machine = bench.old; numbers = numbers.old }) note.now.logged.node note.now.logged.sends (plain step.entry)).machine) }
    ensures numbers { OnOk result (numbers.new ≡
        (after_step (record { machine = bench.old; numbers = numbers.old }) note.now.logged.node note.now.logged.sends (plain step.entry)).numbers) }
{
    let act = Act::Do(step);
    let played = play(bench, numbers, note.logged.node, note.logged.sends, &act);
    // form: drop before exit
    drop(act);
    put_refusal(text, bench.names(), note, played?)
}

/// Checks an event. If it has a step, plays the step, and appends the refusal, if there is one; or appends that the
/// step can't be asked. If the event lists rows, compares its list with the bench's, appends where the two part, and
/// adds to `agreements` whether they agree.
#[tactic(auto, unfolding(crate::specs::Checks::IsEventChecked, crate::specs::Events::after_event))]
fn check_event<'a, B: Allocator>(
    bench: &mut Bench<'a, B>,
    text: &mut String<&'a B>,
    agreements: &mut Vec<bool, &'a B>,
    numbers: &mut [u64],
    note: &Noted<&'a B>,
    alloc: &'a B,
) -> Result<(), Oom>
    ensures told { OnOk result ((here : List Bool) × (now : List ℕ) × (agreements.new.items ≡ agreements.old.items ++ here)
        × (string_bytes text.new ≡ string_bytes text.old ++ now)
        × IsEventChecked bench.old.names (record { machine = bench.old; numbers = numbers.old }) (note_of note.now) here now) }
    ensures bench { OnOk result (bench.new ≡ (after_event (record { machine = bench.old; numbers = numbers.old }) (note_of note.now)).machine) }
    ensures numbers { OnOk result (numbers.new ≡ (after_event (record { machine = bench.old; numbers = numbers.old }) (note_of note.now)).numbers) }
{
    let Some(step) = &note.step else {
        let agrees = check_list(bench, text, note, alloc)?;
        agreements.push(agrees)?;
        return Ok(());
    };
    match asked(step, numbers)? {
        Some(step) => check_step(bench, text, numbers, note, step),
        None => put_unsent(text, bench.names(), note),
    }
}

/// Checks the events of an import in their order (see `check_event`).
fn check_events<'a, B: Allocator>(
    bench: &mut Bench<'a, B>,
    text: &mut String<&'a B>,
    agreements: &mut Vec<bool, &'a B>,
    numbers: &mut [u64],
    import: &Import<&'a B>,
    alloc: &'a B,
) -> Result<(), Oom>
    requires { All (λ place. place < length import.now.notes.items) import.now.order.items }
    ensures { OnOk result ((found : List Bool) × (told : List ℕ) × (agreements.new.items ≡ agreements.old.items ++ found)
        × (string_bytes text.new ≡ string_bytes text.old ++ told)
        × AreChecked bench.old.names (record { machine = bench.old; numbers = numbers.old })
        (in_order (map note_of import.now.notes.items) import.now.order.items) found told) }
{
    for place in &import.order {
        let note = &import.notes[*place];
        check_event(bench, text, agreements, numbers, note, alloc)?;
    }
    Ok(())
}

/// Appends `agree K of N`, and a line feed: of the N lists that were compared K agree.
#[tactic(auto, unfolding(crate::specs::Checks::agree_line))]
fn put_agree<A: Allocator>(text: &mut String<A>, agreements: &[bool]) -> Result<(), Oom>
    ensures { OnOk result (string_bytes text.new ≡ string_bytes text.old ++ agree_line agreements.now) }
{
    let agree = agreements.iter().filter(|agrees| **agrees).count();
    let all = agreements.len();
    Ok(writeln!(text, "agree {agree} of {all}")?)
}

/// Checks the events of an import in their order, appends where the bench and the real nodes part and how many lists
/// agree, and says whether bench and nodes part anywhere. The text must be empty. `numbers` is as in `play`.
pub(crate) fn checked<'a, B: Allocator>(
    bench: &mut Bench<'a, B>,
    text: &mut String<&'a B>,
    numbers: &mut [u64],
    import: &Import<&'a B>,
    alloc: &'a B,
) -> Result<bool, Oom>
    requires empty { length (string_bytes text.old) ≡ 0 }
    requires places { All (λ place. place < length import.now.notes.items) import.now.order.items }
    ensures { IfOk result (λ differs. (agreements : List Bool) × (told : List ℕ)
        × AreChecked bench.old.names (record { machine = bench.old; numbers = numbers.old })
        (in_order (map note_of import.now.notes.items) import.now.order.items) agreements told
        × (string_bytes text.new ≡ told ++ agree_line agreements) × (differs ≡ not (length told == 0))) }
{
    let mut agreements = Vec::new(alloc);
    check_events(bench, text, &mut agreements, numbers, import, alloc)?;
    let differs = !text.is_empty();
    put_agree(text, &agreements)?;
    Ok(differs)
}
