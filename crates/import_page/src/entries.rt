//! The events as JSON, in the order in which they are played.
ghost use Rattle.std.specs.Prelude.{◌≡◌, ◌++◌, ◌<◌, ℕ, List, OnOk, length, map, option_map, string_bytes};
ghost use Rattle.std.specs.List.{All};
ghost use Rattle.node_core.specs.Operations.{plain};
ghost use Rattle.import_core.specs.Notes.{note_of};
ghost use Rattle.import_report.specs.Events.{after_event, after_events, after_step, asked_by};
ghost use Rattle.import_report.specs.Scripts.{in_order};
ghost use Rattle.import_page.specs.Entries.{AreEntries, IsAskedTold, IsEntry, head_text, line_of, time_key, unsent_text};

use crate::rows::put_listed;
use crate::times::time_on;
use bench_core::{Act, Bench, Step};
use dots_core::Oom;
use import_core::{Import, Noted};
use import_report::{asked, play};
use page_data::{put_comma, put_number_key, put_text_key};
use std::alloc::{Allocator, Global};

/// The line with this number, counted from 1; empty if there are fewer lines.
fn line_of<'l>(lines: &[&'l [u8]], number: u64) -> &'l [u8]
    ensures { result.now ≡ line_of (map (λ line. line.now) lines.now) number }
{
    // form: saturating spares a requirement
    match lines.get(number.saturating_sub(1) as usize) {
        Some(line) => line,
        None => &[],
    }
}

/// Appends `,"time":"TIME"`, if the line has a time.
fn put_time<A: Allocator>(text: &mut String<A>, time: &Option<String>) -> Result<(), Oom>
    ensures { OnOk result (string_bytes text.new ≡ string_bytes text.old ++ time_key (option_map string_bytes time.now)) }
{
    match time {
        Some(time) => put_text_key(text, "time", time.as_str()),
        None => Ok(()),
    }
}

/// Appends `{"line":L,"time":"TIME"`, where L is `number`, with no `time` if the line has none, and with a comma in
/// front unless `place` is 0.
#[tactic(auto, unfolding(crate::specs::Entries::head_text))]
fn put_head<A: Allocator>(
    text: &mut String<A>,
    place: usize,
    number: u64,
    time: &Option<String>,
) -> Result<(), Oom>
    ensures { OnOk result (string_bytes text.new ≡ string_bytes text.old ++ head_text place number (option_map string_bytes time.now)) }
{
    put_comma(text, place)?;
    write!(text, "{{\"line\":{number}")?;
    put_time(text, time)
}

/// Appends `,"node":N,"unsent":true`, where N is `node`, for an event whose step can't be asked (see `asked` of
/// `import_report`).
#[tactic(auto, unfolding(crate::specs::Entries::unsent_text))]
fn put_unsent<A: Allocator>(text: &mut String<A>, node: u16) -> Result<(), Oom>
    ensures { OnOk result (string_bytes text.new ≡ string_bytes text.old ++ unsent_text node) }
{
    put_number_key(text, "node", node as u64)?;
    Ok(text.push_str(",\"unsent\":true")?)
}

/// Plays the step of an event on the bench, and notes in `numbers` what the step sent, as `play` does. Drops the reply.
#[tactic(auto, unfolding(import_report::specs::Events::after_step))]
fn ask<'a, B: Allocator>(
    bench: &mut Bench<'a, B>,
    numbers: &mut [u64],
    note: &Noted<&'a B>,
    step: Step<&'a B>,
) -> Result<(), Oom>
    ensures bench { OnOk result (bench.new ≡
        (after_step (record { machine = bench.old; numbers = numbers.old }) note.now.logged.node note.now.logged.sends (plain step.entry)).machine) }
    ensures numbers { OnOk result (numbers.new ≡
        (after_step (record { machine = bench.old; numbers = numbers.old }) note.now.logged.node note.now.logged.sends (plain step.entry)).numbers) }
{
    let act = Act::Do(step);
    let played = play(bench, numbers, note.logged.node, note.logged.sends, &act);
    // form: drop before exit
    drop(act);
    match played {
        Ok(_reply) => Ok(()),
        Err(oom) => Err(oom),
    }
}

/// Plays an event, and appends what the event tells besides its call. An event that lists rows tells the rows that only
/// the bench's list has, and those that only the event's list has. An event whose step can't be asked (see `asked`)
/// tells that it is unsent. Both leave the bench and `numbers` unchanged. Other events tell nothing.
#[tactic(auto, unfolding(import_report::specs::Events::after_event))]
fn put_told<'a, B: Allocator>(
    bench: &mut Bench<'a, B>,
    text: &mut String<&'a B>,
    numbers: &mut [u64],
    note: &Noted<&'a B>,
    alloc: &'a B,
) -> Result<(), Oom>
    ensures told { OnOk result ((told : List ℕ) × (string_bytes text.new ≡ string_bytes text.old ++ told)
        × IsAskedTold bench.old (note_of note.now) (asked_by numbers.old (note_of note.now).step) told) }
    ensures bench { OnOk result (bench.new ≡ (after_event (record { machine = bench.old; numbers = numbers.old }) (note_of note.now)).machine) }
    ensures numbers { OnOk result (numbers.new ≡ (after_event (record { machine = bench.old; numbers = numbers.old }) (note_of note.now)).numbers) }
{
    let Some(step) = &note.step else {
        return put_listed(bench, text, note, alloc);
    };
    match asked(step, numbers)? {
        Some(step) => ask(bench, numbers, note, step),
        None => put_unsent(text, note.logged.node),
    }
}

/// What the events of logs make while they are played.
#[derive(Drop)]
pub(crate) struct Playback<'a, B: Allocator> {
    /// The bench on which they are played.
    pub(crate) bench: Bench<'a, B>,
    /// The number of each message in its sender's outbox, as in `play`.
    pub(crate) numbers: Vec<u64, &'a B>,
    /// The JSON objects of the events, separated by commas.
    pub(crate) entries: String<&'a B>,
}

/// Plays the event that is at `place` in the order, and appends its JSON object: its line number, its time if its line
/// has one, and what it tells (see `put_told`), with a comma in front unless `place` is 0.
fn put_entry<'a, B: Allocator>(
    playback: &mut Playback<'a, B>,
    heap: Global,
    lines: &[&[u8]],
    place: usize,
    note: &Noted<&'a B>,
    alloc: &'a B,
) -> Result<(), Oom>
    ensures told { OnOk result ((told : List ℕ) × (string_bytes playback.new.entries ≡ string_bytes playback.old.entries ++ told)
        × IsEntry (map (λ line. line.now) lines.now) (record { machine = playback.old.bench; numbers = playback.old.numbers.items })
        place (note_of note.now) told) }
    ensures bench { OnOk result (playback.new.bench ≡
        (after_event (record { machine = playback.old.bench; numbers = playback.old.numbers.items }) (note_of note.now)).machine) }
    ensures numbers { OnOk result (playback.new.numbers.items ≡
        (after_event (record { machine = playback.old.bench; numbers = playback.old.numbers.items }) (note_of note.now)).numbers) }
{
    let Playback {
        bench,
        numbers,
        entries,
    } = playback;
    let time = time_on(heap, line_of(lines, note.number))?;
    put_head(entries, place, note.number, &time)?;
    put_told(bench, entries, numbers, note, alloc)?;
    Ok(entries.push_str("}")?)
}

/// Plays the events of an import in their order, and appends the JSON object of each (see `put_entry`). `lines` are
/// those of the logs.
pub(crate) fn put_entries<'a, B: Allocator>(
    playback: &mut Playback<'a, B>,
    heap: Global,
    lines: &[&[u8]],
    import: &Import<&'a B>,
    alloc: &'a B,
) -> Result<(), Oom>
    requires { All (λ place. place < length import.now.notes.items) import.now.order.items }
    ensures told { OnOk result ((told : List ℕ) × (string_bytes playback.new.entries ≡ string_bytes playback.old.entries ++ told)
        × AreEntries (map (λ line. line.now) lines.now) (record { machine = playback.old.bench; numbers = playback.old.numbers.items }) 0
        (in_order (map note_of import.now.notes.items) import.now.order.items) told) }
    ensures bench { OnOk result (playback.new.bench ≡
        (after_events (record { machine = playback.old.bench; numbers = playback.old.numbers.items })
        (in_order (map note_of import.now.notes.items) import.now.order.items)).machine) }
{
    for (index, place) in import.order.iter().enumerate() {
        let note = &import.notes[*place];
        put_entry(playback, heap, lines, index, note, alloc)?;
    }
    Ok(())
}
