//! Makes the notes of the events of logs.
ghost use Rattle.std.specs.Prelude.{◌≡◌, ◌^◌, ◌<◌, ◌≤◌, ◌++◌, ◌∷◌, [], Err, length, map, IfOk, IfErr, OnOk, option_map};
ghost use Rattle.dots_core.specs.Names.{most_names};
ghost use Rattle.node_core.specs.Operations.{plain};
ghost use Rattle.log_core.specs.Views.{line as shown_line};
ghost use Rattle.import_core.specs.Tables.{Keeps, all_of};
ghost use Rattle.import_core.specs.Notes.{IsNoteOf, note_of, awaited};
ghost use Rattle.import_core.specs.Imports.{AddsNote, AreNoted, IsNoted};
ghost use Rattle.import_core.specs.Seen.{HasTooMany, SeesNodes, names_if, names_in, names_on, said};
ghost use Rattle.import_core.specs.Sights.{SeesValues, pids_in, pids_of, pids_on, words_in, words_of, words_on};
ghost use Rattle.import_core.specs.Faults.{IsWrong, IsLineFault};

use crate::fault::{FaultKind, ImportFault};
use crate::note_fault::NoteFault;
use crate::noting::{sent_by, step_for};
use crate::rows::listed_for;
use crate::tables::Tables;
use bench_core::Step;
use diff_core::OnlineRow;
use dots_core::{MOST_NAMES, Oom};
use event_order::Logged;
use log_core::{LogLine, line_at, value_of_line};
use std::alloc::{Allocator, Global};

/// A note of an event: the number of its line, what an order needs to know of the event, the step that stands for it,
/// if there is one, and the rows that the event lists. Messages have the numbers of the tables, not those of an outbox.
#[derive(Drop)]
pub struct Noted<A: Allocator> {
    pub number: u64,
    pub logged: Logged,
    pub step: Option<Step<A>>,
    pub rows: Vec<OnlineRow<A>, A>,
}

/// The number, in the tables, of the message that a step takes; `None` if there is no step, or it takes no message.
fn awaited<A: Allocator>(step: &Option<Step<A>>) -> Option<usize>
    ensures { result ≡ awaited (option_map plain step.now) }
{
    match step {
        Some(step) => match step.delivers() {
            Some((_, message)) => Some(message as usize),
            None => None,
        },
        None => None,
    }
}

/// The note of an event. In the tables, new nodes, processes and messages, and new values whose words must be cut, get
/// numbers.
fn note_for<A: Allocator + Copy>(
    heap: Global,
    alloc: A,
    tables: &mut Tables<A>,
    number: u64,
    line: &LogLine<'_>,
) -> Result<Noted<A>, NoteFault>
    ensures note { IfOk result (λ n. IsNoteOf (all_of tables.new) (record { number = number; line = shown_line line.now }) (note_of n)) }
    ensures seen { OnOk result (SeesNodes (all_of tables.old) (all_of tables.new) (names_in (shown_line line.now))) }
    ensures extends { Keeps (all_of tables.old) (all_of tables.new) }
    ensures values { OnOk result (SeesValues (all_of tables.old) (all_of tables.new)
        (pids_in (shown_line line.now).event) (words_in (shown_line line.now).event)) }
    ensures many { result ≡ Err NoteFault.TooManyNodes → HasTooMany (all_of tables.old) (names_in (shown_line line.now)) }
{
    let node = tables.node(line.node)?;
    let sends = sent_by(heap, tables, node, &line.event)?;
    let step = step_for(heap, alloc, tables, &line.event)?;
    let rows = listed_for(heap, alloc, tables, &line.event)?;
    let waits = awaited(&step);
    Ok(Noted {
        number,
        logged: Logged { node, waits, sends },
        step,
        rows,
    })
}

/// Like `note_for`, but also makes sure that the tables have at most 32 nodes.
fn note_of_event<A: Allocator + Copy>(
    heap: Global,
    alloc: A,
    tables: &mut Tables<A>,
    number: u64,
    line: &LogLine<'_>,
) -> Result<Noted<A>, NoteFault>
    ensures note { IfOk result (λ n. IsNoteOf (all_of tables.new) (record { number = number; line = shown_line line.now }) (note_of n)) }
    ensures few { OnOk result (length (all_of tables.new).nodes ≤ most_names) }
    ensures seen { OnOk result (SeesNodes (all_of tables.old) (all_of tables.new) (names_in (shown_line line.now))) }
    ensures extends { Keeps (all_of tables.old) (all_of tables.new) }
    ensures values { OnOk result (SeesValues (all_of tables.old) (all_of tables.new)
        (pids_in (shown_line line.now).event) (words_in (shown_line line.now).event)) }
    ensures many { result ≡ Err NoteFault.TooManyNodes → HasTooMany (all_of tables.old) (names_in (shown_line line.now)) }
{
    let note = note_for(heap, alloc, tables, number, line)?;
    // form: `Tables::node` refuses a node past the 32nd; the test spares a requirement
    if tables.nodes.len() > usize::from(MOST_NAMES) {
        // form: drop before exit
        drop(note);
        return Err(NoteFault::TooManyNodes);
    }
    Ok(note)
}

/// The note of a line; `None` if the line is blank. Faults in this order: those of `value_of_line`, `BadEvent` if the
/// line is JSON but no event, those of `note_for`. The tables change as in `note_for`.
fn note_of_line<A: Allocator + Copy>(
    heap: Global,
    alloc: A,
    tables: &mut Tables<A>,
    number: u64,
    line: &[u8],
) -> Result<Option<Noted<A>>, FaultKind>
    ensures note { IfOk result (λ n. IsNoted (all_of tables.new) number line.now (option_map note_of n)) }
    ensures few { OnOk result (length (all_of tables.old).nodes ≤ most_names → length (all_of tables.new).nodes ≤ most_names) }
    ensures seen { OnOk result (SeesNodes (all_of tables.old) (all_of tables.new) (names_if (said line.now))) }
    ensures extends { Keeps (all_of tables.old) (all_of tables.new) }
    ensures values { OnOk result (SeesValues (all_of tables.old) (all_of tables.new)
        (pids_of (said line.now)) (words_of (said line.now))) }
    ensures wrong { IfErr result (IsWrong (all_of tables.old).nodes line.now) }
{
    let Some(value) = value_of_line(heap, line)? else {
        return Ok(None);
    };
    let Some(event) = line_at(&value) else {
        return Err(FaultKind::BadEvent);
    };
    let note = note_of_event(heap, alloc, tables, number, &event)?;
    Ok(Some(note))
}

/// Appends the note. A refused push becomes `Oom`, which `add_line` passes on as a `FaultKind`.
fn add<A: Allocator + Copy>(notes: &mut Vec<Noted<A>, A>, note: Noted<A>) -> Result<(), Oom>
    ensures { OnOk result (notes.new.items ≡ notes.old.items ++ note ∷ []) }
{
    notes.push(note)?;
    Ok(())
}

/// Appends the note of a line, unless the line is blank. The tables change as in `note_for`.
fn add_line<A: Allocator + Copy>(
    heap: Global,
    alloc: A,
    tables: &mut Tables<A>,
    notes: &mut Vec<Noted<A>, A>,
    number: u64,
    line: &[u8],
) -> Result<(), FaultKind>
    ensures notes { OnOk result (AddsNote (all_of tables.new) number line.now (map note_of notes.old.items) (map note_of notes.new.items)) }
    ensures few { OnOk result (length (all_of tables.old).nodes ≤ most_names → length (all_of tables.new).nodes ≤ most_names) }
    ensures seen { OnOk result (SeesNodes (all_of tables.old) (all_of tables.new) (names_if (said line.now))) }
    ensures extends { Keeps (all_of tables.old) (all_of tables.new) }
    ensures values { OnOk result (SeesValues (all_of tables.old) (all_of tables.new)
        (pids_of (said line.now)) (words_of (said line.now))) }
    ensures wrong { IfErr result (IsWrong (all_of tables.old).nodes line.now) }
{
    let note = note_of_line(heap, alloc, tables, number, line)?;
    if let Some(note) = note {
        add(notes, note)?;
    }
    Ok(())
}

/// The notes of all lines, which are numbered from 1; or the fault of the first line that has one. The tables
/// change as in `note_for`.
pub(crate) fn noted_all<A: Allocator + Copy>(
    heap: Global,
    alloc: A,
    tables: &mut Tables<A>,
    lines: &[&[u8]],
) -> Result<Vec<Noted<A>, A>, ImportFault>
    ensures notes { IfOk result (λ notes. AreNoted (all_of tables.new) (map (λ line. line.now) lines.now) (map note_of notes.items)) }
    ensures seen { OnOk result (SeesNodes (all_of tables.old) (all_of tables.new) (names_on (map (λ line. line.now) lines.now))) }
    ensures values { OnOk result (SeesValues (all_of tables.old) (all_of tables.new)
        (pids_on (map (λ line. line.now) lines.now)) (words_on (map (λ line. line.now) lines.now))) }
    ensures few { OnOk result (length (all_of tables.old).nodes ≤ most_names → length (all_of tables.new).nodes ≤ most_names) }
    ensures lines { length lines.now < 2 ^ 64 }
    ensures fault { IfErr result (IsLineFault (all_of tables.old).nodes (map (λ line. line.now) lines.now)) }
{
    let mut notes = Vec::new(alloc);
    for (index, line) in lines.iter().enumerate() {
        let number = index as u64 + 1;
        if let Err(kind) = add_line(heap, alloc, tables, &mut notes, number, line) {
            // form: drop before exit
            drop(notes);
            return Err(ImportFault::at(number, kind));
        }
    }
    Ok(notes)
}
