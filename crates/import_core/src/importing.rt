//! From the bytes of logs to the notes of their events, and an order of the events.
ghost use Rattle.std.specs.Prelude.{◌≡◌, ◌<◌, length, map, IfOk, IfErr, OnOk};
ghost use Rattle.dots_core.specs.Names.{most_names};
ghost use Rattle.event_order.specs.Ordering.{HasNodes, HasMessages, IsOrdered, IsFaultOf};
ghost use Rattle.log_core.specs.Lines.{lines_of};
ghost use Rattle.import_core.specs.Tables.{all_of};
ghost use Rattle.import_core.specs.Notes.{note_of, logged_of};
ghost use Rattle.import_core.specs.Imports.{IsImportOf, number_at};
ghost use Rattle.import_core.specs.Faults.{IsOrderFault, IsNotesFault, IsImportFault};

use crate::fault::{FaultKind, ImportFault};
use crate::lenient::stay;
use crate::notes::{Noted, noted_all};
use crate::tables::Tables;
use dots_core::{MOST_NAMES, Oom};
use event_order::{Logged, OrderFault, ordered};
use std::alloc::{Allocator, Global};

/// What an input gives: the tables, which say what each number stands for; the notes of the events that stay; and an
/// order of these events, as places in `notes`.
#[derive(Drop)]
pub struct Import<A: Allocator> {
    pub tables: Tables<A>,
    pub notes: Vec<Noted<A>, A>,
    pub order: Vec<usize, A>,
    /// The numbers of the lines whose deliveries and answers were left out, round by round.
    pub left_out: Vec<u64, A>,
}

/// Gives the import's `left_out`, and drops the rest of the import.
pub fn left_out_of<A: Allocator>(import: Import<A>) -> Vec<u64, A>
    ensures { result.items ≡ import.left_out.items }
{
    // form: taken apart in a function of its own
    import.left_out
}

/// The lines of the input, in order, without their line feeds. Behind a line feed at the end comes an empty line.
pub fn lines_of<A: Allocator>(alloc: A, bytes: &[u8]) -> Result<Vec<&[u8], A>, Oom>
    ensures { IfOk result (λ lines. map (λ line. line.now) lines.items ≡ lines_of bytes.now) }
{
    bytes.split(|byte| *byte == b'\n').collect(alloc)
}

/// What an order needs to know of each event, in the order of `notes`.
fn logged<A: Allocator + Copy>(alloc: A, notes: &[Noted<A>]) -> Result<Vec<Logged, A>, Oom>
    ensures { IfOk result (λ logged. logged.items ≡ logged_of (map note_of notes.now)) }
{
    let mut events = Vec::new(alloc);
    for note in notes {
        events.push(note.logged)?;
    }
    Ok(events)
}

/// The line number of the note at `place`; 0 if there is none.
fn number_at<A: Allocator>(notes: &[Noted<A>], place: usize) -> u64
    ensures { result ≡ number_at (map note_of notes.now) place }
{
    match notes.get(place) {
        Some(note) => note.number,
        None => 0,
    }
}

/// The fault of an order of the events in `notes`, as a fault of the import: at the line of the note that it names by
/// place, or at line 0 for `OutOfMemory`.
fn fault_of<A: Allocator>(notes: &[Noted<A>], fault: OrderFault) -> ImportFault
    requires { IsFaultOf (logged_of (map note_of notes.now)) fault }
    ensures { IsOrderFault (map note_of notes.now) result }
{
    match fault {
        OrderFault::Twice { at } => ImportFault {
            line: number_at(notes, at),
            kind: FaultKind::Twice,
        },
        OrderFault::NeverSent { at } => ImportFault {
            line: number_at(notes, at),
            kind: FaultKind::NeverSent,
        },
        OrderFault::Circle { at } => ImportFault {
            line: number_at(notes, at),
            kind: FaultKind::Circle,
        },
        OrderFault::OutOfMemory => ImportFault::from(Oom),
    }
}

/// The order of these events that is nearest to the input, as places in `notes`; or why there is none. `NoNodes` if
/// there are no events. `messages` is how many messages the tables have.
fn order_of<A: Allocator + Copy>(
    alloc: A,
    notes: &[Noted<A>],
    messages: usize,
) -> Result<Vec<usize, A>, ImportFault>
    requires nodes { HasNodes most_names (logged_of (map note_of notes.now)) }
    requires messages { HasMessages messages (logged_of (map note_of notes.now)) }
    ensures order { IfOk result (λ order. IsOrdered (logged_of (map note_of notes.now)) order.items) }
    ensures some { OnOk result (0 < length notes.now) }
    ensures fault { IfErr result (IsNotesFault (map note_of notes.now)) }
{
    if notes.is_empty() {
        return Err(ImportFault {
            line: 0,
            kind: FaultKind::NoNodes,
        });
    }
    let events = logged(alloc, notes)?;
    match ordered(alloc, &events, MOST_NAMES, messages) {
        Ok(order) => Ok(order),
        Err(fault) => Err(fault_of(notes, fault)),
    }
}

/// The notes of the input's events, with the tables in which their texts have numbers, and the nearest order; or the
/// first fault. If `lenient`, leaves out each delivery and answer whose message no line sends, then those whose message
/// only left-out lines send, and so on.
pub fn imported<A: Allocator + Copy>(
    heap: Global,
    alloc: A,
    lenient: bool,
    bytes: &[u8],
) -> Result<Import<A>, ImportFault>
    ensures import { IfOk result (λ i. IsImportOf lenient bytes.now (all_of i.tables) (map note_of i.notes.items) i.order.items i.left_out.items) }
    ensures fault { IfErr result (IsImportFault lenient bytes.now) }
{
    let lines = lines_of(alloc, bytes)?;
    let mut tables = Tables::new(alloc);
    let mut notes = noted_all(heap, alloc, &mut tables, &lines)?;
    let left_out = stay(alloc, lenient, &mut notes, tables.messages.len())?;
    let order = order_of(alloc, &notes, tables.messages.len())?;
    Ok(Import {
        tables,
        notes,
        order,
        left_out,
    })
}
