//! Where lists of real nodes and of the bench part, as JSON.
ghost use Rattle.std.specs.Prelude.{◌≡◌, ◌++◌, ℕ, List, OnOk, string_bytes};
ghost use Rattle.import_core.specs.Notes.{note_of};
ghost use Rattle.report_core.specs.Shown.{rows_at};
ghost use Rattle.import_page.specs.Entries.{IsListTold, list_text, row_head, row_text, rows_text};

use bench_core::Bench;
use diff_core::OnlineRow;
use dots_core::Oom;
use import_core::Noted;
use listed_core::compared;
use page_data::{put_comma, put_number_key, put_word};
use report_core::rows_at;
use std::alloc::Allocator;

/// Appends `[NAME,"PID"`, where NAME is the number of the row's node.
#[tactic(auto, unfolding(crate::specs::Entries::row_head))]
fn put_row_head<A: Allocator>(text: &mut String<A>, name: u16, pid: u64) -> Result<(), Oom>
    ensures { OnOk result (string_bytes text.new ≡ string_bytes text.old ++ row_head name pid) }
{
    Ok(write!(text, "[{name},\"{pid}\"")?)
}

/// Appends a row as `[NAME,"PID","TOPIC","KEY","META"]`.
#[tactic(auto, unfolding(crate::specs::Entries::row_text))]
fn put_row<A: Allocator, R: Allocator>(text: &mut String<A>, row: &OnlineRow<R>) -> Result<(), Oom>
    ensures { OnOk result (string_bytes text.new ≡ string_bytes text.old ++ row_text row.now) }
{
    put_row_head(text, row.name, row.pid)?;
    put_word(text, &row.topic)?;
    put_word(text, &row.key)?;
    put_word(text, &row.metadata)?;
    Ok(text.push_str("]")?)
}

/// Appends the rows, separated by commas.
fn put_rows<A: Allocator, R: Allocator>(
    text: &mut String<A>,
    rows: &[OnlineRow<R>],
) -> Result<(), Oom>
    ensures { OnOk result (string_bytes text.new ≡ string_bytes text.old ++ rows_text 0 rows.now) }
{
    for (place, row) in rows.iter().enumerate() {
        put_comma(text, place)?;
        put_row(text, row)?;
    }
    Ok(())
}

/// Appends `,"node":N,"online":[[OURS],[THEIRS]]`, where N is `node`. `OURS` are the rows that only the bench has
/// (`ours`), `THEIRS` those that only the real node listed (`theirs`).
#[tactic(auto, unfolding(crate::specs::Entries::list_text))]
fn put_list<A: Allocator, R: Allocator>(
    text: &mut String<A>,
    node: u16,
    ours: &[OnlineRow<R>],
    theirs: &[OnlineRow<R>],
) -> Result<(), Oom>
    ensures { OnOk result (string_bytes text.new ≡ string_bytes text.old ++ list_text node ours.now theirs.now) }
{
    put_number_key(text, "node", node as u64)?;
    text.push_str(",\"online\":[[")?;
    put_rows(text, ours)?;
    text.push_str("],[")?;
    put_rows(text, theirs)?;
    Ok(text.push_str("]]")?)
}

/// Compares the list of an event with the bench's list of the event's node, apart from the rows' clocks, and appends
/// the rows that only one of the lists has.
pub(crate) fn put_listed<'a, B: Allocator>(
    bench: &Bench<'a, B>,
    text: &mut String<&'a B>,
    note: &Noted<&'a B>,
    alloc: &'a B,
) -> Result<(), Oom>
    ensures { OnOk result ((told : List ℕ) × (string_bytes text.new ≡ string_bytes text.old ++ told)
        × IsListTold (note_of note.now) (rows_at bench.now note.now.logged.node) told) }
{
    let rows = rows_at(bench, note.logged.node, alloc)?;
    let found = compared(alloc, &note.rows, &rows);
    // form: drop before exit
    drop(rows);
    let found = found?;
    let put = put_list(text, note.logged.node, &found.joined, &found.left);
    drop(found);
    put
}
