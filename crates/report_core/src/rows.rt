//! Appends rows, how two lists differ, replies and numbers of steps to a text. Where a function takes a `line` beside
//! the text, the line holds the text's end, not yet appended (see `Line`). A `sign` is what stands before a row, as
//! `- `.
ghost use Rattle.std.specs.Prelude.{◌≡◌, ◌++◌, OnOk, string_bytes};
ghost use Rattle.report_core.specs.Rows.{name_at, row_text, row_line, row_lines, change_lines, is_no_change, changed_text, online_text};
ghost use Rattle.report_core.specs.Rows.{reply_line, spaced_numbers, future_line, undone_lines};

use crate::line::{Line, Parts, end, put_part, put_parts};
use bench_core::{Names, Reply};
use diff_core::{Diff, EntryRow, OnlineRow};
use dots_core::Oom;
use std::alloc::Allocator;

/// The name of the node with this number; empty if there is no such node.
pub fn name_at<A: Allocator>(names: &Names<A>, number: u16) -> &str
    ensures { result.now ≡ name_at names.now number }
{
    match names.text(number) {
        Some(text) => text,
        None => "",
    }
}

/// Appends `sign`, the row and a line feed to the text, whose end is still gathered in `line`.
#[tactic(auto, unfolding(crate::specs::Rows::row_text))]
fn put_row<A: Allocator, N: Allocator, R: Allocator>(
    text: &mut String<A>,
    line: &mut Line,
    sign: &str,
    names: &Names<N>,
    row: &OnlineRow<R>,
) -> Result<(), Oom>
    ensures { OnOk result (string_bytes text.new ++ line.new.bytes ≡ (string_bytes text.old ++ line.old.bytes) ++ row_line sign.now names.now row.now) }
{
    put_part(text, line, sign)?;
    let parts = Parts {
        topic: row.topic.as_str(),
        key: row.key.as_str(),
        node: name_at(names, row.name),
        pid: row.pid,
        metadata: row.metadata.as_str(),
    };
    put_parts(text, line, &parts)
}

/// Appends `sign`, the row of an entry and a line feed to the text, whose end is still gathered in `line`.
#[tactic(auto, unfolding(crate::specs::Rows::row_text))]
pub(crate) fn put_entry<'x, A: Allocator, N: Allocator, R: Allocator>(
    text: &mut String<A>,
    line: &mut Line,
    sign: &str,
    names: &Names<N>,
    row: &EntryRow<'x, R>,
) -> Result<(), Oom>
    ensures { OnOk result (string_bytes text.new ++ line.new.bytes ≡ (string_bytes text.old ++ line.old.bytes) ++ row_line sign.now names.now row.now) }
{
    put_part(text, line, sign)?;
    let entry = row.entry();
    let parts = Parts {
        topic: entry.topic().as_str(),
        key: entry.key().as_str(),
        node: name_at(names, entry.dot.name),
        pid: entry.pid,
        metadata: entry.metadata().as_str(),
    };
    put_parts(text, line, &parts)
}

/// Appends `sign`, the row and a line feed, for each of `rows`, to the text, whose end is still gathered in `line`.
#[tactic(auto, unfolding(crate::specs::Rows::row_lines))]
fn put_each<A: Allocator, N: Allocator, R: Allocator>(
    text: &mut String<A>,
    line: &mut Line,
    sign: &str,
    names: &Names<N>,
    rows: &[OnlineRow<R>],
) -> Result<(), Oom>
    ensures { OnOk result (string_bytes text.new ++ line.new.bytes ≡ (string_bytes text.old ++ line.old.bytes) ++ row_lines sign.now names.now rows.now) }
{
    for row in rows {
        put_row(text, line, sign, names, row)?;
    }
    Ok(())
}

/// Appends `sign`, the row of the entry and a line feed, for each of `rows`, to the text, whose end is still gathered
/// in `line`.
#[tactic(auto, unfolding(crate::specs::Rows::row_lines))]
pub(crate) fn put_entries<'x, A: Allocator, N: Allocator, R: Allocator>(
    text: &mut String<A>,
    line: &mut Line,
    sign: &str,
    names: &Names<N>,
    rows: &[EntryRow<'x, R>],
) -> Result<(), Oom>
    ensures { OnOk result (string_bytes text.new ++ line.new.bytes ≡ (string_bytes text.old ++ line.old.bytes) ++ row_lines sign.now names.now rows.now) }
{
    for row in rows {
        put_entry(text, line, sign, names, row)?;
    }
    Ok(())
}

/// Appends the rows that left, each after `- `, and then those that joined, each after `+ `, to the text, whose end is
/// still gathered in `line`.
#[tactic(auto, unfolding(crate::specs::Rows::change_lines))]
pub(crate) fn put_both<A: Allocator, N: Allocator, R: Allocator>(
    text: &mut String<A>,
    line: &mut Line,
    names: &Names<N>,
    left: &[OnlineRow<R>],
    joined: &[OnlineRow<R>],
) -> Result<(), Oom>
    ensures { OnOk result (string_bytes text.new ++ line.new.bytes ≡ (string_bytes text.old ++ line.old.bytes) ++ change_lines names.now left.now joined.now) }
{
    put_each(text, line, "- ", names, left)?;
    put_each(text, line, "+ ", names, joined)
}

/// Appends `sign`, the row and a line feed, for each of `rows`.
pub fn put_rows<A: Allocator, N: Allocator, R: Allocator>(
    text: &mut String<A>,
    sign: &str,
    names: &Names<N>,
    rows: &[OnlineRow<R>],
) -> Result<(), Oom>
    ensures { OnOk result (string_bytes text.new ≡ string_bytes text.old ++ row_lines sign.now names.now rows.now) }
{
    let mut line = Line::new();
    put_each(text, &mut line, sign, names, rows)?;
    end(text, &line)
}

/// Appends the rows that left, each after `- `, and then those that joined, each after `+ `.
pub fn put_lines<A: Allocator, N: Allocator, R: Allocator>(
    text: &mut String<A>,
    names: &Names<N>,
    left: &[OnlineRow<R>],
    joined: &[OnlineRow<R>],
) -> Result<(), Oom>
    ensures { OnOk result (string_bytes text.new ≡ string_bytes text.old ++ change_lines names.now left.now joined.now) }
{
    let mut line = Line::new();
    put_both(text, &mut line, names, left, joined)?;
    end(text, &line)
}

/// Whether no row left and none joined.
fn is_none<R: Allocator>(change: &Diff<R>) -> bool
    ensures { result ≡ is_no_change change.now.left.items change.now.joined.items }
{
    change.left.is_empty() && change.joined.is_empty()
}

/// Appends `at NODE` and how the node's online list changed; nothing if it didn't change.
#[tactic(auto, unfolding(crate::specs::Rows::changed_text))]
pub fn put_change<A: Allocator, N: Allocator, R: Allocator>(
    text: &mut String<A>,
    names: &Names<N>,
    node: u16,
    change: &Diff<R>,
) -> Result<(), Oom>
    ensures { OnOk result (string_bytes text.new ≡ string_bytes text.old ++ changed_text names.now node change.now.left.items change.now.joined.items) }
{
    if is_none(change) {
        return Ok(());
    }
    let name = name_at(names, node);
    writeln!(text, "at {name}")?;
    put_lines(text, names, &change.left, &change.joined)
}

/// Appends `online NODE COUNT` and the rows, each after `= `.
#[tactic(auto, unfolding(crate::specs::Rows::online_text))]
pub fn put_online<A: Allocator, N: Allocator, R: Allocator>(
    text: &mut String<A>,
    names: &Names<N>,
    node: u16,
    rows: &[OnlineRow<R>],
) -> Result<(), Oom>
    ensures { OnOk result (string_bytes text.new ≡ string_bytes text.old ++ online_text names.now node rows.now) }
{
    let node = name_at(names, node);
    let count = rows.len();
    writeln!(text, "online {node} {count}")?;
    put_rows(text, "= ", names, rows)
}

/// Appends the line of a reply: `N ok` or `undone N`, with the number of the step, or `no` and the fault.
#[tactic(auto, unfolding(crate::specs::Rows::reply_line))]
pub fn put_reply<A: Allocator>(text: &mut String<A>, reply: Reply) -> Result<(), Oom>
    ensures { OnOk result (string_bytes text.new ≡ string_bytes text.old ++ reply_line reply) }
{
    match reply {
        Reply::Taken(number) => writeln!(text, "{number} ok"),
        Reply::Undone(number) => writeln!(text, "undone {number}"),
        Reply::Refused(fault) => writeln!(text, "no {fault}"),
    }
}

/// Appends each number after a space.
#[tactic(auto, unfolding(crate::specs::Rows::spaced_numbers))]
fn put_numbers<A: Allocator>(text: &mut String<A>, numbers: &[u64]) -> Result<(), Oom>
    ensures { OnOk result (string_bytes text.new ≡ string_bytes text.old ++ spaced_numbers numbers.now) }
{
    for number in numbers {
        write!(text, " {number}")?;
    }
    Ok(())
}

/// Appends `future N ..`, with these numbers, and a line feed.
#[tactic(auto, unfolding(crate::specs::Rows::future_line))]
pub fn put_future<A: Allocator>(text: &mut String<A>, numbers: &[u64]) -> Result<(), Oom>
    ensures { OnOk result (string_bytes text.new ≡ string_bytes text.old ++ future_line numbers.now) }
{
    text.push_str("future")?;
    put_numbers(text, numbers)?;
    Ok(text.push_str("\n")?)
}

/// Appends a line `undone N` for each number.
#[tactic(auto, unfolding(crate::specs::Rows::undone_lines))]
pub fn put_undone<A: Allocator>(text: &mut String<A>, numbers: &[u64]) -> Result<(), Oom>
    ensures { OnOk result (string_bytes text.new ≡ string_bytes text.old ++ undone_lines numbers.now) }
{
    for number in numbers {
        writeln!(text, "undone {number}")?;
    }
    Ok(())
}
