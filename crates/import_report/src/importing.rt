//! From the bytes of logs to a script, to a bench, and to where the bench and the real nodes part.
ghost use Rattle.std.specs.Prelude.{◌≡◌, ◌<◌, ◌≤◌, ◌^◌, ◌++◌, ◌==◌, ℕ, Bool, List, IfOk, IfErr, OnOk, length, map, not, string_bytes};
ghost use Rattle.std.specs.List.{All};
ghost use Rattle.dots_core.specs.Names.{most_names};
ghost use Rattle.import_core.specs.Notes.{note_of};
ghost use Rattle.import_core.specs.Tables.{all_of};
ghost use Rattle.import_core.specs.Faults.{IsImportFault};
ghost use Rattle.import_report.specs.Checks.{AreChecked, IsCheckOf, agree_line};
ghost use Rattle.import_report.specs.Events.{after_events};
ghost use Rattle.import_report.specs.Names.{AreNames, shown_names};
ghost use Rattle.import_report.specs.Scripts.{IsBenchOf, IsImported, IsRefused, in_order, opening, script_text};

use crate::checks::checked;
use crate::names::shown_names;
use crate::script::{Scripted, script_of, zeros};
use bench_core::{Bench, Limits};
use dots_core::Oom;
use grammar_core::LONGEST_SCRIPT;
use import_core::{FaultKind, Import, ImportFault, imported, left_out_of};
use std::alloc::{Allocator, Global};

/// The script of an import's events, and the bench on which they were played. `told` is as for `import_script`.
fn script_of_import<'a, B: Allocator>(
    import: &Import<&'a B>,
    alloc: &'a B,
    limits: Limits,
    told: bool,
) -> Result<Scripted<'a, B>, Oom>
    requires some { 0 < length import.now.tables.nodes }
    requires few { length import.now.tables.nodes ≤ most_names }
    requires places { All (λ place. place < length import.now.notes.items) import.now.order.items }
    ensures text { IfOk result (λ s. string_bytes s.text ≡
        script_text told limits (shown_names import.now.tables.nodes) (all_of import.now.tables)
        (in_order (map note_of import.now.notes.items) import.now.order.items)) }
    ensures bench { IfOk result (λ s. s.bench ≡
        (after_events (opening limits (shown_names import.now.tables.nodes) (length import.now.tables.messages))
        (in_order (map note_of import.now.notes.items) import.now.order.items)).machine) }
    ensures names { OnOk result (AreNames (shown_names import.now.tables.nodes)) }
    ensures longs { OnOk result (length import.now.tables.longs < 2 ^ 64) }
    ensures count { OnOk result (length (shown_names import.now.tables.nodes) ≡ length import.now.tables.nodes) }
{
    let names = shown_names(alloc, &import.tables.nodes)?;
    script_of(import, alloc, limits, told, names)
}

/// The script of these logs, with the bench on which `import_script` played its lines; and the line numbers of the
/// deliveries and answers that were left out, which only a `lenient` import has. If `told` is true, a comment above
/// each event's line in the script has the event's line number in the logs. If the logs can't be imported, the fault is
/// their first; else it is `TooLong`, with line 0, if the script has more bytes than a play reads.
pub fn import_script<'a, B: Allocator>(
    heap: Global,
    alloc: &'a B,
    limits: Limits,
    lenient: bool,
    told: bool,
    bytes: &[u8],
) -> Result<(Scripted<'a, B>, Vec<u64, &'a B>), ImportFault>
    ensures script { IfOk result (λ s. IsImported lenient told limits bytes.now (string_bytes s.0.text) s.0.bench s.1.items) }
    ensures refused { IfErr result (IsRefused lenient told limits bytes.now) }
{
    let import = imported(heap, alloc, lenient, bytes)?;
    // form: one way out, behind the import
    let scripted = script_of_import(&import, alloc, limits, told);
    let left_out = left_out_of(import);
    let scripted = scripted?;
    if scripted.text.len() > LONGEST_SCRIPT {
        // form: drop before exit
        let Scripted { text, bench } = scripted;
        drop(text);
        bench.discard();
        return Err(ImportFault {
            line: 0,
            kind: FaultKind::TooLong,
        });
    }
    Ok((scripted, left_out))
}

/// Like `import_script`, but gives the bench in place of the script, however long the script would be.
pub fn import_bench<'a, B: Allocator>(
    heap: Global,
    alloc: &'a B,
    limits: Limits,
    lenient: bool,
    bytes: &[u8],
) -> Result<(Bench<'a, B>, Vec<u64, &'a B>), ImportFault>
    ensures bench { IfOk result (λ s. IsBenchOf lenient limits bytes.now s.0 s.1.items) }
    ensures refused { IfErr result (IsImportFault lenient bytes.now) }
{
    let import = imported(heap, alloc, lenient, bytes)?;
    // form: one way out, behind the import
    let scripted = script_of_import(&import, alloc, limits, false);
    let left_out = left_out_of(import);
    let scripted = scripted?;
    Ok((bench_of(scripted), left_out))
}

/// The bench of `scripted`, whose text is dropped.
fn bench_of<'a, B: Allocator>(scripted: Scripted<'a, B>) -> Bench<'a, B>
    ensures { result ≡ scripted.entry.bench }
{
    // form: taken apart in a function of its own
    scripted.bench
}

/// Where the bench and the real nodes part, as a text.
#[derive(Drop)]
pub struct Checked<'a, B: Allocator> {
    pub text: String<&'a B>,
    /// Whether bench and nodes part: a list differs, the bench refused a step, or a step couldn't be asked.
    pub differs: bool,
}

/// Plays the events of an import on a fresh bench, and tells where that bench and the real nodes part.
fn check_of_import<'a, B: Allocator>(
    import: &Import<&'a B>,
    alloc: &'a B,
    limits: Limits,
) -> Result<Checked<'a, B>, Oom>
    requires some { 0 < length import.now.tables.nodes }
    requires few { length import.now.tables.nodes ≤ most_names }
    requires places { All (λ place. place < length import.now.notes.items) import.now.order.items }
    ensures { IfOk result (λ c. (agreements : List Bool) × (told : List ℕ)
        × AreChecked (shown_names import.now.tables.nodes) (opening limits (shown_names import.now.tables.nodes) (length import.now.tables.messages))
        (in_order (map note_of import.now.notes.items) import.now.order.items) agreements told
        × (string_bytes c.text ≡ told ++ agree_line agreements) × (c.differs ≡ not (length told == 0))) }
{
    let names = shown_names(alloc, &import.tables.nodes)?;
    let mut numbers = zeros(alloc, import.tables.messages.len())?;
    let mut bench = Bench::new(alloc, names, limits)?;
    let mut text = String::new(alloc);
    let differs = checked(&mut bench, &mut text, &mut numbers, import, alloc);
    // form: drop before exit
    bench.discard();
    let differs = differs?;
    Ok(Checked { text, differs })
}

/// Tells where the bench and the real nodes part, for these logs. Also gives the line numbers of the deliveries and
/// answers that were left out, which only a `lenient` import has. If the logs can't be imported, the fault is their
/// first.
pub fn import_check<'a, B: Allocator>(
    heap: Global,
    alloc: &'a B,
    limits: Limits,
    lenient: bool,
    bytes: &[u8],
) -> Result<(Checked<'a, B>, Vec<u64, &'a B>), ImportFault>
    ensures check { IfOk result (λ c. IsCheckOf lenient limits bytes.now (string_bytes c.0.text) c.0.differs c.1.items) }
    ensures refused { IfErr result (IsImportFault lenient bytes.now) }
{
    let import = imported(heap, alloc, lenient, bytes)?;
    // form: one way out, behind the import
    let found = check_of_import(&import, alloc, limits);
    let left_out = left_out_of(import);
    let found = found?;
    Ok((found, left_out))
}
