//! From the bytes of logs to a bench, and to what the logs tell besides the bench's calls.
ghost use Rattle.std.specs.Prelude.{◌≡◌, ◌<◌, ◌≤◌, ℕ, List, IfOk, IfErr, length, map, string_bytes};
ghost use Rattle.std.specs.List.{All};
ghost use Rattle.dots_core.specs.Names.{most_names};
ghost use Rattle.log_core.specs.Lines.{lines_of};
ghost use Rattle.import_core.specs.Faults.{IsImportFault};
ghost use Rattle.import_core.specs.Notes.{note_of};
ghost use Rattle.import_core.specs.Tables.{all_of};
ghost use Rattle.import_report.specs.Events.{after_events};
ghost use Rattle.import_report.specs.Scripts.{in_order};
ghost use Rattle.import_page.specs.Entries.{AreEntries};
ghost use Rattle.import_page.specs.Keys.{IsShownOf, keys_text, start_of};

use crate::entries::{Playback, put_entries};
use bench_core::{Bench, Limits};
use dots_core::Oom;
use import_core::{Import, ImportFault, Tables, imported, left_out_of, lines_of};
use import_report::{shown_names, zeros};
use page_data::put_texts;
use std::alloc::{Allocator, Global};

/// A bench, and what the events that were played on it tell besides its calls.
#[derive(Drop)]
pub struct Shown<'a, B: Allocator> {
    pub bench: Bench<'a, B>,
    /// Further keys of the data of a page, as JSON, each after a comma.
    pub keys: String<&'a B>,
}

/// The keys of a page's data that tell of the logs: `names` has the nodes' own names, `pids` the values of processes,
/// `cut` the values whose words were cut, and `events` the text `entries`.
#[tactic(auto, unfolding(crate::specs::Keys::keys_text))]
fn keys_text<A: Allocator + Copy>(
    alloc: A,
    tables: &Tables<A>,
    entries: &str,
) -> Result<String<A>, Oom>
    ensures { IfOk result (λ keys. string_bytes keys ≡ keys_text (all_of tables.now) entries.now) }
{
    let mut keys = String::new(alloc);
    keys.push_str(",\"names\":[")?;
    put_texts(&mut keys, &tables.nodes)?;
    keys.push_str("],\"pids\":[")?;
    put_texts(&mut keys, &tables.pids)?;
    keys.push_str("],\"cut\":[")?;
    put_texts(&mut keys, &tables.longs)?;
    keys.push_str("],\"events\":[")?;
    keys.push_str(entries)?;
    keys.push_str("]")?;
    Ok(keys)
}

/// Plays the events of an import on a fresh bench (see `put_entries`).
fn played<'a, B: Allocator>(
    import: &Import<&'a B>,
    heap: Global,
    alloc: &'a B,
    limits: Limits,
    bytes: &[u8],
) -> Result<Playback<'a, B>, Oom>
    requires some { 0 < length import.now.tables.nodes }
    requires few { length import.now.tables.nodes ≤ most_names }
    requires places { All (λ place. place < length import.now.notes.items) import.now.order.items }
    ensures bench { IfOk result (λ p. p.bench ≡
        (after_events (start_of limits (all_of import.now.tables)) (in_order (map note_of import.now.notes.items) import.now.order.items)).machine) }
    ensures told { IfOk result (λ p. AreEntries (lines_of bytes.now) (start_of limits (all_of import.now.tables)) 0
        (in_order (map note_of import.now.notes.items) import.now.order.items) (string_bytes p.entries)) }
{
    let names = shown_names(alloc, &import.tables.nodes)?;
    let lines = lines_of(alloc, bytes)?;
    let numbers = zeros(alloc, import.tables.messages.len())?;
    let entries = String::new(alloc);
    let bench = Bench::new(alloc, names, limits)?;
    let mut playback = Playback {
        bench,
        numbers,
        entries,
    };
    match put_entries(&mut playback, heap, &lines, import, alloc) {
        Ok(()) => Ok(playback),
        Err(oom) => {
            // form: drop before exit
            let Playback { bench, .. } = playback;
            bench.discard();
            Err(oom)
        }
    }
}

/// The bench on which the events of an import were played, and the keys that tell of the logs.
fn shown_of<'a, B: Allocator>(
    import: &Import<&'a B>,
    heap: Global,
    alloc: &'a B,
    limits: Limits,
    bytes: &[u8],
) -> Result<Shown<'a, B>, Oom>
    requires some { 0 < length import.now.tables.nodes }
    requires few { length import.now.tables.nodes ≤ most_names }
    requires places { All (λ place. place < length import.now.notes.items) import.now.order.items }
    ensures bench { IfOk result (λ s. s.bench ≡
        (after_events (start_of limits (all_of import.now.tables)) (in_order (map note_of import.now.notes.items) import.now.order.items)).machine) }
    ensures keys { IfOk result (λ s. (entries : List ℕ) × AreEntries (lines_of bytes.now) (start_of limits (all_of import.now.tables)) 0
        (in_order (map note_of import.now.notes.items) import.now.order.items) entries
        × (string_bytes s.keys ≡ keys_text (all_of import.now.tables) entries)) }
{
    let Playback { bench, entries, .. } = played(import, heap, alloc, limits, bytes)?;
    match keys_text(alloc, &import.tables, entries.as_str()) {
        Ok(keys) => Ok(Shown { bench, keys }),
        Err(oom) => {
            // form: drop before exit
            bench.discard();
            Err(oom)
        }
    }
}

/// The bench on which the events of these logs were played, with these limits; what the logs tell besides its calls;
/// and the line numbers of the deliveries and answers that were left out, round by round, which only a `lenient` import
/// has. Refuses the logs that `imported` of `import_core` refuses, with the same fault.
pub fn import_shown<'a, B: Allocator>(
    heap: Global,
    alloc: &'a B,
    limits: Limits,
    lenient: bool,
    bytes: &[u8],
) -> Result<(Shown<'a, B>, Vec<u64, &'a B>), ImportFault>
    ensures shown { IfOk result (λ s. IsShownOf lenient limits bytes.now s.0.bench (string_bytes s.0.keys) s.1.items) }
    ensures refused { IfErr result (IsImportFault lenient bytes.now) }
{
    let import = imported(heap, alloc, lenient, bytes)?;
    // form: one way out, behind the import
    let shown = shown_of(&import, heap, alloc, limits, bytes);
    let left_out = left_out_of(import);
    let shown = shown?;
    Ok((shown, left_out))
}
