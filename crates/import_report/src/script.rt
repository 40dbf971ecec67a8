//! Makes the script of an import, and the bench on which its lines were played.
ghost use Rattle.std.specs.Prelude.{◌≡◌, ◌++◌, ◌<◌, ◌≤◌, ◌^◌, IfOk, OnOk, length, map, replicate, string_bytes};
ghost use Rattle.std.specs.List.{All};
ghost use Rattle.dots_core.specs.Names.{most_names};
ghost use Rattle.import_core.specs.Notes.{note_of};
ghost use Rattle.import_core.specs.Tables.{all_of};
ghost use Rattle.import_report.specs.Comments.{comments_text};
ghost use Rattle.import_report.specs.Events.{after_events, ended, events_text};
ghost use Rattle.import_report.specs.Scripts.{in_order, nodes_line, opening, spaced_names, script_text};

use crate::comments::put_comments;
use crate::events::put_lines;
use bench_core::{Bench, Limits, Names};
use dots_core::Oom;
use import_core::{Import, Tables};
use report_core::name_at;
use std::alloc::Allocator;

/// Appends each name after a space.
fn put_names<A: Allocator, N: Allocator>(text: &mut String<A>, names: &Names<N>) -> Result<(), Oom>
    ensures { OnOk result (string_bytes text.new ≡ string_bytes text.old ++ spaced_names names.now) }
{
    for number in 0..names.len() as u16 {
        let name = name_at(names, number);
        write!(text, " {name}")?;
    }
    Ok(())
}

/// Appends `nodes NAME ..`, and a line feed.
#[tactic(auto, unfolding(crate::specs::Scripts::nodes_line))]
fn put_nodes<A: Allocator, N: Allocator>(text: &mut String<A>, names: &Names<N>) -> Result<(), Oom>
    ensures { OnOk result (string_bytes text.new ≡ string_bytes text.old ++ ended (nodes_line names.now)) }
{
    text.push_str("nodes")?;
    put_names(text, names)?;
    Ok(text.push_str("\n")?)
}

/// Plays the events of an import in their order, and appends their lines. `told` is as in `put_lines`, and `numbers` as
/// in `play`.
#[tactic(auto, unfolding(crate::specs::Events::events_text))]
fn put_events<'a, B: Allocator>(
    text: &mut String<&'a B>,
    bench: &mut Bench<'a, B>,
    numbers: &mut [u64],
    told: bool,
    import: &Import<&'a B>,
) -> Result<(), Oom>
    requires { All (λ place. place < length import.now.notes.items) import.now.order.items }
    ensures text { OnOk result (string_bytes text.new ≡ string_bytes text.old ++
        events_text told bench.old.names (record { machine = bench.old; numbers = numbers.old })
        (in_order (map note_of import.now.notes.items) import.now.order.items)) }
    ensures bench { OnOk result (bench.new ≡
        (after_events (record { machine = bench.old; numbers = numbers.old }) (in_order (map note_of import.now.notes.items) import.now.order.items)).machine) }
{
    for place in &import.order {
        let note = &import.notes[*place];
        put_lines(text, bench, numbers, told, note)?;
    }
    Ok(())
}

/// A zero for each of `count` messages: none was sent yet.
pub fn zeros<A: Allocator>(alloc: A, count: usize) -> Result<Vec<u64, A>, Oom>
    ensures { IfOk result (λ v. v.items ≡ replicate count 0) }
{
    vec![in alloc; 0u64; count]
}

/// A script, and the bench on which its lines were played.
#[derive(Drop)]
pub struct Scripted<'a, B: Allocator> {
    pub text: String<&'a B>,
    pub bench: Bench<'a, B>,
}

/// Appends the first lines: the nodes, and the comments of `put_comments`.
fn put_head<'a, B: Allocator>(
    text: &mut String<&'a B>,
    alloc: &'a B,
    names: &Names<&'a B>,
    tables: &Tables<&'a B>,
) -> Result<(), Oom>
    requires { length tables.now.nodes ≤ most_names }
    ensures text { OnOk result (string_bytes text.new ≡ string_bytes text.old ++ ended (nodes_line names.now) ++ comments_text names.now (all_of tables.now)) }
    ensures few { OnOk result (length tables.now.longs < 2 ^ 64) }
{
    put_nodes(text, names)?;
    put_comments(alloc, text, names, tables)
}

/// Makes the script of an import's events, by playing them in their order on a bench with these names and limits. `told`
/// is as for `put_lines`.
#[tactic(auto, unfolding(crate::specs::Scripts::script_text))]
pub(crate) fn script_of<'a, B: Allocator>(
    import: &Import<&'a B>,
    alloc: &'a B,
    limits: Limits,
    told: bool,
    names: Names<&'a B>,
) -> Result<Scripted<'a, B>, Oom>
    requires few { length import.now.tables.nodes ≤ most_names }
    requires places { All (λ place. place < length import.now.notes.items) import.now.order.items }
    ensures text { IfOk result (λ s. string_bytes s.text ≡
        script_text told limits names.entry (all_of import.now.tables) (in_order (map note_of import.now.notes.items) import.now.order.items)) }
    ensures bench { IfOk result (λ s. s.bench ≡
        (after_events (opening limits names.entry (length import.now.tables.messages))
        (in_order (map note_of import.now.notes.items) import.now.order.items)).machine) }
    ensures few { OnOk result (length import.now.tables.longs < 2 ^ 64) }
{
    let mut text = String::new(alloc);
    put_head(&mut text, alloc, &names, &import.tables)?;
    let mut numbers = zeros(alloc, import.tables.messages.len())?;
    let mut bench = Bench::new(alloc, names, limits)?;
    if let Err(oom) = put_events(&mut text, &mut bench, &mut numbers, told, import) {
        // form: drop before exit
        bench.discard();
        return Err(oom);
    }
    Ok(Scripted { text, bench })
}
