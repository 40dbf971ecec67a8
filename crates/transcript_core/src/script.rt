//! Writes the calls of a bench as a script.
ghost use Rattle.std.specs.Prelude.{◌≡◌, ◌++◌, IfErr, IfOk, OnOk, string_bytes};
ghost use Rattle.transcript_core.specs.Scripts.{IsScriptOf, Refuses, cast_of, cast_text, consoles_text, event_line, event_lines, script_text, spaced_names};

use crate::actors::{CastRef, console_at};
use crate::fault::TranscriptFault;
use crate::lines::put_call;
use crate::read_back::read_back;
use bench_core::laws::replay_law;
use bench_core::{Bench, Event, History, Names, TextSet};
use dots_core::Oom;
use report_core::name_at;
use std::alloc::Allocator;

/// Appends each node's name after a space.
pub(crate) fn put_nodes<A: Allocator, N: Allocator>(
    text: &mut String<A>,
    nodes: &Names<N>,
) -> Result<(), Oom>
    ensures { OnOk result (string_bytes text.new ≡ string_bytes text.old ++ spaced_names nodes.now) }
{
    for number in 0..nodes.len() as u16 {
        let name = name_at(nodes, number);
        write!(text, " {name}")?;
    }
    Ok(())
}

/// Appends each console's name after a space.
fn put_each_console<A: Allocator, C: Allocator>(
    text: &mut String<A>,
    consoles: &TextSet<C>,
) -> Result<(), Oom>
    ensures { OnOk result (string_bytes text.new ≡ string_bytes text.old ++ spaced_names consoles.now) }
{
    for number in 0..consoles.len() {
        let name = console_at(consoles, number);
        write!(text, " {name}")?;
    }
    Ok(())
}

/// Appends the line `consoles NAME ..`, if there are any consoles.
#[tactic(auto, unfolding(crate::specs::Scripts::consoles_text))]
fn put_consoles<A: Allocator, C: Allocator>(
    text: &mut String<A>,
    consoles: &TextSet<C>,
) -> Result<(), Oom>
    ensures { OnOk result (string_bytes text.new ≡ string_bytes text.old ++ consoles_text consoles.now) }
{
    if consoles.len() == 0 {
        return Ok(());
    }
    text.push_str("consoles")?;
    put_each_console(text, consoles)?;
    Ok(text.push_str("\n")?)
}

/// Appends the lines `nodes NAME ..` and, if there are consoles, `consoles NAME ..`.
#[tactic(auto, unfolding(crate::specs::Scripts::cast_text))]
fn put_cast<A: Allocator, N: Allocator, C: Allocator>(
    text: &mut String<A>,
    cast: &CastRef<'_, N, C>,
) -> Result<(), Oom>
    ensures { OnOk result (string_bytes text.new ≡ string_bytes text.old ++
        cast_text (record { nodes = cast.now.nodes.now; consoles = cast.now.consoles.now })) }
{
    text.push_str("nodes")?;
    put_nodes(text, cast.nodes)?;
    text.push_str("\n")?;
    put_consoles(text, cast.consoles)
}

/// Appends the line of a recorded call, and a line feed.
fn put_event<A: Allocator, N: Allocator, C: Allocator, W: Allocator>(
    text: &mut String<A>,
    cast: &CastRef<'_, N, C>,
    event: &Event<W>,
) -> Result<(), Oom>
    ensures { OnOk result (string_bytes text.new ≡ string_bytes text.old ++
        event_line (record { nodes = cast.now.nodes.now; consoles = cast.now.consoles.now }) event.now) }
{
    put_call(text, cast, event.actor, &event.act)?;
    Ok(text.push_str("\n")?)
}

/// Appends a line for each recorded call.
#[tactic(auto, unfolding(crate::specs::Scripts::event_lines))]
fn put_events<'a, A: Allocator, B: Allocator, N: Allocator, C: Allocator>(
    history: &History<'a, B>,
    text: &mut String<A>,
    cast: &CastRef<'_, N, C>,
) -> Result<(), Oom>
    ensures { OnOk result (string_bytes text.new ≡ string_bytes text.old ++
        event_lines (record { nodes = cast.now.nodes.now; consoles = cast.now.consoles.now }) history.now) }
{
    for place in 0..history.len() {
        if let Some(event) = history.at(place) {
            put_event(text, cast, event)?;
        }
    }
    Ok(())
}

/// The lines that name the nodes and the consoles, and a line for each recorded call. The text may be no script, or one
/// that asks for other calls; `script_of_calls` refuses such a text.
#[tactic(auto, unfolding(crate::specs::Scripts::script_text))]
pub fn calls_text<'a, A: Allocator, B: Allocator>(
    bench: &Bench<'a, B>,
    consoles: &TextSet<&'a B>,
    alloc: A,
) -> Result<String<A>, Oom>
    ensures { IfOk result (λ text. string_bytes text ≡ script_text (cast_of bench.now consoles.now) bench.now.state.history) }
{
    let mut text = String::new(alloc);
    let cast = CastRef {
        nodes: bench.names(),
        consoles,
    };
    put_cast(&mut text, &cast)?;
    put_events(bench.history(), &mut text, &cast)?;
    Ok(text)
}

/// The recorded calls of a bench as a script, in which the consoles have the names `consoles`. A play of the script
/// with the bench's limits leaves the same bench. The text is read again: `NoScript` if it isn't a script, `OtherCalls`
/// if it names other nodes or asks for other calls than those recorded.
pub fn script_of_calls<'a, B: Allocator>(
    bench: &Bench<'a, B>,
    alloc: &'a B,
    consoles: &TextSet<&'a B>,
) -> Result<String<&'a B>, TranscriptFault>
    ensures script { IfOk result (λ text. IsScriptOf bench.now consoles.now (string_bytes text)) }
    ensures refused { IfErr result (Refuses bench.now consoles.now) }
{
    // form: each hands out what the proof cites
    bench.bench_law();
    replay_law();
    let text = calls_text(bench, consoles, alloc)?;
    read_back(bench, text.as_bytes(), alloc)?;
    Ok(text)
}
