//! Reads the script of a bench's calls again, and compares it with the calls.
ghost use Rattle.std.specs.Prelude.{◌≡◌, ◌↔◌, IsTrue, IfErr, OnOk, Some, map, option_map, slice_get};
ghost use Rattle.grammar_core.specs.Scripts.{plain_command, plain_lines, plain_script};
ghost use Rattle.run_core.specs.Report.{call_of, commands_of};
ghost use Rattle.transcript_core.specs.Scripts.{Asks, IsReadBack, IsUnread, fault_of};

use crate::fault::TranscriptFault;
use bench_core::{Bench, Event, History};
use grammar_core::{
    Command, FaultKind, Line, Script, ScriptFault, lines, node_names, parse_script,
};
use std::alloc::Allocator;

/// Whether the line asks for the recorded call.
fn asks_call<A: Allocator>(line: &Line<A>, event: &Event<A>) -> bool
    ensures { IsTrue result ↔ (plain_command line.now.command ≡ call_of event.now) }
{
    match &line.command {
        Command::Call(actor, act) => *actor == event.actor && act.same(&event.act),
        _ => false,
    }
}

/// Whether the line asks for the call that was recorded at `place`, counted from 0; no if none was recorded there.
fn asks_at<'a, B: Allocator>(history: &History<'a, B>, place: usize, line: &Line<&'a B>) -> bool
    ensures { IsTrue result ↔ (option_map call_of (slice_get history.now place) ≡ Some (plain_command line.now.command)) }
{
    match history.at(place) {
        Some(event) => asks_call(line, event),
        None => false,
    }
}

/// Whether the lines ask for the recorded calls in their order, all of them and no others.
fn ask_calls<'a, B: Allocator>(history: &History<'a, B>, lines: &[Line<&'a B>]) -> bool
    ensures { IsTrue result ↔ (commands_of (plain_lines lines.now) ≡ map call_of history.now) }
{
    for (place, line) in lines.iter().enumerate() {
        if !asks_at(history, place, line) {
            return false;
        }
    }
    lines.len() == history.len()
}

/// Whether the script names the nodes of the bench, and asks for the bench's recorded calls and nothing else.
fn asks<'a, B: Allocator>(bench: &Bench<'a, B>, script: &Script<&'a B>) -> bool
    ensures { IsTrue result ↔ Asks bench.now (plain_script script.now) }
{
    if !node_names(script).same(bench.names()) {
        return false;
    }
    ask_calls(bench.history(), lines(script))
}

/// Why there is no script, if a reading of the calls' text ends with this fault: `OutOfMemory` if memory was refused,
/// `NoScript` otherwise.
fn fault_of(fault: ScriptFault) -> TranscriptFault
    ensures { result ≡ fault_of fault }
{
    match fault.kind {
        FaultKind::OutOfMemory => TranscriptFault::OutOfMemory,
        _ => TranscriptFault::NoScript { fault },
    }
}

/// Reads the text as a script, and compares it with the calls of the bench. `NoScript` if the text isn't a script;
/// `OtherCalls` if the script names other nodes or asks for other calls.
pub(crate) fn read_back<'a, B: Allocator>(
    bench: &Bench<'a, B>,
    text: &[u8],
    alloc: &'a B,
) -> Result<(), TranscriptFault>
    ensures ok { OnOk result (IsReadBack bench.now text.now) }
    ensures err { IfErr result (IsUnread bench.now text.now) }
{
    let script = match parse_script(alloc, text) {
        Ok(script) => script,
        Err(fault) => return Err(fault_of(fault)),
    };
    let same = asks(bench, &script);
    // form: drop before exit
    drop(script);
    if same {
        Ok(())
    } else {
        Err(TranscriptFault::OtherCalls)
    }
}
