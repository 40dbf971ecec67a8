//! `Script`: a script that was read.
ghost use Rattle.std.specs.Prelude.{◌≡◌, ◌+◌, length, [], option_map, slice_get};
ghost use Rattle.bench_core.specs.Acts.{plain_act, calls_of};
ghost use Rattle.grammar_core.specs.Results.{GivesScript};
ghost use Rattle.grammar_core.specs.Grammar.{call_of, with_calls};
ghost use Rattle.grammar_core.specs.Scripts.{plain_line, plain_lines, plain_script};

use crate::cast::Cast;
use crate::command::Command;
use crate::fault::{FaultKind, ScriptFault};
use bench_core::{Act, Names, TextSet};
use std::alloc::Allocator;

/// A command, and the number of its line in the script, counted from 1; at a prompt the number is 0.
#[derive(Drop)]
pub struct Line<A: Allocator> {
    pub number: u64,
    pub command: Command<A>,
}

/// A script without a fault: who may act, and the commands of the lines, in order.
#[derive(Drop)]
pub struct Script<A: Allocator> {
    pub(crate) cast: Cast<A>,
    pub(crate) lines: Vec<Line<A>, A>,
}

/// The names of the nodes, by number.
pub fn node_names<A: Allocator>(script: &Script<A>) -> &Names<A>
    ensures { result.now ≡ (plain_script script.now).cast.nodes }
{
    script.cast.nodes()
}

/// The names of the consoles, in the order of the `consoles` line; none if the script has no such line.
pub fn console_names<A: Allocator>(script: &Script<A>) -> &TextSet<A>
    ensures { result.now ≡ (plain_script script.now).cast.consoles }
{
    script.cast.consoles()
}

/// The commands with their line numbers, in the order of the lines.
pub fn lines<A: Allocator>(script: &Script<A>) -> &[Line<A>]
    ensures { plain_lines result.now ≡ (plain_script script.now).lines }
{
    &script.lines
}

/// The number of the line whose command stands at `place`, counted from 0 among the commands; `None` if there is no
/// such command.
pub fn line_number<A: Allocator>(script: &Script<A>, place: usize) -> Option<u64>
    ensures { result ≡ option_map (λ line. line.number) (slice_get (plain_script script.now).lines place) }
{
    Some(script.lines.get(place)?.number)
}

/// How many actors there are: nodes and consoles.
pub fn actors<A: Allocator>(script: &Script<A>) -> u16
    ensures { result ≡ length (plain_script script.now).cast.nodes + length (plain_script script.now).cast.consoles }
{
    script.cast.len()
}

/// The actor and the act of a line; `NotAllowed` if its command isn't an act.
fn call_of<A: Allocator + Copy>(line: &Line<A>) -> Result<(u16, Act<A>), ScriptFault>
    ensures { GivesScript (λ call. (call.0, plain_act call.1)) result (call_of (plain_line line.now)) }
{
    match &line.command {
        Command::Call(actor, act) => Ok((*actor, act.try_copy()?)),
        _ => Err(ScriptFault {
            line: line.number,
            kind: FaultKind::NotAllowed,
        }),
    }
}

/// The acts of the lines in order, each with its actor. `NotAllowed` for the first line that isn't an act; an `unwind`
/// isn't an act.
#[tactic(auto, unfolding(crate::specs::Grammar::with_calls))]
pub fn acts<A: Allocator + Copy>(
    alloc: A,
    script: &Script<A>,
) -> Result<Vec<(u16, Act<A>), A>, ScriptFault>
    ensures { GivesScript (λ calls. calls_of calls.items) result (with_calls [] (plain_script script.now).lines) }
{
    let mut calls = Vec::with_capacity(alloc, script.lines.len())?;
    for line in &script.lines {
        calls.push(call_of(line)?)?;
    }
    Ok(calls)
}
