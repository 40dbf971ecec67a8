//! Plays a script on a bench, and gives its report.
ghost use Rattle.std.specs.Prelude.{◌≡◌, ◌++◌, OnOk, IfOk, string_bytes};
ghost use Rattle.run_core.specs.Report.{command_text, after_command, commands_text, after_commands, commands_of, played, report_of};
ghost use Rattle.grammar_core.specs.Scripts.{plain_command, plain_lines, plain_script};

use bench_core::{Bench, Limits};
use dots_core::Oom;
use grammar_core::{Command, Line, Script, node_names};
use report_core::{act, node, put_dots, put_journal, show, unwind, why};
use std::alloc::Allocator;

/// Carries out a command on the bench, and appends what the command prints to the text.
#[tactic(auto, unfolding(crate::specs::Report::command_text, crate::specs::Report::after_command))]
pub fn command<'a, B: Allocator>(
    text: &mut String<&'a B>,
    bench: &mut Bench<'a, B>,
    command: &Command<&'a B>,
    alloc: &'a B,
) -> Result<(), Oom>
    ensures bench { OnOk result (bench.new ≡ after_command bench.old (plain_command command.now)) }
    ensures text { OnOk result (string_bytes text.new ≡ string_bytes text.old ++ command_text bench.old (plain_command command.now)) }
{
    match command {
        Command::Call(actor, call) => act(text, alloc, bench, *actor, call),
        Command::Unwind(actor, number) => unwind(text, alloc, bench, *actor, *number),
        Command::Show(node) => show(text, bench, *node, alloc),
        Command::Dots(at) => put_dots(node(bench, *at), text, bench.names()),
        Command::Why(number) => why(text, bench, *number),
        Command::Journal => put_journal(bench.remaining(), text, bench.names()),
    }
}

/// Carries out the commands of the lines in turn, and appends what they print to the text.
#[tactic(auto, unfolding(crate::specs::Report::commands_text, crate::specs::Report::after_commands))]
pub fn lines<'a, B: Allocator>(
    text: &mut String<&'a B>,
    bench: &mut Bench<'a, B>,
    lines: &[Line<&'a B>],
    alloc: &'a B,
) -> Result<(), Oom>
    ensures bench { OnOk result (bench.new ≡ after_commands bench.old (commands_of (plain_lines lines.now))) }
    ensures text { OnOk result (string_bytes text.new ≡ string_bytes text.old ++ commands_text bench.old (commands_of (plain_lines lines.now))) }
{
    for next in lines {
        command(text, bench, &next.command, alloc)?;
    }
    Ok(())
}

/// The bench as a play of a script left it, and the report of the play.
#[derive(Drop)]
pub struct Played<'a, B: Allocator> {
    pub bench: Bench<'a, B>,
    pub report: Vec<u8, &'a B>,
}

/// Plays a script on a new bench with these limits. What the bench refuses stands in the report; only refused memory is
/// an error.
#[tactic(auto, unfolding(crate::specs::Report::played, crate::specs::Report::report_of))]
pub fn run_script<'a, B: Allocator>(
    script: &Script<&'a B>,
    alloc: &'a B,
    limits: Limits,
) -> Result<Played<'a, B>, Oom>
    ensures bench { IfOk result (λ p. p.bench ≡ played limits (plain_script script.now)) }
    ensures report { IfOk result (λ p. p.report.items ≡ report_of limits (plain_script script.now)) }
{
    let names = node_names(script).try_copy()?;
    let mut bench = Bench::new(alloc, names, limits)?;
    let mut text = String::new(alloc);
    if let Err(oom) = lines(&mut text, &mut bench, grammar_core::lines(script), alloc) {
        // form: drop before exit
        bench.discard();
        return Err(oom);
    }
    Ok(Played {
        bench,
        report: text.into_bytes(),
    })
}
