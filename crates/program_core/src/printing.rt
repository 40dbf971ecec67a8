//! Prints what each choice of the command line asks for.
ghost use Rattle.std.specs.Prelude.{◌≡◌, ◌≢◌, ◌⊎◌, IfErr, IfOk, OnOk};
ghost use Rattle.std.specs.Io.KnownBytes.{IsAtEnd};
ghost use Rattle.command_line.specs.declared.chosen.Form.{Form};
ghost use Rattle.command_line.specs.declared.chosen.Form.TheVariants as forms;
ghost use Rattle.command_line.specs.declared.chosen.Subcommand.TheVariants as subcommands;
ghost use Rattle.progress_core.specs.Lines.{TellsTried, TellsWalked};
ghost use Rattle.run_core.specs.Report.{history_text};
ghost use Rattle.program_core.specs.Program.{EndsAt, EndsSoon, FailsAs, IsEarly, IsReadBy, KeepsBefore, TellsMemory, TellsOn, TellsWhole, question_of};

use crate::exploring::tell_explored;
use crate::fault::ProgramFault;
use crate::host::Setting;
use crate::importing::{Wanted, import_events};
use crate::inputs::read_bench;
use crate::notes::Notes;
use crate::pages::page_run;
use crate::pictures::draw_run;
use crate::racing::race_script;
use crate::shown::{load_shown, play_shown};
use crate::stepping::step_script;
use crate::text::print;
use crate::texts::{read_script, session_line};
use crate::whatifs::tell_whatif;
use bench_core::Bench;
use command_line::{Choice, ExploreOptions, Form, Subcommand, WhatifOptions};
use dots_core::Oom;
use explain_core::{Question, explain_asked};
use progress_core::Teller;
use script_core::report_history;
use std::alloc::Allocator;
use std::io::{Read, Write};
use std::sync::Wait;
use std::sync::ledger::Ledger;
use std::thread::Threads;
use std::time::Clock;

/// The report of what the bench recorded.
fn history_of<'a, B: Allocator>(
    bench: &mut Bench<'a, B>,
    alloc: &'a B,
) -> Result<Vec<u8, &'a B>, Oom>
    ensures { IfOk result (λ report. report.items ≡ history_text bench.old) }
{
    // form: mutable, as the owner lends it so
    report_history(bench, alloc)
}

/// Races the lines of the script that the input gives, and prints the report of what the race recorded. If the input is
/// refused, `notes` gets the hint, if there is one.
fn race_report<B: Allocator + Sync, T: Threads + Wait + Sync, C, R: Read, W: Write, E, L: Ledger>(
    setting: &Setting<'_, B, T, C>,
    reader: &mut R,
    writer: &mut W,
    notes: &mut Notes<R, E, L>,
) -> Result<(), ProgramFault>
    ensures ends { (form : Form) → form ≢ forms.Session → EndsAt subcommands.Race form setting.now.limits (R.remaining reader.old) result
        (W.contents writer.old) (W.contents writer.new) }
    ensures read { OnOk result (IsAtEnd (R.remaining reader.new)) }
    ensures unwritten { IfErr result (λ fault. KeepsBefore fault (W.contents writer.old) (W.contents writer.new)) }
    ensures memory { IfErr result TellsMemory }
    ensures failed { FailsAs result notes.old.steps notes.new.steps }
{
    let alloc = setting.host.alloc;
    let script = read_script(alloc, reader, &mut notes.aside, &mut notes.steps)?;
    let bench = race_script(setting.host.threads, alloc, &script, setting.limits);
    // form: drop before exit
    drop(script);
    let mut bench = bench?;
    let text = history_of(&mut bench, alloc);
    bench.discard();
    let Ok(text) = text else {
        return Err(ProgramFault::OutOfMemory);
    };
    print(writer, &text)
}

/// Races the lines of the script that the input gives, and prints the session of the bench that the race leaves. If the
/// input is refused, `notes` gets the hint, if there is one.
fn race_session<B: Allocator + Sync, T: Threads + Wait + Sync, C, R: Read, W: Write, E, L: Ledger>(
    setting: &Setting<'_, B, T, C>,
    reader: &mut R,
    writer: &mut W,
    notes: &mut Notes<R, E, L>,
) -> Result<(), ProgramFault>
    ensures ends { EndsAt subcommands.Race forms.Session setting.now.limits (R.remaining reader.old) result (W.contents writer.old) (W.contents writer.new) }
    ensures read { OnOk result (IsAtEnd (R.remaining reader.new)) }
    ensures unwritten { IfErr result (λ fault. KeepsBefore fault (W.contents writer.old) (W.contents writer.new)) }
    ensures memory { IfErr result TellsMemory }
    ensures failed { FailsAs result notes.old.steps notes.new.steps }
{
    let alloc = setting.host.alloc;
    let script = read_script(alloc, reader, &mut notes.aside, &mut notes.steps)?;
    let bench = race_script(setting.host.threads, alloc, &script, setting.limits);
    // form: drop before exit
    drop(script);
    let mut bench = bench?;
    let text = session_line(setting.host.heap, &mut bench);
    bench.discard();
    let Ok(text) = text else {
        return Err(ProgramFault::OutOfMemory);
    };
    print(writer, &text)
}

/// The question that was chosen, as `explain_core` takes it.
fn question_of<'w>(chosen: command_line::Question<'w>) -> Question<'w>
    ensures { result ≡ question_of chosen.entry }
{
    Question {
        node: chosen.node,
        topic: chosen.topic,
        key: chosen.key,
    }
}

/// Prints why presences are online at a node of the bench that the input gives, or why not. If the input is refused,
/// `notes` gets the hint, if there is one.
fn explain_bench<B: Allocator, T, C, R: Read, W: Write, E, L: Ledger>(
    setting: &Setting<'_, B, T, C>,
    question: command_line::Question<'_>,
    reader: &mut R,
    writer: &mut W,
    notes: &mut Notes<R, E, L>,
) -> Result<(), ProgramFault>
    ensures ends { (form : Form) → EndsAt (subcommands.Explain question.entry) form setting.now.limits (R.remaining reader.old) result (W.contents writer.old)
        (W.contents writer.new) }
    ensures read { OnOk result (IsAtEnd (R.remaining reader.new)) }
    ensures unwritten { IfErr result (λ fault. KeepsBefore fault (W.contents writer.old) (W.contents writer.new)) }
    ensures memory { IfErr result TellsMemory }
    ensures failed { FailsAs result notes.old.steps notes.new.steps }
{
    let bench = read_bench(setting, reader, notes)?;
    let told = explain_asked(&bench, setting.host.alloc, question_of(question));
    // form: drop before exit
    bench.discard();
    // form: a `match`, as the proof cites what `ProgramFault::from` ensures
    let text = match told {
        Ok(text) => text,
        Err(fault) => return Err(ProgramFault::from(fault)),
    };
    print(writer, text.as_bytes())
}

/// Prints what would have made a difference to presences at a node of the bench that the input gives, or the run with
/// one change. Lines on `errors` tell how many changes were tried. If the input is refused, `notes` gets the hint, if
/// there is one.
fn tell_changes<B: Allocator, T, C: Clock, R: Read, W: Write, E: Write, L: Ledger>(
    setting: &Setting<'_, B, T, C>,
    asked: WhatifOptions<'_>,
    reader: &mut R,
    writer: &mut W,
    errors: &mut E,
    notes: &mut Notes<R, E, L>,
) -> Result<(), ProgramFault>
    ensures ends { (form : Form) → EndsAt (subcommands.Whatif asked.entry) form setting.now.limits (R.remaining reader.old) result (W.contents writer.old)
        (W.contents writer.new) }
    ensures read { OnOk result (IsAtEnd (R.remaining reader.new)) }
    ensures unwritten { IfErr result (λ fault. KeepsBefore fault (W.contents writer.old) (W.contents writer.new)) }
    ensures memory { IfErr result TellsMemory }
    ensures failed { FailsAs result notes.old.steps notes.new.steps }
    ensures progress { TellsTried (E.contents errors.old) (E.contents errors.new) }
{
    let mut bench = read_bench(setting, reader, notes)?;
    let mut teller = Teller::new(setting.host.heap, setting.host.clock, errors);
    let told = tell_whatif(&mut bench, setting.host.alloc, asked, &mut teller);
    // form: drop before exit
    bench.discard();
    // form: a `match`, as the proof cites what `ProgramFault::from` ensures
    let text = match told {
        Ok(text) => text,
        Err(fault) => return Err(ProgramFault::from(fault)),
    };
    print(writer, text.as_bytes())
}

/// Prints what the network could have made of the bench that the input gives, or a run that leads to one outcome. Lines
/// on `errors` tell how far the walk has come. If the input is refused, `notes` gets the hint, if there is one.
fn explore_bench<B: Allocator, T, C: Clock, R: Read, W: Write, E: Write, L: Ledger>(
    setting: &Setting<'_, B, T, C>,
    asked: ExploreOptions<'_>,
    reader: &mut R,
    writer: &mut W,
    errors: &mut E,
    notes: &mut Notes<R, E, L>,
) -> Result<(), ProgramFault>
    ensures ends { (form : Form) → EndsAt (subcommands.Explore asked.entry) form setting.now.limits (R.remaining reader.old) result (W.contents writer.old)
        (W.contents writer.new) }
    ensures read { OnOk result (IsAtEnd (R.remaining reader.new)) }
    ensures unwritten { IfErr result (λ fault. KeepsBefore fault (W.contents writer.old) (W.contents writer.new)) }
    ensures memory { IfErr result TellsMemory }
    ensures failed { FailsAs result notes.old.steps notes.new.steps }
    ensures progress { TellsWalked (E.contents errors.old) (E.contents errors.new) }
{
    let mut bench = read_bench(setting, reader, notes)?;
    let mut teller = Teller::new(setting.host.heap, setting.host.clock, errors);
    let told = tell_explored(&mut bench, setting.host.alloc, asked, &mut teller);
    // form: drop before exit
    bench.discard();
    // form: a `match`, as the proof cites what `ProgramFault::from` ensures
    let text = match told {
        Ok(text) => text,
        Err(fault) => return Err(ProgramFault::from(fault)),
    };
    print(writer, text.as_bytes())
}

/// Does what was chosen. At a prompt it responds to each line before it reads the next. Else it reads the input first,
/// and writes nothing before the whole text is ready. On `errors` stand only the signs of a prompt on a terminal, how
/// far long work has come, and what is missing from an import. `notes` gets the hint for an input that is refused,
/// counts the calls of `read`, and notes if what is missing can't be written.
pub fn carry_out<
    B: Allocator + Sync,
    T: Threads + Wait + Sync,
    C: Clock,
    R: Read,
    W: Write,
    E: Write,
    L: Ledger,
>(
    setting: &Setting<'_, B, T, C>,
    choice: Choice<'_>,
    reader: &mut R,
    writer: &mut W,
    errors: &mut E,
    notes: &mut Notes<R, E, L>,
) -> Result<(), ProgramFault>
    ensures ends { EndsAt choice.entry.command choice.entry.form setting.now.limits (R.remaining reader.old) result (W.contents writer.old)
        (W.contents writer.new) }
    ensures read { OnOk result (IsReadBy choice.entry.command (R.remaining reader.old) (R.remaining reader.new)) }
    ensures unwritten { IfErr result (λ fault. KeepsBefore fault (W.contents writer.old) (W.contents writer.new)) }
    ensures memory { IfErr result TellsMemory }
    ensures failed { FailsAs result notes.old.steps notes.new.steps }
    ensures early { EndsSoon choice.entry.command setting.now.limits result (R.remaining reader.old) (R.remaining reader.new) (W.contents writer.old)
        (W.contents writer.new) }
    ensures aside { TellsOn setting.now.terminal setting.now.limits choice.entry.command choice.entry.form (R.remaining reader.old) (E.contents errors.old)
        (E.contents errors.new) }
    ensures told { IsEarly result ⊎ TellsWhole choice.entry.command choice.entry.form setting.now.limits (R.remaining reader.old) notes.new.lost
        (E.contents errors.old) (E.contents errors.new) }
{
    match (choice.command, choice.form) {
        (Subcommand::Play { strict }, form) => {
            play_shown(setting, form, strict, reader, writer, notes)
        }
        (Subcommand::Load { strict }, form) => {
            load_shown(setting, form, strict, reader, writer, notes)
        }
        (Subcommand::Race, Form::Session) => race_session(setting, reader, writer, notes),
        (Subcommand::Race, _) => race_report(setting, reader, writer, notes),
        (Subcommand::Import(options), form) => {
            let wanted = Wanted { options, form };
            import_events(setting, wanted, reader, writer, errors, notes)
        }
        (Subcommand::Step, _) => step_script(setting, reader, writer, errors, &mut notes.steps),
        (Subcommand::Explore(asked), _) => {
            explore_bench(setting, asked, reader, writer, errors, notes)
        }
        (Subcommand::Draw(drawing), _) => draw_run(setting, drawing, reader, writer, notes),
        (Subcommand::Page, _) => page_run(setting, reader, writer, notes),
        (Subcommand::Explain(question), _) => {
            explain_bench(setting, question, reader, writer, notes)
        }
        (Subcommand::Whatif(asked), _) => {
            tell_changes(setting, asked, reader, writer, errors, notes)
        }
    }
}
