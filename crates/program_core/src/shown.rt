//! What is shown of a played script, or of a session that is played again, in the form that was chosen. In a strict run
//! a refused act or unwind is a fault.
ghost use Rattle.std.specs.Prelude.{◌≡◌, IfErr, IfOk, OnOk};
ghost use Rattle.std.specs.Io.KnownBytes.{IsAtEnd};
ghost use Rattle.grammar_core.specs.Scripts.{plain_script};
ghost use Rattle.run_core.specs.Report.{history_text, played};
ghost use Rattle.transcript_core.specs.Scripts.{IsScriptOf};
ghost use Rattle.transcript_core.specs.Steps.{bench_steps, script_steps};
ghost use Rattle.command_line.specs.declared.chosen.Subcommand.TheVariants as subcommands;
ghost use Rattle.program_core.specs.Program.{EndsAt, FailsAs, KeepsBefore, TellsMemory};
ghost use Rattle.program_core.specs.Shown.{EndsAsShown, IsWant, PrintsBench, PrintsPlay, RefusesBench, RefusesCalls, RefusesPlay, ShowsBench, ShowsScript, refused_act, refused_line};
ghost use Rattle.program_core.specs.Texts.{session_text, text_bytes};

use crate::fault::{ProgramFault, Refused};
use crate::host::Setting;
use crate::inputs::consoles_of;
use crate::notes::Notes;
use crate::text::{Text, bytes_of, print};
use crate::texts::{read_script, session_line, tell_session};
use bench_core::{Bench, Limits, TextSet};
use command_line::Form;
use script_core::{Played, Script, console_names, run_script};
use std::alloc::{Allocator, Global};
use std::io::{Read, Write};
use std::sync::ledger::Ledger;
use transcript_core::{bench_steps, first_in, first_refused, script_of_calls, script_steps};

/// The text to print, and, in a strict run, the first act or unwind that was refused, if any was.
#[derive(Drop)]
pub struct Shown<A: Allocator> {
    pub text: Text<A>,
    pub refused: Option<Refused>,
}

/// The report of a script with each line above what it printed. A play of the script with `limits` must have ended with
/// `bench`.
fn steps_of_script<'a, B: Allocator>(
    script: &Script<&'a B>,
    alloc: &'a B,
    limits: Limits,
    bench: &mut Bench<'a, B>,
) -> Result<Text<&'a B>, ProgramFault>
    requires { bench.old ≡ played limits (plain_script script.now) }
    ensures ok { IfOk result (λ text. text_bytes text ≡ script_steps limits (plain_script script.now)) }
    ensures err { IfErr result IsWant }
{
    match script_steps(script, alloc, limits, bench) {
        Ok(text) => Ok(Text::Own(text)),
        Err(_) => Err(ProgramFault::OutOfMemory),
    }
}

/// The report of the calls that a bench recorded, with each call above what it printed.
fn steps_of_bench<'a, B: Allocator>(
    bench: &mut Bench<'a, B>,
    alloc: &'a B,
    consoles: &TextSet<&'a B>,
) -> Result<Text<&'a B>, ProgramFault>
    ensures ok { IfOk result (λ text. text_bytes text ≡ bench_steps bench.old consoles.now) }
    ensures err { IfErr result IsWant }
{
    match bench_steps(bench, alloc, consoles) {
        Ok(text) => Ok(Text::Own(text)),
        Err(_) => Err(ProgramFault::OutOfMemory),
    }
}

/// The recorded calls as a script, in which the consoles have these names.
fn calls_of<'a, B: Allocator>(
    bench: &mut Bench<'a, B>,
    alloc: &'a B,
    consoles: &TextSet<&'a B>,
) -> Result<Text<&'a B>, ProgramFault>
    ensures ok { IfOk result (λ text. IsScriptOf bench.old consoles.now (text_bytes text)) }
    ensures err { IfErr result (RefusesCalls bench.old consoles.now) }
{
    // form: each arm is a case of the proof
    match script_of_calls(bench, alloc, consoles) {
        Ok(text) => Ok(Text::Own(text.into_bytes())),
        Err(fault) => Err(ProgramFault::from(fault)),
    }
}

/// The session of a bench, and a line feed.
fn session_of<'a, B: Allocator>(
    heap: Global,
    bench: &mut Bench<'a, B>,
) -> Result<Text<&'a B>, ProgramFault>
    ensures ok { IfOk result (λ text. text_bytes text ≡ session_text bench.old) }
    ensures err { IfErr result IsWant }
{
    match session_line(heap, bench) {
        Ok(text) => Ok(Text::Heap(text)),
        Err(_) => Err(ProgramFault::OutOfMemory),
    }
}

/// Plays a script, and gives what is printed of the play in this form.
fn played_text<'a, B: Allocator>(
    script: &Script<&'a B>,
    heap: Global,
    alloc: &'a B,
    limits: Limits,
    form: Form,
) -> Result<Text<&'a B>, ProgramFault>
    ensures ok { IfOk result (λ text. PrintsPlay form limits (plain_script script.now) (text_bytes text)) }
    ensures err { IfErr result (RefusesPlay form limits (plain_script script.now)) }
{
    let Ok(played) = run_script(script, alloc, limits) else {
        return Err(ProgramFault::OutOfMemory);
    };
    let Played { mut bench, report } = played;
    let text = match form {
        // only an import chooses a page
        Form::Report | Form::Page => Ok(Text::Own(report)),
        Form::Steps => steps_of_script(script, alloc, limits, &mut bench),
        Form::Script => calls_of(&mut bench, alloc, console_names(script)),
        Form::Session => session_of(heap, &mut bench),
    };
    // form: drop before exit
    bench.discard();
    text
}

/// What is printed, in this form, of a session that was played again.
fn told_text<'a, B: Allocator>(
    heap: Global,
    alloc: &'a B,
    told: Played<'a, B>,
    form: Form,
) -> Result<Text<&'a B>, ProgramFault>
    requires { told.report.items ≡ history_text told.bench }
    ensures ok { IfOk result (λ text. PrintsBench form told.entry.bench (text_bytes text)) }
    ensures err { IfErr result (RefusesBench form told.entry.bench) }
{
    let Played { mut bench, report } = told;
    let Ok(consoles) = consoles_of(&mut bench, alloc) else {
        // form: drop before exit
        bench.discard();
        return Err(ProgramFault::OutOfMemory);
    };
    let text = match form {
        // only an import chooses a page
        Form::Report | Form::Page => Ok(Text::Own(report)),
        Form::Steps => steps_of_bench(&mut bench, alloc, &consoles),
        Form::Script => calls_of(&mut bench, alloc, &consoles),
        Form::Session => session_of(heap, &mut bench),
    };
    bench.discard();
    text
}

/// The first act or unwind that is refused when the script is played; `None` if none is, or the run isn't strict.
fn refused_line<'a, B: Allocator>(
    script: &Script<&'a B>,
    alloc: &'a B,
    limits: Limits,
    strict: bool,
) -> Result<Option<Refused>, ProgramFault>
    ensures ok { IfOk result (λ refused. refused ≡ refused_line strict limits (plain_script script.now)) }
    ensures err { IfErr result IsWant }
{
    if !strict {
        return Ok(None);
    }
    match first_refused(script, alloc, limits) {
        Ok(Some(refusal)) => Ok(Some(Refused::Line {
            number: refusal.number,
            fault: refusal.fault,
        })),
        Ok(None) => Ok(None),
        Err(_) => Err(ProgramFault::OutOfMemory),
    }
}

/// The first refused call that a bench recorded; `None` if no call was refused, or the run isn't strict.
fn refused_act<'a, B: Allocator>(bench: &mut Bench<'a, B>, strict: bool) -> Option<Refused>
    ensures refused { result ≡ refused_act strict bench.old }
    ensures bench { bench.new ≡ bench.old }
{
    if !strict {
        return None;
    }
    match first_in(bench) {
        Some(refusal) => Some(Refused::Act {
            number: refusal.number,
            fault: refusal.fault,
        }),
        None => None,
    }
}

/// Plays a script, and gives what is shown of the play in this form. In a strict run plays the script once more, to
/// find the first refusal.
fn show_script<'a, B: Allocator>(
    script: &Script<&'a B>,
    heap: Global,
    alloc: &'a B,
    limits: Limits,
    form: Form,
    strict: bool,
) -> Result<Shown<&'a B>, ProgramFault>
    ensures ok { IfOk result (λ shown. ShowsScript strict form limits (plain_script script.now) (text_bytes shown.text) shown.refused) }
    ensures err { IfErr result (RefusesPlay form limits (plain_script script.now)) }
{
    let refused = refused_line(script, alloc, limits, strict)?;
    let text = played_text(script, heap, alloc, limits, form)?;
    Ok(Shown { text, refused })
}

/// What is shown, in this form, of a session that was played again.
fn show_session<'a, B: Allocator>(
    heap: Global,
    alloc: &'a B,
    mut told: Played<'a, B>,
    form: Form,
    strict: bool,
) -> Result<Shown<&'a B>, ProgramFault>
    requires { told.report.items ≡ history_text told.bench }
    ensures ok { IfOk result (λ shown. ShowsBench strict form told.entry.bench (text_bytes shown.text) shown.refused) }
    ensures err { IfErr result (RefusesBench form told.entry.bench) }
{
    let refused = refused_act(&mut told.bench, strict);
    let text = told_text(heap, alloc, told, form)?;
    Ok(Shown { text, refused })
}

/// Writes the text of `shown`. Then, if an act or an unwind was refused in a strict run, ends with the fault `Refused`.
fn finish<W: Write, A: Allocator>(writer: &mut W, shown: &Shown<A>) -> Result<(), ProgramFault>
    ensures { EndsAsShown (text_bytes shown.now.text) shown.now.refused result (W.contents writer.old) (W.contents writer.new) }
{
    print(writer, bytes_of(&shown.text))?;
    match shown.refused {
        Some(refused) => Err(ProgramFault::Refused(refused)),
        None => Ok(()),
    }
}

/// Reads and plays a script, and prints the play in the form that was chosen. If an act or an unwind was refused in a
/// strict run, ends with the fault `Refused` once the text is written. If the input is refused, `notes` gets the hint,
/// if there is one.
pub fn play_shown<B: Allocator, T, C, R: Read, W: Write, E, L: Ledger>(
    setting: &Setting<'_, B, T, C>,
    form: Form,
    strict: bool,
    reader: &mut R,
    writer: &mut W,
    notes: &mut Notes<R, E, L>,
) -> Result<(), ProgramFault>
    ensures ends { EndsAt (subcommands.Play strict) form setting.now.limits (R.remaining reader.old) result (W.contents writer.old) (W.contents writer.new) }
    ensures read { OnOk result (IsAtEnd (R.remaining reader.new)) }
    ensures unwritten { IfErr result (λ fault. KeepsBefore fault (W.contents writer.old) (W.contents writer.new)) }
    ensures memory { IfErr result TellsMemory }
    ensures failed { FailsAs result notes.old.steps notes.new.steps }
{
    let alloc = setting.host.alloc;
    let script = read_script(alloc, reader, &mut notes.aside, &mut notes.steps)?;
    let shown = show_script(
        &script,
        setting.host.heap,
        alloc,
        setting.limits,
        form,
        strict,
    );
    // form: drop before exit
    drop(script);
    // form: each arm is a case of the proof
    match shown {
        Ok(shown) => finish(writer, &shown),
        Err(fault) => Err(fault),
    }
}

/// Reads a session, plays it again, and prints that play in the form that was chosen. If a call was refused in a strict
/// run, ends with the fault `Refused` once the text is written. If the input is refused, `notes` gets the hint, if
/// there is one.
pub fn load_shown<B: Allocator, T, C, R: Read, W: Write, E, L: Ledger>(
    setting: &Setting<'_, B, T, C>,
    form: Form,
    strict: bool,
    reader: &mut R,
    writer: &mut W,
    notes: &mut Notes<R, E, L>,
) -> Result<(), ProgramFault>
    ensures ends { EndsAt (subcommands.Load strict) form setting.now.limits (R.remaining reader.old) result (W.contents writer.old) (W.contents writer.new) }
    ensures read { OnOk result (IsAtEnd (R.remaining reader.new)) }
    ensures unwritten { IfErr result (λ fault. KeepsBefore fault (W.contents writer.old) (W.contents writer.new)) }
    ensures memory { IfErr result TellsMemory }
    ensures failed { FailsAs result notes.old.steps notes.new.steps }
{
    let heap = setting.host.heap;
    let alloc = setting.host.alloc;
    let told = tell_session(heap, alloc, reader, &mut notes.aside, &mut notes.steps)?;
    // form: each arm is a case of the proof
    match show_session(heap, alloc, told, form, strict) {
        Ok(shown) => finish(writer, &shown),
        Err(fault) => Err(fault),
    }
}
