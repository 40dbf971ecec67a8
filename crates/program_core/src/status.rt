//! `program`: from the words to the status, with borrowed streams and a borrowed clock.
ghost use Rattle.std.specs.Prelude.{◌≡◌, ◌≢◌, ◌⊎◌, IfErr, IfOk, OnOk, map, string_bytes};
ghost use Rattle.std.specs.Io.KnownBytes.{Keeps};
ghost use Rattle.clap.specs.Words.{kind_of};
ghost use Rattle.program_core.specs.Program.{status_of, Announces, EndsAt, EndsProgram, EndsRefused, EndsSoon, Exits, FailsAs, IsEarly, IsEnd, IsFine, IsQuiet, IsQuietOn, IsReadBy, KeepsBefore, PrintsHelp, TellsAsChosen, TellsBehind, TellsBeside, TellsInput, TellsMemory, input_line, usual, word_of};
ghost use Rattle.stream_core.specs.Steps.{Steps as Count};

use crate::aside::Aside;
use crate::fault::ProgramFault;
use crate::host::{Host, Setting};
use crate::notes::Notes;
use crate::printing::carry_out;
use bench_core::Limits;
use clap::error::ErrorKind;
use command_line::{Choice, Subcommand, choice};
use dots_core::Oom;
use script_core::{Steps, write_out};
use std::alloc::{Allocator, Global};
use std::convert::AsStr;
use std::io::{Read, Write};
use std::marker::Brand;
use std::sync::Wait;
use std::sync::ledger::{Blank, Ledger};
use std::thread::Threads;
use std::time::Clock;

/// The status of an outcome: 0, or that of the fault.
fn status_of(outcome: Result<(), ProgramFault>) -> u8
    ensures { result ≡ status_of outcome }
{
    match outcome {
        Ok(()) => 0,
        Err(fault) => fault.status(),
    }
}

/// If the outcome is a fault, prints the fault as a line on `errors`, and then the hint, if there is one, both as far
/// as they can be written. Prints nothing for a check that found a difference.
fn tell_fault<E: Write>(outcome: Result<(), ProgramFault>, aside: &Aside, errors: &mut E)
    ensures quiet { IsFine outcome → E.contents errors.new ≡ E.contents errors.old }
{
    match outcome {
        Ok(()) | Err(ProgramFault::Differs) => {}
        Err(fault) => {
            let _ = writeln!(errors, "presence_bench: {fault}");
            aside.put(fault, errors);
        }
    }
}

/// The word that chooses the subcommand.
fn word_of(command: Subcommand<'_>) -> &'static str
    ensures { result.now ≡ word_of command.entry }
{
    match command {
        Subcommand::Play { .. } => "play",
        Subcommand::Race => "race",
        Subcommand::Load { .. } => "load",
        Subcommand::Import(_) => "import",
        Subcommand::Explore(_) => "explore",
        Subcommand::Step => "step",
        Subcommand::Draw(_) => "draw",
        Subcommand::Page => "page",
        Subcommand::Explain(_) => "explain",
        Subcommand::Whatif(_) => "whatif",
    }
}

/// The line that says that the subcommand reads standard input.
#[tactic(auto, unfolding(crate::specs::Program::input_line))]
fn input_line(heap: Global, command: Subcommand<'_>) -> Result<String, Oom>
    ensures { IfOk result (λ line. string_bytes line ≡ input_line command.entry) }
{
    let word = word_of(command);
    Ok(format!(in heap; "presence_bench: reads standard input: presence_bench {word} < FILE\n")?)
}

/// Says on `errors` that the subcommand reads standard input, which is a terminal. Says nothing if memory is refused;
/// neither that nor a failed write is a fault.
fn tell_input<E: Write>(heap: Global, command: Subcommand<'_>, errors: &mut E)
    ensures { TellsInput command.entry (E.contents errors.old) (E.contents errors.new) }
{
    let Ok(line) = input_line(heap, command) else {
        return;
    };
    let _ = write_out(errors, line.as_bytes());
}

/// Like `tell_input`, but says nothing if the input isn't a terminal, or the subcommand is a prompt.
fn announce<E: Write>(heap: Global, command: Subcommand<'_>, errors: &mut E, terminal: bool)
    ensures { Announces terminal command.entry (E.contents errors.old) (E.contents errors.new) }
{
    if !terminal {
        return;
    }
    match command {
        Subcommand::Step => {}
        _ => tell_input(heap, command, errors),
    }
}

/// Says what `announce` says, and then does what was chosen.
fn carry_out_announced<
    B: Allocator + Sync,
    T: Threads + Wait + Sync,
    C: Clock,
    R: Read,
    W: Write,
    E: Write,
    L: Ledger,
>(
    setting: &Setting<'_, B, T, C>,
    choice: Choice<'_>,
    reader: &mut R,
    writer: &mut W,
    errors: &mut E,
    notes: &mut Notes<R, E, L>,
) -> Result<(), ProgramFault>
    ensures ends { EndsAt choice.entry.command choice.entry.form setting.now.limits (R.remaining reader.old) result (W.contents writer.old)
        (W.contents writer.new) }
    ensures read { OnOk result (IsReadBy choice.entry.command (R.remaining reader.old) (R.remaining reader.new)) }
    ensures unwritten { IfErr result (λ fault. KeepsBefore fault (W.contents writer.old) (W.contents writer.new)) }
    ensures memory { IfErr result TellsMemory }
    ensures failed { FailsAs result notes.old.steps notes.new.steps }
    ensures early { EndsSoon choice.entry.command setting.now.limits result (R.remaining reader.old) (R.remaining reader.new) (W.contents writer.old)
        (W.contents writer.new) }
    ensures aside { TellsBeside setting.now.terminal setting.now.limits choice.entry.command choice.entry.form (R.remaining reader.old) (E.contents errors.old)
        (E.contents errors.new) }
    ensures told { IsEarly result ⊎ TellsBehind setting.now.terminal setting.now.limits choice.entry.command choice.entry.form
        (R.remaining reader.old) notes.new.lost (E.contents errors.old) (E.contents errors.new) }
{
    announce(setting.host.heap, choice.command, errors, setting.terminal);
    carry_out(setting, choice, reader, writer, errors, notes)
}

/// Does what `carry_out_announced` does, and gives the status. Prints a fault and its hint on `errors`, as `tell_fault`
/// does.
fn run_choice<
    B: Allocator + Sync,
    T: Threads + Wait + Sync,
    C: Clock,
    R: Read,
    W: Write,
    E: Write,
    L: Ledger,
>(
    setting: &Setting<'_, B, T, C>,
    choice: Choice<'_>,
    reader: &mut R,
    writer: &mut W,
    errors: &mut E,
    notes: &mut Notes<R, E, L>,
) -> u8
    ensures exits { Exits choice.entry (R.remaining reader.old) (R.remaining reader.new) setting.now.limits result (W.contents writer.old)
        (W.contents writer.new) notes.old.steps notes.new.steps }
    ensures aside { result ≡ 0 → TellsBeside setting.now.terminal setting.now.limits choice.entry.command choice.entry.form (R.remaining reader.old)
        (E.contents errors.old) (E.contents errors.new) }
    ensures told { IsEnd result → TellsBehind setting.now.terminal setting.now.limits choice.entry.command choice.entry.form
        (R.remaining reader.old) notes.new.lost (E.contents errors.old) (E.contents errors.new) }
{
    let outcome = carry_out_announced(setting, choice, reader, writer, errors, notes);
    tell_fault(outcome, &notes.aside, errors);
    status_of(outcome)
}

/// Prints that a request for memory was refused, and gives the status of that fault.
pub fn tell_out_of_memory<E: Write>(errors: &mut E) -> u8
    ensures status { result ≡ 4 }
{
    let _ = writeln!(errors, "presence_bench: {}", ProgramFault::OutOfMemory);
    4
}

/// Prints the help or the version, and gives the status: 0, or 3 if that can't be written.
fn print_help<W: Write, E: Write>(help: &clap::Error, writer: &mut W, errors: &mut E) -> u8
    ensures status { PrintsHelp result }
    ensures no_end { result ≢ 6 }
    ensures quiet { result ≡ 0 → Keeps (E.contents errors.old) (E.contents errors.new) }
{
    if write!(writer, "{help}").is_err() {
        let _ = writeln!(errors, "presence_bench: write fault");
        return 3;
    }
    0
}

/// The hint for a word too many, which is mostly the name of a file.
const FILE_HINT: &str =
    "hint: the input is read from standard input; put < before the name of a file\n";

/// The text with `\u{..}` in place of each character but line feeds, spaces and graphic ASCII: a terminal obeys some
/// of the others, and a word may have any.
fn escaped(heap: Global, text: &str) -> Result<String, Oom> {
    let mut escaped = String::new(heap);
    for letter in text.chars() {
        if letter == '\n' || letter == ' ' || letter.is_ascii_graphic() {
            escaped.push(letter)?;
        } else {
            for part in letter.escape_unicode() {
                escaped.push(part)?;
            }
        }
    }
    Ok(escaped)
}

/// Prints what is wrong with the words. If that is a word too many which doesn't begin with `-`, prints a hint, too,
/// since such a word may be the name of a file. Prints nothing if memory is refused.
fn tell_words<E: Write>(heap: Global, fault: &clap::Error, errors: &mut E) {
    let Ok(text) = format!(in heap; "{fault}") else {
        return;
    };
    let Ok(line) = escaped(heap, &text) else {
        return;
    };
    let _ = errors.write_all(line.as_bytes());
    if fault.kind() == ErrorKind::UnknownArgument && !text.contains("argument '-") {
        let _ = errors.write_all(FILE_HINT.as_bytes());
    }
}

/// Prints what words get that choose nothing, and gives the status. Help and the version go to the output; a fault of
/// the words goes to the errors, and has the status 2, or 4 if memory was refused.
fn refuse<W: Write, E: Write>(
    heap: Global,
    fault: &clap::Error,
    writer: &mut W,
    errors: &mut E,
) -> u8
    ensures ends { EndsRefused (kind_of fault.now) result (W.contents writer.old) (W.contents writer.new) }
    ensures no_end { result ≢ 6 }
    ensures quiet { result ≡ 0 → Keeps (E.contents errors.old) (E.contents errors.new) }
{
    match fault.kind() {
        ErrorKind::OutOfMemory => tell_out_of_memory(errors),
        ErrorKind::DisplayHelp | ErrorKind::DisplayVersion => print_help(fault, writer, errors),
        _ => {
            tell_words(heap, fault, errors);
            2
        }
    }
}

/// Does what the words after the program's name ask for, and gives the status. `notes` counts the calls of `read`, and
/// notes if what is missing from an import can't be written to `errors`.
pub fn program_counted<
    S: AsStr,
    B: Allocator + Sync,
    T: Threads + Wait + Sync,
    C: Clock,
    R: Read,
    W: Write,
    E: Write,
    L: Ledger,
>(
    setting: &Setting<'_, B, T, C>,
    words: &[S],
    reader: &mut R,
    writer: &mut W,
    errors: &mut E,
    notes: &mut Notes<R, E, L>,
) -> u8
    ensures ends { EndsProgram (map S.text words.now) (R.remaining reader.old) (R.remaining reader.new) setting.now.limits result (W.contents writer.old)
        (W.contents writer.new) notes.old.steps notes.new.steps }
    ensures quiet { result ≡ 0 → IsQuietOn setting.now.terminal setting.now.limits (map S.text words.now) (R.remaining reader.old) (E.contents errors.old)
        (E.contents errors.new) }
    ensures told { IsEnd result → TellsAsChosen setting.now.terminal setting.now.limits (map S.text words.now) (R.remaining reader.old) notes.new.lost
        (E.contents errors.old) (E.contents errors.new) }
{
    let heap = setting.host.heap;
    match choice(heap, words) {
        Ok(choice) => run_choice(setting, choice, reader, writer, errors, notes),
        Err(fault) => refuse(heap, &fault, writer, errors),
    }
}

/// Like `program_counted`, but makes the notes itself, with a count on the ledger of `blank`, and drops them. The words
/// stand behind a second reference, since a function that takes a `Blank` may take references to `Sized` types alone.
fn program_from<
    S: AsStr,
    B: Allocator + Sync,
    T: Threads + Wait + Sync,
    C: Clock,
    R: Read,
    W: Write,
    E: Write,
    L: Ledger,
>(
    setting: &Setting<'_, B, T, C>,
    words: &&[S],
    reader: &mut R,
    writer: &mut W,
    errors: &mut E,
    blank: Blank,
) -> u8
    requires name { blank.name ≡ L.name }
    requires parts { blank.parts ≡ L.parts }
    requires two { blank.parts ≡ 2 }
    ensures ends { (before after : Count) × EndsProgram (map S.text words.now.now) (R.remaining reader.old) (R.remaining reader.new) setting.now.limits
        result (W.contents writer.old) (W.contents writer.new) before after }
    ensures quiet { result ≡ 0 → IsQuietOn setting.now.terminal setting.now.limits (map S.text words.now.now) (R.remaining reader.old)
        (E.contents errors.old) (E.contents errors.new) }
{
    let steps = Steps::<R, L>::new(blank);
    let mut notes = Notes::new(setting.host.heap, steps);
    program_counted(setting, *words, reader, writer, errors, &mut notes)
}

/// Like `program_counted`, for callers that need none of the notes.
pub fn program_within<
    S: AsStr,
    B: Allocator + Sync,
    T: Threads + Wait + Sync,
    C: Clock,
    R: Read,
    W: Write,
    E: Write,
>(setting: &Setting<'_, B, T, C>, words: &[S], reader: &mut R, writer: &mut W, errors: &mut E) -> u8
    ensures ends { (before after : Count) × EndsProgram (map S.text words.now) (R.remaining reader.old) (R.remaining reader.new) setting.now.limits result
        (W.contents writer.old) (W.contents writer.new) before after }
    ensures quiet { result ≡ 0 → IsQuietOn setting.now.terminal setting.now.limits (map S.text words.now) (R.remaining reader.old) (E.contents errors.old)
        (E.contents errors.new) }
{
    program_from::<S, B, T, C, R, W, E, Brand>(
        setting,
        &words,
        reader,
        writer,
        errors,
        Blank::new(2),
    )
}

/// Like `program_within`, but with the usual limits, and for a reader that isn't a terminal.
pub fn program<
    S: AsStr,
    B: Allocator + Sync,
    T: Threads + Wait + Sync,
    C: Clock,
    R: Read,
    W: Write,
    E: Write,
>(host: Host<'_, B, T, C>, words: &[S], reader: &mut R, writer: &mut W, errors: &mut E) -> u8
    ensures ends { (before after : Count) × EndsProgram (map S.text words.now) (R.remaining reader.old) (R.remaining reader.new) usual result
        (W.contents writer.old) (W.contents writer.new) before after }
    ensures quiet { result ≡ 0 → IsQuiet (map S.text words.now) (R.remaining reader.old) (E.contents errors.old) (E.contents errors.new) }
{
    let setting = Setting {
        host,
        limits: Limits::usual(),
        terminal: false,
    };
    program_within(&setting, words, reader, writer, errors)
}
