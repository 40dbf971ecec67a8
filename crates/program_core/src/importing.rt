//! What is printed of the events of logs: a script, a session, a page, or where the bench and the real nodes part.
ghost use Rattle.std.specs.Prelude.{◌≡◌, ◌≢◌, ◌⊎◌, ◌++◌, ℕ, Err, IfErr, IfOk, OnOk, true, false, string_bytes, take};
ghost use Rattle.std.specs.Io.KnownBytes.{Appends, IsAtEnd};
ghost use Rattle.stream_core.specs.Inputs.{IsWhole};
ghost use Rattle.command_line.specs.declared.chosen.Form.TheVariants as forms;
ghost use Rattle.command_line.specs.declared.chosen.Subcommand.TheVariants as subcommands;
ghost use Rattle.program_core.specs.Imported.{EndsAsMade, IsMade, IsUnmade, RefusesEventsAt, RefusesImport, TellsAll, TellsLines, TellsMade, TellsMissing, full_line, is_full, left_line, left_lines};
ghost use Rattle.program_core.specs.Texts.{text_bytes};
ghost use Rattle.program_core.specs.Program.{EndsAt, FailsAs, IsEarly, IsUnwritten, KeepsBefore, TellsMemory, fault_of_import};

use crate::aside::Aside;
use crate::fault::ProgramFault;
use crate::host::Setting;
use crate::notes::Notes;
use crate::pages::page_with;
use crate::text::{Text, bytes_of, print};
use crate::texts::{LONGEST_SESSION, session_line};
use bench_core::{Bench, Limits};
use command_line::{Form, ImportOptions};
use dots_core::Oom;
use import_core::{FaultKind, ImportFault};
use import_page::{Shown, import_shown};
use import_report::{Checked, Scripted, import_bench, import_check, import_script};
use script_core::{InputFault, Lost, Steps, read_all, write_noted};
use std::alloc::{Allocator, Global};
use std::io::{Read, Write};
use std::sync::ledger::Ledger;

/// The bytes of the logs; `LongImport` if there are more than logs may have.
fn read_events<'a, B: Allocator, R: Read, L: Ledger>(
    alloc: &'a B,
    reader: &mut R,
    steps: &mut Steps<R, L>,
) -> Result<Vec<u8, &'a B>, ProgramFault>
    ensures whole { IfOk result (λ bytes. IsWhole (R.remaining reader.old) bytes.items) }
    ensures cause { IfErr result (RefusesEventsAt (R.remaining reader.old)) }
    ensures memory { IfErr result TellsMemory }
    ensures unwritten { IfErr result IsUnwritten }
    ensures read { OnOk result (IsAtEnd (R.remaining reader.new)) }
    ensures failed { FailsAs result steps.old steps.new }
{
    match read_all(alloc, reader, LONGEST_SESSION, steps) {
        Ok(input) => Ok(input),
        Err(InputFault::ReadFault) => Err(ProgramFault::ReadFault),
        Err(InputFault::TooLong) => Err(ProgramFault::LongImport),
        Err(InputFault::OutOfMemory) => Err(ProgramFault::OutOfMemory),
    }
}

/// Appends `presence_bench: line L: left out`, with L the number `line`, and a line feed.
#[tactic(auto, unfolding(crate::specs::Imported::left_line))]
fn put_left_line<A: Allocator>(text: &mut String<A>, line: u64) -> Result<(), Oom>
    ensures { OnOk result (string_bytes text.new ≡ string_bytes text.old ++ left_line line) }
{
    Ok(writeln!(text, "presence_bench: line {line}: left out")?)
}

/// Appends a line `presence_bench: line L: left out` for each number L in `left_out`.
#[tactic(auto, unfolding(crate::specs::Imported::left_lines))]
fn put_left<A: Allocator>(text: &mut String<A>, left_out: &[u64]) -> Result<(), Oom>
    ensures { OnOk result (string_bytes text.new ≡ string_bytes text.old ++ left_lines left_out.now) }
{
    for line in left_out {
        put_left_line(text, *line)?;
    }
    Ok(())
}

/// Appends a line that says that the history is full; nothing if `full` is false.
#[tactic(auto, unfolding(crate::specs::Imported::full_line))]
fn put_full<A: Allocator>(text: &mut String<A>, full: bool) -> Result<(), Oom>
    ensures { OnOk result (string_bytes text.new ≡ string_bytes text.old ++ full_line full) }
{
    if !full {
        return Ok(());
    }
    Ok(text.push_str("presence_bench: the history is full: later steps are not in it\n")?)
}

/// Writes the bytes to `errors`, as far as they can be written, and notes a failed write in `lost`.
fn tell<E: Write>(errors: &mut E, bytes: &[u8], lost: &mut Lost<E>)
    ensures all { lost.new ≡ false → Appends (E.contents errors.old) (E.contents errors.new) bytes.now }
    ensures first { (count : ℕ) × Appends (E.contents errors.old) (E.contents errors.new) (take count bytes.now) }
{
    // form: each arm is a case of the proof
    match write_noted(errors, bytes, lost) {
        Ok(()) => {}
        Err(_unwritten) => {}
    }
}

/// Writes to `errors` a line for each number in `left_out`, and one more if the history is full (`full`). A failed
/// write isn't a fault; `lost` notes it. If memory is refused, writes nothing.
fn tell_missing<A: Allocator, E: Write>(
    alloc: A,
    errors: &mut E,
    left_out: &[u64],
    full: bool,
    lost: &mut Lost<E>,
) -> Result<(), Oom>
    ensures lines { TellsLines left_out.now full (E.contents errors.old) (E.contents errors.new) }
    ensures all { OnOk result (TellsAll left_out.now full lost.new (E.contents errors.old) (E.contents errors.new)) }
{
    let mut text = String::new(alloc);
    put_left(&mut text, left_out)?;
    put_full(&mut text, full)?;
    tell(errors, text.as_bytes(), lost);
    Ok(())
}

/// The fault of an import as a fault of the program.
fn fault_of(fault: ImportFault) -> ProgramFault
    ensures { result ≡ fault_of_import fault }
{
    match fault.kind {
        FaultKind::OutOfMemory => ProgramFault::OutOfMemory,
        _ => ProgramFault::Import(fault),
    }
}

/// What is printed of the events, in `text`. `differs` says whether a check found that the bench and the real nodes
/// part. `left_out` has the numbers of the lines that were left out. `full` says whether the history of the bench in
/// the text is full, so that later steps may be missing; it is `false` for a script and for a check.
#[derive(Drop)]
pub struct Made<A: Allocator> {
    pub text: Text<A>,
    pub differs: bool,
    pub left_out: Vec<u64, A>,
    pub full: bool,
}

/// Whether the bench has fewer than two free places, so that it can't take one more step: a step needs a place for its
/// call and one for itself.
fn is_full<'a, B: Allocator>(bench: &mut Bench<'a, B>) -> bool
    ensures { result ≡ is_full bench.old }
{
    let recorded = bench.history().len() as u64;
    let remaining = bench.remaining().len() as u64;
    // form: saturating spares a requirement
    bench
        .limits()
        .acts()
        .saturating_sub(recorded)
        .saturating_sub(remaining)
        < 2
}

/// What an import is to make, and in which form.
#[derive(Clone, Copy)]
pub struct Wanted {
    pub options: ImportOptions,
    pub form: Form,
}

/// The script of the events, with comments that tell the events' line numbers in the logs, if these are wanted.
fn make_script<'a, B: Allocator>(
    heap: Global,
    alloc: &'a B,
    limits: Limits,
    wanted: Wanted,
    input: &[u8],
) -> Result<Made<&'a B>, ImportFault>
    ensures made { IfOk result (λ m. IsMade false wanted.options.lines wanted.options.lenient forms.Script limits input.now (text_bytes m.text) m.differs
        m.left_out.items m.full) }
    ensures refused { IfErr result (IsUnmade false wanted.options.lines wanted.options.lenient forms.Script limits input.now) }
{
    let (scripted, left_out) = import_script(
        heap,
        alloc,
        limits,
        wanted.options.lenient,
        wanted.options.lines,
        input,
    )?;
    Ok(Made {
        text: Text::Own(text_of(scripted)),
        differs: false,
        left_out,
        full: false,
    })
}

/// The text of `scripted`, whose bench is dropped.
fn text_of<'a, B: Allocator>(scripted: Scripted<'a, B>) -> Vec<u8, &'a B>
    ensures { result.items ≡ string_bytes scripted.entry.text }
{
    scripted.text.into_bytes()
}

/// The session of the bench that the events leave, with a line feed.
fn make_session<'a, B: Allocator>(
    heap: Global,
    alloc: &'a B,
    limits: Limits,
    wanted: Wanted,
    input: &[u8],
) -> Result<Made<&'a B>, ImportFault>
    ensures made { IfOk result (λ m. IsMade false wanted.options.lines wanted.options.lenient forms.Session limits input.now (text_bytes m.text) m.differs
        m.left_out.items m.full) }
    ensures refused { IfErr result (IsUnmade false wanted.options.lines wanted.options.lenient forms.Session limits input.now) }
{
    // form: `wanted.options.lines` is for the contract alone
    let (mut bench, left_out) = import_bench(heap, alloc, limits, wanted.options.lenient, input)?;
    let text = session_line(heap, &mut bench);
    let full = is_full(&mut bench);
    // form: drop before exit
    bench.discard();
    Ok(Made {
        text: Text::Heap(text?),
        differs: false,
        left_out,
        full,
    })
}

/// The page of the bench that the events leave, with what the logs tell besides the bench's calls.
fn make_page<'a, B: Allocator>(
    heap: Global,
    alloc: &'a B,
    limits: Limits,
    wanted: Wanted,
    input: &[u8],
) -> Result<Made<&'a B>, ImportFault>
    ensures made { IfOk result (λ m. IsMade false wanted.options.lines wanted.options.lenient forms.Page limits input.now (text_bytes m.text) m.differs
        m.left_out.items m.full) }
    ensures refused { IfErr result (IsUnmade false wanted.options.lines wanted.options.lenient forms.Page limits input.now) }
{
    // form: `wanted.options.lines` is for the contract alone
    let (shown, left_out) = import_shown(heap, alloc, limits, wanted.options.lenient, input)?;
    let Shown { mut bench, keys } = shown;
    let page = page_with(&mut bench, alloc, keys.as_str());
    let full = is_full(&mut bench);
    // form: drop before exit
    bench.discard();
    drop(keys);
    Ok(Made {
        text: Text::Own(page?),
        differs: false,
        left_out,
        full,
    })
}

/// A text that says where the bench and the real nodes part.
fn make_check<'a, B: Allocator>(
    heap: Global,
    alloc: &'a B,
    limits: Limits,
    wanted: Wanted,
    input: &[u8],
) -> Result<Made<&'a B>, ImportFault>
    ensures made { IfOk result (λ m. IsMade true wanted.options.lines wanted.options.lenient wanted.form limits input.now (text_bytes m.text) m.differs
        m.left_out.items m.full) }
    ensures refused { IfErr result (IsUnmade true wanted.options.lines wanted.options.lenient wanted.form limits input.now) }
{
    // form: `wanted.options.lines` and `wanted.form` are for the contract alone
    let (found, left_out) = import_check(heap, alloc, limits, wanted.options.lenient, input)?;
    let Checked { text, differs } = found;
    Ok(Made {
        text: Text::Own(text.into_bytes()),
        differs,
        left_out,
        full: false,
    })
}

/// Makes from the events what is `wanted`. If the events are refused, `aside` gets the hint, if there is one.
fn make<'a, B: Allocator>(
    heap: Global,
    alloc: &'a B,
    limits: Limits,
    wanted: Wanted,
    input: &[u8],
    aside: &mut Aside,
) -> Result<Made<&'a B>, ProgramFault>
    ensures made { IfOk result (λ m. IsMade wanted.options.check wanted.options.lines wanted.options.lenient wanted.form limits input.now (text_bytes m.text) m.differs
        m.left_out.items m.full) }
    ensures refused { IfErr result (RefusesImport wanted.options.check wanted.options.lines wanted.options.lenient wanted.form limits input.now) }
    ensures memory { IfErr result TellsMemory }
    ensures unwritten { IfErr result IsUnwritten }
    ensures unread { result ≢ Err ProgramFault.ReadFault }
{
    let made = match wanted.form {
        _ if wanted.options.check => make_check(heap, alloc, limits, wanted, input),
        Form::Session => make_session(heap, alloc, limits, wanted, input),
        Form::Page => make_page(heap, alloc, limits, wanted, input),
        _ => make_script(heap, alloc, limits, wanted, input),
    };
    match made {
        Ok(made) => Ok(made),
        Err(fault) => {
            aside.of_import(input, fault);
            Err(fault_of(fault))
        }
    }
}

/// Writes the text of `made`. Then, if the bench and the real nodes part, ends with the fault `Differs`.
fn print_made<B: Allocator, W: Write>(writer: &mut W, made: &Made<&B>) -> Result<(), ProgramFault>
    ensures { EndsAsMade (text_bytes made.now.text) made.now.differs result (W.contents writer.old) (W.contents writer.new) }
{
    print(writer, bytes_of(&made.text))?;
    if made.differs {
        return Err(ProgramFault::Differs);
    }
    Ok(())
}

/// Reads the events of logs, and prints a script of them, or what else is `wanted`. Before it prints, it tells on
/// `errors` which lines were left out, if any were, and that the history is full, if it is; `notes` notes if that can't
/// be written. If the events are refused, `notes` gets the hint, if there is one.
pub fn import_events<B: Allocator, T, C, R: Read, W: Write, E: Write, L: Ledger>(
    setting: &Setting<'_, B, T, C>,
    wanted: Wanted,
    reader: &mut R,
    writer: &mut W,
    errors: &mut E,
    notes: &mut Notes<R, E, L>,
) -> Result<(), ProgramFault>
    ensures ends { EndsAt (subcommands.Import wanted.options) wanted.form setting.now.limits (R.remaining reader.old) result
        (W.contents writer.old) (W.contents writer.new) }
    ensures read { OnOk result (IsAtEnd (R.remaining reader.new)) }
    ensures unwritten { IfErr result (λ fault. KeepsBefore fault (W.contents writer.old) (W.contents writer.new)) }
    ensures memory { IfErr result TellsMemory }
    ensures failed { FailsAs result notes.old.steps notes.new.steps }
    ensures aside { TellsMissing wanted.options.check wanted.options.lines wanted.options.lenient wanted.form setting.now.limits (R.remaining reader.old)
        (E.contents errors.old) (E.contents errors.new) }
    ensures told { IsEarly result ⊎
        TellsMade wanted.options.check wanted.options.lines wanted.options.lenient wanted.form setting.now.limits (R.remaining reader.old) notes.new.lost (E.contents errors.old)
        (E.contents errors.new) }
{
    let heap = setting.host.heap;
    let alloc = setting.host.alloc;
    let input = read_events(alloc, reader, &mut notes.steps)?;
    let made = make(
        heap,
        alloc,
        setting.limits,
        wanted,
        &input,
        &mut notes.aside,
    );
    // form: drop before exit
    drop(input);
    let made = made?;
    let Ok(()) = tell_missing(alloc, errors, &made.left_out, made.full, &mut notes.lost) else {
        // form: drop before exit
        drop(made);
        return Err(ProgramFault::OutOfMemory);
    };
    let printed = print_made(writer, &made);
    drop(made);
    printed
}
