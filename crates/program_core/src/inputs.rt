//! Reads a run from an input that is a script or a session. The first byte that isn't white space tells which.
ghost use Rattle.std.specs.Prelude.{◌≡◌, ◌≢◌, ◌<◌, length, Err, IfOk, IfErr, IsOkAnd, OnOk};
ghost use Rattle.std.specs.Io.KnownBytes.{IsAtEnd};
ghost use Rattle.grammar_core.specs.Grammar.{script_of};
ghost use Rattle.grammar_core.specs.Scripts.{plain_script};
ghost use Rattle.run_core.specs.Report.{played};
ghost use Rattle.transcript_core.specs.Actors.{free_consoles};
ghost use Rattle.recording_core.specs.Sessions.{IsSession};
ghost use Rattle.program_core.specs.Program.{FailsAs, IsBenchAt, IsRunAt, IsUnwritten, RefusesBenchAt, RefusesScript, RefusesSession, TellsMemory};

use crate::aside::Aside;
use crate::fault::ProgramFault;
use crate::host::Setting;
use crate::notes::Notes;
use crate::texts::LONGEST_SESSION;
use bench_core::{Bench, Limits, TextSet};
use dots_core::Oom;
use hint_core::begins_object;
use script_core::{FaultKind, InputFault, Played, Script, console_names, parse_script, run_script};
use session_core::{SessionFault, load};
use std::alloc::{Allocator, Global};
use std::io::Read;
use std::sync::ledger::Ledger;
use stream_core::read_front;
use transcript_core::free_consoles;

/// A bench, and the names of its consoles.
#[derive(Drop)]
pub struct Run<'a, B: Allocator> {
    pub bench: Bench<'a, B>,
    pub consoles: TextSet<&'a B>,
}

/// Names that no node has, for the consoles of a bench.
pub(crate) fn consoles_of<'a, B: Allocator>(
    bench: &mut Bench<'a, B>,
    alloc: &'a B,
) -> Result<TextSet<&'a B>, Oom>
    ensures consoles { IfOk result (λ consoles. consoles ≡ free_consoles bench.old) }
    ensures bench { bench.new ≡ bench.old }
{
    // form: mutable, as the owner lends it so
    free_consoles(bench, alloc)
}

/// The run of a bench whose consoles have no names: the consoles get names that no node has.
fn unnamed_run<'a, B: Allocator>(alloc: &'a B, mut bench: Bench<'a, B>) -> Result<Run<'a, B>, Oom>
    ensures bench { IfOk result (λ run. run.bench ≡ bench.entry) }
    ensures consoles { IfOk result (λ run. run.consoles ≡ free_consoles bench.entry) }
{
    let Ok(consoles) = consoles_of(&mut bench, alloc) else {
        // form: drop before exit
        bench.discard();
        return Err(Oom);
    };
    Ok(Run { bench, consoles })
}

/// The run of the session in these bytes; `LongSession` if they are more than a session may have. If the session is
/// refused, `aside` gets the hint, if there is one.
fn load_bytes<'a, B: Allocator>(
    heap: Global,
    alloc: &'a B,
    bytes: &[u8],
    aside: &mut Aside,
) -> Result<Run<'a, B>, ProgramFault>
    ensures session { IfOk result (λ run. IsSession bytes.now run.bench × (run.consoles ≡ free_consoles run.bench)) }
    ensures cause { IfErr result (RefusesSession bytes.now) }
    ensures long { 67108864 < length bytes.now → result ≡ Err ProgramFault.LongSession }
    ensures memory { IfErr result TellsMemory }
    ensures unwritten { IfErr result IsUnwritten }
    ensures unread { result ≢ Err ProgramFault.ReadFault }
{
    if bytes.len() > LONGEST_SESSION {
        return Err(ProgramFault::LongSession);
    }
    let bench = match load(heap, alloc, bytes) {
        Ok(bench) => bench,
        Err(SessionFault::OutOfMemory) => return Err(ProgramFault::OutOfMemory),
        Err(fault) => {
            aside.of_session(bytes, fault);
            return Err(ProgramFault::Session(fault));
        }
    };
    match unnamed_run(alloc, bench) {
        Ok(run) => Ok(run),
        Err(_) => Err(ProgramFault::OutOfMemory),
    }
}

/// Plays a script, and gives its run.
fn played_run<'a, B: Allocator>(
    script: &Script<&'a B>,
    alloc: &'a B,
    limits: Limits,
) -> Result<Run<'a, B>, Oom>
    ensures bench { IfOk result (λ run. run.bench ≡ played limits (plain_script script.now)) }
    ensures consoles { IfOk result (λ run. run.consoles ≡ (plain_script script.now).cast.consoles) }
{
    let consoles = console_names(script).try_copy()?;
    let Ok(played) = run_script(script, alloc, limits) else {
        // form: drop before exit
        drop(consoles);
        return Err(Oom);
    };
    let Played { bench, report } = played;
    drop(report);
    Ok(Run { bench, consoles })
}

/// Plays the script that the bytes spell, and gives its run. If the script is refused, `aside` gets the hint, if there
/// is one.
fn play_bytes<'a, B: Allocator>(
    alloc: &'a B,
    bytes: &[u8],
    limits: Limits,
    aside: &mut Aside,
) -> Result<Run<'a, B>, ProgramFault>
    ensures played { IfOk result (λ run. IsOkAnd (script_of bytes.now) (λ script. (run.bench ≡ played limits script)
        × (run.consoles ≡ script.cast.consoles))) }
    ensures cause { IfErr result (RefusesScript bytes.now) }
    ensures memory { IfErr result TellsMemory }
    ensures unwritten { IfErr result IsUnwritten }
    ensures unread { result ≢ Err ProgramFault.ReadFault }
{
    let script = match parse_script(alloc, bytes) {
        Ok(script) => script,
        Err(fault) if fault.kind == FaultKind::OutOfMemory => return Err(ProgramFault::OutOfMemory),
        Err(fault) => {
            aside.of_script(bytes, fault);
            return Err(ProgramFault::Script(fault));
        }
    };
    let run = played_run(&script, alloc, limits);
    // form: drop before exit
    drop(script);
    match run {
        Ok(run) => Ok(run),
        Err(_) => Err(ProgramFault::OutOfMemory),
    }
}

/// Reads the input, which is a session or a script, and gives its run. If the input is refused, `notes` gets the hint,
/// if there is one.
pub fn read_run<'a, B: Allocator, T, C, R: Read, E, L: Ledger>(
    setting: &Setting<'a, B, T, C>,
    reader: &mut R,
    notes: &mut Notes<R, E, L>,
) -> Result<Run<'a, B>, ProgramFault>
    ensures run { IfOk result (λ run. IsRunAt setting.now.limits (R.remaining reader.old) run.bench run.consoles) }
    ensures cause { IfErr result (RefusesBenchAt (R.remaining reader.old)) }
    ensures memory { IfErr result TellsMemory }
    ensures unwritten { IfErr result IsUnwritten }
    ensures read { OnOk result (IsAtEnd (R.remaining reader.new)) }
    ensures failed { FailsAs result notes.old.steps notes.new.steps }
{
    let alloc = setting.host.alloc;
    let input = match read_front(alloc, reader, LONGEST_SESSION + 1, &mut notes.steps) {
        Ok(input) => input,
        Err(InputFault::ReadFault) => return Err(ProgramFault::ReadFault),
        Err(InputFault::OutOfMemory) => return Err(ProgramFault::OutOfMemory),
        // `read_front` cuts a long input off, and doesn't refuse it
        Err(InputFault::TooLong) => unreachable!(),
    };
    if begins_object(&input) {
        return load_bytes(setting.host.heap, alloc, &input, &mut notes.aside);
    }
    play_bytes(alloc, &input, setting.limits, &mut notes.aside)
}

/// The bench of a run. The names of the consoles are dropped.
fn bench_of<'a, B: Allocator>(run: Run<'a, B>) -> Bench<'a, B>
    ensures { result ≡ run.entry.bench }
{
    let Run { bench, consoles } = run;
    // form: drop before exit
    drop(consoles);
    bench
}

/// Like `read_run`, but gives the bench without the names of the consoles.
pub fn read_bench<'a, B: Allocator, T, C, R: Read, E, L: Ledger>(
    setting: &Setting<'a, B, T, C>,
    reader: &mut R,
    notes: &mut Notes<R, E, L>,
) -> Result<Bench<'a, B>, ProgramFault>
    ensures bench { IfOk result (IsBenchAt setting.now.limits (R.remaining reader.old)) }
    ensures cause { IfErr result (RefusesBenchAt (R.remaining reader.old)) }
    ensures memory { IfErr result TellsMemory }
    ensures unwritten { IfErr result IsUnwritten }
    ensures read { OnOk result (IsAtEnd (R.remaining reader.new)) }
    ensures failed { FailsAs result notes.old.steps notes.new.steps }
{
    // form: each arm is a case of the proof
    match read_run(setting, reader, notes) {
        Ok(run) => Ok(bench_of(run)),
        Err(fault) => Err(fault),
    }
}
