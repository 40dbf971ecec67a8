//! Reads a script or a session, and writes the session of a bench.
ghost use Rattle.std.specs.Prelude.{◌≡◌, IfOk, IfErr, OnOk};
ghost use Rattle.std.specs.Io.KnownBytes.{IsAtEnd};
ghost use Rattle.stream_core.specs.Inputs.{IsWhole};
ghost use Rattle.run_core.specs.Report.{history_text};
ghost use Rattle.grammar_core.specs.Scripts.{plain_script};
ghost use Rattle.program_core.specs.Program.{FailsAs, IsScriptAt, IsSessionAt, IsUnwritten, RefusesScriptAt, RefusesSessionAt, TellsMemory};
ghost use Rattle.program_core.specs.Texts.{session_text};

use crate::aside::Aside;
use crate::fault::ProgramFault;
use bench_core::Bench;
use dots_core::Oom;
use grammar_core::LONGEST_SCRIPT;
use script_core::{
    FaultKind, InputFault, Played, Script, ScriptFault, Steps, parse_script, read_all,
};
use session_core::{SessionFault, save};
use session_report::report_session;
use std::alloc::{Allocator, Global};
use std::io::Read;
use std::sync::ledger::Ledger;

/// The most bytes of a session, and of the events of logs.
pub const LONGEST_SESSION: usize = 67_108_864;

/// The script that the input spells. If the input is refused, `aside` gets the hint, if there is one. `steps` counts
/// the calls of `read`.
pub fn read_script<'a, B: Allocator, R: Read, L: Ledger>(
    alloc: &'a B,
    reader: &mut R,
    aside: &mut Aside,
    steps: &mut Steps<R, L>,
) -> Result<Script<&'a B>, ProgramFault>
    ensures script { IfOk result (λ script. IsScriptAt (R.remaining reader.old) (plain_script script)) }
    ensures cause { IfErr result (RefusesScriptAt (R.remaining reader.old)) }
    ensures memory { IfErr result TellsMemory }
    ensures unwritten { IfErr result IsUnwritten }
    ensures read { OnOk result (IsAtEnd (R.remaining reader.new)) }
    ensures failed { FailsAs result steps.old steps.new }
{
    let input = match read_all(alloc, reader, LONGEST_SCRIPT, steps) {
        Ok(input) => input,
        Err(InputFault::ReadFault) => return Err(ProgramFault::ReadFault),
        Err(InputFault::TooLong) => {
            let fault = ScriptFault {
                line: 0,
                kind: FaultKind::TooLong,
            };
            aside.of_script(&[], fault);
            return Err(ProgramFault::Script(fault));
        }
        Err(InputFault::OutOfMemory) => return Err(ProgramFault::OutOfMemory),
    };
    match parse_script(alloc, &input) {
        Ok(script) => Ok(script),
        Err(fault) if fault.kind == FaultKind::OutOfMemory => Err(ProgramFault::OutOfMemory),
        Err(fault) => {
            aside.of_script(&input, fault);
            Err(ProgramFault::Script(fault))
        }
    }
}

/// The bytes of a session; `LongSession` if there are more than a session may have.
fn session_input<'a, B: Allocator, R: Read, L: Ledger>(
    alloc: &'a B,
    reader: &mut R,
    steps: &mut Steps<R, L>,
) -> Result<Vec<u8, &'a B>, ProgramFault>
    ensures whole { IfOk result (λ bytes. IsWhole (R.remaining reader.old) bytes.items) }
    ensures cause { IfErr result (RefusesSessionAt (R.remaining reader.old)) }
    ensures memory { IfErr result TellsMemory }
    ensures unwritten { IfErr result IsUnwritten }
    ensures read { OnOk result (IsAtEnd (R.remaining reader.new)) }
    ensures failed { FailsAs result steps.old steps.new }
{
    match read_all(alloc, reader, LONGEST_SESSION, steps) {
        Ok(input) => Ok(input),
        Err(InputFault::ReadFault) => Err(ProgramFault::ReadFault),
        Err(InputFault::TooLong) => Err(ProgramFault::LongSession),
        Err(InputFault::OutOfMemory) => Err(ProgramFault::OutOfMemory),
    }
}

/// The bench of the session in the input, and what the session's calls print. If the session is refused, `aside` gets
/// the hint, if there is one.
pub fn tell_session<'a, B: Allocator, R: Read, L: Ledger>(
    heap: Global,
    alloc: &'a B,
    reader: &mut R,
    aside: &mut Aside,
    steps: &mut Steps<R, L>,
) -> Result<Played<'a, B>, ProgramFault>
    ensures session { IfOk result (λ told. IsSessionAt (R.remaining reader.old) told.bench) }
    ensures report { IfOk result (λ told. told.report.items ≡ history_text told.bench) }
    ensures cause { IfErr result (RefusesSessionAt (R.remaining reader.old)) }
    ensures memory { IfErr result TellsMemory }
    ensures unwritten { IfErr result IsUnwritten }
    ensures read { OnOk result (IsAtEnd (R.remaining reader.new)) }
    ensures failed { FailsAs result steps.old steps.new }
{
    let input = session_input(alloc, reader, steps)?;
    match report_session(heap, alloc, &input) {
        Ok(told) => Ok(told),
        Err(SessionFault::OutOfMemory) => Err(ProgramFault::OutOfMemory),
        Err(refusal) => {
            aside.of_session(&input, refusal);
            Err(ProgramFault::Session(refusal))
        }
    }
}

/// The session of a bench, and a line feed.
pub fn session_line<'a, B: Allocator>(
    heap: Global,
    bench: &mut Bench<'a, B>,
) -> Result<Vec<u8>, Oom>
    ensures text { IfOk result (λ text. text.items ≡ session_text bench.old) }
    ensures bench { bench.new ≡ bench.old }
{
    let mut text = save(heap, bench)?;
    text.push(b'\n')?;
    Ok(text)
}
