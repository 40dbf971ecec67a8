//! Plays a script from a reader to a writer.
ghost use Rattle.std.specs.Prelude.{◌≡◌, OnOk, IfErr};
ghost use Rattle.std.specs.Io.KnownBytes.{IsAtEnd};
ghost use Rattle.script_core.specs.Play.{EndsAt, FailsAs, KeepsBefore, TellsMemory};

use crate::play_fault::PlayFault;
use bench_core::Limits;
use grammar_core::{FaultKind, LONGEST_SCRIPT, ScriptFault, parse_script};
use run_core::{Played, run_script};
use std::alloc::Allocator;
use std::io::{Read, Write};
use std::marker::Brand;
use std::sync::ledger::{Blank, Ledger};
use stream_core::{InputFault, Steps, read_all, write_out};

/// Reads the whole input, plays it as a script on a new bench with these limits, and then writes the report. It writes
/// nothing before the whole report is ready. `steps` counts the calls of `read`; callers that don't need the count use
/// `play`.
pub fn play_counted<B: Allocator, R: Read, W: Write, L: Ledger>(
    alloc: &B,
    reader: &mut R,
    writer: &mut W,
    limits: Limits,
    steps: &mut Steps<R, L>,
) -> Result<(), PlayFault>
    ensures ends { EndsAt (R.remaining reader.old) limits result (W.contents writer.old) (W.contents writer.new) }
    ensures read { OnOk result (IsAtEnd (R.remaining reader.new)) }
    ensures unwritten { IfErr result (λ fault. KeepsBefore fault (W.contents writer.old) (W.contents writer.new)) }
    ensures memory { IfErr result TellsMemory }
    ensures failed { FailsAs result steps.old steps.new }
{
    let input = match read_all(alloc, reader, LONGEST_SCRIPT, steps) {
        Ok(input) => input,
        Err(InputFault::ReadFault) => return Err(PlayFault::ReadFault),
        Err(InputFault::TooLong) => {
            return Err(PlayFault::Script(ScriptFault {
                line: 0,
                kind: FaultKind::TooLong,
            }));
        }
        Err(InputFault::OutOfMemory) => return Err(PlayFault::OutOfMemory),
    };
    let parsed = parse_script(alloc, &input);
    // form: drop before exit
    drop(input);
    let script = match parsed {
        Ok(script) => script,
        Err(fault) if fault.kind == FaultKind::OutOfMemory => return Err(PlayFault::OutOfMemory),
        Err(fault) => return Err(PlayFault::Script(fault)),
    };
    let run = run_script(&script, alloc, limits);
    drop(script);
    let Ok(Played { bench, report }) = run else {
        return Err(PlayFault::OutOfMemory);
    };
    bench.discard();
    let written = write_out(writer, &report);
    drop(report);
    match written {
        Ok(()) => Ok(()),
        Err(fault) => Err(PlayFault::WriteFault {
            written: fault.written,
        }),
    }
}

/// Like `play_counted`, but makes the count itself, with the ledger of `blank`, and drops the count.
fn play_from<B: Allocator, R: Read, W: Write, L: Ledger>(
    alloc: &B,
    reader: &mut R,
    writer: &mut W,
    limits: Limits,
    blank: Blank,
) -> Result<(), PlayFault>
    requires name { blank.name ≡ L.name }
    requires parts { blank.parts ≡ L.parts }
    requires two { blank.parts ≡ 2 }
    ensures ends { EndsAt (R.remaining reader.old) limits result (W.contents writer.old) (W.contents writer.new) }
    ensures read { OnOk result (IsAtEnd (R.remaining reader.new)) }
    ensures unwritten { IfErr result (λ fault. KeepsBefore fault (W.contents writer.old) (W.contents writer.new)) }
    ensures memory { IfErr result TellsMemory }
{
    let mut steps = Steps::<R, L>::new(blank);
    play_counted(alloc, reader, writer, limits, &mut steps)
}

/// Like `play_counted`, for callers that don't need the count of the calls of `read`.
pub fn play<B: Allocator, R: Read, W: Write>(
    alloc: &B,
    reader: &mut R,
    writer: &mut W,
    limits: Limits,
) -> Result<(), PlayFault>
    ensures ends { EndsAt (R.remaining reader.old) limits result (W.contents writer.old) (W.contents writer.new) }
    ensures read { OnOk result (IsAtEnd (R.remaining reader.new)) }
    ensures unwritten { IfErr result (λ fault. KeepsBefore fault (W.contents writer.old) (W.contents writer.new)) }
    ensures memory { IfErr result TellsMemory }
{
    play_from::<B, R, W, Brand>(alloc, reader, writer, limits, Blank::new(2))
}
