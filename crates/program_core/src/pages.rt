//! Prints a page that shows the run that an input gives.
ghost use Rattle.std.specs.Prelude.{◌≡◌, IfErr, IfOk, OnOk};
ghost use Rattle.std.specs.Io.KnownBytes.{IsAtEnd};
ghost use Rattle.command_line.specs.declared.chosen.Form.{Form};
ghost use Rattle.command_line.specs.declared.chosen.Subcommand.TheVariants as subcommands;
ghost use Rattle.program_core.specs.Program.{EndsAt, FailsAs, KeepsBefore, TellsMemory};
ghost use Rattle.program_core.specs.Views.{page_around, page_of, page_with};

use crate::fault::ProgramFault;
use crate::host::Setting;
use crate::inputs::{Run, read_run};
use crate::notes::Notes;
use crate::text::print;
use bench_core::{Bench, TextSet};
use dots_core::Oom;
use page_core::put_page;
use page_data::{page_data, page_data_with};
use picture_core::draw_whole;
use std::alloc::Allocator;
use std::io::{Read, Write};
use std::sync::ledger::Ledger;
use transcript_core::bench_steps;

/// The page of the run of `bench`, whose consoles have the names `consoles`. `run` is the data of the page.
fn page_around<'a, B: Allocator>(
    bench: &Bench<'a, B>,
    alloc: &'a B,
    consoles: &TextSet<&'a B>,
    run: &str,
) -> Result<Vec<u8, &'a B>, Oom>
    ensures { IfOk result (λ page. page.items ≡ page_around bench.now consoles.now run.now) }
{
    let picture = draw_whole(bench, alloc, consoles)?;
    let report = bench_steps(bench, alloc, consoles)?;
    let mut page = Vec::new(alloc);
    put_page(&mut page, &picture, &report, run.as_bytes())?;
    Ok(page)
}

/// The page of a run, without further keys in the page's data.
fn page_of<'a, B: Allocator>(run: &mut Run<'a, B>, alloc: &'a B) -> Result<Vec<u8, &'a B>, Oom>
    ensures { IfOk result (λ page. page.items ≡ page_of run.old.bench run.old.consoles) }
{
    let told = page_data(&run.bench, alloc, &run.consoles)?;
    page_around(&run.bench, alloc, &run.consoles, told.as_str())
}

/// The page of a run without consoles. Its data has further `keys`, each with a comma before it.
pub(crate) fn page_with<'a, B: Allocator>(
    bench: &mut Bench<'a, B>,
    alloc: &'a B,
    keys: &str,
) -> Result<Vec<u8, &'a B>, Oom>
    ensures page { IfOk result (λ page. page.items ≡ page_with bench.old keys.now) }
    ensures bench { bench.new ≡ bench.old }
{
    let consoles = TextSet::new(alloc);
    let told = page_data_with(bench, alloc, &consoles, keys)?;
    page_around(bench, alloc, &consoles, told.as_str())
}

/// Reads a run from the input, and prints its page. If the input is refused, `notes` gets the hint, if there is one.
pub fn page_run<B: Allocator, T, C, R: Read, W: Write, E, L: Ledger>(
    setting: &Setting<'_, B, T, C>,
    reader: &mut R,
    writer: &mut W,
    notes: &mut Notes<R, E, L>,
) -> Result<(), ProgramFault>
    ensures ends { (form : Form) → EndsAt subcommands.Page form setting.now.limits (R.remaining reader.old) result (W.contents writer.old)
        (W.contents writer.new) }
    ensures read { OnOk result (IsAtEnd (R.remaining reader.new)) }
    ensures unwritten { IfErr result (λ fault. KeepsBefore fault (W.contents writer.old) (W.contents writer.new)) }
    ensures memory { IfErr result TellsMemory }
    ensures failed { FailsAs result notes.old.steps notes.new.steps }
{
    let mut run = read_run(setting, reader, notes)?;
    let page = page_of(&mut run, setting.host.alloc);
    // form: drop before exit
    let Run { bench, consoles } = run;
    bench.discard();
    drop(consoles);
    let Ok(text) = page else {
        return Err(ProgramFault::OutOfMemory);
    };
    print(writer, &text)
}
