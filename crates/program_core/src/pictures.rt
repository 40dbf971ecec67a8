//! Draws the run that an input gives.
ghost use Rattle.std.specs.Prelude.{◌≡◌, IfErr, OnOk};
ghost use Rattle.std.specs.Io.KnownBytes.{IsAtEnd};
ghost use Rattle.command_line.specs.declared.chosen.Form.{Form};
ghost use Rattle.command_line.specs.declared.chosen.Subcommand.TheVariants as subcommands;
ghost use Rattle.program_core.specs.Program.{EndsAt, FailsAs, KeepsBefore, TellsMemory};
ghost use Rattle.program_core.specs.Views.{presence_of, view_of};

use crate::fault::ProgramFault;
use crate::host::Setting;
use crate::inputs::{Run, read_run};
use crate::notes::Notes;
use crate::text::print;
use command_line::{Drawing, Question};
use picture_core::{Presence, View, draw};
use std::alloc::Allocator;
use std::io::{Read, Write};
use std::sync::ledger::Ledger;

/// The presences that were chosen; the node `-` stands for each node, and becomes `None`.
fn presence_of<'w>(question: Question<'w>) -> Presence<'w>
    ensures { result ≡ presence_of question.entry }
{
    let node = if question.node == "-" {
        None
    } else {
        Some(question.node)
    };
    Presence {
        node,
        topic: question.topic,
        key: question.key,
    }
}

/// What was chosen to be drawn, as `picture_core` takes it.
fn view_of<'w>(drawing: Drawing<'w>) -> View<'w>
    ensures { result ≡ view_of drawing.entry }
{
    let of = match drawing.online {
        Some(question) => Some(presence_of(question)),
        None => None,
    };
    View {
        why: drawing.why,
        from: drawing.from,
        to: drawing.to,
        of,
    }
}

/// Reads a run from the input, and prints its picture. If the input is refused, `notes` gets the hint, if there is one.
pub fn draw_run<B: Allocator, T, C, R: Read, W: Write, E, L: Ledger>(
    setting: &Setting<'_, B, T, C>,
    drawing: Drawing<'_>,
    reader: &mut R,
    writer: &mut W,
    notes: &mut Notes<R, E, L>,
) -> Result<(), ProgramFault>
    ensures ends { (form : Form) → EndsAt (subcommands.Draw drawing.entry) form setting.now.limits (R.remaining reader.old) result (W.contents writer.old)
        (W.contents writer.new) }
    ensures read { OnOk result (IsAtEnd (R.remaining reader.new)) }
    ensures unwritten { IfErr result (λ fault. KeepsBefore fault (W.contents writer.old) (W.contents writer.new)) }
    ensures memory { IfErr result TellsMemory }
    ensures failed { FailsAs result notes.old.steps notes.new.steps }
{
    let run = read_run(setting, reader, notes)?;
    let drawn = draw(
        &run.bench,
        setting.host.alloc,
        &run.consoles,
        view_of(drawing),
    );
    // form: drop before exit
    let Run { bench, consoles } = run;
    bench.discard();
    drop(consoles);
    // form: a `match`, as the proof cites what `ProgramFault::from` ensures
    let text = match drawn {
        Ok(text) => text,
        Err(fault) => return Err(ProgramFault::from(fault)),
    };
    print(writer, &text)
}
