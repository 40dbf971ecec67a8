//! Runs a prompt from the program's input to its output.
ghost use Rattle.std.specs.Prelude.{◌≡◌, IfErr, OnOk};
ghost use Rattle.command_line.specs.Help.{language};
ghost use Rattle.prompt_core.specs.Ends.{IsRead};
ghost use Rattle.prompt_core.specs.Signs.{Shows};
ghost use Rattle.program_core.specs.Program.{EndsAt, EndsSoon, FailsAs, KeepsBefore, TellsMemory};
ghost use Rattle.command_line.specs.declared.chosen.Form.{Form};
ghost use Rattle.command_line.specs.declared.chosen.Subcommand.TheVariants as subcommands;

use crate::fault::ProgramFault;
use crate::host::Setting;
use command_line::LANGUAGE;
use prompt_core::laws::report_law;
use prompt_core::{PromptSetting, step_counted};
use script_core::Steps;
use std::alloc::Allocator;
use std::io::{Read, Write};
use std::sync::ledger::Ledger;

/// What `:help` prints.
#[tactic(auto, unfolding(command_line::specs::Help::language))]
fn help() -> &'static str
    ensures { result.now ≡ language }
{
    LANGUAGE
}

/// Reads the input line by line, and responds to each line before it reads the next. If the input is a terminal, it
/// shows a sign on `errors` before it reads a line. `steps` counts the calls of `read`.
pub fn step_script<B: Allocator, T, C, R: Read, W: Write, E: Write, L: Ledger>(
    setting: &Setting<'_, B, T, C>,
    reader: &mut R,
    writer: &mut W,
    errors: &mut E,
    steps: &mut Steps<R, L>,
) -> Result<(), ProgramFault>
    ensures ends { (form : Form) → EndsAt subcommands.Step form setting.now.limits (R.remaining reader.old) result
        (W.contents writer.old) (W.contents writer.new) }
    ensures read { OnOk result (IsRead (R.remaining reader.old) (R.remaining reader.new)) }
    ensures unwritten { IfErr result (λ fault. KeepsBefore fault (W.contents writer.old) (W.contents writer.new)) }
    ensures memory { IfErr result TellsMemory }
    ensures failed { FailsAs result steps.old steps.new }
    ensures early { EndsSoon subcommands.Step setting.now.limits result (R.remaining reader.old) (R.remaining reader.new)
        (W.contents writer.old) (W.contents writer.new) }
    ensures signs { Shows setting.now.terminal language setting.now.limits (R.remaining reader.old) (E.contents errors.old) (E.contents errors.new) }
{
    // form: hands out what the proof cites
    report_law();
    let prompt = PromptSetting {
        heap: setting.host.heap,
        alloc: setting.host.alloc,
        limits: setting.limits,
        help: help(),
        has_signs: setting.terminal,
    };
    match step_counted(&prompt, reader, writer, errors, steps) {
        Ok(()) => Ok(()),
        Err(fault) => Err(ProgramFault::Prompt(fault)),
    }
}
