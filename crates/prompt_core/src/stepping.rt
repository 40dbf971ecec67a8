//! Runs a prompt from a reader to a writer.
ghost use Rattle.std.specs.Prelude.{◌≡◌, IfErr, OnOk};
ghost use Rattle.run_core.specs.Prompts.{new_prompt};
ghost use Rattle.stream_core.specs.NextLines.{IsEndless};
ghost use Rattle.prompt_core.specs.Ends.{Responds, EndsEarly, FailsAs, IsRead, Reports};
ghost use Rattle.prompt_core.specs.Signs.{Shows};
ghost use Rattle.prompt_core.specs.declared.prompt_fault.PromptFault.TheVariants.{TooLong};

use crate::laws::report_law;
use crate::out::put_out;
use crate::prompt_fault::PromptFault;
use crate::quit::is_quit;
use crate::responding::respond;
use crate::setting::PromptSetting;
use crate::signs::show_sign;
use bench_core::Limits;
use grammar_core::LONGEST_LINE;
use run_core::Prompt;
use std::alloc::{Allocator, Global};
use std::io;
use std::io::{Read, Write};
use std::marker::Brand;
use std::sync::ledger::{Blank, Ledger};
use stream_core::{Steps, next_line};

/// The most bytes of a line that stay in memory. A line of a script has fewer, so a line with this many is too long.
const LINE_FRONT: usize = LONGEST_LINE + 1;

/// Responds to each line before it reads the next, to the end of the input or a line that ends the prompt. The prompt
/// must have taken no line yet. If the setting has signs, shows a sign on `errors` before it reads each line, until
/// `show_sign` fails once.
fn respond_each<'a, B: Allocator, R: Read, W: Write, E: Write, L: Ledger>(
    prompt: &mut Prompt<'a, B>,
    setting: &PromptSetting<'a, '_, B>,
    reader: &mut R,
    writer: &mut W,
    errors: &mut E,
    steps: &mut Steps<R, L>,
) -> Result<(), PromptFault>
    requires { prompt.old ≡ new_prompt prompt.old.limits }
    ensures responses { OnOk result (Responds setting.now.help.now prompt.old.limits (R.remaining reader.old) (W.contents writer.old) (W.contents writer.new)) }
    ensures read { OnOk result (IsRead (R.remaining reader.old) (R.remaining reader.new)) }
    ensures endless { result ≡ Err TooLong → IsEndless (R.remaining reader.old) }
    ensures early { IfErr result (λ fault. EndsEarly setting.now.help.now prompt.old.limits fault (R.remaining reader.old) (R.remaining reader.new)
        (W.contents writer.old) (W.contents writer.new)) }
    ensures failed { FailsAs result steps.old steps.new }
    ensures signs { Shows setting.now.has_signs setting.now.help.now prompt.old.limits (R.remaining reader.old) (E.contents errors.old)
        (E.contents errors.new) }
{
    let mut is_shown = setting.has_signs;
    // form: a bound that no input reaches, so that the loop ends
    for number in 1..u64::MAX {
        is_shown = show_sign(prompt, setting.alloc, errors, is_shown);
        let Some(line) = next_line(setting.alloc, reader, LINE_FRONT, steps)? else {
            return Ok(());
        };
        if is_quit(line.as_slice()) {
            return Ok(());
        }
        let response = respond(prompt, setting, number, &line)?;
        put_out(writer, &response)?;
    }
    Err(PromptFault::TooLong)
}

/// Reads line by line, and responds to each line before it reads the next, to the end of the input or a line that is
/// `:quit`. A line that a script can have is carried out as in a script. So is each of the prompt's own lines; `:help`
/// prints the setting's `help`. The response to any other line is its fault, and it changes nothing. If the setting has
/// signs, shows the number of the next step on `errors` before it reads a line, until `show_sign` fails once. `steps`
/// counts the calls of `read`; callers that need neither the count nor signs use `step`.
pub fn step_counted<B: Allocator, R: Read, W: Write, E: Write, L: Ledger>(
    setting: &PromptSetting<'_, '_, B>,
    reader: &mut R,
    writer: &mut W,
    errors: &mut E,
    steps: &mut Steps<R, L>,
) -> Result<(), PromptFault>
    ensures responses { OnOk result (Responds setting.now.help.now setting.now.limits (R.remaining reader.old) (W.contents writer.old)
        (W.contents writer.new)) }
    ensures report { OnOk result (Reports setting.now.limits (R.remaining reader.old) (W.contents writer.old) (W.contents writer.new)) }
    ensures read { OnOk result (IsRead (R.remaining reader.old) (R.remaining reader.new)) }
    ensures endless { result ≡ Err TooLong → IsEndless (R.remaining reader.old) }
    ensures early { IfErr result (λ fault. EndsEarly setting.now.help.now setting.now.limits fault (R.remaining reader.old) (R.remaining reader.new)
        (W.contents writer.old) (W.contents writer.new)) }
    ensures failed { FailsAs result steps.old steps.new }
    ensures signs { Shows setting.now.has_signs setting.now.help.now setting.now.limits (R.remaining reader.old) (E.contents errors.old)
        (E.contents errors.new) }
{
    // form: hands out what the proof cites
    report_law();
    let mut prompt = Prompt::new(setting.alloc, setting.limits);
    let ended = respond_each(&mut prompt, setting, reader, writer, errors, steps);
    // form: drop before exit
    prompt.discard();
    ended
}

/// Like `step_counted`, but makes the count itself, with the ledger of `blank`, and drops the count and the signs.
fn step_from<B: Allocator, R: Read, W: Write, L: Ledger>(
    setting: &PromptSetting<'_, '_, B>,
    reader: &mut R,
    writer: &mut W,
    blank: Blank,
) -> Result<(), PromptFault>
    requires name { blank.name ≡ L.name }
    requires parts { blank.parts ≡ L.parts }
    requires two { blank.parts ≡ 2 }
    ensures responses { OnOk result (Responds setting.now.help.now setting.now.limits (R.remaining reader.old) (W.contents writer.old)
        (W.contents writer.new)) }
    ensures report { OnOk result (Reports setting.now.limits (R.remaining reader.old) (W.contents writer.old) (W.contents writer.new)) }
    ensures read { OnOk result (IsRead (R.remaining reader.old) (R.remaining reader.new)) }
    ensures endless { result ≡ Err TooLong → IsEndless (R.remaining reader.old) }
    ensures early { IfErr result (λ fault. EndsEarly setting.now.help.now setting.now.limits fault (R.remaining reader.old) (R.remaining reader.new)
        (W.contents writer.old) (W.contents writer.new)) }
{
    let mut steps = Steps::<R, L>::new(blank);
    step_counted(setting, reader, writer, &mut io::sink(), &mut steps)
}

/// Like `step_counted`, for callers that need neither the count of the calls of `read` nor signs.
pub fn step<B: Allocator, R: Read, W: Write>(
    heap: Global,
    alloc: &B,
    reader: &mut R,
    writer: &mut W,
    limits: Limits,
    help: &str,
) -> Result<(), PromptFault>
    ensures responses { OnOk result (Responds help.now limits (R.remaining reader.old) (W.contents writer.old) (W.contents writer.new)) }
    ensures report { OnOk result (Reports limits (R.remaining reader.old) (W.contents writer.old) (W.contents writer.new)) }
    ensures read { OnOk result (IsRead (R.remaining reader.old) (R.remaining reader.new)) }
    ensures endless { result ≡ Err TooLong → IsEndless (R.remaining reader.old) }
    ensures early { IfErr result (λ fault. EndsEarly help.now limits fault (R.remaining reader.old) (R.remaining reader.new) (W.contents writer.old)
        (W.contents writer.new)) }
{
    let setting = PromptSetting {
        heap,
        alloc,
        limits,
        help,
        has_signs: false,
    };
    step_from::<B, R, W, Brand>(&setting, reader, writer, Blank::new(2))
}
