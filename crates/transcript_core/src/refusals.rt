//! Finds the first act or unwind that was refused.
ghost use Rattle.std.specs.Prelude.{◌≡◌, IfOk, OnOk, slice_get};
ghost use Rattle.journal_core.specs.Journals.{find_number};
ghost use Rattle.bench_core.specs.Acts.{plain_act};
ghost use Rattle.grammar_core.specs.Scripts.{plain_command, plain_lines, plain_script};
ghost use Rattle.report_core.specs.ActTexts.{after_act, after_unwind, reply_of};
ghost use Rattle.run_core.specs.Report.{after_command};
ghost use Rattle.transcript_core.specs.Refusals.{fault_in, first_from, first_in, first_recorded, first_refused, refusal_in, refusal_of, unwind_refusal};

use bench_core::{Act, Bench, Fault, History, Limits, Reply};
use dots_core::Oom;
use grammar_core::{Command, Line, Script, lines, node_names};
use report_core::{is_out_of_memory, reply_of, unwind};
use std::alloc::Allocator;

/// An act or an unwind that was refused. `number` is the number of its line in a script; for a recorded call it is the
/// call's place in the history, counted from 1.
#[derive(Clone, Copy, Debug, PartialEq, Eq)]
pub struct Refusal {
    pub number: u64,
    pub fault: Fault,
}

fn fault_in(reply: Reply) -> Option<Fault>
    ensures { result ≡ fault_in reply }
{
    match reply {
        Reply::Refused(fault) => Some(fault),
        _ => None,
    }
}

/// Carries out an act on the bench, and gives why the act was refused; `None` if it wasn't. Only refused memory is an
/// error.
fn ask<'a, B: Allocator>(
    bench: &mut Bench<'a, B>,
    actor: u16,
    act: &Act<&'a B>,
) -> Result<Option<Fault>, Oom>
    ensures refusal { IfOk result (λ refusal. refusal ≡ fault_in (reply_of bench.old actor (plain_act act.now))) }
    ensures bench { OnOk result (bench.new ≡ after_act bench.old actor (plain_act act.now)) }
{
    Ok(fault_in(reply_of(bench, actor, act)?))
}

/// Why the unwind of a step would be refused; `None` if it wouldn't. Only refused memory is an error.
fn unwind_refusal<'a, B: Allocator>(bench: &Bench<'a, B>, number: u64) -> Result<Option<Fault>, Oom>
    ensures { IfOk result (λ refusal. refusal ≡ unwind_refusal bench.now.state number (find_number bench.now.state.remaining number)) }
{
    match bench.why(number) {
        Ok(numbers) => {
            // form: drop before exit
            drop(numbers);
            Ok(None)
        }
        Err(fault) => {
            if is_out_of_memory(fault) {
                return Err(Oom);
            }
            Ok(Some(fault))
        }
    }
}

/// Unwinds a step, and gives why the unwind was refused; `None` if it wasn't. Drops what the unwind prints.
fn ask_unwind<'a, B: Allocator>(
    bench: &mut Bench<'a, B>,
    actor: u16,
    number: u64,
    alloc: &'a B,
) -> Result<Option<Fault>, Oom>
    ensures refusal { IfOk result (λ refusal. refusal ≡ unwind_refusal bench.old.state number (find_number bench.old.state.remaining number)) }
    ensures bench { OnOk result (bench.new ≡ after_unwind bench.old actor number) }
{
    let refusal = unwind_refusal(bench, number)?;
    let mut unread = String::new(alloc);
    unwind(&mut unread, alloc, bench, actor, number)?;
    Ok(refusal)
}

/// Carries out an act or an unwind, drops what that prints, and gives why it was refused; `None` if it wasn't. Other
/// commands only print: for these it does nothing, and gives `None`.
#[tactic(auto, unfolding(crate::specs::Refusals::refusal_of, run_core::specs::Report::after_command))]
fn obey<'a, B: Allocator>(
    bench: &mut Bench<'a, B>,
    command: &Command<&'a B>,
    alloc: &'a B,
) -> Result<Option<Fault>, Oom>
    ensures refusal { IfOk result (λ refusal. refusal ≡ refusal_of bench.old (plain_command command.now)) }
    ensures bench { OnOk result (bench.new ≡ after_command bench.old (plain_command command.now)) }
{
    match command {
        Command::Call(actor, act) => ask(bench, *actor, act),
        Command::Unwind(actor, number) => ask_unwind(bench, *actor, *number, alloc),
        _ => Ok(None),
    }
}

/// Carries out the lines in turn on the bench, up to the first act or unwind that is refused, and gives its refusal;
/// `None` if no act or unwind is refused.
#[tactic(auto, unfolding(crate::specs::Refusals::first_from))]
fn first_from<'a, B: Allocator>(
    bench: &mut Bench<'a, B>,
    lines: &[Line<&'a B>],
    alloc: &'a B,
) -> Result<Option<Refusal>, Oom>
    ensures { IfOk result (λ refusal. refusal ≡ first_from bench.old (plain_lines lines.now)) }
{
    for line in lines {
        if let Some(fault) = obey(bench, &line.command, alloc)? {
            let number = line.number;
            return Ok(Some(Refusal { number, fault }));
        }
    }
    Ok(None)
}

/// The refusal of the first act or unwind that is refused when the script is played with these limits; `None` if none
/// is. A refused `why` doesn't count.
#[tactic(auto, unfolding(crate::specs::Refusals::first_refused))]
pub fn first_refused<'a, B: Allocator>(
    script: &Script<&'a B>,
    alloc: &'a B,
    limits: Limits,
) -> Result<Option<Refusal>, Oom>
    ensures { IfOk result (λ refusal. refusal ≡ first_refused limits (plain_script script.now)) }
{
    let names = node_names(script).try_copy()?;
    let mut bench = Bench::new(alloc, names, limits)?;
    let refusal = first_from(&mut bench, lines(script), alloc);
    // form: drop before exit
    bench.discard();
    refusal
}

/// Why the recorded call at `place`, counted from 0, was refused; `None` if it wasn't, or none was recorded there.
fn refusal_at<'a, B: Allocator>(history: &History<'a, B>, place: usize) -> Option<Fault>
    ensures { result ≡ refusal_in (slice_get history.now place) }
{
    match history.at(place) {
        Some(event) => fault_in(event.reply),
        None => None,
    }
}

/// The first refused call of a history; `None` if no call was refused.
fn first_recorded<'a, B: Allocator>(history: &History<'a, B>) -> Option<Refusal>
    ensures { result ≡ first_recorded 1 history.now }
{
    for place in 0..history.len() {
        if let Some(fault) = refusal_at(history, place) {
            let number = place as u64 + 1;
            return Some(Refusal { number, fault });
        }
    }
    None
}

/// The first refused call of those that a bench recorded; `None` if no call was refused.
pub fn first_in<'a, B: Allocator>(bench: &Bench<'a, B>) -> Option<Refusal>
    ensures { result ≡ first_in bench.now }
{
    first_recorded(bench.history())
}
