//! The report of the acts that a bench recorded.
ghost use Rattle.std.specs.Prelude.{◌≡◌, ◌++◌, OnOk, IfOk, string_bytes, map};
ghost use Rattle.run_core.specs.Report.{command_text, after_command, commands_text, call_of, history_text};

use bench_core::{Bench, Event, History};
use dots_core::Oom;
use report_core::act;
use std::alloc::Allocator;

/// Makes a recorded act on `bench`, which isn't the bench that recorded it, and appends what the act prints.
#[tactic(auto, unfolding(crate::specs::Report::command_text, crate::specs::Report::after_command))]
fn event<'a, B: Allocator>(
    text: &mut String<&'a B>,
    alloc: &'a B,
    bench: &mut Bench<'a, B>,
    event: &Event<&'a B>,
) -> Result<(), Oom>
    ensures bench { OnOk result (bench.new ≡ after_command bench.old (call_of event.now)) }
    ensures text { OnOk result (string_bytes text.new ≡ string_bytes text.old ++ command_text bench.old (call_of event.now)) }
{
    act(text, alloc, bench, event.actor, &event.act)
}

/// Makes the acts of `history` in turn on `bench`, which isn't the bench that recorded them, and appends what the acts
/// print.
#[tactic(auto, unfolding(crate::specs::Report::commands_text))]
fn events<'a, B: Allocator>(
    text: &mut String<&'a B>,
    bench: &mut Bench<'a, B>,
    history: &History<'a, B>,
    alloc: &'a B,
) -> Result<(), Oom>
    ensures { OnOk result (string_bytes text.new ≡ string_bytes text.old ++ commands_text bench.old (map call_of history.now)) }
{
    for place in 0..history.len() {
        if let Some(next) = history.at(place) {
            event(text, alloc, bench, next)?;
        }
    }
    Ok(())
}

/// What the recorded acts of a bench print when a new bench with the same names and limits makes them.
#[tactic(auto, unfolding(crate::specs::Report::history_text, crate::specs::Report::report_of))]
fn told_again<'a, B: Allocator>(bench: &Bench<'a, B>, alloc: &'a B) -> Result<Vec<u8, &'a B>, Oom>
    ensures { IfOk result (λ report. report.items ≡ history_text bench.now) }
{
    let names = bench.names().try_copy()?;
    let mut again = Bench::new(alloc, names, bench.limits())?;
    let mut text = String::new(alloc);
    let told = events(&mut text, &mut again, bench.history(), alloc);
    // form: drop before exit
    again.discard();
    told?;
    Ok(text.into_bytes())
}

/// What the recorded acts of a bench print when a new bench with the same names and limits makes them.
pub fn report_history<'a, B: Allocator>(
    bench: &Bench<'a, B>,
    alloc: &'a B,
) -> Result<Vec<u8, &'a B>, Oom>
    ensures { IfOk result (λ report. report.items ≡ history_text bench.now) }
{
    // form: only moves the allocator, which comes last inside
    told_again(bench, alloc)
}
