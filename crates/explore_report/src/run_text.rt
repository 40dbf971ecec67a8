//! A run as a script. The run is given by the places of its steps among those that remain.
ghost use Rattle.std.specs.Prelude.{◌≡◌, ◌++◌, [], IfOk, OnOk, slice_get, string_bytes};
ghost use Rattle.journal_core.specs.Holdings.{kepts};
ghost use Rattle.explore_network.specs.Walks.{steps_at};
ghost use Rattle.transcript_core.specs.Runs.{run_text, step_lines};
ghost use Rattle.explore_report.specs.Texts.{line_of};

use bench_core::{Bench, Journal, Names};
use dots_core::Oom;
use std::alloc::Allocator;
use transcript_core::{put_nodes_line, put_step_line};

/// Appends `indent` and the line of the step at `place`; nothing if there is no such step.
fn put_step<'a, A: Allocator, N: Allocator, B: Allocator>(
    journal: &Journal<'a, B>,
    text: &mut String<A>,
    indent: &str,
    names: &Names<N>,
    place: usize,
) -> Result<(), Oom>
    ensures { OnOk result (string_bytes text.new ≡ string_bytes text.old ++
        line_of indent.now names.now (slice_get (kepts journal.now.steps) place)) }
{
    match journal.at(place) {
        Some(kept) => put_step_line(text, indent, names, kept),
        None => Ok(()),
    }
}

/// Appends the line of the step at each of `places`, after `indent`; nothing for a place without a step.
fn put_steps<'a, A: Allocator, N: Allocator, B: Allocator>(
    journal: &Journal<'a, B>,
    text: &mut String<A>,
    indent: &str,
    names: &Names<N>,
    places: &[usize],
) -> Result<(), Oom>
    ensures { OnOk result (string_bytes text.new ≡ string_bytes text.old ++ step_lines indent.now names.now (steps_at (kepts journal.now.steps) places.now)) }
{
    for place in places {
        put_step(journal, text, indent, names, *place)?;
    }
    Ok(())
}

/// Appends the run of the remaining steps at these places: the line that names the nodes, and a line for each step.
/// Each line begins with `indent`.
#[tactic(auto, unfolding(transcript_core::specs::Runs::run_text))]
pub(crate) fn put_run<'a, A: Allocator, B: Allocator>(
    bench: &Bench<'a, B>,
    text: &mut String<A>,
    indent: &str,
    places: &[usize],
) -> Result<(), Oom>
    ensures { OnOk result (string_bytes text.new ≡ string_bytes text.old ++
        run_text indent.now bench.now.names (steps_at bench.now.state.remaining places.now)) }
{
    put_nodes_line(text, indent, bench.names())?;
    put_steps(bench.remaining(), text, indent, bench.names(), places)
}

/// The run of the remaining steps at these places, as a script.
pub(crate) fn script_of<'a, B: Allocator>(
    bench: &Bench<'a, B>,
    places: &[usize],
    alloc: &'a B,
) -> Result<String<&'a B>, Oom>
    ensures { IfOk result (λ text. string_bytes text ≡ run_text [] bench.now.names (steps_at bench.now.state.remaining places.now)) }
{
    let mut text = String::new(alloc);
    put_run(bench, &mut text, "", places)?;
    Ok(text)
}
