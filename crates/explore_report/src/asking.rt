//! Tells what the network could have made of a run, for a question that gives node, topic and key as texts.
ghost use Rattle.std.specs.Prelude.{◌≡◌, ◌≤◌, IfErr, IfOk, length, option_map, string_bytes};
ghost use Rattle.payload_core.specs.Messages.{numbered};
ghost use Rattle.explore_network.specs.Questions.{plain, IsThere};
ghost use Rattle.explore_report.specs.Questions.{AreOutcomes, TellsOutcomes, IsRun, Refuses, RefusesRun, StopsShort};
ghost use Rattle.progress_core.specs.Watches.{Watched};

use crate::question::{Question, asked};
use crate::report_fault::{ReportFault, fault_of};
use crate::run_text::script_of;
use crate::telling::tell;
use bench_core::Bench;
use explore_network::{Bounds, Explored, Outcome, Question as Plain, explore};
use progress_core::{Walked, Watch};
use std::alloc::Allocator;

/// Finds the outcomes for `question`. `asked` is `question.about` as the function `asked` gives it: the node by its
/// number, topic and key as `Word`s.
fn explored<'a, B: Allocator, W: Watch<Walked>>(
    bench: &Bench<'a, B>,
    asked: &Plain<&'a B>,
    question: Question<'_>,
    alloc: &'a B,
    watch: &mut W,
) -> Result<Explored<'a, B>, ReportFault>
    requires there { IsThere (length bench.now.names) (plain asked.now) }
    ensures outcomes { IfOk result (λ e. AreOutcomes bench.now (plain asked.now) question.entry.lost question.entry.again e.outcomes.items) }
    ensures few { IfOk result (λ e. e.states ≤ question.entry.states) }
    ensures refused { IfErr result (StopsShort bench.now question.entry (plain asked.now)) }
    ensures watched { Watched W.told watch.old watch.new }
{
    let bounds = Bounds {
        lost: question.lost,
        again: question.again,
        states: question.states,
    };
    match explore(bench, asked, bounds, alloc, watch) {
        Ok(explored) => Ok(explored),
        Err(fault) => Err(fault_of(fault, bounds.states)),
    }
}

/// What the network could have made of the remaining steps, as a text: each outcome, with a run that leads there.
/// Looks for `NoSuchNode`, `NoWord`, `MayFill` and `TooManySteps`, in this order, before the walk begins.
pub fn explore_asked<'a, B: Allocator, W: Watch<Walked>>(
    bench: &Bench<'a, B>,
    alloc: &'a B,
    question: Question<'_>,
    watch: &mut W,
) -> Result<String<&'a B>, ReportFault>
    ensures text { IfOk result (λ text. TellsOutcomes bench.now question.entry (string_bytes text)) }
    ensures refused { IfErr result (Refuses bench.now question.entry) }
    ensures watched { Watched W.told watch.old watch.new }
{
    let asked = asked(bench, question.about, alloc)?;
    let explored = explored(bench, &asked, question, alloc, watch)?;
    let text = tell(bench, &asked, &explored, alloc);
    // form: drop before exit
    explored.discard();
    drop(asked);
    Ok(text?)
}

/// The outcome with this number in the text, counted from 1; `None` if there is none.
fn outcome_at<'l, 'a, B: Allocator>(
    outcomes: &'l [Outcome<'a, B>],
    number: u64,
) -> Option<&'l Outcome<'a, B>>
    ensures { option_map (λ outcome. outcome.now) result ≡ numbered outcomes.now number }
{
    let place = number.checked_sub(1)?;
    outcomes.get(place as usize)
}

/// The run of the outcome with this number in the text of `explore_asked`, as a script that plays it. The faults are
/// those of `explore_asked`, and `NoSuchOutcome` if the walk found no outcome of that number.
pub fn run_of_outcome<'a, B: Allocator, W: Watch<Walked>>(
    bench: &Bench<'a, B>,
    alloc: &'a B,
    question: Question<'_>,
    number: u64,
    watch: &mut W,
) -> Result<String<&'a B>, ReportFault>
    ensures run { IfOk result (λ text. IsRun bench.now question.entry number (string_bytes text)) }
    ensures refused { IfErr result (RefusesRun bench.now question.entry number) }
    ensures watched { Watched W.told watch.old watch.new }
{
    let asked = asked(bench, question.about, alloc)?;
    let explored = explored(bench, &asked, question, alloc, watch)?;
    // form: drop before exit
    drop(asked);
    let Some(outcome) = outcome_at(explored.outcomes.as_slice(), number) else {
        let outcomes = explored.outcomes.len();
        explored.discard();
        return Err(ReportFault::NoSuchOutcome { outcomes });
    };
    let text = script_of(bench, outcome.run(), alloc);
    explored.discard();
    Ok(text?)
}
