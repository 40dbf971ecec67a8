//! Tells what the network could have made of the steps of a bench.
ghost use Rattle.std.specs.Prelude.{◌≡◌, IfErr, IfOk, string_bytes};
ghost use Rattle.program_core.specs.Explored.{RefusesExplored, TellsExplored, about_of, asked_of};
ghost use Rattle.progress_core.specs.Watches.{Watched};

use bench_core::Bench;
use command_line::ExploreOptions;
use explore_report::{About, Question, ReportFault, explore_asked, run_of_outcome};
use progress_core::{Walked, Watch};
use std::alloc::Allocator;

/// What the chosen exploration is about, as `explore_report` takes it.
fn about_of<'w>(chosen: command_line::About<'w>) -> About<'w>
    ensures { result ≡ about_of chosen.entry }
{
    match chosen {
        command_line::About::Cluster => About::Cluster,
        command_line::About::Node(node) => About::Node(node),
        command_line::About::Presence(command_line::Question { node, topic, key }) => {
            About::Presence { node, topic, key }
        }
    }
}

/// The exploration that was chosen, as `explore_report` takes it.
fn asked_of<'w>(asked: ExploreOptions<'w>) -> Question<'w>
    ensures { result ≡ asked_of asked.entry }
{
    Question {
        about: about_of(asked.about),
        lost: asked.lost,
        again: asked.again,
        states: asked.states,
    }
}

/// The outcomes of what the network could have done; or, if the number of an outcome is given, a run that leads to it,
/// as a script. Tells `watch` how far the walk has come.
pub fn tell_explored<'a, B: Allocator, W: Watch<Walked>>(
    bench: &mut Bench<'a, B>,
    alloc: &'a B,
    asked: ExploreOptions<'_>,
    watch: &mut W,
) -> Result<String<&'a B>, ReportFault>
    ensures told { IfOk result (λ text. TellsExplored bench.old (asked_of asked.entry)
        asked.entry.outcome (string_bytes text)) }
    ensures refused { IfErr result (RefusesExplored bench.old (asked_of asked.entry)
        asked.entry.outcome) }
    ensures watched { Watched W.told watch.old watch.new }
{
    let question = asked_of(asked);
    match asked.outcome {
        None => explore_asked(bench, alloc, question, watch),
        Some(number) => run_of_outcome(bench, alloc, question, number, watch),
    }
}
