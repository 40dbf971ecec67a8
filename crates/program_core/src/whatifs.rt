//! Tells what would have made a difference on a bench.
ghost use Rattle.std.specs.Prelude.{◌≡◌, IfErr, IfOk, string_bytes};
ghost use Rattle.program_core.specs.Whatifs.{RefusesWhatif, TellsWhatif, question_of};
ghost use Rattle.progress_core.specs.Watches.{Watched};

use bench_core::Bench;
use command_line::WhatifOptions;
use progress_core::{Tried, Watch};
use std::alloc::Allocator;
use whatif_report::{Question, WhatifFault, run_with_change, whatif_asked};

/// The question that was chosen, as `whatif_report` takes it.
fn question_of<'w>(chosen: command_line::Question<'w>) -> Question<'w>
    ensures { result ≡ question_of chosen.entry }
{
    Question {
        node: chosen.node,
        topic: chosen.topic,
        key: chosen.key,
    }
}

/// The changes that would have made a difference; or, if the number of a change is given, the run with that change, as
/// a script. Tells `watch` how many changes were tried.
pub fn tell_whatif<'a, B: Allocator, W: Watch<Tried>>(
    bench: &mut Bench<'a, B>,
    alloc: &'a B,
    asked: WhatifOptions<'_>,
    watch: &mut W,
) -> Result<String<&'a B>, WhatifFault>
    ensures told { IfOk result (λ text. TellsWhatif bench.old asked.entry.question asked.entry.change (string_bytes text)) }
    ensures refused { IfErr result (RefusesWhatif bench.old asked.entry.question asked.entry.change) }
    ensures watched { Watched W.told watch.old watch.new }
{
    let question = question_of(asked.question);
    match asked.change {
        None => whatif_asked(bench, alloc, question, watch),
        Some(number) => run_with_change(bench, alloc, question, number, watch),
    }
}
