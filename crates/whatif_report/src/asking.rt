//! Answers what would have made a difference, for a question in words.
ghost use Rattle.std.specs.Prelude.{◌≡◌, IfErr, IfOk, option_map, string_bytes};
ghost use Rattle.payload_core.specs.Messages.{numbered};
ghost use Rattle.whatif_core.specs.Differences.{nearest_change};
ghost use Rattle.whatif_core.specs.Exact.{HasOrder};
ghost use Rattle.progress_core.specs.Watches.{Watched};
ghost use Rattle.whatif_report.specs.Questions.{Asks, TellsChanges, IsRun, IsScriptWith, Refuses, RefusesRun};

use crate::run_text::script_of;
use crate::telling::tell;
use crate::whatif_fault::WhatifFault;
use bench_core::Bench;
use dots_core::Oom;
use payload_core::Word;
use progress_core::{Tried, Watch};
use std::alloc::Allocator;
use whatif_core::laws::exact_law;
use whatif_core::{Change, Difference, run_with, whatif};

/// Asks what would have made a difference to the rows with this topic and key at the node of this name.
#[derive(Clone, Copy, Debug, PartialEq, Eq)]
pub struct Question<'q> {
    pub node: &'q str,
    pub topic: &'q str,
    pub key: &'q str,
}

/// The question by number and words. Refused as in `whatif_asked`.
fn question_of<'a, B: Allocator>(
    bench: &Bench<'a, B>,
    alloc: &'a B,
    question: Question<'_>,
) -> Result<whatif_core::Question<&'a B>, WhatifFault>
    ensures asks { IfOk result (Asks bench.now question.entry) }
    ensures refused { IfErr result (Refuses bench.now question.entry) }
{
    let Some(node) = bench.names().number_of(question.node) else {
        return Err(WhatifFault::NoSuchNode);
    };
    let topic = Word::new(alloc, question.topic)?;
    let key = Word::new(alloc, question.key)?;
    Ok(whatif_core::Question { node, topic, key })
}

/// What would have made a difference, as a text: each single change after which the node lists other rows of the topic
/// and key, with the rows that go and come. Changes of the same step and kind with the same rows are told together.
/// `NoSuchNode` if no node has the name, then `NoWord` if the topic or the key isn't a word. Tells `watch` after each
/// change how many were tried.
pub fn whatif_asked<'a, B: Allocator, W: Watch<Tried>>(
    bench: &Bench<'a, B>,
    alloc: &'a B,
    question: Question<'_>,
    watch: &mut W,
) -> Result<String<&'a B>, WhatifFault>
    ensures text { IfOk result (λ text. TellsChanges bench.now question.entry (string_bytes text)) }
    ensures refused { IfErr result (Refuses bench.now question.entry) }
    ensures watched { Watched W.told watch.old watch.new }
{
    let asked = question_of(bench, alloc, question)?;
    Ok(tell(bench, &asked, alloc, watch)?)
}

/// The nearest change of the difference with this number in the text, counted from 1; `None` if there is none.
fn change_at<A: Allocator>(told: &[Difference<A>], number: u64) -> Option<Change>
    ensures { result ≡ option_map nearest_change (numbered told.now number) }
{
    if number == 0 {
        return None;
    }
    match told.get((number - 1) as usize) {
        Some(difference) => Some(difference.nearest()),
        None => None,
    }
}

/// The run with this change, as a script. The run with the change must have an order in which no message comes before
/// it is sent.
fn script_with<'a, B: Allocator>(
    bench: &Bench<'a, B>,
    change: Change,
    alloc: &'a B,
) -> Result<String<&'a B>, Oom>
    requires { HasOrder bench.now.state.remaining change }
    ensures { IfOk result (λ text. IsScriptWith bench.now change (string_bytes text)) }
{
    match run_with(bench, change, alloc)? {
        Some(run) => {
            let text = script_of(bench.names(), run.as_slice(), alloc);
            // form: drop before exit
            drop(run);
            text
        }
        None => unreachable!(),
    }
}

/// The run with the change that has this number in the text of `whatif_asked`, as a script that plays the run; of
/// changes told together, the nearest. `NoSuchNode` and `NoWord` as in `whatif_asked`; then `NoSuchChange` if no change
/// has the number. Tells `watch` after each change how many were tried.
pub fn run_with_change<'a, B: Allocator, W: Watch<Tried>>(
    bench: &Bench<'a, B>,
    alloc: &'a B,
    question: Question<'_>,
    number: u64,
    watch: &mut W,
) -> Result<String<&'a B>, WhatifFault>
    ensures run { IfOk result (λ text. IsRun bench.now question.entry number (string_bytes text)) }
    ensures refused { IfErr result (RefusesRun bench.now question.entry number) }
    ensures watched { Watched W.told watch.old watch.new }
{
    // form: hands out a law, for the proof
    exact_law();
    let asked = question_of(bench, alloc, question)?;
    let found = whatif(bench, &asked, alloc, watch)?;
    let changes = found.told.len();
    let change = change_at(found.told.as_slice(), number);
    // form: drop before exit
    drop(found);
    match change {
        Some(change) => Ok(script_with(bench, change, alloc)?),
        None => Err(WhatifFault::NoSuchChange { changes }),
    }
}
