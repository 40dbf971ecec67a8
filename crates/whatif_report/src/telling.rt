//! The text of what would have made a difference.
ghost use Rattle.std.specs.Prelude.{◌≡◌, ◌++◌, IfOk, OnOk, length, string_bytes};
ghost use Rattle.journal_core.specs.Holdings.{kepts};
ghost use Rattle.change_core.specs.Changes.{changes};
ghost use Rattle.whatif_core.specs.Differences.{Tally, tally_of};
ghost use Rattle.change_core.specs.Ends.{rows_before};
ghost use Rattle.progress_core.specs.Watches.{Watched};
ghost use Rattle.whatif_report.specs.Texts.{asked_words, counts_words, differences_text, head_line, whatif_text};

use crate::change_text::{Recorded, put_difference};
use bench_core::{Bench, Names};
use dots_core::Oom;
use progress_core::{Tried, Watch};
use report_core::{name_at, put_rows};
use std::alloc::Allocator;
use whatif_core::{Difference, Differences, Question, whatif};

/// Appends `whatif NODE TOPIC KEY`.
#[tactic(auto, unfolding(crate::specs::Texts::asked_words))]
fn put_asked<A: Allocator, N: Allocator, W: Allocator>(
    text: &mut String<A>,
    names: &Names<N>,
    question: &Question<W>,
) -> Result<(), Oom>
    ensures { OnOk result (string_bytes text.new ≡ string_bytes text.old ++ asked_words names.now question.now) }
{
    let node = name_at(names, question.node);
    let topic = question.topic.as_str();
    let key = question.key.as_str();
    Ok(write!(text, "whatif {node} {topic} {key}")?)
}

/// Appends ` tried T possible P differ D`, the three counts, and a line feed.
#[tactic(auto, unfolding(crate::specs::Texts::counts_words))]
fn put_counts<A: Allocator>(
    text: &mut String<A>,
    tried: usize,
    possible: usize,
    differ: usize,
) -> Result<(), Oom>
    ensures { OnOk result (string_bytes text.new ≡ string_bytes text.old ++ counts_words tried possible differ) }
{
    Ok(writeln!(text, " tried {tried} possible {possible} differ {differ}")?)
}

/// Appends `whatif NODE TOPIC KEY tried T possible P differ D`, and a line feed.
#[tactic(auto, unfolding(crate::specs::Texts::head_line))]
fn put_head<A: Allocator, N: Allocator, W: Allocator>(
    text: &mut String<A>,
    names: &Names<N>,
    question: &Question<W>,
    found: &Differences<W>,
) -> Result<(), Oom>
    ensures { OnOk result ((t : Tally) → t.possible ≡ found.now.possible → t.differ ≡ found.now.differ →
        string_bytes text.new ≡ string_bytes text.old ++ head_line names.now question.now found.now.tried t) }
{
    put_asked(text, names, question)?;
    put_counts(text, found.tried, found.possible, found.differ)
}

/// Appends the text of each difference, numbered from 1.
fn put_differences<'a, A: Allocator, N: Allocator, B: Allocator>(
    recorded: &Recorded<'a, '_, N, B>,
    text: &mut String<A>,
    told: &[Difference<&'a B>],
    alloc: &'a B,
) -> Result<(), Oom>
    ensures { OnOk result (string_bytes text.new ≡ string_bytes text.old ++
        differences_text recorded.now.names.now (kepts recorded.now.journal.now.steps) recorded.now.before.now 1 told.now) }
{
    for place in 0..told.len() {
        put_difference(recorded, text, place + 1, &told[place], alloc)?;
    }
    Ok(())
}

/// Appends the whole text: the head, the rows of the recorded run, and each difference. `found` must be what `whatif`
/// finds for the question.
fn put_found<'a, A: Allocator, B: Allocator>(
    bench: &Bench<'a, B>,
    text: &mut String<A>,
    question: &Question<&'a B>,
    found: &Differences<&'a B>,
    alloc: &'a B,
) -> Result<(), Oom>
    requires before { found.now.before.items ≡ rows_before bench.now question.now }
    requires tried { found.now.tried ≡ length (changes bench.now.state.remaining) }
    requires possible { found.now.possible ≡ (tally_of bench.now question.now).possible }
    requires differ { found.now.differ ≡ (tally_of bench.now question.now).differ }
    requires told { found.now.told.items ≡ (tally_of bench.now question.now).told }
    ensures { OnOk result (string_bytes text.new ≡ string_bytes text.old ++ whatif_text bench.now question.now) }
{
    put_head(text, bench.names(), question, found)?;
    put_rows(text, "= ", bench.names(), found.before.as_slice())?;
    let recorded = Recorded {
        names: bench.names(),
        journal: bench.remaining(),
        before: found.before.as_slice(),
    };
    put_differences(&recorded, text, found.told.as_slice(), alloc)
}

/// What would have made a difference to the rows of the question, as a text. Tells `watch` after each change how many
/// were tried.
pub(crate) fn tell<'a, B: Allocator, W: Watch<Tried>>(
    bench: &Bench<'a, B>,
    question: &Question<&'a B>,
    alloc: &'a B,
    watch: &mut W,
) -> Result<String<&'a B>, Oom>
    ensures text { IfOk result (λ text. string_bytes text ≡ whatif_text bench.now question.now) }
    ensures watched { Watched W.told watch.old watch.new }
{
    let found = whatif(bench, question, alloc, watch)?;
    let mut text = String::new(alloc);
    let put = put_found(bench, &mut text, question, &found, alloc);
    // form: drop before exit
    drop(found);
    put?;
    Ok(text)
}
