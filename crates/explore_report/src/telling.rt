//! The text of what the network could have made of a run.
ghost use Rattle.std.specs.Prelude.{◌≡◌, ◌++◌, IfOk, OnOk, string_bytes};
ghost use Rattle.explore_network.specs.Questions.{plain, OfPresence};
ghost use Rattle.explore_report.specs.Texts.{asked_words, explore_text, head_line, outcome_text, outcomes_text};

use crate::run_text::put_run;
use crate::shown_text::put_shown;
use bench_core::{Bench, Names};
use dots_core::Oom;
use explore_network::{Explored, Outcome, Question};
use payload_core::Word;
use report_core::name_at;
use std::alloc::Allocator;

/// Appends ` NODE TOPIC KEY`.
fn put_presence<A: Allocator, N: Allocator, W: Allocator>(
    text: &mut String<A>,
    names: &Names<N>,
    node: u16,
    topic: &Word<W>,
    key: &Word<W>,
) -> Result<(), Oom>
    ensures { OnOk result (string_bytes text.new ≡ string_bytes text.old ++ asked_words names.now (OfPresence node topic.now key.now)) }
{
    let node = name_at(names, node);
    let topic = topic.as_str();
    let key = key.as_str();
    Ok(write!(text, " {node} {topic} {key}")?)
}

/// Appends what is asked about, ` NODE` or ` NODE TOPIC KEY`; nothing if the question is about the cluster.
fn put_asked<A: Allocator, N: Allocator, W: Allocator>(
    text: &mut String<A>,
    names: &Names<N>,
    question: &Question<W>,
) -> Result<(), Oom>
    ensures { OnOk result (string_bytes text.new ≡ string_bytes text.old ++ asked_words names.now (plain question.now)) }
{
    match question {
        Question::Cluster => Ok(()),
        Question::Node(node) => {
            let node = name_at(names, *node);
            Ok(write!(text, " {node}")?)
        }
        Question::Presence { node, topic, key } => put_presence(text, names, *node, topic, key),
    }
}

/// Appends `explore [NODE [TOPIC KEY]] outcomes M states S`, where M is `outcomes` and S is `states`, and a line feed.
#[tactic(auto, unfolding(crate::specs::Texts::head_line))]
fn put_head<A: Allocator, N: Allocator, W: Allocator>(
    text: &mut String<A>,
    names: &Names<N>,
    question: &Question<W>,
    outcomes: usize,
    states: usize,
) -> Result<(), Oom>
    ensures { OnOk result (string_bytes text.new ≡ string_bytes text.old ++ head_line names.now (plain question.now) outcomes states) }
{
    text.push_str("explore")?;
    put_asked(text, names, question)?;
    Ok(writeln!(text, " outcomes {outcomes} states {states}")?)
}

/// Appends the line `outcome K`, where K is `number`; then what the outcome shows, and the run that leads there, two
/// spaces before each of the run's lines.
#[tactic(auto, unfolding(crate::specs::Texts::outcome_text))]
fn put_outcome<'a, B: Allocator>(
    bench: &Bench<'a, B>,
    text: &mut String<&'a B>,
    question: &Question<&'a B>,
    number: usize,
    outcome: &Outcome<'a, B>,
    alloc: &'a B,
) -> Result<(), Oom>
    ensures { OnOk result (string_bytes text.new ≡ string_bytes text.old ++ outcome_text bench.now (plain question.now) number outcome.now) }
{
    writeln!(text, "outcome {number}")?;
    put_shown(outcome.cluster(), text, bench.names(), question, alloc)?;
    put_run(bench, text, "  ", outcome.run())
}

/// Appends each outcome, numbered from 1.
fn put_outcomes<'a, B: Allocator>(
    bench: &Bench<'a, B>,
    text: &mut String<&'a B>,
    question: &Question<&'a B>,
    outcomes: &[Outcome<'a, B>],
    alloc: &'a B,
) -> Result<(), Oom>
    ensures { OnOk result (string_bytes text.new ≡ string_bytes text.old ++ outcomes_text bench.now (plain question.now) 1 outcomes.now) }
{
    for place in 0..outcomes.len() {
        put_outcome(bench, text, question, place + 1, &outcomes[place], alloc)?;
    }
    Ok(())
}

/// Appends the whole text: the head, and each outcome.
#[tactic(auto, unfolding(crate::specs::Texts::explore_text))]
fn put_explored<'a, B: Allocator>(
    bench: &Bench<'a, B>,
    text: &mut String<&'a B>,
    question: &Question<&'a B>,
    explored: &Explored<'a, B>,
    alloc: &'a B,
) -> Result<(), Oom>
    ensures { OnOk result (string_bytes text.new ≡ string_bytes text.old ++
        explore_text bench.now (plain question.now) explored.now.outcomes.items explored.now.states) }
{
    let outcomes = explored.outcomes.as_slice();
    put_head(
        text,
        bench.names(),
        question,
        outcomes.len(),
        explored.states,
    )?;
    put_outcomes(bench, text, question, outcomes, alloc)
}

/// The text of what was found: the head, and each outcome.
pub(crate) fn tell<'a, B: Allocator>(
    bench: &Bench<'a, B>,
    question: &Question<&'a B>,
    explored: &Explored<'a, B>,
    alloc: &'a B,
) -> Result<String<&'a B>, Oom>
    ensures { IfOk result (λ text. string_bytes text ≡ explore_text bench.now (plain question.now) explored.now.outcomes.items explored.now.states) }
{
    let mut text = String::new(alloc);
    put_explored(bench, &mut text, question, explored, alloc)?;
    Ok(text)
}
