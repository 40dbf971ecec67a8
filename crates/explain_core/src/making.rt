//! The steps that made presences of a topic and key.
ghost use Rattle.std.specs.Prelude.{◌≡◌, ◌++◌, IfOk, OnOk};
ghost use Rattle.journal_core.specs.Holdings.{kepts};
ghost use Rattle.explain_core.specs.Makings.{made_by, making_of, makings_from, makings_of, tracked_dot};

use crate::tracking::{ask, opened};
use bench_core::{Bench, Journal, Kept, Step};
use dots_core::{Dot, Oom};
use payload_core::Word;
use std::alloc::Allocator;

/// The number of a step that made a presence, and the presence's dot.
#[derive(Clone, Copy, Debug, PartialEq, Eq)]
pub struct Making {
    pub number: u64,
    pub dot: Dot,
}

/// The dot under which the node tracks the process, topic and key; `None` if the node doesn't track them, or there is
/// no such node.
#[tactic(auto, unfolding(crate::specs::Makings::tracked_dot, report_core::specs::Shown::node_of))]
fn tracked_dot<'a, B: Allocator>(
    bench: &Bench<'a, B>,
    node: u16,
    pid: u64,
    topic: &Word<&'a B>,
    key: &Word<&'a B>,
    metadata: &Word<&'a B>,
) -> Option<Dot>
    ensures { result ≡ tracked_dot bench.now node (record { pid = pid; topic = topic.now; key = key.now; metadata = metadata.now }) }
{
    // form: `metadata` is for the contract alone
    let _ = metadata;
    let found = bench.node(node)?;
    found.replica().entries().find(node, pid, topic, key)
}

/// Appends the number of the step `kept` and the dot of the presence that the step made, if that presence has this
/// topic and key. `asked` is the bench after the step.
#[tactic(auto, unfolding(crate::specs::Makings::making_of))]
fn put_making<'a, B: Allocator>(
    makings: &mut Vec<Making, &'a B>,
    asked: &Bench<'a, B>,
    topic: &Word<&'a B>,
    key: &Word<&'a B>,
    kept: &Kept<&'a B>,
) -> Result<(), Oom>
    ensures { OnOk result (makings.new.items ≡ makings.old.items ++ making_of asked.now topic.now key.now kept.now) }
{
    match &kept.step {
        Step::Join {
            pid,
            topic: made_topic,
            key: made_key,
            metadata,
        }
        | Step::Update {
            pid,
            topic: made_topic,
            key: made_key,
            metadata,
        } => {
            if *made_topic == *topic && *made_key == *key {
                let dot = tracked_dot(asked, kept.node, *pid, made_topic, made_key, metadata);
                return put_made(makings, kept.number, dot);
            }
            Ok(())
        }
        _ => Ok(()),
    }
}

/// Appends the number of a step and `dot`, that of the presence which the step made; nothing if `dot` is `None`.
fn put_made<A: Allocator>(
    makings: &mut Vec<Making, A>,
    number: u64,
    dot: Option<Dot>,
) -> Result<(), Oom>
    ensures { OnOk result (makings.new.items ≡ makings.old.items ++ made_by number dot) }
{
    if let Some(dot) = dot {
        makings.push(Making { number, dot })?;
    }
    Ok(())
}

/// Asks the remaining steps of `journal`, one by one, of the bench `asked`, and appends the making of each that made a
/// presence of this topic and key.
#[tactic(auto, unfolding(crate::specs::Makings::makings_from))]
fn put_makings<'a, B: Allocator>(
    makings: &mut Vec<Making, &'a B>,
    asked: &mut Bench<'a, B>,
    topic: &Word<&'a B>,
    key: &Word<&'a B>,
    journal: &Journal<'a, B>,
) -> Result<(), Oom>
    ensures { OnOk result (makings.new.items ≡ makings.old.items ++ makings_from topic.now key.now asked.old (kepts journal.now.steps)) }
{
    let mut steps = journal.steps();
    while let Some(kept) = steps.next() {
        ask(asked, kept)?;
        put_making(makings, asked, topic, key, kept)?;
    }
    Ok(())
}

/// The remaining steps that made presences of this topic and key, in their order, each with the presence's dot.
#[tactic(auto, unfolding(crate::specs::Makings::makings_of))]
pub fn makings_of<'a, B: Allocator>(
    bench: &Bench<'a, B>,
    topic: &Word<&'a B>,
    key: &Word<&'a B>,
    alloc: &'a B,
) -> Result<Vec<Making, &'a B>, Oom>
    ensures { IfOk result (λ makings. makings.items ≡ makings_of bench.now topic.now key.now) }
{
    let mut asked = opened(bench, alloc)?;
    let mut makings = Vec::new(alloc);
    let put = put_makings(&mut makings, &mut asked, topic, key, bench.remaining());
    // form: drop before exit
    asked.discard();
    put?;
    Ok(makings)
}
