//! The names of those who act: nodes and consoles. A session has no names for its consoles.
ghost use Rattle.std.specs.Prelude.{◌≡◌, IfOk, OnOk, map};
ghost use Rattle.report_core.specs.Rows.{name_at};
ghost use Rattle.transcript_core.specs.Actors.{actor_name, console_count, console_words, free_consoles, named_consoles, with_actor, with_free};

use bench_core::{Bench, History, Names, TextSet};
use dots_core::Oom;
use grammar_core::words_of;
use report_core::name_at;
use std::alloc::Allocator;

/// Names for consoles that have none. There are 48, so that 16, the most consoles of a script, are free even if each of
/// 32 nodes has one of these names.
pub const CONSOLES: &str =
    "c1 c2 c3 c4 c5 c6 c7 c8 c9 c10 c11 c12 c13 c14 c15 c16 c17 c18 c19 c20 c21 c22 c23 c24 c25 c26 c27 c28 c29 c30 c31 c32 c33 c34 c35 c36 c37 c38 c39 c40 c41 c42 c43 c44 c45 c46 c47 c48";

/// The name of the console with this number, counted from 0 among the consoles; empty if there is no such console.
pub fn console_at<A: Allocator>(consoles: &TextSet<A>, number: usize) -> &str
    ensures { result.now ≡ name_at consoles.now number }
{
    match consoles.text(number) {
        Some(name) => name,
        None => "",
    }
}

/// The names of all who act, as a `Cast` has them, lent. An actor's number counts the nodes first, and then the consoles.
#[derive(Drop)]
pub struct CastRef<'t, N: Allocator, C: Allocator> {
    pub nodes: &'t Names<N>,
    pub consoles: &'t TextSet<C>,
}

/// The name of a node or a console; empty if there is no such actor.
#[tactic(auto, unfolding(crate::specs::Actors::actor_name))]
pub(crate) fn actor_name<'t, N: Allocator, C: Allocator>(
    cast: &CastRef<'t, N, C>,
    actor: u16,
) -> &'t str
    ensures { result.now ≡ actor_name (record { nodes = cast.now.nodes.now; consoles = cast.now.consoles.now }) actor }
{
    let nodes = cast.nodes;
    if (actor as usize) < nodes.len() {
        return name_at(nodes, actor);
    }
    console_at(cast.consoles, actor as usize - nodes.len())
}

/// The greater of `count` and the number of consoles that must stand beside `nodes` nodes so that `actor` is the number
/// of a node or a console.
fn with_actor(nodes: usize, count: usize, actor: u16) -> usize
    ensures { result ≡ with_actor nodes count actor }
{
    let needed = (actor as usize + 1).saturating_sub(nodes);
    // form: `max`, spelled out for the proof
    if count < needed { needed } else { count }
}

/// How many consoles must stand beside `nodes` nodes so that each actor of a recorded call is a node or a console.
fn console_count<'a, B: Allocator>(nodes: usize, history: &History<'a, B>) -> usize
    ensures { result ≡ console_count nodes history.now }
{
    let mut count = 0;
    for place in 0..history.len() {
        if let Some(event) = history.at(place) {
            count = with_actor(nodes, count, event.actor);
        }
    }
    count
}

/// Adds `name` to `consoles`, if these are fewer than `count`, and no node and no console has the name.
fn put_free<A: Allocator + Copy, N: Allocator>(
    nodes: &Names<N>,
    count: usize,
    consoles: &mut TextSet<A>,
    name: &str,
) -> Result<(), Oom>
    ensures { OnOk result (consoles.new ≡ with_free nodes.now count consoles.old name.now) }
{
    if consoles.len() < count && nodes.number_of(name).is_none() {
        let _is_new = consoles.insert(name)?;
    }
    Ok(())
}

/// The words of `CONSOLES`, as a list.
#[tactic(auto, unfolding(crate::specs::Actors::console_words))]
fn console_words<A: Allocator>(alloc: A) -> Result<Vec<&'static str, A>, Oom>
    ensures { IfOk result (λ words. map (λ word. word.now) words.items ≡ console_words) }
{
    words_of(alloc, CONSOLES)
}

/// Names for `count` consoles: the first `count` names of `CONSOLES` that no node has, or all such names if there are
/// fewer.
#[tactic(auto, unfolding(crate::specs::Actors::named_consoles))]
fn named_consoles<A: Allocator + Copy, N: Allocator>(
    nodes: &Names<N>,
    count: usize,
    alloc: A,
) -> Result<TextSet<A>, Oom>
    ensures { IfOk result (λ consoles. consoles ≡ named_consoles nodes.now count) }
{
    let words = console_words(alloc)?;
    let mut consoles = TextSet::new(alloc);
    for word in &words {
        put_free(nodes, count, &mut consoles, word)?;
    }
    Ok(consoles)
}

/// Names for the consoles of a bench, which knows its consoles by number alone. Each console, up to the
/// highest-numbered one that asked something, gets the next name of `c1` to `c48` that no node has. If too few names
/// are free, the last consoles get none.
#[tactic(auto, unfolding(crate::specs::Actors::free_consoles))]
pub fn free_consoles<'a, B: Allocator>(
    bench: &Bench<'a, B>,
    alloc: &'a B,
) -> Result<TextSet<&'a B>, Oom>
    ensures { IfOk result (λ consoles. consoles ≡ free_consoles bench.now) }
{
    let nodes = bench.names();
    named_consoles(nodes, console_count(nodes.len(), bench.history()), alloc)
}
