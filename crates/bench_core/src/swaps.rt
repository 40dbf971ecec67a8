//! `same_cluster`: whether swaps lead from the steps that remain of one bench to those of another.
ghost use Rattle.std.specs.Prelude.{◌≡◌, ℕ, List, ◌↔◌, ◌+◌, ◌++◌, ◌∷◌, ◌<◌, [], Ok, Err, Some, None, IsTrue, IfOk, IfSome, length, slice_get, if◌then◌else◌};
ghost use Rattle.journal_core.specs.Journals.{Kept as KeptStep};
ghost use Rattle.journal_core.specs.Holdings.{kepts};
ghost use Rattle.bench_core.specs.declared.swap_fault.SwapFault.TheVariants.{BadSwap};
ghost use Rattle.bench_core.specs.Clusters.{Cluster};
ghost use Rattle.bench_core.specs.Machine.{cluster_of};
ghost use Rattle.bench_core.specs.Swaps.{after_swaps, exchanged, AreOfOneKind, SwapsEnd};
ghost use Rattle.bench_core.specs.Movables.{may_swap, movable_after, movables_after, AreOfNodes, AreStepsOf, CountSent, IsSameAt};

use crate::bench::Bench;
use crate::movable::Movable;
use crate::swap_fault::SwapFault;
use dots_core::Oom;
use journal_core::{Journal, Kept};
use std::alloc::Allocator;

/// What a swap needs to know of the step `kept` at `place`, counted from 0. `sent` has how many messages each node sent
/// in the steps before; if `kept` sends a message, its node's count rises by one.
fn noted<A: Allocator>(kept: &Kept<A>, place: usize, sent: &mut [u64]) -> Movable
    requires known { kept.now.node < length sent.old }
    requires few { (n : ℕ) → slice_get sent.old kept.now.node ≡ Some n → n < 18446744073709551615 }
    ensures noted { (first : List KeptStep) → length first ≡ place → CountSent (length sent.old) first sent.old → result ≡ movable_after first kept.now }
    ensures counts { (first : List KeptStep) → CountSent (length sent.old) first sent.old → CountSent (length sent.old) (first ++ kept.now ∷ []) sent.new }
    ensures length { length sent.new ≡ length sent.old }
{
    let mut sends = None;
    if kept.step.sends() {
        let number = sent[kept.node as usize] + 1;
        sent[kept.node as usize] = number;
        sends = Some((kept.node, number));
    }
    Movable {
        place,
        node: kept.node,
        delivers: kept.step.delivers(),
        sends,
    }
}

/// What a swap needs to know of each step of the journal, in the journal's order. The steps are of nodes below `nodes`.
fn movables<'a, B: Allocator>(
    journal: &Journal<'a, B>,
    nodes: usize,
    alloc: &'a B,
) -> Result<Vec<Movable, &'a B>, Oom>
    requires { AreOfNodes nodes (kepts journal.now.steps) }
    ensures { IfOk result (λ steps. steps.items ≡ movables_after [] (kepts journal.now.steps)) }
{
    let mut sent = vec![in alloc; 0; nodes]?;
    let mut movables = Vec::with_capacity(alloc, journal.len())?;
    for place in 0..journal.len() {
        let kept = journal.at(place).unwrap();
        movables.push_reserved(noted(kept, place, sent.as_mut_slice()));
    }
    Ok(movables)
}

/// Exchanges the step of `steps` at `place`, counted from 1, with the next one, if both exist and are independent. Says
/// whether they were exchanged.
fn swap(steps: &mut [Movable], place: u64) -> bool
    ensures { exchanged may_swap steps.old place ≡ (if result then Some steps.new else None) }
{
    if place == 0 || place >= steps.len() as u64 {
        return false;
    }
    let i = place as usize - 1;
    if !steps[i].may_swap(steps[i + 1]) {
        return false;
    }
    steps.swap(i, i + 1);
    true
}

/// Makes these swaps in `steps` in turn, up to the first bad one, and gives the bad one's place in `places`, counted
/// from 1; `None` if no swap is bad.
fn first_bad(steps: &mut [Movable], places: &[u64]) -> Option<usize>
    ensures none { result ≡ None → after_swaps (exchanged may_swap) 1 steps.old places.now ≡ Ok steps.new }
    ensures bad { IfSome result (λ at. after_swaps (exchanged may_swap) 1 steps.old places.now ≡ Err (BadSwap at)) }
{
    for (i, place) in places.iter().enumerate() {
        if !swap(steps, *place) {
            return Some(i + 1);
        }
    }
    None
}

/// Whether journal `one` has at `place` the same step as journal `other` at `second`, whatever their numbers; `false`
/// if either place has none.
fn is_same<'a, B: Allocator>(
    one: &Journal<'a, B>,
    place: usize,
    other: &Journal<'a, B>,
    second: usize,
) -> bool
    ensures { IsTrue result ↔ IsSameAt (kepts one.now.steps) place (kepts other.now.steps) second }
{
    match (one.at(place), other.at(second)) {
        (Some(one), Some(other)) => one.node == other.node && one.step.same(&other.step),
        _ => false,
    }
}

/// Whether `steps`, of journal `one`, are the steps of journal `other` in the same order, whatever their numbers.
fn are_steps_of<'a, B: Allocator>(
    one: &Journal<'a, B>,
    steps: &[Movable],
    other: &Journal<'a, B>,
) -> bool
    ensures { IsTrue result ↔ AreStepsOf (kepts one.now.steps) steps.now (kepts other.now.steps) }
{
    if steps.len() != other.len() {
        return false;
    }
    // form: a loop, for the proof
    for (i, step) in steps.iter().enumerate() {
        if !is_same(one, step.place, other, i) {
            return false;
        }
    }
    true
}

/// Whether the benches have the same names and limits.
fn are_of_one_kind<'a, B: Allocator>(one: &Bench<'a, B>, other: &Bench<'a, B>) -> bool
    ensures { IsTrue result ↔ AreOfOneKind one.now other.now }
{
    one.names().same(other.names()) && one.limits() == other.limits()
}

/// `Ok` if the names and limits are equal, and these swaps lead from the remaining steps of `one` to those of `other`,
/// whatever their numbers; then the clusters are equal. Otherwise the first fault, in the order of `SwapFault`. An `i`
/// in `places` stands for the exchange of the steps at places `i` and `i + 1`, counted from 1. The nodes of these two
/// must differ, and neither step may deliver what the other sent. (Causal equivalence, after Danos and Krivine.)
pub fn same_cluster<'a, B: Allocator>(
    one: &Bench<'a, B>,
    other: &Bench<'a, B>,
    places: &[u64],
) -> Result<(), SwapFault>
    ensures answers { SwapsEnd one.now other.now places.now result }
    ensures equal_clusters { IfOk result (λ _. (c : Cluster) × (cluster_of one.now ≡ Ok c) × (cluster_of other.now ≡ Ok c)) }
{
    // form: hands out what the bench keeps
    one.bench_law();
    if !are_of_one_kind(one, other) {
        return Err(SwapFault::OtherBench);
    }
    let from = one.remaining();
    let to = other.remaining();
    let mut steps = movables(from, one.names().len(), one.allocator())?;
    if let Some(at) = first_bad(steps.as_mut_slice(), places) {
        return Err(SwapFault::BadSwap { at });
    }
    if !are_steps_of(from, steps.as_slice(), to) {
        return Err(SwapFault::OtherSteps);
    }
    Ok(())
}
