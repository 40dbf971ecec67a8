//! `Walk`: a depth-first walk over runs of the network that finds all their outcomes. It leaves out runs whose outcomes
//! other runs give (see `first` and `settled`). In its functions `counts` says how many steps of each turn came, and at
//! most `left` steps can follow.
ghost use Rattle.std.specs.Prelude.{◌≡◌, ◌<◌, ◌+◌, ◌++◌, ◌∷◌, [], IfErr, IfOk, OnOk, Ok, Some, length, true};
ghost use Rattle.bench_core.specs.Clusters.{Cluster as PlainCluster};
ghost use Rattle.bench_core.specs.Runs.{runs};
ghost use Rattle.network_core.specs.NetworkRuns.{IsNetworkRun};
ghost use Rattle.progress_core.specs.Watches.{Watched};
ghost use Rattle.explore_network.specs.Plans.{IsPlan};
ghost use Rattle.network_rules.specs.Queries.{key_of};
ghost use Rattle.explore_network.specs.Questions.{plain};
ghost use Rattle.explore_network.specs.Walks.{next_in, steps_at, told_by, AllGoThrough, GoesThroughAt, GoesThrough, HasReason, IsAt, IsBehind, IsOutcome, IsReady, IsTold, Keeps, Went};

use crate::counts::counted;
use crate::explore_fault::Stop;
use crate::first::first;
use crate::outcome::{Outcome, is_told};
use crate::plan::Plan;
use crate::playing::{ask, lead_back, played};
use crate::question::Question;
use crate::table::Table;
use bench_core::{Cluster, Kept};
use dots_core::Oom;
use network_rules::{Key, RecordedRun, State, extend, is_end, is_next, key_of, run_of};
use progress_core::{Walked, Watch};
use std::alloc::Allocator;

/// The plan and the question of a walk, and its allocator. None of them changes during the walk.
#[derive(Drop)]
pub(crate) struct Tour<'a, 't, B: Allocator> {
    pub(crate) plan: &'t Plan<'a, B>,
    pub(crate) question: &'t Question<&'a B>,
    pub(crate) alloc: &'a B,
}

/// Where the walk stands, and what it has found.
#[derive(Drop)]
pub(crate) struct Walk<'a, B: Allocator> {
    /// The cluster to which the steps of `path` led.
    pub(crate) cluster: Cluster<'a, B>,
    /// The places, among the recorded steps, of the steps that led to the cluster.
    pub(crate) path: Vec<usize, &'a B>,
    /// The keys of the states from which the walk has found all outcomes.
    pub(crate) settled: Table<'a, B>,
    pub(crate) outcomes: Vec<Outcome<'a, B>, &'a B>,
}

/// The step that the walk took last.
#[derive(Drop)]
struct LastStep<'a, 't, B: Allocator> {
    kept: &'t Kept<&'a B>,
    /// The step's place among the recorded steps.
    place: usize,
}

/// Adds the path's outcome to the walk's outcomes, unless one of these shows the same to the question.
fn tell<'a, B: Allocator>(tour: &Tour<'a, '_, B>, walk: &mut Walk<'a, B>) -> Result<(), Oom>
    requires plan { IsPlan tour.now.plan.now (plain tour.now.question.now) }
    requires keeps { Keeps tour.now.plan.now (plain tour.now.question.now) walk.old.settled walk.old.outcomes.items }
    requires ends { IsOutcome tour.now.plan.now (record { run = walk.old.path.items; cluster = walk.old.cluster }) }
    ensures cluster { OnOk result (walk.new.cluster ≡ walk.old.cluster) }
    ensures path { OnOk result (walk.new.path.items ≡ walk.old.path.items) }
    ensures went { OnOk result (Went tour.now.plan.now (plain tour.now.question.now) walk.old.outcomes.items walk.new.settled walk.new.outcomes.items) }
    ensures told { OnOk result (told_by (plain tour.now.question.now) walk.new.outcomes.items walk.old.cluster ≡ true) }
{
    if is_told(&walk.outcomes, &walk.cluster, tour.question, tour.alloc)? {
        return Ok(());
    }
    let outcome = outcome_of(tour, &walk.path)?;
    walk.outcomes.push(outcome)?;
    Ok(())
}

/// Plays the steps at the places of `path` on empty nodes, and gives the outcome: the path, and the cluster at its end.
pub(crate) fn outcome_of<'a, B: Allocator>(
    tour: &Tour<'a, '_, B>,
    path: &[usize],
) -> Result<Outcome<'a, B>, Oom>
    requires plan { IsPlan tour.now.plan.now (plain tour.now.question.now) }
    ensures run { IfOk result (λ outcome. outcome.run ≡ path.now) }
    ensures leads { IfOk result (λ outcome. (end : PlainCluster)
        → runs tour.now.plan.now.limits tour.now.plan.now.count (steps_at tour.now.plan.now.steps path.now) ≡ Ok end → outcome.cluster ≡ end) }
{
    let plan = tour.plan;
    let run = run_of(path, tour.alloc)?;
    let cluster = played(plan.steps(), path, plan.count(), plan.limits(), tour.alloc)?;
    Ok(Outcome::new(run, cluster))
}

/// Like `tell`, but adds nothing if a run may not end with these counts.
fn tell_end<'a, B: Allocator>(
    tour: &Tour<'a, '_, B>,
    walk: &mut Walk<'a, B>,
    counts: &[usize],
) -> Result<(), Oom>
    requires plan { IsPlan tour.now.plan.now (plain tour.now.question.now) }
    requires keeps { Keeps tour.now.plan.now (plain tour.now.question.now) walk.old.settled walk.old.outcomes.items }
    requires at { IsAt tour.now.plan.now (steps_at tour.now.plan.now.steps walk.old.path.items) counts.now walk.old.cluster }
    ensures cluster { OnOk result (walk.new.cluster ≡ walk.old.cluster) }
    ensures path { OnOk result (walk.new.path.items ≡ walk.old.path.items) }
    ensures went { OnOk result (Went tour.now.plan.now (plain tour.now.question.now) walk.old.outcomes.items walk.new.settled walk.new.outcomes.items) }
    ensures told { OnOk result (IsNetworkRun tour.now.plan.now.steps tour.now.plan.now.lost tour.now.plan.now.again
        (steps_at tour.now.plan.now.steps walk.old.path.items) →
        told_by (plain tour.now.question.now) walk.new.outcomes.items walk.old.cluster ≡ true) }
{
    let plan = tour.plan;
    if !is_end(plan.turns(), counts, plan.lost(), plan.again()) {
        return Ok(());
    }
    tell(tour, walk)
}

/// The key of a state of the walk.
fn key_at<'a, B: Allocator>(
    tour: &Tour<'a, '_, B>,
    state: &State<'a, '_, B>,
) -> Result<Key<&'a B>, Oom>
    ensures { IfOk result (λ key. key.items ≡ key_of tour.now.plan.now.tables tour.now.plan.now.count tour.now.plan.now.steps tour.now.plan.now.ranks
        state.now.counts.now state.now.cluster.now) }
{
    let plan = tour.plan;
    let run = RecordedRun {
        steps: plan.steps(),
        turns: plan.turns(),
        ranks: plan.ranks(),
        count: plan.count(),
    };
    key_of(plan.cone(), &run, state, tour.alloc)
}

/// Goes on after the step `taken`: puts its place on the path, visits the state after the step unless `left` is 0, and
/// takes the place off the path again. `counts` and `left` are those before the step.
#[cycle(visit)]
fn onward<'a, B: Allocator, W: Watch<Walked>>(
    tour: &Tour<'a, '_, B>,
    walk: &mut Walk<'a, B>,
    counts: &[usize],
    taken: &LastStep<'a, '_, B>,
    left: u128,
    watch: &mut W,
) -> Result<(), Stop>
    requires plan { IsPlan tour.now.plan.now (plain tour.now.question.now) }
    requires keeps { Keeps tour.now.plan.now (plain tour.now.question.now) walk.old.settled walk.old.outcomes.items }
    requires behind { IsBehind tour.now.plan.now walk.old.path.items taken.now.place taken.now.kept.now counts.now walk.old.cluster }
    requires left { length (steps_at tour.now.plan.now.steps walk.old.path.items) + left ≡ length tour.now.plan.now.steps + tour.now.plan.now.again }
    ensures cluster { OnOk result (walk.new.cluster ≡ walk.old.cluster) }
    ensures path { OnOk result (walk.new.path.items ≡ walk.old.path.items) }
    ensures went { OnOk result (Went tour.now.plan.now (plain tour.now.question.now) walk.old.outcomes.items walk.new.settled walk.new.outcomes.items) }
    ensures told { OnOk result (IsTold tour.now.plan.now (plain tour.now.question.now) walk.new.outcomes.items
        (steps_at tour.now.plan.now.steps walk.old.path.items ++ taken.now.kept.now ∷ [])) }
    ensures stops { IfErr result (HasReason tour.now.plan.now (plain tour.now.question.now)) }
    ensures watched { Watched W.told watch.old watch.new }
{
    extend(&mut walk.path, taken.place)?;
    if left > 0 {
        let counts = counted(taken.kept, tour.plan.turns(), counts, tour.alloc)?;
        visit(tour, walk, &counts, left - 1, watch)?;
    }
    let _ = walk.path.pop();
    Ok(())
}

/// Takes the step at `place`, goes on after it (see `onward`), and takes the step back. Says whether the step was there
/// and was accepted; if not, nothing changed.
#[cycle(visit)]
fn through<'a, B: Allocator, W: Watch<Walked>>(
    tour: &Tour<'a, '_, B>,
    walk: &mut Walk<'a, B>,
    counts: &[usize],
    place: usize,
    left: u128,
    watch: &mut W,
) -> Result<bool, Stop>
    requires ready { IsReady tour.now.plan.now (plain tour.now.question.now) walk.old.path.items walk.old.cluster walk.old.settled
        walk.old.outcomes.items counts.now left }
    requires next { next_in tour.now.plan.now counts.now place ≡ true }
    ensures cluster { OnOk result (walk.new.cluster ≡ walk.old.cluster) }
    ensures path { OnOk result (walk.new.path.items ≡ walk.old.path.items) }
    ensures went { OnOk result (Went tour.now.plan.now (plain tour.now.question.now) walk.old.outcomes.items walk.new.settled walk.new.outcomes.items) }
    ensures goes { IfOk result (λ taken. GoesThrough tour.now.plan.now (plain tour.now.question.now)
        (steps_at tour.now.plan.now.steps walk.old.path.items) walk.old.cluster place taken walk.new.outcomes.items) }
    ensures stops { IfErr result (HasReason tour.now.plan.now (plain tour.now.question.now)) }
    ensures watched { Watched W.told watch.old watch.new }
{
    let Some(kept) = tour.plan.steps().get(place) else {
        return Ok(false);
    };
    let Some(inverse) = ask(&mut walk.cluster, kept)? else {
        return Ok(false);
    };
    let taken = LastStep { kept, place };
    match onward(tour, walk, counts, &taken, left, watch) {
        Ok(()) => {
            lead_back(&mut walk.cluster, kept.node, inverse)?;
            Ok(true)
        }
        Err(stop) => {
            // form: drop before exit
            drop(inverse);
            Err(stop)
        }
    }
}

/// Goes on with the step at `place` (see `through`) if it may come next.
#[cycle(visit)]
fn go_at<'a, B: Allocator, W: Watch<Walked>>(
    tour: &Tour<'a, '_, B>,
    walk: &mut Walk<'a, B>,
    counts: &[usize],
    place: usize,
    left: u128,
    watch: &mut W,
) -> Result<(), Stop>
    requires { IsReady tour.now.plan.now (plain tour.now.question.now) walk.old.path.items walk.old.cluster walk.old.settled walk.old.outcomes.items
        counts.now left }
    ensures cluster { OnOk result (walk.new.cluster ≡ walk.old.cluster) }
    ensures path { OnOk result (walk.new.path.items ≡ walk.old.path.items) }
    ensures went { OnOk result (Went tour.now.plan.now (plain tour.now.question.now) walk.old.outcomes.items walk.new.settled walk.new.outcomes.items) }
    ensures goes { OnOk result (GoesThroughAt tour.now.plan.now (plain tour.now.question.now) walk.old.path.items walk.old.cluster counts.now
        walk.new.outcomes.items place) }
    ensures stops { IfErr result (HasReason tour.now.plan.now (plain tour.now.question.now)) }
    ensures watched { Watched W.told watch.old watch.new }
{
    let plan = tour.plan;
    if is_next(plan.turns(), plan.ranks(), counts, plan.again(), place) {
        through(tour, walk, counts, place, left, watch)?;
    }
    Ok(())
}

/// Goes on with each step that may come next, in the order of the steps' places.
#[cycle(visit)]
fn go_on<'a, B: Allocator, W: Watch<Walked>>(
    tour: &Tour<'a, '_, B>,
    walk: &mut Walk<'a, B>,
    counts: &[usize],
    left: u128,
    watch: &mut W,
) -> Result<(), Stop>
    requires { IsReady tour.now.plan.now (plain tour.now.question.now) walk.old.path.items walk.old.cluster walk.old.settled walk.old.outcomes.items
        counts.now left }
    ensures cluster { OnOk result (walk.new.cluster ≡ walk.old.cluster) }
    ensures path { OnOk result (walk.new.path.items ≡ walk.old.path.items) }
    ensures went { OnOk result (Went tour.now.plan.now (plain tour.now.question.now) walk.old.outcomes.items walk.new.settled walk.new.outcomes.items) }
    ensures goes { OnOk result (AllGoThrough tour.now.plan.now (plain tour.now.question.now) walk.old.path.items walk.old.cluster counts.now
        walk.new.outcomes.items) }
    ensures stops { IfErr result (HasReason tour.now.plan.now (plain tour.now.question.now)) }
    ensures watched { Watched W.told watch.old watch.new }
{
    for place in 0..tour.plan.steps().len() {
        go_at(tour, walk, counts, place, left, watch)?;
    }
    Ok(())
}

/// Goes on with the step that `first` gives, if there is one. Says whether the step was there and was accepted.
#[cycle(visit)]
fn go_first<'a, B: Allocator, W: Watch<Walked>>(
    tour: &Tour<'a, '_, B>,
    walk: &mut Walk<'a, B>,
    counts: &[usize],
    left: u128,
    watch: &mut W,
) -> Result<bool, Stop>
    requires { IsReady tour.now.plan.now (plain tour.now.question.now) walk.old.path.items walk.old.cluster walk.old.settled walk.old.outcomes.items
        counts.now left }
    ensures cluster { OnOk result (walk.new.cluster ≡ walk.old.cluster) }
    ensures path { OnOk result (walk.new.path.items ≡ walk.old.path.items) }
    ensures went { OnOk result (Went tour.now.plan.now (plain tour.now.question.now) walk.old.outcomes.items walk.new.settled walk.new.outcomes.items) }
    ensures told { IfOk result (λ taken. taken ≡ true → IsTold tour.now.plan.now (plain tour.now.question.now) walk.new.outcomes.items
        (steps_at tour.now.plan.now.steps walk.old.path.items)) }
    ensures stops { IfErr result (HasReason tour.now.plan.now (plain tour.now.question.now)) }
    ensures watched { Watched W.told watch.old watch.new }
{
    let state = State {
        cluster: &walk.cluster,
        counts,
    };
    match first(tour.plan, &state) {
        Some(place) => through(tour, walk, counts, place, left, watch),
        None => Ok(false),
    }
}

/// Adds the outcome of the path itself, if a run may end here, and the outcomes of all runs that go on from where the
/// walk stands.
#[cycle(visit)]
fn tell_all<'a, B: Allocator, W: Watch<Walked>>(
    tour: &Tour<'a, '_, B>,
    walk: &mut Walk<'a, B>,
    counts: &[usize],
    left: u128,
    watch: &mut W,
) -> Result<(), Stop>
    requires { IsReady tour.now.plan.now (plain tour.now.question.now) walk.old.path.items walk.old.cluster walk.old.settled walk.old.outcomes.items
        counts.now left }
    ensures cluster { OnOk result (walk.new.cluster ≡ walk.old.cluster) }
    ensures path { OnOk result (walk.new.path.items ≡ walk.old.path.items) }
    ensures went { OnOk result (Went tour.now.plan.now (plain tour.now.question.now) walk.old.outcomes.items walk.new.settled walk.new.outcomes.items) }
    ensures told { OnOk result (IsTold tour.now.plan.now (plain tour.now.question.now) walk.new.outcomes.items
        (steps_at tour.now.plan.now.steps walk.old.path.items)) }
    ensures stops { IfErr result (HasReason tour.now.plan.now (plain tour.now.question.now)) }
    ensures watched { Watched W.told watch.old watch.new }
{
    tell_end(tour, walk, counts)?;
    go_on(tour, walk, counts, left, watch)
}

/// Does what `tell_all` does, and then puts the key of this state into the table; does nothing if the key is there
/// already. `TooManyStates` if the table then has more keys than the plan allows.
#[cycle(visit)]
fn tell_once<'a, B: Allocator, W: Watch<Walked>>(
    tour: &Tour<'a, '_, B>,
    walk: &mut Walk<'a, B>,
    counts: &[usize],
    left: u128,
    watch: &mut W,
) -> Result<(), Stop>
    requires { IsReady tour.now.plan.now (plain tour.now.question.now) walk.old.path.items walk.old.cluster walk.old.settled walk.old.outcomes.items
        counts.now left }
    ensures cluster { OnOk result (walk.new.cluster ≡ walk.old.cluster) }
    ensures path { OnOk result (walk.new.path.items ≡ walk.old.path.items) }
    ensures went { OnOk result (Went tour.now.plan.now (plain tour.now.question.now) walk.old.outcomes.items walk.new.settled walk.new.outcomes.items) }
    ensures told { OnOk result (IsTold tour.now.plan.now (plain tour.now.question.now) walk.new.outcomes.items
        (steps_at tour.now.plan.now.steps walk.old.path.items)) }
    ensures stops { IfErr result (HasReason tour.now.plan.now (plain tour.now.question.now)) }
    ensures watched { Watched W.told watch.old watch.new }
{
    let state = State {
        cluster: &walk.cluster,
        counts,
    };
    let key = key_at(tour, &state)?;
    if walk.settled.has(&key) {
        return Ok(());
    }
    tell_all(tour, walk, counts, left, watch)?;
    walk.settled.put(key)?;
    if walk.settled.len() > tour.plan.most() {
        return Err(Stop::TooManyStates {
            outcomes: walk.outcomes.len(),
        });
    }
    Ok(())
}

/// Adds the outcomes of all runs that begin with the walk's path, and leaves the cluster and the path unchanged; after
/// a `Stop` cluster and path are those at which the walk ended. Tells `watch` how far the walk has come.
#[cycle(visit)]
pub(crate) fn visit<'a, B: Allocator, W: Watch<Walked>>(
    tour: &Tour<'a, '_, B>,
    walk: &mut Walk<'a, B>,
    counts: &[usize],
    left: u128,
    watch: &mut W,
) -> Result<(), Stop>
    requires { IsReady tour.now.plan.now (plain tour.now.question.now) walk.old.path.items walk.old.cluster walk.old.settled walk.old.outcomes.items
        counts.now left }
    ensures cluster { OnOk result (walk.new.cluster ≡ walk.old.cluster) }
    ensures path { OnOk result (walk.new.path.items ≡ walk.old.path.items) }
    ensures went { OnOk result (Went tour.now.plan.now (plain tour.now.question.now) walk.old.outcomes.items walk.new.settled walk.new.outcomes.items) }
    ensures told { OnOk result (IsTold tour.now.plan.now (plain tour.now.question.now) walk.new.outcomes.items
        (steps_at tour.now.plan.now.steps walk.old.path.items)) }
    ensures stops { IfErr result (HasReason tour.now.plan.now (plain tour.now.question.now)) }
    ensures watched { Watched W.told watch.old watch.new }
{
    watch.tell(Walked {
        states: walk.settled.len(),
        outcomes: walk.outcomes.len(),
        left,
    });
    if go_first(tour, walk, counts, left, watch)? {
        return Ok(());
    }
    tell_once(tour, walk, counts, left, watch)
}
