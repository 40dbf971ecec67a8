//! `explore`: all that the network could have made of the steps of a bench.
ghost use Rattle.std.specs.Prelude.{◌≡◌, ◌<◌, ◌≤◌, ◌+◌, [], ℕ, IfOk, IfErr, IsOk, Ok, Err, length, replicate};
ghost use Rattle.replica_core.specs.Limits.{AreNodeLimits};
ghost use Rattle.bench_core.specs.Clusters.{opening_of, Cluster as PlainCluster};
ghost use Rattle.bench_core.specs.Limits.{node_limits};
ghost use Rattle.bench_core.specs.Runs.{runs};
ghost use Rattle.dots_core.specs.Names.{most_names};
ghost use Rattle.network_core.specs.Room.{made};
ghost use Rattle.progress_core.specs.Watches.{Watched};
ghost use Rattle.explore_network.specs.Explorations.{AreDistinct, AreTooMany, BeginsAsRecorded, InventsNothing, MissesNothing};
ghost use Rattle.explore_network.specs.Plans.{IsPlan};
ghost use Rattle.explore_network.specs.Asked.{AreAsked};
ghost use Rattle.explore_network.specs.Questions.{node_of, plain, IsThere};
ghost use Rattle.explore_network.specs.Turns.{ranks_of, turns_of};
ghost use Rattle.network_rules.specs.Tables.{AreAllAsked, IsClosed};
ghost use Rattle.explore_network.specs.Walks.{HasReason};
ghost use Rattle.explore_network.specs.Outcomes.{AllIsTold, BeginsWith, IsRecorded, Runs};

use crate::asked::dots_of;
use crate::bounds::Bounds;
use crate::explore_fault::{ExploreFault, Stop, fault_of};
use crate::outcome::Outcome;
use crate::plan::{Plan, Steps};
use crate::question::Question;
use crate::rounds::cone_for;
use crate::steps::{made, places};
use crate::table::Table;
use crate::turns::{ranks_of, turns_of};
use crate::walk::{Tour, Walk, outcome_of, visit};
use bench_core::{Bench, Cluster, Kept, NodeLimits};
use change_core::copied;
use dots_core::Oom;
use network_rules::{Cone, Rank, RecordedRun, Turn};
use progress_core::{Walked, Watch};
use std::alloc::Allocator;

/// The most steps that a run may have. The walk goes one call of `visit` deeper at each step.
const MOST_STEPS: u128 = 3000;

/// The outcomes that a walk found, and how many states it kept.
#[derive(Drop)]
pub struct Explored<'a, B: Allocator> {
    pub outcomes: Vec<Outcome<'a, B>, &'a B>,
    pub states: usize,
}

impl<'a, B: Allocator> Explored<'a, B> {
    /// Drops the outcomes. A crate that calls this needs no proof of how the parts of an outcome are dropped.
    pub fn discard(self) {
        drop(self);
    }
}

/// What `parts_of` works out for a plan: the turns and ranks of its steps, and which names matter where.
#[derive(Drop)]
struct Parts<'a, B: Allocator> {
    turns: Vec<Turn, &'a B>,
    ranks: Vec<Rank, &'a B>,
    cone: Cone<'a, B>,
}

/// Works out the turns of these steps, the rank of each in its turn, and the cone, for this question. `count` is the
/// number of nodes.
fn parts_of<'a, B: Allocator>(
    steps: &[Kept<&'a B>],
    count: u16,
    limits: NodeLimits,
    question: &Question<&'a B>,
    alloc: &'a B,
) -> Result<Parts<'a, B>, Oom>
    requires few { count ≤ most_names }
    requires limits { AreNodeLimits limits }
    ensures turns { IfOk result (λ parts. parts.turns.items ≡ turns_of steps.now count) }
    ensures ranks { IfOk result (λ parts. parts.ranks.items ≡ ranks_of parts.turns.items steps.now) }
    ensures closed { IfOk result (λ parts. IsClosed steps.now parts.ranks.items parts.cone) }
    ensures asked { IfOk result (λ parts. AreAllAsked parts.turns.items count (node_of (plain question.now)) parts.cone) }
    ensures dots { IfOk result (λ parts. AreAsked limits count steps.now (plain question.now) parts.cone.dots) }
{
    let turns = turns_of(steps, count, alloc)?;
    let ranks = ranks_of(steps, turns.as_slice(), alloc)?;
    let dots = dots_of(steps, count, limits, question, alloc)?;
    let run = RecordedRun {
        steps,
        turns: turns.as_slice(),
        ranks: ranks.as_slice(),
        count,
    };
    let cone = cone_for(&run, dots, question.node(), alloc)?;
    Ok(Parts { turns, ranks, cone })
}

/// The plan for these steps. They must make no more entries than a node may hold, and the node that the question is
/// about, if it names one, must be one of the `count` nodes.
fn plan_of<'a, B: Allocator>(
    steps: Steps<&'a B>,
    count: u16,
    limits: NodeLimits,
    question: &Question<&'a B>,
    bounds: Bounds,
    alloc: &'a B,
) -> Result<Plan<'a, B>, Oom>
    requires few { count ≤ most_names }
    requires limits { AreNodeLimits limits }
    requires room { made steps.items ≤ limits.entries }
    requires there { IsThere count (plain question.now) }
    ensures limits { IfOk result (λ plan. plan.limits ≡ limits) }
    ensures count { IfOk result (λ plan. plan.count ≡ count) }
    ensures steps { IfOk result (λ plan. plan.steps ≡ steps.entry.items) }
    ensures lost { IfOk result (λ plan. plan.lost ≡ bounds.lost) }
    ensures again { IfOk result (λ plan. plan.again ≡ bounds.again) }
    ensures most { IfOk result (λ plan. plan.most ≡ bounds.states) }
    ensures plan { IfOk result (λ plan. (end : PlainCluster) → runs limits count steps.entry.items ≡ Ok end → IsPlan plan (plain question.now)) }
{
    match parts_of(&steps, count, limits, question, alloc) {
        Ok(parts) => {
            let Parts { turns, ranks, cone } = parts;
            Ok(Plan {
                limits,
                count,
                steps,
                bounds,
                turns,
                ranks,
                cone,
            })
        }
        Err(oom) => {
            // form: drop before exit
            drop(steps);
            Err(oom)
        }
    }
}

/// A list of `count` zeros.
fn zeros<'a, B: Allocator>(count: usize, alloc: &'a B) -> Result<Vec<usize, &'a B>, Oom>
    ensures { IfOk result (λ zeros. zeros.items ≡ replicate count 0) }
{
    vec![in alloc; 0usize; count]
}

/// Plays the recorded run, and gives its outcome.
fn recorded_outcome<'a, B: Allocator>(
    tour: &Tour<'a, '_, B>,
    alloc: &'a B,
) -> Result<Outcome<'a, B>, Oom>
    requires plan { IsPlan tour.now.plan.now (plain tour.now.question.now) }
    ensures { IfOk result (IsRecorded tour.now.plan.now) }
{
    let places = places(tour.plan.steps().len(), alloc)?;
    let outcome = outcome_of(tour, &places)?;
    Ok(outcome)
}

/// The outcomes that a walk begins with: that of the recorded run alone.
fn first_outcomes<'a, B: Allocator>(
    tour: &Tour<'a, '_, B>,
    alloc: &'a B,
) -> Result<Vec<Outcome<'a, B>, &'a B>, Oom>
    requires plan { IsPlan tour.now.plan.now (plain tour.now.question.now) }
    ensures { IfOk result (λ outcomes. BeginsWith tour.now.plan.now outcomes.items) }
{
    let outcome = recorded_outcome(tour, alloc)?;
    let mut outcomes = Vec::new(alloc);
    outcomes.push(outcome)?;
    Ok(outcomes)
}

/// Where the walk begins: with empty nodes, no steps, and the outcome of the recorded run.
fn begun<'a, B: Allocator>(tour: &Tour<'a, '_, B>, alloc: &'a B) -> Result<Walk<'a, B>, Oom>
    requires plan { IsPlan tour.now.plan.now (plain tour.now.question.now) }
    ensures cluster { IfOk result (λ walk. walk.cluster ≡ opening_of tour.now.plan.now.limits tour.now.plan.now.count) }
    ensures path { IfOk result (λ walk. walk.path.items ≡ []) }
    ensures settled { IfOk result (λ walk. walk.settled ≡ []) }
    ensures outcomes { IfOk result (λ walk. BeginsWith tour.now.plan.now walk.outcomes.items) }
{
    let cluster = Cluster::new(alloc, tour.plan.count() as usize, tour.plan.limits())?;
    match first_outcomes(tour, alloc) {
        Ok(outcomes) => Ok(Walk {
            cluster,
            path: Vec::new(alloc),
            settled: Table::new(alloc),
            outcomes,
        }),
        Err(oom) => {
            // form: drop before exit
            drop(cluster);
            Err(oom)
        }
    }
}

/// Takes the outcomes out of a walk, and counts the states that it kept.
fn explored_of<'a, B: Allocator>(walk: Walk<'a, B>) -> Explored<'a, B>
    ensures outcomes { result.outcomes.items ≡ walk.entry.outcomes.items }
    ensures states { result.states ≡ length walk.entry.settled }
{
    let states = walk.settled.len();
    let Walk {
        cluster,
        path,
        settled,
        outcomes,
    } = walk;
    // form: drop before exit
    drop(cluster);
    drop(path);
    drop(settled);
    Explored { outcomes, states }
}

/// Finds all outcomes of a plan whose recorded run is accepted, and tells `watch` how far the walk has come.
fn explore_plan<'a, B: Allocator, W: Watch<Walked>>(
    plan: &Plan<'a, B>,
    question: &Question<&'a B>,
    alloc: &'a B,
    watch: &mut W,
) -> Result<Explored<'a, B>, Stop>
    requires plan { IsPlan plan.now (plain question.now) }
    requires ran { Runs plan.now }
    ensures told { IfOk result (λ e. AllIsTold plan.now (plain question.now) e.outcomes.items) }
    ensures most { IfOk result (λ e. e.states ≤ plan.now.most) }
    ensures stops { IfErr result (HasReason plan.now (plain question.now)) }
    ensures watched { Watched W.told watch.old watch.new }
{
    let counts = zeros(plan.turns().len(), alloc)?;
    let tour = Tour {
        plan,
        question,
        alloc,
    };
    let mut walk = begun(&tour, alloc)?;
    let left = plan.steps().len() as u128 + plan.again() as u128;
    let visited = visit(&tour, &mut walk, &counts, left, watch);
    // form: drop before exit
    drop(counts);
    match visited {
        Ok(()) => Ok(explored_of(walk)),
        Err(stop) => {
            drop(walk);
            Err(stop)
        }
    }
}

/// Finds all outcomes of what the network could have made of the steps that remain, within these bounds; the outcome of
/// the recorded run comes first. The question's node must be there (see `is_there`). The walk tells `watch` how far it
/// has come; it ends with `TooManyStates` if it needs more states than it may keep. Before the walk begins, `explore`
/// looks for `MayFill` first and then for `TooManySteps`.
pub fn explore<'a, B: Allocator, W: Watch<Walked>>(
    bench: &Bench<'a, B>,
    question: &Question<&'a B>,
    bounds: Bounds,
    alloc: &'a B,
    watch: &mut W,
) -> Result<Explored<'a, B>, ExploreFault>
    requires { IsThere (length bench.now.names) (plain question.now) }
    ensures misses_nothing { IfOk result (λ e. MissesNothing bench.now (plain question.now) bounds.lost bounds.again e.outcomes.items) }
    ensures invents_nothing { IfOk result (λ e. InventsNothing bench.now bounds.lost bounds.again e.outcomes.items) }
    ensures distinct { IfOk result (λ e. AreDistinct (plain question.now) e.outcomes.items) }
    ensures first { IfOk result (λ e. BeginsAsRecorded bench.now e.outcomes.items) }
    ensures most { IfOk result (λ e. e.states ≤ bounds.states) }
    ensures too_many { (found : ℕ) → result ≡ Err (ExploreFault.TooManyStates found)
        → AreTooMany bench.now (plain question.now) bounds.lost bounds.again bounds.states found }
    ensures may_fill { result ≡ Err ExploreFault.MayFill → (node_limits bench.now.limits).entries < made bench.now.state.remaining }
    ensures fills_not { IsOk result → made bench.now.state.remaining ≤ (node_limits bench.now.limits).entries }
    ensures too_many_steps { result ≡ Err ExploreFault.TooManySteps → 3000 < length bench.now.state.remaining + bounds.again }
    ensures few_steps { IsOk result → length bench.now.state.remaining + bounds.again ≤ 3000 }
    ensures watched { Watched W.told watch.old watch.new }
{
    // form: hands out what the value keeps
    bench.bench_law();
    let limits = bench.limits().of_node();
    let steps = copied(bench.remaining(), alloc)?;
    if made(&steps) as u64 > limits.entries {
        // form: drop before exit
        drop(steps);
        return Err(ExploreFault::MayFill);
    }
    if steps.len() as u128 + bounds.again as u128 > MOST_STEPS {
        drop(steps);
        return Err(ExploreFault::TooManySteps);
    }
    let count = bench.names().len() as u16;
    let plan = plan_of(steps, count, limits, question, bounds, alloc)?;
    let explored = explore_plan(&plan, question, alloc, watch);
    drop(plan);
    match explored {
        Ok(explored) => Ok(explored),
        Err(stop) => Err(fault_of(stop)),
    }
}
