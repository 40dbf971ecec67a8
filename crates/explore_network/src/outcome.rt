//! `Outcome`: a run of the network with the cluster to which it leads.
ghost use Rattle.std.specs.Prelude.{◌≡◌, ◌≤◌, IfOk, length};
ghost use Rattle.std.specs.List.{AllByRecursion};
ghost use Rattle.dots_core.specs.Names.{most_names};
ghost use Rattle.explore_network.specs.Questions.{plain};
ghost use Rattle.explore_network.specs.Walks.{told_by, Outcome as PlainOutcome};

use crate::question::Question;
use crate::shown::show_same;
use bench_core::Cluster;
use dots_core::Oom;
use std::alloc::Allocator;
use std::marker::Model;

/// A run of the network, and the cluster to which it leads.
#[derive(Drop)]
pub struct Outcome<'a, B: Allocator> {
    run: Vec<usize, &'a B>,
    cluster: Cluster<'a, B>,
}

impl<'a, B: Allocator> Model for Outcome<'a, B> {
    ghost use Rattle.explore_network.specs.Walks.{outcome_code, Outcome};

    ghost Value = { Outcome };

    ghost coded = { outcome_code };

    ghost view = { λ o. record { run = o.run.items; cluster = o.cluster } };
}

impl<'a, B: Allocator> Outcome<'a, B> {
    pub(crate) fn new(run: Vec<usize, &'a B>, cluster: Cluster<'a, B>) -> Self
        ensures { result ≡ record { run = run.entry.items; cluster = cluster.entry } }
    {
        Outcome { run, cluster }
    }

    /// The places of the run's steps among the recorded ones, in the order of the run.
    pub fn run(&self) -> &[usize]
        ensures { result.now ≡ self.now.run }
    {
        self.run.as_slice()
    }

    /// The cluster to which the run leads.
    pub fn cluster(&self) -> &Cluster<'a, B>
        ensures { result.now ≡ self.now.cluster }
    {
        &self.cluster
    }
}

/// Whether one of the outcomes shows the same to the question as the cluster does.
pub(crate) fn is_told<'a, B: Allocator>(
    outcomes: &[Outcome<'a, B>],
    cluster: &Cluster<'a, B>,
    question: &Question<&'a B>,
    alloc: &'a B,
) -> Result<bool, Oom>
    requires few { length cluster.now ≤ most_names }
    requires all_few { AllByRecursion (λ (o : PlainOutcome). length o.cluster ≤ most_names) outcomes.now }
    ensures { IfOk result (λ told. told ≡ told_by (plain question.now) outcomes.now cluster.now) }
{
    for outcome in outcomes {
        if show_same(outcome.cluster(), cluster, question, alloc)? {
            return Ok(true);
        }
    }
    Ok(false)
}
