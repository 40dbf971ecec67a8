//! `Plan`: what all runs of the network have in common.
ghost use Rattle.std.specs.Prelude.{◌≡◌};

use crate::bounds::Bounds;
use bench_core::{Kept, NodeLimits};
use network_rules::{Cone, Rank, Turn};
use std::alloc::Allocator;
use std::marker::Model;

pub(crate) type Steps<A> = Vec<Kept<A>, A>;

/// What all runs of the network have in common, with what `parts_of` worked out from it: turns, ranks and cone.
#[derive(Drop)]
pub(crate) struct Plan<'a, B: Allocator> {
    pub(crate) limits: NodeLimits,
    pub(crate) count: u16,
    /// The recorded steps.
    pub(crate) steps: Steps<&'a B>,
    pub(crate) bounds: Bounds,
    pub(crate) turns: Vec<Turn, &'a B>,
    pub(crate) ranks: Vec<Rank, &'a B>,
    pub(crate) cone: Cone<'a, B>,
}

impl<'a, B: Allocator> Model for Plan<'a, B> {
    ghost use Rattle.explore_network.specs.Plans.{plan_code, Plan};

    ghost Value = { Plan };

    ghost coded = { plan_code };

    ghost view = { λ p. record {
      limits = p.limits;
      count = p.count;
      steps = p.steps.items;
      lost = p.bounds.lost;
      again = p.bounds.again;
      most = p.bounds.states;
      turns = p.turns.items;
      ranks = p.ranks.items;
      tables = p.cone;
    } };
}

impl<'a, B: Allocator> Plan<'a, B> {
    pub(crate) fn limits(&self) -> NodeLimits
        ensures { result ≡ self.now.limits }
    {
        self.limits
    }

    /// How many nodes there are.
    pub(crate) fn count(&self) -> u16
        ensures { result ≡ self.now.count }
    {
        self.count
    }

    pub(crate) fn steps(&self) -> &[Kept<&'a B>]
        ensures { result.now ≡ self.now.steps }
    {
        self.steps.as_slice()
    }

    /// How many deliveries may be missing from a run.
    pub(crate) fn lost(&self) -> usize
        ensures { result ≡ self.now.lost }
    {
        self.bounds.lost
    }

    /// How many deliveries may come a second time in a run.
    pub(crate) fn again(&self) -> usize
        ensures { result ≡ self.now.again }
    {
        self.bounds.again
    }

    /// How many states the walk may keep.
    pub(crate) fn most(&self) -> usize
        ensures { result ≡ self.now.most }
    {
        self.bounds.states
    }

    pub(crate) fn turns(&self) -> &[Turn]
        ensures { result.now ≡ self.now.turns }
    {
        self.turns.as_slice()
    }

    pub(crate) fn ranks(&self) -> &[Rank]
        ensures { result.now ≡ self.now.ranks }
    {
        self.ranks.as_slice()
    }

    pub(crate) fn cone(&self) -> &Cone<'a, B>
        ensures { result.now ≡ self.now.tables }
    {
        &self.cone
    }
}
