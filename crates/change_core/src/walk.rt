//! `Walk`: a run that is played on a cluster apart from the bench's, and whose last steps can be taken back.
ghost use Rattle.std.specs.Prelude.{◌≡◌, ◌≤◌, ◌-◌, List, IfOk, OnOk, length, take};
ghost use Rattle.journal_core.specs.Journals.{Kept as PlainKept};
ghost use Rattle.bench_core.specs.Clusters.{opening_of};
ghost use Rattle.bench_core.specs.Limits.{node_limits};
ghost use Rattle.change_core.specs.Walks.{places_of, Asks, GoesTo, IsSomeWalk, IsWalk, IsWalkOf, StaysWalk};

use bench_core::{Bench, Cluster, Fault, Inverse, Kept};
use dots_core::Oom;
use std::alloc::Allocator;
use std::marker::Model;

/// A step that was taken: its place among the recorded steps, its node, and its inverse.
#[derive(Drop)]
struct Taken<A: Allocator> {
    place: usize,
    node: u16,
    inverse: Inverse<A>,
}

impl<A: Allocator> Model for Taken<A> {
    ghost use Rattle.node_core.specs.Inverses.{plain_inverse};
    ghost use Rattle.change_core.specs.Walks.{taken_code, Taken};

    ghost Value = { Taken };

    ghost coded = { taken_code };

    ghost view = { λ t. record { place = t.place; node = t.node; inverse = plain_inverse t.inverse } };
}

/// A cluster, and the steps that led to it, with their inverses.
#[derive(Drop)]
pub(crate) struct Walk<'a, B: Allocator> {
    cluster: Cluster<'a, B>,
    taken: Vec<Taken<&'a B>, &'a B>,
}

impl<'a, B: Allocator> Model for Walk<'a, B> {
    ghost use Rattle.change_core.specs.Walks.{walk_code, Walk};

    ghost Value = { Walk };

    ghost coded = { walk_code };

    ghost view = { λ w. record { cluster = w.cluster; taken = w.taken.items } };
}

/// The length of the common beginning of two lists: the places of the steps taken, and `places`.
fn common<A: Allocator>(taken: &[Taken<A>], places: &[usize]) -> usize
    ensures within { result ≤ length taken.now }
    ensures same { take result (places_of taken.now) ≡ take result places.now }
{
    let most = taken.len().min(places.len());
    for turn in 0..most {
        let step = &taken[turn];
        if step.place != places[turn] {
            return turn;
        }
    }
    most
}

impl<'a, B: Allocator> Walk<'a, B> {
    /// A walk with no step taken, on empty nodes: as many as the bench has, and with its limits.
    pub(crate) fn new(bench: &Bench<'a, B>, alloc: &'a B) -> Result<Self, Oom>
        ensures { IfOk result (λ walk. (ks : List PlainKept) → IsWalk ks (opening_of (node_limits bench.now.limits) (length bench.now.names)) walk) }
    {
        let cluster = Cluster::new(alloc, bench.names().len(), bench.limits().of_node())?;
        Ok(Walk {
            cluster,
            taken: Vec::new(alloc),
        })
    }

    /// The cluster to which the steps led.
    pub(crate) fn cluster(&self) -> &Cluster<'a, B>
        ensures { result.now ≡ self.now.cluster }
    {
        &self.cluster
    }

    /// How many steps led to the cluster; those that were taken back don't count.
    fn len(&self) -> usize
        ensures { result ≡ length self.now.taken }
    {
        self.taken.len()
    }

    /// Takes the step at `place`, and says whether the step was accepted; if not, nothing changed. True, with nothing
    /// changed, if there is no such step. If a request for memory is refused, the step may have been taken, and its
    /// inverse is dropped.
    pub(crate) fn ask_at(&mut self, steps: &[Kept<&'a B>], place: usize) -> Result<bool, Oom>
        ensures { IfOk result (Asks steps.now place self.old self.new) }
    {
        let Some(kept) = steps.get(place) else {
            return Ok(true);
        };
        let node = kept.node;
        match self.cluster.step(node, &kept.step) {
            Ok(inverse) => {
                self.taken.push(Taken {
                    place,
                    node,
                    inverse,
                })?;
                Ok(true)
            }
            Err(Fault::OutOfMemory) => Err(Oom),
            Err(_) => Ok(false),
        }
    }

    /// Takes the last step back, if there is one. If a request for memory is refused, the cluster keeps the step, but
    /// the walk has neither the step nor its inverse any more.
    fn back(&mut self) -> Result<(), Oom>
        requires { IsSomeWalk self.old }
        ensures less { OnOk result (self.new.taken ≡ take (length self.old.taken - 1) self.old.taken) }
        ensures stays { OnOk result (StaysWalk self.old self.new) }
    {
        let Some(taken) = self.taken.pop() else {
            return Ok(());
        };
        let Taken {
            place: _,
            node,
            inverse,
        } = taken;
        if let Err((inverse, _)) = self.cluster.give_back(node, inverse) {
            // form: drop before exit
            drop(inverse);
            return Err(Oom);
        }
        Ok(())
    }

    /// Takes the last steps back, so that the first `count` stay taken.
    fn back_to(&mut self, count: usize) -> Result<(), Oom>
        requires walk { IsSomeWalk self.old }
        requires count { count ≤ length self.old.taken }
        ensures left { OnOk result (self.new.taken ≡ take count self.old.taken) }
        ensures stays { OnOk result (StaysWalk self.old self.new) }
    {
        while count < self.len() {
            self.back()?;
        }
        Ok(())
    }

    /// Turns the walk into that of the steps at `places`, from empty nodes on, and says whether all were accepted; if
    /// not, the walk ends before the step that was refused. The steps that the walk and `places` have in common at the
    /// beginning stay, and the walk's other steps are taken back first. All steps of the walk must be of `steps`.
    pub(crate) fn go_to(&mut self, steps: &[Kept<&'a B>], places: &[usize]) -> Result<bool, Oom>
        requires { IsWalkOf steps.now self.old }
        ensures { IfOk result (GoesTo steps.now places.now self.old self.new) }
    {
        let common = common(self.taken.as_slice(), places);
        self.back_to(common)?;
        for turn in common..places.len() {
            if !self.ask_at(steps, places[turn])? {
                return Ok(false);
            }
        }
        Ok(true)
    }
}
