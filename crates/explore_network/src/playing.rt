//! Plays runs that are given by the places of their steps among the recorded ones.
ghost use Rattle.std.specs.Prelude.{◌≡◌, ◌≤◌, [], IfNone, IfOk, IfSome, OnOk, Ok, slice_get};
ghost use Rattle.dots_core.specs.Names.{most_names};
ghost use Rattle.node_core.specs.Inverses.{plain_inverse};
ghost use Rattle.bench_core.specs.Benches.{LeadsClusterBack, LeadsNodeBack, NodeGoesBack};
ghost use Rattle.replica_core.specs.Limits.{AreNodeLimits};
ghost use Rattle.bench_core.specs.Clusters.{step, Cluster as PlainCluster};
ghost use Rattle.bench_core.specs.Runs.{runs, then_runs};
ghost use Rattle.explore_network.specs.Walks.{steps_at, with_step};

use bench_core::{Cluster, Fault, Inverse, Kept, NodeLimits};
use dots_core::Oom;
use std::alloc::Allocator;

/// Plays the steps at the places of `path` on `count` empty nodes, and gives the cluster at the end. A step that is
/// refused is passed over, and so is a place without a step.
pub(crate) fn played<'a, B: Allocator>(
    steps: &[Kept<&'a B>],
    path: &[usize],
    count: u16,
    limits: NodeLimits,
    alloc: &'a B,
) -> Result<Cluster<'a, B>, Oom>
    requires few { count ≤ most_names }
    requires limits { AreNodeLimits limits }
    ensures { IfOk result (λ cluster. (end : PlainCluster) → runs limits count (steps_at steps.now path.now) ≡ Ok end → cluster ≡ end) }
{
    let mut cluster = Cluster::new(alloc, count as usize, limits)?;
    for index in 0..path.len() {
        play(&mut cluster, steps, path[index])?;
    }
    Ok(cluster)
}

/// Takes the step at `place` of `steps`, at its node of the cluster. Nothing changes if the step is refused or there is
/// no such step.
pub(crate) fn play<'a, B: Allocator>(
    cluster: &mut Cluster<'a, B>,
    steps: &[Kept<&'a B>],
    place: usize,
) -> Result<(), Oom>
    ensures { OnOk result ((end : PlainCluster) → then_runs (Ok cluster.old) (with_step (slice_get steps.now place) []) ≡ Ok end → cluster.new ≡ end) }
{
    let Some(kept) = steps.get(place) else {
        return Ok(());
    };
    match cluster.step(kept.node, &kept.step) {
        Ok(inverse) => {
            // form: drop before exit
            drop(inverse);
            Ok(())
        }
        Err(Fault::OutOfMemory) => Err(Oom),
        Err(_) => Ok(()),
    }
}

/// Takes the step at its node of the cluster, and gives the inverse. `None` if the step is refused; then nothing
/// changed.
pub(crate) fn ask<'a, B: Allocator>(
    cluster: &mut Cluster<'a, B>,
    kept: &Kept<&'a B>,
) -> Result<Option<Inverse<&'a B>>, Oom>
    ensures taken { IfOk result (λ taken. IfSome taken (λ _. step cluster.old kept.now.node kept.now.step ≡ Ok cluster.new)) }
    ensures back { IfOk result (λ taken. IfSome taken (λ inverse. LeadsClusterBack cluster.new kept.now.node (plain_inverse inverse) cluster.old)) }
    ensures refused { IfOk result (λ taken. IfNone taken ((end : PlainCluster) → step cluster.old kept.now.node kept.now.step ≡ Ok end → ⊥)) }
    ensures unchanged { IfOk result (λ taken. IfNone taken (cluster.new ≡ cluster.old)) }
{
    match cluster.step(kept.node, &kept.step) {
        Ok(inverse) => Ok(Some(inverse)),
        Err(Fault::OutOfMemory) => Err(Oom),
        Err(_) => Ok(None),
    }
}

/// Takes the node's last step back by its inverse. If memory is refused, the cluster doesn't change, and the inverse is
/// dropped.
pub(crate) fn lead_back<'a, B: Allocator>(
    cluster: &mut Cluster<'a, B>,
    node: u16,
    inverse: Inverse<&'a B>,
) -> Result<(), Oom>
    requires { LeadsNodeBack cluster.old node (plain_inverse inverse) }
    ensures { OnOk result (NodeGoesBack cluster.old node (plain_inverse inverse.entry) cluster.new) }
{
    if let Err((inverse, _)) = cluster.give_back(node, inverse) {
        // form: drop before exit
        drop(inverse);
        return Err(Oom);
    }
    Ok(())
}
