//! Presences with the tracks of their dots. One walk over the remaining steps follows all the dots.
ghost use Rattle.std.specs.Prelude.{◌≡◌, ◌++◌, ◌∷◌, [], IfOk, List, OnOk, length, map};
ghost use Rattle.explain_core.specs.declared.making.Making.{Making as Made};
ghost use Rattle.explain_core.specs.Tracks.{opened as emptied};
ghost use Rattle.explain_core.specs.Tracings.{AreLeft, IsLeft, traced_from, traced_of, traced_on, untraced};

use crate::making::Making;
use crate::track::{Track, reaches};
use crate::tracking::{ask, opened};
use bench_core::{Bench, Kept};
use dots_core::Oom;
use std::alloc::Allocator;
use std::marker::Model;

/// A presence that a step made, and the track of the presence's dot over the steps that were asked so far.
#[derive(Drop)]
pub struct Traced<A: Allocator> {
    pub making: Making,
    pub track: Track<A>,
}

impl<A: Allocator> Model for Traced<A> {
    ghost use Rattle.explain_core.specs.Tracings.{Traced};

    ghost Value = { Traced };

    ghost view = { λ t. record { making = t.making; track = t.track } };
}

impl<'a, B: Allocator> Traced<&'a B> {
    /// Follows the dot over the step `kept`, if the step may have done something to the dot. `asked` is the bench after
    /// the step.
    fn follow(&mut self, asked: &Bench<'a, B>, kept: &Kept<&'a B>) -> Result<(), Oom>
        requires { IsLeft asked.now kept.now self.old }
        ensures { OnOk result (self.new ≡ traced_on asked.now kept.now self.old) }
    {
        if !reaches(asked, kept, self.making.dot) {
            return Ok(());
        }
        self.track.follow(self.making.dot, asked, kept)
    }
}

/// Appends the presence of `making` with an empty track, in which the presence's dot is unseen at all `nodes` nodes.
fn put_untraced<'a, B: Allocator>(
    traced: &mut Vec<Traced<&'a B>, &'a B>,
    making: Making,
    nodes: usize,
    alloc: &'a B,
) -> Result<(), Oom>
    ensures { OnOk result (traced.new.items ≡ traced.old.items ++ untraced nodes making ∷ []) }
{
    let track = Track::new(alloc, nodes)?;
    Ok(traced.push(Traced { making, track })?)
}

/// The presences of `makings` in their order, each with an empty track for `nodes` nodes.
fn untraced<'a, B: Allocator>(
    makings: &[Making],
    nodes: usize,
    alloc: &'a B,
) -> Result<Vec<Traced<&'a B>, &'a B>, Oom>
    ensures { IfOk result (λ traced. traced.items ≡ map (untraced nodes) makings.now) }
{
    let mut traced = Vec::with_capacity(alloc, makings.len())?;
    for making in makings {
        put_untraced(&mut traced, *making, nodes, alloc)?;
    }
    Ok(traced)
}

/// Follows the dot of each presence in `traced` over a step. `asked` is the bench after the step.
fn follow_step<'a, B: Allocator>(
    asked: &Bench<'a, B>,
    traced: &mut [Traced<&'a B>],
    kept: &Kept<&'a B>,
) -> Result<(), Oom>
    requires { AreLeft asked.now kept.now traced.old }
    ensures { OnOk result (traced.new ≡ map (traced_on asked.now kept.now) traced.old) }
{
    for next in traced.iter_mut() {
        next.follow(asked, kept)?;
    }
    Ok(())
}

/// Follows each dot over the bench's remaining steps. `asked`, a fresh bench, takes these steps once for all dots.
fn follow_steps<'a, B: Allocator>(
    bench: &Bench<'a, B>,
    asked: &mut Bench<'a, B>,
    traced: &mut [Traced<&'a B>],
) -> Result<(), Oom>
    requires opened { asked.old ≡ emptied bench.now }
    requires untraced { (makings : List Made) × (traced.old ≡ map (untraced (length bench.now.names)) makings) }
    ensures { OnOk result (traced.new ≡ map (traced_from asked.old bench.now.state.remaining) traced.old) }
{
    // form: hands out what the value keeps
    bench.bench_law();
    let mut steps = bench.remaining().steps();
    while let Some(kept) = steps.next() {
        ask(asked, kept)?;
        follow_step(asked, traced, kept)?;
    }
    Ok(())
}

/// Like `follow_steps`, but opens the fresh bench itself.
fn follow_all<'a, B: Allocator>(
    bench: &Bench<'a, B>,
    traced: &mut [Traced<&'a B>],
    alloc: &'a B,
) -> Result<(), Oom>
    requires { (makings : List Made) × (traced.old ≡ map (untraced (length bench.now.names)) makings) }
    ensures { OnOk result (traced.new ≡ map (traced_from (emptied bench.now) bench.now.state.remaining) traced.old) }
{
    let mut asked = opened(bench, alloc)?;
    let followed = follow_steps(bench, &mut asked, traced);
    // form: drop before exit
    asked.discard();
    followed
}

/// The presences of `makings` in their order, each with the track of its dot over all remaining steps. One walk over
/// the steps follows all the dots.
pub fn traced_of<'a, B: Allocator>(
    bench: &Bench<'a, B>,
    makings: &[Making],
    alloc: &'a B,
) -> Result<Vec<Traced<&'a B>, &'a B>, Oom>
    ensures { IfOk result (λ traced. traced.items ≡ map (traced_of bench.now) makings.now) }
{
    let mut traced = untraced(makings, bench.names().len(), alloc)?;
    follow_all(bench, &mut traced, alloc)?;
    Ok(traced)
}
