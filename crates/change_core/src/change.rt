//! `Change`: one step that could have gone otherwise: lost, never made, moved, or made once more.
ghost use Rattle.std.specs.Prelude.{◌≡◌, ◌+◌, ◌==◌, ◌&&◌};
ghost use Rattle.node_core.specs.Operations.{plain, sends};
ghost use Rattle.change_core.specs.Changes.{has_send, is_change, is_delivery, is_notice, may_pass, rank};

use bench_core::{Kept, Step};
use std::alloc::Allocator;

/// What is changed about a step.
#[derive(Clone, Copy, Debug, PartialEq, Eq)]
pub enum Kind {
    /// The delivery is lost.
    Lost,
    /// The up, down or permanently down is never made.
    Never,
    /// The step comes before an earlier step of its node.
    Before,
    /// The step comes behind a later step of its node.
    Behind,
    /// The delivery comes once more, behind a later step of its node.
    Again,
}

/// A change of the step at `place`, counted from 0. The step comes, or comes again, directly before or behind the step
/// at `beside`. For `Lost` and `Never`, `beside` is `place`.
#[derive(Clone, Copy, Debug, PartialEq, Eq)]
pub struct Change {
    pub kind: Kind,
    pub place: usize,
    pub beside: usize,
}

impl Kind {
    /// The number of this kind, counted from 0 in the order of the declaration above.
    pub fn rank(self) -> u8
        ensures { result ≡ rank self }
    {
        match self {
            Kind::Lost => 0,
            Kind::Never => 1,
            Kind::Before => 2,
            Kind::Behind => 3,
            Kind::Again => 4,
        }
    }
}

fn is_delivery<A: Allocator>(step: &Step<A>) -> bool
    ensures { result ≡ is_delivery (plain step.now) }
{
    matches!(step, Step::Deliver { .. })
}

/// Whether the step is a notice: an up, a down or a permanently down.
fn is_notice<A: Allocator>(step: &Step<A>) -> bool
    ensures { result ≡ is_notice (plain step.now) }
{
    matches!(
        step,
        Step::Up { .. } | Step::Down { .. } | Step::Permdown { .. }
    )
}

/// Whether the step is a send of this node.
fn is_send_of<A: Allocator>(kept: &Kept<A>, node: u16) -> bool
    ensures { result ≡ ((kept.now.node == node) && sends kept.now.step) }
{
    kept.node == node && kept.step.sends()
}

/// Whether one of the steps is a send of this node.
fn has_send<A: Allocator>(steps: &[Kept<A>], node: u16) -> bool
    ensures { result ≡ has_send steps.now node }
{
    for kept in steps {
        if is_send_of(kept, node) {
            return true;
        }
    }
    false
}

/// Whether the step `kept` may be moved past the steps `passed`: it is a delivery or a notice, or a send that passes no
/// send of its node.
fn may_pass<A: Allocator>(passed: &[Kept<A>], kept: &Kept<A>) -> bool
    ensures { result ≡ may_pass passed.now kept.now }
{
    if is_delivery(&kept.step) || is_notice(&kept.step) {
        return true;
    }
    kept.step.sends() && !has_send(passed, kept.node)
}

/// Whether this change can be made to the run of these steps; false if one of its places has no step. The changed run
/// may still be impossible.
#[tactic(auto, unfolding(crate::specs::Changes::is_change))]
pub fn is_change<A: Allocator>(steps: &[Kept<A>], change: Change) -> bool
    ensures { result ≡ is_change steps.now change }
{
    let Change {
        kind,
        place,
        beside,
    } = change;
    let Some(kept) = steps.get(place) else {
        return false;
    };
    let Some(other) = steps.get(beside) else {
        return false;
    };
    let is_own = kept.node == other.node;
    match kind {
        Kind::Lost => place == beside && is_delivery(&kept.step),
        Kind::Never => place == beside && is_notice(&kept.step),
        Kind::Before => is_own && beside < place && may_pass(&steps[beside..place], kept),
        Kind::Behind => is_own && place < beside && may_pass(&steps[place + 1..beside + 1], kept),
        Kind::Again => is_own && place < beside && is_delivery(&kept.step),
    }
}
