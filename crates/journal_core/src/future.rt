//! The future of a step: the step, its direct consequences, theirs, and so on. One pass over the steps, by rising
//! number, gathers it. Each node has a bound: the node's steps with numbers above it are *reached*, which is to say
//! found to be in the future so far. If the bound is `None`, no step of the node is reached yet.
ghost use Rattle.std.specs.Prelude.{◌≡◌, ◌<◌, ◌-◌, ◌&&◌, replicate, nat_lt, IfOk, length, Some, None, []};
ghost use Rattle.std.specs.Prelude.{slice_set};
ghost use Rattle.journal_core.specs.Journals.{AreInCausalOrder, find_number, first_number, NumbersRise};
ghost use Rattle.journal_core.specs.Futures.{IsFuture};
ghost use Rattle.journal_core.specs.Holdings.{Held, kepts};
ghost use Rattle.journal_core.specs.Causes.{AreIndexed, AreKnown};
ghost use Rattle.journal_core.specs.Bounds.{lower_at, lowered, next_own, reaches, delivered_from, IsGatheredUpTo};

use crate::causes::Causes;
use crate::held::Held;
use crate::numbers::least;
use crate::slots::Slots;
use dots_core::Oom;
use std::alloc::Allocator;

/// Notes `held` and the later steps of its node as reached: lowers the node's bound in `bounds`, unless that bound is
/// below the number of `held` already.
fn lower_below<'a, B: Allocator>(held: &Held<'a, B>, bounds: &mut [Option<u64>])
    requires { held.now.kept.node < length bounds.old }
    ensures { bounds.new ≡ lower_at bounds.old (Some held.now.kept) }
{
    let node = held.node() as usize;
    let number = held.number();
    // form: numbers are from 1; saturating spares a requirement that says so
    let lower = match bounds[node] {
        Some(above) if above < number => above,
        _ => number.saturating_sub(1),
    };
    bounds[node] = Some(lower);
}

/// Calls `lower_below` for the step of each of these numbers, and passes over numbers whose steps don't remain.
fn lower_all<'a, B: Allocator>(slots: &Slots<'a, B>, numbers: &[u64], bounds: &mut [Option<u64>])
    requires { AreKnown (length bounds.old) (kepts slots.now.steps) }
    ensures { bounds.new ≡ lowered (kepts slots.now.steps) numbers.now bounds.old }
{
    for number in numbers {
        if let Some(held) = slots.find(*number) {
            lower_below(held, bounds);
        }
    }
}

/// The number of a node's first reached step above `number`, by the node's `bound`; `None` if there is none.
fn next_of<'a, B: Allocator>(causes: &Causes<'a, B>, bound: Option<u64>, number: u64) -> Option<u64>
    ensures { result ≡ next_own bound number causes.now.own }
{
    // form: `max`, spelled out for the proof
    match bound {
        Some(above) => causes.next(if above < number { number } else { above }),
        None => None,
    }
}

/// The number of the first reached step above `number`, whatever its node; `None` if there is none.
fn next_above<'a, B: Allocator>(
    slots: &Slots<'a, B>,
    causes: &[Causes<'a, B>],
    bounds: &[Option<u64>],
    number: u64,
) -> Option<u64>
    requires long { length bounds.now ≡ length causes.now }
    requires known { AreKnown (length causes.now) (kepts slots.now.steps) }
    requires rises { NumbersRise 0 (kepts slots.now.steps) }
    requires indexed { AreIndexed (kepts slots.now.steps) (kepts slots.now.steps) causes.now }
    ensures { result ≡ first_number (λ k. reaches bounds.now k && nat_lt number k.number) (kepts slots.now.steps) }
{
    // form: the parameter `slots` is for the contract alone
    let mut next = None;
    for (node, causes) in causes.iter().enumerate() {
        next = least(next, next_of(causes, bounds[node], number));
    }
    next
}

/// Notes in `bounds` as reached each step that delivers the message of step `number`, and the later steps of the
/// delivering step's node. If step `number` sent no message, or doesn't remain, nothing changes.
fn lower<'a, B: Allocator>(
    slots: &Slots<'a, B>,
    causes: &[Causes<'a, B>],
    number: u64,
    bounds: &mut [Option<u64>],
)
    requires long { length bounds.old ≡ length causes.now }
    requires known { AreKnown (length causes.now) (kepts slots.now.steps) }
    ensures { bounds.new ≡ lowered (kepts slots.now.steps) (delivered_from causes.now (find_number (kepts slots.now.steps) number) number) bounds.old }
{
    let Some(held) = slots.find(number) else {
        return;
    };
    let node = held.node() as usize;
    lower_all(slots, causes[node].deliveries_of(number), bounds);
}

/// The bounds of `nodes` nodes at the start: just below `number` for `node`, and `None` for the others.
fn start<'a, B: Allocator>(
    alloc: &'a B,
    nodes: usize,
    node: usize,
    number: u64,
) -> Result<Vec<Option<u64>, &'a B>, Oom>
    requires { node < nodes }
    ensures { IfOk result (λ bounds. bounds.items ≡ slice_set (replicate nodes None) node (Some (number - 1))) }
{
    let mut bounds = vec![in alloc; None; nodes]?;
    // form: numbers are from 1; saturating spares a requirement that says so
    bounds[node] = Some(number.saturating_sub(1));
    Ok(bounds)
}

/// The numbers of step `number` and of all that follows from it, least first. `bounds` come from `start`, and `gather`
/// lowers them.
fn gather<'a, B: Allocator>(
    slots: &Slots<'a, B>,
    causes: &[Causes<'a, B>],
    number: u64,
    bounds: &mut [Option<u64>],
    alloc: &'a B,
) -> Result<Vec<u64, &'a B>, Oom>
    requires long { length bounds.old ≡ length causes.now }
    requires known { AreKnown (length causes.now) (kepts slots.now.steps) }
    requires order { AreInCausalOrder (kepts slots.now.steps) }
    requires indexed { AreIndexed (kepts slots.now.steps) (kepts slots.now.steps) causes.now }
    requires starts { IsGatheredUpTo (kepts slots.now.steps) number [] bounds.old (Some number) }
    ensures { IfOk result (λ numbers. IsGatheredUpTo (kepts slots.now.steps) number numbers.items bounds.new None) }
{
    let mut numbers = Vec::new(alloc);
    let mut next = Some(number);
    while let Some(n) = next {
        numbers.push(n)?;
        lower(slots, causes, n, bounds);
        next = next_above(slots, causes, bounds, n);
    }
    Ok(numbers)
}

/// Like `gather`, but greatest first.
fn gather_back<'a, B: Allocator>(
    slots: &Slots<'a, B>,
    causes: &[Causes<'a, B>],
    number: u64,
    bounds: &mut [Option<u64>],
    alloc: &'a B,
) -> Result<Vec<u64, &'a B>, Oom>
    requires long { length bounds.old ≡ length causes.now }
    requires known { AreKnown (length causes.now) (kepts slots.now.steps) }
    requires order { AreInCausalOrder (kepts slots.now.steps) }
    requires indexed { AreIndexed (kepts slots.now.steps) (kepts slots.now.steps) causes.now }
    requires starts { IsGatheredUpTo (kepts slots.now.steps) number [] bounds.old (Some number) }
    ensures { IfOk result (λ numbers. IsFuture (kepts slots.now.steps) number numbers.items) }
{
    let mut numbers = gather(slots, causes, number, bounds, alloc)?;
    numbers.reverse();
    Ok(numbers)
}

/// The numbers of step `number` and of all that follows from it, greatest first; none if the step doesn't remain. For
/// each of these steps it makes a binary search in the index of each node that it has reached so far, and one for each
/// delivery of the step's message.
pub(crate) fn future<'a, B: Allocator>(
    slots: &Slots<'a, B>,
    causes: &[Causes<'a, B>],
    number: u64,
    alloc: &'a B,
) -> Result<Vec<u64, &'a B>, Oom>
    requires known { AreKnown (length causes.now) (kepts slots.now.steps) }
    requires order { AreInCausalOrder (kepts slots.now.steps) }
    requires indexed { AreIndexed (kepts slots.now.steps) (kepts slots.now.steps) causes.now }
    ensures { IfOk result (λ numbers. IsFuture (kepts slots.now.steps) number numbers.items) }
{
    let Some(held) = slots.find(number) else {
        return Ok(Vec::new(alloc));
    };
    let node = held.node() as usize;
    let mut bounds = start(alloc, causes.len(), node, number)?;
    gather_back(slots, causes, number, bounds.as_mut_slice(), alloc)
}
