//! Unites the parts that two sets have of one name, in time linear in the two parts. Where one has a long cloud and the
//! other adds a few clocks, these are inserted into a copy.

ghost use Rattle.std.specs.Prelude.{◌≡◌, ℕ, ◌<◌, ◌≤◌, true, false, ◌||◌, IfOk, OnOk};
ghost use Rattle.dots_core.specs.Clocks.{is_among, RisesAbove, IsCanonical, Gains};
ghost use Rattle.dots_core.specs.Unions.{AddsOnly, AreClocks, GainsEach, HasEach, IsGrown, IsLeast, without_first};
ghost use Rattle.dots_core.specs.Dots.{last_clock};

use crate::Oom;
use crate::part::Part;
use std::alloc::Allocator;

/// How many clocks are inserted one by one, at most, and how long the cloud must be, at least, into which they go. Each
/// insert moves the clocks above it at once, and a merge goes over all clocks one by one.
const FEW: usize = 16;

const LONG: usize = 64;

/// The union of the two parts, or `None` if `own` has all clocks of `other` already. Only the union's cloud takes
/// memory.
pub(crate) fn grown<A: Allocator + Copy>(
    own: &Part<A>,
    other: &Part<A>,
) -> Result<Option<Part<A>>, Oom>
    ensures { IfOk result (IsGrown own.now other.now) }
{
    if other.clock <= own.clock && other.cloud.len() <= FEW && own.cloud.len() >= LONG {
        return grown_by_few(own, other);
    }
    if other.clock <= own.clock && has_each(own, &other.cloud) {
        return Ok(None);
    }
    let mut union = Part {
        clock: own.clock.max(other.clock),
        cloud: Vec::new(*own.cloud.allocator()),
    };
    let mut left = own.cloud.as_slice();
    let mut right = other.cloud.as_slice();
    while let Some(next) = least(left, right) {
        add_last(&mut union, next)?;
        left = after(left, next);
        right = after(right, next);
    }
    Ok(Some(union))
}

/// Like `grown`, for an `other` whose context clock isn't above that of `own`: inserts the clocks of its cloud into a
/// copy of `own`.
fn grown_by_few<A: Allocator + Copy>(own: &Part<A>, other: &Part<A>) -> Result<Option<Part<A>>, Oom>
    requires { other.now.clock ≤ own.now.clock }
    ensures { IfOk result (IsGrown own.now other.now) }
{
    if own.has_all_of(other) {
        return Ok(None);
    }
    let mut union = own.copy_with_room(other.cloud.len())?;
    insert_each(&mut union, &other.cloud)?;
    // form: the proof reads that the part is canonical
    let _ = &union.clock;
    Ok(Some(union))
}

/// Inserts these clocks into the part. If memory is refused, some may be in.
fn insert_each<A: Allocator>(part: &mut Part<A>, clocks: &[u64]) -> Result<(), Oom>
    requires { AreClocks clocks.now }
    ensures { OnOk result (GainsEach part.old clocks.now part.new) }
{
    for clock in clocks {
        part.insert(*clock)?;
    }
    Ok(())
}

/// Whether `own` has each of `clocks`. If `clocks` doesn't rise, the result may be `false` although `own` has them all.
fn has_each<A: Allocator>(own: &Part<A>, clocks: &[u64]) -> bool
    requires { (k : ℕ) → is_among k clocks.now ≡ true → 0 < k }
    ensures { result ≡ true → HasEach own.now clocks.now }
{
    let cloud = own.cloud.as_slice();
    let mut place = 0;
    for clock in clocks {
        if *clock > own.clock {
            place = first_from(cloud, place, *clock);
            if place >= cloud.len() || cloud[place] != *clock {
                return false;
            }
        }
    }
    true
}

/// The first place from `place` on whose clock is not below `clock`; the length of the cloud if there is none.
fn first_from(cloud: &[u64], mut place: usize, clock: u64) -> usize {
    while place < cloud.len() && cloud[place] < clock {
        place += 1;
    }
    place
}

/// The least clock of two rising lists, or `None` if both are empty.
fn least(left: &[u64], right: &[u64]) -> Option<u64>
    requires left { RisesAbove 0 left.now }
    requires right { RisesAbove 0 right.now }
    ensures { IsLeast left.now right.now result }
{
    match (left.first(), right.first()) {
        (Some(a), Some(b)) => Some((*a).min(*b)),
        // form: each arm is a case of the proof
        (Some(a), None) => Some(*a),
        (None, Some(b)) => Some(*b),
        (None, None) => None,
    }
}

/// `clocks` without the first, if the first is `clock`; otherwise all of `clocks`.
fn after(clocks: &[u64], clock: u64) -> &[u64]
    ensures { result.now ≡ without_first clock clocks.now }
{
    match clocks.split_first() {
        Some((first, others)) if *first == clock => others,
        _ => clocks,
    }
}

/// Adds `clock`, which must be above all clocks of the part's cloud. If the context clock covers `clock`, nothing
/// changes; if `clock` is the next after the context clock, the context clock moves on to `clock`.
fn add_last<A: Allocator>(part: &mut Part<A>, clock: u64) -> Result<(), Oom>
    requires positive { 0 < clock }
    requires last { clock ≤ last_clock }
    requires above { (k : ℕ) → is_among k part.old.cloud ≡ true → k < clock }
    ensures canonical { IsCanonical part.new }
    ensures ok { OnOk result (Gains part.old clock part.new) }
    ensures cloud { OnOk result (AddsOnly part.old.cloud clock part.new.cloud) }
{
    if clock <= part.clock {
        return Ok(());
    }
    if clock == part.clock + 1 {
        part.clock = clock;
    } else {
        part.cloud.push(clock)?;
    }
    Ok(())
}
