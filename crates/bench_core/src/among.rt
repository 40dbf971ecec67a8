//! A step of one value among several (a node in a cluster); the step may read the other values. `step_at` is generic in
//! the values, since the checker can't tell what becomes of a split slice whose elements name a lifetime.
ghost use Rattle.std.specs.Prelude.{◌≡◌, ◌≢◌, ◌<◌, ◌++◌, ◌∷◌, ℕ, List, None, length, option_copied, slice_get};
ghost use Rattle.bench_core.specs.Among.{Edits, Parted};

use node_core::Meter;
use std::cmp::Ordering;

/// One of several values. A member takes steps, and may read the values before it and after it.
pub(crate) trait Member {
    type Step;

    type Output;

    ghost may_take: { List Self → Self → List Self → Self.Step → ℕ → Type 0 };

    ghost takes: { List Self → Self → List Self → Self.Step → ℕ → Self.Output → Self → ℕ → Type 0 };

    /// Takes the step, which `meter` may count. `before` has the members at lower places, and `after` those at higher
    /// places, both by rising place.
    fn take_beside(
        &mut self,
        before: &[Self],
        after: &[Self],
        step: &Self::Step,
        meter: &mut Meter,
    ) -> Self::Output
        requires { may_take before.now self.old after.now step.now meter.old.count }
        ensures { takes before.now self.old after.now step.now meter.old.count result self.new meter.new.count };
}

/// Takes a step of the member at `place`, and changes that member alone. The step may read the other members, and
/// `meter` may count it.
pub(crate) fn step_at<M: Member>(
    members: &mut [M],
    place: usize,
    step: &M::Step,
    meter: &mut Meter,
) -> M::Output
    requires there { place < length members.old }
    requires asked { (p : Parted members.old place) → M.may_take p.before p.value p.after step.now meter.old.count }
    ensures { Edits (λ before member after left. M.takes before member after step.now meter.old.count result left meter.new.count) members.old place
        members.new }
{
    let (before, rest) = members.split_at_mut(place);
    let (member, after) = rest.split_first_mut().unwrap();
    member.take_beside(before, after, step, meter)
}

/// The value at `place` in the list of `before`, one value in between, and `after`. `None` at the place of the value in
/// between, and past the end.
pub(crate) fn other<'x, T>(before: &'x [T], after: &'x [T], place: usize) -> Option<&'x T>
    ensures beside { (value : T) → place ≢ length before.now → option_copied result ≡ slice_get (before.now ++ value ∷ after.now) place }
    ensures itself { place ≡ length before.now → result ≡ None }
{
    match place.cmp(&before.len()) {
        Ordering::Less => before.get(place),
        Ordering::Equal => None,
        Ordering::Greater => after.get(place - before.len() - 1),
    }
}
