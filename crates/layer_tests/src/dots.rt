//! Dots, sets of names and sets of dots.
ghost use Rattle.std.specs.Prelude.{◌<◌};
ghost use Rattle.dots_core.specs.Names.{most_names};

use crate::cases::{holds, holds_at};
use dots_core::{Dot, DotSet, NameSet, Oom, laws};
use std::alloc::{Allocator, Global};
use std::process::Abort;
use test_alloc::Refusing;

/// Cases: the case's name; a dot's name and clock; and whether a set may hold the dot.
const DOTS: [(&str, u16, u64, bool); 5] = [
    ("the first", 0, 1, true),
    ("the last", 31, 1_000_000_000, true),
    ("a name past the last", 32, 1, false),
    ("no clock", 0, 0, false),
    ("a clock past the last", 31, 1_000_000_001, false),
];

#[test]
fn a_dot_is_ok_in_its_range(rt: HostRuntime) {
    for (row, name, clock, ok) in DOTS {
        let dot = Dot { name, clock };
        holds(&rt, dot.ok() == ok, row);
    }
}

#[test]
fn a_name_set_has_what_was_put_in(rt: HostRuntime) {
    let names = NameSet::empty().with(0).with(31).with(7).without(7);
    holds!(
        &rt,
        names.has(0) && !names.has(7) && !names.has(30) && names.has(31)
    );
    holds!(&rt, names.same(NameSet::empty().with(31).with(0)));
    holds!(&rt, !names.same(NameSet::empty()));
}

/// Inserts the dot, which a set must be able to hold, and says whether it was new. If the insert needs memory, the
/// allocator must have it.
fn puts_in<A: Allocator>(rt: &impl Abort, dots: &mut DotSet<A>, dot: Dot) -> bool {
    assert!(rt; dot.ok());
    dots.insert(dot).expect(rt, "a dot")
}

/// A set of the dots with these names and clocks.
fn set_of<A: Allocator + Copy>(rt: &impl Abort, alloc: A, pairs: &[(u16, u64)]) -> DotSet<A> {
    let mut dots = DotSet::new(alloc);
    for (name, clock) in pairs {
        let dot = Dot {
            name: *name,
            clock: *clock,
        };
        puts_in(rt, &mut dots, dot);
    }
    dots
}

const THREE: [(u16, u64); 3] = [(0, 1), (0, 3), (0, 4)];

/// An edit of a set of dots. `Insert` and `Remove` have the name and the clock of a dot.
#[derive(Clone, Copy)]
enum Edit {
    Insert(u16, u64),
    Remove(u16, u64),
    /// The union with `FAR`, which has the dots of the names 0 and 1 with the clock 9.
    Union,
}

const FAR: [(u16, u64); 2] = [(0, 9), (1, 9)];

/// Makes the edit, and says whether it changed the set; for a union it says `true`, even if nothing changed. `far` is
/// the set to unite with.
fn edits<A: Allocator + Copy>(
    rt: &impl Abort,
    dots: &mut DotSet<A>,
    far: &DotSet<A>,
    edit: Edit,
) -> Result<bool, Oom> {
    match edit {
        Edit::Insert(name, clock) => {
            let dot = Dot { name, clock };
            assert!(rt; dot.ok());
            dots.insert(dot)
        }
        Edit::Remove(name, clock) => {
            let dot = Dot { name, clock };
            assert!(rt; dot.ok());
            dots.remove(dot)
        }
        Edit::Union => {
            dots.union_known(far, NameSet::empty().with(0).with(1), 2)?;
            Ok(true)
        }
    }
}

#[test]
fn a_set_has_what_was_inserted(rt: HostRuntime) {
    let mut dots = DotSet::new(rt.alloc());
    holds!(&rt, dots.is_empty());
    holds!(&rt, puts_in(&rt, &mut dots, Dot { name: 1, clock: 2 }));
    holds!(&rt, puts_in(&rt, &mut dots, Dot { name: 0, clock: 1 }));
    holds!(&rt, !puts_in(&rt, &mut dots, Dot { name: 1, clock: 2 }));
    holds!(
        &rt,
        dots.contains(Dot { name: 0, clock: 1 }) && dots.contains(Dot { name: 1, clock: 2 })
    );
    holds!(
        &rt,
        !dots.contains(Dot { name: 1, clock: 1 }) && !dots.is_empty()
    );
    holds!(&rt, has_copy(&rt, &dots));
    drop(dots);
}

/// Whether a copy has the same dots.
fn has_copy<A: Allocator + Copy>(rt: &impl Abort, dots: &DotSet<A>) -> bool {
    let copy = dots.try_copy().expect(rt, "a copy");
    let is_same = copy.same(dots);
    drop(copy);
    is_same
}

/// Whether these are the context clock and the cloud of the name.
fn is_seen<A: Allocator>(dots: &DotSet<A>, name: u16, clock: u64, cloud: &[u64]) -> bool
    requires { name < most_names }
{
    dots.clock_of(name) == clock && dots.cloud_of(name) == cloud
}

/// Edits of one set in turn, each with the context clock and the cloud of name 0 that it leaves.
const CLOUDS: [(Edit, u64, &[u64]); 5] = [
    (Edit::Insert(0, 1), 1, &[]),
    (Edit::Insert(0, 3), 1, &[3]),
    (Edit::Insert(0, 4), 1, &[3, 4]),
    (Edit::Insert(0, 2), 4, &[]),
    (Edit::Remove(0, 2), 1, &[3, 4]),
];

#[test]
fn a_cloud_goes_into_the_context_and_comes_back(rt: HostRuntime) {
    let far = DotSet::new(rt.alloc());
    let mut dots = DotSet::new(rt.alloc());
    for (edit, clock, cloud) in CLOUDS {
        holds!(&rt, edits(&rt, &mut dots, &far, edit) == Ok(true));
        holds!(&rt, is_seen(&dots, 0, clock, cloud));
    }
    drop(far);
    drop(dots);
}

#[test]
fn only_keeps_the_names_alone(rt: HostRuntime) {
    let dots = set_of(&rt, rt.alloc(), &THREE);
    let none = dots.only(NameSet::empty().with(1)).expect(&rt, "a part");
    holds!(&rt, none.is_empty());
    let all = dots.only(NameSet::empty().with(0)).expect(&rt, "a part");
    holds!(&rt, all.same(&dots));
    drop(none);
    drop(all);
    drop(dots);
}

/// Unites an empty set with the dots of `dots` whose names are in `known` and aren't `own`. Says whether the union has
/// all of `dots`; if not, it must have none.
fn takes<A: Allocator + Copy>(
    rt: &impl Abort,
    alloc: A,
    dots: &DotSet<A>,
    known: NameSet,
    own: u16,
) -> bool {
    assert!(rt; own < 32);
    let mut union = DotSet::new(alloc);
    union.union_known(dots, known, own).expect(rt, "a union");
    let is_whole = union.same(dots);
    holds!(rt, is_whole || union.is_empty());
    drop(union);
    is_whole
}

#[test]
fn a_union_takes_the_known_names_but_the_own(rt: HostRuntime) {
    let dots = set_of(&rt, rt.alloc(), &THREE);
    let known = NameSet::empty().with(0);
    holds!(&rt, !takes(&rt, rt.alloc(), &dots, known, 0));
    holds!(&rt, takes(&rt, rt.alloc(), &dots, known, 1));
    holds!(&rt, !takes(&rt, rt.alloc(), &dots, known.without(0), 1));
    drop(dots);
}

#[test]
fn a_union_merges_clouds(rt: HostRuntime) {
    let mut dots = set_of(&rt, rt.alloc(), &[(5, 1), (5, 4), (5, 7)]);
    let other = set_of(&rt, rt.alloc(), &[(5, 3), (5, 2), (5, 4), (5, 9)]);
    let known = NameSet::empty().with(5);
    dots.union_known(&other, known, 0).expect(&rt, "a union");
    holds!(&rt, is_seen(&dots, 5, 4, &[7, 9]));
    drop(dots);
    drop(other);
}

#[test]
fn a_part_restores_its_name(rt: HostRuntime) {
    let dots = set_of(&rt, rt.alloc(), &THREE);
    let part = dots.part_of(0).expect(&rt, "a part");
    holds!(
        &rt,
        part.clock == 1 && part.cloud.as_slice() == [3, 4].as_slice()
    );
    let mut restored = DotSet::new(rt.alloc());
    restored.set_part(0, part);
    holds!(&rt, restored.same(&dots));
    let part = restored.drop_name(0);
    holds!(&rt, restored.is_empty());
    restored.set_part(0, part);
    holds!(&rt, restored.same(&dots));
    drop(restored);
    drop(dots);
}

#[test]
fn each_law_can_be_called(rt: HostRuntime) {
    let dots = DotSet::new(rt.alloc());
    laws::one_part_law();
    laws::part_law();
    dots.valid_law();
    holds!(&rt, dots.is_empty());
    drop(dots);
}

/// Each of the 32 names has a dot above its context clock, in the set and in a copy. An empty set, united with the set
/// that `only` makes for all names but 0, has the same dots as that set.
#[test]
fn each_name_below_32_has_its_dots(rt: HostRuntime) {
    let mut dots = DotSet::new(rt.alloc());
    let mut names = NameSet::empty();
    for name in 0..32u16 {
        holds!(&rt, puts_in(&rt, &mut dots, Dot { name, clock: 2 }));
        holds!(&rt, is_seen(&dots, name, 0, &[2]));
        names = names.with(name);
    }
    let others = dots.only(names.without(0)).expect(&rt, "a part");
    holds!(&rt, takes(&rt, rt.alloc(), &others, names, 0));
    holds!(&rt, has_copy(&rt, &dots));
    drop(others);
    drop(dots);
}

type Heap = Refusing<Global>;

/// Makes the edit with request `number` for memory refused. Says whether the edit was made. It must be made if it asked
/// for memory fewer than `number` times, and only then.
fn is_made<'a>(
    dots: &mut DotSet<&'a Heap>,
    far: &DotSet<&'a Heap>,
    edit: Edit,
    number: u64,
    heap: &'a Heap,
    rt: &impl Abort,
) -> bool {
    heap.refuse_only(number);
    let edited = edits(rt, dots, far, edit);
    let requests = heap.requests();
    heap.refuse_none();
    holds!(rt, edited.is_ok() == (requests < number));
    edited.is_ok()
}

/// A case: the dots of a set, an edit of the set, how many of the edit's requests for memory can be refused, and the
/// dots after the edit.
type Refusal = (&'static [(u16, u64)], Edit, u64, &'static [(u16, u64)]);

const REFUSALS: [Refusal; 3] = [
    (
        &THREE,
        Edit::Insert(1, 2),
        1,
        &[(0, 1), (0, 3), (0, 4), (1, 2)],
    ),
    (
        &[(0, 1), (0, 2), (0, 3), (0, 4)],
        Edit::Remove(0, 2),
        1,
        &THREE,
    ),
    (
        &THREE,
        Edit::Union,
        2,
        &[(0, 1), (0, 3), (0, 4), (0, 9), (1, 9)],
    ),
];

/// Makes the edit with its first, second, .. request for memory refused, until no refusal is met. Each refusal must
/// leave the set unchanged. Gives how many requests were refused.
fn refused_in_turn<'a>(
    dots: &mut DotSet<&'a Heap>,
    far: &DotSet<&'a Heap>,
    edit: Edit,
    heap: &'a Heap,
    rt: &impl Abort,
) -> u64 {
    let before = dots.try_copy().expect(rt, "a copy");
    let mut refused = 0;
    for number in 1..100 {
        if is_made(dots, far, edit, number, heap, rt) {
            break;
        }
        holds_at(rt, dots.same(&before), number);
        refused = number;
    }
    drop(before);
    refused
}

#[test]
fn a_refused_edit_changes_nothing(rt: HostRuntime) {
    let heap = Refusing::new(rt.alloc());
    let far = set_of(&rt, &heap, &FAR);
    for refusal in REFUSALS {
        holds!(&rt, is_refused_in_turn(&far, refusal, &heap, &rt));
    }
    drop(far);
}

/// Whether the edit of the case can be refused as often as the case says, and then leaves the dots that the case says.
fn is_refused_in_turn<'a>(
    far: &DotSet<&'a Heap>,
    refusal: Refusal,
    heap: &'a Heap,
    rt: &impl Abort,
) -> bool {
    let (before, edit, refusals, after) = refusal;
    let mut dots = set_of(rt, heap, before);
    let refused = refused_in_turn(&mut dots, far, edit, heap, rt);
    let expected = set_of(rt, heap, after);
    let is_edited = dots.same(&expected);
    drop(expected);
    drop(dots);
    is_edited && refused == refusals
}

#[test]
fn refused_copies_are_errors(rt: HostRuntime) {
    let heap = Refusing::new(rt.alloc());
    let dots = set_of(&rt, &heap, &THREE);
    heap.refuse_from(1);
    holds!(&rt, dots.only(NameSet::empty().with(0)).err().is_some());
    holds!(&rt, dots.part_of(0).err().is_some());
    holds!(&rt, dots.try_copy().err().is_some());
    holds!(&rt, heap.requests() == 3);
    drop(dots);
}

#[test]
fn reads_and_the_empty_set_take_no_memory(rt: HostRuntime) {
    let heap = Refusing::new(rt.alloc());
    let mut dots = set_of(&rt, &heap, &THREE);
    heap.refuse_from(1);
    let empty = DotSet::new(&heap);
    holds!(
        &rt,
        empty.is_empty() && !dots.same(&empty) && has_copy(&rt, &empty)
    );
    let there = Dot { name: 0, clock: 3 };
    holds!(&rt, dots.contains(there) && !puts_in(&rt, &mut dots, there));
    holds!(&rt, heap.requests() == 0);
    drop(empty);
    drop(dots);
}

#[test]
fn what_grows_no_cloud_takes_no_memory(rt: HostRuntime) {
    let heap = Refusing::new(rt.alloc());
    let mut dots = set_of(&rt, &heap, &THREE);
    let copy = dots.try_copy().expect(&rt, "a copy");
    heap.refuse_from(1);
    holds!(&rt, takes_again(&rt, &mut dots, &copy));
    holds!(&rt, grows_its_context(&rt, &mut dots));
    holds!(&rt, heap.requests() == 0);
    drop(copy);
    drop(dots);
}

/// Inserts two dots of name 0 into the dots of `THREE`: the one in the gap, and the one after the last. Then takes out
/// the name's part, and puts it back. Copies the dots of no name at all. Says whether both dots were new, the set was
/// empty without the part, the copy is empty, and name 0 has the context clock 5 and an empty cloud at the end.
fn grows_its_context<A: Allocator + Copy>(rt: &impl Abort, dots: &mut DotSet<A>) -> bool {
    let fills = puts_in(rt, dots, Dot { name: 0, clock: 2 });
    let goes_on = puts_in(rt, dots, Dot { name: 0, clock: 5 });
    let part = dots.drop_name(0);
    let is_out = dots.is_empty();
    dots.set_part(0, part);
    let none = dots.only(NameSet::empty()).expect(rt, "a part");
    let has_none = none.is_empty();
    drop(none);
    fills && goes_on && is_out && has_none && is_seen(dots, 0, 5, &[])
}

/// Unites the set with `same`, which has the same dots; then takes out the dot at the context clock of name 0, and
/// inserts it again. Says whether the dot was there, was new again, and the set is the same as before.
fn takes_again<A: Allocator + Copy>(
    rt: &impl Abort,
    dots: &mut DotSet<A>,
    same: &DotSet<A>,
) -> bool {
    let last = Dot { name: 0, clock: 1 };
    let known = NameSet::empty().with(0);
    dots.union_known(same, known, 1).expect(rt, "a union");
    let was_there = dots.remove(last).expect(rt, "a removal");
    let is_new = puts_in(rt, dots, last);
    was_there && is_new && dots.same(same)
}

/// Inserts the dots of name 1 with the clocks from 11 to 30, each of which must be new.
fn grows_its_cloud<A: Allocator>(rt: &impl Abort, dots: &mut DotSet<A>) {
    for clock in 11..=30u8 {
        let clock = u64::from(clock);
        holds!(rt, puts_in(rt, dots, Dot { name: 1, clock }));
    }
}

/// A union takes its memory from the allocator of the set that grows, and none from the allocator of the other set.
/// Later inserts into the set that grew do so, too.
#[test]
fn a_union_takes_the_memory_of_the_set_that_grows(rt: HostRuntime) {
    let own = Refusing::new(rt.alloc());
    let others = Refusing::new(rt.alloc());
    let mut dots = set_of(&rt, &own, &THREE);
    let far = set_of(&rt, &others, &FAR);
    own.refuse_none();
    others.refuse_from(1);
    holds!(&rt, edits(&rt, &mut dots, &far, Edit::Union).is_ok());
    holds!(&rt, own.requests() == 2);
    grows_its_cloud(&rt, &mut dots);
    holds!(&rt, own.requests() > 2 && others.requests() == 0);
    drop(dots);
    drop(far);
}

/// The set that `only` makes takes its memory from the allocator of the set that it is made from, also when it grows.
#[test]
fn a_part_keeps_the_memory_of_its_set(rt: HostRuntime) {
    let own = Refusing::new(rt.alloc());
    let others = Refusing::new(rt.alloc());
    let dots = set_of(&rt, &own, &THREE);
    let other = set_of(&rt, &others, &THREE);
    own.refuse_none();
    others.refuse_from(1);
    let mut part = dots.only(NameSet::empty().with(0)).expect(&rt, "a part");
    holds!(&rt, other.only(NameSet::empty().with(0)).err().is_some());
    grows_its_cloud(&rt, &mut part);
    holds!(&rt, own.requests() > 1 && others.requests() == 1);
    drop(part);
    drop(dots);
    drop(other);
}
