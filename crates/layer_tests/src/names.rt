//! `Names` and `Limits`: what they refuse, and refused memory.
use crate::benches::Heap;
use crate::cases::holds;
use bench_core::{Limits, Names, NamesFault};
use std::process::Abort;
use test_alloc::Refusing;

const MANY: [&str; 33] = ["a"; 33];

/// Cases: texts that aren't a list of names, and why.
const NO_NAMES: [(&[&str], NamesFault); 6] = [
    (&[], NamesFault::WrongCount),
    (&MANY, NamesFault::WrongCount),
    (&["a", "B"], NamesFault::BadName { at: 2 }),
    (&["a", "a"], NamesFault::Twice { at: 2 }),
    (&["a", "", "a"], NamesFault::BadName { at: 2 }),
    (&["abcdefghijklmnopq"], NamesFault::BadName { at: 1 }),
];

#[test]
fn names_are_refused_at_their_first_fault(rt: HostRuntime) {
    for (texts, fault) in &NO_NAMES {
        let refused = Names::new(rt.alloc(), texts).err();
        holds!(&rt, refused == Some(*fault));
    }
}

/// As many names as there can be.
const ALL: [&str; 32] = [
    "b_1",
    "a",
    "abcdefghijklmnop",
    "d",
    "e",
    "f",
    "g",
    "h",
    "i",
    "j",
    "k",
    "l",
    "m",
    "n",
    "o",
    "p",
    "q",
    "r",
    "s",
    "t",
    "u",
    "v",
    "w",
    "x",
    "y",
    "z",
    "0",
    "1",
    "2",
    "3",
    "4",
    "5",
];

/// As many names again; only the last differs from `ALL`.
const OTHERS: [&str; 32] = [
    "b_1",
    "a",
    "abcdefghijklmnop",
    "d",
    "e",
    "f",
    "g",
    "h",
    "i",
    "j",
    "k",
    "l",
    "m",
    "n",
    "o",
    "p",
    "q",
    "r",
    "s",
    "t",
    "u",
    "v",
    "w",
    "x",
    "y",
    "z",
    "0",
    "1",
    "2",
    "3",
    "4",
    "6",
];

fn named<'a>(heap: &'a Heap, texts: &[&str], rt: &impl Abort) -> Names<&'a Heap> {
    Names::new(heap, texts).expect(rt, "names")
}

/// Whether these are the names of `ALL` and no others, by number and by text.
fn are_all<'a>(names: &Names<&'a Heap>) -> bool {
    for (number, text) in ALL.iter().enumerate() {
        let number = number as u16;
        if names.number_of(text) != Some(number) || names.text(number) != Some(*text) {
            return false;
        }
    }
    names.len() == 32 && names.text(32).is_none() && names.number_of("c").is_none()
}

/// Whether `same` tells these names from others that differ in the last one alone.
fn are_told<'a>(names: &Names<&'a Heap>, heap: &'a Heap, rt: &impl Abort) -> bool {
    let others = named(heap, &OTHERS, rt);
    let are_same = names.same(&others);
    drop(others);
    !are_same
}

#[test]
fn names_are_numbered_in_their_order_without_memory(rt: HostRuntime) {
    let heap = Refusing::new(rt.alloc());
    let names = named(&heap, &ALL, &rt);
    holds!(&rt, are_told(&names, &heap, &rt));
    heap.refuse_from(1);
    holds!(&rt, are_all(&names) && names.same(&names));
    holds!(&rt, heap.requests() == 0);
    drop(names);
}

/// Makes the names of `ALL` with the first, second, .. request for memory refused, until no refusal is met. Each
/// refusal must be `OutOfMemory`. Gives how many requests were refused, or 99 if each of the first 99 was.
fn refused_names(heap: &Heap, rt: &impl Abort) -> u64 {
    for number in 1..100 {
        heap.refuse_only(number);
        let fault = Names::new(heap, &ALL).err();
        if fault.is_none() {
            return number - 1;
        }
        holds!(rt, fault == Some(NamesFault::OutOfMemory));
    }
    99
}

/// Copies the names with the first, second, .. request for memory refused, until no refusal is met: then the copy must
/// be the same. Gives how many requests were refused, or 99 if each of the first 99 was.
fn refused_copies<'a>(names: &Names<&'a Heap>, heap: &'a Heap, rt: &impl Abort) -> u64 {
    for number in 1..100 {
        heap.refuse_only(number);
        if let Ok(copy) = names.try_copy() {
            let is_same = copy.same(names);
            drop(copy);
            holds!(rt, is_same);
            return number - 1;
        }
    }
    99
}

#[test]
fn a_refused_request_is_out_of_memory(rt: HostRuntime) {
    let heap = Refusing::new(rt.alloc());
    let refused = refused_names(&heap, &rt);
    holds!(&rt, 2 <= refused && refused < 99);
    heap.refuse_none();
    let names = named(&heap, &ALL, &rt);
    let unmade = refused_copies(&names, &heap, &rt);
    holds!(&rt, 2 <= unmade && unmade < 99);
    drop(names);
}

/// Cases: the case's name; limits on acts, entries, clock and messages; and whether each is in its range.
const RANGES: [(&str, [u64; 4], bool); 10] = [
    ("least", [1, 1, 1, 1], true),
    (
        "greatest",
        [1_000_000, 100_000, 1_000_000_000, 100_000],
        true,
    ),
    ("no acts", [0, 1, 1, 1], false),
    ("no entries", [1, 0, 1, 1], false),
    ("no clock", [1, 1, 0, 1], false),
    ("no messages", [1, 1, 1, 0], false),
    ("acts", [1_000_001, 1, 1, 1], false),
    ("entries", [1, 100_001, 1, 1], false),
    ("clock", [1, 1, 1_000_000_001, 1], false),
    ("messages", [1, 1, 1, 100_001], false),
];

#[test]
fn limits_stay_in_their_ranges(rt: HostRuntime) {
    for (name, [acts, entries, clock, messages], fits) in RANGES {
        let limits = Limits::new(acts, entries, clock, messages);
        holds(&rt, limits.is_some() == fits, name);
    }
}

#[test]
fn usual_limits_are_those_of_the_model(rt: HostRuntime) {
    let usual = Limits::usual();
    holds!(&rt, (usual.acts(), usual.entries()) == (100_000, 10_000));
    holds!(
        &rt,
        (usual.clock(), usual.messages()) == (1_000_000, 10_000)
    );
}
