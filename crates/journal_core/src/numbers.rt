//! Rising lists of numbers, and binary searches in them.
ghost use Rattle.std.specs.Prelude.{◌≡◌};
ghost use Rattle.journal_core.specs.Numbers.{Rises, first_above, least, place_of};

/// The place of `number` in a rising list, counted from 0; `None` if the list doesn't have the number.
pub(crate) fn place(numbers: &[u64], number: u64) -> Option<usize>
    requires { Rises numbers.now }
    ensures { result ≡ place_of numbers.now number }
{
    let place = numbers.partition_point(|n| *n < number);
    if place >= numbers.len() {
        return None;
    }
    if numbers[place] != number {
        return None;
    }
    Some(place)
}

/// The first number above `number` in a rising list; `None` if there is none.
pub(crate) fn first_above(numbers: &[u64], number: u64) -> Option<u64>
    requires { Rises numbers.now }
    ensures { result ≡ first_above number numbers.now }
{
    let place = numbers.partition_point(|n| *n <= number);
    if place < numbers.len() {
        Some(numbers[place])
    } else {
        None
    }
}

/// The lesser of the two numbers; if either is `None`, the other one.
pub(crate) fn least(one: Option<u64>, other: Option<u64>) -> Option<u64>
    ensures { result ≡ least one other }
{
    // form: `min`, spelled out for the proof
    match (one, other) {
        (Some(a), Some(b)) => Some(if b < a { b } else { a }),
        (Some(a), None) => Some(a),
        (None, other) => other,
    }
}
