//! The places that receipts name, and whether a place is named twice.
ghost use Rattle.std.specs.Prelude.{◌≡◌, ◌↔◌, IsTrue, IfOk, map};
ghost use Rattle.std.specs.List.{AllByRecursion};
ghost use Rattle.receipt_core.specs.Agree.{named, places, NoneTwice};
ghost use Rattle.receipt_core.specs.Marks.{Fresh, Within};

use crate::receipt::Receipt;
use dots_core::Oom;
use std::alloc::Allocator;

/// The place that a receipt names; 0 if it names none.
pub(crate) fn named_place<A: Allocator>(receipt: &Receipt<A>) -> u64
    ensures { result ≡ named receipt.now }
{
    receipt.place.unwrap_or(0)
}

/// The places that the receipts name, list by list, with 0 for a receipt that names none.
fn named_places<A: Allocator + Copy>(
    alloc: A,
    lists: &[Vec<Receipt<A>, A>],
) -> Result<Vec<u64, A>, Oom>
    ensures { IfOk result (λ v. v.items ≡ places (map (λ v. v.items) lists.now)) }
{
    let mut all = Vec::new(alloc);
    for list in lists {
        for receipt in list {
            all.push(named_place(receipt))?;
        }
    }
    Ok(all)
}

/// Whether each of `places` is from 1 to the length of `marks`, isn't set in `marks` yet, and comes only once. Place 1
/// is at index 0 of `marks`.
fn are_fresh<A: Allocator>(mut marks: Vec<bool, A>, places: &[u64]) -> bool
    ensures { IsTrue result ↔ Fresh marks.items places.now }
{
    for place in places {
        let Some(at) = place.checked_sub(1) else {
            return false;
        };
        let at = at as usize;
        if at >= marks.len() || marks[at] {
            return false;
        }
        marks[at] = true;
    }
    true
}

/// Whether no two receipts name the same place. The caller has checked that each names a place from 1 to `length`, the
/// length of the history. Asks for memory for a `bool` for each of these places, and for a number for each receipt.
pub(crate) fn none_twice<A: Allocator + Copy>(
    alloc: A,
    length: usize,
    lists: &[Vec<Receipt<A>, A>],
) -> Result<bool, Oom>
    requires { AllByRecursion (Within length) (places (map (λ v. v.items) lists.now)) }
    ensures { IfOk result (λ b. IsTrue b ↔ NoneTwice (places (map (λ v. v.items) lists.now))) }
{
    let marks = vec![in alloc; false; length]?;
    let places = named_places(alloc, lists)?;
    Ok(are_fresh(marks, &places))
}
