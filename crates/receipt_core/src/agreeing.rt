//! `agree`: whether the receipts of a race account for the events that the race added to the history.
ghost use Rattle.std.specs.Prelude.{◌≡◌, ◌↔◌, ◌<◌, IsTrue, IfOk, length, take, map};
ghost use Rattle.std.specs.List.{AllByRecursion};
ghost use Rattle.bench_core.specs.Acts.{plain_act, calls_of};
ghost use Rattle.receipt_core.specs.Agree.{IsReceiptOf, AreReceiptsOf, AreAllReceipts, Agrees, lines_of, places};
ghost use Rattle.receipt_core.specs.Marks.{Within};

use crate::places::{named_place, none_twice};
use crate::receipt::Receipt;
use bench_core::{Act, Event, History, Reply};
use dots_core::Oom;
use std::alloc::Allocator;

/// Whether two recorded calls are the same, with the same actor and reply.
fn same_event<A: Allocator>(one: &Event<A>, other: &Event<A>) -> bool
    ensures { IsTrue result ↔ (one.now ≡ other.now) }
{
    one.actor == other.actor && one.act.same(&other.act) && one.reply.same(other.reply)
}

/// Whether the receipt is that of the line `number`, in which `actor` asks `act`. The receipt must also name a place
/// past `last`, and the history `after` must have there the event that the receipt tells of.
fn is_receipt_of<'a, B: Allocator>(
    after: &History<'a, B>,
    last: u64,
    number: u64,
    actor: u16,
    act: &Act<&'a B>,
    receipt: &Receipt<&'a B>,
) -> bool
    ensures { IsTrue result ↔ IsReceiptOf after.now last (record { number = number; actor = actor; act = plain_act act.now }) receipt.now }
{
    let place = named_place(receipt);
    if place <= last {
        return false;
    }
    let Some(event) = after.at((place - 1) as usize) else {
        return false;
    };
    // form: lent again, as `same` has one lifetime for both
    receipt.actor == actor
        && receipt.line == number
        && receipt.act.same(&*act)
        && event.actor == actor
        && event.act.same(&*act)
        && event.reply.same(receipt.reply)
}

/// Whether the list has a receipt for each of the actor's lines and no other, in the order of the lines, at rising
/// places past `start`, and `after` has at each place the event that the receipt tells of.
fn are_receipts_of<'a, B: Allocator>(
    after: &History<'a, B>,
    start: u64,
    lines: &[(u16, Act<&'a B>)],
    actor: usize,
    receipts: &[Receipt<&'a B>],
) -> bool
    ensures { IsTrue result ↔ AreReceiptsOf after.now start (lines_of actor (calls_of lines.now)) receipts.now }
{
    let mut last = start;
    // form: counted by hand, as the proof names both counts
    let mut number = 0u64;
    let mut told = 0;
    for (line_actor, act) in lines {
        number += 1;
        if usize::from(*line_actor) != actor {
            continue;
        }
        let Some(receipt) = receipts.get(told) else {
            return false;
        };
        if !is_receipt_of(after, last, number, *line_actor, act, receipt) {
            return false;
        }
        last = named_place(receipt);
        told += 1;
    }
    told == receipts.len()
}

/// Whether each list of receipts is that of its actor's lines (see `are_receipts_of`). Actors are numbered as the
/// lists, from 0.
fn are_all_receipts<'a, B: Allocator>(
    after: &History<'a, B>,
    start: u64,
    lines: &[(u16, Act<&'a B>)],
    lists: &[Vec<Receipt<&'a B>, &'a B>],
) -> bool
    ensures receipts { IsTrue result ↔ AreAllReceipts after.now start (calls_of lines.now) 0 (map (λ v. v.items) lists.now) }
    ensures within { IsTrue result → AllByRecursion (Within (length after.now)) (places (map (λ v. v.items) lists.now)) }
{
    // form: counted by hand, as the proof names the count
    let mut actor = 0;
    for list in lists {
        if !are_receipts_of(after, start, lines, actor, list) {
            return false;
        }
        actor += 1;
    }
    true
}

/// Whether the history `before` begins the history `after`.
fn begins<'a, B: Allocator>(before: &History<'a, B>, after: &History<'a, B>) -> bool
    ensures { IsTrue result ↔ (take (length before.now) after.now ≡ before.now) }
{
    if after.len() < before.len() {
        return false;
    }
    for i in 0..before.len() {
        let (Some(old), Some(new)) = (before.at(i), after.at(i)) else {
            return false;
        };
        if !same_event(old, new) {
            return false;
        }
    }
    true
}

/// Whether each line's actor has a list of receipts. `lists` is the number of lists, which are those of the actors from
/// 0 on.
fn are_known<A: Allocator>(lines: &[(u16, Act<A>)], lists: usize) -> bool
    ensures { IsTrue result ↔ AllByRecursion (λ l. l.0 < lists) (calls_of lines.now) }
{
    for (actor, _) in lines {
        if usize::from(*actor) >= lists {
            return false;
        }
    }
    true
}

/// Whether the receipts account for the events that were added to the history `before`, as `agree` says.
pub(crate) fn account<'a, B: Allocator>(
    before: &History<'a, B>,
    after: &History<'a, B>,
    lines: &[(u16, Act<&'a B>)],
    receipts: &[Vec<Receipt<&'a B>, &'a B>],
    alloc: &'a B,
) -> Result<bool, Oom>
    ensures { IfOk result (λ b. IsTrue b ↔ Agrees before.now after.now (calls_of lines.now) (map (λ v. v.items) receipts.now)) }
{
    if !are_known(lines, receipts.len())
        || !begins(before, after)
        || after.len() - before.len() != lines.len()
        || !are_all_receipts(after, before.len() as u64, lines, receipts)
    {
        return Ok(false);
    }
    none_twice(alloc, after.len(), receipts)
}

/// Whether the receipts account for the events that were added to the history `before`. They do if `before` begins
/// `after`; `after` has one event more for each line; each line's actor has a list; no place is named twice; and list
/// `i` of the receipts, counted from 0, has one for each line of actor `i` and no other, in order, with that line's
/// actor, number and act. In each list the places must rise, and stand past the end of `before`; and `after` must have
/// at each place the event that the receipt tells of.
pub fn agree<'a, B: Allocator>(
    before: &History<'a, B>,
    alloc: &'a B,
    after: &History<'a, B>,
    lines: &[(u16, Act<&'a B>)],
    receipts: &[Vec<Receipt<&'a B>, &'a B>],
) -> Result<bool, Oom>
    ensures { IfOk result (λ b. IsTrue b ↔ Agrees before.now after.now (calls_of lines.now) (map (λ v. v.items) receipts.now)) }
{
    // form: the same with the usual order of parameters
    account(before, after, lines, receipts, alloc)
}
