//! Whether a race may begin, and whether it can be vouched for by what its workers told.
ghost use Rattle.std.specs.Prelude.{◌≡◌, OnOk, IfOk, IfErr, IfSome, Err, MatchResult, drop, false, length, map, vec_len};
ghost use Rattle.std.specs.List.{list_any};
ghost use Rattle.bench_core.specs.Acts.{calls_of};
ghost use Rattle.bench_core.specs.Benches.{IsMachine};
ghost use Rattle.bench_core.specs.Machine.{config_of};
ghost use Rattle.receipt_core.specs.Agree.{Agrees};
ghost use Rattle.receipt_core.specs.Interleaving.{IsInterleaving, all_told};
ghost use Rattle.receipt_core.specs.Races.{IsLate, IsUnvouched, IsVouched, fault_of_workers, has_room, are_known, is_out_of_memory, met_out_of_memory, refusal_of};
ghost use Rattle.receipt_core.specs.Replies.{AreMachineReplies};

use crate::agreeing::account;
use crate::race_fault::{RaceFault, WorkersFault};
use crate::receipt::{Receipt, Receipts};
use bench_core::laws::replay_law;
use bench_core::{Act, Bench, Fault, History, Limits, Names, Reply};
use std::alloc::Allocator;

/// Whether each line's actor is below `actors`, the number of actors.
fn are_known<A: Allocator>(lines: &[(u16, Act<A>)], actors: u16) -> bool
    ensures { result ≡ are_known actors (calls_of lines.now) }
{
    for (actor, _) in lines {
        if *actor >= actors {
            return false;
        }
    }
    true
}

/// Whether the bench has two free places for each line: one for the call, one for the step.
fn has_room<'a, B: Allocator>(bench: &Bench<'a, B>, lines: &[(u16, Act<&'a B>)]) -> bool
    ensures { result ≡ has_room bench.now (calls_of lines.now) }
{
    // form: hands out what the value keeps
    bench.bench_law();
    let taken = bench.history().len() as u64 + bench.remaining().len() as u64;
    let free = bench.limits().acts() - taken;
    lines.len() as u64 <= free / 2
}

/// Why a race may not begin: `UnknownActor`, or else `NoRoom`; `None` if it may.
pub fn refusal<'a, B: Allocator>(
    bench: &Bench<'a, B>,
    actors: u16,
    lines: &[(u16, Act<&'a B>)],
) -> Option<RaceFault>
    ensures { result ≡ refusal_of bench.now actors (calls_of lines.now) }
{
    if !are_known(lines, actors) {
        return Some(RaceFault::UnknownActor);
    }
    if !has_room(bench, lines) {
        return Some(RaceFault::NoRoom);
    }
    None
}

/// Whether memory was refused to one of these calls.
fn has_out_of_memory<A: Allocator>(receipts: &[Receipt<A>]) -> bool
    ensures { result ≡ list_any (λ r. is_out_of_memory r.reply) receipts.now }
{
    for receipt in receipts {
        if matches!(receipt.reply, Reply::Refused(Fault::OutOfMemory)) {
            return true;
        }
    }
    false
}

/// Whether memory was refused to a call of any actor.
fn met_out_of_memory<A: Allocator>(lists: &[Vec<Receipt<A>, A>]) -> bool
    ensures { result ≡ met_out_of_memory (map (λ v. v.items) lists.now) }
{
    for receipts in lists {
        if has_out_of_memory(receipts) {
            return true;
        }
    }
    false
}

/// A bench's history, names and limits before a race, to be compared with those after it.
#[derive(Drop)]
pub struct Known<'a, B: Allocator> {
    pub history: History<'a, B>,
    pub names: Names<&'a B>,
    pub limits: Limits,
}

/// `Ok` if no call was refused memory, the receipts account for the history (see `agree`), each actor has a list of
/// them, and the bench has its old names and limits. `OutOfMemory` if a call, or this check itself, was refused
/// memory; otherwise `LogsDisagree`.
#[tactic(auto, using(crate::proofs::Interleaving::agrees_interleave, crate::proofs::Replies::agrees_replies))]
fn vouch<'a, B: Allocator>(
    before: &Known<'a, B>,
    bench: &Bench<'a, B>,
    actors: u16,
    lines: &[(u16, Act<&'a B>)],
    receipts: &[Vec<Receipt<&'a B>, &'a B>],
    alloc: &'a B,
) -> Result<(), RaceFault>
    ensures agrees { OnOk result (Agrees before.now.history bench.now.state.history (calls_of lines.now) (map (λ v. v.items) receipts.now)) }
    ensures interleaving { OnOk result (IsInterleaving (drop (length before.now.history) bench.now.state.history)
        (all_told (map (λ v. v.items) receipts.now))) }
    ensures replies { OnOk result (AreMachineReplies (config_of bench.now) bench.now.state.history (map (λ v. v.items) receipts.now)) }
    ensures names { OnOk result (bench.now.names ≡ before.now.names) }
    ensures limits { OnOk result (bench.now.limits ≡ before.now.limits) }
    ensures lists { OnOk result (length receipts.now ≡ actors) }
    ensures machine { OnOk result (IsMachine bench.now) }
    ensures memory { OnOk result (met_out_of_memory (map (λ v. v.items) receipts.now) ≡ false) }
    ensures cause { IfErr result (IsUnvouched (IsVouched before.now.history before.now.names before.now.limits bench.now actors
        (calls_of lines.now) (map (λ v. v.items) receipts.now)) (map (λ v. v.items) receipts.now)) }
    ensures late { IfErr result IsLate }
{
    // form: hands out what the value keeps
    bench.bench_law();
    replay_law();
    if met_out_of_memory(receipts) {
        return Err(RaceFault::OutOfMemory);
    }
    let Ok(agrees) = account(&before.history, bench.history(), lines, receipts, alloc) else {
        return Err(RaceFault::OutOfMemory);
    };
    let is_same = bench.names().same(&before.names) && bench.limits() == before.limits;
    if agrees && is_same && receipts.len() == usize::from(actors) {
        Ok(())
    } else {
        Err(RaceFault::LogsDisagree)
    }
}

/// A copy of the bench's history, names and limits; `None` if a request for memory was refused.
pub fn known_of<'a, B: Allocator>(bench: &Bench<'a, B>) -> Option<Known<'a, B>>
    ensures history { IfSome result (λ known. known.history ≡ bench.now.state.history) }
    ensures names { IfSome result (λ known. known.names ≡ bench.now.names) }
    ensures limits { IfSome result (λ known. known.limits ≡ bench.now.limits) }
{
    let Ok(history) = bench.history().try_copy() else {
        return None;
    };
    let Ok(names) = bench.names().try_copy() else {
        return None;
    };
    Some(Known {
        history,
        names,
        limits: bench.limits(),
    })
}

/// Drops receipts that nobody vouches for.
fn discard<A: Allocator>(receipts: Receipts<A>) {
    // form: a function of its own for this drop before exit
    drop(receipts);
}

/// The receipts in `told`, if the race can be vouched for. A fault in `told` comes first, then `OutOfMemory`, then
/// `LogsDisagree`.
pub fn vouched<'a, B: Allocator>(
    bench: &Bench<'a, B>,
    before: Known<'a, B>,
    actors: u16,
    lines: Vec<(u16, Act<&'a B>), &'a B>,
    told: Result<Receipts<&'a B>, WorkersFault>,
    alloc: &'a B,
) -> Result<Receipts<&'a B>, RaceFault>
    ensures agrees { IfOk result (λ r. Agrees before.entry.history bench.now.state.history (calls_of lines.entry.items) (map (λ v. v.items) r.items)) }
    ensures interleaving { IfOk result (λ r. IsInterleaving (drop (length before.entry.history) bench.now.state.history)
        (all_told (map (λ v. v.items) r.items))) }
    ensures replies { IfOk result (λ r. AreMachineReplies (config_of bench.now) bench.now.state.history (map (λ v. v.items) r.items)) }
    ensures names { OnOk result (bench.now.names ≡ before.entry.names) }
    ensures limits { OnOk result (bench.now.limits ≡ before.entry.limits) }
    ensures lists { IfOk result (λ r. vec_len r ≡ actors) }
    ensures machine { OnOk result (IsMachine bench.now) }
    ensures cause { MatchResult told.entry
        (λ r. IfErr result (IsUnvouched (IsVouched before.entry.history before.entry.names before.entry.limits bench.now actors
        (calls_of lines.entry.items) (map (λ v. v.items) r.items)) (map (λ v. v.items) r.items)))
        (λ fault. result ≡ Err (fault_of_workers fault)) }
    ensures late { IfErr result IsLate }
{
    let receipts = match told {
        Ok(receipts) => receipts,
        Err(fault) => {
            // form: drop before exit
            drop(before);
            drop(lines);
            return Err(fault.of_race());
        }
    };
    let end = vouch(&before, bench, actors, &lines, &receipts, alloc);
    drop(before);
    drop(lines);
    match end {
        Ok(()) => Ok(receipts),
        Err(fault) => {
            discard(receipts);
            Err(fault)
        }
    }
}
