//! `race`: asks one bench the lines of several actors, each actor's lines through a worker of its own.
ghost use Rattle.std.specs.Prelude.{◌≡◌, IfOk, IfErr, Err, MatchOption, drop, length, map, vec_len};
ghost use Rattle.bench_core.specs.Acts.{calls_of};
ghost use Rattle.bench_core.specs.Benches.{IsMachine};
ghost use Rattle.bench_core.specs.Machine.{config_of};
ghost use Rattle.receipt_core.specs.Agree.{Agrees};
ghost use Rattle.receipt_core.specs.Interleaving.{IsInterleaving, all_told};
ghost use Rattle.receipt_core.specs.Races.{IsLate, refusal_of};
ghost use Rattle.receipt_core.specs.Replies.{AreMachineReplies};

use crate::gate::Gate;
use crate::workers::ask_all;
use bench_core::{Act, Bench};
use dots_core::Oom;
use receipt_core::{RaceFault, Receipts, WorkersFault, known_of, refusal, vouched};
use std::alloc::Allocator;
use std::sync::{Mutex, Wait};
use std::thread::Threads;

/// Copies of the lines, which the workers take over.
fn copied<A: Allocator + Copy>(
    alloc: A,
    lines: &[(u16, Act<A>)],
) -> Result<Vec<(u16, Act<A>), A>, Oom> {
    let mut copies = Vec::with_capacity(alloc, lines.len())?;
    for (actor, act) in lines {
        copies.push((*actor, act.try_copy()?))?;
    }
    Ok(copies)
}

/// Lets workers ask the bench copies of the lines, and gives the bench back with what the workers tell.
fn asked<'a, B: Allocator + Sync, G: Gate + Sync, R: Threads + Wait + Sync>(
    rt: &R,
    alloc: &'a B,
    bench: Bench<'a, B>,
    actors: u16,
    lines: &[(u16, Act<&'a B>)],
    gate: &G,
) -> (Bench<'a, B>, Result<Receipts<&'a B>, WorkersFault>) {
    let Ok(copies) = copied(alloc, lines) else {
        return (bench, Err(WorkersFault::OutOfMemory));
    };
    let shared = Mutex::new(bench);
    let told = ask_all(rt, alloc, &shared, actors, copies, gate);
    (shared.into_inner(), told)
}

/// Asks the bench the lines, those of each actor in their order and on a thread of their own, and compares what the
/// workers tell with the history. Actors are numbered from 0, and lines from 1. Even with a fault `race` gives the
/// bench back. `UnknownActor`, or else `NoRoom`, comes before anything is done, and the bench is unchanged; with
/// `WorkerRefused` no line was asked; `OutOfMemory` may come before the workers start or after; `LogsDisagree` comes
/// last. All that is promised holds if `race` returns.
pub fn race<'a, B: Allocator + Sync, G: Gate + Sync, R: Threads + Wait + Sync>(
    rt: &R,
    alloc: &'a B,
    bench: Bench<'a, B>,
    actors: u16,
    lines: Vec<(u16, Act<&'a B>), &'a B>,
    gate: &G,
) -> Result<(Bench<'a, B>, Receipts<&'a B>), (RaceFault, Bench<'a, B>)>
    ensures agrees { IfOk result (λ r. Agrees bench.entry.state.history r.0.state.history (calls_of lines.entry.items) (map (λ v. v.items) r.1.items)) }
    ensures interleaving { IfOk result (λ r. IsInterleaving (drop (length bench.entry.state.history) r.0.state.history)
        (all_told (map (λ v. v.items) r.1.items))) }
    ensures replies { IfOk result (λ r. AreMachineReplies (config_of r.0) r.0.state.history (map (λ v. v.items) r.1.items)) }
    ensures names { IfOk result (λ r. r.0.names ≡ bench.entry.names) }
    ensures limits { IfOk result (λ r. r.0.limits ≡ bench.entry.limits) }
    ensures lists { IfOk result (λ r. vec_len r.1 ≡ actors) }
    ensures machine { IfOk result (λ r. IsMachine r.0) }
    ensures refused { MatchOption (refusal_of bench.entry actors (calls_of lines.entry.items)) (IfErr result (λ e. IsLate e.0))
        (λ fault. result ≡ Err (fault, bench.entry)) }
{
    if let Some(fault) = refusal(&bench, actors, &lines) {
        // form: drop before exit
        drop(lines);
        return Err((fault, bench));
    }
    let Some(before) = known_of(&bench) else {
        drop(lines);
        return Err((RaceFault::OutOfMemory, bench));
    };
    let (bench, told) = asked(rt, alloc, bench, actors, &lines, gate);
    match vouched(&bench, before, actors, lines, told, alloc) {
        Ok(receipts) => Ok((bench, receipts)),
        Err(fault) => Err((fault, bench)),
    }
}
