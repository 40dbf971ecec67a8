//! Races the act lines of a script.
ghost use Rattle.std.specs.Prelude.{◌≡◌, Ok, Err, IfOk, IfErr};
ghost use Rattle.grammar_core.specs.Scripts.{plain_script};
ghost use Rattle.program_core.specs.Program.{TellsMemory, IsUnwritten, fault_of_race};
ghost use Rattle.program_core.specs.Races.{IsRaceOf, RefusesRaceOf};

use crate::fault::ProgramFault;
use bench_core::{Bench, Limits};
use script_core::{FaultKind, Script, actors, acts, node_names};
use std::alloc::Allocator;
use std::sync::Wait;
use std::thread::Threads;
use worker_core::{Gate, RaceFault, Receipts, race};

/// A gate that does nothing, so no worker waits at it.
struct Idle;

impl Gate for Idle {
    fn before(&self, _actor: u16, _line: u64) {}

    fn after(&self, _actor: u16, _line: u64) {}
}

/// The fault of a race as a fault of the program.
fn fault_of(fault: RaceFault) -> ProgramFault
    ensures { result ≡ fault_of_race fault }
{
    match fault {
        RaceFault::OutOfMemory => ProgramFault::OutOfMemory,
        fault => ProgramFault::Race(fault),
    }
}

/// Drops the receipts of a race that is vouched for.
fn discard<A: Allocator>(receipts: Receipts<A>) {
    // form: drops the value whole
    drop(receipts);
}

/// Gives the bench of a race that is vouched for, and drops the receipts. If the race ended with a fault, gives the
/// fault, and drops the bench.
fn outcome<'a, B: Allocator>(
    raced: Result<(Bench<'a, B>, Receipts<&'a B>), (RaceFault, Bench<'a, B>)>,
) -> Result<Bench<'a, B>, ProgramFault>
    ensures bench { IfOk raced.entry (λ r. result ≡ Ok r.0) }
    ensures fault { IfErr raced.entry (λ e. result ≡ Err (fault_of_race e.0)) }
{
    match raced {
        Ok((bench, receipts)) => {
            discard(receipts);
            Ok(bench)
        }
        Err((fault, bench)) => {
            // form: drop before exit
            bench.discard();
            Err(fault_of(fault))
        }
    }
}

/// The bench that a race of the script's lines leaves. `NotAllowed` if a line isn't an act; if the race ends with a
/// fault, that fault. The lines of different actors may come in any order.
pub fn race_script<'a, B: Allocator + Sync, T: Threads + Wait + Sync>(
    rt: &T,
    alloc: &'a B,
    script: &Script<&'a B>,
    limits: Limits,
) -> Result<Bench<'a, B>, ProgramFault>
    ensures raced { IfOk result (IsRaceOf limits (plain_script script.now)) }
    ensures cause { IfErr result (RefusesRaceOf limits (plain_script script.now)) }
    ensures memory { IfErr result TellsMemory }
    ensures unwritten { IfErr result IsUnwritten }
{
    let lines = match acts(alloc, script) {
        Ok(lines) => lines,
        Err(fault) if fault.kind == FaultKind::OutOfMemory => return Err(ProgramFault::OutOfMemory),
        Err(fault) => return Err(ProgramFault::Script(fault)),
    };
    let Ok(names) = node_names(script).try_copy() else {
        return Err(ProgramFault::OutOfMemory);
    };
    let Ok(bench) = Bench::new(alloc, names, limits) else {
        return Err(ProgramFault::OutOfMemory);
    };
    outcome(race(rt, alloc, bench, actors(script), lines, &Idle))
}
