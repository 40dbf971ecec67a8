//! Asks the remaining steps again, of a fresh bench.
ghost use Rattle.std.specs.Prelude.{◌≡◌, IfOk, OnOk};
ghost use Rattle.explain_core.specs.Tracks.{after_step, opened};

use bench_core::{Act, Bench, Fault, Kept, Reply};
use dots_core::Oom;
use std::alloc::Allocator;

/// A new bench with the names and limits of `bench`, on which nothing was asked yet.
pub fn opened<'a, B: Allocator>(bench: &Bench<'a, B>, alloc: &'a B) -> Result<Bench<'a, B>, Oom>
    ensures { IfOk result (λ asked. asked ≡ opened bench.now) }
{
    let names = bench.names().try_copy()?;
    Bench::new(alloc, names, bench.limits())
}

/// Asks the step of the bench `asked`. Refused memory is an error; any other reply is ignored.
#[tactic(auto, unfolding(crate::specs::Tracks::after_step, report_core::specs::ActTexts::after_act))]
pub fn ask<'a, B: Allocator>(asked: &mut Bench<'a, B>, kept: &Kept<&'a B>) -> Result<(), Oom>
    ensures { OnOk result (asked.new ≡ after_step asked.old kept.now) }
{
    let act = Act::Do(kept.step.try_copy()?);
    let reply = asked.act(kept.node, &act);
    // form: drop before exit
    drop(act);
    if reply.same(Reply::Refused(Fault::OutOfMemory)) {
        return Err(Oom);
    }
    Ok(())
}
