//! `ask`: makes one call on a borrowed bench, and gives its receipt.
ghost use Rattle.std.specs.Prelude.{◌≡◌};
ghost use Rattle.bench_core.specs.Acts.{plain_act};
ghost use Rattle.bench_core.specs.Machine.{AnswersAs};
ghost use Rattle.receipt_core.specs.Receipts.{IsPlaced};

use crate::receipt::Receipt;
use bench_core::{Act, Bench};
use std::alloc::Allocator;

/// Makes one call on the bench, and gives its receipt. Threads that share a bench borrow it from the guard of their
/// lock.
pub fn ask<'a, B: Allocator>(
    bench: &mut Bench<'a, B>,
    actor: u16,
    line: u64,
    act: Act<&'a B>,
) -> Receipt<&'a B>
    ensures actor { result.actor ≡ actor }
    ensures line { result.line ≡ line }
    ensures act { result.act ≡ plain_act act.entry }
    ensures reply { AnswersAs bench.old actor (plain_act act.entry) result.reply bench.new }
    ensures place { IsPlaced result bench.old.state.history bench.new.state.history }
{
    let before = bench.history().len();
    let reply = bench.act(actor, &act);
    let after = bench.history().len();
    let place = if before < after {
        Some(after as u64)
    } else {
        None
    };
    Receipt {
        actor,
        line,
        act,
        reply,
        place,
    }
}
