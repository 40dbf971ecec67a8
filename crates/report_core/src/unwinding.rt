//! Prints the future of a step, and undoes a step with all of its future.
ghost use Rattle.std.specs.Prelude.{◌≡◌, ◌++◌, List, OnOk, string_bytes, false};
ghost use Rattle.bench_core.specs.declared.reply.Reply.TheVariants.{Refused};
ghost use Rattle.bench_core.specs.Machine.{Machine};
ghost use Rattle.bench_core.specs.Unwinds.{CanBeUndone};
ghost use Rattle.diff_core.specs.NetChanges.{ComesTo};
ghost use Rattle.diff_core.specs.Online.{AreInOrder};
ghost use Rattle.diff_core.specs.Rows.{Row};
ghost use Rattle.report_core.specs.Rows.{at_text, reply_line};
ghost use Rattle.report_core.specs.Shown.{rows_at};
ghost use Rattle.report_core.specs.MovedRows.{AreMoved};
ghost use Rattle.report_core.specs.ActTexts.{is_out_of_memory, why_text, changes_text, after_unwind, unwind_text, IsItsFuture};

use crate::moved::{Moved, undo_each};
use crate::rows::{put_change, put_future, put_reply, put_undone};
use bench_core::{Bench, Fault, Reply};
use diff_core::laws::online_law;
use dots_core::Oom;
use std::alloc::Allocator;

/// Whether the fault is `OutOfMemory`, which no report shows.
pub fn is_out_of_memory(fault: Fault) -> bool
    ensures { result ≡ is_out_of_memory fault }
{
    matches!(fault, Fault::OutOfMemory)
}

/// Appends the refusal of an unwind or of `why`. `OutOfMemory` is an error instead.
fn put_refusal<'a, B: Allocator>(text: &mut String<&'a B>, fault: Fault) -> Result<(), Oom>
    ensures told { OnOk result (string_bytes text.new ≡ string_bytes text.old ++ reply_line (Refused fault)) }
    ensures want { OnOk result (is_out_of_memory fault ≡ false) }
{
    if is_out_of_memory(fault) {
        return Err(Oom);
    }
    put_reply(text, Reply::Refused(fault))
}

/// Appends the line `future N ..` of a step, or the refusal if the step doesn't remain.
#[tactic(auto, unfolding(crate::specs::ActTexts::why_text))]
pub fn why<'a, B: Allocator>(
    text: &mut String<&'a B>,
    bench: &Bench<'a, B>,
    number: u64,
) -> Result<(), Oom>
    ensures { OnOk result (string_bytes text.new ≡ string_bytes text.old ++ why_text bench.now number) }
{
    match bench.why(number) {
        Ok(numbers) => put_future(text, &numbers),
        Err(fault) => put_refusal(text, fault),
    }
}

/// Appends `at NODE` and how the node's list changed in the undos that `moved` tells of; nothing if it didn't change.
fn put_change_at<'a, B: Allocator>(
    text: &mut String<&'a B>,
    bench: &Bench<'a, B>,
    node: u16,
    moved: &Moved<'a, B>,
    alloc: &'a B,
) -> Result<(), Oom>
    ensures { OnOk result ((before : List Row) → AreInOrder before → ComesTo before (rows_at bench.now node) moved.now.left moved.now.joined →
        string_bytes text.new ≡ string_bytes text.old ++ at_text bench.now.names node before (rows_at bench.now node)) }
{
    // form: hands out what the proof cites
    online_law();
    let change = moved.net(alloc)?;
    put_change(text, bench.names(), node, &change)
}

/// Appends `at NODE` and how the node's online list changed, for each node whose list did change. `moved` has, for each
/// node, the rows that left and joined its list in the undos.
fn put_changes<'a, B: Allocator>(
    text: &mut String<&'a B>,
    bench: &Bench<'a, B>,
    moved: &[Moved<'a, B>],
    alloc: &'a B,
) -> Result<(), Oom>
    ensures { OnOk result ((start : Machine) → AreMoved start bench.now moved.now →
        string_bytes text.new ≡ string_bytes text.old ++ changes_text start bench.now) }
{
    // form: hands out what the proof cites
    online_law();
    for node in 0..bench.names().len() as u16 {
        if let Some(moved) = moved.get(node as usize) {
            put_change_at(text, bench, node, moved, alloc)?;
        }
    }
    Ok(())
}

/// Undoes the steps `numbers`, which are the future of step `number`, and appends their numbers and how the online
/// lists changed.
fn unwind_all<'a, B: Allocator>(
    text: &mut String<&'a B>,
    bench: &mut Bench<'a, B>,
    actor: u16,
    number: u64,
    numbers: &[u64],
    alloc: &'a B,
) -> Result<(), Oom>
    requires future { IsItsFuture bench.old number numbers.now }
    requires made { CanBeUndone bench.old numbers.now }
    ensures bench { OnOk result (bench.new ≡ after_unwind bench.old actor number) }
    ensures text { OnOk result (string_bytes text.new ≡ string_bytes text.old ++ unwind_text bench.old actor number) }
{
    // form: the parameter `number` is for the contract alone
    let moved = undo_each(bench, actor, numbers, alloc)?;
    put_undone(text, numbers)?;
    put_changes(text, bench, &moved, alloc)
}

/// Undoes a step with all that follows from it, and appends which steps these were and how the online lists changed; or
/// appends why that is refused.
fn put_unwind<'a, B: Allocator>(
    text: &mut String<&'a B>,
    bench: &mut Bench<'a, B>,
    actor: u16,
    number: u64,
    alloc: &'a B,
) -> Result<(), Oom>
    ensures bench { OnOk result (bench.new ≡ after_unwind bench.old actor number) }
    ensures text { OnOk result (string_bytes text.new ≡ string_bytes text.old ++ unwind_text bench.old actor number) }
{
    match bench.why(number) {
        Ok(numbers) => unwind_all(text, bench, actor, number, &numbers, alloc),
        Err(fault) => put_refusal(text, fault),
    }
}

/// Undoes a step with all that follows from it, and appends which steps these were and how the online lists changed; or
/// appends why that is refused.
pub fn unwind<'a, B: Allocator>(
    text: &mut String<&'a B>,
    alloc: &'a B,
    bench: &mut Bench<'a, B>,
    actor: u16,
    number: u64,
) -> Result<(), Oom>
    ensures bench { OnOk result (bench.new ≡ after_unwind bench.old actor number) }
    ensures text { OnOk result (string_bytes text.new ≡ string_bytes text.old ++ unwind_text bench.old actor number) }
{
    // form: only moves the allocator, which comes last inside
    put_unwind(text, bench, actor, number, alloc)
}
