//! Which step sent a message.
ghost use Rattle.std.specs.Prelude.{◌≡◌};
ghost use Rattle.journal_core.specs.Holdings.{kepts};
ghost use Rattle.journal_core.specs.Journals.{sender_of, source_of};
ghost use Rattle.node_core.specs.Operations.{plain};
ghost use Rattle.transcript_core.specs.Senders.{is_sent};

use bench_core::{Journal, Kept, Step};
use std::alloc::Allocator;

/// Whether `node` took the step, and the step sends a message.
pub fn is_sent_by<A: Allocator>(kept: &Kept<A>, node: u16) -> bool
    ensures { result ≡ is_sent kept.now node }
{
    kept.node == node && kept.step.sends()
}

/// The number of the remaining step that sent the message of `node` with the number `message`, counted from 1; `None`
/// if there is no such step.
pub fn sender_of<'a, B: Allocator>(journal: &Journal<'a, B>, node: u16, message: u64) -> Option<u64>
    ensures { result ≡ sender_of (kepts journal.now.steps) node message }
{
    if message == 0 {
        return None;
    }
    let mut left = message;
    let mut steps = journal.steps();
    while let Some(kept) = steps.next() {
        if is_sent_by(kept, node) {
            if left == 1 {
                return Some(kept.number);
            }
            left -= 1;
        }
    }
    None
}

/// The number of the remaining step that sent the message which `step` delivers; `None` if `step` delivers none, or no
/// such step remains.
pub fn source_of<'a, B: Allocator, W: Allocator>(
    journal: &Journal<'a, B>,
    step: &Step<W>,
) -> Option<u64>
    ensures { result ≡ source_of (kepts journal.now.steps) (plain step.now) }
{
    match step.delivers() {
        Some((sender, number)) => sender_of(journal, sender, number),
        None => None,
    }
}
