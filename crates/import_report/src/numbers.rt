//! The numbers of messages in the outboxes of their senders. `numbers` has one for each message of the tables, 0 until
//! the message is sent.
ghost use Rattle.std.specs.Prelude.{◌≡◌, IfOk, option_map};
ghost use Rattle.node_core.specs.Operations.{plain};
ghost use Rattle.report_core.specs.Shown.{node_of};
ghost use Rattle.import_report.specs.Events.{number_at, asked, outbox_length, numbers_after};

use bench_core::{Bench, Reply, Step};
use dots_core::Oom;
use report_core::node;
use std::alloc::Allocator;

/// The number of a message in its sender's outbox; `None` if it wasn't sent.
fn number_at(numbers: &[u64], message: u64) -> Option<u64>
    ensures { result ≡ number_at numbers.now message }
{
    let number = numbers.get(message as usize).copied().unwrap_or(0);
    if number == 0 { None } else { Some(number) }
}

/// The step to ask of the bench: a delivery or an answer gets the number that its message has in the sender's outbox.
/// `None` if the sender didn't send that message on the bench, or if an extract names no node. Other steps are copied.
pub fn asked<A: Allocator + Copy>(step: &Step<A>, numbers: &[u64]) -> Result<Option<Step<A>>, Oom>
    ensures { IfOk result (λ s. option_map plain s ≡ asked numbers.now (plain step.now)) }
{
    match step {
        Step::Extract { names } => {
            // form: `NameSet` has no `is_empty`; all names are below 0 only if there are none
            if names.is_below(0) {
                return Ok(None);
            }
            Ok(Some(Step::Extract { names: *names }))
        }
        Step::Deliver { sender, number } => match number_at(numbers, *number) {
            Some(number) => Ok(Some(Step::Deliver {
                sender: *sender,
                number,
            })),
            None => Ok(None),
        },
        Step::Answer { sender, number } => match number_at(numbers, *number) {
            Some(number) => Ok(Some(Step::Answer {
                sender: *sender,
                number,
            })),
            None => Ok(None),
        },
        _ => Ok(Some(step.try_copy()?)),
    }
}

/// How many messages the outbox of the node with this number has; 0 if there is no such node.
fn outbox_length<'a, B: Allocator>(bench: &Bench<'a, B>, number: u16) -> u64
    ensures { result ≡ outbox_length (node_of bench.now number) }
{
    match node(bench, number) {
        Some(node) => node.outbox().len() as u64,
        None => 0,
    }
}

/// If the reply says that a step was taken, and the step sends the message `sends`, notes in `numbers` the message's
/// number in the node's outbox, where it is the last one.
pub(crate) fn note_sent<'a, B: Allocator>(
    bench: &Bench<'a, B>,
    numbers: &mut [u64],
    node: u16,
    sends: Option<usize>,
    reply: Reply,
)
    ensures { numbers.new ≡ numbers_after bench.now numbers.old node sends reply }
{
    let Reply::Taken(_step) = reply else {
        return;
    };
    let Some(message) = sends else {
        return;
    };
    // form: each message has a number here; the test spares a requirement
    if message < numbers.len() {
        numbers[message] = outbox_length(bench, node);
    }
}
