//! What a node has sent: its messages, which steps sent them, and which entries they have.
ghost use Rattle.std.specs.Prelude.{◌≡◌, ◌++◌, ◌∷◌, [], IfNone, IfSome, OnOk, codes, length, string_bytes};
ghost use Rattle.journal_core.specs.Holdings.{kepts};
ghost use Rattle.journal_core.specs.Journals.{sent_by};
ghost use Rattle.payload_core.specs.EntryLists.{pair_of};
ghost use Rattle.diff_core.specs.Rows.{row_of};
ghost use Rattle.report_core.specs.Rows.{row_line, row_lines};
ghost use Rattle.prompt_core.specs.Sent.{message_line, message_text, messages_text, rows_of, sent_line, sent_text};

use bench_core::{Bench, Journal, Kept, Names, Node};
use dots_core::Oom;
use journal_core::Steps;
use payload_core::{Entry, EntrySet, Payload};
use report_core::{name_at, node, put_act};
use std::alloc::Allocator;
use transcript_core::is_sent_by;

/// Moves `steps` past the next send of `node`, and gives that step; `None` if no such send is left.
fn next_sent<'x, 'a, B: Allocator>(
    steps: &mut Steps<'x, 'a, B>,
    node: u16,
) -> Option<&'x Kept<&'a B>>
    ensures some { IfSome result (λ kept. sent_by steps.old node ≡ kept.now ∷ sent_by steps.new node) }
    ensures none { IfNone result (sent_by steps.old node ≡ []) }
{
    while let Some(kept) = steps.next() {
        if is_sent_by(kept, node) {
            return Some(kept);
        }
    }
    None
}

/// Appends the row of an entry as a line `= TOPIC KEY NODE/PID META`.
#[tactic(auto, unfolding(report_core::specs::Rows::row_text))]
fn put_entry<A: Allocator, N: Allocator, W: Allocator>(
    text: &mut String<A>,
    names: &Names<N>,
    entry: &Entry<W>,
) -> Result<(), Oom>
    ensures { OnOk result (string_bytes text.new ≡ string_bytes text.old ++ row_line (codes "= ") names.now (row_of (pair_of entry.now))) }
{
    let topic = entry.topic().as_str();
    let key = entry.key().as_str();
    let node = name_at(names, entry.dot.name);
    let pid = entry.pid;
    let metadata = entry.metadata().as_str();
    text.push_str("= ")?;
    // form: split in two for the proof
    write!(text, "{topic} {key} ")?;
    Ok(writeln!(text, "{node}/{pid} {metadata}")?)
}

/// Appends the row of each entry, by rising dot (see `put_entry`).
fn put_entries<'a, A: Allocator, B: Allocator, N: Allocator>(
    entries: &EntrySet<&'a B>,
    text: &mut String<A>,
    names: &Names<N>,
) -> Result<(), Oom>
    ensures { OnOk result (string_bytes text.new ≡ string_bytes text.old ++ row_lines (codes "= ") names.now (rows_of entries.now.map)) }
{
    let mut walk = entries.walk();
    while let Some(entry) = walk.next() {
        put_entry(text, names, entry)?;
    }
    Ok(())
}

/// Appends a line `message NUMBER by STEP NODE VERB ..`, with the step that sent the message.
#[tactic(auto, unfolding(crate::specs::Sent::message_line))]
fn put_message_line<A: Allocator, N: Allocator, W: Allocator>(
    text: &mut String<A>,
    names: &Names<N>,
    number: u64,
    kept: &Kept<W>,
) -> Result<(), Oom>
    ensures { OnOk result (string_bytes text.new ≡ string_bytes text.old ++ message_line names.now number kept.now) }
{
    let step = kept.number;
    write!(text, "message {number} by {step} ")?;
    put_act(text, names, kept.node, &kept.step)?;
    Ok(text.push_str("\n")?)
}

/// Appends a line for a message and the step that sent it, and the rows of the message's entries.
fn put_message<'a, A: Allocator, B: Allocator, N: Allocator>(
    kept: &Kept<&'a B>,
    text: &mut String<A>,
    names: &Names<N>,
    number: u64,
    message: &Payload<&'a B>,
) -> Result<(), Oom>
    ensures { OnOk result (string_bytes text.new ≡ string_bytes text.old ++ message_text names.now number kept.now message.now) }
{
    put_message_line(text, names, number, kept)?;
    put_entries(message.entries(), text, names)
}

/// Appends all messages of the node `found`, whose number is `node`, each with the step that sent it (see
/// `put_message`).
fn put_messages<'a, A: Allocator, B: Allocator, N: Allocator>(
    journal: &Journal<'a, B>,
    text: &mut String<A>,
    names: &Names<N>,
    found: &Node<'a, B>,
    node: u16,
) -> Result<(), Oom>
    ensures { OnOk result (string_bytes text.new ≡ string_bytes text.old ++ messages_text names.now 1 found.now.outbox
        (sent_by (kepts journal.now.steps) node)) }
{
    let outbox = found.outbox();
    let mut steps = journal.steps();
    for place in 0..outbox.len() {
        let number = place as u64 + 1;
        // messages are numbered from 1 to the length of the outbox
        let Some(message) = outbox.get(number) else {
            unreachable!()
        };
        // form: each message has a step here; the test spares a requirement
        let Some(kept) = next_sent(&mut steps, node) else {
            return Ok(());
        };
        put_message(kept, text, names, number, message)?;
    }
    Ok(())
}

/// Appends `sent NODE COUNT` and a line feed.
#[tactic(auto, unfolding(crate::specs::Sent::sent_line))]
fn put_sent_line<A: Allocator, N: Allocator>(
    text: &mut String<A>,
    names: &Names<N>,
    node: u16,
    count: usize,
) -> Result<(), Oom>
    ensures { OnOk result (string_bytes text.new ≡ string_bytes text.old ++ sent_line names.now node count) }
{
    let node = name_at(names, node);
    Ok(writeln!(text, "sent {node} {count}")?)
}

/// Appends `sent NODE COUNT`, and then all messages of the node `found`, whose number is `node`.
fn put_all<'a, A: Allocator, B: Allocator, N: Allocator>(
    journal: &Journal<'a, B>,
    text: &mut String<A>,
    names: &Names<N>,
    found: &Node<'a, B>,
    node: u16,
) -> Result<(), Oom>
    ensures { OnOk result (string_bytes text.new ≡ string_bytes text.old ++ (sent_line names.now node (length found.now.outbox)
        ++ messages_text names.now 1 found.now.outbox (sent_by (kepts journal.now.steps) node))) }
{
    put_sent_line(text, names, node, found.outbox().len())?;
    put_messages(journal, text, names, found, node)
}

/// Appends `sent NODE COUNT`, and then all messages of the node with this number; the count is 0 if there is no such
/// node.
#[tactic(auto, unfolding(crate::specs::Sent::sent_text))]
pub fn put_sent<'a, A: Allocator, B: Allocator>(
    bench: &Bench<'a, B>,
    text: &mut String<A>,
    number: u16,
) -> Result<(), Oom>
    ensures { OnOk result (string_bytes text.new ≡ string_bytes text.old ++ sent_text bench.now number) }
{
    let names = bench.names();
    match node(bench, number) {
        Some(found) => put_all(bench.remaining(), text, names, found, number),
        None => put_sent_line(text, names, number, 0),
    }
}
