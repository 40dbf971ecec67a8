//! Writes what a step reads before it is taken, and what it sends and makes.
ghost use Rattle.std.specs.Prelude.{◌≡◌, ◌++◌, ◌<◌, ◌≤◌, OnOk, Some, length, option_map, string_bytes};
ghost use Rattle.dots_core.specs.Names.{most_names};
ghost use Rattle.bench_core.specs.Laws.{presence_made};
ghost use Rattle.node_core.specs.Operations.{Broadcast, plain};
ghost use Rattle.page_data.specs.Carried.{message_in};
ghost use Rattle.page_data.specs.PageData.{arrival_keys, carried_keys, delivery_keys, gives_keys, made_head, made_keys, made_text, outbox_keys, reads_keys, sent_keys, word_text};

use crate::arriving::{hops_at, missed_at};
use crate::json::{put_number_if, put_number_key, put_numbers_key, put_string};
use crate::rows::put_own_keys;
use crate::sent::{clocks_standing, names_in};
use bench_core::{Bench, Node, Step};
use diff_core::Diff;
use dots_core::Oom;
use payload_core::{Payload, Word};
use report_core::node;
use std::alloc::Allocator;
use transcript_core::source_of;

/// The message with this number that a node sent; `None` if there is no node or no such message.
fn message_in<'x, 'a, B: Allocator>(
    node: Option<&'x Node<'a, B>>,
    number: u64,
) -> Option<&'x Payload<&'a B>>
    ensures { option_map (λ m. m.now) result ≡ message_in (option_map (λ n. n.now) node.entry) number }
{
    match node {
        Some(node) => node.outbox().get(number),
        None => None,
    }
}

/// Appends what a node misses of a message, as `missed`, and what the message's delivery changes at the node, as
/// `hops`. A key without numbers is left out.
#[tactic(auto, unfolding(crate::specs::PageData::delivery_keys))]
fn put_delivery<'a, B: Allocator>(
    text: &mut String<&'a B>,
    node: Option<&Node<'a, B>>,
    message: Option<&Payload<&'a B>>,
    count: u16,
    alloc: &'a B,
) -> Result<(), Oom>
    requires { count ≤ most_names }
    ensures { OnOk result (string_bytes text.new ≡ string_bytes text.old ++
        delivery_keys (option_map (λ n. n.now) node.entry) (option_map (λ m. m.now) message.entry) count) }
{
    let missed = missed_at(node, message, count, alloc)?;
    let hops = hops_at(node, message, count, alloc)?;
    put_numbers_key(text, "missed", &missed)?;
    put_numbers_key(text, "hops", &hops)
}

/// Appends, if the step is a delivery, what `put_delivery` does for the step's node and message; nothing for another
/// step. `bench` is the bench before the step.
fn put_arrival<'a, B: Allocator>(
    text: &mut String<&'a B>,
    bench: &Bench<'a, B>,
    actor: u16,
    step: &Step<&'a B>,
    alloc: &'a B,
) -> Result<(), Oom>
    ensures { OnOk result (string_bytes text.new ≡ string_bytes text.old ++ arrival_keys bench.now actor (plain step.now)) }
{
    match step {
        Step::Deliver { sender, number } => {
            let count = bench.names().len() as u16;
            let message = message_in(node(bench, *sender), *number);
            put_delivery(text, node(bench, actor), message, count, alloc)
        }
        _ => Ok(()),
    }
}

/// Appends what a step reads before it is taken: `prev`, the number of its node's last remaining step, and `from`, the
/// number of the remaining step that sent the message which the step delivers; each only if there is such a step. For a
/// delivery, what the node misses and what the delivery changes come next. `bench` is the bench before the step;
/// `actor` must be a node.
#[tactic(auto, unfolding(crate::specs::PageData::reads_keys))]
pub fn put_reads<'a, B: Allocator>(
    text: &mut String<&'a B>,
    bench: &Bench<'a, B>,
    actor: u16,
    step: &Step<&'a B>,
    alloc: &'a B,
) -> Result<(), Oom>
    requires { actor < length bench.now.names }
    ensures { OnOk result (string_bytes text.new ≡ string_bytes text.old ++ reads_keys bench.now actor (plain step.now)) }
{
    let prev = bench.remaining().last_of(actor);
    let from = source_of(bench.remaining(), step);
    put_number_if(text, "prev", prev)?;
    put_number_if(text, "from", from)?;
    put_arrival(text, bench, actor, step, alloc)
}

/// Appends the clocks of the dots of `name` in a broadcast's message: as `live` those of dots with entries, as `gone`
/// those of dots without.
fn put_broadcast<'a, B: Allocator>(
    text: &mut String<&'a B>,
    message: &Payload<&'a B>,
    name: u16,
    alloc: &'a B,
) -> Result<(), Oom>
    requires { name < most_names }
    ensures { OnOk result (string_bytes text.new ≡ string_bytes text.old ++ carried_keys Broadcast message.now name 0) }
{
    let live = clocks_standing(message, name, 1, alloc)?;
    let gone = clocks_standing(message, name, 2, alloc)?;
    put_numbers_key(text, "live", &live)?;
    put_numbers_key(text, "gone", &gone)
}

/// Appends what `message`, which `step` sent, carries: for a broadcast the clocks of the dots of `name` in the message,
/// and else the names below `count` of which the message has dots.
fn put_carried<'a, B: Allocator>(
    text: &mut String<&'a B>,
    step: &Step<&'a B>,
    message: &Payload<&'a B>,
    name: u16,
    count: u16,
    alloc: &'a B,
) -> Result<(), Oom>
    requires name { name < most_names }
    requires count { count ≤ most_names }
    ensures { OnOk result (string_bytes text.new ≡ string_bytes text.old ++ carried_keys (plain step.now) message.now name count) }
{
    match step {
        Step::Broadcast => put_broadcast(text, message, name, alloc),
        _ => {
            let names = names_in(message, count, alloc)?;
            put_numbers_key(text, "of", &names)
        }
    }
}

/// Appends the number of the node's last message, which `step` sent, and what the message carries. `name` is the node's
/// own name, and `count` the number of names.
fn put_outbox<'a, B: Allocator>(
    text: &mut String<&'a B>,
    step: &Step<&'a B>,
    node: &Node<'a, B>,
    name: u16,
    count: u16,
    alloc: &'a B,
) -> Result<(), Oom>
    requires name { name < most_names }
    requires count { count ≤ most_names }
    ensures { OnOk result (string_bytes text.new ≡ string_bytes text.old ++ outbox_keys (plain step.now) (Some node.now) name count) }
{
    let outbox = node.outbox();
    let number = outbox.len() as u64;
    put_number_key(text, "sends", number)?;
    match outbox.get(number) {
        Some(message) => put_carried(text, step, message, name, count, alloc),
        None => Ok(()),
    }
}

/// Appends the message that the step sent, by its number and what it carries; nothing if the step doesn't send. `bench`
/// is the bench after the step.
fn put_sent<'a, B: Allocator>(
    text: &mut String<&'a B>,
    bench: &Bench<'a, B>,
    actor: u16,
    step: &Step<&'a B>,
    alloc: &'a B,
) -> Result<(), Oom>
    requires { actor < length bench.now.names }
    ensures { OnOk result (string_bytes text.new ≡ string_bytes text.old ++ sent_keys bench.now actor (plain step.now)) }
{
    if !step.sends() {
        return Ok(());
    }
    let count = bench.names().len() as u16;
    match node(bench, actor) {
        Some(node) => put_outbox(text, step, node, actor, count, alloc),
        None => Ok(()),
    }
}

/// Appends `,"made":[CLOCK,"PID"`.
#[tactic(auto, unfolding(crate::specs::PageData::made_head))]
fn put_made_head<A: Allocator>(text: &mut String<A>, clock: u64, pid: u64) -> Result<(), Oom>
    ensures { OnOk result (string_bytes text.new ≡ string_bytes text.old ++ made_head clock pid) }
{
    Ok(write!(text, ",\"made\":[{clock},\"{pid}\"")?)
}

/// Appends `,"WORD"`.
#[tactic(auto, unfolding(crate::specs::PageData::word_text))]
pub fn put_word<A: Allocator, W: Allocator>(text: &mut String<A>, word: &Word<W>) -> Result<(), Oom>
    ensures { OnOk result (string_bytes text.new ≡ string_bytes text.old ++ word_text word.now) }
{
    text.push_str(",")?;
    put_string(text, word.as_str())
}

/// Appends `,"made":[CLOCK,"PID","TOPIC","KEY","META"]`.
#[tactic(auto, unfolding(crate::specs::PageData::made_text))]
fn put_made_text<A: Allocator, W: Allocator>(
    text: &mut String<A>,
    clock: u64,
    pid: u64,
    topic: &Word<W>,
    key: &Word<W>,
    metadata: &Word<W>,
) -> Result<(), Oom>
    ensures { OnOk result (string_bytes text.new ≡ string_bytes text.old ++
        made_text clock (record { pid = pid; topic = topic.now; key = key.now; metadata = metadata.now })) }
{
    put_made_head(text, clock, pid)?;
    put_word(text, topic)?;
    put_word(text, key)?;
    put_word(text, metadata)?;
    Ok(text.push_str("]")?)
}

/// Appends the presence that a join or an update made; nothing for another step, or if `actor` isn't a node. `bench` is
/// the bench after the step.
fn put_made<'a, B: Allocator>(
    text: &mut String<&'a B>,
    bench: &Bench<'a, B>,
    actor: u16,
    step: &Step<&'a B>,
) -> Result<(), Oom>
    ensures { OnOk result (string_bytes text.new ≡ string_bytes text.old ++ made_keys bench.now actor (presence_made (plain step.now))) }
{
    match step {
        Step::Join {
            pid,
            topic,
            key,
            metadata,
        }
        | Step::Update {
            pid,
            topic,
            key,
            metadata,
        } => match node(bench, actor) {
            Some(node) => {
                let clock = node.replica().last().clock;
                put_made_text(text, clock, *pid, topic, key, metadata)
            }
            None => Ok(()),
        },
        _ => Ok(()),
    }
}

/// Appends what a step gave, after it was taken: what it sent and made, and which of the node's own presences came or
/// went by it. `bench` is the bench after the step; `diff` says how the step changed the online list of its node,
/// `actor`.
#[tactic(auto, unfolding(crate::specs::PageData::gives_keys))]
pub fn put_gives<'a, B: Allocator>(
    text: &mut String<&'a B>,
    bench: &Bench<'a, B>,
    actor: u16,
    step: &Step<&'a B>,
    diff: &Diff<&'a B>,
    alloc: &'a B,
) -> Result<(), Oom>
    requires { actor < length bench.now.names }
    ensures { OnOk result (string_bytes text.new ≡ string_bytes text.old ++
        gives_keys bench.now actor (plain step.now) diff.now.left.items diff.now.joined.items) }
{
    put_sent(text, bench, actor, step, alloc)?;
    put_made(text, bench, actor, step)?;
    put_own_keys(text, step, &diff.left, &diff.joined, alloc)
}
