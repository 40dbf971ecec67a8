//! The step that stands for an event. In the tables, new nodes, processes and messages, and new values whose words must
//! be cut, get numbers.
ghost use Rattle.std.specs.Prelude.{◌≡◌, ◌∷◌, [], ℕ, Err, IfOk, IfSome, OnOk, is_some, not};
ghost use Rattle.std.specs.FinSet as set;
ghost use Rattle.serde_json.specs.View.{view, items_view};
ghost use Rattle.node_core.specs.Operations.{plain, Answer};
ghost use Rattle.log_core.specs.Events.{join, update, leave, deliver};
ghost use Rattle.log_core.specs.Views.{tracked as shown_tracked, event as shown_event};
ghost use Rattle.import_core.specs.Tables.{Keeps, all_of, IsNodeOf, IsMessageOf};
ghost use Rattle.import_core.specs.Steps.{IsPresenceOf, IsStepOf, IsSentOf, AreNodesOf, presence_of, is_own, is_message, is_status, is_online};
ghost use Rattle.import_core.specs.Seen.{HasTooMany, SeesNodes, message_names, names_among, status_names, step_names};
ghost use Rattle.import_core.specs.Sights.{SeesValues, own_pids, own_words, tracked_words};

use crate::note_fault::NoteFault;
use crate::tables::Tables;
use bench_core::Step;
use dots_core::{NameSet, Oom};
use log_core::{LogEvent, Tracked};
use payload_core::Word;
use serde_json::Value;
use std::alloc::{Allocator, Global};

/// What a join, an update or a listed row says of a process.
#[derive(Drop)]
pub(crate) struct Presence<A: Allocator> {
    pub pid: u64,
    pub topic: Word<A>,
    pub key: Word<A>,
    pub metadata: Word<A>,
}

/// The number of the process, and the words of a presence. In the tables, a process that is new, and a new value whose
/// word must be cut, get numbers.
pub(crate) fn presence_for<A: Allocator + Copy>(
    heap: Global,
    alloc: A,
    tables: &mut Tables<A>,
    tracked: &Tracked<'_>,
) -> Result<Presence<A>, Oom>
    ensures presence { IfOk result (λ p. IsPresenceOf (all_of tables.new) (shown_tracked tracked.now) (presence_of p)) }
    ensures same_nodes { tables.new.nodes ≡ tables.old.nodes }
    ensures extends { Keeps (all_of tables.old) (all_of tables.new) }
    ensures values { OnOk result (SeesValues (all_of tables.old) (all_of tables.new)
        ((shown_tracked tracked.now).pid ∷ []) (tracked_words (shown_tracked tracked.now))) }
{
    let pid = tables.pid(heap, tracked.pid)?;
    let topic = tables.word(heap, alloc, tracked.topic)?;
    let key = tables.word(heap, alloc, tracked.key)?;
    let metadata = tables.word(heap, alloc, tracked.meta)?;
    Ok(Presence {
        pid,
        topic,
        key,
        metadata,
    })
}

/// The step that stands for a leave. The tables change as in `presence_for`.
fn leave_for<A: Allocator + Copy>(
    heap: Global,
    alloc: A,
    tables: &mut Tables<A>,
    pid: &Value,
    topic: &Value,
    key: &Value,
) -> Result<Step<A>, Oom>
    ensures step { IfOk result (λ s. IsStepOf (all_of tables.new) (leave (view pid.now) (view topic.now) (view key.now)) (plain s)) }
    ensures same_nodes { tables.new.nodes ≡ tables.old.nodes }
    ensures extends { Keeps (all_of tables.old) (all_of tables.new) }
    ensures values { OnOk result (SeesValues (all_of tables.old) (all_of tables.new)
        (view pid.now ∷ []) (view topic.now ∷ view key.now ∷ [])) }
{
    let pid = tables.pid(heap, pid)?;
    let topic = tables.word(heap, alloc, topic)?;
    let key = tables.word(heap, alloc, key)?;
    Ok(Step::Leave { pid, topic, key })
}

/// The number of the node called `from`, and the number, in the tables, of its message. A new node or message gets the
/// next number.
fn taken_from<A: Allocator + Copy>(
    heap: Global,
    tables: &mut Tables<A>,
    from: &str,
    message: &Value,
) -> Result<(u16, u64), NoteFault>
    ensures sender { IfOk result (λ m. IsNodeOf (all_of tables.new) from.now m.0) }
    ensures message { IfOk result (λ m. IsMessageOf (all_of tables.new) m.0 (view message.now) m.1) }
    ensures seen { OnOk result (SeesNodes (all_of tables.old) (all_of tables.new) (from.now ∷ [])) }
    ensures extends { Keeps (all_of tables.old) (all_of tables.new) }
    ensures values { OnOk result (SeesValues (all_of tables.old) (all_of tables.new) [] []) }
    ensures many { result ≡ Err NoteFault.TooManyNodes → HasTooMany (all_of tables.old) (from.now ∷ []) }
{
    let sender = tables.node(from)?;
    let message = tables.message(heap, sender, message)?;
    Ok((sender, message as u64))
}

/// The nodes with these names. A new node gets the next number. Passes over values that aren't texts; an event has none
/// of these.
fn nodes_for<A: Allocator + Copy>(
    tables: &mut Tables<A>,
    names: &[Value],
) -> Result<NameSet, NoteFault>
    ensures nodes { IfOk result (λ nodes. AreNodesOf (all_of tables.new) set.empty (items_view names.now) nodes) }
    ensures seen { OnOk result (SeesNodes (all_of tables.old) (all_of tables.new) (names_among (items_view names.now))) }
    ensures extends { Keeps (all_of tables.old) (all_of tables.new) }
    ensures values { OnOk result (SeesValues (all_of tables.old) (all_of tables.new) [] []) }
    ensures many { result ≡ Err NoteFault.TooManyNodes → HasTooMany (all_of tables.old) (names_among (items_view names.now)) }
{
    let mut nodes = NameSet::empty();
    for value in names {
        if let Some(name) = value.as_str() {
            nodes = nodes.with(tables.node(name)?);
        }
    }
    Ok(nodes)
}

/// The step that stands for a join. The tables change as in `presence_for`.
fn join_for<A: Allocator + Copy>(
    heap: Global,
    alloc: A,
    tables: &mut Tables<A>,
    tracked: &Tracked<'_>,
) -> Result<Step<A>, Oom>
    ensures step { IfOk result (λ s. IsStepOf (all_of tables.new) (join (shown_tracked tracked.now)) (plain s)) }
    ensures same_nodes { tables.new.nodes ≡ tables.old.nodes }
    ensures extends { Keeps (all_of tables.old) (all_of tables.new) }
    ensures values { OnOk result (SeesValues (all_of tables.old) (all_of tables.new)
        ((shown_tracked tracked.now).pid ∷ []) (tracked_words (shown_tracked tracked.now))) }
{
    let p = presence_for(heap, alloc, tables, tracked)?;
    Ok(Step::Join {
        pid: p.pid,
        topic: p.topic,
        key: p.key,
        metadata: p.metadata,
    })
}

/// The step that stands for an update. The tables change as in `presence_for`.
fn update_for<A: Allocator + Copy>(
    heap: Global,
    alloc: A,
    tables: &mut Tables<A>,
    tracked: &Tracked<'_>,
) -> Result<Step<A>, Oom>
    ensures step { IfOk result (λ s. IsStepOf (all_of tables.new) (update (shown_tracked tracked.now)) (plain s)) }
    ensures same_nodes { tables.new.nodes ≡ tables.old.nodes }
    ensures extends { Keeps (all_of tables.old) (all_of tables.new) }
    ensures values { OnOk result (SeesValues (all_of tables.old) (all_of tables.new)
        ((shown_tracked tracked.now).pid ∷ []) (tracked_words (shown_tracked tracked.now))) }
{
    let p = presence_for(heap, alloc, tables, tracked)?;
    Ok(Step::Update {
        pid: p.pid,
        topic: p.topic,
        key: p.key,
        metadata: p.metadata,
    })
}

/// The step that stands for a join, an update, a leave or a leave all; `None` for other events.
fn own_step_for<A: Allocator + Copy>(
    heap: Global,
    alloc: A,
    tables: &mut Tables<A>,
    event: &LogEvent<'_>,
) -> Result<Option<Step<A>>, Oom>
    ensures step { IfOk result (λ s. IfSome s (λ s. IsStepOf (all_of tables.new) (shown_event event.now) (plain s))) }
    ensures some { IfOk result (λ s. is_some s ≡ is_own (shown_event event.now)) }
    ensures same_nodes { tables.new.nodes ≡ tables.old.nodes }
    ensures extends { Keeps (all_of tables.old) (all_of tables.new) }
    ensures values { OnOk result (SeesValues (all_of tables.old) (all_of tables.new)
        (own_pids (shown_event event.now)) (own_words (shown_event event.now))) }
{
    match event {
        LogEvent::Join(tracked) => Ok(Some(join_for(heap, alloc, tables, tracked)?)),
        LogEvent::Update(tracked) => Ok(Some(update_for(heap, alloc, tables, tracked)?)),
        LogEvent::Leave { pid, topic, key } => {
            Ok(Some(leave_for(heap, alloc, tables, pid, topic, key)?))
        }
        LogEvent::LeaveAll(pid) => Ok(Some(Step::LeaveAll {
            pid: tables.pid(heap, pid)?,
        })),
        _ => Ok(None),
    }
}

/// The step that stands for an answer, with the message's number in the tables, which change as in `taken_from`.
fn answer_for<A: Allocator + Copy>(
    heap: Global,
    tables: &mut Tables<A>,
    from: &str,
    message: &Value,
) -> Result<Step<A>, NoteFault>
    ensures step { IfOk result (λ s. (n : ℕ) × (k : ℕ) × (plain s ≡ Answer n k) × IsNodeOf (all_of tables.new) from.now n
        × IsMessageOf (all_of tables.new) n (view message.now) k) }
    ensures seen { OnOk result (SeesNodes (all_of tables.old) (all_of tables.new) (from.now ∷ [])) }
    ensures extends { Keeps (all_of tables.old) (all_of tables.new) }
    ensures values { OnOk result (SeesValues (all_of tables.old) (all_of tables.new) [] []) }
    ensures many { result ≡ Err NoteFault.TooManyNodes → HasTooMany (all_of tables.old) (from.now ∷ []) }
{
    let (sender, number) = taken_from(heap, tables, from, message)?;
    Ok(Step::Answer { sender, number })
}

/// The step that stands for a delivery, with the message's number in the tables, which change as in `taken_from`.
fn deliver_for<A: Allocator + Copy>(
    heap: Global,
    tables: &mut Tables<A>,
    from: &str,
    message: &Value,
) -> Result<Step<A>, NoteFault>
    ensures step { IfOk result (λ s. IsStepOf (all_of tables.new) (deliver from.now (view message.now)) (plain s)) }
    ensures seen { OnOk result (SeesNodes (all_of tables.old) (all_of tables.new) (from.now ∷ [])) }
    ensures extends { Keeps (all_of tables.old) (all_of tables.new) }
    ensures values { OnOk result (SeesValues (all_of tables.old) (all_of tables.new) [] []) }
    ensures many { result ≡ Err NoteFault.TooManyNodes → HasTooMany (all_of tables.old) (from.now ∷ []) }
{
    let (sender, number) = taken_from(heap, tables, from, message)?;
    Ok(Step::Deliver { sender, number })
}

/// The step that stands for an event that sends or takes a message; `None` for other events.
fn message_step_for<A: Allocator + Copy>(
    heap: Global,
    tables: &mut Tables<A>,
    event: &LogEvent<'_>,
) -> Result<Option<Step<A>>, NoteFault>
    ensures step { IfOk result (λ s. IfSome s (λ s. IsStepOf (all_of tables.new) (shown_event event.now) (plain s))) }
    ensures some { IfOk result (λ s. is_some s ≡ is_message (shown_event event.now)) }
    ensures seen { OnOk result (SeesNodes (all_of tables.old) (all_of tables.new) (message_names (shown_event event.now))) }
    ensures extends { Keeps (all_of tables.old) (all_of tables.new) }
    ensures values { OnOk result (SeesValues (all_of tables.old) (all_of tables.new) [] []) }
    ensures many { result ≡ Err NoteFault.TooManyNodes → HasTooMany (all_of tables.old) (message_names (shown_event event.now)) }
{
    match event {
        LogEvent::Broadcast(_) => Ok(Some(Step::Broadcast)),
        LogEvent::Request(_) => Ok(Some(Step::Request)),
        LogEvent::Extract { names, .. } => Ok(Some(Step::Extract {
            names: nodes_for(tables, names)?,
        })),
        LogEvent::Deliver { from, message } => {
            Ok(Some(deliver_for(heap, tables, from, message)?))
        }
        LogEvent::Answer { from, message, .. } => {
            Ok(Some(answer_for(heap, tables, from, message)?))
        }
        _ => Ok(None),
    }
}

/// The step that stands for an up, a down or a permanently down; `None` for other events.
fn status_for<A: Allocator + Copy>(
    tables: &mut Tables<A>,
    event: &LogEvent<'_>,
) -> Result<Option<Step<A>>, NoteFault>
    ensures step { IfOk result (λ s. IfSome s (λ s. IsStepOf (all_of tables.new) (shown_event event.now) (plain s))) }
    ensures some { IfOk result (λ s. is_some s ≡ is_status (shown_event event.now)) }
    ensures seen { OnOk result (SeesNodes (all_of tables.old) (all_of tables.new) (status_names (shown_event event.now))) }
    ensures extends { Keeps (all_of tables.old) (all_of tables.new) }
    ensures values { OnOk result (SeesValues (all_of tables.old) (all_of tables.new) [] []) }
    ensures many { result ≡ Err NoteFault.TooManyNodes → HasTooMany (all_of tables.old) (status_names (shown_event event.now)) }
{
    match event {
        LogEvent::Up(name) => Ok(Some(Step::Up {
            name: tables.node(name)?,
        })),
        LogEvent::Down(name) => Ok(Some(Step::Down {
            name: tables.node(name)?,
        })),
        LogEvent::Permdown(name) => Ok(Some(Step::Permdown {
            name: tables.node(name)?,
        })),
        _ => Ok(None),
    }
}

/// The step that stands for an event; `None` for an event that lists rows. New nodes and processes get numbers in the
/// tables, and so do a new message that the event delivers and new values whose words must be cut.
pub(crate) fn step_for<A: Allocator + Copy>(
    heap: Global,
    alloc: A,
    tables: &mut Tables<A>,
    event: &LogEvent<'_>,
) -> Result<Option<Step<A>>, NoteFault>
    ensures step { IfOk result (λ s. IfSome s (λ s. IsStepOf (all_of tables.new) (shown_event event.now) (plain s))) }
    ensures some { IfOk result (λ s. is_some s ≡ not (is_online (shown_event event.now))) }
    ensures seen { OnOk result (SeesNodes (all_of tables.old) (all_of tables.new) (step_names (shown_event event.now))) }
    ensures extends { Keeps (all_of tables.old) (all_of tables.new) }
    ensures values { OnOk result (SeesValues (all_of tables.old) (all_of tables.new)
        (own_pids (shown_event event.now)) (own_words (shown_event event.now))) }
    ensures many { result ≡ Err NoteFault.TooManyNodes → HasTooMany (all_of tables.old) (step_names (shown_event event.now)) }
{
    match event {
        LogEvent::Join(_) | LogEvent::Update(_) | LogEvent::Leave { .. } | LogEvent::LeaveAll(_) =>
            Ok(own_step_for(heap, alloc, tables, event)?),
        LogEvent::Up(_) | LogEvent::Down(_) | LogEvent::Permdown(_) => status_for(tables, event),
        LogEvent::Online(_) => Ok(None),
        _ => message_step_for(heap, tables, event),
    }
}

/// The number, in the tables, of the message that the event sends; `None` if it sends none. A new message gets the next
/// number. `node` is the event's node, which is the sender.
pub(crate) fn sent_by<A: Allocator + Copy>(
    heap: Global,
    tables: &mut Tables<A>,
    node: u16,
    event: &LogEvent<'_>,
) -> Result<Option<usize>, Oom>
    ensures sends { IfOk result (λ sends. IsSentOf (all_of tables.new) node (shown_event event.now) sends) }
    ensures same_nodes { tables.new.nodes ≡ tables.old.nodes }
    ensures extends { Keeps (all_of tables.old) (all_of tables.new) }
    ensures values { OnOk result (SeesValues (all_of tables.old) (all_of tables.new) [] []) }
{
    // form: each arm is a case of the proof
    match event {
        LogEvent::Broadcast(message) => Ok(Some(tables.message(heap, node, message)?)),
        LogEvent::Request(message) => Ok(Some(tables.message(heap, node, message)?)),
        LogEvent::Extract { message, .. } => Ok(Some(tables.message(heap, node, message)?)),
        LogEvent::Answer { sends, .. } => Ok(Some(tables.message(heap, node, sends)?)),
        _ => Ok(None),
    }
}
