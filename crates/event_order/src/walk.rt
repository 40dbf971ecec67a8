//! An order while it is built: which messages were sent, and the next event of each node.
ghost use Rattle.std.specs.Prelude.{◌≡◌, ◌≤◌, ◌<◌, ◌+◌, ◌++◌, ◌∷◌, [], IfOk, Some, length};
ghost use Rattle.std.specs.Prelude.{ℕ, List, slice_index};
ghost use Rattle.event_order.specs.Ordering.{HasNodes, HasMessages, node_at};
ghost use Rattle.event_order.specs.Walks.{IsFirstOf, IsLeastReady, IsLeast, IsWalk, IsStopped, AreHeads, is_sent, left_of};

use crate::logged::Logged;
use dots_core::Oom;
use std::alloc::Allocator;

/// The place of the node's first event at or after `from`; the number of all events if there is none.
fn first_of(events: &[Logged], node: u16, from: usize) -> usize
    requires { from ≤ length events.now }
    ensures { IsFirstOf events.now node from result }
{
    for place in from..events.len() {
        if events[place].node == node {
            return place;
        }
    }
    events.len()
}

/// Whether the message that the event waits for was sent; true if it waits for none.
fn is_ready(event: &Logged, sent: &[bool]) -> bool
    requires { (message : ℕ) → event.now.waits ≡ Some message → message < length sent.now }
    ensures { result ≡ is_sent event.now.waits sent.now }
{
    match event.waits {
        Some(message) => sent[message],
        None => true,
    }
}

/// The least of the places `heads` whose event is ready; the number of all events if there is none.
pub(crate) fn least_ready(events: &[Logged], heads: &[usize], sent: &[bool]) -> usize
    requires { HasMessages (length sent.now) events.now }
    ensures { IsLeastReady events.now heads.now sent.now result }
{
    let mut least = events.len();
    for head in heads {
        if *head < least && is_ready(&events[*head], sent) {
            least = *head;
        }
    }
    least
}

/// The least of the numbers that are below `limit`; `limit` if there is none.
pub(crate) fn least(limit: usize, numbers: &[usize]) -> usize
    ensures { IsLeast limit numbers.now result }
{
    let mut least = limit;
    for number in numbers {
        if *number < least {
            least = *number;
        }
    }
    least
}

/// The heads to begin with: for each node the place of its first event, or the number of all events if it has none. In
/// a walk the head of a node is the place of its next event.
pub(crate) fn first_heads<A: Allocator>(
    alloc: A,
    events: &[Logged],
    nodes: u16,
) -> Result<Vec<usize, A>, Oom>
    ensures { IfOk result (λ heads. (length heads.items ≡ nodes) × AreHeads events.now [] heads.items) }
{
    let mut heads = Vec::new(alloc);
    for node in 0..nodes {
        heads.push(first_of(events, node, 0))?;
    }
    Ok(heads)
}

/// Takes the event at `place`, the next one of its node: moves the node's head on to the node's next event, and marks
/// the message that the event sends as sent.
fn come(events: &[Logged], place: usize, heads: &mut [usize], sent: &mut [bool])
    requires there { place < length events.now }
    requires nodes { HasNodes (length heads.old) events.now }
    requires messages { HasMessages (length sent.old) events.now }
    requires head { slice_index heads.old (node_at events.now place) ≡ place }
    ensures walk { (came : List ℕ) → IsWalk events.now came heads.old sent.old → IsWalk events.now (came ++ place ∷ []) heads.new sent.new }
    ensures left { left_of events.now heads.new < left_of events.now heads.old }
{
    let event = events[place];
    heads[event.node as usize] = first_of(events, event.node, place + 1);
    if let Some(message) = event.sends {
        sent[message] = true;
    }
}

/// The places of the events in the order in which they come: each time the first that can come, until none can. Edits
/// `heads` and `sent` on the way.
pub(crate) fn walk<A: Allocator>(
    alloc: A,
    events: &[Logged],
    heads: &mut [usize],
    sent: &mut [bool],
) -> Result<Vec<usize, A>, Oom>
    requires nodes { HasNodes (length heads.old) events.now }
    requires messages { HasMessages (length sent.old) events.now }
    requires walk { IsWalk events.now [] heads.old sent.old }
    ensures { IfOk result (λ came. IsStopped events.now came.items heads.new) }
{
    let mut came = Vec::with_capacity(alloc, events.len())?;
    let mut place = least_ready(events, heads, sent);
    while place < events.len() {
        came.push(place)?;
        come(events, place, heads, sent);
        place = least_ready(events, heads, sent);
    }
    Ok(came)
}
