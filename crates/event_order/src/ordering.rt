//! The order of logged events.
ghost use Rattle.std.specs.Prelude.{[], length, MatchResult};
ghost use Rattle.event_order.specs.Ordering.{HasNodes, HasMessages, IsOrder, IsNearest, IsOrdered, IsFaultOf, NoTwice, AllSent};
ghost use Rattle.event_order.specs.Walks.{IsMessageFault, IsWaitFault, IsWalk};

use crate::logged::Logged;
use crate::order_fault::OrderFault;
use crate::senders::{mark_senders, never_sent};
use crate::walk::{first_heads, least, walk};
use std::alloc::Allocator;

/// Checks that no message is sent twice, and that each message which an event waits for is sent. `Twice` is looked for
/// first, and names the first event that sends a message again. `NeverSent` names the first event that waits for a
/// message which isn't sent.
fn check_messages<A: Allocator>(
    alloc: A,
    events: &[Logged],
    messages: usize,
) -> Result<(), OrderFault>
    requires { HasMessages messages events.now }
    ensures { MatchResult result (λ _. NoTwice events.now × AllSent events.now) (IsMessageFault events.now) }
{
    let mut sent = vec![in alloc; false; messages]?;
    if let Err(at) = mark_senders(events, &mut sent) {
        return Err(OrderFault::Twice { at });
    }
    if let Some(at) = never_sent(events, &sent) {
        return Err(OrderFault::NeverSent { at });
    }
    Ok(())
}

/// The order that a walk from the first event of each node finds; if some events wait forever, `Circle` with the first
/// of these. The walk edits `heads` and `sent`.
fn order_from<A: Allocator>(
    alloc: A,
    events: &[Logged],
    heads: &mut [usize],
    sent: &mut [bool],
) -> Result<Vec<usize, A>, OrderFault>
    requires nodes { HasNodes (length heads.old) events.now }
    requires messages { HasMessages (length sent.old) events.now }
    requires walk { IsWalk events.now [] heads.old sent.old }
    ensures { MatchResult result (λ order. IsOrder events.now order.items × IsNearest events.now order.items) (IsWaitFault events.now) }
{
    let order = walk(alloc, events, heads, sent)?;
    let at = least(events.len(), heads);
    if at < events.len() {
        return Err(OrderFault::Circle { at });
    }
    Ok(order)
}

/// The places of the events in the order that is nearest to the input; or why there is none. There are `nodes` nodes
/// and `messages` messages.
pub fn ordered<A: Allocator + Copy>(
    alloc: A,
    events: &[Logged],
    nodes: u16,
    messages: usize,
) -> Result<Vec<usize, A>, OrderFault>
    requires nodes { HasNodes nodes events.now }
    requires messages { HasMessages messages events.now }
    ensures { MatchResult result (λ order. IsOrdered events.now order.items) (IsFaultOf events.now) }
{
    check_messages(alloc, events, messages)?;
    let mut sent = vec![in alloc; false; messages]?;
    let mut heads = first_heads(alloc, events, nodes)?;
    let order = order_from(alloc, events, &mut heads, &mut sent)?;
    Ok(order)
}
