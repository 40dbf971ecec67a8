//! How a dot stands: at a node, and in a message.
ghost use Rattle.std.specs.Prelude.{◌≡◌, Some};
ghost use Rattle.explain_core.specs.Standings.{is_above, is_same, last_message, standing_at, standing_in, standing_sent, standing_told};

use bench_core::Bench;
use dots_core::{Dot, DotSet};
use payload_core::{EntrySet, Payload};
use std::alloc::Allocator;

/// How a dot stands at a node or in a message.
#[derive(Clone, Copy, Debug, PartialEq, Eq)]
pub enum Standing {
    /// The dot wasn't seen, or was forgotten.
    Unseen,
    /// The dot has its entry.
    Live,
    /// The dot was seen, and has no entry.
    Gone,
}

impl Standing {
    /// Whether this standing comes after `other` in the order unseen, live, gone. A delivery gives a dot the standing
    /// that it has in the message, if that is above its standing at the node and the node knows the dot's name.
    pub fn is_above(self, other: Standing) -> bool
        ensures { result ≡ is_above self other }
    {
        match (self, other) {
            (Standing::Live | Standing::Gone, Standing::Unseen) => true,
            (Standing::Gone, Standing::Live) => true,
            _ => false,
        }
    }

    /// Whether both are the same standing.
    pub fn is_same(self, other: Standing) -> bool
        ensures { result ≡ is_same self other }
    {
        // form: `==` of an enum, case by case for the contract
        match (self, other) {
            (Standing::Unseen, Standing::Unseen) => true,
            (Standing::Live, Standing::Live) => true,
            (Standing::Gone, Standing::Gone) => true,
            _ => false,
        }
    }
}

/// How a dot stands, given the dots that were seen and the entries.
fn standing_in<A: Allocator>(seen: &DotSet<A>, entries: &EntrySet<A>, dot: Dot) -> Standing
    ensures { result ≡ standing_in seen.now entries.now.map dot }
{
    match entries.get(dot) {
        Some(_) => Standing::Live,
        None => {
            if seen.contains(dot) {
                Standing::Gone
            } else {
                Standing::Unseen
            }
        }
    }
}

/// How a dot stands at a node of the bench; `Unseen` if there is no such node.
#[tactic(auto, unfolding(crate::specs::Standings::standing_at, report_core::specs::Shown::node_of))]
pub fn standing_at<'a, B: Allocator>(bench: &Bench<'a, B>, node: u16, dot: Dot) -> Standing
    ensures { result ≡ standing_at bench.now node dot }
{
    let Some(node) = bench.node(node) else {
        return Standing::Unseen;
    };
    let replica = node.replica();
    standing_in(replica.seen(), replica.entries(), dot)
}

/// How a dot stands in a message. Asks first whether the message has the dot at all, which is cheaper than a search for
/// its entry.
fn standing_told<A: Allocator>(message: &Payload<A>, dot: Dot) -> Standing
    ensures { result ≡ standing_told (Some message.now) dot }
{
    let entries = message.entries();
    if !message.seen().contains(dot) {
        return Standing::Unseen;
    }
    standing_in(message.seen(), entries, dot)
}

/// How a dot stands in the node's message with this number; `Unseen` if there is no such node or message.
#[tactic(auto, unfolding(crate::specs::Standings::standing_sent, report_core::specs::Shown::node_of))]
pub fn standing_sent<'a, B: Allocator>(
    bench: &Bench<'a, B>,
    node: u16,
    number: u64,
    dot: Dot,
) -> Standing
    ensures { result ≡ standing_sent bench.now node number dot }
{
    let Some(node) = bench.node(node) else {
        return Standing::Unseen;
    };
    let Some(message) = node.outbox().get(number) else {
        return Standing::Unseen;
    };
    standing_told(message, dot)
}

/// The number of the node's last message; 0 if it has none, or there is no such node.
#[tactic(auto, unfolding(crate::specs::Standings::last_message, report_core::specs::Shown::node_of))]
pub fn last_message<'a, B: Allocator>(bench: &Bench<'a, B>, node: u16) -> u64
    ensures { result ≡ last_message bench.now node }
{
    match bench.node(node) {
        Some(node) => node.outbox().len() as u64,
        None => 0,
    }
}
