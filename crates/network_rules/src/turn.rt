//! `Turn`: a node's own steps, or the deliveries of one message at a node; and `Rank`: where a step stands among those
//! of its turn.
ghost use Rattle.std.specs.Prelude.{◌≡◌};
ghost use Rattle.node_core.specs.Operations.{plain};
ghost use Rattle.network_rules.specs.Turns.{delivery_of, is_of, same_message};

use bench_core::{Kept, Step};
use std::alloc::Allocator;

/// A node's own steps, which are all but its deliveries, or the deliveries of one message at the node.
#[derive(Clone, Copy)]
pub struct Turn {
    pub node: u16,
    /// The sender and number of the message that is delivered; `None` if the steps are the node's own.
    pub delivers: Option<(u16, u64)>,
    /// How many steps of the turn were recorded.
    pub recorded: usize,
}

/// For a recorded step: the place of its turn among the turns, how many steps of that turn stand before the step, and
/// the number of the message that the step sends. A step that sends none has the number of its node's next message.
#[derive(Clone, Copy)]
pub struct Rank {
    pub turn: usize,
    pub before: usize,
    pub number: u64,
}

/// The sender and number of the message that a step delivers. `None` also for an answer, which counts as an own step.
pub fn delivery<A: Allocator>(step: &Step<A>) -> Option<(u16, u64)>
    ensures { result ≡ delivery_of (plain step.now) }
{
    match step {
        Step::Deliver { sender, number } => Some((*sender, *number)),
        _ => None,
    }
}

/// Whether both are the same message, or both are `None`.
fn same_message(one: Option<(u16, u64)>, other: Option<(u16, u64)>) -> bool
    ensures { result ≡ same_message one other }
{
    // form: the proof goes along these patterns, where `==` would do
    match one {
        None => other.is_none(),
        Some((sender, number)) => match other {
            None => false,
            Some((second, count)) => second == sender && count == number,
        },
    }
}

impl Turn {
    /// Whether the step is of this turn: the turn's node takes it, and it delivers the turn's message, or is no
    /// delivery if the turn is one of own steps.
    pub fn has<A: Allocator>(&self, kept: &Kept<A>) -> bool
        ensures { result ≡ is_of self.now kept.now }
    {
        kept.node == self.node && same_message(self.delivers, delivery(&kept.step))
    }
}
