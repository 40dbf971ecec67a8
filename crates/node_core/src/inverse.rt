//! `Inverse`: what a step of a node destroyed.
ghost use Rattle.std.specs.Prelude.{◌≡◌, option_map};
ghost use Rattle.replica_core.specs.Changes.{plain_change};
ghost use Rattle.node_core.specs.Inverses.{change_of, plain_inverse};

use replica_core::Change;
use std::alloc::Allocator;

/// What one step of a node destroyed: with it `Node::give_back` takes the step back (Danos and Krivine: causal undo).
#[derive(Drop)]
pub enum Inverse<A: Allocator> {
    /// The step was one call of the replica, and sent nothing. This is the change of that call.
    Change(Change<A>),
    /// The step sent the delta, which is the last message.
    Broadcast,
    /// The step was an extract, a request or an answer. It sent the last message.
    Sent,
}

impl<A: Allocator> Inverse<A> {
    /// The change of the replica; `None` if the step sent a message instead.
    pub fn change(&self) -> Option<&Change<A>>
        ensures { option_map (λ c. plain_change c.now) result ≡ change_of (plain_inverse self.now) }
    {
        match self {
            Inverse::Change(change) => Some(change),
            Inverse::Broadcast | Inverse::Sent => None,
        }
    }
}
