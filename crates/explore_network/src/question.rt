//! `Question`: what is asked about a cluster. Two clusters count as different if they show different things to the
//! question.
ghost use Rattle.std.specs.Prelude.{◌≡◌, ◌↔◌, IsTrue};
ghost use Rattle.explore_network.specs.Questions.{node_of, plain, IsThere};

use payload_core::Word;
use std::alloc::Allocator;

/// What is asked about a cluster.
#[derive(Drop)]
pub enum Question<A: Allocator> {
    /// About the whole cluster: the replica of each node.
    Cluster,
    /// About the replica of the node with this number.
    Node(u16),
    /// About the rows with a topic and a key in a node's online list.
    Presence {
        node: u16,
        topic: Word<A>,
        key: Word<A>,
    },
}

impl<A: Allocator> Question<A> {
    /// Whether the node that the question is about is one of the first `count`; true if it is about the whole cluster.
    pub fn is_there(&self, count: usize) -> bool
        ensures { IsTrue result ↔ IsThere count (plain self.now) }
    {
        // form: each arm is a case of the proof
        match self {
            Question::Cluster => true,
            Question::Node(node) => (*node as usize) < count,
            Question::Presence {
                node,
                topic: _,
                key: _,
            } => (*node as usize) < count,
        }
    }

    /// The node that the question is about; `None` if it is about the whole cluster.
    pub(crate) fn node(&self) -> Option<u16>
        ensures { result ≡ node_of (plain self.now) }
    {
        // form: each arm is a case of the proof
        match self {
            Question::Cluster => None,
            Question::Node(node) => Some(*node),
            Question::Presence {
                node,
                topic: _,
                key: _,
            } => Some(*node),
        }
    }
}
