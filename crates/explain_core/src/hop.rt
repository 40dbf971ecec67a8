//! `Hop`: what a step did to a dot; and `Stand`: how a dot stands at a node, and since which step.
ghost use Rattle.std.specs.Prelude.{◌≡◌};
ghost use Rattle.explain_core.specs.Tracks.{is_sender};

use crate::standing::Standing;

/// What a step did to a dot.
#[derive(Clone, Copy, Debug, PartialEq, Eq)]
pub enum Kind {
    /// The step sent a message in which the dot stands live or gone.
    Sent,
    /// The step delivered a message that has the dot, and so the dot came to stand at the node as in the message.
    Came,
    /// The step delivered a message that has the dot, but the node didn't know the dot's name, so the dot stands at the
    /// node as before.
    Missed,
    /// The step took the dot's name permanently down, so the step's node forgot the dot.
    Forgot,
}

/// A step that did something to a dot, with its number and its node.
#[derive(Clone, Copy, Debug, PartialEq, Eq)]
pub struct Hop {
    pub kind: Kind,
    pub number: u64,
    pub node: u16,
    /// How the dot stands in the message; or, if the dot was forgotten, how it stood before.
    pub standing: Standing,
    /// The number of the message that the step sent; 0 if it sent none.
    pub message: u64,
    /// The number of the step that made what this step read. For a delivery that is the step that sent the message; for
    /// any other, the step since which the dot stood at the node as it did before this step. `None` if there is no such
    /// step.
    pub reads: Option<u64>,
}

impl Hop {
    /// Whether the step sent this message of this node.
    pub fn is_sender(&self, node: u16, message: u64) -> bool
        ensures { result ≡ is_sender node message self.now }
    {
        matches!(self.kind, Kind::Sent) && self.node == node && self.message == message
    }
}

/// How a dot stands at a node, and since which step of the node.
#[derive(Clone, Copy, Debug, PartialEq, Eq)]
pub struct Stand {
    pub standing: Standing,
    /// The number of the step since which the dot stands so; `None` if it was unseen at the node from the beginning.
    pub by: Option<u64>,
}
