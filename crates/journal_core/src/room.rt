//! `Room`: a kind of step, for which room can be made ahead.
ghost use Rattle.std.specs.Prelude.{◌≡◌, ◌↔◌, IsTrue, map};
ghost use Rattle.std.specs.List.{Contains};
ghost use Rattle.node_core.specs.Operations.{plain};
ghost use Rattle.journal_core.specs.Holdings.{plain_room, room_for};

use node_core::Step;
use std::alloc::Allocator;

/// A kind of step, for which room can be made: its node, the message that it delivers, if any, and whether it sends a
/// message.
#[derive(Clone, Copy, PartialEq, Eq)]
pub(crate) struct Room {
    pub(crate) node: u16,
    pub(crate) delivers: Option<(u16, u64)>,
    pub(crate) sends: bool,
}

impl Room {
    /// The kind of this step of this node.
    pub(crate) fn of<A: Allocator>(node: u16, step: &Step<A>) -> Room
        ensures { plain_room result ≡ room_for node (plain step.now) }
    {
        Room {
            node,
            delivers: step.delivers(),
            sends: step.sends(),
        }
    }

    /// Whether room for this kind of step was made already: whether it is among `made`.
    pub(crate) fn is_in(self, made: &[Room]) -> bool
        ensures { IsTrue result ↔ Contains (map plain_room made.now) (plain_room self) }
    {
        made.contains(&self)
    }
}
