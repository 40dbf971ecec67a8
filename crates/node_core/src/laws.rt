//! The laws of the way back, as contracts of functions that do nothing.
//!
//! A crate above uses a law by calling its function.
ghost use Rattle.node_core.specs.Laws.{ChangeOfLaw, OneWayBackLaw};

/// From one node an inverse leads back to at most one node.
pub fn way_back_law()
    ensures { OneWayBackLaw }
{}

/// If an inverse leads from a node back to an earlier one, the inverse's change leads from the node's replica back to
/// the earlier node's. If the inverse has no change, both nodes have the same entries and the same view.
pub fn change_law()
    ensures { ChangeOfLaw }
{}
