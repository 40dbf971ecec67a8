//! The laws of deliveries, of the delta and of changes, as contracts of functions that do nothing.
//!
//! A crate above uses a law by calling its function.
ghost use Rattle.replica_core.specs.Changes.{BackLaw};
ghost use Rattle.replica_core.specs.Laws.{AgainLaw, DeltaLaw, OrderLaw, StandingLaw};
ghost use Rattle.replica_core.specs.Moves.{MovesLaw};

/// If a message is merged twice in a row, and the first merge is accepted, so is the second. The second merge changes
/// nothing.
#[tactic(auto, using(crate::proofs::Deliveries::again_holds))]
pub fn again_law()
    ensures { AgainLaw }
{}

/// If two messages don't have different entries at the same dot, merging both gives the same replica in either order,
/// unless a merge is refused.
#[tactic(auto, using(crate::proofs::Deliveries::order_holds))]
pub fn order_law()
    ensures { OrderLaw }
{}

/// After a delivery each dot of another known name has the greater of two standings: the one that it had at the
/// replica, and the one in the message (0 unseen, 1 live, 2 gone). Each other dot keeps its standing.
#[tactic(auto, using(crate::proofs::Deliveries::standing_holds))]
pub fn standing_law()
    ensures { StandingLaw }
{}

/// Taking the delta and giving it back undo each other, and what was taken may be given back.
pub fn delta_law()
    ensures { DeltaLaw }
{}

/// From one replica a change leads back to at most one replica.
#[tactic(auto, using(crate::proofs::Back::back_holds))]
pub fn back_law()
    ensures { BackLaw }
{}

/// The change of a call tells what the call moved: the entries that left, the dots that joined, and the name that came
/// up or is up no more.
#[tactic(auto, using(crate::proofs::Moves::moves_hold))]
pub fn moves_law()
    ensures { MovesLaw }
{}
