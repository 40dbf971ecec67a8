//! The laws of deliveries, as contracts of functions that do nothing.
ghost use Rattle.store_core.specs.Laws.{AgainLaw, OrderLaw, StandingLaw};

/// If the same names of a store are merged into another twice in a row, the second merge changes nothing.
#[tactic(auto, using(crate::proofs::StoreMerges::again_holds))]
pub fn again_law()
    ensures { AgainLaw }
{}

/// If two stores don't have different entries at the same dot, merging the same names of both into a third gives the
/// same store in either order.
#[tactic(auto, using(crate::proofs::StoreMerges::order_holds))]
pub fn order_law()
    ensures { OrderLaw }
{}

/// After a merge of some names each dot of these names has the greater of two standings: its old one, and the one in
/// the store that is merged in (0 unseen, 1 live, 2 gone). Each other dot keeps its standing.
#[tactic(auto, using(crate::proofs::StoreMerges::standing_holds))]
pub fn standing_law()
    ensures { StandingLaw }
{}
