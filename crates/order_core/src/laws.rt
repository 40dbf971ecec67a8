//! The laws of orders, as contracts of functions that do nothing.
//!
//! A crate above uses a law by calling its function.
ghost use Rattle.order_core.specs.Laws.{BehindLaw, FoundRunLaw, MarksLaw, OrderOfLaw, OrderRunsLaw, SameOwnLaw};

/// In a run no message comes before it is sent. Two runs in which each node did the same, in the same order, end in the
/// same cluster. If all steps are accepted in one order of the nodes' steps, they all are in every other order that
/// keeps each node's own order and in which no message comes before it is sent, and the two orders end in the same
/// cluster.
pub fn order_law()
    ensures behind { BehindLaw }
    ensures order_runs { OrderRunsLaw }
    ensures same_own { SameOwnLaw }
{}

/// If there is an order of the nodes' steps that keeps each node's own order and in which no message comes before it is
/// sent, `order` finds one. If all steps are accepted in one such order, they all are in the order found, too, and the
/// two orders end in the same cluster.
pub fn found_law()
    ensures order_of { OrderOfLaw }
    ensures found_run { FoundRunLaw }
{}

/// The order found for the marks of steps is the order found for the steps themselves.
pub fn marks_law()
    ensures { MarksLaw }
{}
