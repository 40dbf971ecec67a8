//! Laws of orders, each the contract of a function that does nothing.

ghost use Rattle.event_order.specs.Laws.{InterleavingLaw, NearestLaw, OneNearestLaw, NoOrderLaw};

/// The orders are exactly the interleavings: each event comes once, the events of a node come in their order, and an
/// event comes after the send of the message that it waits for.
pub fn interleaving_law()
    ensures { InterleavingLaw }
{}

/// Where the nearest order and another one first differ, the nearest has the event that comes earlier in the input.
pub fn nearest_law()
    ensures { NearestLaw }
{}

/// There is only one nearest order.
pub fn one_nearest_law()
    ensures { OneNearestLaw }
{}

/// Where no message is sent twice, there is no order if an event waits for a message that no event sends
/// (`NeverSent`), or if events wait for each other in a circle, so that one can never come (`Circle`).
pub fn no_order_law()
    ensures { NoOrderLaw }
{}
