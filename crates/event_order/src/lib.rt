//! The order in which logged events of several nodes can have come.
//!
//! Each node logs its own events in their order. A node's log tells nothing of other nodes but that a message which the
//! node takes was sent before. The crate stands on `thiserror`, and on `dots_core` for `Oom` alone. The modules in
//! reading order: `logged`, what an order needs to know of an event; `order_fault`, why there is no order; `senders`,
//! which messages are sent; `walk`, an order while it is built; `ordering`, the order or why there is none; `laws`, what
//! holds of orders.
#![tactic(auto)]

pub mod laws;
mod logged;
mod order_fault;
mod ordering;
mod senders;
mod walk;

pub use logged::Logged;
pub use order_fault::OrderFault;
pub use ordering::ordered;
