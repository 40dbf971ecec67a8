//! What each node did in a run, in its order, and the orders in which these steps can have come.
//!
//! Runs in which each node did the same end the same. So what each node did stands for a run: any order will do that
//! keeps each node's own order, and in which no message is delivered before it is sent. The crate stands on
//! `bench_core` (clusters and their runs), and names the plain types of the crates below. The modules in reading order:
//! `mark`, what an order needs to know of a step; `ordering`, which finds an order; `laws`, what holds of orders.
#![tactic(auto)]

pub mod laws;
mod mark;
mod ordering;

pub use mark::Mark;
pub use ordering::order;
