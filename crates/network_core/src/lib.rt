//! What the network could have made of a run, and the laws by which a walk over the runs of the network leaves out what
//! makes no difference.
//!
//! In a run of the network each node takes the same steps other than deliveries, in the same order; messages come at
//! other times, get lost, or come again. The crate has definitions and laws alone, and stands on `bench_core` (clusters
//! and their runs), `order_core` (when a step can come before those of other nodes) and `diff_core` (rows). It names
//! the plain types of the crates below. Its one module is `laws`.
#![tactic(auto)]

pub mod laws;
