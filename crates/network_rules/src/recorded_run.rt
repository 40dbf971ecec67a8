//! `RecordedRun`: the recorded steps, and what is known of them from the start.
use crate::turn::{Rank, Turn};
use bench_core::Kept;
use std::alloc::Allocator;

/// The recorded run. Every other run is made of its steps.
#[derive(Drop)]
pub struct RecordedRun<'a, 't, B: Allocator> {
    pub steps: &'t [Kept<&'a B>],
    /// The turns of the steps: first those of own steps, by the node's number, and then those of deliveries.
    pub turns: &'t [Turn],
    /// The rank of each step, in the order of the steps.
    pub ranks: &'t [Rank],
    /// How many nodes there are.
    pub count: u16,
}
