//! `State`: where a run stands.
use bench_core::Cluster;
use std::alloc::Allocator;

/// Where a run stands after some of its steps.
#[derive(Drop)]
pub struct State<'a, 't, B: Allocator> {
    /// The cluster to which the steps led.
    pub cluster: &'t Cluster<'a, B>,
    /// How many steps of each turn came.
    pub counts: &'t [usize],
}
