//! `Diff`, how two online lists differ.
use crate::online_row::OnlineRow;
use std::alloc::Allocator;

/// How two online lists differ, each side in order.
#[derive(Debug, Drop)]
pub struct Diff<A: Allocator> {
    /// The rows that only the first list has.
    pub left: Vec<OnlineRow<A>, A>,
    /// The rows that only the second list has.
    pub joined: Vec<OnlineRow<A>, A>,
}
