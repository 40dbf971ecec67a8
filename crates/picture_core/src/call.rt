//! `Call`: a recorded call that was made again.
use bench_core::Event;
use report_core::Acted;
use std::alloc::Allocator;

/// A recorded call that was made again to be drawn, and what it came to.
#[derive(Drop)]
pub struct Call<'a, 't, B: Allocator> {
    /// The row of the picture in which the call is drawn.
    pub row: u32,
    pub event: &'t Event<&'a B>,
    /// The reply to the call, and how the call changed the online list of the node `changed`.
    pub acted: &'t Acted<&'a B>,
    /// The node that the call changed; `None` if the call was refused.
    pub changed: Option<u16>,
}
