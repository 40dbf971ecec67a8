//! `Unwound`: how an unwind ended.
use crate::fault::Fault;
use std::alloc::Allocator;

/// How an unwind ended. To unwind a step is to undo it and all that follows from it.
#[derive(Drop)]
pub enum Unwound<A: Allocator> {
    /// The step and all that follows from it were taken back, greatest number first.
    Done(Vec<u64, A>),
    /// Nothing was done or recorded, because of this fault.
    Refused(Fault),
    /// An undo was refused memory. These steps were taken back before it: the first of those that `Done` would name,
    /// perhaps none.
    Partial { numbers: Vec<u64, A> },
}
