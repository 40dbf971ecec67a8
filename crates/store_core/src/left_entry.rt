//! `Left`: what a leave or an update of one entry destroyed.
use entry_core::Handle;
use std::alloc::Allocator;
use std::marker::Model;

/// What a leave or an update of one entry destroyed: the entry; the delta's entry at the same dot, if there was one;
/// and whether the delta had the dot.
#[derive(Drop)]
pub struct Left<A: Allocator> {
    pub entry: Handle<A>,
    pub unsent: Option<Handle<A>>,
    pub in_delta: bool,
}

impl<A: Allocator> Model for Left<A> {
    ghost use Rattle.store_core.specs.LeftEntries.{Left};

    ghost Value = { Left };

    ghost view = { λ l. record { entry = l.entry; unsent = l.unsent; in_delta = l.in_delta } };
}
