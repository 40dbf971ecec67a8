//! `Kept`: a step that was taken, with its number and its node.
use node_core::Step;
use std::alloc::Allocator;
use std::marker::Model;

/// A step that was taken, with its number and the number of its node.
#[derive(Drop)]
pub struct Kept<A: Allocator> {
    pub number: u64,
    pub node: u16,
    pub step: Step<A>,
}

impl<A: Allocator> Model for Kept<A> {
    ghost use Rattle.node_core.specs.Operations.{plain};
    ghost use Rattle.journal_core.specs.Journals.{Kept, kept_code};

    ghost Value = { Kept };

    ghost coded = { kept_code };

    ghost view = { λ k. record { number = k.number; node = k.node; step = plain k.step } };
}
