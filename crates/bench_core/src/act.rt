//! `Act`: what a bench is asked.
ghost use Rattle.std.specs.Prelude.{◌≡◌, ◌↔◌, IsTrue, IfOk};
ghost use Rattle.bench_core.specs.Acts.{plain_act};

use dots_core::Oom;
use node_core::Step;
use std::alloc::Allocator;

/// What one call asks of a bench: a step, or to take a step back.
#[derive(Drop)]
pub enum Act<A: Allocator> {
    /// A step of the node that asks.
    Do(Step<A>),
    /// Takes back the step of this number. Any actor may ask for it.
    Undo(u64),
    /// Takes back the last step of this node. Any actor may ask for it.
    Back(u16),
}

impl<A: Allocator> Act<A> {
    /// Whether both acts ask for the same.
    pub fn same<'call>(&'call self, other: &'call Self) -> bool
        ensures { IsTrue result ↔ (plain_act self.now ≡ plain_act other.now) }
    {
        match (self, other) {
            (Act::Do(step), Act::Do(other)) => step.same(other),
            (Act::Undo(number), Act::Undo(other)) => number == other,
            (Act::Back(node), Act::Back(other)) => node == other,
            _ => false,
        }
    }

    /// A copy of the act. It takes no memory; an `Err`, which only a step can give, means that the count of a word's
    /// copies is at its limit.
    pub fn try_copy(&self) -> Result<Self, Oom>
    where
        A: Copy,
        ensures { IfOk result (λ copy. plain_act copy ≡ plain_act self.now) }
    {
        match self {
            Act::Do(step) => Ok(Act::Do(step.try_copy()?)),
            Act::Undo(number) => Ok(Act::Undo(*number)),
            Act::Back(node) => Ok(Act::Back(*node)),
        }
    }
}
