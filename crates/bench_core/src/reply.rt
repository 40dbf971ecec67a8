//! `Reply`: what a bench answers.
ghost use Rattle.std.specs.Prelude.{◌≡◌, ◌↔◌, IsTrue};

use crate::fault::Fault;

/// What a bench answers to one call.
#[derive(Clone, Copy, Debug, PartialEq, Eq)]
pub enum Reply {
    /// The step was taken, and has this number. Numbers rise from 1 and are never used again.
    Taken(u64),
    /// The step of this number was taken back.
    Undone(u64),
    Refused(Fault),
}

impl Reply {
    /// Whether both are the same reply. `==` says so, too, but is costly to prove, because of the faults.
    pub fn same(self, other: Reply) -> bool
        ensures { IsTrue result ↔ (self ≡ other) }
    {
        match (self, other) {
            (Reply::Taken(number), Reply::Taken(other)) => number == other,
            (Reply::Undone(number), Reply::Undone(other)) => number == other,
            (Reply::Refused(fault), Reply::Refused(other)) => fault.same(other),
            _ => false,
        }
    }
}
