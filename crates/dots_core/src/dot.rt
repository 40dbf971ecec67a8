//! A dot: a replica's name with one of that replica's clocks.

ghost use Rattle.std.specs.Prelude.{◌↔◌, IsTrue};
ghost use Rattle.dots_core.specs.Dots.{IsValid};

/// How many names there are at most: each is a number below it.
pub const MOST_NAMES: u16 = 32;

/// The last clock that a dot may have.
pub const LAST_CLOCK: u64 = 1_000_000_000;

/// The name of a replica, and a clock, which counts from 1 the dots that the replica takes (RR-8083, 'dots'). Each
/// join, update and leave takes a fresh dot.
#[derive(Clone, Copy, Debug, PartialEq, Eq)]
pub struct Dot {
    pub name: u16,
    pub clock: u64,
}

impl Dot {
    /// Whether a set may hold the dot: its name is below `MOST_NAMES`, and its clock is from 1 to `LAST_CLOCK`.
    pub fn ok(self) -> bool
        ensures { IsTrue result ↔ IsValid self }
    {
        self.name < MOST_NAMES && 1 <= self.clock && self.clock <= LAST_CLOCK
    }
}
