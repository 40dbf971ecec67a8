//! `Meter`: how many steps were taken.
ghost use Rattle.std.specs.Prelude.{◌≡◌, ◌+◌, ◌<◌};

use std::marker::Model;

/// Counts the steps that nodes took. Only `Node::take` moves it on, by one for each accepted step.
#[derive(Debug, Drop)]
pub struct Meter {
    count: u64,
}

impl Model for Meter {
    ghost use Rattle.node_core.specs.Meters.{Meter};

    ghost Value = { Meter };

    ghost view = { λ m. record { count = m.count } };
}

impl Meter {
    /// A meter that has counted nothing.
    pub fn new() -> Meter
        ensures { result.count ≡ 0 }
    {
        Meter { count: 0 }
    }

    /// How many steps were taken.
    pub fn count(&self) -> u64
        ensures { result ≡ self.now.count }
    {
        self.count
    }

    pub(crate) fn tick(&mut self)
        requires { self.old.count < 18446744073709551615 }
        ensures { self.new.count ≡ self.old.count + 1 }
    {
        self.count += 1;
    }
}
