//! `ExploreFault`: why an exploration gives no outcomes.
ghost use Rattle.std.specs.Prelude.{◌≡◌, ◌≢◌, ℕ};

use dots_core::Oom;

/// Why an exploration gives no outcomes.
#[derive(Clone, Copy, Debug, PartialEq, Eq)]
pub enum ExploreFault {
    /// The walk would have to keep more states than it may. It had found `outcomes` outcomes.
    TooManyStates { outcomes: usize },
    /// The joins and updates make more entries than a node may hold, so some order might be refused (`EntriesFull`).
    MayFill,
    /// The remaining steps and the deliveries that may come a second time (`again` of the bounds) are more than 3,000
    /// together.
    TooManySteps,
    OutOfMemory,
}

/// Why a walk ended before it had found all outcomes.
#[derive(Clone, Copy, Debug, PartialEq, Eq)]
pub(crate) enum Stop {
    TooManyStates { outcomes: usize },
    OutOfMemory,
}

impl From<Oom> for Stop {
    ghost use Rattle.explore_network.specs.declared.explore_fault.Stop.TheVariants.{OutOfMemory};

    ghost from_gives = { λ _ stop. stop ≡ OutOfMemory };

    fn from(_: Oom) -> Stop {
        Stop::OutOfMemory
    }
}

impl From<Oom> for ExploreFault {
    ghost use Rattle.explore_network.specs.declared.explore_fault.ExploreFault.TheVariants.{OutOfMemory};

    ghost from_gives = { λ _ fault. fault ≡ OutOfMemory };

    fn from(_: Oom) -> ExploreFault {
        ExploreFault::OutOfMemory
    }
}

/// The fault of an exploration whose walk ended early with `stop`: it tells the same reason and the same number of
/// outcomes as `stop`.
pub(crate) fn fault_of(stop: Stop) -> ExploreFault
    ensures fills_not { result ≢ ExploreFault.MayFill }
    ensures few_steps { result ≢ ExploreFault.TooManySteps }
    ensures same { (found : ℕ) → result ≡ ExploreFault.TooManyStates found → stop ≡ Stop.TooManyStates found }
{
    match stop {
        Stop::TooManyStates { outcomes } => ExploreFault::TooManyStates { outcomes },
        Stop::OutOfMemory => ExploreFault::OutOfMemory,
    }
}
