//! `SwapFault`: why `same_cluster` doesn't answer `Ok`.
ghost use Rattle.std.specs.Prelude.{◌≡◌};
ghost use Rattle.bench_core.specs.declared.swap_fault.SwapFault.TheVariants.{OutOfMemory};

use dots_core::Oom;
use thiserror::Error;

/// Why `same_cluster` doesn't answer `Ok`, in the order in which it looks for the causes.
#[derive(Clone, Copy, Debug, PartialEq, Eq, Error)]
pub enum SwapFault {
    /// The names or the limits differ.
    #[error("OtherBench")]
    OtherBench,
    /// A request for memory was refused.
    #[error("OutOfMemory")]
    OutOfMemory,
    /// Swap `at` of the list, counted from 1, has no two steps to exchange, or they aren't independent.
    #[error("BadSwap at {at}")]
    BadSwap { at: usize },
    /// The swaps lead to other steps than those of the second bench.
    #[error("OtherSteps")]
    OtherSteps,
}

impl From<Oom> for SwapFault {
    ghost from_gives = { λ _ e. e ≡ OutOfMemory };

    fn from(_e: Oom) -> SwapFault {
        SwapFault::OutOfMemory
    }
}
