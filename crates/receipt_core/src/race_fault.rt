//! `RaceFault`: why a race may not begin, or why it can't be vouched for afterwards.
ghost use Rattle.std.specs.Prelude.{◌≡◌};
ghost use Rattle.receipt_core.specs.Races.{fault_of_workers};

use dots_core::Oom;
use thiserror::Error;

/// Why a race may not begin (`UnknownActor`, `NoRoom`), asked no line (`WorkerRefused`), or can't be vouched for
/// afterwards (`LogsDisagree`); `OutOfMemory` may be any of these.
#[derive(Clone, Copy, Debug, PartialEq, Eq, Error)]
pub enum RaceFault {
    /// A line's actor isn't below the number of actors that the race was given.
    #[error("UnknownActor")]
    UnknownActor,
    /// The bench has fewer than two free places for each line: one for the call, one for the step.
    #[error("NoRoom")]
    NoRoom,
    /// A worker couldn't be started.
    #[error("WorkerRefused")]
    WorkerRefused,
    /// A request for memory was refused, perhaps one that a call made.
    #[error("OutOfMemory")]
    OutOfMemory,
    /// The receipts don't account for the history, there aren't as many lists of them as actors, or the bench's names
    /// or limits changed.
    #[error("LogsDisagree")]
    LogsDisagree,
}

/// Why the workers of a race weren't all started, or gave no receipts.
#[derive(Clone, Copy, Debug, PartialEq, Eq)]
pub enum WorkersFault {
    WorkerRefused,
    OutOfMemory,
}

impl From<Oom> for WorkersFault {
    ghost use Rattle.receipt_core.specs.declared.race_fault.WorkersFault.TheVariants.{OutOfMemory};

    ghost from_gives = { λ _ fault. fault ≡ OutOfMemory };

    fn from(_: Oom) -> WorkersFault {
        WorkersFault::OutOfMemory
    }
}

impl WorkersFault {
    /// The `RaceFault` of the same name.
    pub fn of_race(self) -> RaceFault
        ensures { result ≡ fault_of_workers self }
    {
        match self {
            WorkersFault::WorkerRefused => RaceFault::WorkerRefused,
            WorkersFault::OutOfMemory => RaceFault::OutOfMemory,
        }
    }
}
