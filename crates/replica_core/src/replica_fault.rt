//! `ReplicaFault`: why a replica refuses a call.
use dots_core::Oom;
use thiserror::Error;

/// Why a replica refuses a call, in the order in which the causes are looked for; `OutOfMemory` comes wherever memory
/// is refused.
#[derive(Clone, Copy, Debug, PartialEq, Eq, Error)]
pub enum ReplicaFault {
    /// The name is the replica's own.
    #[error("OwnReplica")]
    OwnReplica,
    /// The name is not known.
    #[error("NotKnown")]
    NotKnown,
    /// The name to be forgotten is up.
    #[error("NotDown")]
    NotDown,
    /// An own entry has this process, topic and key.
    #[error("AlreadyTracked")]
    AlreadyTracked,
    /// No own entry has the process, topic and key of the call, or, for a leave all, the process.
    #[error("NotTracked")]
    NotTracked,
    /// The delta has no dot.
    #[error("NothingToSend")]
    NothingToSend,
    /// There would be more entries than the limit.
    #[error("EntriesFull")]
    EntriesFull,
    /// The own clock would pass its limit.
    #[error("ClockFull")]
    ClockFull,
    /// A request for memory was refused.
    #[error("OutOfMemory")]
    OutOfMemory,
}

impl From<Oom> for ReplicaFault {
    ghost use Rattle.std.specs.Prelude.{◌≡◌};
    ghost use Rattle.replica_core.specs.declared.replica_fault.ReplicaFault.TheVariants.{OutOfMemory};

    ghost from_gives = { λ _ fault. fault ≡ OutOfMemory };

    fn from(_refused: Oom) -> ReplicaFault {
        ReplicaFault::OutOfMemory
    }
}
