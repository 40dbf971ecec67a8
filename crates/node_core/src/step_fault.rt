//! `StepFault`: why a node refuses a step.
use dots_core::Oom;
use payload_core::OutboxFault;
use replica_core::ReplicaFault;
use thiserror::Error;

/// Why a node refuses a step. `OwnMessage`, `NoSuchMessage`, `NotRequest` and `IsRequest` are looked for first, then
/// the faults of the replica in their order, then `OutboxFull`. `OutOfMemory` comes wherever memory is refused.
#[derive(Clone, Copy, Debug, PartialEq, Eq, Error)]
pub enum StepFault {
    /// The name is the node's own.
    #[error("OwnReplica")]
    OwnReplica,
    /// The name is not known.
    #[error("NotKnown")]
    NotKnown,
    /// The name to be forgotten is up.
    #[error("NotDown")]
    NotDown,
    /// An own entry has this process, topic and key.
    #[error("AlreadyTracked")]
    AlreadyTracked,
    /// No own entry has the process, topic and key of the step, or, for a leave all, the process.
    #[error("NotTracked")]
    NotTracked,
    /// The delta has no dot.
    #[error("NothingToSend")]
    NothingToSend,
    /// There would be more entries than the limit.
    #[error("EntriesFull")]
    EntriesFull,
    /// The own clock would pass its limit.
    #[error("ClockFull")]
    ClockFull,
    /// The message is the node's own.
    #[error("OwnMessage")]
    OwnMessage,
    /// The sender has no message of this number.
    #[error("NoSuchMessage")]
    NoSuchMessage,
    /// The message to be answered isn't a request.
    #[error("NotRequest")]
    NotRequest,
    /// The message to be delivered is a request.
    #[error("IsRequest")]
    IsRequest,
    /// The outbox holds as many messages as it may.
    #[error("OutboxFull")]
    OutboxFull,
    /// A request for memory was refused.
    #[error("OutOfMemory")]
    OutOfMemory,
}

impl From<Oom> for StepFault {
    ghost use Rattle.std.specs.Prelude.{◌≡◌};
    ghost use Rattle.node_core.specs.declared.step_fault.StepFault.TheVariants.{OutOfMemory};

    ghost from_gives = { λ _ fault. fault ≡ OutOfMemory };

    fn from(_refused: Oom) -> StepFault {
        StepFault::OutOfMemory
    }
}

impl From<ReplicaFault> for StepFault {
    ghost use Rattle.std.specs.Prelude.{◌≡◌};
    ghost use Rattle.node_core.specs.Faults.{step_fault_of};

    ghost from_gives = { λ fault step_fault. step_fault ≡ step_fault_of fault };

    fn from(fault: ReplicaFault) -> StepFault {
        match fault {
            ReplicaFault::OwnReplica => StepFault::OwnReplica,
            ReplicaFault::NotKnown => StepFault::NotKnown,
            ReplicaFault::NotDown => StepFault::NotDown,
            ReplicaFault::AlreadyTracked => StepFault::AlreadyTracked,
            ReplicaFault::NotTracked => StepFault::NotTracked,
            ReplicaFault::NothingToSend => StepFault::NothingToSend,
            ReplicaFault::EntriesFull => StepFault::EntriesFull,
            ReplicaFault::ClockFull => StepFault::ClockFull,
            ReplicaFault::OutOfMemory => StepFault::OutOfMemory,
        }
    }
}
