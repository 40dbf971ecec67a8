//! `NoteFault`: why an event has no note (`Noted`).
ghost use Rattle.std.specs.Prelude.{◌≡◌};
ghost use Rattle.import_core.specs.declared.note_fault.NoteFault.TheVariants.{OutOfMemory};

use dots_core::Oom;
use thiserror::Error;

/// Why an event has no note: the logs name too many nodes, or memory was refused.
#[derive(Clone, Copy, Debug, PartialEq, Eq, Error)]
pub enum NoteFault {
    /// With this event the logs name more than 32 nodes.
    #[error("TooManyNodes")]
    TooManyNodes,
    #[error("OutOfMemory")]
    OutOfMemory,
}

impl From<Oom> for NoteFault {
    ghost from_gives = { λ _ e. e ≡ OutOfMemory };

    fn from(_e: Oom) -> NoteFault {
        NoteFault::OutOfMemory
    }
}
