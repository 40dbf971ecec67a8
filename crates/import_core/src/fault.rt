//! `ImportFault`: why lines give no script.
ghost use Rattle.std.specs.Prelude.{◌≡◌};
ghost use Rattle.import_core.specs.declared.fault.FaultKind.TheVariants.{OutOfMemory};
ghost use Rattle.import_core.specs.Faults.{kind_of_line, kind_of_note, fault_at};

use crate::note_fault::NoteFault;
use dots_core::Oom;
use log_core::LineFault;
use thiserror::Error;

/// What is wrong with a line, or with the whole input. `docs/FORMATS.md` has the order in which faults are looked for.
#[derive(Clone, Copy, Debug, PartialEq, Eq, Error)]
pub enum FaultKind {
    /// The line, or the script that is made of the logs, has more bytes than it may have.
    #[error("TooLong")]
    TooLong,
    /// The line isn't JSON, or nests too deep.
    #[error("NotJson")]
    NotJson,
    /// The line isn't an event: a key is missing or its value is of a wrong kind, or the event is unknown.
    #[error("BadEvent")]
    BadEvent,
    /// The line names a node beyond the 32 that there may be.
    #[error("TooManyNodes")]
    TooManyNodes,
    /// No line has an event, or a lenient import left out all events.
    #[error("NoNodes")]
    NoNodes,
    /// The line sends a message that an earlier line sends, too.
    #[error("Twice")]
    Twice,
    /// The line waits for a message that no line sends.
    #[error("NeverSent")]
    NeverSent,
    /// The line is the first of those that wait forever.
    #[error("Circle")]
    Circle,
    /// A request for memory was refused.
    #[error("OutOfMemory")]
    OutOfMemory,
}

impl From<Oom> for FaultKind {
    ghost from_gives = { λ _ kind. kind ≡ OutOfMemory };

    fn from(_refused: Oom) -> FaultKind {
        FaultKind::OutOfMemory
    }
}

impl From<LineFault> for FaultKind {
    ghost from_gives = { λ fault kind. kind ≡ kind_of_line fault };

    fn from(fault: LineFault) -> FaultKind {
        match fault {
            LineFault::TooLong => FaultKind::TooLong,
            LineFault::NotJson => FaultKind::NotJson,
            LineFault::OutOfMemory => FaultKind::OutOfMemory,
        }
    }
}

impl From<NoteFault> for FaultKind {
    ghost from_gives = { λ fault kind. kind ≡ kind_of_note fault };

    fn from(fault: NoteFault) -> FaultKind {
        match fault {
            NoteFault::TooManyNodes => FaultKind::TooManyNodes,
            NoteFault::OutOfMemory => FaultKind::OutOfMemory,
        }
    }
}

/// Why lines give no script: the number of the line, counted from 1, or 0 for the whole input, and what is wrong with
/// it. `OutOfMemory` always has line 0.
#[derive(Clone, Copy, Debug, PartialEq, Eq, Error)]
#[error("line {line}: {kind}")]
pub struct ImportFault {
    pub line: u64,
    pub kind: FaultKind,
}

impl ImportFault {
    /// The fault at this line; `OutOfMemory` at line 0.
    pub(crate) fn at(line: u64, kind: FaultKind) -> ImportFault
        ensures { result ≡ fault_at line kind }
    {
        match kind {
            FaultKind::OutOfMemory => ImportFault { line: 0, kind },
            _ => ImportFault { line, kind },
        }
    }
}

impl From<Oom> for ImportFault {
    ghost from_gives = { λ _ fault. fault ≡ record { line = 0; kind = OutOfMemory } };

    fn from(_refused: Oom) -> ImportFault {
        ImportFault {
            line: 0,
            kind: FaultKind::OutOfMemory,
        }
    }
}
