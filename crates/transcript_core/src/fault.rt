//! `TranscriptFault`: why the calls of a bench can't be written as a script.
ghost use Rattle.std.specs.Prelude.{◌≡◌};

use dots_core::Oom;
use grammar_core::ScriptFault;
use thiserror::Error;

/// Why the calls of a bench can't be written as a script.
#[derive(Clone, Copy, Debug, PartialEq, Eq, Error)]
pub enum TranscriptFault {
    /// The lines of the calls aren't a script, and `fault` is the first fault of their text. For example, a node has a
    /// name that a script can't have.
    #[error("{fault}")]
    NoScript { fault: ScriptFault },
    /// The lines of the calls are a script that names other nodes or asks for other calls than those recorded. For
    /// example, one of the names of a recorded extract is no node's, and the line of the extract leaves that name out.
    #[error("OtherCalls")]
    OtherCalls,
    /// A request for memory was refused.
    #[error("out of memory")]
    OutOfMemory,
}

impl From<Oom> for TranscriptFault {
    ghost use Rattle.transcript_core.specs.declared.fault.TranscriptFault.TheVariants.{OutOfMemory};

    ghost from_gives = { λ _ fault. fault ≡ OutOfMemory };

    fn from(_: Oom) -> TranscriptFault {
        TranscriptFault::OutOfMemory
    }
}
