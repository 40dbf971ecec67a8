//! `PlayFault`: why a play ends early.
use grammar_core::ScriptFault;
use thiserror::Error;

/// Why a play ended early. Nothing was written, unless the fault is `WriteFault`.
#[derive(Clone, Copy, Debug, PartialEq, Eq, Error)]
pub enum PlayFault {
    /// The first fault of the input, other than `OutOfMemory`.
    #[error("{0}")]
    Script(ScriptFault),
    /// A read failed.
    #[error("read fault")]
    ReadFault,
    /// A write failed or took nothing. Exactly the first `written` bytes of the report went out; the report has more.
    #[error("write fault")]
    WriteFault { written: usize },
    /// A request for memory was refused.
    #[error("out of memory")]
    OutOfMemory,
}
