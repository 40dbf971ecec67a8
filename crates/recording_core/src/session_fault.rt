//! `SessionFault`: why a text gives no bench.
use thiserror::Error;

/// Why a text gives no bench. Acts are numbered from 1; 0 stands for the session's head.
#[derive(Clone, Copy, Debug, PartialEq, Eq, Error)]
pub enum SessionFault {
    /// The bytes aren't JSON, or nest too deep.
    #[error("NotJson")]
    NotJson,
    /// The head or this act doesn't have its form in a session; or the session is of version 1, which has no such act
    /// or no such reply.
    #[error("BadShape at act {act}")]
    BadShape { act: u64 },
    /// The whole number under `version` is neither 1 nor 2.
    #[error("BadVersion")]
    BadVersion,
    /// The bench, asked this act, gives another reply or doesn't record the act.
    #[error("Disagrees at act {act}")]
    Disagrees { act: u64 },
    /// A request for memory was refused.
    #[error("out of memory")]
    OutOfMemory,
}
