//! `LineFault`: why a line has no value.
use thiserror::Error;

/// Why a line has no value.
#[derive(Clone, Copy, Debug, PartialEq, Eq, Error)]
pub enum LineFault {
    /// The line has more than 1,048,576 bytes.
    #[error("TooLong")]
    TooLong,
    /// The line isn't JSON, or nests too deep.
    #[error("NotJson")]
    NotJson,
    /// Memory was refused.
    #[error("OutOfMemory")]
    OutOfMemory,
}
