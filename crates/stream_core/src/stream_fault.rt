//! Why bytes couldn't be read or written.
use std::alloc::{AllocError, AllocFailed};
use thiserror::Error;

/// Why input couldn't be read.
#[derive(Clone, Copy, Debug, PartialEq, Eq, Error)]
pub enum InputFault {
    /// A read failed. It isn't tried again.
    #[error("read fault")]
    ReadFault,
    /// The input has more bytes than the limit, or a line has at least `u64::MAX` bytes.
    #[error("TooLong")]
    TooLong,
    /// A request for memory was refused.
    #[error("out of memory")]
    OutOfMemory,
}

impl From<AllocError> for InputFault {
    ghost use Rattle.std.specs.Prelude.{◌≡◌};
    ghost use Rattle.stream_core.specs.declared.stream_fault.InputFault.TheVariants.{OutOfMemory};

    ghost from_gives = { λ _ fault. fault ≡ OutOfMemory };

    fn from(_refused: AllocError) -> InputFault {
        InputFault::OutOfMemory
    }
}

impl<T: Drop> From<AllocFailed<T>> for InputFault {
    ghost use Rattle.std.specs.Prelude.{◌≡◌};
    ghost use Rattle.stream_core.specs.declared.stream_fault.InputFault.TheVariants.{OutOfMemory};

    ghost from_gives = { λ _ fault. fault ≡ OutOfMemory };

    fn from(_refused: AllocFailed<T>) -> InputFault {
        InputFault::OutOfMemory
    }
}

/// A write failed or took nothing. Exactly the first `written` bytes went out.
#[derive(Clone, Copy, Debug, PartialEq, Eq, Error)]
#[error("write fault")]
pub struct WriteFault {
    pub written: usize,
}
