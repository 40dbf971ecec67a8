//! `PromptFault`: why a prompt ends before its input does.
use dots_core::Oom;
use stream_core::InputFault;
use thiserror::Error;

/// Why a prompt ends before its input does.
#[derive(Clone, Copy, Debug, PartialEq, Eq, Error)]
pub enum PromptFault {
    /// A read failed.
    #[error("read fault")]
    ReadFault,
    /// A write or a flush failed, or a write took nothing.
    #[error("write fault")]
    WriteFault,
    /// There are at least `u64::MAX - 1` lines, or a line has at least `u64::MAX` bytes.
    #[error("TooLong")]
    TooLong,
    /// A request for memory was refused.
    #[error("out of memory")]
    OutOfMemory,
}

impl From<Oom> for PromptFault {
    ghost use Rattle.std.specs.Prelude.{◌≡◌};
    ghost use Rattle.prompt_core.specs.declared.prompt_fault.PromptFault.TheVariants.{OutOfMemory};

    ghost from_gives = { λ _ fault. fault ≡ OutOfMemory };

    fn from(_refused: Oom) -> PromptFault {
        PromptFault::OutOfMemory
    }
}

impl From<InputFault> for PromptFault {
    ghost use Rattle.std.specs.Prelude.{◌≡◌};
    ghost use Rattle.prompt_core.specs.Ends.{of_input};

    ghost from_gives = { λ given fault. fault ≡ of_input given };

    fn from(fault: InputFault) -> PromptFault {
        match fault {
            InputFault::ReadFault => PromptFault::ReadFault,
            InputFault::TooLong => PromptFault::TooLong,
            InputFault::OutOfMemory => PromptFault::OutOfMemory,
        }
    }
}
