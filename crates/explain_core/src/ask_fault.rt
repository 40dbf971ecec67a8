//! `AskFault`: why nothing is explained.
ghost use Rattle.std.specs.Prelude.{◌≡◌};

use dots_core::Oom;
use payload_core::WordFault;
use thiserror::Error;

/// Why nothing is explained.
#[derive(Clone, Copy, Debug, PartialEq, Eq, Error)]
pub enum AskFault {
    /// No node has this name.
    #[error("NoSuchNode")]
    NoSuchNode,
    /// The topic or the key isn't a word, so nothing is tracked under it.
    #[error("NoWord")]
    NoWord,
    /// A request for memory was refused.
    #[error("out of memory")]
    OutOfMemory,
}

impl From<Oom> for AskFault {
    ghost use Rattle.explain_core.specs.declared.ask_fault.AskFault.TheVariants.{OutOfMemory};

    ghost from_gives = { λ _ fault. fault ≡ OutOfMemory };

    fn from(_: Oom) -> AskFault {
        AskFault::OutOfMemory
    }
}

impl From<WordFault> for AskFault {
    ghost use Rattle.explain_core.specs.Questions.{fault_of_word};

    ghost from_gives = { λ fault given. given ≡ fault_of_word fault };

    fn from(fault: WordFault) -> AskFault {
        match fault {
            WordFault::BadWord => AskFault::NoWord,
            WordFault::OutOfMemory => AskFault::OutOfMemory,
        }
    }
}
