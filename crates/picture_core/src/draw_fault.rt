//! `DrawFault`: why nothing is drawn.
ghost use Rattle.std.specs.Prelude.{◌≡◌};

use dots_core::Oom;
use payload_core::WordFault;
use thiserror::Error;

/// Why nothing is drawn.
#[derive(Clone, Copy, Debug, PartialEq, Eq, Error)]
pub enum DrawFault {
    /// No node has the name that is asked about.
    #[error("NoSuchNode")]
    NoSuchNode,
    /// The topic or the key isn't a word, so nothing is tracked under it.
    #[error("NoWord")]
    NoWord,
    /// A request for memory was refused.
    #[error("out of memory")]
    OutOfMemory,
}

impl From<Oom> for DrawFault {
    ghost use Rattle.picture_core.specs.declared.draw_fault.DrawFault.TheVariants.{OutOfMemory};

    ghost from_gives = { λ _ fault. fault ≡ OutOfMemory };

    fn from(_: Oom) -> DrawFault {
        DrawFault::OutOfMemory
    }
}

impl From<WordFault> for DrawFault {
    ghost use Rattle.picture_core.specs.Views.{fault_of_word};

    ghost from_gives = { λ fault given. given ≡ fault_of_word fault };

    fn from(fault: WordFault) -> DrawFault {
        match fault {
            WordFault::BadWord => DrawFault::NoWord,
            WordFault::OutOfMemory => DrawFault::OutOfMemory,
        }
    }
}
