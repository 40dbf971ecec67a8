//! `WhatifFault`: why a question gets no text, or a change no script.
ghost use Rattle.std.specs.Prelude.{◌≡◌};

use dots_core::Oom;
use payload_core::WordFault;
use thiserror::Error;

/// Why a question gets no text, or a change no script.
#[derive(Clone, Copy, Debug, PartialEq, Eq, Error)]
pub enum WhatifFault {
    /// No node has the name that is asked about.
    #[error("NoSuchNode")]
    NoSuchNode,
    /// The topic or the key isn't a word, so nothing is tracked under it.
    #[error("NoWord")]
    NoWord,
    /// The text has `changes` changes, and none has the number that was asked for.
    #[error("NoSuchChange, there are {changes}")]
    NoSuchChange { changes: usize },
    /// A request for memory was refused.
    #[error("out of memory")]
    OutOfMemory,
}

impl From<Oom> for WhatifFault {
    ghost use Rattle.whatif_report.specs.declared.whatif_fault.WhatifFault.TheVariants.{OutOfMemory};

    ghost from_gives = { λ _ fault. fault ≡ OutOfMemory };

    fn from(_: Oom) -> WhatifFault {
        WhatifFault::OutOfMemory
    }
}

impl From<WordFault> for WhatifFault {
    ghost use Rattle.whatif_report.specs.Questions.{fault_of_word};

    ghost from_gives = { λ fault given. given ≡ fault_of_word fault };

    fn from(fault: WordFault) -> WhatifFault {
        match fault {
            WordFault::BadWord => WhatifFault::NoWord,
            WordFault::OutOfMemory => WhatifFault::OutOfMemory,
        }
    }
}
