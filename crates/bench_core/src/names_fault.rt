//! `NamesFault`: why no `Names` were made of texts.
ghost use Rattle.std.specs.Prelude.{◌≡◌};
ghost use Rattle.bench_core.specs.declared.names_fault.NamesFault.TheVariants.{OutOfMemory};

use dots_core::Oom;
use thiserror::Error;

/// Why no `Names` were made of texts. Places are counted from 1.
#[derive(Clone, Copy, Debug, PartialEq, Eq, Error)]
pub enum NamesFault {
    /// There is no text, or there are more than 32.
    #[error("WrongCount")]
    WrongCount,
    /// The text at this place isn't a name.
    #[error("BadName at {at}")]
    BadName { at: usize },
    /// The name at this place stands at an earlier place, too.
    #[error("Twice at {at}")]
    Twice { at: usize },
    /// A request for memory was refused.
    #[error("OutOfMemory")]
    OutOfMemory,
}

impl From<Oom> for NamesFault {
    ghost from_gives = { λ _ e. e ≡ OutOfMemory };

    fn from(_e: Oom) -> NamesFault {
        NamesFault::OutOfMemory
    }
}
