//! `Unread`: why a part of a text couldn't be read.
ghost use Rattle.std.specs.Prelude.{◌≡◌};
ghost use Rattle.json_core.specs.declared.unread.Unread.TheVariants.{Memory, Shape};

use json::Invalid;
use std::alloc::{AllocError, AllocFailed};

/// Why a part of a text couldn't be read.
#[derive(Clone, Copy, Debug, PartialEq, Eq)]
pub enum Unread {
    /// A request for memory was refused.
    Memory,
    /// The part doesn't have the form that it should have.
    Shape,
}

impl From<AllocError> for Unread {
    ghost from_gives = { λ _ e. e ≡ Memory };

    fn from(_fault: AllocError) -> Unread {
        Unread::Memory
    }
}

impl<T: Drop> From<AllocFailed<T>> for Unread {
    ghost from_gives = { λ _ e. e ≡ Memory };

    fn from(_fault: AllocFailed<T>) -> Unread {
        Unread::Memory
    }
}

impl From<Invalid> for Unread {
    ghost from_gives = { λ _ e. e ≡ Shape };

    fn from(_fault: Invalid) -> Unread {
        Unread::Shape
    }
}
