//! `Notes`: what the program notes in one run.
ghost use Rattle.std.specs.Prelude.{◌≡◌, false};

use crate::aside::Aside;
use script_core::{Lost, Steps};
use std::alloc::Global;
use std::sync::ledger::Ledger;

/// What the program notes in one run: the hint for an input that is refused, whether a write to an `E` failed, and how
/// often it called `read` of an `R`. Each run takes a new one.
#[derive(Drop)]
pub struct Notes<R, E, L: Ledger> {
    pub(crate) aside: Aside,
    /// Whether a line on what is missing from an import couldn't be written.
    pub lost: Lost<E>,
    /// Counts the calls of `read`.
    pub steps: Steps<R, L>,
}

impl<R, E, L: Ledger> Notes<R, E, L> {
    /// No hint and no loss, with these `steps`. A hint takes its memory from `heap`.
    pub fn new(heap: Global, steps: Steps<R, L>) -> Self
        ensures lost { result.lost ≡ false }
        ensures steps { result.steps ≡ steps }
    {
        Notes {
            aside: Aside::new(heap),
            lost: Lost::nothing(),
            steps,
        }
    }
}
