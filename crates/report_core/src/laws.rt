//! The law of the `dots` lines, as the contract of a function that does nothing.
//!
//! A crate above uses a law by calling its function.
ghost use Rattle.report_core.specs.Laws.{DotsLaw};

/// The numbers of a `dots` line are the context clock of its name and the name's cloud.
pub fn dots_law()
    ensures { DotsLaw }
{}
