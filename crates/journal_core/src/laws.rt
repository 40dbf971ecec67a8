//! The laws of loans and of futures, as contracts of functions that do nothing.
//!
//! A crate above uses a law by calling its function.
ghost use Rattle.journal_core.specs.Laws.{FutureLaw, GatheredLaw, LoanLaw};

/// Lending an inverse and putting it back leaves all as before. Taking out a step whose inverse is lent leaves the
/// others with their inverses.
pub fn loan_law()
    ensures { LoanLaw }
{}

/// In a journal in causal order each step has exactly one future. The future can be taken back step by step, and any
/// undos that take back the step take back its whole future. (Danos and Krivine.)
pub fn future_law()
    ensures { FutureLaw }
{}

/// In a journal in causal order, `gathered_numbers`, which goes over the steps once, gives the future of a step.
pub fn gathered_law()
    ensures { GatheredLaw }
{}
