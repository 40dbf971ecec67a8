//! The laws of online lists and their differences, as contracts of functions that do nothing.
//!
//! A crate above uses a law by calling its function.
ghost use Rattle.diff_core.specs.Laws.{ChangedLaw, DiffLaw, OneListLaw, OnlineLaw};

/// Two replicas with the same entries and statuses have the same online list.
pub fn one_list_law()
    ensures { OneListLaw }
{}

/// A list doesn't differ from itself. If a list is in order, so are the rows that it has and another list lacks.
pub fn diff_law()
    ensures { DiffLaw }
{}

/// A replica has one online list, which `online_of` gives.
pub fn online_law()
    ensures { OnlineLaw }
{}

/// The change of a call tells how the online list after the call differs from the one before.
#[tactic(auto, using(crate::proofs::Told::changed_holds))]
pub fn changed_law()
    ensures { ChangedLaw }
{}
