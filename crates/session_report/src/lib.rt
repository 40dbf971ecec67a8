//! What the calls of a saved session print, as they are asked again.
//!
//! The crate stands on `session_core` (what a session's text says), on `bench_core` (the bench that is asked), on
//! `report_core` (an act, and what is printed of it) and on `run_core` (a bench with its report, and the definition of
//! a history's report). It names the plain types of the crates below. Its one module, `telling`, goes from a session's
//! text to its bench and the report of its calls.
#![tactic(auto)]

mod telling;

pub use telling::report_session;
