//! What would have made a difference, as a text; and the run with a change, as a script.
//!
//! The crate stands on `whatif_core`, which finds the changes, on `report_core`, which prints steps and rows, on
//! `transcript_core`, which prints steps as lines of a script, and on `progress_core`, whose watcher hears how many
//! changes were tried. It names the plain types of the crates below. The modules in reading order: `change_text`, one
//! change; `telling`, the whole text; `run_text`, a run as a script; `asking`, the answer to a question in words; and
//! `whatif_fault`, why there is no text.
#![tactic(auto)]

mod asking;
mod change_text;
mod run_text;
mod telling;
mod whatif_fault;

pub use asking::{Question, run_with_change, whatif_asked};
pub use whatif_fault::WhatifFault;
