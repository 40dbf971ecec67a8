//! What the network could have made of the steps of a bench, as a text; and the run of one outcome as a script.
//!
//! The crate stands on `explore_network`, which finds the outcomes, on `change_core`, which finds the rows of a topic
//! and a key, on `report_core`, which prints rows and nodes, on `transcript_core`, which prints steps as lines of a
//! script, and on `progress_core`, whose watcher hears how far the walk has come. It names the plain types of the
//! crates below. The modules in reading order: `run_text`, a run as a script; `shown_text`, what an outcome shows;
//! `telling`, the whole text; `question`, a question in words; `asking`, from the question to the text; and
//! `report_fault`, why there is no text.
#![tactic(auto)]

mod asking;
mod question;
mod report_fault;
mod run_text;
mod shown_text;
mod telling;

pub use asking::{explore_asked, run_of_outcome};
pub use question::{About, Question};
pub use report_fault::ReportFault;
