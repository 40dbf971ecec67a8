//! Plays scripts on a bench, and gives the reports of what the bench answered.
//!
//! It stands on `grammar_core` (scripts as they are read), `report_core` (what is printed of a bench) and `bench_core`
//! (the machine); it names the plain types of the crates below.
//!
//! `run` plays a script on a bench; `history` does the same for recorded acts; `prompt` takes lines one by one. `laws`
//! says that the printed line of a step is read as the same step, and that a prompt prints the report of a play.
#![tactic(auto)]

mod history;
pub mod laws;
mod prompt;
mod run;

pub use history::report_history;
pub use prompt::Prompt;
pub use run::{Played, command, run_script};
