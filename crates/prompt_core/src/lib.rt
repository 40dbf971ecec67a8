//! A bench at a prompt: lines are carried out one by one, as they are read.
//!
//! The crate stands on `run_core` (reads and carries out a line), `grammar_core` (the faults and the words of a line),
//! `stream_core` (input line by line), `session_core` (a bench as a session), `explain_core` (who is online, and why),
//! `whatif_report` (what would have made a difference), `picture_core` (pictures), `transcript_core` (a run as a
//! script, and step by step), `report_core` (names and steps as they are printed), `progress_core` (a watcher that
//! tells nobody) and `bench_core` (benches). It names the plain types of the crates below.
//!
//! The modules in reading order: `prompt_fault`, why a prompt ends early; `setting`, what a prompt runs with;
//! `fault_line`, a fault as a prompt prints it; `sent`, what a node has sent; `runs` and `own`, the responses to the
//! prompt's own lines; `responding`, the response to a line; `quit`, the line that ends a prompt; `out`, bytes that go
//! out at once; `signs`, the sign before a line; `stepping`, a prompt from a reader to a writer. `laws` says that what
//! a prompt prints for a script without faults is the script's report.
#![tactic(auto)]

mod fault_line;
pub mod laws;
mod out;
mod own;
mod prompt_fault;
mod quit;
mod responding;
mod runs;
mod sent;
mod setting;
mod signs;
mod stepping;

pub use prompt_fault::PromptFault;
pub use setting::PromptSetting;
pub use stepping::{step, step_counted};
