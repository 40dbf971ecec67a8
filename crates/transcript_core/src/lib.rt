//! Writes a run so that it can be read: its calls as a script that plays them, and its report with each call above what
//! the call printed.
//!
//! The crate stands on `grammar_core` (scripts as they are read), `report_core` (what is printed of a bench),
//! `run_core` (commands carried out on a bench) and `bench_core` (the machine), and names the plain types of the crates
//! below.
//!
//! The modules in reading order: `actors`, the names of those who act; `lines`, a call as a line; `script`, all calls
//! as a script, and `read_back`, which reads the script again before it goes out; `fault`, why there is no script;
//! `run_lines`, the lines of a script that plays a run's steps. `steps` writes a report call by call; `refusals` tells
//! which act or unwind was refused first; `sender` finds which step sent a message; `laws` says what is read back.
#![tactic(auto)]

mod actors;
mod fault;
pub mod laws;
mod lines;
mod read_back;
mod refusals;
mod run_lines;
mod script;
mod sender;
mod steps;

pub use actors::{CastRef, console_at, free_consoles};
pub use fault::TranscriptFault;
pub use lines::put_call;
pub use refusals::{Refusal, first_in, first_refused};
pub use run_lines::{put_nodes_line, put_step_line};
pub use script::{calls_text, script_of_calls};
pub use sender::{is_sent_by, sender_of, source_of};
pub use steps::{bench_steps, script_steps};
