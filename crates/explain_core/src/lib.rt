//! Why a presence is online at a node of a bench, or why not, told by the steps that remain.
//!
//! The crate stands on `bench_core`, as it asks the steps again of a fresh bench, and on `report_core`, which prints
//! steps. It names the plain types of the crates below. The modules in reading order: `standing`, how a dot stands at a
//! node and in a message; `hop`, what a step did to a dot; `track`, how a dot came to stand as it does, step by step;
//! `tracking`, the remaining steps asked again; `making`, the steps that made presences of a topic and key; `tracing`,
//! these presences with their tracks; `finding`, how a presence stands at a node, and why; `explaining`, the text;
//! `asking`, the text for a question in words; `ask_fault`, why there is no text; and `laws`, what holds of
//! explanations.
#![tactic(auto)]

mod ask_fault;
mod asking;
mod explaining;
mod finding;
mod hop;
pub mod laws;
mod making;
mod standing;
mod tracing;
mod track;
mod tracking;

pub use ask_fault::AskFault;
pub use asking::{Question, explain_asked};
pub use explaining::explain;
