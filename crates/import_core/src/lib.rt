//! Makes a note of each event of logs, with the step that stands for the event, and finds an order in which a bench can
//! play the events.
//!
//! The crate stands on `log_core` for what a line says, on `event_order` for the order of events, on `spelling_core`
//! for words, on `diff_core` for rows, and on `bench_core` for steps and sets of texts. It names the plain types of the
//! crates below. The modules in reading order: `numbering`, the number of a text; `texts`, the text of a value;
//! `tables`, which number stands for which text; `note_fault`, why an event has no note; `noting`, an event as a
//! step; `rows`, what a real node listed; `fault`, why lines give no script; `notes`, the notes of all events;
//! `lenient`, which events are left out; `importing`, from bytes to notes and an order; `laws`, what holds of the
//! tables.
#![tactic(auto)]

mod fault;
mod importing;
pub mod laws;
mod lenient;
mod note_fault;
mod notes;
mod noting;
mod numbering;
mod rows;
mod tables;
mod texts;

pub use fault::{FaultKind, ImportFault};
pub use importing::{Import, imported, left_out_of, lines_of};
pub use notes::Noted;
pub use tables::Tables;
pub use texts::text_of;
