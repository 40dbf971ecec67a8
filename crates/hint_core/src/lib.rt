//! Hints: what the first fault of an input means, and what to do about it, in one line. To find a hint, the crate looks
//! at the refused input.
//!
//! It stands on `grammar_core` (the faults of a script, and what a line and its words are), on `import_core` and
//! `log_core` (the faults of events, and the value of a line), on `bench_core` (what a name is), and on the kit's
//! `arrayvec` and `serde_json`. Words are looked at in place: only the text of a hint and the value of one line of
//! events take memory.
//!
//! The modules in reading order: `hint`, a hint and its text; `line_words`, the words of a line, and what the lines
//! before it name; `forms`, the form of a line; `words_hint`, `names_hint` and `text_hint`, the hint by the kind of a
//! fault; `first_bytes`, what an input begins with; `hints`, the hint of a script and of a session; `event_forms`, the
//! keys of an event; `event_hints`, the hint of events.
#![tactic(auto)]

mod event_forms;
mod event_hints;
mod first_bytes;
mod forms;
mod hint;
mod hints;
mod line_words;
mod names_hint;
mod text_hint;
mod words_hint;

pub use event_hints::import_hint;
pub use first_bytes::begins_object;
pub use hints::{script_hint, session_hint};
