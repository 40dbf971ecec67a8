//! Plays scripts: from their bytes to their reports, from a reader to a writer.
//!
//! It stands on `grammar_core` (scripts as they are read), `run_core` (scripts run on a bench) and `stream_core` (whole
//! inputs, all bytes to a writer), and names the plain types of the crates below. It exports again what its users need
//! of these three, and for tests the reader and the writer of `stream_core` that fail.
//!
//! The modules in reading order: `play_fault`, why a play ends early; `playing`, a script from a reader to a writer.
#![tactic(auto)]

mod play_fault;
mod playing;

pub use grammar_core::{
    Command, FaultKind, Line, Script, ScriptFault, actors, acts, console_names, line_number,
    node_names, parse_script,
};
pub use play_fault::PlayFault;
pub use playing::{play, play_counted};
pub use run_core::{Played, Prompt, report_history, run_script};
pub use stream_core::{
    FakeReader, FakeWriter, InputFault, Lost, Steps, WriteFault, read_all, read_input, write_noted,
    write_out,
};
