//! What the program does with the words and streams that it is given: it reads a script, a saved session or logs, and
//! prints what was chosen.
//!
//! It stands on `command_line` (what the words choose), `script_core` (scripts and their reports), `grammar_core` (the
//! most bytes of a script), `prompt_core` (prompts), `session_core` (sessions) and `session_report` (their reports),
//! `picture_core` (pictures), `page_core` and `page_data` (pages), `explain_core` (explanations), `hint_core` (hints),
//! `whatif_report` (changes), `transcript_core` (calls as a script, and reports with each call above what it printed),
//! `import_core`, `import_report` and `import_page` (logs), `worker_core` (races), `explore_report` (what the network
//! could have done), `progress_core` (how far long work has come), `stream_core` (the first bytes of an input) and
//! `bench_core` (benches and limits). It names the plain types of the crates below.
//!
//! The modules in reading order: `fault` and `aside`, why the program ends as it does, and what to do about it; `host`
//! and `notes`, what the program runs with, and what it notes; `text`, bytes to be printed; `texts`, a script or a
//! session that is read; `inputs`, the run of what may be either; `racing`, what a race leaves; `exploring`, what the
//! network could have done; `whatifs`, what would have made a difference; `importing`, what is made from logs;
//! `stepping`, a prompt; `shown`, what is shown of a play; `pictures` and `pages`, how a run is drawn and shown on a
//! page; `printing`, what each choice prints; `status`, the program from its words to its status; `hosted`, the same on
//! the runtime's words and streams.
#![tactic(auto)]

mod aside;
mod exploring;
mod fault;
mod host;
mod hosted;
mod importing;
mod inputs;
mod notes;
mod pages;
mod pictures;
mod printing;
mod racing;
mod shown;
mod status;
mod stepping;
mod text;
mod texts;
mod whatifs;

pub use fault::{ProgramFault, Refused};
pub use host::{Host, Setting};
pub use hosted::{Ended, run};
pub use notes::Notes;
pub use status::{program, program_counted, program_within};
