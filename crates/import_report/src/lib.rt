//! The script of an import: what the events of logs ask of a bench, as lines that a play reads; and where the bench and
//! the real nodes part.
//!
//! The crate stands on `import_core` for the events and their order, on `bench_core` for the bench, on `report_core`
//! for lines and for what a bench answers, on `listed_core` for what a real node listed, on `grammar_core` for what a
//! script may have, and on `run_core`, which says how lines are read back. The crate names the plain types of the
//! crates below. The modules in reading order: `names`, the nodes' names in the script; `ascii`, JSON in ASCII;
//! `comments`, what the nodes' names and the cut words stand for; `numbers`, the numbers of messages in outboxes;
//! `events`, the line of an event, and the bench after it; `script`, all lines; `checks`, where the bench and the real
//! nodes part; `importing`, from the bytes of logs to a script, to a bench, or to what `checks` tells.
#![tactic(auto)]

mod ascii;
mod checks;
mod comments;
mod events;
mod importing;
mod names;
mod numbers;
mod script;

pub use events::play;
pub use importing::{Checked, import_bench, import_check, import_script};
pub use names::shown_names;
pub use numbers::asked;
pub use script::{Scripted, zeros};
