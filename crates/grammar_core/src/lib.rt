//! Reads scripts: from bytes to commands, or to the first fault.
//!
//! It stands on `bench_core` (names and acts), and on the kit's `memchr` and `smallvec`: lines and words are found in
//! place, and the words of most lines take no memory. It names the plain types of the crates below.
//!
//! The modules as data flows: `words`, the lines and words of bytes; `keyword`, the keywords and verbs; `cast`, the
//! nodes and consoles; `steps` and `command`, what a line asks; `script`, a script that was read, and `parse`, which
//! reads it; `fault`, why a script is refused.
#![tactic(auto)]

mod cast;
mod command;
mod fault;
mod keyword;
mod parse;
mod script;
mod steps;
mod words;

pub use cast::{Cast, unreserved};
pub use command::Command;
pub use fault::{FaultKind, ScriptFault};
pub use keyword::{Keyword, Verb, keyword_of, verb_of};
pub use parse::{LONGEST_LINE, LONGEST_SCRIPT, Reading, parse_script, read_line};
pub use script::{Line, Script, actors, acts, console_names, line_number, lines, node_names};
pub use words::words_of;
