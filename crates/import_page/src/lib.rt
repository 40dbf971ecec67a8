//! What logs tell on a page besides the calls of the bench on which the logs' events were played: further keys of the
//! page's data.
//!
//! The crate stands on `import_core` for the events and their order, on `import_report`, which plays events, on
//! `log_core` for the value of a line, on `listed_core` for what a real node listed, on `bench_core` for the bench, and
//! on `page_data` for JSON. It names the plain types of the crates below. The modules in reading order: `times`, the
//! time of a line; `rows`, where lists part; `entries`, the events as JSON; `importing`, from the bytes of logs to the
//! keys; `laws`, which says that no `<` stands in the keys.
#![tactic(auto)]

mod entries;
mod importing;
pub mod laws;
mod rows;
mod times;

pub use importing::{Shown, import_shown};
