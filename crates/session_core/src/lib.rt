//! Saved sessions: a bench's names, limits and recorded calls as JSON, and back to a bench.
//!
//! The crate stands on `recording_core`, which reads what a session's text says, on `bench_core` (the bench that is
//! saved or asked), on `event_core`, which has recorded calls as JSON, and on the kit's `serde_json`, whose values take
//! their memory from the global heap. It names the plain types of the crates below. The modules in reading order:
//! `saving`, from a bench to its text; `loading`, which asks the calls again and compares each reply; `carrying`, from
//! a text to one of the latest version, the second.
#![tactic(auto)]

mod carrying;
mod loading;
mod saving;

pub use carrying::carry;
pub use loading::load;
pub use recording_core::{Acts, Recording, SessionFault, Version, read_session};
pub use saving::save;
