//! What the text of a saved session says, before its calls are asked.
//!
//! The crate stands on `bench_core` (names, limits and recorded calls), on `event_core`, which has recorded calls as
//! JSON, on `json_core`, which gives the values of a text one by one, and on the kit's `json` and `serde_json`, whose
//! values take their memory from the global heap. It names the plain types of the crates below. The modules in reading
//! order: `session_fault`, why a text gives no bench; `read_parts`, what a session's head says, which is all but its
//! acts; `acts` and `draft`, from a text to the value of its head and the events of its acts, value by value;
//! `version`, the form of a text; `scan`, from a compact text to what it says, without values; `recording`, from any
//! text to what it says.
#![tactic(auto)]

mod acts;
mod draft;
mod read_parts;
mod recording;
mod scan;
mod session_fault;
mod version;

pub use acts::Acts;
pub use recording::{Recording, read_session};
pub use session_fault::SessionFault;
pub use version::Version;
