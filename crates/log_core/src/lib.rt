//! A line of a log as an event of a node.
//!
//! The crate stands on the kit's `serde_json` and on `thiserror` alone. It takes no memory besides the value of the
//! line: an event borrows parts of that value. The modules in reading order: `line_fault`, why a line has no value;
//! `value`, the value of a line; `event`, what an event says; `members`, what stands under a key; `reading`, from a
//! value to an event.
#![tactic(auto)]

mod event;
mod line_fault;
mod members;
mod reading;
mod value;

pub use event::{LogEvent, LogLine, Row, Tracked};
pub use line_fault::LineFault;
pub use members::text_in;
pub use reading::{line_at, row_at};
pub use value::value_of_line;
