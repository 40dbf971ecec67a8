//! Recorded calls as JSON values, and back.
//!
//! The crate stands on `bench_core` for calls and replies, on `json_core`, which reads JSON lists place by place, and
//! on the kit's `serde_json`, whose values take their memory from the global heap. It names the plain types of the
//! crates below. The modules in reading order: `write_act`, `write_reply` and `write_event`, from a call to its value;
//! `operands`, `read_step`, `read_act`, `read_reply` and `read_event`, from a value to what it says; `front_operands`,
//! `front_step` and `front_event`, from compact text to what it says, without a value.
#![tactic(auto)]

mod front_event;
mod front_operands;
mod front_step;
mod operands;
mod read_act;
mod read_event;
mod read_reply;
mod read_step;
mod write_act;
mod write_event;
mod write_reply;

pub use front_event::event_front;
pub use read_event::event_at;
pub use write_event::event_value;
