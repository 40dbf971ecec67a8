//! Reads the JSON values of a text one after another, as values of `serde_json`; and what a compact text begins with,
//! where it stands.
//!
//! Stands on three crates of the kit: `json`, whose reader gives a text's tokens; `serde_json`, whose values take their
//! memory from the global heap; and `fast_float`, which reads a whole number in place. The modules in reading order:
//! `unread`, why a value can't be read; `one_value`, the next value of a reader; `items`, what stands at a place of a
//! list; `compact`, the whole number or the string that a text begins with, without tokens and values.
#![tactic(auto)]

mod compact;
mod items;
mod one_value;
mod unread;

pub use compact::{behind, plain_front, string_front, whole_front};
pub use items::{ends_at, number_in, text_in};
pub use one_value::{value_from, value_of};
pub use unread::Unread;
