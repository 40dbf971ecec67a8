//! What nodes send each other: messages, the sets of entries in them, and the outboxes that keep messages.
//!
//! The crates above see an entry set as a finite map, and an outbox as a list, each with its room. They don't see how
//! these are kept. This crate uses `dots_core`, `entry_core` and `block_core`; it knows nothing of replicas and steps.
//!
//! The modules in reading order: `hash`, a number for a process, a topic and a key; `track_index`, which finds the
//! entries of one name by their hashes; `entry_set`, live entries by dot; `payload`, a message; `outbox`, the messages
//! of a node.
#![tactic(auto)]

mod entry_set;
mod hash;
mod outbox;
mod payload;
mod track_index;

pub use entry_core::{Entry, Handle, LONGEST_WORD, Word, WordFault};
pub use entry_set::EntrySet;
pub use outbox::{Outbox, OutboxFault};
pub use payload::Payload;
