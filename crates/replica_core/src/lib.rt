//! The replica of one presence node: an observed-remove set with exact undo of its last call.
//!
//! A replica joins processes under topics and keys, updates them and lets them leave, sends what it has seen, and
//! merges what others sent. It does so in the manner of Phoenix.Tracker.State, with sets. The crate can be used on its
//! own. It stands on `store_core` (a store with its delta), `payload_core` (words, entries, messages) and `dots_core`
//! (sets of dots), and it names the plain types of the crates below. It knows nothing of outboxes, steps and clusters.
//!
//! The modules in reading order: `node_limits`, how much a node may hold; `status`, up or down; `view`, which names the
//! replica knows, and which are up; `replica_fault`, why a call is refused; `change`, what a call destroyed; `replica`,
//! and below it a module for each kind of call: `joins`, `leaves`, `process_leaves`, `updates`, `deliveries`,
//! `statuses`, `deltas`; and `undone`, which takes a call back by its change; `laws`.
#![tactic(auto)]

mod change;
pub mod laws;
mod node_limits;
mod replica;
mod replica_fault;
mod status;
mod view;

pub use change::Change;
pub use node_limits::NodeLimits;
pub use replica::Replica;
pub use replica_fault::ReplicaFault;
pub use status::Status;
