//! Stores with their deltas, the edits of them, and for each edit a method that takes it back.
//!
//! A store has the dots that were seen, and the live entries among them. Its delta is a second store: what the node did
//! since it last sent its delta. An edit first does all that needs memory, and takes it back if memory is refused; the
//! rest can't be refused. The crates above see a store and its delta as sets of dots and maps of entries. This crate
//! uses `payload_core` and the crates below that; it knows nothing of replicas and steps.
//!
//! The modules in reading order: `delta_store`, the type; then its edits: `store_joins`, a join; `left_entry`, what a
//! leave destroyed; `store_leaves`, a leave and an update; `leaves_together`, several leaves; `store_deliveries`, a
//! delivery; `forgotten_name`, forgetting a name; `delta`, what a node sends. `entry_moves` takes several entries out
//! of a set and puts them back; `laws`, of deliveries.
#![tactic(auto)]

mod delta;
mod delta_store;
mod entry_moves;
mod forgotten_name;
pub mod laws;
mod leaves_together;
mod left_entry;
mod store_deliveries;
mod store_joins;
mod store_leaves;

pub use delta_store::DeltaStore;
pub use forgotten_name::Forgotten;
pub use left_entry::Left;
pub use store_deliveries::{Delivered, OldPart};
