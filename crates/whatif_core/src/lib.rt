//! What would have made a difference: the single changes of a run after which a node would show other rows with a topic
//! and key. A run is what each node did, in its order.
//!
//! The crate stands on `change_core`, which says where a changed run leads, on `bench_core`, whose steps are changed,
//! and on `progress_core`, whose watcher hears how many changes were tried. It names the plain types of the crates
//! below. The modules in reading order: `changes`, all changes that can be made to a run; `difference`, changes that
//! lead to the same rows; `differing`, all changes that make a difference; `laws`, what holds of these.
#![tactic(auto)]

mod changes;
mod difference;
mod differing;
pub mod laws;

pub use change_core::{Change, Kind, Question, run_with};
pub use difference::Difference;
pub use differing::{Differences, whatif};
