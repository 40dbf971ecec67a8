//! The journal of a cluster: the steps that remain, each with its inverse, and which of them follow from which.
//!
//! The crate stands on `node_core` (steps and inverses as values; what a step delivers and whether it sends), and it
//! names the plain types of the crates below. It knows nodes by their numbers alone, and nothing of what they hold.
//!
//! The modules in reading order: `kept`, a step with its number; `held`, a kept step with its inverse; `numbers`,
//! rising lists of numbers; `slots`, the held steps by number; `steps`, a walk over them; `causes`, the index of one
//! node, with its steps and the deliveries of its messages; `room`, the kinds of steps for which room is made ahead;
//! `edits`, edits of the slots and of all indices; `future`, what follows from a step; `journal`, the type; `laws`, of
//! loans and of futures.
#![tactic(auto)]

mod causes;
mod edits;
mod future;
mod held;
mod journal;
mod kept;
pub mod laws;
mod numbers;
mod room;
mod slots;
mod steps;

pub use journal::Journal;
pub use kept::Kept;
pub use steps::Steps;
