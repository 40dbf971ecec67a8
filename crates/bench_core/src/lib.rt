//! The machine: a bench of presence nodes that takes steps, takes them back while nothing follows from them, and keeps
//! its nodes equal to what the remaining steps give.
//!
//! The crate stands on `node_core` (one node, its steps and the way back) and `journal_core` (the steps that remain,
//! with their inverses). Messages come from `payload_core`, and `Oom` from `dots_core`. It names the plain types of the
//! crates below.
//!
//! The modules in reading order: `names` (with `names_fault` and `texts`) and `limits`, with which a bench is opened;
//! `act`, `fault`, `reply` and `unwound`, what is asked and answered; `history`, the recorded calls; `cluster`, the
//! nodes without a history (with `among`, a step of one of several values); `bench`, the machine; `swaps`, whether
//! swaps lead from one bench to another (with `movable` and `swap_fault`); `laws`, of runs and of the machine.
#![tactic(auto)]

mod act;
mod among;
mod bench;
mod cluster;
mod fault;
mod history;
pub mod laws;
mod limits;
mod movable;
mod names;
mod names_fault;
mod reply;
mod swap_fault;
mod swaps;
mod texts;
mod unwound;

pub use act::Act;
pub use bench::Bench;
pub use cluster::Cluster;
pub use fault::Fault;
pub use history::{Event, History};
pub use journal_core::{Journal, Kept};
pub use limits::Limits;
pub use names::{LONGEST_NAME, Names, is_name};
pub use names_fault::NamesFault;
pub use node_core::{Inverse, Node, NodeLimits, Step, StepFault};
pub use reply::Reply;
pub use swap_fault::SwapFault;
pub use swaps::same_cluster;
pub use texts::TextSet;
pub use unwound::Unwound;
