//! One presence node: a replica with an outbox of numbered messages. A step takes the node forward, and the step's
//! inverse takes it back.
//!
//! The crate stands on `replica_core` (the replica and its changes), `payload_core` (words, messages, outboxes) and
//! `dots_core` (sets of names). The modules in reading order: `step`, what a node does; `step_fault`, why it refuses a
//! step; `meter`, which counts the steps that were taken; `inverse`, what leads back from a step; `node`; `laws`, of
//! the way back.
#![tactic(auto)]

mod inverse;
pub mod laws;
mod meter;
mod node;
mod step;
mod step_fault;

pub use inverse::Inverse;
pub use meter::Meter;
pub use node::Node;
pub use replica_core::NodeLimits;
pub use step::Step;
pub use step_fault::StepFault;
