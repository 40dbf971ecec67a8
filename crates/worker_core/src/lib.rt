//! Nodes and consoles that ask at the same time: workers on threads ask lines of one locked bench, and then the history
//! is compared with what each worker tells.
//!
//! The crate stands on `receipt_core`, which says whether a race can be vouched for, on `bench_core` (the machine), and
//! on the kit's `crossbeam_channel`. It names the plain types of the crates below. The modules in reading order:
//! `gate`, what a worker calls around its lines; `workers`, a thread for each actor that has a line; `racing`, a race.
//!
//! No proof says anything of threads: neither that a worker runs, nor that it has a thread of its own, nor that a line
//! is ever asked, nor that the lock is free while a gate waits, nor that a race ends. What is proved of a race holds if
//! it returns, and rests on `agree`.
#![tactic(auto)]

mod gate;
mod racing;
mod workers;

pub use gate::Gate;
pub use racing::race;
pub use receipt_core::{RaceFault, Receipt, Receipts, agree, ask};
