//! What the workers of a race tell, and whether that accounts for the history after the race: plain values, without
//! threads.
//!
//! The crate stands on `bench_core` (the machine), and names the plain types of the crates below. The modules in
//! reading order: `receipt`, what a worker tells of a call; `asking`, one call on a borrowed bench; `places`, the
//! places that receipts name; `agreeing`, whether receipts account for a history; `race_fault`, why a race may not
//! begin, or can't be vouched for; `vouching`, whether a race may begin, and whether it can be vouched for.
#![tactic(auto)]

mod agreeing;
mod asking;
mod places;
mod race_fault;
mod receipt;
mod vouching;

pub use agreeing::agree;
pub use asking::ask;
pub use race_fault::{RaceFault, WorkersFault};
pub use receipt::{Receipt, Receipts};
pub use vouching::{Known, known_of, refusal, vouched};
