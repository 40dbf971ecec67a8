//! The program: it does what the words of its command line ask for with standard input, which has a script, a saved
//! session or logs, and prints to standard output.
//!
//! All of that stands in `program_core`, and what words choose in `command_line`.
#![tactic(auto)]

pub use command_line::{Choice, choice};
pub use program_core::program;

fn main(rt: HostRuntime) -> program_core::Ended {
    program_core::run(&rt, &rt)
}
