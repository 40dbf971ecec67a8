//! Watches how far long work has come, and prints that as lines.
//!
//! The crate stands on `stream_core` alone. The modules in reading order: `work`, how far work has come; `watch`, who
//! watches it; `line`, the line that says how far it has come; `pace`, when a line is due; `teller`, who prints lines;
//! `fakes`, a clock for tests.
#![tactic(auto)]

mod fakes;
mod line;
mod pace;
mod teller;
mod watch;
mod work;

pub use fakes::FakeClock;
pub use teller::Teller;
pub use watch::{Silent, Watch};
pub use work::{Tried, Walked};
