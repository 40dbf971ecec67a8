//! The single changes of a run, and where a run with such a change leads. A run is what each node did, in its order.
//!
//! The crate stands on `bench_core`, whose cluster plays a changed run, on `order_core`, which finds an order of what
//! the nodes did, and on `diff_core`, which lists who is online. It names the plain types of the crates below. The
//! modules in reading order: `change`, one change, and whether it can be made to a run; `steps`, copies of steps;
//! `changed`, the steps with a change; `question`, and `rows`, what a node shows; `walk`, a run that is played and
//! taken back, and `playing`, where changed runs lead; `running`, the run with a change.
#![tactic(auto)]

mod change;
mod changed;
mod playing;
mod question;
mod rows;
mod running;
mod steps;
mod walk;

pub use change::{Change, Kind, is_change};
pub use playing::Search;
pub use question::Question;
pub use rows::{Rows, rows_before, rows_in};
pub use running::run_with;
pub use steps::{Steps, copied};
