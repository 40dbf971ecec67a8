//! What is printed of a bench: acts and how they changed online lists, unwinds, steps, lists and sets of dots. Here, to
//! print is to append to a text.
//!
//! It stands on `bench_core` (the machine) and `diff_core` (online lists), and on the kit's `arrayvec` and `itoa`:
//! short texts and digits that take no memory. It names the plain types of the crates below, and cites laws of
//! `node_core` and `replica_core`.
//!
//! The modules: `rows`, `step_text` and `dots_text` print what they are given, rows by way of `line`. `step_diffs`
//! tells or prints what a step changed of its node's online list, and `moved` tells what several undos, made in turn,
//! changed; `shown` tells and prints what a bench shows. `acting` makes acts on a bench, and tells or prints what the
//! bench answered and what the act changed; `unwinding` prints futures and unwinds. `laws` says what the numbers of the
//! `dots` lines are.
//!
//! Inside the crate the allocator is the last parameter: its place decides how the lifetimes are numbered, and so how
//! long the check of a call takes (see `docs/CONTRIBUTING.md`).
#![tactic(auto)]

mod acting;
mod dots_text;
pub mod laws;
mod line;
mod moved;
mod rows;
mod shown;
mod step_diffs;
mod step_text;
mod unwinding;

pub use acting::{Acted, act, ask, put_acted, reply_of};
pub use dots_text::{clock_of, cloud_of, put_dots};
pub use moved::node_of_step;
pub use rows::{name_at, put_lines, put_online, put_rows};
pub use shown::{list_of, node, rows_at, show};
pub use step_diffs::{asked_undo, step_diff, undo_diff};
pub use step_text::{put_act, put_journal};
pub use unwinding::{is_out_of_memory, unwind, why};
