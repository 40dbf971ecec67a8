//! What an engineer looks at: who is online at a replica, as sorted rows, and how two such lists differ.
//!
//! The crate stands on `replica_core` (the replica whose list it makes) and `payload_core` (words), and names the plain
//! types of the crates below; it knows nothing of nodes, steps and clusters.
//!
//! The modules in reading order: `online_row`, what is shown of a live entry; `listing`, the online list; `row_diff`
//! and `comparing`, how two lists differ; `entry_row`, a borrowed entry seen as its row; `few_rows`, the row that a
//! call put into the list or took out of it, if there is one at most; `changing`, how a call changed the list;
//! `netting`, what several changes come to; `laws`, what holds of lists and their differences.
#![tactic(auto)]

mod changing;
mod comparing;
mod entry_row;
mod few_rows;
pub mod laws;
mod listing;
mod netting;
mod online_row;
mod row_diff;

pub use changing::{changed, rows_given, rows_taken};
pub use comparing::diff;
pub use entry_row::EntryRow;
pub use few_rows::{FewRows, few_given, few_taken};
pub use listing::online_list;
pub use netting::net;
pub use online_row::OnlineRow;
pub use row_diff::Diff;
