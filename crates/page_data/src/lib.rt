//! The data of a page that shows a run: its calls as JSON.
//!
//! For each recorded call the data tells what was asked and answered, and which steps the call's step follows from
//! directly. It also tells which rows left and joined the online list of the call's node, what changed in what that
//! node has seen, and, if the call's step sent a message, what that message carries.
//!
//! The crate stands on `report_core` (what a call changed of online lists), `transcript_core` (a call as a line of a
//! script) and `bench_core` (the machine), and names the plain types of the crates below. A law is about the chains of
//! `explain_core`.
//!
//! The modules in reading order: `json`, strings and lists of numbers; `seen`, what a node has seen of each name;
//! `clocks`, the dots of a name, and how a dot stands; `arriving`, what a delivery changes, and what its node misses;
//! `sent`, what a message carries; `rows`, rows by their dots; `steps`, what a step reads, sends and makes; `before`,
//! what must be known of a bench before a call; `calls`, what the page tells of a call; `data`, the whole data; `laws`,
//! among them that no `<` stands in the data.
#![tactic(auto)]

mod arriving;
mod before;
mod calls;
mod clocks;
mod data;
mod json;
pub mod laws;
mod rows;
mod seen;
mod sent;
mod steps;

pub use data::{page_data, page_data_with, put_texts};
pub use json::{put_comma, put_number_key, put_string, put_text_key};
pub use steps::put_word;
