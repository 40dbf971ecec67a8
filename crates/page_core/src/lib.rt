//! A page that shows a run: one file of HTML, around the data of the run.
//!
//! The crate stands on std alone. The modules in reading order: `body`, `style` and `script`, what all pages have in
//! common, a file each; `frame`, what stands between the parts of a page; `page`, the whole page.
#![tactic(auto)]

mod body;
mod frame;
mod page;
mod script;
mod style;

pub use page::put_page;
