//! Appends trees of SVG elements to a growing text.
//!
//! The crate uses std alone. The modules in reading order: `escape`, texts as they stand in XML; `attribute`, the
//! attributes of an element; `element`, beginnings, ends and whole elements; `laws`, that the text of an element is a
//! document.
#![tactic(auto)]

mod attribute;
mod element;
mod escape;
pub mod laws;

pub use attribute::{Attribute, Value};
pub use element::{put_end, put_leaf, put_start};
pub use escape::{put_escaped, put_number};
