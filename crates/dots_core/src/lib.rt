//! Dots, and finite sets of them.
//!
//! A dot is a replica's name with one of that replica's clocks. The crates above see a set of dots as a finite set; how
//! it is kept, as a context clock and a cloud for each name, is this crate's own business. The crate uses std alone.
//!
//! The modules in reading order: `dot`; `name_set`, a set of names; `clock_bits`, clocks of a name as bits; `part`, the
//! dots of one name; `union`, the union of two parts; `dot_set`, a set of dots; `laws`, of sets of dots.
#![tactic(auto)]

mod clock_bits;
mod dot;
mod dot_set;
pub mod laws;
mod name_set;
mod part;
mod union;

pub use dot::{Dot, LAST_CLOCK, MOST_NAMES};
pub use dot_set::DotSet;
pub use name_set::NameSet;
pub use part::Part;

/// A request for memory was refused. This is std's error, so `?` on a call of std passes it on.
pub use std::alloc::AllocError as Oom;
