//! Live entries by their dots, in blocks that sets share.
//!
//! The crates above see a set of entries as a finite map with its room. They don't see how a set is kept: as a list of
//! blocks, in the order of their names and bases. A block has the live entries of one name among the 64 clocks from 64
//! times its base on. It keeps a list of handles and a mask of the clocks whose entries are live. Extracts and copies
//! of the set share the list. They don't if a spare gave the list's memory, or if an entry had a long word when the
//! list was made. If others share the list, an insert copies it first, and a removal only clears a bit of the mask.
//!
//! A function often passes an `Err` on by a match where `?` would do, since `?` would drop more values there.
//!
//! The crate stands on `entry_core` (entries, lists and masks) and `dots_core` (dots and sets of them).
//!
//! The modules in reading order: `list_edits`, edits of the list of a block; `block`, the live entries of one name
//! among 64 clocks; `blocks`, a list of blocks; `deliveries`, what a message changes, by masks; `walk`, over the
//! entries by rising dot; `entries_by_dot`, the set.
#![tactic(auto)]

mod block;
mod blocks;
mod deliveries;
mod entries_by_dot;
mod list_edits;
mod walk;

pub use entries_by_dot::EntriesByDot;
pub use walk::Walk;
