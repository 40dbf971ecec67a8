//! Words, entries, and lists of entries that may be shared.
//!
//! The crates above see a word as its bytes, a handle as its entry and a list as its entries. A short word, of up to 14
//! bytes, is stored inline, so no copy of it is refused memory. Lists share an entry only if all its words are short:
//! then it can always be copied. This crate stands on `dots_core` (dots).
//!
//! The modules in reading order: `word`; `entry`, a presence under its dot; `handle`, an entry that several lists may
//! share; `mask`, clocks as bits; `masked`, the entries of a list whose clocks are in a mask; `spare`, memory that was
//! asked for ahead of an insert; `entry_list`, entries side by side; `spot`, where the entry of a dot stands in a list.
#![tactic(auto)]

mod entry;
pub mod entry_list;
mod handle;
pub mod mask;
pub mod masked;
mod spare;
pub mod spot;
mod word;

pub use entry::Entry;
pub use entry_list::EntryList;
pub use handle::Handle;
pub use spare::{OwnList, Spare};
pub use word::{LONGEST_WORD, Word, WordFault};
