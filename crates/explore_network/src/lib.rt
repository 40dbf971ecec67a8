//! All that the network could have made of the steps of a bench: what each node did, in its order, with messages that
//! come at other times, get lost, or come again. The crate finds the outcomes, each with a run that leads there.
//!
//! The crate stands on `network_rules` (which steps may come next, and the keys of states), `network_core` (what holds
//! of such runs), `change_core` (copies of steps, and the rows of a topic and a key), `bench_core` (benches and
//! clusters) and `progress_core` (how far the walk has come). It names the plain types of the crates below.
//!
//! The modules in reading order: `question`, `shown` and `outcome`, what counts as the same outcome; `turns`, the turn
//! to which each step belongs, and `counts`, how many steps of each turn came; `playing`, runs that are played;
//! `steps`, how many entries steps make, and the places of steps; `asked`, which dots a question is about, and
//! `rounds`, which names matter where; `bounds`, how far an exploration may go; `plan`, what all runs have in common;
//! `table`, the states that the walk is done with; `first`, the step that can be taken first; `explore_fault`, why there
//! are no outcomes; `walk`, the walk over all runs; `exploring`, the whole search.
#![tactic(auto)]

mod asked;
mod bounds;
mod counts;
mod explore_fault;
mod exploring;
mod first;
mod outcome;
mod plan;
mod playing;
mod question;
mod rounds;
mod shown;
mod steps;
mod table;
mod turns;
mod walk;

pub use bounds::Bounds;
pub use explore_fault::ExploreFault;
pub use exploring::{Explored, explore};
pub use outcome::Outcome;
pub use question::Question;
