//! The rules of runs of the network: which steps may come next; which of these a walk may take alone and still miss
//! nothing; which names matter where; and the key of a state, which decides what can follow that state. A walk over
//! such runs asks these rules.
//!
//! The crate stands on `network_core` (what holds of such runs) and on `bench_core` (clusters), and names the plain
//! types of the crates below. The modules in reading order: `turn`, the turns to which steps belong; `recorded_run`, the
//! recorded steps with their turns and ranks; `state`, where a run stands; `next`, what may come next; `names`, sets of
//! names; `cone`, which names matter where; `key`, the key of a state; `first`, which step may be taken without trying
//! the others; `path`, the run of an outcome.
#![tactic(auto)]

mod cone;
mod first;
mod key;
mod names;
mod next;
mod path;
mod recorded_run;
mod state;
mod turn;

pub use cone::{Cone, Rows, cone_of, recorded, said};
pub use first::{is_easy, is_idle};
pub use key::{Key, key_of};
pub use names::all_names;
pub use next::{are_spent, count_at, is_end, is_next};
pub use path::{extend, run_of};
pub use recorded_run::RecordedRun;
pub use state::State;
pub use turn::{Rank, Turn, delivery};
