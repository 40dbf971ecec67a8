//! The online list of a replica.
ghost use Rattle.std.specs.Prelude.{◌≡◌, IfOk};
ghost use Rattle.diff_core.specs.Online.{IsOnlineList};
ghost use Rattle.diff_core.specs.Sorting.{online_of};

use crate::online_row::OnlineRow;
use dots_core::Oom;
use replica_core::Replica;
use std::alloc::Allocator;

/// The rows of the live entries whose name is known and up, sorted. (Phoenix.Tracker's lists leave out entries of
/// replicas that are down, too.)
pub fn online_list<A: Allocator + Copy>(
    alloc: A,
    replica: &Replica<A>,
) -> Result<Vec<OnlineRow<A>, A>, Oom>
    ensures rows { IfOk result (λ rows. IsOnlineList replica.now rows.items) }
    ensures value { IfOk result (λ rows. rows.items ≡ online_of replica.now) }
{
    let mut rows = Vec::new(alloc);
    let mut walk = replica.entries().walk();
    while let Some(entry) = walk.next() {
        if replica.online(entry.dot.name) {
            OnlineRow::put(&mut rows, entry)?;
        }
    }
    rows.sort_unstable();
    Ok(rows)
}
