//! The dots of a name, and how a dot stands.
ghost use Rattle.std.specs.Prelude.{◌≡◌, ◌++◌, ◌<◌, IfOk, OnOk};
ghost use Rattle.dots_core.specs.Absorbed.{numbers};
ghost use Rattle.dots_core.specs.Names.{most_names};
ghost use Rattle.store_core.specs.Stores.{standing, store_of};
ghost use Rattle.report_core.specs.Dots.{clock_of};
ghost use Rattle.page_data.specs.Carried.{clocks_of, more_of};

use dots_core::{Dot, DotSet, Oom};
use payload_core::{EntrySet, Payload};
use replica_core::Replica;
use report_core::{clock_of, cloud_of};
use std::alloc::Allocator;

/// How a dot stands among the dots `seen` and their entries: 0 unseen, 1 live, 2 gone.
fn standing<A: Allocator>(seen: &DotSet<A>, entries: &EntrySet<A>, dot: Dot) -> u64
    ensures { result ≡ standing (record { seen = seen.now; entries = entries.now.map }) dot }
{
    match entries.get(dot) {
        Some(_) => 1,
        None => { if seen.contains(dot) { 2 } else { 0 } }
    }
}

/// How a dot stands at a replica: 0 unseen, 1 live, 2 gone.
pub fn standing_at<A: Allocator>(replica: &Replica<A>, dot: Dot) -> u64
    ensures { result ≡ standing replica.now.store dot }
{
    standing(replica.seen(), replica.entries(), dot)
}

/// How a dot stands in a message: 0 unseen, 1 live, 2 gone.
pub fn standing_told<A: Allocator>(message: &Payload<A>, dot: Dot) -> u64
    ensures { result ≡ standing (store_of message.now) dot }
{
    standing(message.seen(), message.entries(), dot)
}

/// Appends the clocks from 1 to `last`.
fn put_clocks<A: Allocator>(clocks: &mut Vec<u64, A>, last: u64) -> Result<(), Oom>
    ensures { OnOk result (clocks.new.items ≡ clocks.old.items ++ numbers 1 last) }
{
    // form: counted from 0, for the proof
    for before in 0..last {
        clocks.push(before + 1)?;
    }
    Ok(())
}

/// The clocks of a name's dots in `seen`, rising: those from 1 to the name's context clock, and the name's cloud.
#[tactic(auto, unfolding(crate::specs::Carried::clocks_of))]
pub fn clocks_of<A: Allocator, R: Allocator>(
    seen: &DotSet<R>,
    name: u16,
    alloc: A,
) -> Result<Vec<u64, A>, Oom>
    requires { name < most_names }
    ensures { IfOk result (λ clocks. clocks.items ≡ clocks_of seen.now name) }
{
    // form: hands out what the set keeps
    seen.valid_law();
    let mut clocks = Vec::new(alloc);
    put_clocks(&mut clocks, clock_of(seen, name))?;
    clocks.extend_from_slice(cloud_of(seen, name))?;
    Ok(clocks)
}

/// How many clocks the cloud of a name has in `seen`.
#[tactic(auto, unfolding(crate::specs::Carried::more_of))]
pub fn more_of<R: Allocator>(seen: &DotSet<R>, name: u16) -> u64
    requires { name < most_names }
    ensures { result ≡ more_of seen.now name }
{
    // form: hands out what the set keeps
    seen.valid_law();
    cloud_of(seen, name).len() as u64
}

/// The context clock of a name in `seen`; 0 if the name's dot with clock 1 isn't there.
pub fn last_of<R: Allocator>(seen: &DotSet<R>, name: u16) -> u64
    requires { name < most_names }
    ensures { result ≡ clock_of seen.now name }
{
    // form: hands out what the set keeps
    seen.valid_law();
    clock_of(seen, name)
}
