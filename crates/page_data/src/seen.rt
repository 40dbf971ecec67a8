//! `Seen`: what a node has seen of a name, as numbers. If that changed, the page gets `NAME,STATUS,CLOCK,MORE`: the
//! number of the name, and the fields of the `Seen` after the change.
ghost use Rattle.std.specs.Prelude.{◌≡◌, ◌++◌, ◌<◌, ◌≤◌, IfOk, OnOk, option_map};
ghost use Rattle.dots_core.specs.Names.{most_names};
ghost use Rattle.page_data.specs.Seen.{all_seen, change_of, changes_in, changes_of, is_same, seen_at, seen_in, seen_of, status_number};

use bench_core::Node;
use dots_core::Oom;
use replica_core::{Replica, Status};
use report_core::{clock_of, cloud_of};
use std::alloc::Allocator;

/// What a node has seen of a name.
#[derive(Clone, Copy, Debug, PartialEq, Eq)]
pub struct Seen {
    /// 0 if the name isn't known, 1 if it is up, 2 if it is down.
    pub status: u64,
    /// The context clock of the name.
    pub clock: u64,
    /// How many clocks the cloud of the name has.
    pub more: u64,
}

impl Seen {
    fn is_same(self, other: Seen) -> bool
        ensures { result ≡ is_same self other }
    {
        // form: `==`, spelled out for the contract
        self.status == other.status && self.clock == other.clock && self.more == other.more
    }
}

fn status_number(status: Option<Status>) -> u64
    ensures { result ≡ status_number status }
{
    match status {
        None => 0,
        Some(Status::Up) => 1,
        Some(Status::Down) => 2,
    }
}

/// What a replica has seen of a name.
#[tactic(auto, unfolding(crate::specs::Seen::seen_of))]
fn seen_of<R: Allocator>(replica: &Replica<R>, name: u16) -> Seen
    requires { name < most_names }
    ensures { result ≡ seen_of replica.now name }
{
    let seen = replica.seen();
    // form: hands out what the set keeps
    seen.valid_law();
    let status = status_number(replica.status(name));
    let clock = clock_of(seen, name);
    let more = cloud_of(seen, name).len() as u64;
    Seen {
        status,
        clock,
        more,
    }
}

/// What a replica has seen of each of the first `count` names.
fn all_seen<A: Allocator, R: Allocator>(
    replica: &Replica<R>,
    count: u16,
    alloc: A,
) -> Result<Vec<Seen, A>, Oom>
    requires { count ≤ most_names }
    ensures { IfOk result (λ seen. seen.items ≡ all_seen replica.now count) }
{
    let mut seen = Vec::new(alloc);
    for name in 0..count {
        seen.push(seen_of(replica, name))?;
    }
    Ok(seen)
}

/// What a node has seen of each of the first `count` names; empty without a node.
pub fn seen_in<'a, A: Allocator, B: Allocator>(
    node: Option<&Node<'a, B>>,
    count: u16,
    alloc: A,
) -> Result<Vec<Seen, A>, Oom>
    requires { count ≤ most_names }
    ensures { IfOk result (λ seen. seen.items ≡ seen_in (option_map (λ n. n.now) node.entry) count) }
{
    match node {
        Some(node) => all_seen(node.replica(), count, alloc),
        None => Ok(Vec::new(alloc)),
    }
}

/// The `Seen` of a name in `before`; past the end of `before`, that of an unknown name without dots.
fn seen_at(before: &[Seen], name: u16) -> Seen
    ensures { result ≡ seen_at before.now name }
{
    before.get(name as usize).copied().unwrap_or(Seen {
        status: 0,
        clock: 0,
        more: 0,
    })
}

/// Appends `NAME,STATUS,CLOCK,MORE` of `now` as numbers, if `now` differs from `before`.
fn put_change<A: Allocator>(
    numbers: &mut Vec<u64, A>,
    name: u16,
    before: Seen,
    now: Seen,
) -> Result<(), Oom>
    ensures { OnOk result (numbers.new.items ≡ numbers.old.items ++ change_of name before now) }
{
    if before.is_same(now) {
        return Ok(());
    }
    numbers.push(name as u64)?;
    numbers.push(now.status)?;
    numbers.push(now.clock)?;
    numbers.push(now.more)?;
    Ok(())
}

/// `NAME,STATUS,CLOCK,MORE` of each of the first `count` names whose `Seen` at the replica isn't the one in `before`,
/// as a list of numbers.
fn changes_of<A: Allocator, R: Allocator>(
    replica: &Replica<R>,
    before: &[Seen],
    count: u16,
    alloc: A,
) -> Result<Vec<u64, A>, Oom>
    requires { count ≤ most_names }
    ensures { IfOk result (λ numbers. numbers.items ≡ changes_of before.now replica.now count) }
{
    let mut numbers = Vec::new(alloc);
    for name in 0..count {
        let now = seen_of(replica, name);
        put_change(&mut numbers, name, seen_at(before, name), now)?;
    }
    Ok(numbers)
}

/// `NAME,STATUS,CLOCK,MORE` of each of the first `count` names whose `Seen` at the node isn't the one in `before`, as a
/// list of numbers; empty without a node.
pub fn changes_in<'a, A: Allocator, B: Allocator>(
    node: Option<&Node<'a, B>>,
    before: &[Seen],
    count: u16,
    alloc: A,
) -> Result<Vec<u64, A>, Oom>
    requires { count ≤ most_names }
    ensures { IfOk result (λ numbers. numbers.items ≡ changes_in before.now (option_map (λ n. n.now) node.entry) count) }
{
    match node {
        Some(node) => changes_of(node.replica(), before, count, alloc),
        None => Ok(Vec::new(alloc)),
    }
}
