//! The hops of a delivery, which tell what changes at the node: `NAME,CLOCK,STANDING` of each dot that stands otherwise
//! after the delivery. And what the node misses: `NAME,CLOCK,MORE` of each name that the message has dots of and the
//! node doesn't know. NAME is the number of a name. In a hop CLOCK is the dot's clock, and STANDING tells how the dot
//! stands after the delivery: 1 live, 2 gone. In the second form CLOCK is the name's context clock in the message, and
//! MORE counts the clocks of its cloud there.
ghost use Rattle.std.specs.Prelude.{◌≡◌, ◌++◌, ◌<◌, ◌≤◌, IfOk, OnOk, option_map};
ghost use Rattle.std.specs.List.{flat_map};
ghost use Rattle.dots_core.specs.Names.{most_names};
ghost use Rattle.store_core.specs.Stores.{store_of};
ghost use Rattle.replica_core.specs.Deliveries.{is_other_known};
ghost use Rattle.replica_core.specs.Replicas.{is_known};
ghost use Rattle.report_core.specs.Dots.{clock_of};
ghost use Rattle.page_data.specs.Carried.{hop, hops_at, hops_if, hops_of, hop_by, hops_to, missed_at, missed_by, missed_if, more_of};

use crate::clocks::{clocks_of, last_of, more_of, standing_at, standing_told};
use bench_core::Node;
use dots_core::{Dot, Oom};
use payload_core::Payload;
use replica_core::Replica;
use std::alloc::Allocator;

/// Appends `NAME,CLOCK,STANDING` of the dot as numbers, if its standing in the message (`coming`) is greater than that
/// at the node (`here`).
fn put_hop_by<A: Allocator>(
    numbers: &mut Vec<u64, A>,
    dot: Dot,
    here: u64,
    coming: u64,
) -> Result<(), Oom>
    ensures { OnOk result (numbers.new.items ≡ numbers.old.items ++ hop_by dot.name dot.clock here coming) }
{
    if here < coming {
        numbers.push(dot.name as u64)?;
        numbers.push(dot.clock)?;
        numbers.push(coming)?;
    }
    Ok(())
}

/// Like `put_hop_by`, but looks up how the dot stands at the replica and in the message.
fn put_hop<A: Allocator, R: Allocator>(
    numbers: &mut Vec<u64, A>,
    replica: &Replica<R>,
    message: &Payload<R>,
    dot: Dot,
) -> Result<(), Oom>
    ensures { OnOk result (numbers.new.items ≡ numbers.old.items ++ hop replica.now.store (store_of message.now) dot.name dot.clock) }
{
    let here = standing_at(replica, dot);
    let coming = standing_told(message, dot);
    put_hop_by(numbers, dot, here, coming)
}

/// Like `put_hop`, but for each dot of `name` with one of these clocks.
fn put_each_hop<A: Allocator, R: Allocator>(
    numbers: &mut Vec<u64, A>,
    replica: &Replica<R>,
    message: &Payload<R>,
    name: u16,
    clocks: &[u64],
) -> Result<(), Oom>
    ensures { OnOk result (numbers.new.items ≡ numbers.old.items ++
        flat_map (hop replica.now.store (store_of message.now) name) clocks.now) }
{
    for clock in clocks {
        let dot = Dot {
            name,
            clock: *clock,
        };
        put_hop(numbers, replica, message, dot)?;
    }
    Ok(())
}

/// Like `put_hop`, but for each dot of `name` that the message has.
#[tactic(auto, unfolding(crate::specs::Carried::hops_of))]
fn put_hops_of<A: Allocator + Copy, R: Allocator>(
    numbers: &mut Vec<u64, A>,
    replica: &Replica<R>,
    message: &Payload<R>,
    name: u16,
    alloc: A,
) -> Result<(), Oom>
    requires { name < most_names }
    ensures { OnOk result (numbers.new.items ≡ numbers.old.items ++ hops_of replica.now.store message.now name) }
{
    let clocks = clocks_of(message.seen(), name, alloc)?;
    put_each_hop(numbers, replica, message, name, &clocks)
}

/// Whether the replica knows the name, and the name isn't the replica's own.
fn is_other_known<R: Allocator>(replica: &Replica<R>, name: u16) -> bool
    ensures { result ≡ is_other_known replica.now name }
{
    replica.status(name).is_some() && name != replica.own()
}

/// Like `put_hops_of`, but appends nothing if the replica doesn't know the name, or if the name is the replica's own.
fn put_hops_if<A: Allocator + Copy, R: Allocator>(
    numbers: &mut Vec<u64, A>,
    replica: &Replica<R>,
    message: &Payload<R>,
    name: u16,
    alloc: A,
) -> Result<(), Oom>
    requires { name < most_names }
    ensures { OnOk result (numbers.new.items ≡ numbers.old.items ++
        hops_if (is_other_known replica.now name) replica.now.store message.now name) }
{
    if is_other_known(replica, name) {
        return put_hops_of(numbers, replica, message, name, alloc);
    }
    Ok(())
}

/// `NAME,CLOCK,STANDING` of each dot of the first `count` names whose standing in the message is greater than that at
/// the replica, as a list of numbers. The replica's own name and unknown names are left out.
fn hops_to<A: Allocator + Copy, R: Allocator>(
    replica: &Replica<R>,
    message: &Payload<R>,
    count: u16,
    alloc: A,
) -> Result<Vec<u64, A>, Oom>
    requires { count ≤ most_names }
    ensures { IfOk result (λ numbers. numbers.items ≡ hops_to replica.now message.now count) }
{
    let mut numbers = Vec::new(alloc);
    for name in 0..count {
        put_hops_if(&mut numbers, replica, message, name, alloc)?;
    }
    Ok(numbers)
}

/// What the delivery of a message changes at a node: `NAME,CLOCK,STANDING` of each dot that comes to stand otherwise,
/// among those of the first `count` names, as a list of numbers. Empty without a node or a message.
pub fn hops_at<'a, A: Allocator + Copy, B: Allocator>(
    node: Option<&Node<'a, B>>,
    message: Option<&Payload<&'a B>>,
    count: u16,
    alloc: A,
) -> Result<Vec<u64, A>, Oom>
    requires { count ≤ most_names }
    ensures { IfOk result (λ numbers. numbers.items ≡
        hops_at (option_map (λ n. n.now) node.entry) (option_map (λ m. m.now) message.entry) count) }
{
    match (node, message) {
        (Some(node), Some(message)) => hops_to(node.replica(), message, count, alloc),
        _ => Ok(Vec::new(alloc)),
    }
}

/// Appends `NAME,CLOCK,MORE` as numbers, unless the name is known, or `clock` and `more` are both 0, which says that
/// the name has no dots.
fn put_missed_if<A: Allocator>(
    numbers: &mut Vec<u64, A>,
    is_known: bool,
    name: u16,
    clock: u64,
    more: u64,
) -> Result<(), Oom>
    ensures { OnOk result (numbers.new.items ≡ numbers.old.items ++ missed_if is_known name clock more) }
{
    if is_known || (clock == 0 && more == 0) {
        return Ok(());
    }
    numbers.push(name as u64)?;
    numbers.push(clock)?;
    numbers.push(more)?;
    Ok(())
}

/// Like `put_missed_if`, but looks up whether the replica knows the name, and which dots of the name the message has.
fn put_missed<A: Allocator, R: Allocator>(
    numbers: &mut Vec<u64, A>,
    replica: &Replica<R>,
    message: &Payload<R>,
    name: u16,
) -> Result<(), Oom>
    requires { name < most_names }
    ensures { OnOk result (numbers.new.items ≡ numbers.old.items ++
        missed_if (is_known replica.now name) name (clock_of message.now.seen name) (more_of message.now.seen name)) }
{
    let seen = message.seen();
    let is_known = replica.status(name).is_some();
    put_missed_if(
        numbers,
        is_known,
        name,
        last_of(seen, name),
        more_of(seen, name),
    )
}

/// `NAME,CLOCK,MORE` of each of the first `count` names that the replica doesn't know and the message has dots of, as a
/// list of numbers.
fn missed_by<A: Allocator, R: Allocator>(
    replica: &Replica<R>,
    message: &Payload<R>,
    count: u16,
    alloc: A,
) -> Result<Vec<u64, A>, Oom>
    requires { count ≤ most_names }
    ensures { IfOk result (λ numbers. numbers.items ≡ missed_by replica.now message.now count) }
{
    let mut numbers = Vec::new(alloc);
    for name in 0..count {
        put_missed(&mut numbers, replica, message, name)?;
    }
    Ok(numbers)
}

/// What a node misses of a delivered message, as a list of numbers: `NAME,CLOCK,MORE` of each name that the message has
/// dots of and the node doesn't know, among the first `count`. Empty without a node or a message.
pub fn missed_at<'a, A: Allocator, B: Allocator>(
    node: Option<&Node<'a, B>>,
    message: Option<&Payload<&'a B>>,
    count: u16,
    alloc: A,
) -> Result<Vec<u64, A>, Oom>
    requires { count ≤ most_names }
    ensures { IfOk result (λ numbers. numbers.items ≡
        missed_at (option_map (λ n. n.now) node.entry) (option_map (λ m. m.now) message.entry) count) }
{
    match (node, message) {
        (Some(node), Some(message)) => missed_by(node.replica(), message, count, alloc),
        _ => Ok(Vec::new(alloc)),
    }
}
