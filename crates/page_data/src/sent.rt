//! What a message carries.
ghost use Rattle.std.specs.Prelude.{◌≡◌, ◌++◌, ◌<◌, ◌≤◌, IfOk, OnOk, filter};
ghost use Rattle.dots_core.specs.Names.{most_names};
ghost use Rattle.store_core.specs.Stores.{store_of};
ghost use Rattle.report_core.specs.Dots.{clock_of};
ghost use Rattle.page_data.specs.Carried.{clock_if, clocks_standing, more_of, name_if_any, names_in, stands_so};

use crate::clocks::{clocks_of, last_of, more_of, standing_told};
use dots_core::{Dot, Oom};
use payload_core::Payload;
use std::alloc::Allocator;

/// Whether the dot of `name` with this clock stands as `wanted` in the message.
fn stands_so<R: Allocator>(message: &Payload<R>, name: u16, wanted: u64, clock: u64) -> bool
    ensures { result ≡ stands_so (store_of message.now) name wanted clock }
{
    standing_told(message, Dot { name, clock }) == wanted
}

/// Appends `clock`; nothing if `is_wanted` is false.
fn put_clock_if<A: Allocator>(
    numbers: &mut Vec<u64, A>,
    clock: u64,
    is_wanted: bool,
) -> Result<(), Oom>
    ensures { OnOk result (numbers.new.items ≡ numbers.old.items ++ clock_if is_wanted clock) }
{
    if is_wanted {
        numbers.push(clock)?;
    }
    Ok(())
}

/// Appends those of `clocks` whose dots of `name` stand as `wanted` in the message.
fn put_standing<A: Allocator, R: Allocator>(
    numbers: &mut Vec<u64, A>,
    message: &Payload<R>,
    name: u16,
    wanted: u64,
    clocks: &[u64],
) -> Result<(), Oom>
    ensures { OnOk result (numbers.new.items ≡ numbers.old.items ++ filter (stands_so (store_of message.now) name wanted) clocks.now) }
{
    for clock in clocks {
        put_clock_if(numbers, *clock, stands_so(message, name, wanted, *clock))?;
    }
    Ok(())
}

/// The clocks, rising, of the dots of `name` that stand as `wanted` in the message: 1 live, 2 gone.
#[tactic(auto, unfolding(crate::specs::Carried::clocks_standing))]
pub fn clocks_standing<A: Allocator + Copy, R: Allocator>(
    message: &Payload<R>,
    name: u16,
    wanted: u64,
    alloc: A,
) -> Result<Vec<u64, A>, Oom>
    requires { name < most_names }
    ensures { IfOk result (λ numbers. numbers.items ≡ clocks_standing message.now name wanted) }
{
    let clocks = clocks_of(message.seen(), name, alloc)?;
    let mut numbers = Vec::new(alloc);
    put_standing(&mut numbers, message, name, wanted, &clocks)?;
    Ok(numbers)
}

/// Appends the name as a number, unless its context clock (`clock`) and the length of its cloud (`more`) are both 0,
/// which says that the name has no dots.
fn put_name_if<A: Allocator>(
    numbers: &mut Vec<u64, A>,
    name: u16,
    clock: u64,
    more: u64,
) -> Result<(), Oom>
    ensures { OnOk result (numbers.new.items ≡ numbers.old.items ++ name_if_any name clock more) }
{
    if clock == 0 && more == 0 {
        return Ok(());
    }
    numbers.push(name as u64)?;
    Ok(())
}

/// Appends the name as a number, if the message has dots of it.
fn put_name_of<A: Allocator, R: Allocator>(
    numbers: &mut Vec<u64, A>,
    message: &Payload<R>,
    name: u16,
) -> Result<(), Oom>
    requires { name < most_names }
    ensures { OnOk result (numbers.new.items ≡ numbers.old.items ++
        name_if_any name (clock_of message.now.seen name) (more_of message.now.seen name)) }
{
    let seen = message.seen();
    put_name_if(numbers, name, last_of(seen, name), more_of(seen, name))
}

/// The names below `count` of which the message has dots, as numbers in rising order.
pub fn names_in<A: Allocator, R: Allocator>(
    message: &Payload<R>,
    count: u16,
    alloc: A,
) -> Result<Vec<u64, A>, Oom>
    requires { count ≤ most_names }
    ensures { IfOk result (λ numbers. numbers.items ≡ names_in message.now count) }
{
    let mut numbers = Vec::new(alloc);
    for name in 0..count {
        put_name_of(&mut numbers, message, name)?;
    }
    Ok(numbers)
}
