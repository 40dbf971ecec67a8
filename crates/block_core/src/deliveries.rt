//! What the delivery of a message changes, found by masks: which of the message's entries join a set, and which of the
//! set's own entries ('ours') leave.
ghost use Rattle.std.specs.Prelude.{◌≡◌, ◌+◌, ◌++◌, ◌<◌, ◌≤◌, IfOk, OnOk, filter, length, map, true};
ghost use Rattle.std.specs.FinMap as fin;
ghost use Rattle.std.specs.FinSet as set;
ghost use Rattle.dots_core.specs.Dots.{dot};
ghost use Rattle.block_core.specs.Deliveries.{AreAlike, AreBefore, HasNone, is_gone, is_new};
ghost use Rattle.entry_core.specs.EntryLists.{pairs};
ghost use Rattle.entry_core.specs.Presences.{Entries};
ghost use Rattle.block_core.specs.Sets.{AreBlocks, RisingBlocks, set_map};

use crate::block::Block;
use crate::blocks::{block_at, live_bits, place};
use dots_core::{Dot, DotSet, MOST_NAMES, NameSet, Oom};
use entry_core::{Handle, mask};
use std::alloc::Allocator;

/// Appends to `list` handles of the block's entries that join: those whose name is in `names` and whose dot isn't in
/// `seen`.
fn push_joining<A: Allocator + Copy>(
    list: &mut Vec<Handle<A>, A>,
    block: &Block<A>,
    seen: &DotSet<A>,
    names: NameSet,
    alloc: A,
) -> Result<(), Oom>
    ensures { OnOk result (pairs list.new.items ≡ pairs list.old.items ++ filter (λ p. is_new (set.contains names) seen.now p.0) (fin.entries block.now.map)) }
{
    // form: hands out what the block keeps
    block.told();
    if !names.has(block.name()) {
        return Ok(());
    }
    let old = seen.bits_of(block.name(), block.base());
    block.push_copies(list, mask::others(old), alloc)
}

/// Handles of the message's entries that join, by rising dot: those of `names` whose dots aren't in `seen`.
pub fn joining<A: Allocator + Copy>(
    message: &[Block<A>],
    seen: &DotSet<A>,
    names: NameSet,
    alloc: A,
) -> Result<Vec<Handle<A>, A>, Oom>
    requires { AreBlocks message.now }
    ensures { IfOk result (λ joining. pairs joining.items ≡ fin.entries (fin.retain_keys (set_map message.now) (is_new (set.contains names) seen.now))) }
{
    let mut joining = Vec::new(alloc);
    let mut at = next_new(message, 0, seen, names);
    while at < message.len() {
        push_joining(&mut joining, &message[at], seen, names, alloc)?;
        at = next_new(message, at + 1, seen, names);
    }
    Ok(joining)
}

/// Passes over blocks from `at` on whose entries were all seen, and gives the place where it stops. The blocks that it
/// passes over have the name of the block at `at`, and stand before the block into which the name's context clock in
/// `seen` falls. It passes over none if no block stands at `at`, or one with the base 0.
fn next_new<A: Allocator>(
    message: &[Block<A>],
    at: usize,
    seen: &DotSet<A>,
    names: NameSet,
) -> usize
    requires are { AreBlocks message.now }
    requires within { at ≤ length message.now }
    ensures from { at ≤ result }
    ensures within { result ≤ length message.now }
    ensures passed { HasNone (is_new (set.contains names) seen.now) message.now at result }
{
    // form: the parameter `names` is for the contract alone
    match block_at(message, at) {
        Some(block) => {
            let name = block.name();
            // form: no entry has a name from `MOST_NAMES` on; the test spares a requirement that says so
            if name >= MOST_NAMES {
                return at;
            }
            // form: clock 0 is never seen; the test spares a requirement that no entry has it
            if block.base() == 0 {
                return at;
            }
            place_behind(message, at, name, seen.clock_of(name) / 64)
        }
        None => at,
    }
}

/// Appends to `dots` the dots of the block's entries that leave. The search for the message's block of the same name
/// and base looks first at `hint`; the result is the hint for the next block.
fn push_leaving<A: Allocator>(
    dots: &mut Vec<Dot, A>,
    block: &Block<A>,
    message: &[Block<A>],
    hint: usize,
    seen: &DotSet<A>,
    names: NameSet,
) -> Result<usize, Oom>
    requires { AreBlocks message.now }
    ensures dots { OnOk result (dots.new.items ≡ dots.old.items ++ map (λ p. p.0)
        (filter (λ p. is_gone (set.contains names) seen.now (set_map message.now) p.0) (fin.entries block.now.map))) }
    ensures hint { IfOk result (λ next. next ≤ length message.now) }
{
    // form: hands out what the block keeps
    block.told();
    let name = block.name();
    let base = block.base();
    let (there, next) = live_bits(message, hint, name, base);
    if !names.has(name) {
        return Ok(next);
    }
    let old = seen.bits_of(name, base);
    block.push_dots(dots, mask::both(old, mask::others(there)))?;
    Ok(next)
}

/// The dots of our entries that leave, rising. Each dot has one of `names`, is in `seen` (the dots that the message
/// speaks of), and has no entry in `message`.
pub fn leaving<A: Allocator + Copy>(
    blocks: &[Block<A>],
    message: &[Block<A>],
    seen: &DotSet<A>,
    names: NameSet,
    alloc: A,
) -> Result<Vec<Dot, A>, Oom>
    requires ours { AreBlocks blocks.now }
    requires theirs { AreBlocks message.now }
    ensures { IfOk result (λ leaving. leaving.items ≡ fin.keys
        (fin.retain_keys (set_map blocks.now) (is_gone (set.contains names) seen.now (set_map message.now)))) }
{
    let mut leaving = Vec::new(alloc);
    let mut hint = 0;
    let mut at = next_gone(blocks, 0, message, 0, seen, names);
    while at < blocks.len() {
        hint = push_leaving(&mut leaving, &blocks[at], message, hint, seen, names)?;
        at = next_gone(blocks, at + 1, message, hint, seen, names);
    }
    Ok(leaving)
}

/// The place of our first block from `at` on that may have an entry which leaves; the number of our blocks if there is
/// none. It compares our blocks from `at` on with the message's from `hint` on, pair by pair, and passes over ours
/// while the two are alike. It then passes over blocks without a dot of `names` that the message speaks of.
fn next_gone<A: Allocator>(
    blocks: &[Block<A>],
    at: usize,
    message: &[Block<A>],
    hint: usize,
    seen: &DotSet<A>,
    names: NameSet,
) -> usize
    requires ours { AreBlocks blocks.now }
    requires theirs { AreBlocks message.now }
    requires within { at ≤ length blocks.now }
    requires hint { hint ≤ length message.now }
    ensures from { at ≤ result }
    ensures within { result ≤ length blocks.now }
    ensures passed { HasNone (is_gone (set.contains names) seen.now (set_map message.now)) blocks.now at result }
{
    let unlike = at + count_alike(blocks, at, message, hint);
    next_seen(blocks, unlike, seen, names)
}

/// How many blocks, one after the other, are alike on both sides, beginning at `at` in ours and at `hint` in the
/// message's.
fn count_alike<A: Allocator>(
    blocks: &[Block<A>],
    at: usize,
    message: &[Block<A>],
    hint: usize,
) -> usize
    requires are { AreBlocks message.now }
    requires within { at ≤ length blocks.now }
    requires hint { hint ≤ length message.now }
    ensures within { at + result ≤ length blocks.now }
    ensures alike { AreAlike message.now blocks.now at (at + result) }
{
    let mut count = 0;
    while is_alike(blocks, at + count, message, hint + count) {
        count += 1;
    }
    count
}

/// Whether our block at `at` and the message's at `there` are of the same name and base, with entries at the same
/// clocks; `false` past the end of either list.
fn is_alike<A: Allocator>(
    blocks: &[Block<A>],
    at: usize,
    message: &[Block<A>],
    there: usize,
) -> bool
    requires { AreBlocks message.now }
    ensures inside { result ≡ true → (at < length blocks.now) × (there < length message.now) }
    ensures alike { result ≡ true → AreAlike message.now blocks.now at (at + 1) }
{
    // form: each arm is a case of the proof
    match block_at(blocks, at) {
        Some(ours) => match block_at(message, there) {
            Some(theirs) => theirs.is(ours.name(), ours.base()) && ours.live() == theirs.live(),
            None => false,
        },
        None => false,
    }
}

/// The place of our first block from `at` on that may have a dot of `names` that the message speaks of; the number of
/// our blocks if there is none.
fn next_seen<A: Allocator>(
    blocks: &[Block<A>],
    at: usize,
    seen: &DotSet<A>,
    names: NameSet,
) -> usize
    requires are { AreBlocks blocks.now }
    requires within { at ≤ length blocks.now }
    ensures from { at ≤ result }
    ensures within { result ≤ length blocks.now }
    ensures passed { (there : Entries) → HasNone (is_gone (set.contains names) seen.now there) blocks.now at result }
{
    match block_at(blocks, at) {
        Some(block) => {
            let first = Dot {
                name: block.name(),
                clock: block.base() * 64,
            };
            match seen.first_from(names, first) {
                Some(dot) => place_behind(blocks, at, dot.name, dot.clock / 64),
                None => blocks.len(),
            }
        }
        None => at,
    }
}

/// The place of the first block from `at` on that isn't below `name` and `base`, by name and then by base; the number
/// of blocks if there is none.
fn place_behind<A: Allocator>(blocks: &[Block<A>], at: usize, name: u16, base: u64) -> usize
    requires rises { RisingBlocks blocks.now }
    requires within { at ≤ length blocks.now }
    ensures from { at ≤ result }
    ensures within { result ≤ length blocks.now }
    ensures before { AreBefore (dot name base) blocks.now at result }
{
    // form: each arm is a case of the proof
    match block_at(blocks, at) {
        Some(block) => {
            if block.is_before(name, base) {
                place(blocks, name, base).max(at)
            } else {
                at
            }
        }
        None => at,
    }
}
