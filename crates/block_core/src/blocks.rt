//! Lists of blocks in the order of their names and bases: searches, and edits of one block.
ghost use Rattle.std.specs.Prelude.{◌≡◌, ◌==◌, ◌+◌, ◌-◌, ◌<◌, ◌≤◌, ◌^◌, [], ◌∷◌, ◌++◌, if◌then◌else◌, IfErr, IfOk, IsOk, IsSome, OnErr, OnOk, MatchResult, Some, false, filter, insert, is_some, length, option_copied, remove, slice_get, take, vec_capacity, vec_len};
ghost use Rattle.std.specs.declared.cmp.Ordering.TheVariants.{Less};
ghost use Rattle.std.specs.FinMap as fin;
ghost use Rattle.std.specs.FinSet as set;
ghost use Rattle.std.specs.List.{AllByRecursion};
ghost use Rattle.std.specs.Option.{option_map};
ghost use Rattle.dots_core.specs.Dots.{dot, dot_cmp};
ghost use Rattle.entry_core.specs.Presences.{entry_of, presence_of};
ghost use Rattle.block_core.specs.Blocks.{IsMaskOf};
ghost use Rattle.block_core.specs.Sets.{AreBlocks, IsBlockAt, IsFilled, IsGap, IsWithin, RisingBlocks, block_key, is_before, joined, key, set_map};

use crate::block::Block;
use dots_core::{Dot, NameSet, Oom};
use entry_core::{Entry, Handle, Spare};
use std::alloc::Allocator;

/// Blocks in the order of their names and bases.
type Row<A> = Vec<Block<A>, A>;

/// The place of the first block that isn't below `name` and `base`, by name and then by base; the number of blocks if
/// there is none.
pub fn place<A: Allocator>(blocks: &[Block<A>], name: u16, base: u64) -> usize
    requires { RisingBlocks blocks.now }
    ensures within { result ≤ length blocks.now }
    ensures before { AllByRecursion (λ b. dot_cmp (key b) (dot name base) ≡ Less) (take result blocks.now) }
    ensures at { (b : _) → slice_get blocks.now result ≡ Some b → is_before (dot name base) b ≡ false }
{
    blocks.partition_point(|block| block.is_before(name, base))
}

/// The block at `place`, counted from 0; `None` past the end.
pub fn block_at<A: Allocator>(blocks: &[Block<A>], place: usize) -> Option<&Block<A>>
    ensures { option_copied result ≡ slice_get blocks.now place }
{
    blocks.get(place)
}

/// `Ok` with the place of the block of this name and base, or `Err` with the place where it would stand. The last block
/// is looked at first, and then comes a binary search.
pub fn search<A: Allocator>(blocks: &[Block<A>], name: u16, base: u64) -> Result<usize, usize>
    requires { RisingBlocks blocks.now }
    ensures { MatchResult result (λ at. IsBlockAt (dot name base) blocks.now at) (λ at. IsGap (dot name base) blocks.now at) }
{
    let len = blocks.len();
    if len == 0 {
        return Err(0);
    }
    let last = &blocks[len - 1];
    if last.is_before(name, base) {
        return Err(len);
    }
    if last.is(name, base) {
        return Ok(len - 1);
    }
    search_all(blocks, name, base)
}

/// Like `search`, but doesn't look at the last block first.
fn search_all<A: Allocator>(blocks: &[Block<A>], name: u16, base: u64) -> Result<usize, usize>
    requires { RisingBlocks blocks.now }
    ensures { MatchResult result (λ at. IsBlockAt (dot name base) blocks.now at) (λ at. IsGap (dot name base) blocks.now at) }
{
    let at = place(blocks, name, base);
    // form: each arm is a case of the proof
    match block_at(blocks, at) {
        Some(block) => {
            if block.is(name, base) {
                Ok(at)
            } else {
                Err(at)
            }
        }
        None => Err(at),
    }
}

/// Like `search`, but looks first at the block at `hint`. Any hint will do.
fn search_near<A: Allocator>(
    blocks: &[Block<A>],
    hint: usize,
    name: u16,
    base: u64,
) -> Result<usize, usize>
    requires { RisingBlocks blocks.now }
    ensures { MatchResult result (λ at. IsBlockAt (dot name base) blocks.now at) (λ at. IsGap (dot name base) blocks.now at) }
{
    // form: each arm is a case of the proof
    match block_at(blocks, hint) {
        Some(block) => {
            if block.is(name, base) {
                Ok(hint)
            } else {
                search(blocks, name, base)
            }
        }
        None => search(blocks, name, base),
    }
}

/// The entry of the dot, or `None` if there is none.
pub fn get<A: Allocator>(blocks: &[Block<A>], dot: Dot) -> Option<&Handle<A>>
    requires { AreBlocks blocks.now }
    ensures { option_copied result ≡ option_map (entry_of dot) (fin.get (set_map blocks.now) dot) }
{
    match search(blocks, dot.name, dot.clock / 64) {
        Ok(at) => blocks[at].get(dot),
        Err(_) => None,
    }
}

/// Takes the entry of the dot out of the block at `at`, and takes the block out of the list if that was its last live
/// entry. `None` if the block has no such entry. It takes no memory.
pub fn take_out<A: Allocator>(blocks: &mut Row<A>, at: usize, dot: Dot) -> Option<Entry<A>>
    requires are { AreBlocks blocks.old.items }
    requires at { IsBlockAt (block_key dot) blocks.old.items at }
    ensures entry { result ≡ option_map (entry_of dot) (fin.get (set_map blocks.old.items) dot) }
    ensures map { set_map blocks.new.items ≡ fin.remove (set_map blocks.old.items) dot }
    ensures are { AreBlocks blocks.new.items }
    ensures room { vec_capacity blocks.old - vec_len blocks.old ≤ vec_capacity blocks.new - vec_len blocks.new }
{
    let block = &mut blocks[at];
    let entry = block.remove(dot);
    // form: hands out what the block keeps
    block.told();
    drop_empty(blocks, at);
    entry
}

/// Like `take_out`, but gives a handle, and may ask for memory. An `Err` changes nothing.
pub fn take_handle<A: Allocator + Copy>(
    blocks: &mut Row<A>,
    at: usize,
    dot: Dot,
    alloc: A,
) -> Result<Option<Handle<A>>, Oom>
    requires are { AreBlocks blocks.old.items }
    requires at { IsBlockAt (block_key dot) blocks.old.items at }
    ensures entry { IfOk result (λ taken. taken ≡ option_map (entry_of dot) (fin.get (set_map blocks.old.items) dot)) }
    ensures map { OnOk result (set_map blocks.new.items ≡ fin.remove (set_map blocks.old.items) dot) }
    ensures err { OnErr result (blocks.new.items ≡ blocks.old.items) }
    ensures are { AreBlocks blocks.new.items }
    ensures room { vec_capacity blocks.old - vec_len blocks.old ≤ vec_capacity blocks.new - vec_len blocks.new }
{
    let block = &mut blocks[at];
    match block.take(dot, alloc) {
        Ok(entry) => {
            // form: hands out what the block keeps
            block.told();
            drop_empty(blocks, at);
            Ok(entry)
        }
        Err(failed) => Err(failed),
    }
}

/// Like `take_out`, but drops the entry, and says whether there was one.
pub fn let_go<A: Allocator>(blocks: &mut Row<A>, at: usize, dot: Dot) -> bool
    requires are { AreBlocks blocks.old.items }
    requires at { IsBlockAt (block_key dot) blocks.old.items at }
    ensures was { result ≡ is_some (fin.get (set_map blocks.old.items) dot) }
    ensures map { set_map blocks.new.items ≡ fin.remove (set_map blocks.old.items) dot }
    ensures are { AreBlocks blocks.new.items }
    ensures room { vec_capacity blocks.old - vec_len blocks.old ≤ vec_capacity blocks.new - vec_len blocks.new }
{
    let block = &mut blocks[at];
    let was = block.discard(dot);
    // form: hands out what the block keeps
    block.told();
    drop_empty(blocks, at);
    was
}

/// Takes the block at `at` out of the list, if the block has no live entry.
fn drop_empty<A: Allocator>(blocks: &mut Row<A>, at: usize)
    requires rises { RisingBlocks blocks.old.items }
    requires within { AllByRecursion IsWithin blocks.old.items }
    requires filled { AllByRecursion IsFilled (remove blocks.old.items at) }
    requires here { at < vec_len blocks.old }
    ensures are { AreBlocks blocks.new.items }
    ensures joined { joined blocks.new.items ≡ joined blocks.old.items }
    ensures room { vec_capacity blocks.old - vec_len blocks.old ≤ vec_capacity blocks.new - vec_len blocks.new }
{
    if blocks[at].len() == 0 {
        drop(blocks.remove(at));
    }
}

/// Inserts a new entry into its block, or into a new block if there is none yet. If memory is refused, the entry comes
/// back.
pub fn put_in<A: Allocator + Copy>(blocks: &mut Row<A>, entry: Handle<A>) -> Result<(), Handle<A>>
    requires are { AreBlocks blocks.old.items }
    requires new { fin.get (set_map blocks.old.items) entry.dot ≡ None }
    ensures map { OnOk result (set_map blocks.new.items ≡ fin.insert (set_map blocks.old.items) entry.dot (presence_of entry)) }
    ensures err { OnErr result (blocks.new.items ≡ blocks.old.items) }
    ensures given_back { IfErr result (λ back. back ≡ entry) }
    ensures are { AreBlocks blocks.new.items }
    ensures capacity { vec_capacity blocks.old ≤ vec_capacity blocks.new }
    ensures len { vec_len blocks.new ≤ vec_len blocks.old + 1 }
{
    let mut none = None;
    let put = put_or_spare(blocks, entry, &mut none);
    // form: drop before exit
    drop(none);
    put
}

/// Inserts a new entry, with the memory of a spare. The list must have a place for one more block, so no memory is
/// asked for.
pub fn put_spared<A: Allocator + Copy>(blocks: &mut Row<A>, entry: Handle<A>, spare: Spare<A>)
    requires are { AreBlocks blocks.old.items }
    requires new { fin.get (set_map blocks.old.items) entry.dot ≡ None }
    requires place { vec_len blocks.old < vec_capacity blocks.old }
    ensures map { set_map blocks.new.items ≡ fin.insert (set_map blocks.old.items) entry.dot (presence_of entry) }
    ensures are { AreBlocks blocks.new.items }
    ensures capacity { vec_capacity blocks.old ≤ vec_capacity blocks.new }
    ensures len { vec_len blocks.new ≤ vec_len blocks.old + 1 }
{
    let mut spare = Some(spare);
    let put = put_or_spare(blocks, entry, &mut spare);
    // form: drop before exit
    drop(spare);
    put.unwrap();
}

/// Inserts a new entry. Memory for it is taken out of `spare`, or asked for if that is `None`. With a spare and a place
/// for one more block no memory is asked for. Otherwise, if memory is refused, the entry comes back.
fn put_or_spare<A: Allocator + Copy>(
    blocks: &mut Row<A>,
    entry: Handle<A>,
    spare: &mut Option<Spare<A>>,
) -> Result<(), Handle<A>>
    requires are { AreBlocks blocks.old.items }
    requires new { fin.get (set_map blocks.old.items) entry.dot ≡ None }
    ensures map { OnOk result (set_map blocks.new.items ≡ fin.insert (set_map blocks.old.items) entry.dot (presence_of entry)) }
    ensures err { OnErr result (blocks.new.items ≡ blocks.old.items) }
    ensures given_back { IfErr result (λ back. back ≡ entry) }
    ensures are { AreBlocks blocks.new.items }
    ensures capacity { vec_capacity blocks.old ≤ vec_capacity blocks.new }
    ensures len { vec_len blocks.new ≤ vec_len blocks.old + 1 }
    ensures succeeds { IsSome spare.old → vec_len blocks.old < vec_capacity blocks.old → IsOk result }
{
    let alloc = *blocks.allocator();
    let dot = entry.dot();
    match search(blocks, dot.name, dot.clock / 64) {
        Ok(at) => put_into(blocks, at, entry, spare, alloc),
        Err(at) => put_new(blocks, at, entry, spare, alloc),
    }
}

/// Inserts a new entry into the block at `at`. Memory is taken out of `spare`, or asked for if that is `None`. If
/// memory is refused, the entry comes back.
fn put_into<A: Allocator + Copy>(
    blocks: &mut Row<A>,
    at: usize,
    entry: Handle<A>,
    spare: &mut Option<Spare<A>>,
    alloc: A,
) -> Result<(), Handle<A>>
    requires are { AreBlocks blocks.old.items }
    requires at { IsBlockAt (block_key entry.dot) blocks.old.items at }
    requires new { fin.get (set_map blocks.old.items) entry.dot ≡ None }
    ensures map { OnOk result (set_map blocks.new.items ≡ fin.insert (set_map blocks.old.items) entry.dot (presence_of entry)) }
    ensures err { OnErr result (blocks.new.items ≡ blocks.old.items) }
    ensures given_back { IfErr result (λ back. back ≡ entry) }
    ensures are { AreBlocks blocks.new.items }
    ensures len { vec_len blocks.new ≡ vec_len blocks.old }
    ensures capacity { vec_capacity blocks.new ≡ vec_capacity blocks.old }
    ensures succeeds { IsSome spare.old → IsOk result }
{
    let block = &mut blocks[at];
    match block.insert(entry, spare, alloc) {
        Ok(()) => {
            // form: hands out what the block keeps
            block.told();
            Ok(())
        }
        Err(entry) => Err(entry),
    }
}

/// Inserts at `at` a block with this entry alone. Memory for the block is taken out of `spare`, or asked for if that is
/// `None`. If memory is refused, the entry comes back.
fn put_new<A: Allocator + Copy>(
    blocks: &mut Row<A>,
    at: usize,
    entry: Handle<A>,
    spare: &mut Option<Spare<A>>,
    alloc: A,
) -> Result<(), Handle<A>>
    requires are { AreBlocks blocks.old.items }
    requires gap { IsGap (block_key entry.dot) blocks.old.items at }
    ensures map { OnOk result (set_map blocks.new.items ≡ fin.insert (set_map blocks.old.items) entry.dot (presence_of entry)) }
    ensures err { OnErr result (blocks.new.items ≡ blocks.old.items) }
    ensures given_back { IfErr result (λ back. back ≡ entry) }
    ensures are { AreBlocks blocks.new.items }
    ensures capacity { vec_capacity blocks.old ≤ vec_capacity blocks.new }
    ensures len { vec_len blocks.new ≤ vec_len blocks.old + 1 }
    ensures succeeds { IsSome spare.old → vec_len blocks.old < vec_capacity blocks.old → IsOk result }
{
    if make_place(blocks).is_err() {
        return Err(entry);
    }
    match Block::of(entry, spare, alloc) {
        Ok(block) => {
            // form: hands out what the block keeps
            block.told();
            put(blocks, at, block);
            Ok(())
        }
        Err(entry) => Err(entry),
    }
}

/// Makes a place in the list for one more block. If it must ask for memory, an empty list gets exactly one place, and
/// any other list at least one.
fn make_place<A: Allocator>(blocks: &mut Row<A>) -> Result<(), Oom>
    ensures items { blocks.new.items ≡ blocks.old.items }
    ensures len { vec_len blocks.new ≡ vec_len blocks.old }
    ensures capacity { vec_capacity blocks.old ≤ vec_capacity blocks.new }
    ensures room { OnOk result (vec_len blocks.new < vec_capacity blocks.new) }
    ensures succeeds { vec_len blocks.old < vec_capacity blocks.old → IsOk result }
{
    if blocks.is_empty() {
        blocks.reserve_exact(1)
    } else {
        blocks.reserve(1)
    }
}

/// Inserts a block at `at`, in a list that has room for it.
fn put<A: Allocator>(blocks: &mut Row<A>, at: usize, block: Block<A>)
    requires within { at ≤ length blocks.old.items }
    requires room { vec_len blocks.old < vec_capacity blocks.old }
    ensures items { blocks.new.items ≡ insert blocks.old.items at block }
    ensures len { vec_len blocks.new ≡ vec_len blocks.old + 1 }
    ensures capacity { vec_capacity blocks.old ≤ vec_capacity blocks.new }
{
    // form: the checker asks for the type of the result here
    let put: Result<_, _> = blocks.insert(at, block);
    put.unwrap();
}

/// How many live entries the blocks have together.
pub fn count_in<A: Allocator>(blocks: &[Block<A>]) -> usize
    requires { length (joined blocks.now) ≤ 2 ^ 62 }
    ensures { result ≡ length (joined blocks.now) }
{
    // form: a sum by hand, for the proof
    let mut count = 0;
    for block in blocks {
        count += block.len();
    }
    count
}

/// Copies of the blocks. A block's list that may be shared is shared once more, any other is copied.
pub fn copies<A: Allocator + Copy>(blocks: &[Block<A>], alloc: A) -> Result<Row<A>, Oom>
    ensures { IfOk result (λ all. all.items ≡ blocks.now) }
{
    let mut all = Vec::with_capacity(alloc, blocks.len())?;
    for block in blocks {
        all.push(block.try_share(alloc)?)?;
    }
    Ok(all)
}

/// Like `copies`, but of the blocks of these names alone.
pub fn named<A: Allocator + Copy>(
    blocks: &[Block<A>],
    names: NameSet,
    alloc: A,
) -> Result<Row<A>, Oom>
    ensures { IfOk result (λ part. part.items ≡ filter (λ b. set.contains names b.name) blocks.now) }
{
    let mut part = Vec::with_capacity(alloc, count_named(blocks, names))?;
    for block in blocks {
        push_if(&mut part, block, names, alloc)?;
    }
    Ok(part)
}

/// How many of the blocks are of these names. No contract says so: it only decides how much memory to ask for at once.
fn count_named<A: Allocator>(blocks: &[Block<A>], names: NameSet) -> usize {
    blocks
        .iter()
        .filter(|block| names.has(block.name()))
        .count()
}

/// Appends a copy of the block to `list`, if the block's name is among `names`.
fn push_if<A: Allocator + Copy>(
    list: &mut Row<A>,
    block: &Block<A>,
    names: NameSet,
    alloc: A,
) -> Result<(), Oom>
    ensures { OnOk result (list.new.items ≡ list.old.items ++ (if set.contains names block.now.name then block.now ∷ [] else [])) }
{
    if names.has(block.name()) {
        list.push(block.try_share(alloc)?)?;
    }
    Ok(())
}

/// A mask of the clocks at which the name has entries, among the 64 from `base * 64` on; and the hint for the search of
/// a later block. The search that this call makes looks first at the block at `hint`.
pub fn live_bits<A: Allocator>(
    blocks: &[Block<A>],
    hint: usize,
    name: u16,
    base: u64,
) -> (u64, usize)
    requires { AreBlocks blocks.now }
    ensures mask { IsMaskOf name base result.0 (set_map blocks.now) }
    ensures hint { result.1 ≤ length blocks.now }
{
    match search_near(blocks, hint, name, base) {
        Ok(at) => (blocks[at].live(), at + 1),
        Err(at) => (0, at),
    }
}
