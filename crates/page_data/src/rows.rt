//! Tells rows of online lists by their dots.
ghost use Rattle.std.specs.Prelude.{◌≡◌, ◌++◌, IfOk, OnOk, string_bytes};
ghost use Rattle.node_core.specs.Operations.{plain};
ghost use Rattle.page_data.specs.PageData.{is_own, own_keys, row_dots, row_hops, rows_keys};

use crate::json::put_numbers_key;
use bench_core::Step;
use diff_core::OnlineRow;
use dots_core::Oom;
use std::alloc::Allocator;

/// `NAME,CLOCK` of each row, as a list of numbers.
#[tactic(auto, unfolding(crate::specs::PageData::row_dots))]
fn row_dots<A: Allocator, R: Allocator>(rows: &[OnlineRow<R>], alloc: A) -> Result<Vec<u64, A>, Oom>
    ensures { IfOk result (λ numbers. numbers.items ≡ row_dots rows.now) }
{
    let mut numbers = Vec::new(alloc);
    for row in rows {
        numbers.push(row.name as u64)?;
        numbers.push(row.clock)?;
    }
    Ok(numbers)
}

/// Appends `NAME,CLOCK,STANDING` of each row as numbers, with the same `standing` for all.
#[tactic(auto, unfolding(crate::specs::PageData::row_hops))]
fn put_hops<A: Allocator, R: Allocator>(
    numbers: &mut Vec<u64, A>,
    standing: u64,
    rows: &[OnlineRow<R>],
) -> Result<(), Oom>
    ensures { OnOk result (numbers.new.items ≡ numbers.old.items ++ row_hops standing rows.now) }
{
    for row in rows {
        numbers.push(row.name as u64)?;
        numbers.push(row.clock)?;
        numbers.push(standing)?;
    }
    Ok(())
}

/// Appends the keys `minus`, with the dots of the rows that left an online list, and `plus`, with those of the rows
/// that joined it. A key without dots is left out.
#[tactic(auto, unfolding(crate::specs::PageData::rows_keys))]
pub fn put_rows_keys<A: Allocator, M: Allocator + Copy, R: Allocator>(
    text: &mut String<A>,
    left: &[OnlineRow<R>],
    joined: &[OnlineRow<R>],
    alloc: M,
) -> Result<(), Oom>
    ensures { OnOk result (string_bytes text.new ≡ string_bytes text.old ++ rows_keys left.now joined.now) }
{
    let minus = row_dots(left, alloc)?;
    let plus = row_dots(joined, alloc)?;
    put_numbers_key(text, "minus", &minus)?;
    put_numbers_key(text, "plus", &plus)
}

/// Whether a step changes the node's own presences.
fn is_own<W: Allocator>(step: &Step<W>) -> bool
    ensures { result ≡ is_own (plain step.now) }
{
    matches!(
        step,
        Step::Join { .. } | Step::Leave { .. } | Step::LeaveAll { .. } | Step::Update { .. }
    )
}

/// Appends the key `hops` of a step that changes the node's own presences: `NAME,CLOCK,2` (gone) of each row that left,
/// then `NAME,CLOCK,1` (live) of each that joined. Appends nothing for other steps, or if no row left or joined.
#[tactic(auto, unfolding(crate::specs::PageData::own_keys))]
pub fn put_own_keys<A: Allocator, M: Allocator + Copy, R: Allocator, W: Allocator>(
    text: &mut String<A>,
    step: &Step<W>,
    left: &[OnlineRow<R>],
    joined: &[OnlineRow<R>],
    alloc: M,
) -> Result<(), Oom>
    ensures { OnOk result (string_bytes text.new ≡ string_bytes text.old ++ own_keys (plain step.now) left.now joined.now) }
{
    if !is_own(step) {
        return Ok(());
    }
    let mut hops = Vec::new(alloc);
    put_hops(&mut hops, 2, left)?;
    put_hops(&mut hops, 1, joined)?;
    put_numbers_key(text, "hops", &hops)
}
