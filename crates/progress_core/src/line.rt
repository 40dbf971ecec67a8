//! The line that says how far work has come.
ghost use Rattle.std.specs.Prelude.{◌≡◌, ◌++◌, IfOk, OnOk, string_bytes};
ghost use Rattle.progress_core.specs.Lines.{tried_line, walked_line};

use crate::work::{Tried, Walked};
use std::alloc::{AllocError, Allocator};

/// Appends `presence_bench: DONE of ALL changes tried`, with the numbers of `work`, and a line feed.
#[tactic(auto, unfolding(crate::specs::Lines::tried_line))]
fn put_tried<A: Allocator>(text: &mut String<A>, work: Tried) -> Result<(), AllocError>
    ensures { OnOk result (string_bytes text.new ≡ string_bytes text.old ++ tried_line work) }
{
    let done = work.done;
    let all = work.all;
    writeln!(text, "presence_bench: {done} of {all} changes tried")
}

/// The line that `put_tried` appends, as a text of its own.
pub(crate) fn tried_line<A: Allocator>(alloc: A, work: Tried) -> Result<String<A>, AllocError>
    ensures { IfOk result (λ text. string_bytes text ≡ tried_line work) }
{
    let mut text = String::new(alloc);
    put_tried(&mut text, work)?;
    Ok(text)
}

/// Appends `presence_bench: STATES states, OUTCOMES outcomes, LEFT steps left`, with the numbers of `work`, and a line
/// feed.
#[tactic(auto, unfolding(crate::specs::Lines::walked_line))]
fn put_walked<A: Allocator>(text: &mut String<A>, work: Walked) -> Result<(), AllocError>
    ensures { OnOk result (string_bytes text.new ≡ string_bytes text.old ++ walked_line work) }
{
    let states = work.states;
    let outcomes = work.outcomes;
    let left = work.left;
    writeln!(
        text,
        "presence_bench: {states} states, {outcomes} outcomes, {left} steps left"
    )
}

/// The line that `put_walked` appends, as a text of its own.
pub(crate) fn walked_line<A: Allocator>(alloc: A, work: Walked) -> Result<String<A>, AllocError>
    ensures { IfOk result (λ text. string_bytes text ≡ walked_line work) }
{
    let mut text = String::new(alloc);
    put_walked(&mut text, work)?;
    Ok(text)
}
