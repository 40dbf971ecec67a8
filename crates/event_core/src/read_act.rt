//! Reads the act that a JSON list asks for.
ghost use Rattle.serde_json.specs.View.{view};
ghost use Rattle.bench_core.specs.Acts.{plain_act};
ghost use Rattle.json_core.specs.Decoded.{Gives};
ghost use Rattle.event_core.specs.Decoding.{undo_at, back_at, act_at};

use crate::operands::node_in;
use crate::read_step::step_at;
use bench_core::Act;
use json_core::{Unread, ends_at, number_in, text_in};
use serde_json::Value;
use std::alloc::Allocator;

#[tactic(auto, unfolding(crate::specs::Decoding::undo_at))]
fn undo_at<A: Allocator>(list: &Value) -> Result<Act<A>, Unread>
    ensures { Gives plain_act result (undo_at (view list.now)) }
{
    let number = number_in(list, 1)?;
    if !ends_at(list, 2) {
        return Err(Unread::Shape);
    }
    Ok(Act::Undo(number))
}

#[tactic(auto, unfolding(crate::specs::Decoding::back_at))]
fn back_at<A: Allocator>(list: &Value) -> Result<Act<A>, Unread>
    ensures { Gives plain_act result (back_at (view list.now)) }
{
    let node = node_in(list, 1)?;
    if !ends_at(list, 2) {
        return Err(Unread::Shape);
    }
    Ok(Act::Back(node))
}

/// The act that the list asks for, by its first word: `do`, `undo` or `back`. `Shape` if it asks for none.
#[tactic(auto, unfolding(crate::specs::Decoding::act_at))]
pub(crate) fn act_at<'a, B: Allocator>(alloc: &'a B, list: &Value) -> Result<Act<&'a B>, Unread>
    ensures { Gives plain_act result (act_at (view list.now)) }
{
    match text_in(list, 0)? {
        "do" => Ok(Act::Do(step_at(alloc, list)?)),
        "undo" => undo_at(list),
        "back" => back_at(list),
        _ => Err(Unread::Shape),
    }
}
