//! Reads the recorded call that a JSON list stands for: its actor, its act and its reply.
ghost use Rattle.serde_json.specs.View.{view};
ghost use Rattle.json_core.specs.Decoded.{Gives};
ghost use Rattle.event_core.specs.Decoding.{event_at};

use crate::operands::node_in;
use crate::read_act::act_at;
use crate::read_reply::reply_at;
use bench_core::Event;
use json_core::{Unread, ends_at};
use serde_json::Value;
use std::alloc::Allocator;

/// The recorded call that the list stands for; `Shape` if it doesn't stand for one. The words of the call take their
/// memory from `alloc`.
#[tactic(auto, unfolding(crate::specs::Decoding::event_at))]
pub fn event_at<'a, B: Allocator>(alloc: &'a B, list: &Value) -> Result<Event<&'a B>, Unread>
    ensures { Gives (λ e. e) result (event_at (view list.now)) }
{
    let actor = node_in(list, 0)?;
    let asked = list.get(1).ok_or(Unread::Shape)?;
    let reply = reply_at(list.get(2).ok_or(Unread::Shape)?)?;
    if !ends_at(list, 3) {
        return Err(Unread::Shape);
    }
    let act = act_at(alloc, asked)?;
    Ok(Event { actor, act, reply })
}
