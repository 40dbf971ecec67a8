//! A recorded call as JSON.
ghost use Rattle.std.specs.Prelude.{◌≡◌, IfOk};
ghost use Rattle.serde_json.specs.View.{view};
ghost use Rattle.event_core.specs.Format.{event_json};
ghost use Rattle.event_core.specs.Told.{IsEvent};

use crate::write_act::act_value;
use crate::write_reply::reply_value;
use bench_core::Event;
use dots_core::Oom;
use serde_json::{Value, json};
use std::alloc::{Allocator, Global};

/// The event as a JSON list: its actor, its act and its reply.
pub fn event_value<A: Allocator>(heap: Global, event: &Event<A>) -> Result<Value, Oom>
    ensures json { IfOk result (λ v. view v ≡ event_json event.now) }
    ensures told { IfOk result (λ _. IsEvent event.now) }
{
    let act = act_value(heap, &event.act)?;
    let reply = reply_value(heap, &event.reply)?;
    json!(in heap; [event.actor, act, reply])
}
