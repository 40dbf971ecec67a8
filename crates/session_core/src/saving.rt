//! `save`: a bench as the text of its session.
ghost use Rattle.std.specs.Prelude.{◌≡◌, IfOk, codes, map};
ghost use Rattle.std.specs.List.{AllByRecursion};
ghost use Rattle.serde_json.specs.Data.{string, object, member, no_members};
ghost use Rattle.serde_json.specs.View.{view};
ghost use Rattle.serde_json.specs.Written.{compact_text};
ghost use Rattle.event_core.specs.Format.{list, whole, event_json};
ghost use Rattle.recording_core.specs.Format.{limits_json, session};
ghost use Rattle.event_core.specs.Told.{IsEvent};
ghost use Rattle.recording_core.specs.Sessions.{IsSaved};

use bench_core::laws::replay_law;
use bench_core::{Bench, History, Limits, Names};
use dots_core::Oom;
use event_core::event_value;
use serde_json::{Value, json};
use std::alloc::{Allocator, Global};

fn events_value<'a, B: Allocator>(heap: Global, history: &History<'a, B>) -> Result<Value, Oom>
    ensures json { IfOk result (λ v. view v ≡ list (map event_json history.now)) }
    ensures told { IfOk result (λ _. AllByRecursion IsEvent history.now) }
{
    let mut values = Vec::new(heap);
    for place in 0..history.len() {
        let event = history.at(place).unwrap();
        values.push(event_value(heap, event)?)?;
    }
    Ok(Value::Array(values))
}

fn nodes_value<A: Allocator>(heap: Global, names: &Names<A>) -> Result<Value, Oom>
    ensures { IfOk result (λ v. view v ≡ list (map string names.now)) }
{
    let mut values = Vec::new(heap);
    for number in 0..names.len() as u16 {
        let text = names.text(number).unwrap();
        values.push(Value::try_from_str(heap, text)?)?;
    }
    Ok(Value::Array(values))
}

fn limits_value(heap: Global, limits: Limits) -> Result<Value, Oom>
    ensures { IfOk result (λ v. view v ≡ limits_json limits) }
{
    json!(in heap; [limits.acts(), limits.entries(), limits.clock(), limits.messages()])
}

/// A session of the second version, with these values as its members.
fn members_value(heap: Global, acts: Value, limits: Value, nodes: Value) -> Result<Value, Oom>
    ensures { IfOk result (λ v. view v ≡ object (member (codes "acts") (view acts) (member (codes "limits") (view limits)
        (member (codes "nodes") (view nodes) (member (codes "version") (whole 2) no_members))))) }
{
    json!(in heap; {"acts": acts, "limits": limits, "nodes": nodes, "version": 2u64})
}

/// The session of the bench as a JSON value.
fn session_value<'a, B: Allocator>(heap: Global, bench: &Bench<'a, B>) -> Result<Value, Oom>
    ensures json { IfOk result (λ v. view v ≡ session 2 bench.now.names bench.now.limits bench.now.state.history) }
    ensures told { IfOk result (λ _. AllByRecursion IsEvent bench.now.state.history) }
{
    let acts = events_value(heap, bench.history())?;
    let Ok(limits) = limits_value(heap, bench.limits()) else {
        // form: drop before exit
        drop(acts);
        return Err(Oom);
    };
    let Ok(nodes) = nodes_value(heap, bench.names()) else {
        drop(acts);
        drop(limits);
        return Err(Oom);
    };
    members_value(heap, acts, limits, nodes)
}

/// The compact text of the bench's session, of the second version: its names, its limits, and each recorded call with
/// its reply. `load` makes the same bench from this text, unless memory is refused. JSON values take their memory from
/// the global heap.
pub fn save<'a, B: Allocator>(heap: Global, bench: &Bench<'a, B>) -> Result<Vec<u8>, Oom>
    ensures text { IfOk result (λ text. text.items ≡ compact_text (session 2 bench.now.names bench.now.limits bench.now.state.history)) }
    ensures saved { IfOk result (λ text. IsSaved text.items bench.now) }
{
    // form: hands out what the value keeps
    bench.bench_law();
    bench.names().names_law();
    replay_law();
    session_value(heap, bench)?.to_vec(heap)
}
