//! An act as JSON.
ghost use Rattle.std.specs.Prelude.{◌≡◌, ◌∷◌, [], IfOk, codes, map};
ghost use Rattle.serde_json.specs.Data.{string};
ghost use Rattle.serde_json.specs.View.{view};
ghost use Rattle.dots_core.specs.Names.{most_names, AreNamesBelow};
ghost use Rattle.node_core.specs.Operations.{plain, Extract};
ghost use Rattle.bench_core.specs.Acts.{plain_act, Do};
ghost use Rattle.event_core.specs.Format.{list, whole, numbers_of, act_json};
ghost use Rattle.event_core.specs.Told.{IsAction, IsOperation};

use bench_core::{Act, Step};
use dots_core::{NameSet, Oom};
use serde_json::{Value, json};
use std::alloc::{Allocator, Global};

/// The numbers of the names, in rising order.
fn numbers_of(heap: Global, names: NameSet) -> Result<Vec<u16>, Oom>
    ensures { IfOk result (λ numbers. numbers.items ≡ numbers_of names) }
{
    let mut numbers = Vec::new(heap);
    for number in 0..32u16 {
        if names.has(number) {
            numbers.push(number)?;
        }
    }
    Ok(numbers)
}

fn numbers_value(heap: Global, numbers: &[u16]) -> Result<Value, Oom>
    ensures { IfOk result (λ v. view v ≡ list (map whole numbers.now)) }
{
    let mut values = Vec::new(heap);
    for number in numbers {
        values.push(Value::from(*number))?;
    }
    Ok(Value::Array(values))
}

fn extract_value(heap: Global, names: NameSet) -> Result<Value, Oom>
    ensures json { IfOk result (λ v. view v ≡ act_json (Do (Extract names))) }
    ensures told { AreNamesBelow most_names names }
{
    // form: hands out what the value keeps
    names.names_law();
    let numbers = numbers_of(heap, names)?;
    let numbers = numbers_value(heap, numbers.as_slice())?;
    json!(in heap; ["do", "extract", numbers])
}

/// A join or an update as JSON.
fn presence_value(
    heap: Global,
    verb: &str,
    pid: u64,
    topic: &str,
    key: &str,
    metadata: &str,
) -> Result<Value, Oom>
    ensures { IfOk result (λ v. view v ≡ list
        (string (codes "do") ∷ string verb.now ∷ whole pid ∷ string topic.now ∷ string key.now ∷ string metadata.now ∷ [])) }
{
    json!(in heap; ["do", verb, pid, topic, key, metadata])
}

fn leave_value(heap: Global, pid: u64, topic: &str, key: &str) -> Result<Value, Oom>
    ensures { IfOk result (λ v. view v ≡ list (string (codes "do") ∷ string (codes "leave") ∷ whole pid ∷ string topic.now ∷ string key.now ∷ [])) }
{
    json!(in heap; ["do", "leave", pid, topic, key])
}

fn leave_all_value(heap: Global, pid: u64) -> Result<Value, Oom>
    ensures { IfOk result (λ v. view v ≡ list (string (codes "do") ∷ string (codes "leaveall") ∷ whole pid ∷ [])) }
{
    json!(in heap; ["do", "leaveall", pid])
}

/// A step that has nothing but its verb, as JSON.
fn bare_value(heap: Global, verb: &str) -> Result<Value, Oom>
    ensures { IfOk result (λ v. view v ≡ list (string (codes "do") ∷ string verb.now ∷ [])) }
{
    json!(in heap; ["do", verb])
}

/// A delivery or an answer as JSON.
fn message_value(heap: Global, verb: &str, sender: u16, number: u64) -> Result<Value, Oom>
    ensures { IfOk result (λ v. view v ≡ list (string (codes "do") ∷ string verb.now ∷ whole sender ∷ whole number ∷ [])) }
{
    json!(in heap; ["do", verb, sender, number])
}

/// An up, a down or a permanently down as JSON.
fn status_value(heap: Global, verb: &str, name: u16) -> Result<Value, Oom>
    ensures { IfOk result (λ v. view v ≡ list (string (codes "do") ∷ string verb.now ∷ whole name ∷ [])) }
{
    json!(in heap; ["do", verb, name])
}

/// A step as JSON: the word `do`, its verb, and what goes with the verb.
fn step_value<A: Allocator>(heap: Global, step: &Step<A>) -> Result<Value, Oom>
    ensures json { IfOk result (λ v. view v ≡ act_json (Do (plain step.now))) }
    ensures told { IfOk result (λ _. IsOperation (plain step.now)) }
{
    match step {
        Step::Join {
            pid,
            topic,
            key,
            metadata,
        } => {
            let (topic, key) = (topic.as_str(), key.as_str());
            presence_value(heap, "join", *pid, topic, key, metadata.as_str())
        }
        Step::Leave { pid, topic, key } => leave_value(heap, *pid, topic.as_str(), key.as_str()),
        Step::LeaveAll { pid } => leave_all_value(heap, *pid),
        Step::Update {
            pid,
            topic,
            key,
            metadata,
        } => {
            let (topic, key) = (topic.as_str(), key.as_str());
            presence_value(heap, "update", *pid, topic, key, metadata.as_str())
        }
        Step::Broadcast => bare_value(heap, "broadcast"),
        Step::Extract { names } => extract_value(heap, *names),
        Step::Deliver { sender, number } => message_value(heap, "deliver", *sender, *number),
        Step::Request => bare_value(heap, "request"),
        Step::Answer { sender, number } => message_value(heap, "answer", *sender, *number),
        Step::Up { name } => status_value(heap, "up", *name),
        Step::Down { name } => status_value(heap, "down", *name),
        Step::Permdown { name } => status_value(heap, "permdown", *name),
    }
}

pub(crate) fn act_value<A: Allocator>(heap: Global, act: &Act<A>) -> Result<Value, Oom>
    ensures json { IfOk result (λ v. view v ≡ act_json (plain_act act.now)) }
    ensures told { IfOk result (λ _. IsAction (plain_act act.now)) }
{
    match act {
        Act::Do(step) => step_value(heap, step),
        Act::Undo(number) => json!(in heap; ["undo", *number]),
        Act::Back(node) => json!(in heap; ["back", *node]),
    }
}
