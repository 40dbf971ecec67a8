//! Reads the step that a JSON list asks for after the word `do`.
ghost use Rattle.std.specs.Prelude.{◌≡◌, option_map};
ghost use Rattle.serde_json.specs.View.{view, items_view};
ghost use Rattle.node_core.specs.Operations.{plain, Join, Update, Deliver, Answer, Up, Down, Permdown};
ghost use Rattle.json_core.specs.Decoded.{Gives};
ghost use Rattle.event_core.specs.Decoding.{presence_at, leave_at, leave_all_at, names_from, extract_at, sent_at, name_at};
ghost use Rattle.event_core.specs.Decoding.{status_at, message_at, tracking_at, step_at};
ghost use Rattle.std.specs.FinSet as set;

use crate::operands::{node_in, word_in};
use bench_core::Step;
use dots_core::{MOST_NAMES, NameSet};
use json_core::{Unread, ends_at, number_in, text_in};
use payload_core::Word;
use serde_json::Value;
use std::alloc::Allocator;

/// The presence that a join or an update names.
#[derive(Drop)]
pub(crate) struct Presence<A: Allocator> {
    pub(crate) pid: u64,
    pub(crate) topic: Word<A>,
    pub(crate) key: Word<A>,
    pub(crate) metadata: Word<A>,
}

/// The process, topic, key and metadata behind the verb; `Shape` unless just these follow, each in its form.
#[tactic(auto, unfolding(crate::specs::Decoding::presence_at))]
fn presence_at<'a, B: Allocator>(alloc: &'a B, list: &Value) -> Result<Presence<&'a B>, Unread>
    ensures { Gives (λ p. record { pid = p.pid; topic = p.topic; key = p.key; metadata = p.metadata }) result (presence_at (view list.now)) }
{
    if !ends_at(list, 6) {
        return Err(Unread::Shape);
    }
    let pid = number_in(list, 2)?;
    let topic = word_in(alloc, list, 3)?;
    let key = match word_in(alloc, list, 4) {
        Ok(key) => key,
        Err(fault) => {
            // form: drop before exit
            drop(topic);
            return Err(fault);
        }
    };
    let metadata = match word_in(alloc, list, 5) {
        Ok(metadata) => metadata,
        Err(fault) => {
            drop(topic);
            drop(key);
            return Err(fault);
        }
    };
    Ok(Presence {
        pid,
        topic,
        key,
        metadata,
    })
}

fn join_at<'a, B: Allocator>(alloc: &'a B, list: &Value) -> Result<Step<&'a B>, Unread>
    ensures { Gives plain result (option_map Join (presence_at (view list.now))) }
{
    let Presence {
        pid,
        topic,
        key,
        metadata,
    } = presence_at(alloc, list)?;
    Ok(Step::Join {
        pid,
        topic,
        key,
        metadata,
    })
}

fn update_at<'a, B: Allocator>(alloc: &'a B, list: &Value) -> Result<Step<&'a B>, Unread>
    ensures { Gives plain result (option_map Update (presence_at (view list.now))) }
{
    let Presence {
        pid,
        topic,
        key,
        metadata,
    } = presence_at(alloc, list)?;
    Ok(Step::Update {
        pid,
        topic,
        key,
        metadata,
    })
}

#[tactic(auto, unfolding(crate::specs::Decoding::leave_at))]
fn leave_at<'a, B: Allocator>(alloc: &'a B, list: &Value) -> Result<Step<&'a B>, Unread>
    ensures { Gives plain result (leave_at (view list.now)) }
{
    if !ends_at(list, 5) {
        return Err(Unread::Shape);
    }
    let pid = number_in(list, 2)?;
    let topic = word_in(alloc, list, 3)?;
    let key = word_in(alloc, list, 4)?;
    Ok(Step::Leave { pid, topic, key })
}

#[tactic(auto, unfolding(crate::specs::Decoding::leave_all_at))]
fn leave_all_at<A: Allocator>(list: &Value) -> Result<Step<A>, Unread>
    ensures { Gives plain result (leave_all_at (view list.now)) }
{
    let pid = number_in(list, 2)?;
    if !ends_at(list, 3) {
        return Err(Unread::Shape);
    }
    Ok(Step::LeaveAll { pid })
}

/// The set of names with these numbers; `None` unless they are whole, rise and are below `MOST_NAMES`.
fn names_from(values: &[Value]) -> Option<NameSet>
    ensures { option_map (λ names. names) result ≡ names_from 0 set.empty (items_view values.now) }
{
    let mut names = NameSet::empty();
    let mut least = 0;
    for value in values {
        let number = value.as_u64()?;
        if number < least || number >= u64::from(MOST_NAMES) {
            return None;
        }
        names = names.with(number as u16);
        least = number + 1;
    }
    Some(names)
}

#[tactic(auto, unfolding(crate::specs::Decoding::extract_at))]
fn extract_at<A: Allocator>(list: &Value) -> Result<Step<A>, Unread>
    ensures { Gives plain result (extract_at (view list.now)) }
{
    let values = list.get(2).and_then(Value::as_array).ok_or(Unread::Shape)?;
    let names = names_from(values).ok_or(Unread::Shape)?;
    if !ends_at(list, 3) {
        return Err(Unread::Shape);
    }
    Ok(Step::Extract { names })
}

/// The sender and the number of the message that a delivery or an answer names. `Shape` unless just these two follow
/// the verb, each in its form.
#[tactic(auto, unfolding(crate::specs::Decoding::sent_at))]
fn sent_at(list: &Value) -> Result<(u16, u64), Unread>
    ensures { Gives (λ message. message) result (sent_at (view list.now)) }
{
    let sender = node_in(list, 2)?;
    let number = number_in(list, 3)?;
    if !ends_at(list, 4) {
        return Err(Unread::Shape);
    }
    Ok((sender, number))
}

fn deliver_at<A: Allocator>(list: &Value) -> Result<Step<A>, Unread>
    ensures { Gives plain result (option_map (λ message. Deliver message.0 message.1) (sent_at (view list.now))) }
{
    let (sender, number) = sent_at(list)?;
    Ok(Step::Deliver { sender, number })
}

fn answer_at<A: Allocator>(list: &Value) -> Result<Step<A>, Unread>
    ensures { Gives plain result (option_map (λ message. Answer message.0 message.1) (sent_at (view list.now))) }
{
    let (sender, number) = sent_at(list)?;
    Ok(Step::Answer { sender, number })
}

/// The name of an up, a down or a permanently down; `Shape` unless just a whole number below 65,536 follows the verb.
#[tactic(auto, unfolding(crate::specs::Decoding::name_at))]
fn name_at(list: &Value) -> Result<u16, Unread>
    ensures { Gives (λ n. n) result (name_at (view list.now)) }
{
    let name = node_in(list, 2)?;
    if !ends_at(list, 3) {
        return Err(Unread::Shape);
    }
    Ok(name)
}

/// The step of an up, a down or a permanently down; `Shape` for any other verb, or unless just a name follows the verb
/// (see `name_at`).
#[tactic(auto, unfolding(crate::specs::Decoding::status_at))]
fn status_at<A: Allocator>(verb: &str, list: &Value) -> Result<Step<A>, Unread>
    ensures { Gives plain result (status_at verb.now (view list.now)) }
{
    match verb {
        "up" => Ok(Step::Up {
            name: name_at(list)?,
        }),
        "down" => Ok(Step::Down {
            name: name_at(list)?,
        }),
        "permdown" => Ok(Step::Permdown {
            name: name_at(list)?,
        }),
        _ => Err(Unread::Shape),
    }
}

/// The step of a verb that sends or delivers a message, or `Shape` if what follows that verb doesn't have its form; for
/// other verbs what `status_at` gives.
#[tactic(auto, unfolding(crate::specs::Decoding::message_at))]
fn message_at<A: Allocator>(verb: &str, list: &Value) -> Result<Step<A>, Unread>
    ensures { Gives plain result (message_at verb.now (view list.now)) }
{
    match verb {
        "broadcast" if ends_at(list, 2) => Ok(Step::Broadcast),
        "broadcast" => Err(Unread::Shape),
        "extract" => extract_at(list),
        "deliver" => deliver_at(list),
        "request" if ends_at(list, 2) => Ok(Step::Request),
        "request" => Err(Unread::Shape),
        "answer" => answer_at(list),
        _ => status_at(verb, list),
    }
}

/// The step of a verb that changes the node's own entries, or `Shape` if what follows that verb doesn't have its form;
/// for other verbs what `message_at` gives.
#[tactic(auto, unfolding(crate::specs::Decoding::tracking_at))]
fn tracking_at<'a, B: Allocator>(
    alloc: &'a B,
    verb: &str,
    list: &Value,
) -> Result<Step<&'a B>, Unread>
    ensures { Gives plain result (tracking_at verb.now (view list.now)) }
{
    match verb {
        "join" => join_at(alloc, list),
        "leave" => leave_at(alloc, list),
        "leaveall" => leave_all_at(list),
        "update" => update_at(alloc, list),
        _ => message_at(verb, list),
    }
}

/// The step that the list asks for, by its verb, the second word. `Shape` if it asks for none.
#[tactic(auto, unfolding(crate::specs::Decoding::step_at))]
pub(crate) fn step_at<'a, B: Allocator>(alloc: &'a B, list: &Value) -> Result<Step<&'a B>, Unread>
    ensures { Gives plain result (step_at (view list.now)) }
{
    let verb = text_in(list, 1)?;
    tracking_at(alloc, verb, list)
}
