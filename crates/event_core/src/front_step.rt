//! Reads a step off the front of compact JSON, from behind its verb.
ghost use Rattle.std.specs.Prelude.{◌≡◌, ◌∷◌, [], IfOk, codes, map, nat_lt, true};
ghost use Rattle.serde_json.specs.Data.{string};
ghost use Rattle.payload_core.specs.Words.{is_word};
ghost use Rattle.node_core.specs.Operations.{plain};
ghost use Rattle.event_core.specs.Format.{whole, list, numbers_of};
ghost use Rattle.event_core.specs.Fronts.{IsAsked};
ghost use Rattle.json_core.specs.Compact.{AreLast, IsFront};
ghost use Rattle.event_core.specs.Told.{IsPresence};

use crate::front_operands::{next_node, next_whole, next_word};
use crate::read_step::Presence;
use bench_core::Step;
use dots_core::{MOST_NAMES, NameSet};
use json_core::{Unread, behind, whole_front};
use payload_core::Word;
use std::alloc::Allocator;

/// The last word of a call, and what follows the call.
fn last_word<'a, 't, B: Allocator>(
    alloc: &'a B,
    read: &mut String,
    text: &'t str,
) -> Result<(Word<&'a B>, &'t str), Unread>
    ensures last { IfOk result (λ front. AreLast text.now (string front.0 ∷ []) front.1.now) }
    ensures word { IfOk result (λ front. is_word front.0 ≡ true) }
{
    let (word, behind_word) = next_word(alloc, read, text)?;
    match behind(behind_word, "]") {
        Ok(rest) => Ok((word, rest)),
        Err(fault) => {
            // form: drop before exit
            drop(word);
            Err(fault)
        }
    }
}

/// The presence that a join or an update names, and what follows the call.
fn presence_front<'a, 't, B: Allocator>(
    alloc: &'a B,
    read: &mut String,
    text: &'t str,
) -> Result<(Presence<&'a B>, &'t str), Unread>
    ensures last { IfOk result (λ front. AreLast text.now
        (whole front.0.pid ∷ string front.0.topic ∷ string front.0.key ∷ string front.0.metadata ∷ []) front.1.now) }
    ensures words { IfOk result (λ front.
        IsPresence (record { pid = front.0.pid; topic = front.0.topic; key = front.0.key; metadata = front.0.metadata })) }
{
    let (pid, behind_pid) = next_whole(text)?;
    let (topic, behind_topic) = next_word(alloc, read, behind_pid)?;
    let (key, behind_key) = match next_word(alloc, read, behind_topic) {
        Ok(found) => found,
        Err(fault) => {
            // form: drop before exit
            drop(topic);
            return Err(fault);
        }
    };
    let (metadata, rest) = match last_word(alloc, read, behind_key) {
        Ok(found) => found,
        Err(fault) => {
            drop(topic);
            drop(key);
            return Err(fault);
        }
    };
    Ok((
        Presence {
            pid,
            topic,
            key,
            metadata,
        },
        rest,
    ))
}

fn join_front<'a, 't, B: Allocator>(
    alloc: &'a B,
    read: &mut String,
    text: &'t str,
) -> Result<(Step<&'a B>, &'t str), Unread>
    ensures { IfOk result (λ front. IsAsked (codes "join") text.now (plain front.0) front.1.now) }
{
    let (presence, rest) = presence_front(alloc, read, text)?;
    let Presence {
        pid,
        topic,
        key,
        metadata,
    } = presence;
    Ok((
        Step::Join {
            pid,
            topic,
            key,
            metadata,
        },
        rest,
    ))
}

fn update_front<'a, 't, B: Allocator>(
    alloc: &'a B,
    read: &mut String,
    text: &'t str,
) -> Result<(Step<&'a B>, &'t str), Unread>
    ensures { IfOk result (λ front. IsAsked (codes "update") text.now (plain front.0) front.1.now) }
{
    let (presence, rest) = presence_front(alloc, read, text)?;
    let Presence {
        pid,
        topic,
        key,
        metadata,
    } = presence;
    Ok((
        Step::Update {
            pid,
            topic,
            key,
            metadata,
        },
        rest,
    ))
}

fn leave_front<'a, 't, B: Allocator>(
    alloc: &'a B,
    read: &mut String,
    text: &'t str,
) -> Result<(Step<&'a B>, &'t str), Unread>
    ensures { IfOk result (λ front. IsAsked (codes "leave") text.now (plain front.0) front.1.now) }
{
    let (pid, behind_pid) = next_whole(text)?;
    let (topic, behind_topic) = next_word(alloc, read, behind_pid)?;
    match last_word(alloc, read, behind_topic) {
        Ok((key, rest)) => Ok((Step::Leave { pid, topic, key }, rest)),
        Err(fault) => {
            // form: drop before exit
            drop(topic);
            Err(fault)
        }
    }
}

fn leave_all_front<A: Allocator>(text: &str) -> Result<(Step<A>, &str), Unread>
    ensures { IfOk result (λ front. IsAsked (codes "leaveall") text.now (plain front.0) front.1.now) }
{
    let (pid, behind_pid) = next_whole(text)?;
    let rest = behind(behind_pid, "]")?;
    Ok((Step::LeaveAll { pid }, rest))
}

/// The sender and the number of a message, and what follows the call.
fn message_front(text: &str) -> Result<(u16, u64, &str), Unread>
    ensures last { IfOk result (λ front. AreLast text.now (whole front.0 ∷ whole front.1 ∷ []) front.2.now) }
    ensures below { IfOk result (λ front. nat_lt front.0 65536 ≡ true) }
{
    let (sender, behind_sender) = next_node(text)?;
    let (number, behind_number) = next_whole(behind_sender)?;
    let rest = behind(behind_number, "]")?;
    Ok((sender, number, rest))
}

fn deliver_front<A: Allocator>(text: &str) -> Result<(Step<A>, &str), Unread>
    ensures { IfOk result (λ front. IsAsked (codes "deliver") text.now (plain front.0) front.1.now) }
{
    let (sender, number, rest) = message_front(text)?;
    Ok((Step::Deliver { sender, number }, rest))
}

fn answer_front<A: Allocator>(text: &str) -> Result<(Step<A>, &str), Unread>
    ensures { IfOk result (λ front. IsAsked (codes "answer") text.now (plain front.0) front.1.now) }
{
    let (sender, number, rest) = message_front(text)?;
    Ok((Step::Answer { sender, number }, rest))
}

/// The name that an up, a down or a permanently down names, and what follows the call.
fn name_front(text: &str) -> Result<(u16, &str), Unread>
    ensures last { IfOk result (λ front. AreLast text.now (whole front.0 ∷ []) front.1.now) }
    ensures below { IfOk result (λ front. nat_lt front.0 65536 ≡ true) }
{
    let (name, behind_name) = next_node(text)?;
    let rest = behind(behind_name, "]")?;
    Ok((name, rest))
}

/// The names whose numbers rise from the text's front on, each behind a comma but the first. What else may stand there
/// is left to `behind_names`.
fn listed_names(text: &str) -> NameSet {
    let mut names = NameSet::empty();
    let mut rest = text;
    for number in 0..MOST_NAMES {
        if let Ok((found, behind_number)) = whole_front(rest) {
            if found == u64::from(number) {
                names = names.with(number);
                rest = behind(behind_number, ",").unwrap_or(behind_number);
            }
        }
    }
    names
}

/// What follows the list of the numbers of these names; `Shape` if the text doesn't begin with that list.
fn behind_names(names: NameSet, text: &str) -> Result<&str, Unread>
    ensures { IfOk result (λ rest. IsFront text.now (list (map whole (numbers_of names))) rest.now) }
{
    let numbers = behind(text, "[")?;
    let mut rest = numbers;
    let mut comma = "";
    for number in 0..32u16 {
        if names.has(number) {
            let (found, behind_number) = whole_front(behind(rest, comma)?)?;
            if found != u64::from(number) {
                return Err(Unread::Shape);
            }
            rest = behind_number;
            comma = ",";
        }
    }
    behind(rest, "]")
}

fn extract_front<A: Allocator>(text: &str) -> Result<(Step<A>, &str), Unread>
    ensures { IfOk result (λ front. IsAsked (codes "extract") text.now (plain front.0) front.1.now) }
{
    let list = behind(text, ",")?;
    let names = listed_names(behind(list, "[")?);
    // form: hands out what the value keeps
    names.names_law();
    let rest = behind(behind_names(names, list)?, "]")?;
    Ok((Step::Extract { names }, rest))
}

/// The step of an up, a down or a permanently down, and what follows the call.
fn status_front<'t, A: Allocator>(verb: &str, text: &'t str) -> Result<(Step<A>, &'t str), Unread>
    ensures { IfOk result (λ front. IsAsked verb.now text.now (plain front.0) front.1.now) }
{
    let (name, rest) = name_front(text)?;
    match verb {
        "up" => Ok((Step::Up { name }, rest)),
        "down" => Ok((Step::Down { name }, rest)),
        "permdown" => Ok((Step::Permdown { name }, rest)),
        _ => Err(Unread::Shape),
    }
}

/// The step of a verb that sends or delivers a message, or else that of a status, and what follows the call.
fn sending_front<'t, A: Allocator>(verb: &str, text: &'t str) -> Result<(Step<A>, &'t str), Unread>
    ensures { IfOk result (λ front. IsAsked verb.now text.now (plain front.0) front.1.now) }
{
    match verb {
        "broadcast" => Ok((Step::Broadcast, behind(text, "]")?)),
        "extract" => extract_front(text),
        "deliver" => deliver_front(text),
        "request" => Ok((Step::Request, behind(text, "]")?)),
        "answer" => answer_front(text),
        _ => status_front(verb, text),
    }
}

/// The step of the verb, and what follows the call in the text, which begins behind the verb. `Shape` if no such call
/// goes on there.
pub(crate) fn step_front<'a, 't, B: Allocator>(
    alloc: &'a B,
    read: &mut String,
    verb: &str,
    text: &'t str,
) -> Result<(Step<&'a B>, &'t str), Unread>
    ensures { IfOk result (λ front. IsAsked verb.now text.now (plain front.0) front.1.now) }
{
    match verb {
        "join" => join_front(alloc, read, text),
        "leave" => leave_front(alloc, read, text),
        "leaveall" => leave_all_front(text),
        "update" => update_front(alloc, read, text),
        _ => sending_front(verb, text),
    }
}
