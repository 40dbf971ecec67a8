//! Reads the reply that a JSON list gives.
ghost use Rattle.std.specs.Prelude.{◌≡◌};
ghost use Rattle.serde_json.specs.View.{view};
ghost use Rattle.json_core.specs.Decoded.{Gives};
ghost use Rattle.event_core.specs.Decoding.{fault_of, consequence_at, fault_at, counted_at, reply_at};

use bench_core::{Fault, Reply};
use json_core::{Unread, ends_at, number_in, text_in};
use serde_json::Value;

/// The fault with this number in a session, among those that are recorded and have no fields; `None` for other numbers.
pub(crate) fn fault_of(code: u64) -> Option<Fault>
    ensures { result ≡ fault_of code }
{
    match code {
        1 => Some(Fault::OwnReplica),
        2 => Some(Fault::NotKnown),
        3 => Some(Fault::NotDown),
        4 => Some(Fault::AlreadyTracked),
        5 => Some(Fault::NotTracked),
        6 => Some(Fault::NothingToSend),
        7 => Some(Fault::EntriesFull),
        8 => Some(Fault::ClockFull),
        9 => Some(Fault::OwnMessage),
        10 => Some(Fault::NoSuchMessage),
        11 => Some(Fault::OutboxFull),
        12 => Some(Fault::UnknownNode),
        13 => Some(Fault::NoSuchStep),
        14 => Some(Fault::AlreadyUndone),
        15 => Some(Fault::NothingToUndo),
        18 => Some(Fault::NotRequest),
        19 => Some(Fault::IsRequest),
        _ => None,
    }
}

/// `HasConsequence` with the two numbers behind 16; `Shape` unless just two whole numbers follow.
#[tactic(auto, unfolding(crate::specs::Decoding::consequence_at))]
fn consequence_at(list: &Value) -> Result<Fault, Unread>
    ensures { Gives (λ f. f) result (consequence_at (view list.now)) }
{
    let step = number_in(list, 2)?;
    let held_by = number_in(list, 3)?;
    if !ends_at(list, 4) {
        return Err(Unread::Shape);
    }
    Ok(Fault::HasConsequence { step, held_by })
}

/// The fault of a refusal, by the number behind `no`. Behind 16, which stands for `HasConsequence`, the list has the
/// numbers of the step and of its consequence. `Shape` if the list has another form, or no fault that is recorded has
/// the number.
#[tactic(auto, unfolding(crate::specs::Decoding::fault_at))]
fn fault_at(list: &Value) -> Result<Fault, Unread>
    ensures { Gives (λ f. f) result (fault_at (view list.now)) }
{
    let code = number_in(list, 1)?;
    if code == 16 {
        return consequence_at(list);
    }
    let fault = fault_of(code).ok_or(Unread::Shape)?;
    if !ends_at(list, 2) {
        return Err(Unread::Shape);
    }
    Ok(fault)
}

/// The number behind the list's first word; `Shape` unless just a whole number follows that word.
#[tactic(auto, unfolding(crate::specs::Decoding::counted_at))]
fn counted_at(list: &Value) -> Result<u64, Unread>
    ensures { Gives (λ n. n) result (counted_at (view list.now)) }
{
    let number = number_in(list, 1)?;
    if !ends_at(list, 2) {
        return Err(Unread::Shape);
    }
    Ok(number)
}

/// The reply that the list gives, by its first word: `ok`, `undone` or `no`. `Shape` if it gives none.
#[tactic(auto, unfolding(crate::specs::Decoding::reply_at))]
pub(crate) fn reply_at(list: &Value) -> Result<Reply, Unread>
    ensures { Gives (λ r. r) result (reply_at (view list.now)) }
{
    match text_in(list, 0)? {
        "ok" => Ok(Reply::Taken(counted_at(list)?)),
        "undone" => Ok(Reply::Undone(counted_at(list)?)),
        "no" => Ok(Reply::Refused(fault_at(list)?)),
        _ => Err(Unread::Shape),
    }
}
