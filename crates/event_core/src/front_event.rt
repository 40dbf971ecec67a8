//! Reads a recorded call off the front of compact JSON, as `save` of `session_core` writes it, without a JSON value.
ghost use Rattle.std.specs.Prelude.{◌∷◌, [], IfOk};
ghost use Rattle.bench_core.specs.Acts.{plain_act};
ghost use Rattle.event_core.specs.Format.{act_json, code_of, event_json, fault_rest, reply_json, whole};
ghost use Rattle.json_core.specs.Compact.{AreLast, IsFront};
ghost use Rattle.event_core.specs.Told.{IsAction, IsRecordedFault, IsRecordedReply, IsTold};

use crate::front_operands::{next_node, next_whole, node_front};
use crate::front_step::step_front;
use crate::read_reply::fault_of;
use bench_core::{Act, Event, Fault, Reply};
use json_core::{Unread, behind, plain_front};
use std::alloc::Allocator;

/// The act that the text begins with, and what follows.
fn act_front<'a, 't, B: Allocator>(
    alloc: &'a B,
    read: &mut String,
    text: &'t str,
) -> Result<(Act<&'a B>, &'t str), Unread>
    ensures front { IfOk result (λ front. IsFront text.now (act_json (plain_act front.0)) front.1.now) }
    ensures told { IfOk result (λ front. IsAction (plain_act front.0)) }
{
    let (word, behind_word) = plain_front(behind(text, "[")?)?;
    match word {
        "do" => {
            let (verb, behind_verb) = plain_front(behind(behind_word, ",")?)?;
            let (step, rest) = step_front(alloc, read, verb, behind_verb)?;
            Ok((Act::Do(step), rest))
        }
        "undo" => {
            let (number, behind_number) = next_whole(behind_word)?;
            Ok((Act::Undo(number), behind(behind_number, "]")?))
        }
        "back" => {
            let (node, behind_node) = next_node(behind_word)?;
            Ok((Act::Back(node), behind(behind_node, "]")?))
        }
        _ => Err(Unread::Shape),
    }
}

/// The fault of a refusal, from behind the word `no`, and what follows the reply.
fn fault_front(text: &str) -> Result<(Fault, &str), Unread>
    ensures last { IfOk result (λ front. AreLast text.now (whole (code_of front.0) ∷ fault_rest front.0) front.1.now) }
    ensures recorded { IfOk result (λ front. IsRecordedFault front.0) }
{
    let (code, behind_code) = next_whole(text)?;
    if code == 16 {
        let (step, behind_step) = next_whole(behind_code)?;
        let (held_by, behind_held) = next_whole(behind_step)?;
        let rest = behind(behind_held, "]")?;
        return Ok((Fault::HasConsequence { step, held_by }, rest));
    }
    let fault = fault_of(code).ok_or(Unread::Shape)?;
    Ok((fault, behind(behind_code, "]")?))
}

/// The number behind a reply's word, and what follows the reply.
fn counted_front(text: &str) -> Result<(u64, &str), Unread>
    ensures { IfOk result (λ front. AreLast text.now (whole front.0 ∷ []) front.1.now) }
{
    let (number, behind_number) = next_whole(text)?;
    Ok((number, behind(behind_number, "]")?))
}

/// The reply that the text begins with, and what follows.
fn reply_front(text: &str) -> Result<(Reply, &str), Unread>
    ensures front { IfOk result (λ front. IsFront text.now (reply_json front.0) front.1.now) }
    ensures recorded { IfOk result (λ front. IsRecordedReply front.0) }
{
    let (word, behind_word) = plain_front(behind(text, "[")?)?;
    match word {
        "ok" => {
            let (number, rest) = counted_front(behind_word)?;
            Ok((Reply::Taken(number), rest))
        }
        "undone" => {
            let (number, rest) = counted_front(behind_word)?;
            Ok((Reply::Undone(number), rest))
        }
        "no" => {
            let (fault, rest) = fault_front(behind_word)?;
            Ok((Reply::Refused(fault), rest))
        }
        _ => Err(Unread::Shape),
    }
}

/// The reply behind a comma, and what follows the call.
fn reply_end(text: &str) -> Result<(Reply, &str), Unread>
    ensures last { IfOk result (λ front. AreLast text.now (reply_json front.0 ∷ []) front.1.now) }
    ensures recorded { IfOk result (λ front. IsRecordedReply front.0) }
{
    let (reply, behind_reply) = reply_front(behind(text, ",")?)?;
    Ok((reply, behind(behind_reply, "]")?))
}

/// The recorded call that the text begins with, and what follows. `Shape` unless the call's compact JSON stands there.
/// The words of the call take their memory from `alloc`; each is read into `read` first, without its escapes, so what
/// stands there is lost.
pub fn event_front<'a, 't, B: Allocator>(
    alloc: &'a B,
    read: &mut String,
    text: &'t str,
) -> Result<(Event<&'a B>, &'t str), Unread>
    ensures front { IfOk result (λ front. IsFront text.now (event_json front.0) front.1.now) }
    ensures told { IfOk result (λ front. IsTold front.0) }
{
    let (actor, behind_actor) = node_front(behind(text, "[")?)?;
    let (act, behind_act) = act_front(alloc, read, behind(behind_actor, ",")?)?;
    let (reply, rest) = match reply_end(behind_act) {
        Ok(found) => found,
        Err(fault) => {
            // form: drop before exit
            drop(act);
            return Err(fault);
        }
    };
    Ok((Event { actor, act, reply }, rest))
}
