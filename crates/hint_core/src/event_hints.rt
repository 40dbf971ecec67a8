//! The hint for events that were refused.
ghost use Rattle.std.specs.Prelude.{◌≡◌, IfOk, option_map};
ghost use Rattle.serde_json.specs.View.{view};
ghost use Rattle.hint_core.specs.Hints.{plain_hint, line_of};
ghost use Rattle.hint_core.specs.EventHints.{unknown_event, value_hint, json_line_hint, json_hint_at, kind_hint, IsEventHint, IsEventHintAt, IsImportHint};

use crate::event_forms::event_form;
use crate::first_bytes::{begins_object, is_marked};
use crate::hint::{Hint, line_of};
use crate::hints::line_at;
use crate::line_words::text_of;
use dots_core::Oom;
use import_core::{FaultKind, ImportFault};
use log_core::{LineFault, text_in, value_of_line};
use serde_json::Value;
use std::alloc::Global;

/// The hint for a word under `event` that no event has. A word with bytes that a text can't have isn't shown.
#[tactic(auto, unfolding(crate::specs::EventHints::unknown_event))]
fn unknown_event(verb: &str) -> Hint<'_>
    ensures { plain_hint result ≡ unknown_event verb.now }
{
    match text_of(verb.as_bytes()) {
        Some(word) => Hint::About {
            before: "no event is called ",
            word,
            after: "; `import --help` has them all",
        },
        None => Hint::Plain("no event has that word under `event`; `import --help` has them all"),
    }
}

/// The hint for a value that isn't an event: about `node`, else about the word under `event`, else about the other
/// keys.
#[tactic(auto, unfolding(crate::specs::EventHints::value_hint))]
fn value_hint(value: &Value) -> Hint<'_>
    ensures { plain_hint result ≡ value_hint (view value.now) }
{
    if text_in(value, "node").is_none() {
        return Hint::Plain("each line is an object with `node`, a string, and `event`");
    }
    let Some(verb) = text_in(value, "event") else {
        return Hint::Plain("the object has no `event` that is a string, as `join` or `deliver`");
    };
    match event_form(verb) {
        Some(form) => Hint::Plain(form),
        None => unknown_event(verb),
    }
}

/// The hint for a line that isn't JSON, by how the line begins.
#[tactic(auto, unfolding(crate::specs::EventHints::json_line_hint))]
fn json_line_hint(line: &[u8]) -> Hint<'static>
    ensures { plain_hint result ≡ json_line_hint line.now }
{
    if is_marked(line) {
        return Hint::Plain("the line begins with a byte order mark; save the events without one");
    }
    if begins_object(line) {
        return Hint::Plain(
            "each line is one whole JSON object, in double quotes, with nothing behind it",
        );
    }
    Hint::Plain("each line is one JSON object, and this one doesn't begin with `{`")
}

/// The hint for a fault, by its kind and the number of its line, `line`, which is 0 if the fault has none. `None` for
/// `OutOfMemory`, and for a kind whose hint depends on the bytes of the line.
#[tactic(auto, unfolding(crate::specs::EventHints::kind_hint))]
fn kind_hint(line: u64, kind: FaultKind) -> Option<Hint<'static>>
    ensures { option_map plain_hint result ≡ kind_hint line kind }
{
    match kind {
        FaultKind::TooLong if line == 0 => Some(Hint::Plain(
            "a script has at most 1048576 bytes; `--as session` and `--as page` may be longer",
        )),
        FaultKind::TooLong => Some(Hint::Plain("a line of events has at most 1048576 bytes")),
        FaultKind::TooManyNodes => Some(Hint::Plain(
            "a bench has at most 32 nodes, and the lines up to this one name more",
        )),
        FaultKind::NoNodes => Some(Hint::Plain("no line has an event that can be taken")),
        FaultKind::Twice => Some(Hint::Plain(
            "its node sent that `message` before; each message of a node has a value of its own",
        )),
        FaultKind::NeverSent => Some(Hint::Plain(
            "no line sends that message; is it spelled as at its send? `--lenient` leaves such lines out",
        )),
        FaultKind::Circle => Some(Hint::Plain(
            "no order is possible; are each node's events in the order in which it did them?",
        )),
        FaultKind::NotJson | FaultKind::BadEvent | FaultKind::OutOfMemory => None,
    }
}

/// The hint for `line`, which isn't an event, as text with a line feed; `None` if `line` is too long, or has no JSON
/// value.
fn event_hint(heap: Global, line: &[u8]) -> Result<Option<Vec<u8>>, Oom>
    ensures { IfOk result (λ hint. IsEventHint line.now (option_map (λ it. it.items) hint)) }
{
    let value = match value_of_line(heap, line) {
        Ok(Some(value)) => value,
        Ok(None) => return Ok(None),
        Err(LineFault::OutOfMemory) => return Err(Oom),
        Err(LineFault::TooLong | LineFault::NotJson) => return Ok(None),
    };
    let hint = line_of(heap, value_hint(&value));
    // form: drop before exit
    drop(value);
    Ok(Some(hint?))
}

/// Like `event_hint`, but gives `None`, too, if `line` is `None`.
fn event_hint_at(heap: Global, line: Option<&[u8]>) -> Result<Option<Vec<u8>>, Oom>
    ensures { IfOk result (λ hint. IsEventHintAt (option_map (λ l. l.now) line.entry) (option_map (λ it. it.items) hint)) }
{
    match line {
        Some(line) => event_hint(heap, line),
        None => Ok(None),
    }
}

/// The hint for `line`, which isn't JSON, as text with a line feed; `None` if `line` is `None`.
fn json_hint_at(heap: Global, line: Option<&[u8]>) -> Result<Option<Vec<u8>>, Oom>
    ensures { IfOk result (λ hint. option_map (λ it. it.items) hint ≡ json_hint_at (option_map (λ l. l.now) line.entry)) }
{
    match line {
        Some(line) => Ok(Some(line_of(heap, json_line_hint(line))?)),
        None => Ok(None),
    }
}

/// Like `kind_hint`, but gives the hint as text with a line feed.
fn told_hint(heap: Global, line: u64, kind: FaultKind) -> Result<Option<Vec<u8>>, Oom>
    ensures { IfOk result (λ hint. option_map (λ it. it.items) hint ≡ option_map line_of (kind_hint line kind)) }
{
    match kind_hint(line, kind) {
        Some(hint) => Ok(Some(line_of(heap, hint)?)),
        None => Ok(None),
    }
}

/// The hint for `bytes`, events that were refused with this fault, as text with a line feed. `None` for `OutOfMemory`,
/// and where `event_hint_at` (for `BadEvent`) or `json_hint_at` (for `NotJson`) gives none.
pub fn import_hint(heap: Global, bytes: &[u8], fault: ImportFault) -> Result<Option<Vec<u8>>, Oom>
    ensures { IfOk result (λ hint. IsImportHint bytes.now fault (option_map (λ it. it.items) hint)) }
{
    let line = line_at(bytes, fault.line.saturating_sub(1) as usize);
    match fault.kind {
        FaultKind::BadEvent => event_hint_at(heap, line),
        FaultKind::NotJson => json_hint_at(heap, line),
        kind => told_hint(heap, fault.line, kind),
    }
}
