//! The hint for a script or a session that was refused.
ghost use Rattle.std.specs.Prelude.{◌≡◌, IfOk, option_map, take, slice_get, ◌-◌};
ghost use Rattle.grammar_core.specs.Words.{lines_of};
ghost use Rattle.hint_core.specs.Hints.{plain_hint, line_of};
ghost use Rattle.hint_core.specs.Choices.{hint_of_line, hint_of_whole, hint_at, hint_of, hint_line, is_out_of_memory};
ghost use Rattle.hint_core.specs.Sessions.{session_hint};

use crate::first_bytes::{begins_object, is_blank, is_marked};
use crate::hint::{Hint, line_of};
use crate::line_words::few_words;
use crate::names_hint::{bad_name, twice};
use crate::text_hint::{not_text, too_long};
use crate::words_hint::{bad_number, no_nodes, not_allowed, unknown_word, wrong_count};
use dots_core::Oom;
use grammar_core::{FaultKind, ScriptFault};
use std::alloc::Allocator;

/// The hint for the line `line` with the fault `kind`; `None` for `OutOfMemory`, or if the line lacks the word or byte
/// that the hint would show. `number` is the line's number; the first `count` lines of `bytes` stand before the line.
#[tactic(auto, unfolding(crate::specs::Choices::hint_of_line))]
fn hint_of_line<'l>(
    number: u64,
    bytes: &[u8],
    count: usize,
    line: &'l [u8],
    kind: FaultKind,
) -> Option<Hint<'l>>
    ensures { option_map plain_hint result ≡ hint_of_line number (take count (lines_of bytes.now)) line.now kind }
{
    let words = few_words(line);
    let words = words.as_slice();
    match kind {
        FaultKind::NotText => not_text(number, line),
        FaultKind::TooLong => too_long(line, words),
        FaultKind::NoNodes => no_nodes(words),
        FaultKind::Twice => twice(bytes, count, words),
        FaultKind::UnknownWord => unknown_word(bytes, count, words),
        FaultKind::WrongCount => wrong_count(words),
        FaultKind::NotAllowed => not_allowed(words),
        FaultKind::BadNumber => bad_number(words),
        FaultKind::BadName => bad_name(bytes, count, words),
        FaultKind::OutOfMemory => None,
    }
}

/// The hint for a fault of the whole input; `None` unless `kind` is `TooLong` or `NoNodes`.
#[tactic(auto, unfolding(crate::specs::Choices::hint_of_whole))]
fn hint_of_whole(bytes: &[u8], kind: FaultKind) -> Option<Hint<'static>>
    ensures { option_map plain_hint result ≡ hint_of_whole bytes.now kind }
{
    match kind {
        FaultKind::TooLong => Some(Hint::Plain(
            "a script has at most 1048576 bytes; a session may have 67108864",
        )),
        FaultKind::NoNodes if is_blank(bytes) => Some(Hint::Plain(
            "the input is empty; the first line of a script is `nodes NAME ..`",
        )),
        FaultKind::NoNodes => Some(Hint::Plain(
            "no line names the nodes; the first line is `nodes NAME ..`",
        )),
        _ => None,
    }
}

/// The line at `place`, counted from 0; `None` if there are fewer lines.
pub(crate) fn line_at(bytes: &[u8], place: usize) -> Option<&[u8]>
    ensures { option_map (λ line. line.now) result ≡ slice_get (lines_of bytes.now) place }
{
    bytes.split(|byte| *byte == b'\n').nth(place)
}

/// The hint for the line with this number, which has the fault `kind`; `None` if there is no such line, or
/// `hint_of_line` gives none.
fn hint_at(bytes: &[u8], number: u64, kind: FaultKind) -> Option<Hint<'_>>
    ensures { option_map plain_hint result ≡ hint_at bytes.now number (slice_get (lines_of bytes.now) (number - 1)) kind }
{
    // form: numbers are from 1; saturating spares a requirement that says so
    let count = number.saturating_sub(1) as usize;
    let line = line_at(bytes, count)?;
    hint_of_line(number, bytes, count, line, kind)
}

/// Whether the fault is that memory was refused.
fn is_out_of_memory(kind: FaultKind) -> bool
    ensures { result ≡ is_out_of_memory kind }
{
    matches!(kind, FaultKind::OutOfMemory)
}

/// The hint for the first fault of a script. `None` for `OutOfMemory`. If the input begins with `{`, white space aside,
/// all other faults have the same hint; else the hint is that of `hint_of_whole` or `hint_at`, which may be `None`.
#[tactic(auto, unfolding(crate::specs::Choices::hint_of))]
fn hint_of(bytes: &[u8], fault: ScriptFault) -> Option<Hint<'_>>
    ensures { option_map plain_hint result ≡ hint_of bytes.now fault }
{
    if is_out_of_memory(fault.kind) {
        return None;
    }
    if begins_object(bytes) {
        return Some(Hint::Plain(
            "the input begins with `{`: `load` takes sessions, and `import` events",
        ));
    }
    if fault.line == 0 {
        return hint_of_whole(bytes, fault.kind);
    }
    hint_at(bytes, fault.line, fault.kind)
}

/// The hint for `bytes`, a script that was refused with this fault, as a line with its line feed; `None` if the fault
/// has no hint.
pub fn script_hint<A: Allocator + Copy>(
    alloc: A,
    bytes: &[u8],
    fault: ScriptFault,
) -> Result<Option<Vec<u8, A>>, Oom>
    ensures { IfOk result (λ hint. option_map (λ line. line.items) hint ≡ hint_line bytes.now fault) }
{
    match hint_of(bytes, fault) {
        Some(hint) => Ok(Some(line_of(alloc, hint)?)),
        None => Ok(None),
    }
}

/// The hint for a session that isn't JSON, by how the input begins.
#[tactic(auto, unfolding(crate::specs::Sessions::session_hint))]
fn hint_of_session(bytes: &[u8]) -> Hint<'static>
    ensures { plain_hint result ≡ session_hint bytes.now }
{
    if is_blank(bytes) {
        return Hint::Plain("the input is empty; `play --as session` prints a session");
    }
    if is_marked(bytes) {
        return Hint::Plain("the input begins with a byte order mark; save it without one");
    }
    if begins_object(bytes) {
        return Hint::Plain(
            "a session is one object, as `play --as session` prints it; `import` takes events",
        );
    }
    Hint::Plain("a session begins with `{`, and this input doesn't; `play` takes scripts")
}

/// The hint for `bytes`, which were refused as a session since they aren't JSON, as a line with its line feed.
pub fn session_hint<A: Allocator + Copy>(alloc: A, bytes: &[u8]) -> Result<Vec<u8, A>, Oom>
    ensures { IfOk result (λ hint. hint.items ≡ line_of (session_hint bytes.now)) }
{
    line_of(alloc, hint_of_session(bytes))
}
