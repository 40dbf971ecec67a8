//! Reads a session's text where it stands, if it is compact, as `save` of `session_core` writes it: without tokens, and
//! without JSON values.
ghost use Rattle.std.specs.Prelude.{◌≡◌, ◌⊎◌, ◌++◌, ◌∷◌, [], IfOk, IsUtf8, codes, false, map, true};
ghost use Rattle.std.specs.List.{AllByRecursion};
ghost use Rattle.serde_json.specs.Data.{member, no_members};
ghost use Rattle.serde_json.specs.Written.{members_text};
ghost use Rattle.json_core.specs.Compact.{IsFront, IsWhole};
ghost use Rattle.event_core.specs.Format.{event_json, list, whole};
ghost use Rattle.event_core.specs.Told.{IsTold};
ghost use Rattle.recording_core.specs.Recordings.{IsRecording};
ghost use Rattle.recording_core.specs.Scanned.{HasNames, IsCompact, IsEnd};
ghost use Rattle.recording_core.specs.Versions.{number_of};

use crate::acts::Acts;
use crate::read_parts::names_of;
use crate::recording::Recording;
use crate::version::Version;
use bench_core::{Event, Limits, Names};
use event_core::event_front;
use json_core::{Unread, behind, plain_front, whole_front};
use std::alloc::{Allocator, Global};

/// The recorded calls of the list that the text begins with, and what follows the list.
fn events_front<'a, 't, B: Allocator>(
    heap: Global,
    alloc: &'a B,
    text: &'t str,
) -> Result<(Vec<Event<&'a B>>, &'t str), Unread>
    ensures front { IfOk result (λ front. IsFront text.now (list (map event_json front.0.items)) front.1.now) }
    ensures told { IfOk result (λ front. AllByRecursion IsTold front.0.items) }
{
    let mut events = Vec::new(heap);
    let mut read = String::new(heap);
    let mut rest = behind(text, "[")?;
    let mut comma = "";
    // form: the proof names the loop
    'events: while !rest.starts_with(']') {
        let (event, behind_event) = event_front(alloc, &mut read, behind(rest, comma)?)?;
        events.push(event)?;
        rest = behind_event;
        comma = ",";
    }
    let rest = behind(rest, "]")?;
    Ok((events, rest))
}

/// The version that a session's text tells behind its names, at its end. `Shape` if it is none that is read.
fn version_end(text: &str) -> Result<Version, Unread>
    ensures text { IfOk result (λ version. text.now ≡ members_text true (member (codes "version") (whole (number_of version)) no_members)) }
    ensures whole { IfOk result (λ version. IsWhole (whole (number_of version))) }
{
    let (number, rest) = whole_front(behind(text, ",\"version\":")?)?;
    if rest != "}" {
        return Err(Unread::Shape);
    }
    match Version::of_number(number) {
        Some(version) => Ok(version),
        None => Err(Unread::Shape),
    }
}

/// What a session's text says behind its acts.
#[derive(Drop)]
struct End<A: Allocator> {
    version: Version,
    limits: Limits,
    names: Names<A>,
}

/// Reads the texts of the names and the version, through the brace that ends the text. `Shape` if a bench can't have
/// these names.
fn end_with<'a, B: Allocator>(
    heap: Global,
    alloc: &'a B,
    limits: Limits,
    text: &str,
) -> Result<End<&'a B>, Unread>
    ensures limits { IfOk result (λ end. end.limits ≡ limits) }
    ensures names { IfOk result (λ end. HasNames text.now end.names (number_of end.version)) }
{
    let mut texts = Vec::new(heap);
    let mut rest = behind(text, ",\"nodes\":[")?;
    let mut comma = "";
    // form: the proof names the loop
    'texts: while !rest.starts_with(']') {
        let (string, behind_string) = plain_front(behind(rest, comma)?)?;
        texts.push(string)?;
        rest = behind_string;
        comma = ",";
    }
    let version = version_end(behind(rest, "]")?)?;
    let names = names_of(alloc, texts.as_slice())?;
    Ok(End {
        version,
        limits,
        names,
    })
}

/// Reads what a session's text says behind its acts, through the brace that ends the text.
fn end_of<'a, B: Allocator>(heap: Global, alloc: &'a B, text: &str) -> Result<End<&'a B>, Unread>
    ensures { IfOk result (λ end. IsEnd text.now end.limits end.names (number_of end.version)) }
{
    let (acts, behind_acts) = whole_front(behind(text, ",\"limits\":[")?)?;
    let (entries, behind_entries) = whole_front(behind(behind_acts, ",")?)?;
    let (clock, behind_clock) = whole_front(behind(behind_entries, ",")?)?;
    let (messages, behind_messages) = whole_front(behind(behind_clock, ",")?)?;
    let rest = behind(behind_messages, "]")?;
    match Limits::new(acts, entries, clock, messages) {
        Some(limits) => end_with(heap, alloc, limits, rest),
        None => Err(Unread::Shape),
    }
}

/// What a session's compact text says. `Shape` for any other text.
fn scanned_line<'a, B: Allocator>(
    heap: Global,
    alloc: &'a B,
    text: &str,
) -> Result<Recording<&'a B>, Unread>
    ensures compact { IfOk result (λ r. IsCompact text.now (number_of r.version) (record { limits = r.limits; names = r.names }) r.acts.events.items) }
    ensures whole { IfOk result (λ r. r.acts.is_cut ≡ false) }
{
    let (events, behind_events) = events_front(heap, alloc, behind(text, "{\"acts\":")?)?;
    match end_of(heap, alloc, behind_events) {
        Ok(end) => Ok(Recording {
            version: end.version,
            limits: end.limits,
            names: end.names,
            acts: Acts {
                events,
                is_cut: false,
            },
        }),
        Err(fault) => {
            // form: drop before exit
            drop(events);
            Err(fault)
        }
    }
}

/// The text without a line feed at its end.
fn without_line_feed(text: &str) -> &str
    ensures { (text.now ≡ result.now) ⊎ (text.now ≡ result.now ++ 10 ∷ []) }
{
    match text.strip_suffix("\n") {
        Some(line) => line,
        None => text,
    }
}

/// What a session's text says, if it is compact; a line feed may stand behind it. `Shape` for any other text: then only
/// a reading of its JSON values tells what it says.
pub(crate) fn scanned<'a, B: Allocator>(
    heap: Global,
    alloc: &'a B,
    text: &str,
) -> Result<Recording<&'a B>, Unread>
    ensures { IfOk result (λ r. IsUtf8 text.now → IsRecording text.now (number_of r.version)
        (record { limits = r.limits; names = r.names }) r.acts.events.items r.acts.is_cut) }
{
    scanned_line(heap, alloc, without_line_feed(text))
}
