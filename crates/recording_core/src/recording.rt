//! `read_session`: what a session's text says, before its calls are asked.
ghost use Rattle.std.specs.Prelude.{◌≡◌, ◌⊎◌, None, IfOk, IfErr, IsUtf8};
ghost use Rattle.serde_json.specs.Data.{Data};
ghost use Rattle.serde_json.specs.Read.{read};
ghost use Rattle.serde_json.specs.View.{view};
ghost use Rattle.recording_core.specs.Drafts.{IsDraft};
ghost use Rattle.recording_core.specs.Recordings.{IsRecording, Tells};
ghost use Rattle.recording_core.specs.Sessions.{IsRefused, Refuses};
ghost use Rattle.recording_core.specs.Versions.{number_of};

use crate::acts::Acts;
use crate::draft::{Draft, draft_of};
use crate::read_parts::{parts_at, version_of};
use crate::scan::scanned;
use crate::session_fault::SessionFault;
use crate::version::Version;
use bench_core::{Limits, Names};
use json_core::Unread;
use std::alloc::{Allocator, Global};

/// What a session's text says: what its bench is opened with, and the calls that the bench recorded, up to the first
/// item of the list of acts that doesn't stand for a recorded call.
#[derive(Drop)]
pub struct Recording<A: Allocator> {
    pub version: Version,
    pub limits: Limits,
    pub names: Names<A>,
    pub acts: Acts<A>,
}

/// What the text of this draft says. If its head isn't a session's: `BadVersion` for a whole number under `version`
/// that isn't a version, and `BadShape` with act 0 for anything else.
fn recording_of<'a, B: Allocator>(
    heap: Global,
    alloc: &'a B,
    draft: Draft<&'a B>,
) -> Result<Recording<&'a B>, SessionFault>
    ensures ok { IfOk result (λ r. (d : Data) → IsDraft d (view draft.entry.head) draft.entry.acts.events.items draft.entry.acts.is_cut →
        Tells d (number_of r.version) (record { limits = r.limits; names = r.names }) r.acts.events.items r.acts.is_cut) }
    ensures err { IfErr result (λ fault. (d : Data) → IsDraft d (view draft.entry.head) draft.entry.acts.events.items draft.entry.acts.is_cut
        → IsRefused d fault) }
{
    let Some(number) = version_of(&draft.head) else {
        return Err(SessionFault::BadShape { act: 0 });
    };
    let Some(version) = Version::of_number(number) else {
        return Err(SessionFault::BadVersion);
    };
    match parts_at(heap, alloc, &draft.head) {
        Ok(parts) => Ok(Recording {
            version,
            limits: parts.limits,
            names: parts.names,
            acts: draft.acts,
        }),
        Err(Unread::Memory) => Err(SessionFault::OutOfMemory),
        Err(Unread::Shape) => Err(SessionFault::BadShape { act: 0 }),
    }
}

/// Reads the text; `NotJson` if it isn't JSON, or nests too deep.
fn read<'a, B: Allocator>(
    heap: Global,
    alloc: &'a B,
    text: &str,
) -> Result<Draft<&'a B>, SessionFault>
    ensures ok { IfOk result (λ x. (d : Data) × (read text.now ≡ Some d) × IsDraft d (view x.head) x.acts.events.items x.acts.is_cut) }
    ensures err { IfErr result (λ e. (e ≡ SessionFault.OutOfMemory) ⊎ ((e ≡ SessionFault.NotJson) × (read text.now ≡ None))) }
{
    match draft_of(heap, alloc, text) {
        Ok(draft) => Ok(draft),
        Err(Unread::Memory) => Err(SessionFault::OutOfMemory),
        Err(Unread::Shape) => Err(SessionFault::NotJson),
    }
}

/// Like `read_session`, but of a text, value by value.
fn read_values<'a, B: Allocator>(
    heap: Global,
    alloc: &'a B,
    text: &str,
) -> Result<Recording<&'a B>, SessionFault>
    ensures recording { IfOk result (λ r. IsUtf8 text.now → IsRecording text.now (number_of r.version)
        (record { limits = r.limits; names = r.names }) r.acts.events.items r.acts.is_cut) }
    ensures refused { IfErr result (λ fault. IsUtf8 text.now → Refuses text.now fault) }
{
    let draft = read(heap, alloc, text)?;
    recording_of(heap, alloc, draft)
}

/// Reads what the text of a session says, of either version, before its calls are asked. Refuses, as `load` of
/// `session_core` does, a text that isn't JSON or nests too deep as `NotJson`, and one whose head isn't a session's as
/// `BadVersion` or `BadShape` with act 0. The caller has to check that each value in the list of acts is an event
/// (`is_cut` is false), that a text of this version can have these acts with their replies, and that a bench that is
/// asked them gives the recorded replies and records them. Each act's JSON is dropped once its event is known. JSON
/// values and the list of events take their memory from the global heap.
pub fn read_session<'a, B: Allocator>(
    heap: Global,
    alloc: &'a B,
    bytes: &[u8],
) -> Result<Recording<&'a B>, SessionFault>
    ensures recording { IfOk result (λ r. IsRecording bytes.now (number_of r.version)
        (record { limits = r.limits; names = r.names }) r.acts.events.items r.acts.is_cut) }
    ensures refused { IfErr result (Refuses bytes.now) }
{
    let Ok(text) = std::str::from_utf8(bytes) else {
        return Err(SessionFault::NotJson);
    };
    match scanned(heap, alloc, text) {
        Ok(recording) => Ok(recording),
        Err(Unread::Memory) => Err(SessionFault::OutOfMemory),
        Err(Unread::Shape) => read_values(heap, alloc, text),
    }
}
