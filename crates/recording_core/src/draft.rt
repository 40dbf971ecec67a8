//! `Draft`: the text of a session as it is read, before its calls are asked.
ghost use Rattle.std.specs.Prelude.{◌≡◌, ◌<◌, ◌∷◌, [], length, Some, None, Err, IfOk, OnOk};
ghost use Rattle.std.specs.Bool.{MatchBool};
ghost use Rattle.json.specs.Json.{value};
ghost use Rattle.json.specs.Token.{begin_object};
ghost use Rattle.serde_json.specs.Data.{Data, no_members, object};
ghost use Rattle.serde_json.specs.Read.{read, of_json, converted};
ghost use Rattle.serde_json.specs.View.{view, members_view};
ghost use Rattle.recording_core.specs.Decoding.{are_acts, items_in};
ghost use Rattle.recording_core.specs.Drafts.{AreRead, IsDraft, emptied, emptied_at};
ghost use Rattle.recording_core.specs.Sessions.{data_of};
ghost use Rattle.json_core.specs.declared.unread.Unread.TheVariants.{Shape};

use crate::acts::Acts;
use json::{Reader, Scratch, Token};
use json_core::{Unread, value_from, value_of};
use serde_json::{Map, Value};
use std::alloc::{Allocator, Global};

/// How deep the value of a text may nest.
const MAX_DEPTH: usize = 127;

/// How deep a member of the outermost object may nest.
const MEMBER_DEPTH: usize = 126;

/// A JSON value that was read, with its acts apart: the value of a whole session, or, from `acts_member`, that of its
/// member `acts`. If that member is an array, its items are in `acts` as events, and an empty array is in its place.
#[derive(Drop)]
pub(crate) struct Draft<A: Allocator> {
    /// The value, with an empty array in place of the array of the acts.
    pub(crate) head: Value,
    pub(crate) acts: Acts<A>,
}

/// Reads the value of the member `acts`. If the value is an array, its items become events, and an empty array takes
/// its place.
fn acts_member<'a, B: Allocator>(
    heap: Global,
    alloc: &'a B,
    reader: &mut Reader<'_>,
) -> Result<Draft<&'a B>, Unread>
    ensures ok { IfOk result (λ x. (d : Data) × (converted of_json (value 126 reader.old) ≡ Some (d, reader.new))
        × (view x.head ≡ emptied d) × AreRead (data_of (items_in d)) x.acts.events.items x.acts.is_cut) }
    ensures shorter { OnOk result (length reader.new < length reader.old) }
    ensures err { result ≡ Err Shape → converted of_json (value 126 reader.old) ≡ None }
{
    match reader.next().ok_or(Unread::Shape)? {
        Token::BeginArray => Ok(Draft {
            acts: Acts::of_items(heap, alloc, reader)?,
            head: Value::Array(Vec::new(heap)),
        }),
        token => Ok(Draft {
            head: value_from(heap, token, reader, MEMBER_DEPTH)?,
            acts: Acts::none(heap),
        }),
    }
}

/// Reads the value of the member `name`. If the name is `acts`, reads the value as `acts_member` does, and puts the
/// value's events in place of those in the parameter `acts`, or none if the value isn't an array; else leaves that
/// parameter as it is.
fn member<'a, B: Allocator>(
    heap: Global,
    alloc: &'a B,
    reader: &mut Reader<'_>,
    name: &str,
    acts: &mut Acts<&'a B>,
) -> Result<Value, Unread>
    ensures ok { IfOk result (λ v. (d : Data) × (converted of_json (value 126 reader.old) ≡ Some (d, reader.new))
        × (view v ≡ emptied_at name.now d)
        × MatchBool (are_acts name.now) (AreRead (data_of (items_in d)) acts.new.events.items acts.new.is_cut) (acts.new ≡ acts.old)) }
    ensures shorter { OnOk result (length reader.new < length reader.old) }
    ensures err { result ≡ Err Shape → converted of_json (value 126 reader.old) ≡ None }
{
    if name == "acts" {
        let draft = acts_member(heap, alloc, reader)?;
        *acts = draft.acts;
        Ok(draft.head)
    } else {
        value_of(heap, reader, MEMBER_DEPTH)
    }
}

/// Reads the members of the outermost object, and the brace that closes it. Puts the members into `found`, and the
/// events of the member `acts` into the parameter `acts`; both must be empty. If several members have the same name,
/// the last one counts.
fn read_members<'a, B: Allocator>(
    found: &mut Map<String, Value>,
    acts: &mut Acts<&'a B>,
    heap: Global,
    alloc: &'a B,
    reader: &mut Reader<'_>,
) -> Result<(), Unread>
    requires no_member { members_view found.old.entries ≡ no_members }
    requires no_event { AreRead [] acts.old.events.items acts.old.is_cut }
    ensures ok { OnOk result ((d : Data)
        × (converted of_json (value 127 (begin_object ∷ reader.old)) ≡ Some (d, reader.new))
        × IsDraft d (object (members_view found.new.entries)) acts.new.events.items acts.new.is_cut) }
    ensures err { result ≡ Err Shape → converted of_json (value 127 (begin_object ∷ reader.old)) ≡ None }
{
    // form: the proof names the loop
    'members: while let Some(name) = reader.next_key()? {
        let key = String::from_str(heap, name)?;
        let value = member(heap, alloc, reader, name, acts)?;
        drop(found.insert(key, value)?);
    }
    Ok(())
}

/// Reads the outermost object, from behind the brace that opens it through the one that closes it.
fn members_of<'a, B: Allocator>(
    heap: Global,
    alloc: &'a B,
    reader: &mut Reader<'_>,
) -> Result<Draft<&'a B>, Unread>
    ensures ok { IfOk result (λ x. (d : Data)
        × (converted of_json (value 127 (begin_object ∷ reader.old)) ≡ Some (d, reader.new))
        × IsDraft d (view x.head) x.acts.events.items x.acts.is_cut) }
    ensures err { result ≡ Err Shape → converted of_json (value 127 (begin_object ∷ reader.old)) ≡ None }
{
    let mut found = Map::new(heap);
    let mut acts = Acts::none(heap);
    match read_members(&mut found, &mut acts, heap, alloc, reader) {
        Ok(()) => Ok(Draft {
            head: Value::Object(found),
            acts,
        }),
        Err(fault) => {
            // form: drop before exit
            drop(found);
            drop(acts);
            Err(fault)
        }
    }
}

/// Reads the next value of the reader as a draft. The caller calls it at the beginning of the text, and tests that
/// nothing comes after the value.
fn next_draft<'a, B: Allocator>(
    heap: Global,
    alloc: &'a B,
    reader: &mut Reader<'_>,
) -> Result<Draft<&'a B>, Unread>
    ensures ok { IfOk result (λ x. (d : Data) × (converted of_json (value 127 reader.old) ≡ Some (d, reader.new))
        × IsDraft d (view x.head) x.acts.events.items x.acts.is_cut) }
    ensures err { result ≡ Err Shape → converted of_json (value 127 reader.old) ≡ None }
{
    match reader.next().ok_or(Unread::Shape)? {
        Token::BeginObject => members_of(heap, alloc, reader),
        token => Ok(Draft {
            head: value_from(heap, token, reader, MAX_DEPTH)?,
            acts: Acts::none(heap),
        }),
    }
}

/// The draft of the text; `Shape` if the text isn't JSON, or nests too deep.
pub(crate) fn draft_of<'a, B: Allocator>(
    heap: Global,
    alloc: &'a B,
    text: &str,
) -> Result<Draft<&'a B>, Unread>
    ensures ok { IfOk result (λ x. (d : Data) × (read text.now ≡ Some d)
        × IsDraft d (view x.head) x.acts.events.items x.acts.is_cut) }
    ensures err { result ≡ Err Shape → read text.now ≡ None }
{
    let mut scratch = Scratch::new(heap);
    let mut reader = Reader::new(text, &mut scratch)?;
    let draft = next_draft(heap, alloc, &mut reader)?;
    if reader.next().is_some() {
        return Err(Unread::Shape);
    }
    Ok(draft)
}
