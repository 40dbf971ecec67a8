//! What a session's head says, which is all but its acts: version, names and limits.
ghost use Rattle.std.specs.Prelude.{◌≡◌, map};
ghost use Rattle.serde_json.specs.View.{view, items_view, members_view};
ghost use Rattle.json_core.specs.Decoded.{Gives};
ghost use Rattle.bench_core.specs.NameList.{names_of};
ghost use Rattle.recording_core.specs.Decoding.{if_ok, limits_at, texts_of, names_at, are_keys, values_at, parts_at, version_of};

use bench_core::{Limits, Names, NamesFault};
use json_core::{Unread, ends_at, number_in};
use serde_json::{Map, Value};
use std::alloc::{Allocator, Global};

/// The whole number under `version`; `None` if there is none.
pub(crate) fn version_of(value: &Value) -> Option<u64>
    ensures { result ≡ version_of (view value.now) }
{
    value.get("version").and_then(Value::as_u64)
}

/// The limits that a list of four whole numbers gives; `Shape` for any other value, or if a bench can't have them.
#[tactic(auto, unfolding(crate::specs::Decoding::limits_at))]
fn limits_at(list: &Value) -> Result<Limits, Unread>
    ensures { Gives (λ l. l) result (limits_at (view list.now)) }
{
    let acts = number_in(list, 0)?;
    let entries = number_in(list, 1)?;
    let clock = number_in(list, 2)?;
    let messages = number_in(list, 3)?;
    if !ends_at(list, 4) {
        return Err(Unread::Shape);
    }
    Limits::new(acts, entries, clock, messages).ok_or(Unread::Shape)
}

fn texts_of(heap: Global, values: &[Value]) -> Result<Vec<&str>, Unread>
    ensures { Gives (λ v. map (λ text. text.now) v.items) result (texts_of (items_view values.now)) }
{
    let mut texts = Vec::new(heap);
    for value in values {
        let text = value.as_str().ok_or(Unread::Shape)?;
        texts.push(text)?;
    }
    Ok(texts)
}

/// The names with these texts; `Shape` if a bench can't have them.
pub(crate) fn names_of<'a, B: Allocator>(
    alloc: &'a B,
    texts: &[&str],
) -> Result<Names<&'a B>, Unread>
    ensures { Gives (λ names. names) result (if_ok (names_of (map (λ text. text.now) texts.now))) }
{
    match Names::new(alloc, texts) {
        Ok(names) => Ok(names),
        Err(NamesFault::OutOfMemory) => Err(Unread::Memory),
        Err(_) => Err(Unread::Shape),
    }
}

/// The names that these values spell; `Shape` if one of them isn't a text, or a bench can't have these names.
fn names_at<'a, B: Allocator>(
    heap: Global,
    alloc: &'a B,
    values: &[Value],
) -> Result<Names<&'a B>, Unread>
    ensures { Gives (λ names. names) result (names_at (items_view values.now)) }
{
    let texts = texts_of(heap, values)?;
    names_of(alloc, texts.as_slice())
}

/// Whether these are the keys of a head, in the rising order in which a map gives them.
fn are_keys(first: &str, second: &str, third: &str, fourth: &str) -> bool
    ensures { result ≡ are_keys first.now second.now third.now fourth.now }
{
    first == "acts" && second == "limits" && third == "nodes" && fourth == "version"
}

/// The values of the members `acts`, `limits` and `nodes`, if these and `version` are all that there are; else `Shape`.
/// A map gives its keys in rising order.
#[tactic(auto, unfolding(crate::specs::Decoding::values_at))]
fn values_at(members: &Map<String, Value>) -> Result<(&Value, &Value, &Value), Unread>
    ensures { Gives (λ v. (view v.0.now, view v.1.now, view v.2.now)) result (values_at (members_view members.now.entries)) }
{
    let mut members = members.iter();
    let (first, acts) = members.next().ok_or(Unread::Shape)?;
    let (second, limits) = members.next().ok_or(Unread::Shape)?;
    let (third, nodes) = members.next().ok_or(Unread::Shape)?;
    let (fourth, _) = members.next().ok_or(Unread::Shape)?;
    if members.next().is_some() {
        return Err(Unread::Shape);
    }
    if !are_keys(
        first.as_str(),
        second.as_str(),
        third.as_str(),
        fourth.as_str(),
    ) {
        return Err(Unread::Shape);
    }
    Ok((acts, limits, nodes))
}

/// What a session's bench is opened with.
#[derive(Drop)]
pub(crate) struct Parts<A: Allocator> {
    pub(crate) limits: Limits,
    pub(crate) names: Names<A>,
}

/// The limits and the names of a session. `Shape` unless its head has `acts`, `limits`, `nodes` and `version` as its
/// members and no other, the first three each in its form; the caller checks the value of `version`.
#[tactic(auto, unfolding(crate::specs::Decoding::parts_at))]
pub(crate) fn parts_at<'a, B: Allocator>(
    heap: Global,
    alloc: &'a B,
    value: &Value,
) -> Result<Parts<&'a B>, Unread>
    ensures { Gives (λ p. record { limits = p.limits; names = p.names }) result (parts_at (view value.now)) }
{
    let members = value.as_object().ok_or(Unread::Shape)?;
    let (acts, limits, nodes) = values_at(members)?;
    let nodes = nodes.as_array().ok_or(Unread::Shape)?;
    let limits = limits_at(limits)?;
    if !acts.is_array() {
        return Err(Unread::Shape);
    }
    let names = names_at(heap, alloc, nodes)?;
    Ok(Parts { limits, names })
}
