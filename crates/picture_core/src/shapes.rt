//! Appends the shapes of a picture to a text. `nodes` is the number of nodes; `node` and `row` count from 0.
ghost use Rattle.std.specs.Prelude.{◌≡◌, ◌++◌, IfOk, OnOk, string_bytes};
ghost use Rattle.svg_core.specs.Trees.{text_of};
ghost use Rattle.svg_core.specs.Values.{plain_attributes};
ghost use Rattle.picture_core.specs.Shapes.{bar, cross_path, cross_sign, dot_sign, heading, lane, lane_name, lane_path, mark, message, message_class, message_path, message_title, name_at, name_place, number_label, path_between, path_of, titled, titled_path, upwards, words_label};

use crate::kind::Kind;
use crate::plan::{across, down, waits_at};
use dots_core::Oom;
use std::alloc::Allocator;
use svg_core::{Attribute, Value, put_end, put_leaf, put_number, put_start};

/// Appends a `title` element with the text `title`.
#[tactic(auto, unfolding(crate::specs::Shapes::heading))]
fn put_heading<A: Allocator>(text: &mut String<A>, title: &str) -> Result<(), Oom>
    ensures { OnOk result (string_bytes text.new ≡ string_bytes text.old ++ text_of (heading title.now)) }
{
    put_leaf(text, "title", &[], title)
}

/// Appends an element with nothing in it but a `title` element.
fn put_titled<A: Allocator>(
    text: &mut String<A>,
    tag: &str,
    attributes: &[Attribute],
    title: &str,
) -> Result<(), Oom>
    ensures { OnOk result (string_bytes text.new ≡ string_bytes text.old ++
        text_of (titled tag.now (plain_attributes attributes.now) title.now)) }
{
    put_start(text, tag, attributes)?;
    put_heading(text, title)?;
    put_end(text, tag)
}

/// Appends a `path` element of this class, whose `d` is `path`.
fn put_path<A: Allocator>(text: &mut String<A>, class: &str, path: &str) -> Result<(), Oom>
    ensures { OnOk result (string_bytes text.new ≡ string_bytes text.old ++ text_of (path_of class.now path.now)) }
{
    put_leaf(
        text,
        "path",
        &[
            Attribute("class", Value::Text(class)),
            Attribute("d", Value::Text(path)),
        ],
        "",
    )
}

/// Like `put_path`, but with a `title` element in it.
fn put_titled_path<A: Allocator>(
    text: &mut String<A>,
    class: &str,
    path: &str,
    title: &str,
) -> Result<(), Oom>
    ensures { OnOk result (string_bytes text.new ≡ string_bytes text.old ++ text_of (titled_path class.now path.now title.now)) }
{
    put_titled(
        text,
        "path",
        &[
            Attribute("class", Value::Text(class)),
            Attribute("d", Value::Text(path)),
        ],
        title,
    )
}

/// The value of a `transform` that moves a text to this place and turns it to be read upwards.
#[tactic(auto, unfolding(crate::specs::Shapes::upwards))]
fn upwards<'a, B: Allocator>(right: u64, down: u64, alloc: &'a B) -> Result<String<&'a B>, Oom>
    ensures { IfOk result (λ place. string_bytes place ≡ upwards right down) }
{
    let mut place = String::new(alloc);
    write!(place, "translate({right} {down})rotate(-90)")?;
    Ok(place)
}

/// The value of a `transform` that puts the name of a node above its lane, which begins `height` units down. The name
/// is to be read upwards.
fn name_place<'a, B: Allocator>(
    nodes: u32,
    node: u32,
    height: u64,
    alloc: &'a B,
) -> Result<String<&'a B>, Oom>
    ensures { IfOk result (λ place. string_bytes place ≡ name_place nodes node height) }
{
    let right = across(nodes, node) + 4;
    // form: saturating spares a requirement
    upwards(right, height.saturating_sub(8), alloc)
}

/// Appends a name; `place` is the value of its `transform`.
fn put_name_at<A: Allocator>(text: &mut String<A>, place: &str, name: &str) -> Result<(), Oom>
    ensures { OnOk result (string_bytes text.new ≡ string_bytes text.old ++ text_of (name_at place.now name.now)) }
{
    put_leaf(
        text,
        "text",
        &[
            Attribute("class", Value::Text("name")),
            Attribute("transform", Value::Text(place)),
        ],
        name,
    )
}

/// Appends the name of a node above its lane, which begins `height` units down.
#[tactic(auto, unfolding(crate::specs::Shapes::lane_name))]
pub fn put_lane_name<'a, A: Allocator, B: Allocator>(
    text: &mut String<A>,
    nodes: u32,
    node: u32,
    height: u64,
    name: &str,
    alloc: &'a B,
) -> Result<(), Oom>
    ensures { OnOk result (string_bytes text.new ≡ string_bytes text.old ++ text_of (lane_name nodes node height name.now)) }
{
    let place = name_place(nodes, node, height, alloc)?;
    put_name_at(text, place.as_str(), name)
}

/// The path along a lane from the beginning of row `first` to that of row `last`.
#[tactic(auto, unfolding(crate::specs::Shapes::lane_path))]
fn lane_path<'a, B: Allocator>(
    nodes: u32,
    node: u32,
    first: u32,
    last: u32,
    alloc: &'a B,
) -> Result<String<&'a B>, Oom>
    ensures { IfOk result (λ path. string_bytes path ≡ lane_path nodes node first last) }
{
    let across = across(nodes, node);
    let from = 20 * u64::from(first);
    let to = 20 * u64::from(last);
    let mut path = String::new(alloc);
    write!(path, "M{across} {from}V{to}")?;
    Ok(path)
}

/// Appends the lane of a node, from the beginning of row `first` to that of row `last`.
#[tactic(auto, unfolding(crate::specs::Shapes::lane))]
pub fn put_lane<'a, A: Allocator, B: Allocator>(
    text: &mut String<A>,
    nodes: u32,
    node: u32,
    first: u32,
    last: u32,
    alloc: &'a B,
) -> Result<(), Oom>
    ensures { OnOk result (string_bytes text.new ≡ string_bytes text.old ++ text_of (lane nodes node first last)) }
{
    let path = lane_path(nodes, node, first, last, alloc)?;
    put_path(text, "lane", path.as_str())
}

/// The path from the point `from` across to `beside`, down to `above`, and to the point `to`.
#[tactic(auto, unfolding(crate::specs::Shapes::path_between))]
fn path_between<'a, B: Allocator>(
    from: (u64, u64),
    beside: u64,
    above: u64,
    to: (u64, u64),
    alloc: &'a B,
) -> Result<String<&'a B>, Oom>
    ensures { IfOk result (λ path. string_bytes path ≡ path_between from beside above to) }
{
    let (start, sent) = from;
    let (end, taken) = to;
    let mut path = String::new(alloc);
    // form: split for the proof
    write!(path, "M{start} {sent}")?;
    write!(path, "H{beside}V{above}")?;
    write!(path, "L{end} {taken}")?;
    Ok(path)
}

/// The path of a message: along the row of its send, down beside the lane of the node that delivers it, and to the mark
/// of the delivery. `from` and `to` are each a row and a node; `source` is the number of the step that sent the
/// message.
fn message_path<'a, B: Allocator>(
    nodes: u32,
    from: (u32, u32),
    to: (u32, u32),
    source: u64,
    alloc: &'a B,
) -> Result<String<&'a B>, Oom>
    ensures { IfOk result (λ path. string_bytes path ≡ message_path nodes from to source) }
{
    let (from_row, sender) = from;
    let (to_row, node) = to;
    let start = across(nodes, sender);
    let sent = down(from_row);
    let beside = waits_at(nodes, sender, node, source);
    let end = across(nodes, node);
    let taken = down(to_row);
    // form: saturating spares a requirement
    let above = taken.saturating_sub(4);
    path_between((start, sent), beside, above, (end, taken), alloc)
}

/// The title of a message: `step SOURCE to step NUMBER`.
#[tactic(auto, unfolding(crate::specs::Shapes::message_title))]
fn message_title<'a, B: Allocator>(
    source: u64,
    number: u64,
    alloc: &'a B,
) -> Result<String<&'a B>, Oom>
    ensures { IfOk result (λ title. string_bytes title ≡ message_title source number) }
{
    let mut title = String::new(alloc);
    write!(title, "step {source} to step {number}")?;
    Ok(title)
}

/// The value of the attribute `class` for a message of this kind.
fn message_class(kind: Kind) -> &'static str
    ensures { result.now ≡ message_class kind }
{
    match kind {
        Kind::Step => "message step",
        Kind::Future => "message future",
        Kind::Undone => "message undone",
        Kind::Back => "message back",
        Kind::Refused => "message refused",
    }
}

/// A message from the step `source` to the step `number`. `from` is the row and the node of `source`, `to` those of
/// `number`.
#[derive(Clone, Copy)]
pub struct Arrow {
    pub from: (u32, u32),
    pub to: (u32, u32),
    pub source: u64,
    pub number: u64,
}

/// Appends a message.
#[tactic(auto, unfolding(crate::specs::Shapes::message))]
pub fn put_message<'a, A: Allocator, B: Allocator>(
    text: &mut String<A>,
    nodes: u32,
    kind: Kind,
    arrow: Arrow,
    alloc: &'a B,
) -> Result<(), Oom>
    ensures { OnOk result (string_bytes text.new ≡ string_bytes text.old ++
        text_of (message nodes kind arrow.from arrow.to arrow.source arrow.number)) }
{
    let path = message_path(nodes, arrow.from, arrow.to, arrow.source, alloc)?;
    let title = message_title(arrow.source, arrow.number, alloc)?;
    put_titled_path(text, message_class(kind), path.as_str(), title.as_str())
}

/// The mark of a call. It stands in the middle of the call's row, on a lane.
#[derive(Clone, Copy)]
pub struct CallMark<'t> {
    pub row: u32,
    pub kind: Kind,
    pub title: &'t str,
}

/// Appends a circle on the lane of `node`, as the mark of a call.
#[tactic(auto, unfolding(crate::specs::Shapes::dot_sign))]
fn put_dot<A: Allocator>(
    text: &mut String<A>,
    nodes: u32,
    node: u32,
    sign: CallMark<'_>,
) -> Result<(), Oom>
    ensures { OnOk result (string_bytes text.new ≡ string_bytes text.old ++
        text_of (dot_sign nodes node sign.entry.row sign.entry.kind sign.entry.title.now)) }
{
    put_titled(
        text,
        "circle",
        &[
            Attribute("class", Value::Text(sign.kind.class())),
            Attribute("cx", Value::Number(across(nodes, node))),
            Attribute("cy", Value::Number(down(sign.row))),
            Attribute("r", Value::Text("4")),
        ],
        sign.title,
    )
}

/// The path of a cross on the lane of `node`, in the middle of a row.
#[tactic(auto, unfolding(crate::specs::Shapes::cross_path))]
fn cross_path<'a, B: Allocator>(
    nodes: u32,
    node: u32,
    row: u32,
    alloc: &'a B,
) -> Result<String<&'a B>, Oom>
    ensures { IfOk result (λ path. string_bytes path ≡ cross_path nodes node row) }
{
    // form: saturating spares a requirement
    let left = across(nodes, node).saturating_sub(4);
    let above = down(row).saturating_sub(4);
    let mut path = String::new(alloc);
    write!(path, "M{left} {above}l8 8m0 -8l-8 8")?;
    Ok(path)
}

/// Appends a cross on the lane of `node`, as the mark of a call that took a step back.
#[tactic(auto, unfolding(crate::specs::Shapes::cross_sign))]
fn put_cross<'a, A: Allocator, B: Allocator>(
    text: &mut String<A>,
    nodes: u32,
    node: u32,
    sign: CallMark<'_>,
    alloc: &'a B,
) -> Result<(), Oom>
    ensures { OnOk result (string_bytes text.new ≡ string_bytes text.old ++ text_of (cross_sign nodes node sign.entry.row sign.entry.title.now)) }
{
    let path = cross_path(nodes, node, sign.row, alloc)?;
    put_titled_path(text, "back", path.as_str(), sign.title)
}

/// Appends the mark of a call on the lane of `node`: a cross if the call took a step back, and else a circle.
pub fn put_mark<'a, A: Allocator, B: Allocator>(
    text: &mut String<A>,
    nodes: u32,
    node: u32,
    sign: CallMark<'_>,
    alloc: &'a B,
) -> Result<(), Oom>
    ensures { OnOk result (string_bytes text.new ≡ string_bytes text.old ++
        text_of (mark nodes node sign.entry.row sign.entry.kind sign.entry.title.now)) }
{
    // form: each arm is a case of the proof
    match sign.kind {
        Kind::Back => put_cross(text, nodes, node, sign, alloc),
        Kind::Step => put_dot(text, nodes, node, sign),
        Kind::Future => put_dot(text, nodes, node, sign),
        Kind::Undone => put_dot(text, nodes, node, sign),
        Kind::Refused => put_dot(text, nodes, node, sign),
    }
}

/// Appends the number of a step, in its row, left of the lanes.
#[tactic(auto, unfolding(crate::specs::Shapes::number_label, svg_core::specs::Trees::text_of))]
pub fn put_number_label<A: Allocator>(
    text: &mut String<A>,
    row: u32,
    number: u64,
) -> Result<(), Oom>
    ensures { OnOk result (string_bytes text.new ≡ string_bytes text.old ++ text_of (number_label row number)) }
{
    put_start(
        text,
        "text",
        &[
            Attribute("class", Value::Text("number")),
            Attribute("x", Value::Text("50")),
            Attribute("y", Value::Number(down(row) + 4)),
        ],
    )?;
    put_number(text, number)?;
    put_end(text, "text")
}

/// Appends the words of a call, in its row, right of the lanes.
#[tactic(auto, unfolding(crate::specs::Shapes::words_label))]
pub fn put_words_label<A: Allocator>(
    text: &mut String<A>,
    nodes: u32,
    row: u32,
    kind: Kind,
    words: &str,
) -> Result<(), Oom>
    ensures { OnOk result (string_bytes text.new ≡ string_bytes text.old ++ text_of (words_label nodes row kind words.now)) }
{
    put_leaf(
        text,
        "text",
        &[
            Attribute("class", Value::Text(kind.class())),
            Attribute("x", Value::Number(across(nodes, nodes))),
            Attribute("y", Value::Number(down(row) + 4)),
        ],
        words,
    )
}

/// Appends the thick parts of a lane; `path` goes along them.
#[tactic(auto, unfolding(crate::specs::Shapes::bar))]
pub fn put_bar<A: Allocator>(text: &mut String<A>, path: &str) -> Result<(), Oom>
    ensures { OnOk result (string_bytes text.new ≡ string_bytes text.old ++ text_of (bar path.now)) }
{
    put_path(text, "bar", path)
}
