//! Draws the picture of a bench.
ghost use Rattle.std.specs.Prelude.{◌≡◌, ◌≤◌, ◌+◌, ◌*◌, ◌++◌, IfOk, OnOk, option_copied, string_bytes, codes, length};
ghost use Rattle.report_core.specs.ActTexts.{unwound};
ghost use Rattle.report_core.specs.Rows.{name_at};
ghost use Rattle.svg_core.specs.Trees.{opening_text, text_of};
ghost use Rattle.picture_core.specs.Online.{bar_path};
ghost use Rattle.picture_core.specs.Pictures.{bar_at, bars_from, front, ground, head_height, height, lanes_from, longest_name, names_from, part, part_of, picture, range_of, size, size_of, style, text_around, view_box, width};
ghost use Rattle.picture_core.specs.Shapes.{lane};
ghost use Rattle.picture_core.specs.Shades.{painted_of};

use crate::layers::{Layers, layers_of, with_length};
use crate::online::{Asked, Switch, bar_path};
use crate::plan::{across, wide};
use crate::range::{Range, first_row, last_row};
use crate::shade::drawn_steps;
use crate::shapes::{put_bar, put_lane, put_lane_name};
use bench_core::{Bench, Names, TextSet};
use dots_core::Oom;
use report_core::name_at;
use std::alloc::Allocator;
use svg_core::{Attribute, Value, put_end, put_leaf, put_start};

/// The style of the elements and classes of a picture. What was taken back is pale and struck, and what is painted is
/// bold.
const STYLE: &str = "text{font:12px monospace;fill:black;white-space:pre}\
path{fill:none;stroke:black;stroke-width:1.2px}\
circle{fill:black;stroke:black}\
.name,text.future{font-weight:bold}\
.number{text-anchor:end}\
.lane{stroke:#bbb}\
.bar{stroke:#ffdc73;stroke-width:9px}\
.message{stroke:#6d87a5}\
path.future{stroke-width:3px}\
circle.future{stroke-width:5px}\
.undone{opacity:.45;text-decoration:line-through;stroke-dasharray:4 3}\
.back{stroke-width:2px}\
text.back{fill:#555;stroke:none}\
circle.refused{fill:white;stroke:#c01818}\
text.refused{fill:#c01818}";

/// Appends a `style` element with the text `STYLE`.
#[tactic(auto, unfolding(crate::specs::Pictures::style, crate::specs::Pictures::style_text))]
fn put_style<A: Allocator>(text: &mut String<A>) -> Result<(), Oom>
    ensures { OnOk result (string_bytes text.new ≡ string_bytes text.old ++ text_of style) }
{
    put_leaf(text, "style", &[], STYLE)
}

/// Appends a white rectangle as large as the picture, on which all else stands.
#[tactic(auto, unfolding(crate::specs::Pictures::ground))]
fn put_ground<A: Allocator>(text: &mut String<A>) -> Result<(), Oom>
    ensures { OnOk result (string_bytes text.new ≡ string_bytes text.old ++ text_of ground) }
{
    put_leaf(
        text,
        "rect",
        &[
            Attribute("width", Value::Text("100%")),
            Attribute("height", Value::Text("100%")),
            Attribute("fill", Value::Text("white")),
        ],
        "",
    )
}

/// Appends the style and the white ground, which come before the names and the lanes.
fn put_front<A: Allocator>(text: &mut String<A>) -> Result<(), Oom>
    ensures { OnOk result (string_bytes text.new ≡ string_bytes text.old ++ text_of front) }
{
    put_style(text)?;
    put_ground(text)
}

/// How many bytes the longest name has.
fn longest_name<N: Allocator>(names: &Names<N>) -> u32
    ensures { result ≡ longest_name names.now }
{
    let mut longest = 0;
    for number in 0..names.len() as u16 {
        longest = with_length(longest, name_at(names, number).len());
    }
    longest
}

/// The height of the space above the lanes, where the names stand.
#[tactic(auto, unfolding(crate::specs::Pictures::head_height))]
fn head_height<N: Allocator>(names: &Names<N>) -> u64
    ensures is { result ≡ head_height names.now }
    ensures few { result ≤ 40000000000 }
{
    20 + wide(longest_name(names))
}

/// Appends the names of the nodes, each above its lane. The lanes begin `height` units down.
fn put_names<'a, A: Allocator, N: Allocator, B: Allocator>(
    text: &mut String<A>,
    names: &Names<N>,
    height: u64,
    alloc: &'a B,
) -> Result<(), Oom>
    ensures { OnOk result (string_bytes text.new ≡ string_bytes text.old ++ text_of (names_from (length names.now) height 0 names.now)) }
{
    let nodes = names.len() as u32;
    for number in 0..names.len() as u16 {
        let name = name_at(names, number);
        put_lane_name(text, nodes, u32::from(number), height, name, alloc)?;
    }
    Ok(())
}

/// Appends the lane of each node, from the beginning of row `range.first` to that of row `range.last`.
fn put_lanes<'a, A: Allocator, N: Allocator, B: Allocator>(
    text: &mut String<A>,
    names: &Names<N>,
    range: Range,
    alloc: &'a B,
) -> Result<(), Oom>
    ensures { OnOk result (string_bytes text.new ≡ string_bytes text.old ++ text_of (lanes_from range (length names.now) 0 names.now)) }
{
    let nodes = names.len() as u32;
    for number in 0..names.len() as u32 {
        put_lane(text, nodes, number, range.first, range.last, alloc)?;
    }
    Ok(())
}

/// The thick parts of all lanes.
#[derive(Drop)]
struct Bars<'a, 't, B: Allocator> {
    /// A lane is thick where its node lists this; without it no lane is thick.
    asked: Option<&'t Asked<&'a B>>,
    /// Where the thick parts begin and end.
    switches: &'t [Switch],
    /// A thick part that doesn't end goes down to where this row begins.
    last: u32,
}

/// Appends the thick parts of a node's lane, if the node is asked about.
#[tactic(auto, using(crate::proofs::Texts::nothing_end))]
fn put_bar_at<'a, A: Allocator, B: Allocator>(
    text: &mut String<A>,
    bars: &Bars<'a, '_, B>,
    nodes: u32,
    node: u32,
    alloc: &'a B,
) -> Result<(), Oom>
    ensures { OnOk result (string_bytes text.new ≡ string_bytes text.old ++
        text_of (bar_at (option_copied bars.now.asked) nodes bars.now.last bars.now.switches.now node)) }
{
    let Some(asked) = bars.asked else {
        return Ok(());
    };
    if !asked.is_of(node) {
        return Ok(());
    }
    let path = bar_path(bars.switches, nodes, node, bars.last, alloc)?;
    put_bar(text, &path)
}

/// Appends the thick parts of the lanes of the nodes that are asked about.
fn put_bars<'a, A: Allocator, N: Allocator, B: Allocator>(
    text: &mut String<A>,
    names: &Names<N>,
    bars: &Bars<'a, '_, B>,
    alloc: &'a B,
) -> Result<(), Oom>
    ensures { OnOk result (string_bytes text.new ≡ string_bytes text.old ++
        text_of (bars_from (option_copied bars.now.asked) (length names.now) bars.now.last bars.now.switches.now 0 names.now)) }
{
    let nodes = names.len() as u32;
    for number in 0..names.len() as u32 {
        put_bar_at(text, bars, nodes, number, alloc)?;
    }
    Ok(())
}

/// The value of a `viewBox` that shows the plane from `top` down, in this width and height.
#[tactic(auto)]
fn view_box<'a, B: Allocator>(
    top: u64,
    width: u64,
    height: u64,
    alloc: &'a B,
) -> Result<String<&'a B>, Oom>
    ensures { IfOk result (λ seen. string_bytes seen ≡ view_box top width height) }
{
    let mut seen = String::new(alloc);
    write!(seen, "0 {top} {width} {height}")?;
    Ok(seen)
}

/// Appends the start tag of a picture of this size; `seen` is its `viewBox`.
fn put_opening_of<A: Allocator>(
    text: &mut String<A>,
    width: u64,
    height: u64,
    seen: &str,
) -> Result<(), Oom>
    ensures { OnOk result (string_bytes text.new ≡ string_bytes text.old ++ opening_text (codes "svg") (size_of width height seen.now)) }
{
    Ok(put_start(
        text,
        "svg",
        &[
            Attribute("xmlns", Value::Text("http://www.w3.org/2000/svg")),
            Attribute("width", Value::Number(width)),
            Attribute("height", Value::Number(height)),
            Attribute("viewBox", Value::Text(seen)),
        ],
    )?)
}

/// Appends the start tag of a picture of this width and height, whose `viewBox` begins at the top left corner (0, 0).
fn put_opening<'a, A: Allocator, B: Allocator>(
    text: &mut String<A>,
    width: u64,
    height: u64,
    alloc: &'a B,
) -> Result<(), Oom>
    ensures { OnOk result (string_bytes text.new ≡ string_bytes text.old ++ opening_text (codes "svg") (size width height)) }
{
    let seen = view_box(0, width, height, alloc)?;
    put_opening_of(text, width, height, seen.as_str())
}

/// Appends the start tag of an inner `svg` element of this size, `top` units below the picture's top; `seen` is its
/// `viewBox`.
fn put_part_of<A: Allocator>(
    text: &mut String<A>,
    top: u64,
    width: u64,
    height: u64,
    seen: &str,
) -> Result<(), Oom>
    ensures { OnOk result (string_bytes text.new ≡ string_bytes text.old ++ opening_text (codes "svg") (part_of top width height seen.now)) }
{
    Ok(put_start(
        text,
        "svg",
        &[
            Attribute("y", Value::Number(top)),
            Attribute("width", Value::Number(width)),
            Attribute("height", Value::Number(height)),
            Attribute("viewBox", Value::Text(seen)),
        ],
    )?)
}

/// Appends the start tag of the inner `svg` element, which stands below the names and shows the rows from `first` on.
fn put_part<'a, A: Allocator, B: Allocator>(
    text: &mut String<A>,
    top: u64,
    first: u32,
    width: u64,
    height: u64,
    alloc: &'a B,
) -> Result<(), Oom>
    ensures { OnOk result (string_bytes text.new ≡ string_bytes text.old ++ opening_text (codes "svg") (part top first width height)) }
{
    let seen = view_box(20 * u64::from(first), width, height, alloc)?;
    put_part_of(text, top, width, height, seen.as_str())
}

/// Appends the text of a layer.
fn put_layer<A: Allocator, B: Allocator>(text: &mut String<A>, layer: &String<B>) -> Result<(), Oom>
    ensures { OnOk result (string_bytes text.new ≡ string_bytes text.old ++ string_bytes layer.now) }
{
    Ok(text.push_str(layer.as_str())?)
}

/// How wide the picture is, if the longest words of a drawn row have `longest` bytes.
#[tactic(auto, unfolding(crate::specs::Pictures::width))]
fn width(nodes: u32, longest: u32) -> u64
    ensures { result ≡ width nodes longest }
{
    across(nodes, nodes) + wide(longest) + 8
}

/// How high the drawn rows are together; 0 if the range ends before it begins.
#[tactic(auto, unfolding(crate::specs::Pictures::height))]
fn height(range: Range) -> u64
    ensures is { result ≡ height range }
    ensures few { result ≤ 100000000000 }
{
    20 * u64::from(range.last.saturating_sub(range.first))
}

/// Appends the picture: the names, the thick parts of lanes, the lanes, and `layers` over them.
fn put_drawing<'a, A: Allocator, N: Allocator, B: Allocator>(
    text: &mut String<A>,
    names: &Names<N>,
    layers: &Layers<'a, B>,
    range: Range,
    asked: Option<&Asked<&'a B>>,
    alloc: &'a B,
) -> Result<(), Oom>
    ensures { OnOk result (string_bytes text.new ≡ string_bytes text.old ++
        text_around names.now range (option_copied asked.entry) layers.now.switches.items layers.now.longest
        (string_bytes layers.now.messages) (string_bytes layers.now.rows)) }
{
    let top = head_height(names);
    let width = width(names.len() as u32, layers.longest);
    let height = height(range);
    let bars = Bars {
        asked,
        switches: &layers.switches,
        last: range.last,
    };
    put_opening(text, width, top + height, alloc)?;
    put_front(text)?;
    put_names(text, names, top, alloc)?;
    put_part(text, top, range.first, width, height, alloc)?;
    put_bars(text, names, &bars, alloc)?;
    put_lanes(text, names, range, alloc)?;
    put_layer(text, &layers.messages)?;
    put_layer(text, &layers.rows)?;
    put_end(text, "svg")?;
    Ok(put_end(text, "svg")?)
}

/// The rows that are drawn. They begin with the row of step `from`, or of the first step after it; without `from`, with
/// the first row. They end before the row of the first step after `to`; without `to`, after the last row. If there is
/// no such step, the end of the history stands in place of the step's row.
#[tactic(auto, unfolding(crate::specs::Pictures::range_of))]
pub fn range_of<'a, B: Allocator>(bench: &Bench<'a, B>, from: Option<u64>, to: Option<u64>) -> Range
    ensures { result ≡ range_of bench.now.state.history from to }
{
    // form: hands out what the bench keeps
    bench.bench_law();
    let history = bench.history();
    Range {
        first: first_row(history, from) as u32,
        last: last_row(history, to) as u32,
    }
}

/// The numbers of the future of a step, greatest first; none if the step doesn't remain.
#[tactic(auto, using(crate::proofs::Futures::whole_future, crate::proofs::Futures::no_future), unfolding(report_core::specs::ActTexts::unwound))]
fn future_of<'a, B: Allocator>(
    bench: &Bench<'a, B>,
    number: u64,
    alloc: &'a B,
) -> Result<Vec<u64, &'a B>, Oom>
    ensures { IfOk result (λ numbers. numbers.items ≡ unwound bench.now.state number) }
{
    let Some(_kept) = bench.remaining().find(number) else {
        return Ok(Vec::new(alloc));
    };
    // the step remains, so only memory can be refused
    let Ok(numbers) = bench.why(number) else {
        return Err(Oom);
    };
    Ok(numbers)
}

/// The numbers of the steps that are painted: the future of step `why`, greatest first; none if `why` is `None`, or
/// step `why` doesn't remain.
pub fn painted_of<'a, B: Allocator>(
    bench: &Bench<'a, B>,
    why: Option<u64>,
    alloc: &'a B,
) -> Result<Vec<u64, &'a B>, Oom>
    ensures { IfOk result (λ numbers. numbers.items ≡ painted_of bench.now.state why) }
{
    match why {
        Some(number) => future_of(bench, number, alloc),
        None => Ok(Vec::new(alloc)),
    }
}

/// The picture of the rows in the range, with the steps in `painted` painted, and with lanes thick where their nodes
/// list what `asked` asks about.
pub fn picture<'a, B: Allocator>(
    bench: &Bench<'a, B>,
    consoles: &TextSet<&'a B>,
    painted: &[u64],
    range: Range,
    asked: Option<&Asked<&'a B>>,
    alloc: &'a B,
) -> Result<String<&'a B>, Oom>
    ensures { IfOk result (λ text. string_bytes text ≡ text_of (picture bench.now consoles.now painted.now range (option_copied asked.entry))) }
{
    let steps = drawn_steps(bench, painted, alloc)?;
    let layers = layers_of(bench, consoles, &steps, range, asked, alloc)?;
    let mut text = String::new(alloc);
    put_drawing(&mut text, bench.names(), &layers, range, asked, alloc)?;
    Ok(text)
}
