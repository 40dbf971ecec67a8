//! Draws the picture that a `View` asks for. A `View` has node, topic and key as texts.
ghost use Rattle.std.specs.Prelude.{◌≡◌, Some, IfErr, IfOk, option_copied};
ghost use Rattle.svg_core.specs.Grammar.{IsDocument};
ghost use Rattle.picture_core.specs.Views.{Asks, AsksOf, IsNoNode, IsNode, IsPicture, Refuses, whole_picture};

use crate::draw_fault::DrawFault;
use crate::online::Asked;
use crate::picture::{painted_of, picture, range_of};
use bench_core::{Bench, TextSet};
use dots_core::Oom;
use payload_core::Word;
use std::alloc::Allocator;
use svg_core::laws::document_law;

/// A topic and a key, at the node named `node`, or at each node if `node` is `None`.
#[derive(Clone, Copy, Debug, PartialEq, Eq)]
pub struct Presence<'q> {
    pub node: Option<&'q str>,
    pub topic: &'q str,
    pub key: &'q str,
}

/// What a picture shows.
#[derive(Clone, Copy, Debug, PartialEq, Eq)]
pub struct View<'q> {
    /// The step whose future is painted. Nothing is painted if this is `None`, or the step doesn't remain.
    pub why: Option<u64>,
    /// The picture begins with the row of this step, or of the first step after it; if there is no such step, the
    /// picture has no rows. If this is `None`, the picture begins with the first row.
    pub from: Option<u64>,
    /// The picture ends before the row of the first step after this one; if this is `None`, or there is no such step,
    /// with the last row.
    pub to: Option<u64>,
    /// A lane is thick where its node lists a row of this topic and key: the lane of the named node, or each lane if no
    /// node is named. If this is `None`, no lane is thick.
    pub of: Option<Presence<'q>>,
}

/// The number of the node named `name`; `None` if `name` is `None`. `NoSuchNode` if no node has the name.
fn named_node<'a, B: Allocator>(
    bench: &Bench<'a, B>,
    name: Option<&str>,
) -> Result<Option<u32>, DrawFault>
    ensures node { IfOk result (IsNode bench.now (option_copied name.entry)) }
    ensures refused { IfErr result (λ fault. (fault ≡ DrawFault.NoSuchNode) × IsNoNode bench.now (option_copied name.entry)) }
{
    let Some(name) = name else {
        return Ok(None);
    };
    match bench.names().number_of(name) {
        Some(number) => Ok(Some(u32::from(number))),
        None => Err(DrawFault::NoSuchNode),
    }
}

/// What `presence` asks about, with the node as a number, and topic and key as words. `NoSuchNode` if no node has the
/// name; else `NoWord` if topic or key isn't a word, or `OutOfMemory`.
fn presence_asked<'a, B: Allocator>(
    bench: &Bench<'a, B>,
    presence: Presence<'_>,
    alloc: &'a B,
) -> Result<Asked<&'a B>, DrawFault>
    ensures asks { IfOk result (AsksOf bench.now presence.entry) }
    ensures refused { IfErr result (Refuses bench.now (Some presence.entry)) }
{
    let node = named_node(bench, presence.node)?;
    let topic = Word::new(alloc, presence.topic)?;
    let key = Word::new(alloc, presence.key)?;
    Ok(Asked { node, topic, key })
}

/// What `presence_asked` gives for the presence in `of`; `None` if `of` is `None`.
fn asked<'a, B: Allocator>(
    bench: &Bench<'a, B>,
    of: Option<Presence<'_>>,
    alloc: &'a B,
) -> Result<Option<Asked<&'a B>>, DrawFault>
    ensures asks { IfOk result (Asks bench.now of.entry) }
    ensures refused { IfErr result (Refuses bench.now of.entry) }
{
    match of {
        Some(presence) => Ok(Some(presence_asked(bench, presence, alloc)?)),
        None => Ok(None),
    }
}

/// The picture of a bench whose consoles have the names `consoles`. `NoSuchNode` if no node has the name that is asked
/// about; else `NoWord` if topic or key isn't a word, or `OutOfMemory`.
///
/// Time goes down: each recorded call in the range has a row, with the number of its step, if it took one, its mark,
/// and its words. The mark stands on the lane of the node that the call changed or, of a refused call, of its actor; a
/// refused call of a console has no mark. The title of a mark is the call, and what the call printed. A message goes
/// along the row of the step that sent it, and then down beside the lane of the node that delivers it. What was taken
/// back is pale and struck; the step `why`, if it remains, and all that follows from it are bold.
pub fn draw<'a, B: Allocator>(
    bench: &Bench<'a, B>,
    alloc: &'a B,
    consoles: &TextSet<&'a B>,
    view: View<'_>,
) -> Result<Vec<u8, &'a B>, DrawFault>
    ensures picture { IfOk result (λ text. IsPicture bench.now consoles.now view.entry text.items) }
    ensures document { IfOk result (λ text. IsDocument text.items) }
    ensures refused { IfErr result (Refuses bench.now view.entry.of) }
{
    // form: hands out what the proof cites
    document_law();
    let asked = asked(bench, view.of, alloc)?;
    let painted = painted_of(bench, view.why, alloc)?;
    let range = range_of(bench, view.from, view.to);
    let text = picture(bench, consoles, &painted, range, asked.as_ref(), alloc)?;
    Ok(text.into_bytes())
}

/// The picture of all calls that a bench recorded, with no step painted and no lane thick.
#[tactic(auto, unfolding(crate::specs::Views::whole_picture))]
pub fn draw_whole<'a, B: Allocator>(
    bench: &Bench<'a, B>,
    alloc: &'a B,
    consoles: &TextSet<&'a B>,
) -> Result<Vec<u8, &'a B>, Oom>
    ensures { IfOk result (λ text. text.items ≡ whole_picture bench.now consoles.now) }
{
    let painted = painted_of(bench, None, alloc)?;
    let range = range_of(bench, None, None);
    let text = picture(bench, consoles, &painted, range, None, alloc)?;
    Ok(text.into_bytes())
}
