//! Appends the beginnings and ends of elements, and whole elements.
ghost use Rattle.std.specs.Prelude.{◌≡◌, ◌++◌, OnOk, string_bytes};
ghost use Rattle.svg_core.specs.Trees.{end_text, leaf, opening_text, text_of};
ghost use Rattle.svg_core.specs.Values.{plain_attributes};

use crate::attribute::{Attribute, put_attributes};
use crate::escape::put_escaped;
use std::alloc::{AllocError, Allocator};

/// Appends the beginning of an element: `<TAG NAME="VALUE" ..>`.
#[tactic(auto, unfolding(crate::specs::Trees::opening_text, crate::specs::Trees::start_text))]
pub fn put_start<A: Allocator>(
    text: &mut String<A>,
    tag: &str,
    attributes: &[Attribute],
) -> Result<(), AllocError>
    ensures { OnOk result (string_bytes text.new ≡ string_bytes text.old ++ opening_text tag.now (plain_attributes attributes.now)) }
{
    write!(text, "<{tag}")?;
    put_attributes(text, attributes)?;
    text.push_str(">")
}

/// Appends the end of an element: `</TAG>`.
#[tactic(auto, unfolding(crate::specs::Trees::end_text))]
pub fn put_end<A: Allocator>(text: &mut String<A>, tag: &str) -> Result<(), AllocError>
    ensures { OnOk result (string_bytes text.new ≡ string_bytes text.old ++ end_text tag.now) }
{
    write!(text, "</{tag}>")
}

/// Appends a whole element whose content is the text `words`, escaped.
#[tactic(auto, unfolding(crate::specs::Trees::text_of))]
pub fn put_leaf<A: Allocator>(
    text: &mut String<A>,
    tag: &str,
    attributes: &[Attribute],
    words: &str,
) -> Result<(), AllocError>
    ensures { OnOk result (string_bytes text.new ≡ string_bytes text.old ++
        text_of (leaf tag.now (plain_attributes attributes.now) words.now)) }
{
    put_start(text, tag, attributes)?;
    put_escaped(text, words)?;
    put_end(text, tag)
}
