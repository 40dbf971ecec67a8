//! The attributes of an element.
ghost use Rattle.std.specs.Prelude.{◌≡◌, ◌++◌, OnOk, string_bytes, map};
ghost use Rattle.svg_core.specs.Escapes.{escaped};
ghost use Rattle.svg_core.specs.Trees.{attribute_text, attributes_text, escaped_attribute};
ghost use Rattle.svg_core.specs.Values.{value_text, plain_attribute, plain_attributes};

use crate::escape::{put_escaped, put_number};
use std::alloc::{AllocError, Allocator};

/// The value of an attribute. A text is escaped when it is written.
#[derive(Clone, Copy)]
pub enum Value<'a> {
    Text(&'a str),
    Number(u64),
}

/// The name of an attribute, and its value.
#[derive(Clone, Copy)]
pub struct Attribute<'a>(pub &'a str, pub Value<'a>);

/// Appends the value as it stands in XML.
fn put_value<A: Allocator>(text: &mut String<A>, value: &Value) -> Result<(), AllocError>
    ensures { OnOk result (string_bytes text.new ≡ string_bytes text.old ++ escaped (value_text value.now)) }
{
    match value {
        Value::Text(words) => put_escaped(text, words),
        Value::Number(number) => put_number(text, *number),
    }
}

/// Appends ` NAME="VALUE"`.
fn put_attribute<A: Allocator>(
    text: &mut String<A>,
    attribute: &Attribute,
) -> Result<(), AllocError>
    ensures { OnOk result (string_bytes text.new ≡ string_bytes text.old ++
        attribute_text (escaped_attribute (plain_attribute attribute.now))) }
{
    let name = attribute.0;
    write!(text, " {name}=\"")?;
    put_value(text, &attribute.1)?;
    text.push_str("\"")
}

/// Appends the attributes, each after a space.
#[tactic(auto, unfolding(crate::specs::Trees::attributes_text))]
pub fn put_attributes<A: Allocator>(
    text: &mut String<A>,
    attributes: &[Attribute],
) -> Result<(), AllocError>
    ensures { OnOk result (string_bytes text.new ≡ string_bytes text.old ++
        attributes_text (map escaped_attribute (plain_attributes attributes.now))) }
{
    for attribute in attributes {
        put_attribute(text, attribute)?;
    }
    Ok(())
}
