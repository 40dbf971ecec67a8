//! Appends texts as they stand in XML.
ghost use Rattle.std.specs.Prelude.{◌≡◌, ◌++◌, OnOk, string_bytes, decimal};
ghost use Rattle.svg_core.specs.Escapes.{escape, escaped, is_plain, stand_in};

use std::alloc::{AllocError, Allocator};

/// Whether `put_byte` appends the byte as it is: a line feed, or printable ASCII that isn't one of `"&'<>`.
fn is_plain(byte: u8) -> bool
    ensures { result ≡ is_plain byte }
{
    matches!(byte, b'\n' | b' '..=b'~') && !matches!(byte, b'"' | b'&' | b'\'' | b'<' | b'>')
}

/// What `put_byte` appends in place of a byte that isn't plain (see `is_plain`): an entity of XML, or `?`.
fn stand_in(byte: u8) -> &'static str
    ensures { result.now ≡ stand_in byte }
{
    match byte {
        b'"' => "&quot;",
        b'&' => "&amp;",
        b'\'' => "&apos;",
        b'<' => "&lt;",
        b'>' => "&gt;",
        _ => "?",
    }
}

/// Appends the byte, as an entity for each of `"&'<>`; `?` for a control other than a line feed, and for a byte that
/// isn't ASCII.
fn put_byte<A: Allocator>(text: &mut String<A>, byte: u8) -> Result<(), AllocError>
    ensures { OnOk result (string_bytes text.new ≡ string_bytes text.old ++ escape byte) }
{
    if is_plain(byte) {
        text.push(byte as char)
    } else {
        text.push_str(stand_in(byte))
    }
}

/// Appends the words as they stand in XML. Each byte that is a control, other than a line feed, or isn't ASCII becomes
/// `?`.
#[tactic(auto, unfolding(crate::specs::Escapes::escaped))]
pub fn put_escaped<A: Allocator>(text: &mut String<A>, words: &str) -> Result<(), AllocError>
    ensures { OnOk result (string_bytes text.new ≡ string_bytes text.old ++ escaped words.now) }
{
    let bytes = words.as_bytes();
    for byte in bytes {
        put_byte(text, *byte)?;
    }
    Ok(())
}

/// Appends the digits of a number, which need no escape.
#[tactic(auto, using(crate::proofs::Plain::escaped_decimal))]
pub fn put_number<A: Allocator>(text: &mut String<A>, number: u64) -> Result<(), AllocError>
    ensures { OnOk result (string_bytes text.new ≡ string_bytes text.old ++ escaped (decimal number)) }
{
    write!(text, "{number}")
}
